// Reads a sheet file from standard input and prints its report, or the line of its refusal.
#![tactic(auto)]

ghost use Rattle.std.specs.Prelude.{◌≤◌, length, IfOk};

use report::answer_file;
use std::io;
use std::io::{Read, Write};

// Reads until the input ends or the buffer is full, and answers how many bytes came.
// kept: a loop of its own, since `io::copy` asks for no more than 8,192 bytes at once, and an input that is handed over record
// by record loses what one reading does not take
fn read_input(input: &mut impl Read, buffer: &mut [u8]) -> io::Result<usize>
    ensures { IfOk result (λ n. n ≤ length buffer.old) }
{
    let mut at = 0;
    while at < buffer.len() {
        let count = input.read(&mut buffer[at..])?;
        if count == 0 {
            break;
        }
        at += count;
    }
    Ok(at)
}

fn main(rt: HostRuntime) -> io::Result<()> {
    // one byte more than a file may have
    let mut file = [0u8; 16_385];
    let length = read_input(&mut rt.stdin(), &mut file)?;
    let mut places = [0u64; 1_024];
    let mut area = [0u8; 16_384];
    let mut output = [0u8; 65_536];
    let printed = answer_file(&file[..length], &mut places, &mut area, &mut output);
    rt.stdout().write_all(&output[..printed])
}
