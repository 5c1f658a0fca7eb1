// Reads many sheet files from standard input, each behind a line with its name and its length, and prints for each its name
// and what `sheet` prints for the file.
#![tactic(auto)]

ghost use Rattle.std.specs.Prelude.{◌<◌, ◌≤◌, length, IfSome};

use anyhow::Context;
use report::answer_file;
use std::io::{Read, Write};
use std::str::from_utf8;

// A case, and the bytes behind it.
#[derive(Drop)]
struct Case<'a> {
    name: &'a str,
    file: &'a [u8],
    rest: &'a [u8],
}

// The name and the length that a header line `case NAME LENGTH` gives.
fn read_header(line: &[u8]) -> Option<(&str, usize)> {
    let text = from_utf8(line).ok()?;
    let (name, length) = text.strip_prefix("case ")?.split_once(' ')?;
    let length = length.parse::<usize>().ok()?;
    Some((name, length))
}

// The first case of the input: a header line, as many bytes as it says, and a line end.
fn next_case(input: &[u8]) -> Option<Case<'_>>
    ensures { IfSome result (λ c. length c.rest.now < length input.now) }
{
    let at = input.iter().position(|b| *b == b'\n')?;
    let (name, length) = read_header(&input[..at])?;
    let (file, behind) = input[at + 1..].split_at_checked(length)?;
    let rest = behind.strip_prefix(b"\n")?;
    Some(Case { name, file, rest })
}

// Prints the name and the answer of each case, up to the first that is not of its form.
fn print_cases(input: &[u8], out: &mut impl Write) -> anyhow::Result<()> {
    let mut places = [0u64; 1_024];
    let mut area = [0u8; 16_384];
    let mut output = [0u8; 65_536];
    let mut rest = input;
    // kept: a case's header says where the next one begins, so no method of slices parts them
    while !rest.is_empty() {
        let case = next_case(rest).context(
            "a case is a line `case NAME LENGTH`, that many bytes and a line end",
        )?;
        let name = case.name;
        writeln!(out, "== {name}")?;
        let printed = answer_file(case.file, &mut places, &mut area, &mut output);
        out.write_all(&output[..printed])?;
        rest = case.rest;
    }
    Ok(())
}

fn run(rt: &HostRuntime) -> anyhow::Result<()> {
    let mut input = Vec::new(rt.alloc());
    rt.stdin().read_to_end(&mut input)?;
    print_cases(input.as_slice(), &mut rt.stdout())
}

fn main(rt: HostRuntime) -> anyhow::Result<()> {
    run(&rt)
}
