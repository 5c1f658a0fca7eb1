// What is written for a file.
ghost use Rattle.std.specs.Prelude.{◌≤◌, length, take};
ghost use Rattle.report.specs.Answer.{Answers};

use crate::told::fault_line;
use crate::whole::report;

// Puts the report of a file into the output, or the line of its refusal, and answers its length.
pub fn answer_file(file: &[u8], places: &mut [u64], area: &mut [u8], output: &mut [u8]) -> usize
    ensures within { result ≤ length output.old }
    ensures told { Answers (length places.old) (length area.old) (length output.old) file.now (take result output.new) }
{
    // kept: a match, as a closure for the refusal would have to write the output
    match report(file, places, area, output) {
        Ok(length) => length,
        Err(fault) => fault_line(fault, output).unwrap_or(0),
    }
}
