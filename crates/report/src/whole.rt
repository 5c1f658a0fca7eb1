// The report of a sheet file.
ghost use Rattle.std.specs.Prelude.{length};
ghost use Rattle.report.specs.Inverse.{ReadBack};
ghost use Rattle.report.specs.OneOutcome.{OneOutcome};
ghost use Rattle.report.specs.Report.{Reported};
ghost use Rattle.report.specs.Stands.{Outcome};

use crate::fault::{Cause, ReportFault};
use crate::file::read_file;
use crate::reader::Reader;
use lines::fault::TextFault;
use prints::Printer;

// The most bytes that a file may have.
const LONGEST_FILE: usize = 16_384;

// Reads and prints the file, but clears nothing.
fn outcome_of(
    file: &[u8],
    places: &mut [u64],
    area: &mut [u8],
    output: &mut [u8],
) -> Result<usize, ReportFault>
    ensures { Outcome (length places.old) (length area.old) file.now output.old result output.new }
{
    if file.len() > LONGEST_FILE {
        return Err(ReportFault {
            line: 0,
            cause: Cause::Text(TextFault::FileTooLong),
        });
    }
    let mut reader = Reader::new(file);
    let mut printer = Printer::new(output);
    let read = read_file(&mut reader, places, area, &mut printer);
    let line = reader.lines + 1;
    read.map_err(|cause| ReportFault { line, cause })?;
    printer.print.length.ok_or(ReportFault {
        line: 0,
        cause: Cause::Text(TextFault::PrintTooLong),
    })
}

// Reads a whole sheet file and prints its report into the output; answers the length of the print. A refused report leaves
// output, places and work area zero, an accepted one all but the print.
pub fn report(
    file: &[u8],
    places: &mut [u64],
    area: &mut [u8],
    output: &mut [u8],
) -> Result<usize, ReportFault>
    ensures told { Reported file.now (length places.old) (length area.old) (length output.old) result places.new area.new output.new }
    ensures unique { OneOutcome file.now (length places.old) (length area.old) (length output.old) }
    ensures inverse { ReadBack (length places.old) (length area.old) }
{
    let outcome = outcome_of(file, places, area, output);
    places.fill(0);
    area.fill(0);
    output[outcome.unwrap_or(0)..].fill(0);
    outcome
}
