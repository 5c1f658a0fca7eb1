// One line of a sheet file.
ghost use Rattle.std.specs.Prelude.{◌≡◌, ℕ, ◌<◌, ◌≤◌, List, [], ◌∷◌, length, drop, Ok, MatchOption, MatchResult};
ghost use Rattle.base.specs.Words.{In};
ghost use Rattle.lines.specs.declared.form.Line.{Line as AnyLine};
ghost use Rattle.lines.specs.Lines.{text};
ghost use Rattle.lines.specs.Reading.{Parted, NoNumber, Numbered, Next, TextFails};

use crate::cut::find;
use crate::fault::TextFault;
use crate::form::{Form, Line};
use crate::number::read_number;
use crate::shape::shape_of;
use crate::stand::may_stand;

// The first of the fields, each behind a comma, and the others.
fn first_field(fields: &[u8]) -> Option<(&[u8], &[u8])>
    ensures { (parts : List (List ℕ)) → Parted fields.now parts → MatchOption result (parts ≡ []) (λ x. (others : List (List ℕ)) × (parts ≡ x.0.now ∷ others) × Parted x.1.now others) }
{
    let (_, behind) = fields.split_first()?;
    Some(behind.split_at(find(behind, b',').unwrap_or(behind.len())))
}

// The numbers of at most four fields, each behind a comma, and zeros behind them; none where a field is no number.
fn read_numbers(fields: &[u8]) -> Option<[u32; 4]>
    ensures { (parts : List (List ℕ)) → Parted fields.now parts → length parts ≤ 4 → MatchOption result ((f : List ℕ) × In f parts × NoNumber f) (Numbered parts) }
{
    let mut numbers = [0; 4];
    // kept: no `split` beside the numbers, since a proof knows nothing of what is written through a `zip`
    let mut rest = fields;
    for number in &mut numbers {
        let Some((field, others)) = first_field(rest) else {
            break;
        };
        *number = read_number(field)?;
        rest = others;
    }
    Some(numbers)
}

// A line that was read, and how many bytes it takes with its end.
#[derive(Clone, Copy, PartialEq, Eq, Debug)]
pub struct Found {
    pub line: Line,
    pub length: usize,
}

// The next line of a file, after a line of the form `last` and so many lines for users.
pub fn read_line(rest: &[u8], last: Option<Form>, users: usize) -> Result<Found, TextFault>
    ensures told { MatchResult result (λ x. (0 < x.length) × (x.length ≤ length rest.now) × Next last users rest.now x.line (drop x.length rest.now)) (TextFails last users rest.now) }
    ensures inverse { (x : AnyLine) (after : List ℕ) → Next last users rest.now x after → result ≡ Ok (record { line = x; length = length (text x) }) }
{
    let end = find(rest, b'\n').ok_or(TextFault::Malformed)?;
    let (form, fields) = shape_of(&rest[..end]).ok_or(TextFault::Malformed)?;
    if !may_stand(last, users, form) {
        return Err(TextFault::Misplaced);
    }
    let numbers = read_numbers(fields).ok_or(TextFault::NotANumber)?;
    let line = Line { form, numbers };
    let length = end + 1;
    Ok(Found { line, length })
}
