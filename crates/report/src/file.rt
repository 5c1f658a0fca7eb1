// A whole file, from its first line to its last.
ghost use Rattle.std.specs.Prelude.{◌≡◌, ℕ, ◌+◌, ◌<◌, ◌≤◌, List, [], ◌∷◌, length, MatchResult, ◌≢◌};
ghost use Rattle.lines.specs.declared.form.Line.{Line as AnyLine};
ghost use Rattle.lines.specs.declared.form.Form.TheVariants.{Kind as KindLine};
ghost use Rattle.lines.specs.Forms.{section};
ghost use Rattle.base.specs.Checks.{FirstOf, NoneOf};
ghost use Rattle.labels.specs.Order.{Same};
ghost use Rattle.report.specs.Any.{any_kind};
ghost use Rattle.report.specs.Meaning.{kind_of};
ghost use Rattle.lines.specs.declared.form.KindForm.TheVariants.{Table as TableForm};
ghost use Rattle.report.specs.declared.any.AnyKind.TheVariants.{Table as TableChosen};
ghost use Rattle.report.specs.Checks.{line_checks, Refuses};
ghost use Rattle.report.specs.Stands.{Gets, Stands, Opened, Ends, KindRead, LogicChosen};

use crate::any::{AnyKind, AnyLogic};
use crate::desk::Desk;
use crate::fault::Cause;
use crate::reader::Reader;
use labels::chain::Chain;
use labels::house::House;
use labels::sets::Sets;
use lines::Found;
use lines::fault::TextFault;
use lines::form::{Form, KindForm, Line, LogicForm};
use logics::{El, Links};
use prints::Printer;
use tables::builder::TableBuilder;
use tables::table::Table;

// The axioms, the users and the goals of a file.
fn read_sheet(
    kind: AnyKind,
    logic: AnyLogic,
    reader: &mut Reader<'_>,
    places: &mut [u64],
    area: &mut [u8],
    print: &mut Printer<'_>,
) -> Result<(), Cause>
    ensures { let p = length places.old in let w = length area.old in (file : List ℕ) (before : List AnyLine) → Stands p w file reader.old before → Opened p w before kind logic → Ends p w file print.old result reader.new.lines print.new }
{
    let mut desk = Desk::open(kind, logic);
    // kept: no iterator of lines, since a line is behind the reader only when all that it asks was done
    while !reader.is_done() {
        let found = reader.next_line()?;
        desk.take_line(&found.line, places, area, print)?;
        reader.advance(&found);
    }
    Ok(())
}

// The logic that a G line names.
fn choose_logic(line: &Line) -> Result<AnyLogic, Cause>
    ensures { (p w : ℕ) (before : List AnyLine) (behind : List ℕ) → section line.now.form ≡ 2 → MatchResult result (λ l. LogicChosen line.now l × NoneOf (line_checks p w before line.now behind)) (FirstOf (line_checks p w before line.now behind)) }
{
    let numbers = line.numbers;
    match line.form {
        Form::Logic(LogicForm::El) => Ok(AnyLogic::El(El::new(numbers[0], numbers[1])?)),
        Form::Logic(LogicForm::Links) => Ok(AnyLogic::Links(Links::new(numbers[0])?)),
        _ => Err(Cause::Text(TextFault::Misplaced)),
    }
}

// The logic of a file, and what stands behind it.
fn read_logic(
    kind: AnyKind,
    reader: &mut Reader<'_>,
    places: &mut [u64],
    area: &mut [u8],
    print: &mut Printer<'_>,
) -> Result<(), Cause>
    ensures { let p = length places.old in let w = length area.old in (file : List ℕ) (before : List AnyLine) → KindRead p w file reader.old before kind → Ends p w file print.old result reader.new.lines print.new }
{
    let found = reader.next_line()?;
    let logic = choose_logic(&found.line)?;
    reader.advance(&found);
    read_sheet(kind, logic, reader, places, area, print)
}

// The kind that a K line names, where it is no table.
fn plain_kind(line: &Line) -> Result<AnyKind, Cause>
    ensures { (p w : ℕ) (behind : List ℕ) → section line.now.form ≡ 0 → (line.now.form ≢ KindLine TableForm) → MatchResult result (λ k. Same (any_kind k) (kind_of (line.now ∷ [])) × NoneOf (line_checks p w [] line.now behind)) (FirstOf (line_checks p w [] line.now behind)) }
{
    let size = line.numbers[0];
    match line.form {
        Form::Kind(KindForm::Chain) => Ok(AnyKind::Chain(Chain::new(size)?)),
        Form::Kind(KindForm::Sets) => Ok(AnyKind::Sets(Sets::new(size)?)),
        Form::Kind(KindForm::House) => Ok(AnyKind::House(House::new())),
        _ => Err(Cause::Text(TextFault::Misplaced)),
    }
}

// The table that a K line begins, with the pairs of the O lines behind it.
fn read_table(reader: &mut Reader<'_>, first: Found) -> Result<Table, Cause>
    requires { Gets reader.old first }
    ensures { (p w : ℕ) (file : List ℕ) → Stands p w file reader.old [] → first.line.form ≡ KindLine TableForm → MatchResult result (λ t. (ls : List AnyLine) × KindRead p w file reader.new ls (TableChosen t)) (Refuses p w file (reader.new.lines + 1)) }
{
    let mut found = first;
    let mut builder = TableBuilder::new(found.line.numbers[0])?;
    // kept: no iterator of pairs, since the line behind the last pair stays where it is
    while reader.pair_behind(&found) {
        reader.advance(&found);
        found = reader.next_line()?;
        builder.add(found.line.numbers[0], found.line.numbers[1])?;
    }
    let table = builder.finish()?;
    reader.advance(&found);
    Ok(table)
}

// The label kind of a file.
fn read_kind(reader: &mut Reader<'_>) -> Result<AnyKind, Cause>
    ensures { (p w : ℕ) (file : List ℕ) → Stands p w file reader.old [] → MatchResult result (λ k. (ls : List AnyLine) × KindRead p w file reader.new ls k) (Refuses p w file (reader.new.lines + 1)) }
{
    let found = reader.next_line()?;
    if found.line.form == Form::Kind(KindForm::Table) {
        return Ok(AnyKind::Table(read_table(reader, found)?));
    }
    let kind = plain_kind(&found.line)?;
    reader.advance(&found);
    Ok(kind)
}

// Reads and prints a whole file.
pub(crate) fn read_file(
    reader: &mut Reader<'_>,
    places: &mut [u64],
    area: &mut [u8],
    print: &mut Printer<'_>,
) -> Result<(), Cause>
    ensures { let p = length places.old in let w = length area.old in (file : List ℕ) → Stands p w file reader.old [] → Ends p w file print.old result reader.new.lines print.new }
{
    let kind = read_kind(reader)?;
    read_logic(kind, reader, places, area, print)
}
