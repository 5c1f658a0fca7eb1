// What a line does to the sheet and to the print.
ghost use Rattle.std.specs.Prelude.{◌≡◌, ℕ, ◌<◌, ◌≤◌, ◌⊎◌, List, [], ◌∷◌, ◌++◌, length, MatchOption};
ghost use Rattle.lines.specs.declared.form.Form.TheVariants.{Axiom, User, Goal as GoalLine};
ghost use Rattle.lines.specs.declared.form.Line.{Line as AnyLine};
ghost use Rattle.lines.specs.Forms.{section};
ghost use Rattle.report.specs.Checks.{user_count};
ghost use Rattle.report.specs.Meaning.{at, entry};
ghost use Rattle.report.specs.Stands.{Opened, Keeping, Steps, Shows, Sighted, LinePrinted};

use crate::any::{AnyKind, AnyLogic};
use crate::fault::Cause;
use arrayvec::ArrayVec;
use engine::Sheet;
use engine::call::SheetFault;
use labels::check::check_user;
use lines::fault::TextFault;
use lines::form::{AxiomForm, Form, Line};
use logics::{LogicFault, Record};
use prints::Printer;

// A sheet, and the users that its file names, in the file's order.
// kept: places and work area are handed over one by one: a struct of both would hold two `&mut`, and every clause would have to
// say that it still holds the same ones
#[derive(Drop)]
pub struct Desk {
    sheet: Sheet<AnyKind, AnyLogic>,
    users: ArrayVec<u32, 16>,
}

// The record of an axiom line; none where a number of it has more than 16 bits.
fn record_of(form: AxiomForm, line: &Line) -> Option<Record>
    ensures { MatchOption result ((65535 < at line.now 1) ⊎ ((65535 < at line.now 2) ⊎ (65535 < at line.now 3))) (λ x. x ≡ entry form line.now) }
{
    let [_, a, b, c] = line.numbers;
    Some(Record {
        form: u16::from(form),
        a: u16::try_from(a).ok()?,
        b: u16::try_from(b).ok()?,
        c: u16::try_from(c).ok()?,
    })
}

// Each method says what it does to what the desk keeps of the lines (`Keeping`): the lines are no part of the desk.
impl Desk {
    // A sheet with nothing in it, and no users.
    pub(crate) fn open(kind: AnyKind, logic: AnyLogic) -> Desk
        ensures { (p w : ℕ) (before : List AnyLine) → Opened p w before kind logic → Keeping p w before result }
    {
        Desk {
            sheet: Sheet::open(kind, logic),
            users: ArrayVec::new(),
        }
    }

    // Enters the axiom of a line. No logic takes a number of more than 16 bits.
    fn enter_axiom(&mut self, form: AxiomForm, line: &Line) -> Result<(), Cause>
        ensures { (p w : ℕ) (before : List AnyLine) (behind : List ℕ) → line.now.form ≡ Axiom form → Keeping p w before self.old → Steps p w before line.now behind result (Keeping p w (before ++ (line.now ∷ [])) self.new) }
    {
        let Some(record) = record_of(form, line) else {
            if self.sheet.entered() >= 64 {
                return Err(Cause::Sheet(SheetFault::Full));
            }
            return Err(Cause::Sheet(SheetFault::Logic(LogicFault::RecordNotTaken)));
        };
        self.sheet.enter(record, line.numbers[0])?;
        Ok(())
    }

    // Takes the user of a line, if it is admitted. A 17th user's line may not stand, so that there is room here.
    fn add_user(&mut self, line: &Line) -> Result<(), Cause>
        ensures { (p w : ℕ) (before : List AnyLine) (behind : List ℕ) → line.now.form ≡ User → user_count before < 16 → Keeping p w before self.old → Steps p w before line.now behind result (Keeping p w (before ++ (line.now ∷ [])) self.new) }
    {
        let label = line.numbers[0];
        check_user(self.sheet.kind(), label)?;
        self.users
            .try_push(label)
            .map_err(|_| Cause::Text(TextFault::Misplaced))
    }

    // Prints for each user whether the user sees the goal.
    fn print_sights(&self, goal: (u32, u32), print: &mut Printer<'_>) -> Result<(), Cause>
        ensures { (p w : ℕ) (before : List AnyLine) → Keeping p w before self.now → Shows p w before goal → Sighted p w before goal result print.old print.new }
    {
        for user in self.users.as_slice() {
            let yes = self.sheet.see(*user, goal)?;
            print.sight_line(goal, *user, yes);
        }
        Ok(())
    }

    // Publishes the goal of a line and prints its boundary, its supports, and who sees it.
    fn publish_goal(
        &mut self,
        line: &Line,
        places: &mut [u64],
        area: &mut [u8],
        print: &mut Printer<'_>,
    ) -> Result<(), Cause>
        ensures { let p = length places.old in let w = length area.old in (before : List AnyLine) (behind : List ℕ) → line.now.form ≡ GoalLine → Keeping p w before self.old → Steps p w before line.now behind result (Keeping p w (before ++ (line.now ∷ [])) self.new × LinePrinted p w before line.now print.old print.new) }
    {
        let goal = (line.numbers[0], line.numbers[1]);
        let count = self.sheet.publish(goal, places, area)?;
        let boundary = self.sheet.boundary(goal)?;
        print.boundary_line(goal, boundary);
        print.support_lines(goal, &places[..count]);
        self.print_sights(goal, print)
    }

    // Does what a line behind the logic asks for.
    pub(crate) fn take_line(
        &mut self,
        line: &Line,
        places: &mut [u64],
        area: &mut [u8],
        print: &mut Printer<'_>,
    ) -> Result<(), Cause>
        ensures { let p = length places.old in let w = length area.old in (before : List AnyLine) (behind : List ℕ) → 3 ≤ section line.now.form → (section line.now.form ≡ 4 → user_count before < 16) → Keeping p w before self.old → Steps p w before line.now behind result (Keeping p w (before ++ (line.now ∷ [])) self.new × LinePrinted p w before line.now print.old print.new) }
    {
        match line.form {
            Form::Axiom(form) => self.enter_axiom(form, line),
            Form::User => self.add_user(line),
            Form::Goal => self.publish_goal(line, places, area, print),
            _ => Err(Cause::Text(TextFault::Misplaced)),
        }
    }
}
