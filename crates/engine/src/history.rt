ghost use Rattle.std.specs.Prelude.{◌≡◌, map, length, take, drop};
ghost use Rattle.engine.specs.Book.{blank};
ghost use Rattle.engine.specs.Law.{Run, buffers, given};
ghost use Rattle.engine.specs.Makes.{Makes};
ghost use Rattle.engine.specs.Determined.{Determined};

use crate::call::{Answer, Call, SheetFault};
use crate::sheet::Sheet;
use labels::kind::LabelKind;
use logics::Logic;

// Makes one call, with as many of the places and bytes as it asks for and there are.
fn make<K: LabelKind, L: Logic>(
    sheet: &mut Sheet<K, L>,
    call: Call,
    places: &mut [u64],
    area: &mut [u8],
) -> Result<Answer, SheetFault>
    ensures { Makes K.meaning L.meaning (given (length places.old) (length area.old) call) result sheet.old (buffers places.old area.old) sheet.new (buffers places.new area.new) }
{
    match call {
        Call::Enter(entry, label) => sheet.enter(entry, label).map(Answer::Entered),
        Call::Withdraw(number) => sheet.withdraw(number).map(|_| Answer::Done),
        Call::Relabel(number, label) => sheet.relabel(number, label).map(|_| Answer::Done),
        // two arms: the one asks the sheet, and the other changes it
        Call::Supports(goal, most, bytes) => {
            let (p, w) = (most.min(places.len()), bytes.min(area.len()));
            let count = sheet.supports(goal, &mut places[..p], &mut area[..w]);
            count.map(Answer::Count)
        }
        Call::Publish(goal, most, bytes) => {
            let (p, w) = (most.min(places.len()), bytes.min(area.len()));
            let count = sheet.publish(goal, &mut places[..p], &mut area[..w]);
            count.map(Answer::Count)
        }
        Call::Boundary(goal) => sheet.boundary(goal).map(Answer::Bound),
        Call::Row(place) => sheet.row(place).map(Answer::RowAt),
        Call::See(user, goal) => sheet.see(user, goal).map(Answer::Seen),
    }
}

// Opens a sheet and makes the calls on it in order, by its public methods, as many as there are answers to fill; each
// call is given as many of the places and bytes as it asks for and there are.
pub fn run<K: LabelKind, L: Logic>(
    kind: K,
    logic: L,
    calls: &[Call],
    answers: &mut [Result<Answer, SheetFault>],
    places: &mut [u64],
    area: &mut [u8],
)
    ensures lawful { Run (K.meaning kind) (L.meaning logic) blank (buffers places.old area.old) (map (given (length places.old) (length area.old)) (take (length answers.old) calls.now)) (take (length calls.now) answers.new) (buffers places.new area.new) }
    ensures unique { Determined (K.meaning kind) (L.meaning logic) }
    ensures rest { drop (length calls.now) answers.new ≡ drop (length calls.now) answers.old }
{
    let mut sheet = Sheet::open(kind, logic);
    let count = calls.len().min(answers.len());
    // no `zip` with the answers: a proof would know nothing of the answers that are written through it
    for (i, call) in calls[..count].iter().enumerate() {
        answers[i] = make(&mut sheet, *call, places, area);
    }
}
