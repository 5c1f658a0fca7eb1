// The search for all supports of a goal: the minimal sets of axioms that yield it.
#![tactic(auto)]

ghost use Rattle.std.specs.Prelude.{◌≡◌, length, replicate, Some};
ghost use Rattle.logics.specs.Entailment.{Askable};
ghost use Rattle.supports.specs.Found.{Found};

use crate::question::Question;
use logics::{Logic, Record};

mod known;
mod question;
mod walk;

// Fills the places with all supports of the goal among the axioms of `all`, ascending, and answers how many; the other places
// are zero. `None`, and all places zero, where there are more supports than places.
pub fn find_supports<L: Logic>(
    logic: &L,
    records: &[Record],
    all: u64,
    goal: (u32, u32),
    places: &mut [u64],
    area: &mut [u8],
) -> Option<usize>
    ensures found { Askable (L.meaning logic.now) records.now all goal (length area.old) → Found (L.meaning logic.now) records.now all goal places.old area.old result places.new area.new }
    ensures declined { (Askable (L.meaning logic.now) records.now all goal (length area.old) → ⊥) → (result ≡ Some 0) × (places.new ≡ replicate (length places.old) 0) × (area.new ≡ area.old) }
{
    if !logic.follows(records, all, goal, area) {
        places.fill(0);
        return Some(0);
    }
    let question = Question {
        logic,
        records,
        all,
        goal,
    };
    let found = question.walk_all(places, area).ok();
    places[found.unwrap_or(0)..].fill(0);
    found
}
