// Logics: what they are asked, and what they answer by.
#![tactic(auto)]

ghost use Rattle.std.specs.Prelude.{◌≡◌, T, length, MatchResult};
ghost use Rattle.base.specs.Words.{Iff};
ghost use Rattle.logics.specs.Entailment.{Entailment, Monotone, Askable, marked, Scrubbed};
ghost use Rattle.logics.specs.Faults.{numbered};
ghost use Rattle.logics.specs.declared.LogicFault.TheVariants.{RecordNotTaken, GoalNotTaken};

mod area;
mod el;
mod form;
mod links;
mod marked;
mod saturate;

pub use el::El;
pub use form::{Form, UnknownForm};
pub use links::Links;

/// An axiom as it is written: the number of its form, and three numbers that the form reads.
// kept: `form` is a number and not a `Form`, as a record may be written with any number
#[derive(Clone, Copy, PartialEq, Eq, Debug, Default)]
pub struct Record {
    pub form: u16,
    pub a: u16,
    pub b: u16,
    pub c: u16,
}

/// Why a logic was not made, or did not take a record or a goal.
#[derive(Clone, Copy, PartialEq, Eq, Debug)]
pub enum LogicFault {
    SizeOutOfLimits = 7,
    RecordNotTaken = 9,
    GoalNotTaken = 13,
}

impl LogicFault {
    /// The number that the refusal is known by.
    pub fn number(self) -> u32
        ensures { result ≡ numbered self }
    {
        self as u32
    }
}

/// A logic, by its meaning: the records and goals that it takes, the bytes that it works in, and what follows.
// kept: a goal is a pair of numbers, and records come beside the bits of the marked ones, as the layers above hold them
pub trait Logic: Drop {
    ghost meaning: { Self → Entailment };

    fn work_bytes(&self) -> usize
        ensures { result ≡ (meaning self.now).bytes };

    fn takes_record(&self, record: Record) -> bool
        ensures { Iff (T result) ((meaning self.now).TakesRecord «record») };

    fn takes_goal(&self, goal: (u32, u32)) -> bool
        ensures { Iff (T result) ((meaning self.now).TakesGoal goal) };

    /// Does the goal follow from the records whose bits are set in `marks`? The first `work_bytes` bytes of the area
    /// are zero afterwards. A question that cannot be asked is answered no, and touches nothing.
    fn follows(&self, records: &[Record], marks: u64, goal: (u32, u32), area: &mut [u8]) -> bool
        ensures answered { Askable (meaning self.now) records.now marks goal (length area.old) → Iff (T result) ((meaning self.now).Follows (marked records.now marks) goal) × Scrubbed (meaning self.now).bytes area.old area.new }
        ensures asked { T result → Askable (meaning self.now) records.now marks goal (length area.old) }
        ensures declined { (Askable (meaning self.now) records.now marks goal (length area.old) → ⊥) → (T result → ⊥) × (area.new ≡ area.old) };

    ghost monotone: { (l : Self) → Monotone (meaning l) };
}

/// Refuses a record that the logic does not take.
// kept beside `take_goal`: one function for both would be handed the question as a closure
pub fn take_record<L: Logic>(logic: &L, record: Record) -> Result<(), LogicFault>
    ensures { MatchResult result (λ _. (L.meaning logic.now).TakesRecord «record») (λ f. (f ≡ RecordNotTaken) × ((L.meaning logic.now).TakesRecord «record» → ⊥)) }
{
    let taken = logic.takes_record(record);
    taken.then_some(()).ok_or(LogicFault::RecordNotTaken)
}

/// Refuses a goal that the logic does not take.
pub fn take_goal<L: Logic>(logic: &L, goal: (u32, u32)) -> Result<(), LogicFault>
    ensures { MatchResult result (λ _. (L.meaning logic.now).TakesGoal goal) (λ f. (f ≡ GoalNotTaken) × ((L.meaning logic.now).TakesGoal goal → ⊥)) }
{
    let taken = logic.takes_goal(goal);
    taken.then_some(()).ok_or(LogicFault::GoalNotTaken)
}
