// Deciding a goal by ticking cells: two at first, and then round by round what follows from those that are ticked.
ghost use Rattle.std.specs.Prelude.{◌≡◌, ◌≤◌, T, List, length};
ghost use Rattle.base.specs.Words.{Iff};
ghost use Rattle.logics.specs.Entailment.{Each, Goal, Monotone};
ghost use Rattle.logics.specs.Plan.{Plan, Answered, Begun, Blank, KeptSound, Ready, Round, Laid};
ghost use Rattle.logics.specs.declared.Record.{Record as Axiom};

use crate::area::{clear, tick};
use crate::marked::Marked;
use crate::{Logic, Record};

// A logic that is decided so: the layout of its questions, and one round.
pub(crate) trait Saturates: Drop {
    ghost plan: { Self → Plan };

    fn cells(&self) -> usize
        ensures { result ≡ (plan self.now).logic.bytes };

    fn takes(&self, record: Record) -> bool
        ensures { Iff (T result) ((plan self.now).logic.TakesRecord «record») };

    fn poses(&self, goal: (u32, u32)) -> bool
        ensures { Iff (T result) ((plan self.now).logic.TakesGoal goal) };

    // The goal's cell.
    fn place(&self, goal: (u32, u32)) -> usize
        requires { (plan self.now).logic.TakesGoal goal }
        ensures { result ≡ (plan self.now).place goal };

    // The cells to tick first.
    fn firsts(&self, goal: (u32, u32)) -> (usize, usize)
        requires { (plan self.now).logic.TakesGoal goal }
        ensures { result ≡ (plan self.now).firsts goal };

    // Ticks what follows from the cells that are ticked, and says whether there was any.
    fn round(&self, given: &Marked, area: &mut [u8]) -> bool
        requires { Ready (plan self.now).logic given.now (length area.old) }
        ensures { (g : Goal) → (plan self.now).logic.TakesGoal g → Round (plan self.now) given.now g area.old area.new result };

    ghost laid: { (s : Self) (g : Goal) → (plan s).logic.TakesGoal g → Laid (plan s) g };

    ghost grows: { (s : Self) → Monotone (plan s).logic };
}

// Does the logic take every one of the records?
fn takes_all<S: Saturates>(logic: &S, given: &Marked) -> bool
    ensures { Iff (T result) (Each (S.plan logic.now).logic.TakesRecord given.now) }
{
    given.iter().all(|record| logic.takes(record))
}

// Ticks the first cells.
fn start<S: Saturates>(logic: &S, goal: (u32, u32), area: &mut [u8])
    requires posed { (S.plan logic.now).logic.TakesGoal goal }
    requires wide { (S.plan logic.now).logic.bytes ≤ length area.old }
    ensures begun { Begun (S.plan logic.now) goal area.new }
    ensures sound { (rs : List Axiom) → KeptSound (S.plan logic.now) rs goal area.old area.new }
{
    let (first, second) = logic.firsts(goal);
    tick(area, first);
    tick(area, second);
}

// Is the goal's cell ticked in the end? The area comes in blank.
fn reach<S: Saturates>(logic: &S, given: &Marked, goal: (u32, u32), area: &mut [u8]) -> bool
    requires ready { Ready (S.plan logic.now).logic given.now (length area.old) }
    requires posed { (S.plan logic.now).logic.TakesGoal goal }
    requires blank { Blank (S.plan logic.now) area.old }
    ensures { Answered (S.plan logic.now) given.now goal result }
{
    start(logic, goal, area);
    let place = logic.place(goal);
    while area[place] == 0 {
        if !logic.round(given, area) {
            return false;
        }
    }
    true
}

impl<S: Saturates> Logic for S {
    ghost meaning = { λ l. (S.plan l).logic };

    ghost monotone = { S.grows };

    fn work_bytes(&self) -> usize {
        self.cells()
    }

    fn takes_record(&self, record: Record) -> bool {
        self.takes(record)
    }

    fn takes_goal(&self, goal: (u32, u32)) -> bool {
        self.poses(goal)
    }

    // a hint: one body for every logic is no longer so small that it is put into its callers by itself
    #[inline]
    fn follows(&self, records: &[Record], marks: u64, goal: (u32, u32), area: &mut [u8]) -> bool {
        let Some(given) = Marked::new(records, marks) else {
            return false;
        };
        if self.cells() > area.len() || !self.poses(goal) || !takes_all(self, &given) {
            return false;
        }
        let cells = &mut area[..self.cells()];
        clear(cells);
        let found = reach(self, &given, goal, cells);
        clear(cells);
        found
    }
}
