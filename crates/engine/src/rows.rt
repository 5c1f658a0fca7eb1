ghost use Rattle.std.specs.Prelude.{◌≡◌, ◌<◌, ◌≤◌, T, ◌⊎◌, [], length, MatchOption, slice_get};
ghost use Rattle.base.specs.Words.{Iff, In};
ghost use Rattle.engine.specs.Rows.{ByGoal, HasRow, NoRow, Put};
ghost use Rattle.engine.specs.GoalOrder.{row_ranking};

use crate::page::Row;
use ordered::{Ranked, insert, place_of};
use std::cmp::Ordering;
use std::marker::Model;

// Rows by their goals: by the first number, then by the second.
impl Ranked for Row {
    ghost before = { ByGoal };

    ghost ranking = { row_ranking };

    fn rank(self, other: Row) -> Ordering {
        self.goal.cmp(&other.goal)
    }
}

// The rows of the published goals, one each, ascending by goal: the first `count` of 64.
// No `ArrayVec`: insertion is written once, over slices, for rows and for supports.
#[derive(Drop)]
pub struct RowTable {
    rows: [Row; 64],
    count: usize,
}

impl Model for RowTable {
    ghost use Rattle.std.specs.Prelude.{List, take};
    ghost use Rattle.engine.specs.declared.page.Row.{Row as AnyRow};
    ghost use Rattle.engine.specs.Rows.{InUse};

    ghost Value = { List AnyRow };

    ghost view = { λ t. take t.count t.rows };

    ghost invariant = { λ t. InUse t.rows t.count };
}

impl RowTable {
    ghost use Rattle.ordered.specs.Lists.{Ascending};

    pub(crate) fn new() -> RowTable
        ensures { result ≡ [] }
    {
        RowTable {
            rows: [Row::default(); 64],
            count: 0,
        }
    }

    // No row is left.
    pub(crate) fn clear(&mut self)
        ensures { self.new ≡ [] }
    {
        self.count = 0;
    }

    // The rows, in order.
    pub(crate) fn rows(&self) -> &[Row]
        ensures is { result.now ≡ self.now }
        ensures ascending { Ascending ByGoal self.now }
    {
        &self.rows[..self.count]
    }

    // The boundary in the row of the goal. `None` where no row is of the goal.
    pub(crate) fn lookup(&self, goal: (u32, u32)) -> Option<Option<u32>>
        ensures { MatchOption result (NoRow self.now goal) (λ v. In (record { goal = goal; boundary = v }) self.now) }
    {
        let rows = self.rows();
        let key = Row {
            goal,
            boundary: None,
        };
        let place = place_of(rows, key).ok()?;
        Some(rows[place].boundary)
    }

    // Is there a row of the goal, or a place for one?
    pub(crate) fn has_room(&self, goal: (u32, u32)) -> bool
        ensures room { T result → (length self.now < 64) ⊎ HasRow self.now goal }
        ensures full { (T result → ⊥) → (64 ≤ length self.now) × NoRow self.now goal }
    {
        self.count < 64 || self.lookup(goal).is_some()
    }

    // Puts a row in its place, unless one of its goal is there.
    pub(crate) fn put(&mut self, row: Row)
        requires { (length self.old < 64) ⊎ HasRow self.old row.goal }
        ensures { Put self.old row self.new }
    {
        if let Err(place) = place_of(self.rows(), row) {
            insert(&mut self.rows, self.count, place, row).unwrap();
            self.count += 1;
        }
    }

    // The row at a place.
    pub(crate) fn get(&self, place: usize) -> Option<Row>
        ensures { result ≡ slice_get self.now place }
    {
        self.rows().get(place).copied()
    }
}
