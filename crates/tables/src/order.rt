// An order of labels, held as rows of bits: bit b of row a says that a is at or below b.
ghost use Rattle.std.specs.Prelude.{◌≡◌, ◌≢◌, ◌-◌, ◌^◌, ◌<◌, T, []};
ghost use Rattle.base.specs.Words.{Iff};
ghost use Rattle.labels.specs.Order.{Under, Joins};
ghost use Rattle.tables.specs.Table.{TableSize};
ghost use Rattle.tables.specs.Rows.{Marked, matrix, Inside, PartialOrder, Keeps, Linked, IsColumn, Flipped, LabelOf, JoinRow, JoinsAll, Joined};
ghost use Rattle.tables.specs.OneProof.{order_one};

use base::{contains, places_where};
use labels::fault::KindFault;
use std::array;

#[derive(Drop, PartialEq, Eq, Debug)]
pub(crate) struct Order {
    pub(crate) labels: u32,
    // kept: room for 32 labels with their number beside it, since the memory is fixed
    pub(crate) rows: [u32; 32],
    ghost sized: { TableSize labels },
    ghost inside: { Inside labels rows },
    ghost ordered: { PartialOrder (matrix labels rows) } by { order_one labels rows },
}

impl Order {
    // So many labels, each at or below itself alone.
    pub fn apart(labels: u32) -> Order
        requires { TableSize labels }
        ensures labels { result.labels ≡ labels }
        ensures keeps { Keeps labels result.rows [] }
    {
        let rows = array::from_fn(|a| if a < labels as usize { 1 << a } else { 0 });
        Order { labels, rows }
    }

    // Is the number one of the labels?
    pub fn is_label(&self, a: u32) -> bool
        ensures { Iff (T result) (a < self.now.labels) }
    {
        a < self.labels
    }

    // Is a at or below b? No, where one of them is no label.
    pub fn at_or_below(&self, a: u32, b: u32) -> bool
        ensures { Iff (T result) (Under (matrix self.now.labels self.now.rows) a b) }
    {
        self.is_label(a) && contains(u64::from(self.rows[a as usize]), b)
    }

    // Would low and high, two labels, each be at or below the other?
    pub fn closes_loop(&self, low: u32, high: u32) -> bool
        ensures { Iff (T result) ((low ≢ high) × Marked self.now.rows high low) }
    {
        low != high && self.at_or_below(high, low)
    }

    // Puts low below high: whatever is at or below low is then at or below what high is below.
    pub fn link(&mut self, low: u32, high: u32)
        requires low { low < self.old.labels }
        requires high { high < self.old.labels }
        requires no_loop { (low ≢ high) × Marked self.old.rows high low → ⊥ }
        ensures labels { self.new.labels ≡ self.old.labels }
        ensures linked { Linked self.old.rows self.new.rows low high }
    {
        let above = self.rows[high as usize];
        let mut rows = self.rows;
        for row in &mut rows[..self.labels as usize] {
            if contains(u64::from(*row), low) {
                *row |= above;
            }
        }
        self.rows = rows;
    }

    // The labels at or below b.
    fn column(&self, b: u32) -> u32
        ensures { IsColumn self.now.rows b result }
    {
        let rows = &self.rows[..self.labels as usize];
        places_where(rows, |row| contains(u64::from(*row), b)) as u32
    }

    // The same order, seen from above: bit a of row b says that a is at or below b.
    pub fn flipped(&self) -> Order
        ensures labels { result.labels ≡ self.now.labels }
        ensures flipped { Flipped self.now.rows result.rows }
    {
        let labels = self.labels;
        let rows = array::from_fn(|b| if b < labels as usize {
            self.column(b as u32)
        } else {
            0
        });
        Order { labels, rows }
    }

    // The label with this row, where there is one.
    fn label_of(&self, row: u32) -> Option<u8>
        ensures { LabelOf self.now.labels self.now.rows row result }
    {
        let rows = &self.rows[..self.labels as usize];
        rows.iter().position(|r| *r == row).map(|label| label as u8)
    }

    // The least label at or above a and b.
    fn join_of(&self, a: usize, b: usize) -> Result<u8, KindFault>
        requires a { a < self.now.labels }
        requires b { b < self.now.labels }
        ensures { let order = matrix self.now.labels self.now.rows in Joined order (Joins order a b) result }
    {
        self.label_of(self.rows[a] & self.rows[b])
            .ok_or(KindFault::NoMeetOrJoin)
    }

    // The joins of a with each label.
    fn join_row(&self, a: usize) -> Result<[u8; 32], KindFault>
        requires { a < self.now.labels }
        ensures { let order = matrix self.now.labels self.now.rows in Joined order (JoinRow order a) result }
    {
        let mut row = [0; 32];
        for (b, join) in row[..self.labels as usize].iter_mut().enumerate() {
            *join = self.join_of(a, b)?;
        }
        Ok(row)
    }

    // The joins of each two labels.
    pub fn joins(&self) -> Result<[[u8; 32]; 32], KindFault>
        ensures { let order = matrix self.now.labels self.now.rows in Joined order (JoinsAll order) result }
    {
        let mut table = [[0; 32]; 32];
        for (a, row) in table[..self.labels as usize].iter_mut().enumerate() {
            *row = self.join_row(a)?;
        }
        Ok(table)
    }

    // The set of all labels.
    pub fn all(&self) -> u32
        ensures { result ≡ 2 ^ self.now.labels - 1 }
    {
        ((1u64 << self.labels) - 1) as u32
    }

    // The label at or below every label, where there is one.
    pub fn lowest(&self) -> Option<u32>
        ensures { LabelOf self.now.labels self.now.rows (2 ^ self.now.labels - 1) result }
    {
        self.label_of(self.all()).map(u32::from)
    }
}
