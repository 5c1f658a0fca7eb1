ghost use Rattle.std.specs.Prelude.{◌≡◌, false, [], is_ok};
ghost use Rattle.labels.specs.Fault.{Sized};
ghost use Rattle.tables.specs.Table.{TableSize};
ghost use Rattle.tables.specs.Rows.{Keeps, Added};

use crate::order::Order;
use labels::fault::KindFault;

// A table in the making: the order of the pairs that were added so far.
#[derive(Drop, PartialEq, Eq, Debug)]
pub struct TableBuilder {
    pub(crate) order: Order,
}

impl TableBuilder {
    // A table of so many labels, with no pair yet.
    pub fn new(labels: u32) -> Result<TableBuilder, KindFault>
        ensures { Sized (TableSize labels) (λ b. (b.order.labels ≡ labels) × Keeps labels b.order.rows []) result }
    {
        if !(1..=32).contains(&labels) {
            return Err(KindFault::SizeOutOfLimits);
        }
        Ok(TableBuilder {
            order: Order::apart(labels),
        })
    }

    // One pair more: low is at or below high. A refused pair leaves the pairs as they were.
    pub fn add(&mut self, low: u32, high: u32) -> Result<(), KindFault>
        ensures pairs { Added self.old.order.labels self.old.order.rows (low, high) result self.new.order.rows }
        ensures labels { self.new.order.labels ≡ self.old.order.labels }
        ensures refused { is_ok result ≡ false → self.new.order.rows ≡ self.old.order.rows }
    {
        if !self.order.is_label(low) || !self.order.is_label(high) {
            return Err(KindFault::NotALabel);
        }
        if self.order.closes_loop(low, high) {
            return Err(KindFault::Loop);
        }
        self.order.link(low, high);
        Ok(())
    }
}
