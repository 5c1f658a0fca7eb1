ghost use Rattle.std.specs.Prelude.{◌≡◌, ℕ, List, MatchResult};
ghost use Rattle.labels.specs.Order.{Means};
ghost use Rattle.labels.specs.declared.fault.KindFault.TheVariants.{NoMeetOrJoin};
ghost use Rattle.tables.specs.Table.{table, Lacking, TableTaken, TableRefused};
ghost use Rattle.tables.specs.Rows.{matrix, Finished, Keeps, ZerosBeyond};
ghost use Rattle.tables.specs.OneProof.{finished_one};
ghost use Rattle.tables.specs.Laws.{table_lawful};

use crate::builder::TableBuilder;
use crate::order::Order;
use crate::primes::prime_set;
use base::contains;
use labels::fault::KindFault;
use labels::kind::LabelKind;
use labels::square::entry;

// A label kind whose order is given by pairs. Every question is answered by look-up.
#[derive(Drop, PartialEq, Eq, Debug)]
pub struct Table {
    order: Order,
    // the meet and the join of a and b stand in row a, at place b
    meets: [[u8; 32]; 32],
    joins: [[u8; 32]; 32],
    top: u32,
    // the labels that are admitted as users
    primes: u32,
    ghost finished: { Finished (matrix order.labels order.rows) meets joins top primes } by { finished_one order.labels order.rows meets joins top primes },
    ghost beyond: { ZerosBeyond order.labels meets × ZerosBeyond order.labels joins },
}

impl TableBuilder {
    // The table of the pairs that were added.
    pub fn finish(self) -> Result<Table, KindFault>
        ensures { (pairs : List (ℕ × ℕ)) → Keeps self.order.labels self.order.rows pairs → MatchResult result (λ t. (Lacking (table self.order.labels pairs) → ⊥) × Means (matrix t.order.labels t.order.rows) (table self.order.labels pairs)) (λ f. (f ≡ NoMeetOrJoin) × Lacking (table self.order.labels pairs)) }
    {
        let TableBuilder { order } = self;
        let down = order.flipped();
        let joins = order.joins()?;
        let meets = down.joins()?;
        let top = down.lowest().unwrap();
        let primes = prime_set(&joins, &down);
        Ok(Table {
            order,
            meets,
            joins,
            top,
            primes,
        })
    }
}

impl Table {
    // The table of so many labels and these pairs, taken one after the other.
    pub fn new(labels: u32, pairs: &[(u32, u32)]) -> Result<Table, KindFault>
        ensures { MatchResult result (λ t. TableTaken labels pairs.now × Means (matrix t.order.labels t.order.rows) (table labels pairs.now)) (TableRefused labels pairs.now) }
    {
        let mut builder = TableBuilder::new(labels)?;
        for &(low, high) in pairs {
            builder.add(low, high)?;
        }
        builder.finish()
    }
}

impl LabelKind for Table {
    ghost meaning = { λ t. matrix t.order.labels t.order.rows };

    ghost lawful = { λ t. table_lawful _ _ _ _ _ _ t.finished t.order.sized };

    fn size(&self) -> u64 {
        u64::from(self.order.labels)
    }

    fn at_or_below(&self, a: u32, b: u32) -> bool {
        self.order.at_or_below(a, b)
    }

    fn meet(&self, a: u32, b: u32) -> u32 {
        entry(&self.meets, a, b)
    }

    fn join(&self, a: u32, b: u32) -> u32 {
        entry(&self.joins, a, b)
    }

    fn top(&self) -> u32 {
        self.top
    }

    fn admits(&self, user: u32) -> bool {
        contains(u64::from(self.primes), user)
    }
}
