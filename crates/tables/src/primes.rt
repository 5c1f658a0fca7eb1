// Which labels of a table are join prime, by the joins of its labels and its order seen from above.
ghost use Rattle.std.specs.Prelude.{ℕ, ◌<◌};
ghost use Rattle.base.specs.Bits.{Has};
ghost use Rattle.base.specs.Words.{Iff};
ghost use Rattle.tables.specs.Rows.{SplitBits, SplitSet, Within, entry};

use crate::order::Order;

// The numbers that are at or below one of a and b wherever they are at or below the join of the two, for each label b.
fn prime_row(joins: &[[u8; 32]; 32], down: &Order, a: usize) -> u32
    requires known { a < down.now.labels }
    requires within { Within down.now.labels joins.now }
    ensures { (u : ℕ) → Iff (Has result u) ((u < 32) × ((b : ℕ) → b < down.now.labels → SplitBits down.now.rows u a b (entry joins.now a b))) }
{
    let mut primes = u32::MAX;
    // kept: b is a place in a row of joins and a row of the order alike, and a third row is read beside it
    for b in 0..down.labels as usize {
        let j = joins[a][b] as usize;
        primes &= !down.rows[j] | down.rows[a] | down.rows[b];
    }
    primes
}

// The labels that are at or below one of two labels wherever they are at or below the join of the two.
pub fn prime_set(joins: &[[u8; 32]; 32], down: &Order) -> u32
    requires within { Within down.now.labels joins.now }
    ensures { SplitSet down.now.labels down.now.rows joins.now result }
{
    let mut primes = down.all();
    // a loop over numbers: `prime_row` reads the rows of a and of each b
    for a in 0..down.labels as usize {
        primes &= prime_row(joins, down, a);
    }
    primes
}
