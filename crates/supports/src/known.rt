ghost use Rattle.std.specs.Prelude.{◌≡◌, ℕ, ◌+◌, ◌≤◌, List, length, take, MatchResult};
ghost use Rattle.ordered.specs.Lists.{Ascending};
ghost use Rattle.ordered.specs.Sets.{Before};
ghost use Rattle.supports.specs.Search.{Joined, Looked, Glanced};

use ordered::{NoRoom, insert, place_of};

// Puts a set in its place among the first `count`, unless it is there, and answers how many there are then.
pub(crate) fn add(places: &mut [u64], count: usize, set: u64) -> Result<usize, NoRoom>
    requires few { count ≤ length places.old }
    requires ascending { Ascending Before (take count places.old) }
    ensures added { MatchResult result (λ n. (n ≤ length places.old) × Joined (take count places.old) set (take n places.new)) (λ _. (count ≡ length places.old) × ((more : List ℕ) × Joined (take count places.old) set more × (length more ≡ count + 1))) }
{
    let Err(place) = place_of(&places[..count], set) else {
        return Ok(count);
    };
    insert(places, count, place, set)?;
    Ok(count + 1)
}

// What a look over the known supports saw.
#[derive(Clone, Copy, Default)]
pub(crate) struct Look {
    // a support that `out` does not hit
    pub(crate) unhit: Option<u64>,
    // axioms of `out`, each the only one of them that hits some support
    pub(crate) sole: u64,
}

impl Look {
    // One support more.
    fn glance(self, support: u64, out: u64) -> Look
        ensures { Glanced out support self.unhit self.sole result.unhit result.sole }
    {
        let both = support & out;
        // kept: two tests and no `match` on the count, which made the look over many supports twice as slow
        if both == 0 {
            Look {
                unhit: Some(support),
                ..self
            }
        } else if both.count_ones() <= 1 {
            Look {
                sole: self.sole | both,
                ..self
            }
        } else {
            self
        }
    }
}

// One look over the known supports.
pub(crate) fn look_over(known: &[u64], out: u64) -> Look
    ensures { Looked known.now out result.unhit result.sole }
{
    known.iter().fold(Look::default(), |look, support| look.glance(*support, out))
}
