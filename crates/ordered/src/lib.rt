// Lists in an order, over slices: where a thing belongs, and how it is put there.
#![tactic(auto)]

ghost use Rattle.std.specs.Prelude.{◌≡◌, ◌<◌, ◌≤◌, length, IsOk, OnOk, OnErr, IfErr, MatchResult, slice_index_or};
ghost use Rattle.base.specs.Words.{Iff};
ghost use Rattle.ordered.specs.Lists.{Ascending, Ranking, Ranks, Level, Gap, opened};
ghost use Rattle.ordered.specs.Sets.{Before};
ghost use Rattle.ordered.specs.SetsLemmas.{before_ranking};

use base::contains;
use std::cmp::Ordering;

// Things in an order. Two different things may be level, as two records of one key are.
// kept: no `Ord`, since a set is a plain u64 and the order of sets is not that of numbers
pub trait Ranked: Copy {
    // One comes before the other.
    ghost before: { Self → Self → Type 0 };

    fn rank(self, other: Self) -> Ordering
        ensures { Ranks before self other result };

    ghost ranking: { Ranking before };
}

// Sets of the numbers 0 to 63. The set that holds the smallest number in which two sets differ comes first.
impl Ranked for u64 {
    ghost before = { Before };

    ghost ranking = { before_ranking };

    fn rank(self, other: u64) -> Ordering {
        if self == other {
            Ordering::Equal
        } else if contains(self, (self ^ other).trailing_zeros()) {
            Ordering::Less
        } else {
            Ordering::Greater
        }
    }
}

// Where in an ascending list x stands: the place of an entry that is level with x, or else the gap that x belongs in.
pub fn place_of<E: Ranked>(list: &[E], x: E) -> Result<usize, usize>
    ensures found { MatchResult result (λ i. (i < length list.now) × ((d : E) → Level E.before (slice_index_or list.now i d) x)) (λ p. p ≤ length list.now) }
    ensures gap { Ascending E.before list.now → IfErr result (Gap E.before list.now x) }
{
    // kept: a search by hand, since `binary_search_by` says what it finds only to one who can say beforehand how any two things
    // rank, and the law of `Ranked` does not ask that
    let mut low = 0;
    let mut high = list.len();
    while low < high {
        let middle = low + (high - low) / 2;
        match list[middle].rank(x) {
            Ordering::Less => low = middle + 1,
            Ordering::Greater => high = middle,
            Ordering::Equal => return Ok(middle),
        }
    }
    Err(low)
}

// There is no room for one more, or the place lies past the entries in use.
#[derive(Clone, Copy, PartialEq, Eq, Debug)]
pub struct NoRoom;

// Puts x in at `place` among the first `count` entries, and moves those from there on up by one.
// Without room nothing changes. The count stands beside the slice, which is lent by the caller or lies in the sheet.
pub fn insert<E: Copy>(list: &mut [E], count: usize, place: usize, x: E) -> Result<(), NoRoom>
    ensures room { Iff (IsOk result) ((count < length list.old) × (place ≤ count)) }
    ensures put { OnOk result (list.new ≡ opened list.old count place x) }
    ensures kept { OnErr result (list.new ≡ list.old) }
{
    if count >= list.len() || place > count {
        return Err(NoRoom);
    }
    list.copy_within(place..count, place + 1);
    list[place] = x;
    Ok(())
}
