ghost use Rattle.std.specs.Prelude.{◌≡◌, T};
ghost use Rattle.base.specs.Bits.{Subset};
ghost use Rattle.base.specs.Words.{Iff};

use base::{contains, without_place};
use logics::{Logic, Record};

// Which axioms of `all` yield the goal?
#[derive(Drop)]
pub(crate) struct Question<'a, L> {
    pub(crate) logic: &'a L,
    pub(crate) records: &'a [Record],
    pub(crate) all: u64,
    pub(crate) goal: (u32, u32),
}

// Each method says that it finds the work area ready and leaves it as it was: the area is lent, so no type can say so.
impl<'a, L: Logic> Question<'a, L> {
    ghost use Rattle.supports.specs.Asked.{asked, Yields, Support, Ready};
    ghost use Rattle.supports.specs.Search.{DroppedOne};

    // Does the goal follow from the axioms of the set, some of `all`?
    pub(crate) fn yields(&self, set: u64, area: &mut [u8]) -> bool
        requires ready { Ready (asked L.meaning self.now) area.old }
        requires inside { Subset set self.now.all }
        ensures answer { Iff (T result) (Yields (asked L.meaning self.now) set) }
        ensures area { area.new ≡ area.old }
    {
        self.logic.follows(self.records, set, self.goal, area)
    }

    // The set without the axiom at a place, where the goal still follows from that; else the set as it is.
    fn drop_one(&self, set: u64, place: u32, area: &mut [u8]) -> u64
        requires ready { Ready (asked L.meaning self.now) area.old }
        requires inside { Subset set self.now.all }
        ensures dropped { DroppedOne (asked L.meaning self.now) set place result }
        ensures area { area.new ≡ area.old }
    {
        let less = without_place(set, place);
        if contains(set, place) && self.yields(less, area) {
            less
        } else {
            set
        }
    }

    // A support within a set that yields the goal: each axiom that is not needed is dropped, in order.
    pub(crate) fn shrink(&self, set: u64, area: &mut [u8]) -> u64
        requires ready { Ready (asked L.meaning self.now) area.old }
        requires inside { Subset set self.now.all }
        requires yielding { Yields (asked L.meaning self.now) set }
        ensures support { Support (asked L.meaning self.now) result }
        ensures inside { Subset result set }
        ensures area { area.new ≡ area.old }
    {
        let mut left = set;
        // kept: a loop, since a proof knows nothing of what the closure of a `fold` leaves in the work area
        for place in 0..64 {
            left = self.drop_one(left, place, area);
        }
        left
    }
}
