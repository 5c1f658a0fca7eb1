ghost use Rattle.std.specs.Prelude.{◌≡◌, ℕ, ◌≤◌, length, take, MatchResult};

use crate::known::{add, look_over};
use crate::question::Question;
use base::{contains, with_place};
use logics::Logic;
use ordered::NoRoom;

// kept: places and work area are lent by the caller, which is a rule of the project, and the count of the places in use stands beside them
impl<'a, L: Logic> Question<'a, L> {
    ghost use Rattle.supports.specs.Asked.{asked, Yields, AllSupports, MoreThan, Ready, Known};
    ghost use Rattle.supports.specs.Search.{HitsAll, Earlier};
    ghost use Rattle.supports.specs.Walk.{Foreseen, Visited};

    // Where `out` hits every known support: what is left yields nothing, or it holds a support that is new.
    fn fresh(
        &self,
        out: u64,
        places: &mut [u64],
        count: usize,
        area: &mut [u8],
    ) -> Result<Option<(u64, usize)>, NoRoom>
        requires ready { Ready (asked L.meaning self.now) area.old }
        requires known { Known (asked L.meaning self.now) places.old count }
        requires hits { HitsAll out (take count places.old) }
        ensures next { (may : ℕ) → Foreseen (asked L.meaning self.now) places.old count out may result places.new }
        ensures area { area.new ≡ area.old }
    {
        let rest = self.all & !out;
        if !self.yields(rest, area) {
            return Ok(None);
        }
        let support = self.shrink(rest, area);
        let known = add(places, count, support)?;
        Ok(Some((support, known)))
    }

    // What is to be done about the sets that hold `out`: branch on a support that `out` does not hit, and so many are known then;
    // or nothing, as none of the sets hits every support and leaves axioms that yield the goal.
    fn foresee(
        &self,
        out: u64,
        may: u64,
        places: &mut [u64],
        count: usize,
        area: &mut [u8],
    ) -> Result<Option<(u64, usize)>, NoRoom>
        requires ready { Ready (asked L.meaning self.now) area.old }
        requires known { Known (asked L.meaning self.now) places.old count }
        requires earlier { Earlier (asked L.meaning self.now) (take count places.old) out may }
        ensures next { Foreseen (asked L.meaning self.now) places.old count out may result places.new }
        ensures area { area.new ≡ area.old }
    {
        let look = look_over(&places[..count], out);
        if look.sole != out {
            // some axiom of `out` is never needed, so no minimal hitting set holds `out`
            return Ok(None);
        }
        match look.unhit {
            Some(support) => Ok(Some((support, count))),
            None => self.fresh(out, places, count, area),
        }
    }

    // Walks, depth first, over the sets that hold `out`, otherwise only axioms of `may`, and hit every support known so far.
    // Answers how many supports are known then.
    fn visit(
        &self,
        out: u64,
        may: u64,
        places: &mut [u64],
        count: usize,
        area: &mut [u8],
    ) -> Result<usize, NoRoom>
        requires ready { Ready (asked L.meaning self.now) area.old }
        requires known { Known (asked L.meaning self.now) places.old count }
        requires earlier { Earlier (asked L.meaning self.now) (take count places.old) out may }
        ensures visited { Visited (asked L.meaning self.now) places.old count out may result places.new }
        ensures area { area.new ≡ area.old }
    {
        let Some((support, mut known)) = self.foresee(out, may, places, count, area)? else {
            return Ok(count);
        };
        // the axioms of `may` that a branch may take: those of the support only before the axiom that it branches by
        let mut allowed = may & !support;
        // kept: a loop over numbers, since a set is no slice
        for x in 0..64 {
            if contains(may & support, x) {
                known = self.visit(with_place(out, x), allowed, places, known, area)?;
                allowed = with_place(allowed, x);
            }
        }
        Ok(known)
    }

    // Finds a first support of a goal that follows from `all`, and walks on from there.
    pub(crate) fn walk_all(&self, places: &mut [u64], area: &mut [u8]) -> Result<usize, NoRoom>
        requires ready { Ready (asked L.meaning self.now) area.old }
        requires yielding { Yields (asked L.meaning self.now) self.now.all }
        ensures walked { MatchResult result (λ n. (n ≤ length places.old) × AllSupports (asked L.meaning self.now) (take n places.new)) (λ _. MoreThan (asked L.meaning self.now) (length places.old)) }
        ensures area { area.new ≡ area.old }
    {
        let support = self.shrink(self.all, area);
        let known = add(places, 0, support)?;
        self.visit(0, self.all, places, known, area)
    }
}
