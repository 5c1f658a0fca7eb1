ghost use Rattle.std.specs.Prelude.{◌≡◌, ◌^◌, T};
ghost use Rattle.base.specs.Bits.{AtMostOne};
ghost use Rattle.base.specs.Words.{Iff};
ghost use Rattle.labels.specs.Order.{Means, Label, JoinPrime};
ghost use Rattle.labels.specs.Sets.{sets, SetsSize};
ghost use Rattle.labels.specs.Fault.{Sized};
ghost use Rattle.labels.specs.Inclusion.{sets_lawful};

use crate::fault::KindFault;
use crate::kind::LabelKind;

// Sets of regions, ordered by inclusion: bit k of a label stands for region k.
#[derive(Clone, Copy, PartialEq, Eq, Debug)]
pub struct Sets {
    regions: u32,
    ghost ok: { SetsSize regions },
}

impl Sets {
    pub fn new(regions: u32) -> Result<Sets, KindFault>
        ensures { Sized (SetsSize regions) (λ k. Means (sets k.regions) (sets regions)) result }
    {
        if regions > 32 {
            return Err(KindFault::SizeOutOfLimits);
        }
        Ok(Sets { regions })
    }
}

impl LabelKind for Sets {
    ghost meaning = { λ k. sets k.regions };

    ghost lawful = { λ k. sets_lawful k.regions k.ok };

    fn size(&self) -> u64 {
        1 << self.regions
    }

    fn at_or_below(&self, a: u32, b: u32) -> bool {
        self.is_label(b) && a & b == a
    }

    fn meet(&self, a: u32, b: u32) -> u32 {
        if self.is_label(a) && self.is_label(b) {
            a & b
        } else {
            0
        }
    }

    fn join(&self, a: u32, b: u32) -> u32 {
        if self.is_label(a) && self.is_label(b) {
            a | b
        } else {
            0
        }
    }

    fn top(&self) -> u32 {
        (self.size() - 1) as u32
    }

    // The empty set and the single regions are admitted.
    fn admits(&self, user: u32) -> bool
        ensures prime { Iff (T result) (JoinPrime (sets self.now.regions) user) }
        ensures which { Iff (T result) (Label (sets self.now.regions) user × AtMostOne user) }
    {
        self.is_label(user) && user.count_ones() <= 1
    }
}
