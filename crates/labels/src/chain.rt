ghost use Rattle.std.specs.Prelude.{◌≡◌, ◌<◌, T};
ghost use Rattle.base.specs.Words.{Iff};
ghost use Rattle.labels.specs.Order.{Means, JoinPrime};
ghost use Rattle.labels.specs.Chain.{chain, ChainSize};
ghost use Rattle.labels.specs.Fault.{Sized};
ghost use Rattle.labels.specs.Chains.{chain_lawful};

use crate::fault::KindFault;
use crate::kind::LabelKind;

// Labels in one line, in the order of numbers.
#[derive(Clone, Copy, PartialEq, Eq, Debug)]
pub struct Chain {
    labels: u32,
    ghost ok: { ChainSize labels },
}

impl Chain {
    pub fn new(labels: u32) -> Result<Chain, KindFault>
        ensures { Sized (ChainSize labels) (λ k. Means (chain k.labels) (chain labels)) result }
    {
        if !(1..=65_536).contains(&labels) {
            return Err(KindFault::SizeOutOfLimits);
        }
        Ok(Chain { labels })
    }
}

impl LabelKind for Chain {
    ghost meaning = { λ k. chain k.labels };

    ghost lawful = { λ k. chain_lawful k.labels k.ok };

    fn size(&self) -> u64 {
        u64::from(self.labels)
    }

    fn at_or_below(&self, a: u32, b: u32) -> bool {
        a <= b && self.is_label(b)
    }

    // kept beside `join`: the two differ by `min` and `max`, and one function for both would be handed that as a closure
    fn meet(&self, a: u32, b: u32) -> u32 {
        if self.is_label(a) && self.is_label(b) {
            a.min(b)
        } else {
            0
        }
    }

    fn join(&self, a: u32, b: u32) -> u32 {
        if self.is_label(a) && self.is_label(b) {
            a.max(b)
        } else {
            0
        }
    }

    fn top(&self) -> u32 {
        self.labels - 1
    }

    // Every label is admitted.
    fn admits(&self, user: u32) -> bool
        ensures prime { Iff (T result) (JoinPrime (chain self.now.labels) user) }
        ensures which { Iff (T result) (user < self.now.labels) }
    {
        self.is_label(user)
    }
}
