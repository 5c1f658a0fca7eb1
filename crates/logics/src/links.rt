// Links between points: what is reached from a point.
ghost use Rattle.std.specs.Prelude.{◌≡◌, MatchResult};
ghost use Rattle.logics.specs.Links.{links, PointLimits};
ghost use Rattle.logics.specs.Plan.{links_plan};
ghost use Rattle.logics.specs.declared.LogicFault.TheVariants.{SizeOutOfLimits};
ghost use Rattle.logics.specs.Chains.{links_laid, leads_more};

use crate::area::infer;
use crate::marked::Marked;
use crate::saturate::Saturates;
use crate::{Form, LogicFault, Record};

/// The logic of links between points.
#[derive(Clone, Copy, PartialEq, Eq, Debug)]
pub struct Links {
    points: u32,
    ghost limits: { PointLimits points },
}

impl Links {
    /// The logic of links between `points` points, 1 to 128 of them.
    pub fn new(points: u32) -> Result<Links, LogicFault>
        ensures { MatchResult result (λ l. PointLimits points × (l.points ≡ points)) (λ f. (f ≡ SizeOutOfLimits) × (PointLimits points → ⊥)) }
    {
        if points >= 1 && points <= 128 {
            Ok(Links { points })
        } else {
            Err(LogicFault::SizeOutOfLimits)
        }
    }
}

impl Saturates for Links {
    ghost plan = { λ l. links_plan l.points };

    ghost laid = { λ s. links_laid s.points };

    ghost grows = { λ s xs ys sub. leads_more sub };

    fn cells(&self) -> usize {
        self.points as usize
    }

    fn takes(&self, record: Record) -> bool {
        Form::try_from(record.form) == Ok(Form::Link)
            && (record.a as u32) < self.points
            && (record.b as u32) < self.points
            && record.c == 0
    }

    // kept: the same as in `El` but for the field; a method for the field would be no shorter than this line
    fn poses(&self, goal: (u32, u32)) -> bool {
        goal.0 < self.points && goal.1 < self.points
    }

    fn place(&self, goal: (u32, u32)) -> usize {
        goal.1 as usize
    }

    fn firsts(&self, goal: (u32, u32)) -> (usize, usize) {
        (goal.0 as usize, goal.0 as usize)
    }

    fn round(&self, given: &Marked, area: &mut [u8]) -> bool {
        let mut changed = false;
        for link in given.iter() {
            let (from, to) = (link.a as usize, link.b as usize);
            changed |= infer(area, from, from, to);
        }
        changed
    }
}
