// Concepts and roles: what lies in what.
ghost use Rattle.std.specs.Prelude.{◌≡◌, ◌*◌, ◌<◌, ◌≤◌, ◌==◌, filter, length, MatchResult};
ghost use Rattle.base.specs.Words.{In};
ghost use Rattle.logics.specs.Drawing.{DrawnAt, AllDrawn};
ghost use Rattle.logics.specs.El.{el, ElLimits};
ghost use Rattle.logics.specs.Plan.{Derived, InGrid, Ready, Tried, cell, el_plan};
ghost use Rattle.logics.specs.declared.LogicFault.TheVariants.{SizeOutOfLimits};
ghost use Rattle.logics.specs.Entailed.{el_laid, entails_more};

use crate::area::infer;
use crate::marked::Marked;
use crate::saturate::Saturates;
use crate::{Form, LogicFault, Record};

// The axioms of a round, and those of form 3 among them.
#[derive(Drop)]
struct Axioms<'a> {
    all: Marked<'a>,
    partners: Marked<'a>,
    ghost of_form_3: { partners ≡ filter (λ r. r.form == 3) all },
}

impl<'a> Axioms<'a> {
    fn new(all: &Marked<'a>) -> Axioms<'a>
        ensures { result.all ≡ all.now }
    {
        Axioms {
            all: all.iter(),
            partners: all.of_form(Form::Partner),
        }
    }
}

/// The logic of concepts and roles. Concept 0 is everything.
#[derive(Clone, Copy, PartialEq, Eq, Debug)]
pub struct El {
    concepts: u32,
    roles: u32,
    ghost limits: { ElLimits concepts roles },
}

impl El {
    /// The logic of 1 to 128 concepts and up to 32 roles.
    pub fn new(concepts: u32, roles: u32) -> Result<El, LogicFault>
        ensures { MatchResult result (λ l. ElLimits concepts roles × (l.concepts ≡ concepts) × (l.roles ≡ roles)) (λ f. (f ≡ SizeOutOfLimits) × (ElLimits concepts roles → ⊥)) }
    {
        if concepts >= 1 && concepts <= 128 && roles <= 32 {
            Ok(El { concepts, roles })
        } else {
            Err(LogicFault::SizeOutOfLimits)
        }
    }

    // The cell at a row and a column. Kept a pair: a struct would be made at each call and taken apart here alone.
    fn at(&self, place: (usize, usize)) -> usize
        requires { InGrid self.now.concepts place }
        ensures is { result ≡ cell self.now.concepts place }
        ensures within { result < self.now.concepts * self.now.concepts }
    {
        place.0 * self.concepts as usize + place.1
    }

    // Ticks the cell at `third` if those at `first` and `second` are ticked, and says whether it was blank then.
    fn derive(
        &self,
        area: &mut [u8],
        first: (usize, usize),
        second: (usize, usize),
        third: (usize, usize),
    ) -> bool
        requires wide { self.now.concepts * self.now.concepts ≤ length area.old }
        requires first { InGrid self.now.concepts first }
        requires second { InGrid self.now.concepts second }
        requires third { InGrid self.now.concepts third }
        ensures { Derived self.now.concepts first second third area.old area.new result }
    {
        let p = self.at(first);
        let q = self.at(second);
        infer(area, p, q, self.at(third))
    }

    // That the area is ready, and x a row, is asked of this and the next two: what is lent is no part of the logic.
    // Tries an axiom of form 4 at row x: each partner that one of form 3 gives x may lie in its concept.
    fn source(&self, axioms: &Axioms, source: Record, x: usize, area: &mut [u8]) -> bool
        requires ready { Ready (el self.now.concepts self.now.roles) axioms.now.all (length area.old) }
        requires row { x < self.now.concepts }
        requires given { In source axioms.now.all }
        requires form { source.form ≡ 4 }
        ensures { Tried self.now.concepts axioms.now.all (DrawnAt self.now.concepts axioms.now.all x source) area.old area.new result }
    {
        let mut changed = false;
        for partner in axioms.partners.iter() {
            if partner.b == source.a {
                let has = (x, partner.a as usize);
                let lies = (partner.c as usize, source.b as usize);
                changed |= self.derive(area, has, lies, (x, source.c as usize));
            }
        }
        changed
    }

    // Tries an axiom at row x.
    fn settle(&self, axioms: &Axioms, axiom: Record, x: usize, area: &mut [u8]) -> bool
        requires ready { Ready (el self.now.concepts self.now.roles) axioms.now.all (length area.old) }
        requires row { x < self.now.concepts }
        requires given { In «axiom» axioms.now.all }
        ensures { Tried self.now.concepts axioms.now.all (DrawnAt self.now.concepts axioms.now.all x «axiom») area.old area.new result }
    {
        let (a, b, c) = (axiom.a as usize, axiom.b as usize, axiom.c as usize);
        match Form::try_from(axiom.form) {
            Ok(Form::Lies) => self.derive(area, (x, a), (x, a), (x, b)),
            Ok(Form::Both) => self.derive(area, (x, a), (x, b), (x, c)),
            Ok(Form::Partner) => {
                let top = self.derive(area, (x, a), (x, a), (c, 0));
                let own = self.derive(area, (x, a), (x, a), (c, c));
                top | own
            }
            Ok(Form::Source) => self.source(axioms, axiom, x, area),
            Ok(Form::Link) | Err(_) => unreachable!(),
        }
    }

    // Tries every axiom at row x, if that is reached.
    fn sweep(&self, axioms: &Axioms, x: usize, area: &mut [u8]) -> bool
        requires ready { Ready (el self.now.concepts self.now.roles) axioms.now.all (length area.old) }
        requires row { x < self.now.concepts }
        ensures { Tried self.now.concepts axioms.now.all (AllDrawn self.now.concepts axioms.now.all x) area.old area.new result }
    {
        let mut changed = false;
        if area[self.at((x, 0))] != 0 {
            for axiom in axioms.all.iter() {
                changed |= self.settle(axioms, axiom, x, area);
            }
        }
        changed
    }
}

impl Saturates for El {
    ghost plan = { λ l. el_plan l.concepts l.roles };

    ghost laid = { λ s. el_laid s.concepts s.roles };

    ghost grows = { λ s xs ys. entails_more xs ys };

    fn cells(&self) -> usize {
        let n = self.concepts as usize;
        n * n
    }

    fn takes(&self, record: Record) -> bool {
        let (a, b, c) = (record.a as u32, record.b as u32, record.c as u32);
        match Form::try_from(record.form) {
            Ok(Form::Lies) => a < self.concepts && b < self.concepts && c == 0,
            Ok(Form::Both) => a < self.concepts && b < self.concepts && c < self.concepts,
            Ok(Form::Partner) => a < self.concepts && b < self.roles && c < self.concepts,
            Ok(Form::Source) => a < self.roles && b < self.concepts && c < self.concepts,
            Ok(Form::Link) | Err(_) => false,
        }
    }

    fn poses(&self, goal: (u32, u32)) -> bool {
        goal.0 < self.concepts && goal.1 < self.concepts
    }

    fn place(&self, goal: (u32, u32)) -> usize {
        self.at((goal.0 as usize, goal.1 as usize))
    }

    fn firsts(&self, goal: (u32, u32)) -> (usize, usize) {
        let x = goal.0 as usize;
        (self.at((x, 0)), self.at((x, x)))
    }

    fn round(&self, given: &Marked, area: &mut [u8]) -> bool {
        let axioms = Axioms::new(given);
        let mut changed = false;
        // kept: a loop over numbers, as a proof knows nothing of what the closure of a `fold` leaves in the area
        for x in 0..self.concepts as usize {
            changed |= self.sweep(&axioms, x, area);
        }
        changed
    }
}
