ghost use Rattle.std.specs.Prelude.{◌≡◌, ℕ, ◌+◌, ◌-◌, ◌<◌, ◌≤◌, T, [], ◌∷◌, ◌++◌, length, MatchResult};
ghost use Rattle.base.specs.Bits.{Has};
ghost use Rattle.base.specs.Checks.{FirstOf};
ghost use Rattle.base.specs.Words.{Iff};
ghost use Rattle.engine.specs.Pages.{change, withdrawn, relabelled, NoPage, Standing, records_of};
ghost use Rattle.engine.specs.declared.call.SheetFault.TheVariants.{NoSuchAxiom, WithdrawnAlready};

use crate::call::SheetFault;
use crate::page::Page;
use arrayvec::ArrayVec;
use base::places_where;
use logics::Record;
use std::marker::Model;

// The axioms that were entered, in order: a table of 64 pages.
#[derive(Drop)]
pub struct AxiomTable {
    pages: ArrayVec<Page, 64>,
}

impl Model for AxiomTable {
    ghost use Rattle.std.specs.Prelude.{List};
    ghost use Rattle.engine.specs.declared.page.Page.{Page as AnyPage};

    ghost Value = { List AnyPage };

    ghost view = { λ t. t.pages.items };
}

impl AxiomTable {
    pub(crate) fn new() -> AxiomTable
        ensures { result ≡ [] }
    {
        AxiomTable {
            pages: ArrayVec::new(),
        }
    }

    // How many axioms were entered.
    pub(crate) fn len(&self) -> usize
        ensures is { result ≡ length self.now }
        ensures few { result ≤ 64 }
    {
        self.pages.len()
    }

    // The pages, in order.
    pub(crate) fn pages(&self) -> &[Page]
        ensures is { result.now ≡ self.now }
        ensures few { length result.now ≤ 64 }
    {
        self.pages.as_slice()
    }

    // One page more.
    pub(crate) fn enter(&mut self, page: Page)
        requires { length self.old < 64 }
        ensures { self.new ≡ self.old ++ (page ∷ []) }
    {
        self.pages.push(page);
    }

    // The place of an axiom in force.
    pub(crate) fn standing(&self, number: u32) -> Result<usize, SheetFault>
        ensures { MatchResult result (λ place. (number ≡ place + 1) × Standing self.now place) (FirstOf ((NoSuchAxiom, NoPage self.now number) ∷ (WithdrawnAlready, (Standing self.now (number - 1) → ⊥)) ∷ [])) }
    {
        let number = number as usize;
        if number == 0 || number > self.len() {
            return Err(SheetFault::NoSuchAxiom);
        }
        let place = number - 1;
        if self.pages()[place].stands {
            Ok(place)
        } else {
            Err(SheetFault::WithdrawnAlready)
        }
    }

    // The axiom goes out of force.
    pub(crate) fn withdraw(&mut self, place: usize)
        requires { place < length self.old }
        ensures { self.new ≡ change (place + 1) withdrawn self.old }
    {
        self.pages.as_mut_slice()[place].stands = false;
    }

    // The axiom has another label, and no other axiom has.
    pub(crate) fn relabel(&mut self, place: usize, label: u32)
        requires { place < length self.old }
        ensures { self.new ≡ change (place + 1) (relabelled label) self.old }
    {
        self.pages.as_mut_slice()[place].label = label;
    }

    // The set of the axioms in force.
    pub(crate) fn in_force(&self) -> u64
        ensures { (i : ℕ) → Iff (Has result i) (Standing self.now i) }
    {
        places_where(self.pages(), |page| page.stands)
    }

    // The records of the axioms, in order.
    pub(crate) fn records(&self) -> ArrayVec<Record, 64>
        ensures { result.items ≡ records_of self.now }
    {
        let mut records = ArrayVec::new();
        for page in self.pages() {
            records.push(page.entry);
        }
        records
    }
}
