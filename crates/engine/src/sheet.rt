ghost use Rattle.std.specs.Prelude.{◌≡◌, ◌≤◌, length, IfOk};
ghost use Rattle.engine.specs.Book.{Book, blank};
ghost use Rattle.engine.specs.Law.{buffers};
ghost use Rattle.engine.specs.Sight.{AllSupports, MeetOf, IsBoundary};
ghost use Rattle.logics.specs.Entailment.{Goal};
ghost use Rattle.engine.specs.Keeps.{answer};
ghost use Rattle.engine.specs.declared.call.Answer.TheVariants.{Entered, Done, Count, Bound, RowAt, Seen};
ghost use Rattle.engine.specs.declared.call.Call.TheVariants.{Enter, Withdraw, Relabel, Supports, Publish, Boundary, Row as RowOf, See};

use crate::call::SheetFault;
use crate::page::{Page, Row};
use crate::rows::RowTable;
use crate::table::AxiomTable;
use base::contains;
use labels::check::{check_label, check_user};
use labels::kind::LabelKind;
use logics::{Logic, Record, take_goal, take_record};
use supports::find_supports;

// Places and work area are lent by the caller, and stay the two parameters of each call that searches.

// A sheet: axioms with labels, of one label kind and one logic, and the rows of the published goals.
#[derive(Drop)]
pub struct Sheet<K, L> {
    kind: K,
    logic: L,
    axioms: AxiomTable,
    rows: RowTable,
}

impl<K: LabelKind, L: Logic> Sheet<K, L> {
    ghost use Rattle.engine.specs.Obeys.{Holds, Obeys, Leaving, Searches};

    // A new sheet, with nothing in it.
    pub fn open(kind: K, logic: L) -> Sheet<K, L>
        ensures empty { Holds K.meaning L.meaning result blank }
        ensures kind { result.kind ≡ kind }
        ensures logic { result.logic ≡ logic }
    {
        Sheet {
            kind,
            logic,
            axioms: AxiomTable::new(),
            rows: RowTable::new(),
        }
    }

    // The label kind of the sheet.
    pub fn kind(&self) -> &K
        ensures { result.now ≡ self.now.kind }
    {
        &self.kind
    }

    // How many axioms have been entered, withdrawn ones among them.
    pub fn entered(&self) -> usize
        ensures { (b : Book) → Holds K.meaning L.meaning self.now b → result ≡ length b.pages }
    {
        self.axioms.len()
    }

    // One axiom more, in force; answers its number.
    pub fn enter(&mut self, record: Record, label: u32) -> Result<u32, SheetFault>
        ensures { Obeys K.meaning L.meaning (Enter «record» label) (answer Entered result) self.old self.new }
    {
        if self.axioms.len() >= 64 {
            return Err(SheetFault::Full);
        }
        take_record(&self.logic, record)?;
        check_label(&self.kind, label)?;
        self.axioms.enter(Page {
            entry: record,
            label,
            stands: true,
        });
        self.rows.clear();
        Ok(self.axioms.len() as u32)
    }

    // Takes an axiom out of force.
    pub fn withdraw(&mut self, number: u32) -> Result<(), SheetFault>
        ensures { Obeys K.meaning L.meaning (Withdraw number) (answer (λ _. Done) result) self.old self.new }
    {
        let place = self.axioms.standing(number)?;
        self.axioms.withdraw(place);
        self.rows.clear();
        Ok(())
    }

    // Changes the label of one axiom, and of no other.
    pub fn relabel(&mut self, number: u32, label: u32) -> Result<(), SheetFault>
        ensures { Obeys K.meaning L.meaning (Relabel number label) (answer (λ _. Done) result) self.old self.new }
    {
        let place = self.axioms.standing(number)?;
        check_label(&self.kind, label)?;
        self.axioms.relabel(place, label);
        self.rows.clear();
        Ok(())
    }

    // Fills the places with all supports of the goal, and answers how many there are.
    pub fn supports(
        &self,
        goal: (u32, u32),
        places: &mut [u64],
        area: &mut [u8],
    ) -> Result<usize, SheetFault>
        ensures law { Obeys K.meaning L.meaning (Supports goal (length places.old) (length area.old)) (answer Count result) self.now self.now }
        ensures leaves { Leaving K.meaning L.meaning self.now goal (answer Count result) (buffers places.old area.old) (buffers places.new area.new) }
        ensures within { IfOk result (λ n. n ≤ length places.old) }
    {
        take_goal(&self.logic, goal)?;
        self.search(goal, places, area)
    }

    // Keeps the goal's boundary as a row; fills the places and answers as `supports` does.
    pub fn publish(
        &mut self,
        goal: (u32, u32),
        places: &mut [u64],
        area: &mut [u8],
    ) -> Result<usize, SheetFault>
        ensures law { Obeys K.meaning L.meaning (Publish goal (length places.old) (length area.old)) (answer Count result) self.old self.new }
        ensures leaves { Leaving K.meaning L.meaning self.old goal (answer Count result) (buffers places.old area.old) (buffers places.new area.new) }
        ensures within { IfOk result (λ n. n ≤ length places.old) }
    {
        take_goal(&self.logic, goal)?;
        if !self.rows.has_room(goal) {
            return Err(SheetFault::RowsFull);
        }
        let count = self.search(goal, places, area)?;
        let boundary = self.boundary_of(&places[..count]);
        self.rows.put(Row { goal, boundary });
        Ok(count)
    }

    // The boundary of a published goal; absent where the goal has no support.
    pub fn boundary(&self, goal: (u32, u32)) -> Result<Option<u32>, SheetFault>
        ensures { Obeys K.meaning L.meaning (Boundary goal) (answer Bound result) self.now self.now }
    {
        take_goal(&self.logic, goal)?;
        let boundary = self.rows.lookup(goal).ok_or(SheetFault::NotPublished)?;
        Ok(boundary)
    }

    // May the user draw the goal? By the row's boundary alone.
    pub fn see(&self, user: u32, goal: (u32, u32)) -> Result<bool, SheetFault>
        ensures { Obeys K.meaning L.meaning (See user goal) (answer Seen result) self.now self.now }
    {
        take_goal(&self.logic, goal)?;
        check_user(&self.kind, user)?;
        let boundary = self.rows.lookup(goal).ok_or(SheetFault::NotPublished)?;
        // no `is_some_and`: what nothing supports is seen by no one, and that case has a line of its own
        match boundary {
            None => Ok(false),
            Some(bound) => Ok(self.kind.at_or_below(user, bound)),
        }
    }

    // The goal and the boundary of the row at a place, rows ascending by goal.
    pub fn row(&self, place: usize) -> Result<((u32, u32), Option<u32>), SheetFault>
        ensures { Obeys K.meaning L.meaning (RowOf place) (answer RowAt result) self.now self.now }
    {
        let row = self.rows.get(place).ok_or(SheetFault::NotPublished)?;
        Ok((row.goal, row.boundary))
    }

    // The search for the supports of a goal that is taken.
    fn search(
        &self,
        goal: (u32, u32),
        places: &mut [u64],
        area: &mut [u8],
    ) -> Result<usize, SheetFault>
        requires { (L.meaning self.now.logic).TakesGoal goal }
        ensures found { Searches K.meaning L.meaning self.now goal (length places.old) (length area.old) result }
        ensures leaves { Leaving K.meaning L.meaning self.now goal (answer Count result) (buffers places.old area.old) (buffers places.new area.new) }
        ensures within { IfOk result (λ n. n ≤ length places.old) }
    {
        if area.len() < self.logic.work_bytes() {
            return Err(SheetFault::ShortArea);
        }
        let all = self.axioms.in_force();
        let records = self.axioms.records();
        let found = find_supports(&self.logic, records.as_slice(), all, goal, places, area);
        let number = found.ok_or(SheetFault::MoreSupports)?;
        Ok(number)
    }

    // The meet of the labels of a set of axioms; of none, the top.
    fn meet_of(&self, set: u64) -> u32
        ensures { (b : Book) → Holds K.meaning L.meaning self.now b → MeetOf (K.meaning self.now.kind) b set result }
    {
        let mut meet = self.kind.top();
        for (i, page) in self.axioms.pages().iter().enumerate() {
            if contains(set, i as u32) {
                meet = self.kind.meet(meet, page.label);
            }
        }
        meet
    }

    // The least label above the meet of each support; absent where there is none.
    fn boundary_of(&self, supports: &[u64]) -> Option<u32>
        ensures { (b : Book) → Holds K.meaning L.meaning self.now b → (g : Goal) → AllSupports (L.meaning self.now.logic) b g supports.now → IsBoundary (K.meaning self.now.kind) (L.meaning self.now.logic) b g result }
    {
        // a loop, not `map` and `reduce`: a meet and a join are known by relations, and over the chain the proof did not close
        let mut bound: Option<u32> = None;
        for support in supports {
            let meet = self.meet_of(*support);
            bound = Some(bound.map_or(meet, |v| self.kind.join(v, meet)));
        }
        bound
    }
}
