ghost use Rattle.std.specs.Prelude.{◌≡◌, T};
ghost use Rattle.base.specs.Words.{Iff};
ghost use Rattle.labels.specs.Order.{LabelOrder, Label, Under, Top, Meets, Joins, JoinPrime, Lawful};

// A label kind: what its labels are, and how they are ordered. No question changes anything. Each kind guards its own meet and join, since
// a guard here would ask two more methods of each.
pub trait LabelKind: Drop {
    ghost meaning: { Self → LabelOrder };

    // How many labels there are: they are the numbers below.
    fn size(&self) -> u64
        ensures { result ≡ (meaning self.now).size };

    // Is the number one of the labels?
    fn is_label(&self, a: u32) -> bool
        ensures { Iff (T result) (Label (meaning self.now) a) }
    {
        u64::from(a) < self.size()
    }

    // Is a at or below b? No, where one of them is no label.
    fn at_or_below(&self, a: u32, b: u32) -> bool
        ensures { Iff (T result) (Under (meaning self.now) a b) };

    // The greatest label at or below both, and 0 where one of them is no label.
    fn meet(&self, a: u32, b: u32) -> u32
        ensures { Meets (meaning self.now) a b result };

    // The least label at or above both, and 0 where one of them is no label.
    fn join(&self, a: u32, b: u32) -> u32
        ensures { Joins (meaning self.now) a b result };

    // The label at or above every label.
    fn top(&self) -> u32
        ensures { Top (meaning self.now) result };

    // May the label be a user's? No, where it is no label.
    fn admits(&self, user: u32) -> bool
        ensures { Iff (T result) (JoinPrime (meaning self.now) user) };

    ghost lawful: { (k : Self) → Lawful (meaning k) };
}
