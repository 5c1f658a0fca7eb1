ghost use Rattle.std.specs.Prelude.{◌≡◌};
ghost use Rattle.labels.specs.Fault.{number as number_of};

// Why a label kind, or a label, is refused.
#[derive(Clone, Copy, PartialEq, Eq, Debug)]
pub enum KindFault {
    // a size outside its limits
    SizeOutOfLimits = 4,
    // two different labels of a table, each at or below the other
    Loop = 5,
    // two labels of a table without a meet or a join
    NoMeetOrJoin = 6,
    // a number that is no label of the kind
    NotALabel = 8,
    // a label that is not admitted as a user
    NotAdmitted = 17,
}

impl KindFault {
    // The number by which the refusal is reported.
    pub fn number(self) -> u32
        ensures { result ≡ number_of self }
    {
        self as u32
    }
}
