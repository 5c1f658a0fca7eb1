ghost use Rattle.std.specs.Prelude.{◌≡◌};
ghost use Rattle.engine.specs.Answers.{told};
ghost use Rattle.engine.specs.Law.{number as number_of};
ghost use Rattle.engine.specs.declared.call.SheetFault.TheVariants.{Kind, Logic};

use labels::fault::KindFault;
use logics::{LogicFault, Record};

#[derive(Clone, Copy, PartialEq, Eq, Debug)]
pub enum Call {
    Enter(Record, u32),
    Withdraw(u32),
    Relabel(u32, u32),
    // a goal, and how many places and bytes of work area the call asks for
    Supports((u32, u32), usize, usize),
    Publish((u32, u32), usize, usize),
    Boundary((u32, u32)),
    Row(usize),
    See(u32, (u32, u32)),
}

// What an accepted call answers.
#[derive(Clone, Copy, PartialEq, Eq, Debug)]
pub enum Answer {
    Entered(u32),
    Done,
    Count(usize),
    Bound(Option<u32>),
    RowAt(((u32, u32), Option<u32>)),
    Seen(bool),
}

// Why a call is refused. The fault of a label kind or of a logic is held whole.
#[derive(Clone, Copy, PartialEq, Eq, Debug)]
pub enum SheetFault {
    Full,
    NoSuchAxiom,
    WithdrawnAlready,
    ShortArea,
    MoreSupports,
    RowsFull,
    NotPublished,
    Kind(KindFault),
    Logic(LogicFault),
}

// Both `From` are written by hand: a derived one does not say which fault it makes.
impl From<KindFault> for SheetFault {
    ghost from_gives = { λ f g. g ≡ Kind f };

    fn from(kind: KindFault) -> SheetFault {
        SheetFault::Kind(kind)
    }
}

impl From<LogicFault> for SheetFault {
    ghost from_gives = { λ f g. g ≡ Logic f };

    fn from(logic: LogicFault) -> SheetFault {
        SheetFault::Logic(logic)
    }
}

impl SheetFault {
    // The number by which the refusal is reported. No discriminants: two faults hold another, whose number is reported.
    pub fn number(self) -> u32
        ensures { result ≡ number_of self }
    {
        match self {
            SheetFault::Full => 10,
            SheetFault::NoSuchAxiom => 11,
            SheetFault::WithdrawnAlready => 12,
            SheetFault::ShortArea => 14,
            SheetFault::MoreSupports => 15,
            SheetFault::RowsFull => 16,
            SheetFault::NotPublished => 18,
            SheetFault::Kind(fault) => fault.number(),
            SheetFault::Logic(fault) => fault.number(),
        }
    }
}

// The number of the refusal, and 0 where the call was accepted.
pub fn refusal(outcome: Result<Answer, SheetFault>) -> u32
    ensures { result ≡ (told outcome).0 }
{
    outcome.err().map_or(0, SheetFault::number)
}
