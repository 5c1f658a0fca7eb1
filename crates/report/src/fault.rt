ghost use Rattle.std.specs.Prelude.{◌≡◌};
ghost use Rattle.report.specs.declared.fault.Cause.TheVariants.{Text, Kind, Logic, Sheet};

use engine::call::SheetFault;
use labels::fault::KindFault;
use lines::fault::TextFault;
use logics::LogicFault;

// The layer that a refusal's number belongs to.
#[derive(Clone, Copy, PartialEq, Eq, Debug)]
pub enum Layer {
    Text,
    Kind,
    Logic,
    Sheet,
}

// The fault of a lower layer, whole.
#[derive(Clone, Copy, PartialEq, Eq, Debug)]
pub enum Cause {
    Text(TextFault),
    Kind(KindFault),
    Logic(LogicFault),
    Sheet(SheetFault),
}

// Why a report is refused, and at which line; line 0 is the whole file.
#[derive(Clone, Copy, PartialEq, Eq, Debug)]
pub struct ReportFault {
    pub line: usize,
    pub cause: Cause,
}

// kept: the four are written by hand, as a derived `From` would come without its clause
impl From<TextFault> for Cause {
    ghost from_gives = { λ f c. c ≡ Text f };

    fn from(fault: TextFault) -> Cause {
        Cause::Text(fault)
    }
}

impl From<KindFault> for Cause {
    ghost from_gives = { λ f c. c ≡ Kind f };

    fn from(fault: KindFault) -> Cause {
        Cause::Kind(fault)
    }
}

impl From<LogicFault> for Cause {
    ghost from_gives = { λ f c. c ≡ Logic f };

    fn from(fault: LogicFault) -> Cause {
        Cause::Logic(fault)
    }
}

impl From<SheetFault> for Cause {
    ghost from_gives = { λ f c. c ≡ Sheet f };

    fn from(fault: SheetFault) -> Cause {
        Cause::Sheet(fault)
    }
}
