// What a fault says, and the line that tells it.
ghost use Rattle.std.specs.Prelude.{◌≡◌};
ghost use Rattle.prints.specs.Output.{Printed};
ghost use Rattle.report.specs.Fault.{layer as layer_of, layer_of_sheet, number as number_of, name as name_of, told as told_of, fault_line as line_of};

use crate::fault::{Cause, Layer, ReportFault};
use engine::call::SheetFault;
use prints::Printer;

// A sheet's fault may be one of its kind or of its logic.
fn sheet_layer(fault: SheetFault) -> Layer
    ensures { result ≡ layer_of_sheet fault }
{
    match fault {
        SheetFault::Kind(_) => Layer::Kind,
        SheetFault::Logic(_) => Layer::Logic,
        _ => Layer::Sheet,
    }
}

impl Layer {
    // The name by which the layer is told.
    pub(crate) fn name(self) -> &'static [u8]
        ensures { result.now ≡ name_of self }
    {
        match self {
            Layer::Text => b"text",
            Layer::Kind => b"kind",
            Layer::Logic => b"logic",
            Layer::Sheet => b"sheet",
        }
    }
}

impl Cause {
    // The layer that the number belongs to.
    pub fn layer(self) -> Layer
        ensures { result ≡ layer_of self }
    {
        match self {
            Cause::Text(_) => Layer::Text,
            Cause::Kind(_) => Layer::Kind,
            Cause::Logic(_) => Layer::Logic,
            Cause::Sheet(fault) => sheet_layer(fault),
        }
    }

    // The number by which the refusal is reported. No discriminants: each cause holds another fault.
    pub fn number(self) -> u32
        ensures { result ≡ number_of self }
    {
        match self {
            Cause::Text(fault) => fault.number(),
            Cause::Kind(fault) => fault.number(),
            Cause::Logic(fault) => fault.number(),
            Cause::Sheet(fault) => fault.number(),
        }
    }
}

impl ReportFault {
    // The line, the layer and the number of the refusal.
    pub fn told(self) -> (usize, Layer, u32)
        ensures { result ≡ told_of self }
    {
        (self.line, self.cause.layer(), self.cause.number())
    }
}

// Prints the line `F,line,layer,number` of a fault, and answers its length; none where the output is too short for it.
// kept: no `Display`, since the bytes go into an output that is lent, and too short an output is answered, not refused
pub fn fault_line(fault: ReportFault, out: &mut [u8]) -> Option<usize>
    ensures { Printed (line_of fault) out.old result out.new }
{
    let mut printer = Printer::new(out);
    let (line, layer, number) = fault.told();
    printer.byte(b'F');
    printer.after_comma(line as u64);
    printer.byte(b',');
    printer.text(layer.name());
    printer.after_comma(u64::from(number));
    printer.byte(b'\n');
    printer.print.length
}
