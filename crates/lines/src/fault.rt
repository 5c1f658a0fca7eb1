ghost use Rattle.std.specs.Prelude.{◌≡◌};
ghost use Rattle.lines.specs.Fault.{number as number_of};

// Why the text of a sheet file, or its print, is refused.
#[derive(Clone, Copy, PartialEq, Eq, Debug)]
pub enum TextFault {
    // an unknown letter or word, a wrong count of fields, or no line end
    Malformed = 1,
    // a line whose letter is not allowed there
    Misplaced = 2,
    // a field that is no decimal number of 32 bits without leading zeros
    NotANumber = 3,
    // the print is longer than the output
    PrintTooLong = 19,
    // the file is longer than 16,384 bytes
    FileTooLong = 20,
}

impl TextFault {
    // The number by which the refusal is reported.
    pub fn number(self) -> u32
        ensures { result ≡ number_of self }
    {
        self as u32
    }
}
