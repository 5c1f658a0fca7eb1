// A file as it is read, line after line.
ghost use Rattle.std.specs.Prelude.{◌+◌, ◌≤◌, length};

use crate::fault::Cause;
use lines::fault::TextFault;
use lines::form::Form;
use lines::{Found, read_line};

// A file behind the lines that were read and are good: the bytes to come, how many these lines are, the form of the last of
// them, and how many of them name users. A line counts only when it is good, so that a refusal is always at the line behind.
#[derive(Clone, Copy)]
pub struct Reader<'a> {
    pub(crate) rest: &'a [u8],
    pub(crate) lines: usize,
    pub(crate) last: Option<Form>,
    pub(crate) users: usize,
    ghost short: { lines + length rest.now ≤ 16384 },
    ghost fewer: { users ≤ lines },
}

impl<'a> Reader<'a> {
    ghost use Rattle.std.specs.Prelude.{◌≡◌, ℕ, T, [], drop, MatchResult};
    ghost use Rattle.base.specs.Words.{Iff};
    ghost use Rattle.report.specs.Checks.{PairNext};
    ghost use Rattle.report.specs.Stands.{Gets, Stops, Advanced, Stands};

    // At the beginning of a file.
    pub(crate) fn new(file: &'a [u8]) -> Reader<'a>
        requires { length file.now ≤ 16384 }
        ensures { (p w : ℕ) → Stands p w file.now result [] }
    {
        Reader {
            rest: file,
            lines: 0,
            last: None,
            users: 0,
        }
    }

    // Has all been read?
    pub(crate) fn is_done(&self) -> bool
        ensures { Iff (T result) (self.now.rest.now ≡ []) }
    {
        self.rest.is_empty()
    }

    // The next line; a file that ends here has ended too early.
    pub(crate) fn next_line(&self) -> Result<Found, Cause>
        ensures { MatchResult result (Gets self.now) (Stops self.now) }
    {
        if self.is_done() {
            return Err(Cause::Text(TextFault::Misplaced));
        }
        let found = read_line(self.rest, self.last, self.users)?;
        Ok(found)
    }

    // Is the letter O the first field behind the line that was found?
    pub(crate) fn pair_behind(&self, found: &Found) -> bool
        requires { found.now.length ≤ length self.now.rest.now }
        ensures { Iff (T result) (PairNext (drop found.now.length self.now.rest.now)) }
    {
        matches!(
            &self.rest[found.length..],
            [b'O'] | [b'O', b',', ..] | [b'O', b'\n', ..]
        )
    }

    // One line more.
    pub(crate) fn advance(&mut self, found: &Found)
        requires { Gets self.old found.now }
        ensures { Advanced self.old found.now self.new }
    {
        let form = found.line.form;
        let more = usize::from(matches!(form, Form::User));
        *self = Reader {
            rest: &self.rest[found.length..],
            lines: self.lines + 1,
            last: Some(form),
            users: self.users + more,
        };
    }
}
