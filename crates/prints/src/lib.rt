// Reports, printed into a given output. Bytes that find no room are dropped, and the print is then known to be too long.
#![tactic(auto)]

ghost use Rattle.std.specs.Prelude.{◌≡◌, [], ◌∷◌, Some, decimal};
ghost use Rattle.prints.specs.Print.{numbers, axioms, bound, word, boundary_line, support_line, support_lines, sight_line};

use base::contains;

// How far a print has come: so many bytes stand in the output, or it is longer than the output.
#[derive(Clone, Copy, PartialEq, Eq, Debug)]
pub struct Print {
    pub length: Option<usize>,
}

impl Print {
    // A print of which nothing stands in the output yet.
    pub fn new() -> Print
        ensures { result.length ≡ Some 0 }
    {
        Print { length: Some(0) }
    }

    // The print with the output that it goes on in.
    pub fn over(self, out: &mut [u8]) -> Printer<'_>
        ensures print { result.print ≡ self }
        ensures over { result.out ≡ out.entry }
    {
        Printer { out, print: self }
    }
}

// A print, and the output that is lent to it.
// kept: no `String` and no `Vec` in place of the output, since no memory is taken
#[derive(Debug, Drop)]
pub struct Printer<'a> {
    out: &'a mut [u8],
    pub print: Print,
}

impl<'a> Printer<'a> {
    ghost use Rattle.prints.specs.Output.{PrintedBy, Adds};

    // Nothing stands in the output yet.
    pub fn new(out: &'a mut [u8]) -> Printer<'a>
        ensures empty { result.print.length ≡ Some 0 }
        ensures printed { PrintedBy [] out.entry result }
    {
        Print::new().over(out)
    }

    // One byte; without room for it the print is too long.
    pub fn byte(&mut self, b: u8)
        ensures { Adds (b ∷ []) self.old self.new }
    {
        if let Some(at) = self.print.length {
            if at < self.out.len() {
                self.out[at] = b;
                self.print.length = Some(at + 1);
            } else {
                self.print.length = None;
            }
        }
    }

    // Bytes as they are.
    pub fn text(&mut self, bytes: &[u8])
        ensures { Adds bytes.now self.old self.new }
    {
        for b in bytes {
            self.byte(*b);
        }
    }

    // A number, in decimal digits.
    pub fn number(&mut self, n: u64)
        ensures { Adds (decimal n) self.old self.new }
    {
        let mut digits = itoa::Buffer::new();
        self.text(digits.format(n).as_bytes());
    }

    // A comma, and then a number.
    pub fn after_comma(&mut self, n: u64)
        ensures { Adds (numbers (n ∷ [])) self.old self.new }
    {
        self.byte(b',');
        self.number(n);
    }

    // A goal: its two numbers, a comma before each.
    fn goal(&mut self, goal: (u32, u32))
        ensures { Adds (numbers (goal.0 ∷ goal.1 ∷ [])) self.old self.new }
    {
        self.after_comma(u64::from(goal.0));
        self.after_comma(u64::from(goal.1));
    }

    // A boundary, or that there is none.
    fn boundary(&mut self, boundary: Option<u32>)
        ensures { Adds (bound boundary) self.old self.new }
    {
        match boundary {
            Some(height) => self.number(u64::from(height)),
            None => self.text(b"none"),
        }
    }

    // The line of a goal's boundary.
    pub fn boundary_line(&mut self, goal: (u32, u32), boundary: Option<u32>)
        ensures { Adds (boundary_line goal boundary) self.old self.new }
    {
        self.byte(b'B');
        self.goal(goal);
        self.byte(b',');
        self.boundary(boundary);
        self.byte(b'\n');
    }

    // The axioms of a set, ascending, a comma before each.
    // Kept: the loop counts places, and no slice; with `filter` the proof of which places it went over did not close.
    fn axioms(&mut self, set: u64)
        ensures { Adds (numbers (axioms set)) self.old self.new }
    {
        for place in 0..64 {
            if contains(set, place) {
                self.after_comma(u64::from(place) + 1);
            }
        }
    }

    // The line of one support of a goal.
    pub fn support_line(&mut self, goal: (u32, u32), support: u64)
        ensures { Adds (support_line goal support) self.old self.new }
    {
        self.byte(b'M');
        self.goal(goal);
        self.axioms(support);
        self.byte(b'\n');
    }

    // The lines of a goal's supports.
    pub fn support_lines(&mut self, goal: (u32, u32), supports: &[u64])
        ensures { Adds (support_lines goal supports.now) self.old self.new }
    {
        for support in supports {
            self.support_line(goal, *support);
        }
    }

    // Yes or no, in one word.
    fn word(&mut self, yes: bool)
        ensures { Adds (word yes) self.old self.new }
    {
        self.text(if yes { b"yes" } else { b"no" });
    }

    // The line that says whether a user sees a goal.
    pub fn sight_line(&mut self, goal: (u32, u32), user: u32, yes: bool)
        ensures { Adds (sight_line goal user yes) self.old self.new }
    {
        self.byte(b'V');
        self.after_comma(u64::from(user));
        self.goal(goal);
        self.byte(b',');
        self.word(yes);
        self.byte(b'\n');
    }
}
