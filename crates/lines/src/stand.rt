// Where a line may stand.
ghost use Rattle.std.specs.Prelude.{T};
ghost use Rattle.base.specs.Words.{Iff};
ghost use Rattle.lines.specs.Forms.{After, May};

use crate::form::{Form, Section};

// The most lines that name users.
const MOST_USERS: usize = 16;

// May a line of the form come right after one of the form `last`?
fn comes_after(last: Form, form: Form) -> bool
    ensures { Iff (T result) (After last form) }
{
    let from = last.section();
    let to = form.section();
    if from < Section::Logic {
        to == Section::Logic || to == Section::Pairs && last.is_of_table()
    } else {
        to >= Section::Axioms && from <= to
    }
}

// May a line of the form stand after the last line, with so many lines for users before?
pub(crate) fn may_stand(last: Option<Form>, users: usize, form: Form) -> bool
    ensures { Iff (T result) (May last users form) }
{
    let section = form.section();
    match last {
        None => section == Section::Kind,
        Some(before) => {
            comes_after(before, form) && (section != Section::Users || users < MOST_USERS)
        }
    }
}
