// Records of which some are marked, by the bits of a number.
ghost use Rattle.std.specs.Prelude.{◌≡◌, ◌==◌, filter, MatchOption};
ghost use Rattle.std.specs.Iterator.{YieldsFirst, item_count};
ghost use Rattle.logics.specs.Entailment.{Markable, marked};
ghost use Rattle.logics.specs.Forms.{number_of};

use crate::{Form, Record};
use base::places_where;
use std::marker::Model;

// The marked ones of up to 64 records, in their order: bit i of `marks` is set for the record at place i.
#[derive(Drop)]
pub(crate) struct Marked<'a> {
    records: &'a [Record],
    marks: u64,
}

impl<'a> Model for Marked<'a> {
    ghost use Rattle.std.specs.Prelude.{List};
    ghost use Rattle.logics.specs.Entailment.{Markable, marked};
    ghost use Rattle.logics.specs.declared.Record.{Record};

    ghost Value = { List Record };

    ghost view = { λ m. marked m.records.now m.marks };

    ghost invariant = { λ m. Markable m.records.now m.marks };
}

impl<'a> Marked<'a> {
    // Nothing where there are too many records, or marks beyond them.
    pub(crate) fn new(records: &'a [Record], marks: u64) -> Option<Marked<'a>>
        ensures { MatchOption result (Markable records.now marks → ⊥) (λ m. Markable records.now marks × (m ≡ marked records.now marks)) }
    {
        let len = records.len();
        if len == 64 || len < 64 && marks >> len == 0 {
            Some(Marked { records, marks })
        } else {
            None
        }
    }

    // The same records, to go through.
    pub(crate) fn iter(&self) -> Marked<'a>
        ensures { result ≡ self.now }
    {
        Marked {
            records: self.records,
            marks: self.marks,
        }
    }

    // Those of a form.
    pub(crate) fn of_form(&self, form: Form) -> Marked<'a>
        ensures { result ≡ filter (λ r. r.form == number_of form) self.now }
    {
        let number = u16::from(form);
        let places = places_where(self.records, |record| record.form == number);
        Marked {
            records: self.records,
            marks: self.marks & places,
        }
    }
}

impl<'a> Iterator for Marked<'a> {
    type Item = Record;

    ghost next_gives = { YieldsFirst (λ rest. rest) };

    ghost remaining = { item_count (λ rest. rest) };

    fn next(&mut self) -> Option<Record> {
        if self.marks == 0 {
            return None;
        }
        let place = self.marks.trailing_zeros();
        self.marks -= 1 << place;
        Some(self.records[place as usize])
    }
}
