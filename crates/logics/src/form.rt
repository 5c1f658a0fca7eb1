// The forms of axioms, and their numbers.
ghost use Rattle.std.specs.Prelude.{◌≡◌};
ghost use Rattle.logics.specs.Forms.{Decodes, number_of};

/// What an axiom says of concepts, roles or points, by its form.
#[derive(Clone, Copy, PartialEq, Eq, Debug)]
pub enum Form {
    /// Concept a lies in concept b.
    Lies = 1,
    /// What lies in concepts a and b lies in concept c.
    Both = 2,
    /// What lies in concept a has a partner by role b that lies in concept c.
    Partner = 3,
    /// What has a partner by role a that lies in concept b lies in concept c.
    Source = 4,
    /// A link leads from point a to point b.
    Link = 5,
}

/// A number that no form has.
#[derive(Clone, Copy, PartialEq, Eq, Debug)]
pub struct UnknownForm(pub u16);

impl From<Form> for u16 {
    ghost from_gives = { λ form number. number ≡ number_of form };

    fn from(form: Form) -> u16 {
        form as u16
    }
}

impl TryFrom<u16> for Form {
    type Error = UnknownForm;

    ghost try_from_gives = { Decodes };

    fn try_from(number: u16) -> Result<Form, UnknownForm> {
        match number {
            1 => Ok(Form::Lies),
            2 => Ok(Form::Both),
            3 => Ok(Form::Partner),
            4 => Ok(Form::Source),
            5 => Ok(Form::Link),
            _ => Err(UnknownForm(number)),
        }
    }
}
