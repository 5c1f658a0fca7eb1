ghost use Rattle.std.specs.Prelude.{◌≡◌, T};
ghost use Rattle.base.specs.Words.{Iff};

// The form of an axiom: S, C, E, R and T.
pub use logics::Form as AxiomForm;

// The label kind that a K line names.
#[derive(Clone, Copy, PartialEq, Eq, Debug)]
pub enum KindForm {
    Chain,
    Sets,
    House,
    Table,
}

// The logic that a G line names.
#[derive(Clone, Copy, PartialEq, Eq, Debug)]
pub enum LogicForm {
    El,
    Links,
}

// The form of a line, told by its first field and, for K and G, its second.
#[derive(Clone, Copy, PartialEq, Eq, Debug)]
pub enum Form {
    Kind(KindForm),
    Pair,
    Logic(LogicForm),
    Axiom(AxiomForm),
    User,
    Goal,
}

// The sections of a file, in their order.
#[derive(Clone, Copy, PartialEq, Eq, PartialOrd, Ord, Debug)]
pub(crate) enum Section {
    Kind,
    Pairs,
    Logic,
    Axioms,
    Users,
    Goals,
}

impl Form {
    ghost use Rattle.lines.specs.Forms.{arity as arity_of, section as section_of, place, OfTable};

    // How many numbers a line of the form has.
    pub(crate) fn arity(self) -> usize
        ensures { result ≡ arity_of self }
    {
        match self {
            Form::Kind(KindForm::House) => 0,
            Form::Kind(_) | Form::User | Form::Logic(LogicForm::Links) => 1,
            Form::Pair | Form::Goal | Form::Logic(LogicForm::El) => 2,
            Form::Axiom(AxiomForm::Lies | AxiomForm::Link) => 3,
            Form::Axiom(_) => 4,
        }
    }

    // The section that a line of the form belongs to.
    pub(crate) fn section(self) -> Section
        ensures { place result ≡ section_of self }
    {
        match self {
            Form::Kind(_) => Section::Kind,
            Form::Pair => Section::Pairs,
            Form::Logic(_) => Section::Logic,
            Form::Axiom(_) => Section::Axioms,
            Form::User => Section::Users,
            Form::Goal => Section::Goals,
        }
    }

    // Is it one of the lines of a table?
    pub(crate) fn is_of_table(self) -> bool
        ensures { Iff (T result) (OfTable self) }
    {
        matches!(self, Form::Kind(KindForm::Table) | Form::Pair)
    }
}

// A line that was read: its form and its numbers, with zeros behind them.
#[derive(Clone, Copy, PartialEq, Eq, Debug)]
pub struct Line {
    pub form: Form,
    pub numbers: [u32; 4],
}
