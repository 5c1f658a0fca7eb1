// The form of a line, by its letter, its word and the count of its fields.
ghost use Rattle.std.specs.Prelude.{◌≡◌, ℕ, ◌≤◌, List, ◌++◌, length, MatchOption, ◌≢◌};
ghost use Rattle.lines.specs.declared.form.KindForm.{KindForm as AnyKind};
ghost use Rattle.lines.specs.declared.form.LogicForm.{LogicForm as AnyLogic};
ghost use Rattle.lines.specs.declared.form.Form.{Form as AnyForm};
ghost use Rattle.lines.specs.declared.form.Form.TheVariants.{Kind, Logic};
ghost use Rattle.lines.specs.Forms.{opening};
ghost use Rattle.lines.specs.Reading.{Parted, Shaped};

use crate::form::{AxiomForm, Form, KindForm, LogicForm};

// The kind that a line names, and what stands behind its word.
#[tactic(auto, using(crate::proofs::Fields::stripped, crate::proofs::Fields::not_stripped))]
fn kind_of(line: &[u8]) -> Option<(Form, &[u8])>
    ensures { MatchOption result ((k : AnyKind) (rest : List ℕ) → line.now ≢ opening (Kind k) ++ rest) (λ x. line.now ≡ opening x.0 ++ x.1.now) }
{
    if let Some(rest) = line.strip_prefix(b"K,chain") {
        Some((Form::Kind(KindForm::Chain), rest))
    } else if let Some(rest) = line.strip_prefix(b"K,sets") {
        Some((Form::Kind(KindForm::Sets), rest))
    } else if let Some(rest) = line.strip_prefix(b"K,house") {
        Some((Form::Kind(KindForm::House), rest))
    } else if let Some(rest) = line.strip_prefix(b"K,table") {
        Some((Form::Kind(KindForm::Table), rest))
    } else {
        None
    }
}

// The logic that a line names, and what stands behind its word.
#[tactic(auto, using(crate::proofs::Fields::stripped, crate::proofs::Fields::not_stripped))]
fn logic_of(line: &[u8]) -> Option<(Form, &[u8])>
    ensures { MatchOption result ((l : AnyLogic) (rest : List ℕ) → line.now ≢ opening (Logic l) ++ rest) (λ x. line.now ≡ opening x.0 ++ x.1.now) }
{
    if let Some(rest) = line.strip_prefix(b"G,el") {
        Some((Form::Logic(LogicForm::El), rest))
    } else if let Some(rest) = line.strip_prefix(b"G,links") {
        Some((Form::Logic(LogicForm::Links), rest))
    } else {
        None
    }
}

// The form that the first letter names, for a kind or a logic with the word behind it, and what stands behind that.
// Kept: a rule of the project, letters are matched as `char` literals.
fn form_of(line: &[u8]) -> Option<(Form, &[u8])>
    ensures { MatchOption result ((f : AnyForm) (rest : List ℕ) → line.now ≢ opening f ++ rest) (λ x. line.now ≡ opening x.0 ++ x.1.now) }
{
    let (letter, rest) = line.split_first()?;
    match *letter as char {
        'K' => kind_of(line),
        'O' => Some((Form::Pair, rest)),
        'G' => logic_of(line),
        'S' => Some((Form::Axiom(AxiomForm::Lies), rest)),
        'C' => Some((Form::Axiom(AxiomForm::Both), rest)),
        'E' => Some((Form::Axiom(AxiomForm::Partner), rest)),
        'R' => Some((Form::Axiom(AxiomForm::Source), rest)),
        'T' => Some((Form::Axiom(AxiomForm::Link), rest)),
        'U' => Some((Form::User, rest)),
        'Q' => Some((Form::Goal, rest)),
        _ => None,
    }
}

// How many fields there are, each behind a comma; none where the bytes begin otherwise.
fn count_fields(rest: &[u8]) -> Option<usize>
    ensures { MatchOption result ((fields : List (List ℕ)) → Parted rest.now fields → ⊥) (λ n. (fields : List (List ℕ)) × Parted rest.now fields × (length fields ≡ n)) }
{
    match rest {
        [] | [b',', ..] => Some(rest.iter().filter(|b| **b == b',').count()),
        _ => None,
    }
}

// The form of a line without its end, and its fields.
pub(crate) fn shape_of(line: &[u8]) -> Option<(Form, &[u8])>
    ensures { MatchOption result ((f : AnyForm) (fields : List (List ℕ)) → Shaped line.now f fields → ⊥) (λ x. (fields : List (List ℕ)) × Shaped line.now x.0 fields × Parted x.1.now fields × (length fields ≤ 4)) }
{
    let (form, fields) = form_of(line)?;
    (count_fields(fields)? == form.arity()).then_some((form, fields))
}
