// The label kind and the logic that a file names.
ghost use Rattle.std.specs.Prelude.{◌≡◌, T, length};
ghost use Rattle.report.specs.Any.{any_kind, any_logic};
ghost use Rattle.report.specs.AnyLawful.{any_lawful};
ghost use Rattle.logics.specs.Entailed.{entails_more};
ghost use Rattle.logics.specs.Chains.{leads_more};
ghost use Rattle.report.specs.declared.any.AnyLogic.TheVariants.{El, Links};

use labels::chain::Chain;
use labels::house::House;
use labels::kind::LabelKind;
use labels::sets::Sets;
use logics::{El, Links, Logic, Record};
use tables::table::Table;

// One of the four label kinds.
// kept: each question is passed on by hand, here and below: no function may hand out a `dyn` value, no macro may write an
// `impl`, and as a type parameter kind and logic would stand in every clause of the desk
#[derive(Drop)]
pub enum AnyKind {
    Chain(Chain),
    Sets(Sets),
    House(House),
    Table(Table),
}

// One of the two logics.
#[derive(Drop)]
pub enum AnyLogic {
    El(El),
    Links(Links),
}

impl LabelKind for AnyKind {
    ghost meaning = { any_kind };

    ghost lawful = { λ k. any_lawful k };

    fn size(&self) -> u64 {
        match self {
            AnyKind::Chain(kind) => kind.size(),
            AnyKind::Sets(kind) => kind.size(),
            AnyKind::House(kind) => kind.size(),
            AnyKind::Table(kind) => kind.size(),
        }
    }

    fn at_or_below(&self, a: u32, b: u32) -> bool {
        match self {
            AnyKind::Chain(kind) => kind.at_or_below(a, b),
            AnyKind::Sets(kind) => kind.at_or_below(a, b),
            AnyKind::House(kind) => kind.at_or_below(a, b),
            AnyKind::Table(kind) => kind.at_or_below(a, b),
        }
    }

    fn meet(&self, a: u32, b: u32) -> u32 {
        match self {
            AnyKind::Chain(kind) => kind.meet(a, b),
            AnyKind::Sets(kind) => kind.meet(a, b),
            AnyKind::House(kind) => kind.meet(a, b),
            AnyKind::Table(kind) => kind.meet(a, b),
        }
    }

    fn join(&self, a: u32, b: u32) -> u32 {
        match self {
            AnyKind::Chain(kind) => kind.join(a, b),
            AnyKind::Sets(kind) => kind.join(a, b),
            AnyKind::House(kind) => kind.join(a, b),
            AnyKind::Table(kind) => kind.join(a, b),
        }
    }

    fn top(&self) -> u32 {
        match self {
            AnyKind::Chain(kind) => kind.top(),
            AnyKind::Sets(kind) => kind.top(),
            AnyKind::House(kind) => kind.top(),
            AnyKind::Table(kind) => kind.top(),
        }
    }

    fn admits(&self, user: u32) -> bool {
        match self {
            AnyKind::Chain(kind) => kind.admits(user),
            AnyKind::Sets(kind) => kind.admits(user),
            AnyKind::House(kind) => kind.admits(user),
            AnyKind::Table(kind) => kind.admits(user),
        }
    }
}

impl Logic for AnyLogic {
    ghost meaning = { any_logic };

    ghost monotone = { elim [
      | El l ↦ λ xs ys sub. entails_more xs ys sub
      | Links l ↦ λ xs ys sub. leads_more sub
    ] };

    fn work_bytes(&self) -> usize {
        match self {
            AnyLogic::El(logic) => logic.work_bytes(),
            AnyLogic::Links(logic) => logic.work_bytes(),
        }
    }

    fn takes_record(&self, record: Record) -> bool {
        match self {
            AnyLogic::El(logic) => logic.takes_record(record),
            AnyLogic::Links(logic) => logic.takes_record(record),
        }
    }

    fn takes_goal(&self, goal: (u32, u32)) -> bool {
        match self {
            AnyLogic::El(logic) => logic.takes_goal(goal),
            AnyLogic::Links(logic) => logic.takes_goal(goal),
        }
    }

    fn follows(&self, records: &[Record], marks: u64, goal: (u32, u32), area: &mut [u8]) -> bool {
        match self {
            AnyLogic::El(logic) => logic.follows(records, marks, goal, area),
            AnyLogic::Links(logic) => logic.follows(records, marks, goal, area),
        }
    }
}
