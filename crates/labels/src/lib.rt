// Labels: the four label kinds, behind one interface.
#![tactic(auto)]

pub mod chain;
pub mod check;
pub mod fault;
pub mod house;
pub mod kind;
pub mod sets;
pub mod square;
