// The lines of a sheet file: their forms, where each may stand, and the reading of one.
#![tactic(auto)]

mod cut;
pub mod fault;
pub mod form;
mod number;
mod read;
mod shape;
mod stand;

pub use read::{Found, read_line};
