// Tables: label kinds whose order is given by pairs of labels.
#![tactic(auto)]

pub mod builder;
mod order;
mod primes;
pub mod table;
