// The sheet: axioms with labels, and who may draw which conclusion.
#![tactic(auto)]

pub mod call;
mod history;
pub mod page;
mod rows;
mod sheet;
mod table;

pub use history::run;
pub use sheet::Sheet;
