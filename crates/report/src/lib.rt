// The report of a sheet file.
#![tactic(auto)]

mod answer;
pub mod any;
mod desk;
pub mod fault;
mod file;
mod reader;
mod told;
mod whole;

pub use answer::answer_file;
pub use told::fault_line;
pub use whole::report;
