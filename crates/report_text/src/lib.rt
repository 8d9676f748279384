//! The report of a permutation with its history, as bytes.
#![tactic(auto)]

mod fault;
mod fault_text;
mod free;
mod free_lines;
mod line_text;
mod names;
mod notes;
mod numbers;
mod permutation;
mod replies;
mod segments;
mod setups;
mod standing;
mod steps;
mod teardowns;

pub use fault::{Ended, ReportFault};
pub use free::write_free;
pub use permutation::write_report;
