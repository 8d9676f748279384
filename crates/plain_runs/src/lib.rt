//! Runs permutations on the calling thread alone: what tests and figures compare the program's runs with.
#![tactic(auto)]

mod one_run;
mod print;

pub use one_run::run_alone;
pub use print::print_alone;
