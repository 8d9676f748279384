//! What came of permutations: the outcome of a history, when two outcomes are one, and how many permutations have which.
#![tactic(auto)]

mod alike;
mod answers;
mod counted;
mod ending;
pub mod laws;
mod outcome;
mod rows;
mod serial;
mod setups;
mod standing;
mod tables;

pub use alike::{same_answers, same_table, same_tables};
pub use counted::{Counted, Group, copied_entries};
pub use ending::{Ended, Ending, ended_in};
pub use outcome::RunOutcome;
pub use serial::is_serial;
pub use standing::{Standing, stmts_at};
pub use tables::{tables_made, written};
