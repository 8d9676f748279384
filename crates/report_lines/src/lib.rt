//! What is said of a permutation's steps, and what is to be done next, from its history alone.
#![tactic(auto)]

mod entries;
mod history;
pub mod laws;
mod lines_so_far;
mod permutation_run;
mod plan;
mod progress;
mod run_so_far;
mod segments;

pub use entries::{ends_in, is_order, session_of};
pub use history::{Line, Moment, PlannedLaunch, RunState};
pub use lines_so_far::LinesSoFar;
pub use permutation_run::PermutationRun;
pub use plan::{PlannedRun, Schedule};
pub use progress::{PlanProgress, report};
pub use segments::{Segments, any_ends, any_fails};
