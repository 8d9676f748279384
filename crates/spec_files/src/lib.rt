//! A spec file with the statements of its blocks, or why it is refused; its permutations listed; and, by what runs one of
//! them, all of them run, several side by side, and their text printed.
#![tactic(auto)]

mod ahead;
mod blocks;
mod draft;
mod fault;
mod file;
mod first_line;
mod free_plan;
mod free_text;
mod freely;
pub mod laws;
mod list;
mod load;
mod plan;
mod report;
mod run;
mod side_by_side;

pub use draft::Draft;
pub use fault::{BlockFault, RunFault};
pub use file::{SpecFile, read_file};
pub use free_plan::free_plan_of;
pub use free_text::write_free;
pub use freely::free_spec_by;
pub use list::list_spec;
pub use permutation_lists::Interleavings;
pub use plan::PlanSoFar;
pub use report::write_permutation;
pub use report_text::Ended;
pub use run::run_spec_by;
