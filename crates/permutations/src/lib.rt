//! Runs the permutations of a spec file, or its sessions freely, with a thread for each session, and prints the text; and what the words of a command line ask for: the program but for its devices.
#![tactic(auto)]

mod draft;
mod driver;
mod free_run;
mod freely;
mod program;
mod report;
mod run;
mod terminal;
mod thread_run;

pub use driver::Plan;
pub use free_run::free_run_of;
pub use freely::{free_spec, run_freely, tell_run, write_closed};
pub use permutation_plans::{free_fits, launches_fit};
pub use program::serve;
pub use run::run_spec;
pub use spec_files::{
    BlockFault, Ended, Interleavings, RunFault, SpecFile, laws, list_spec, read_file, write_free,
    write_permutation,
};
pub use terminal::serve_at_terminal;
