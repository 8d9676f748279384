//! The words of the command line, and what the program says beside what it runs: of words that are refused, of faults, and to someone
//! who reads at a terminal.
#![tactic(auto)]

mod cure;
mod fault_line;
mod in_memory;
pub mod laws;
mod options;
mod pieces;
mod program;
mod quote;
mod terminal;

pub use in_memory::InMemory;
pub use options::{DEFAULT_LIMIT, Options, options_of, status_of};
pub use program::{end, take_words};
pub use terminal::read_there;
