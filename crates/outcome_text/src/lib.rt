//! What is said of what can happen in a file, and how it is printed, as text or as a page of HTML; what the command line asks for; and what a
//! terminal shows while permutations run.
#![tactic(auto)]

mod answer;
mod cells;
mod gathered;
mod heading;
mod html;
mod interleaving;
mod markup;
mod names;
mod naming;
mod page;
mod plain;
mod progress;
mod request;
mod telling;
mod text;
mod told;
mod watch;

pub use answer::{Answer, answer_in};
pub use progress::Progress;
pub use request::{Request, USAGE, request_of};
pub use watch::Watch;
