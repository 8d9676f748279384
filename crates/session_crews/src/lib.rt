//! A thread for each session, over any engine behind one lock: what each session's thread does, in runs whose events a
//! driver orders and that are served side by side, and in a free run.
#![tactic(auto)]

mod alone;
mod counter;
mod crew;
mod directed;
mod driven;
mod ending;
mod flight;
mod free;
mod free_run;
mod free_shared;
mod joined;
mod keeper;
mod progress;
mod queue;
mod served;
mod shared;
mod slot;

pub use alone::run_one;
pub use directed::run_crew;
pub use driven::Drives;
pub use free::run_scripts;
pub use joined::Joined;
pub use keeper::Keeper;
pub use shared::Opened;
