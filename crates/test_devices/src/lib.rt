//! Devices for tests. They take no memory, and fail from a call on that the test chooses.
#![tactic(auto)]

mod gives;
mod takes;

pub use gives::Gives;
pub use takes::Takes;
