//! What becomes of one target row of an UPDATE, a DELETE or a locking SELECT.
#![tactic(auto)]

mod ask;
pub mod laws;
mod newest;
mod target;

pub use ask::{Ask, Settled};
pub use target::{is_blocked, settle};
