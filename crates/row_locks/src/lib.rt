//! The locks that transactions hold on rows, and the transactions that wait.
#![tactic(auto)]

mod held;
pub mod laws;
mod lock_places;
mod lock_table;
mod members;
mod wait;
mod waits;

pub use held::{Held, conflicts};
pub use lock_table::LockTable;
pub use sql_trees::Strength;
pub use waits::Waits;
