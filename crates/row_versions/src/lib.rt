//! The writes of all transactions, their fates, and the rows that a view shows.
#![tactic(auto)]

pub mod laws;
mod list_store;
mod names;
mod versions;
mod write;

pub use list_store::ListStore;
pub use names::{RowId, TableId, TxId};
pub use versions::Versions;
pub use write::{Fate, Seen, View, Write};
