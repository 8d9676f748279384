//! The database that all sessions share: tables, the versions of their rows, the index of their keys, the locks that are held, and who waits for whom.
#![tactic(auto)]

mod catalog;
mod database;
mod drops;
mod keys;
mod settle;
mod stop;
mod table;
mod waits;
mod work;

pub use database::Database;
pub use stop::{Meets, Stop};
pub use work::{Surroundings, Work};
