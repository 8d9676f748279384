//! From a number to the places that are noted for it.
//!
//! A number is whatever its user counts by: a row, a table, a transaction. A place is an index into a list that the user keeps.
#![tactic(auto)]

mod last;
pub mod laws;
mod places;

pub use places::Places;
