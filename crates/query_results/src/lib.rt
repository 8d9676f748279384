//! What queries answer: results, the rules by which they come of the rows of a table, and what INSERT and UPDATE make of a row.
#![tactic(auto)]

pub mod laws;
mod result_set;
mod title;

pub use result_set::ResultSet;
pub use title::Title;
