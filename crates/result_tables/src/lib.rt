//! Tables of results, as `psql` aligns them.
#![tactic(auto)]

mod column;
mod fault;
mod name_bytes;
mod numeric;
mod shown;
mod table;
mod table_lines;

pub use fault::TableFault;
pub use numeric::is_numeric;
pub use table::write_table;
