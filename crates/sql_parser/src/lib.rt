//! Statements and blocks of SQL text, read into trees.
//!
//! ```
//! /// How many statements a step's SQL has.
//! fn count_statements(alloc: Global, text: &str) -> anyhow::Result<usize> {
//!     ensure!(text.len() <= 4096, "a long text");
//!     let block = parse_block(alloc, text, Role::Session)?;
//!     Ok(block.stmts().len())
//! }
//! ```
#![tactic(auto)]

mod block;
mod change;
mod laws;
mod list;
mod names;
mod part;
mod query;
mod returning;
mod statement;
mod table;
mod table_keys;
mod transaction;

pub use block::parse_block;
pub use laws::{
    block_faults_are_first, blocks_are_read, ddl_is_refused, faults_are_first, too_many_is_refused,
};
pub use sql_blocks::{Block, MAX_STMTS, Role};
