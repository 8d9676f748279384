//! Whether two trees of SQL text are one, but for the spelling of names and strings.
//!
//! ```
//! /// Whether two texts have the same statements, in a session.
//! fn say_the_same(alloc: Global, text: &str, other: &str) -> anyhow::Result<bool> {
//!     ensure!(text.len() <= 4096 && other.len() <= 4096, "long texts");
//!     let read = parse_block(alloc, text, Role::Session)?;
//!     let same = parse_block(alloc, other, Role::Session)?;
//!     Ok(same_stmts(read.stmts(), same.stmts()))
//! }
//! ```
#![tactic(auto)]

mod alike;
mod expressions;
mod statements;

pub use expressions::{same_expr, same_text};
pub use statements::{same_stmt, same_stmts};
