//! Blocks of statements, and what a block keeps of its statements.
//!
//! ```
//! /// Whether the text is the same block in a setup of the whole file and in a session.
//! fn is_one_anywhere(alloc: Global, text: &str) -> anyhow::Result<bool> {
//!     ensure!(text.len() <= 4096, "a long text");
//!     let main = parse_block(alloc, text, Role::Main)?;
//!     let step = parse_block(alloc, text, Role::Session)?;
//!     Ok(main.same(&step))
//! }
//! ```
#![tactic(auto)]

mod block;
mod same;

pub use block::{Block, Role};
pub use iso_lexer::MAX_STMTS;
pub use same::same_blocks;
