//! Expressions of SQL, read from tokens.
//!
//! ```
//! /// How deep the expression is that a text is.
//! fn depth_of(alloc: Global, text: &str) -> anyhow::Result<usize> {
//!     let tokens = classified(alloc, &sql_tokens(alloc, text)?)?;
//!     let (parsed, rest) = parse_expr(alloc, text.len(), &tokens)?;
//!     ensure!(rest.is_empty(), "more than an expression");
//!     Ok(parsed.depth)
//! }
//! ```
#![tactic(auto)]

mod cursor;
mod expr;
mod laws;
mod level;
mod operator;
mod parsed;

pub use cursor::{Parser, Tokens, after_comma};
pub use expr::{Read, parse_expr};
pub use iso_lexer::MAX_DEPTH;
pub use laws::{deep_is_first, expressions_are_read, faults_are_first, fronts_are_taken};
pub use parsed::Parsed;
