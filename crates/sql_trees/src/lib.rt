//! Trees of SQL text, over slices of the text.
//!
//! ```
//! /// Whether a text of SQL begins with SELECT.
//! fn begins_with_select(alloc: Global, text: &str) -> anyhow::Result<bool> {
//!     let words = classified(alloc, &sql_tokens(alloc, text)?)?;
//!     let Some(first) = words.first() else {
//!         bail!("no tokens");
//!     };
//!     Ok(matches!(first.tok, Tok::Word(Word::Select, _)))
//! }
//! ```
#![tactic(auto)]

mod expr;
mod fault;
mod kind;
mod stmt;
mod token;
mod word;

pub use expr::{Agg, AggKind, Expr, Operator, Truth};
pub use fault::SqlFault;
pub use kind::{Dir, Kind};
pub use stmt::{
    Column, CreateTable, Delete, DropTable, Insert, Item, Key, Level, Lock, OrderKey, Policy,
    Select, Stmt, Strength, Update,
};
pub use token::{Tok, classified};
pub use word::{Word, word_of, words_are_classed};
