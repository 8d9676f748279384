//! Tokens of spec files and of SQL text, names, and the devices that bytes come from and go to.
//!
//! ```
//! /// The byte at which the last token of a spec file begins.
//! fn last_token(alloc: Global, file: &str) -> anyhow::Result<usize> {
//!     let tokens = spec_tokens(alloc, file)?;
//!     let Some(last) = tokens.last() else {
//!         bail!("no tokens");
//!     };
//!     Ok(last.span.start)
//! }
//! ```
#![tactic(auto)]

mod comment;
mod device;
mod fault;
mod front;
mod ident;
mod limits;
mod name;
mod name_bytes;
mod page;
mod piece;
mod quoted;
mod runs;
mod same;
mod spec_text;
mod spec_token;
mod sql_front;
mod sql_text;
mod sql_token;
mod std_device;
mod token;
mod tokens;
mod whole;
mod write;

pub use comment::comments_nest;
pub use device::{DeviceFault, Sink, Source};
pub use fault::{Fault, FaultKind, LexFault};
pub use ident::Ident;
pub use limits::{LONGEST_FILE, MAX_DEPTH, MAX_STMTS, MOST_ENTRIES, MOST_SESSIONS, MOST_STEPS};
pub use name::Name;
pub use page::Page;
pub use quoted::quotes_go_on;
pub use same::same_name;
pub use spec_text::{one_reading, spec_tokens, tokens_are_few, tokens_are_slices};
pub use spec_token::{Keyword, Sign, SpecTok};
pub use sql_text::{one_sql_reading, sql_tokens, sql_tokens_are_slices};
pub use sql_token::{SqlSign, SqlTok};
pub use std_device::FromStd;
pub use token::{At, Span};
pub use whole::{ReadFault, read_all};
pub use write::write_name;
