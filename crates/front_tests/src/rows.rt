//! Tokens as rows.

use crate::asking::holds;
use iso_lexer::At;
use std::process::Abort;

/// A token: its kind, its text, the byte at which it begins, and the one behind it.
pub type Row = (&'static str, &'static str, usize, usize);

/// What a row says of a token, but for its place.
pub trait InWords {
    fn kind(&self) -> &'static str;

    fn text(&self) -> &str;
}

fn is_told<T: InWords>(token: &At<T>, row: &Row) -> bool {
    token.tok.kind() == row.0
        && token.tok.text() == row.1
        && token.span.start == row.2
        && token.span.end == row.3
}

/// These are the tokens of the text.
pub fn are_tokens<T: InWords>(rt: &impl Abort, text: &str, tokens: &[At<T>], rows: &[Row]) {
    holds(rt, tokens.len() == rows.len(), text);
    for (token, row) in tokens.iter().zip(rows.iter()) {
        holds(rt, is_told(token, row), row.0);
    }
}
