//! What the tests ask of texts. Where memory is refused that is the answer, and the test ends with it.

use iso_lexer::{At, LexFault, sql_tokens};
use sql_equality::same_expr;
use sql_expressions::{Parsed, parse_expr};
use sql_parser::{Block, Role, parse_block};
use sql_trees::{SqlFault, Tok, classified};
use std::alloc::{AllocError, Global};
use std::process::Abort;

/// Fails at the text of which something doesn't hold.
pub fn holds(rt: &impl Abort, held: bool, text: &str) {
    assert!(rt; held, "{text}");
}

/// The block that a text is, where it is one and no longer than a file.
pub fn block_of<'a>(
    alloc: Global,
    role: Role,
    text: &'a str,
) -> Result<Option<Block<'a>>, AllocError> {
    if text.len() > 1_048_576 {
        return Ok(None);
    }
    match parse_block(alloc, text, role) {
        Ok(block) => Ok(Some(block)),
        Err(SqlFault::Memory) => Err(AllocError),
        Err(_) => Ok(None),
    }
}

/// Whether both texts are the same block, if both are blocks.
pub fn is_same(
    alloc: Global,
    role: Role,
    text: &str,
    other: &str,
) -> Result<Option<bool>, AllocError> {
    let Some(read) = block_of(alloc, role, text)? else {
        return Ok(None);
    };
    match block_of(alloc, role, other)? {
        Some(other) => Ok(Some(read.same(&other))),
        None => Ok(None),
    }
}

/// Whether the fault is told so.
fn says(alloc: Global, fault: SqlFault, line: &str) -> Result<bool, AllocError> {
    if let SqlFault::Memory = fault {
        return Err(AllocError);
    }
    Ok(fault.to_string(alloc)?.as_str() == line)
}

/// Whether a short text is refused with this fault.
pub fn is_refused(alloc: Global, role: Role, text: &str, line: &str) -> Result<bool, AllocError> {
    if text.len() > 65536 {
        return Ok(false);
    }
    match parse_block(alloc, text, role) {
        Ok(_) => Ok(false),
        Err(fault) => says(alloc, fault, line),
    }
}

/// The tokens of a text, where it has any.
pub fn tokens_of<'a>(alloc: Global, text: &'a str) -> Result<Option<Vec<At<Tok<'a>>>>, AllocError> {
    match sql_tokens(alloc, text) {
        Ok(lexed) => Ok(Some(classified(alloc, &lexed)?)),
        Err(LexFault::Memory) => Err(AllocError),
        Err(_) => Ok(None),
    }
}

/// The expression at the front of a text's tokens, where one stands there, and how many tokens stand behind it.
pub fn front_of<'a>(
    alloc: Global,
    text: &'a str,
) -> Result<Option<(Parsed<'a>, usize)>, AllocError> {
    let Some(tokens) = tokens_of(alloc, text)? else {
        return Ok(None);
    };
    match parse_expr(alloc, text.len(), &tokens) {
        Ok((parsed, rest)) => Ok(Some((parsed, rest.len()))),
        Err(SqlFault::Memory) => Err(AllocError),
        Err(_) => Ok(None),
    }
}

/// Whether an expression of this depth stands at the text's front, with so many tokens behind it, and is the one that the other text is.
pub fn is_read_as(
    alloc: Global,
    (text, depth, left): (&str, usize, usize),
    other: &str,
) -> Result<bool, AllocError> {
    let Some((read, rest)) = front_of(alloc, text)? else {
        return Ok(false);
    };
    match front_of(alloc, other)? {
        Some((same, 0)) => {
            Ok(read.depth == depth && rest == left && same_expr(&read.expr, &same.expr))
        }
        _ => Ok(false),
    }
}

/// Whether no expression stands at the text's front, for this fault.
pub fn is_no_expression(alloc: Global, text: &str, line: &str) -> Result<bool, AllocError> {
    let Some(tokens) = tokens_of(alloc, text)? else {
        return Ok(false);
    };
    match parse_expr(alloc, text.len(), &tokens) {
        Ok(_) => Ok(false),
        Err(fault) => says(alloc, fault, line),
    }
}
