//! The examples in the documentation of the crates of SQL text.

use crate::asked::holds;
use anyhow::{bail, ensure};
use iso_lexer::sql_tokens;
use sql_equality::same_stmts;
use sql_expressions::parse_expr;
use sql_parser::{Role, parse_block};
use sql_trees::{Tok, Word, classified};
use std::alloc::Global;

/// Whether a text of SQL begins with SELECT.
fn begins_with_select(alloc: Global, text: &str) -> anyhow::Result<bool> {
    let words = classified(alloc, &sql_tokens(alloc, text)?)?;
    let Some(first) = words.first() else {
        bail!("no tokens");
    };
    Ok(matches!(first.tok, Tok::Word(Word::Select, _)))
}

/// How deep the expression is that a text is.
fn depth_of(alloc: Global, text: &str) -> anyhow::Result<usize> {
    let tokens = classified(alloc, &sql_tokens(alloc, text)?)?;
    let (parsed, rest) = parse_expr(alloc, text.len(), &tokens)?;
    ensure!(rest.is_empty(), "more than an expression");
    Ok(parsed.depth)
}

/// Whether two texts have the same statements, in a session.
fn say_the_same(alloc: Global, text: &str, other: &str) -> anyhow::Result<bool> {
    ensure!(text.len() <= 4096 && other.len() <= 4096, "long texts");
    let read = parse_block(alloc, text, Role::Session)?;
    let same = parse_block(alloc, other, Role::Session)?;
    Ok(same_stmts(read.stmts(), same.stmts()))
}

/// Whether the text is the same block in a setup of the whole file and in a session.
fn is_one_anywhere(alloc: Global, text: &str) -> anyhow::Result<bool> {
    ensure!(text.len() <= 4096, "a long text");
    let main = parse_block(alloc, text, Role::Main)?;
    let step = parse_block(alloc, text, Role::Session)?;
    Ok(main.same(&step))
}

/// How many statements a step's SQL has.
fn count_statements(alloc: Global, text: &str) -> anyhow::Result<usize> {
    ensure!(text.len() <= 4096, "a long text");
    let block = parse_block(alloc, text, Role::Session)?;
    Ok(block.stmts().len())
}

/// Whether a text begins so, asked again where memory was refused.
fn begins_so(alloc: Global, text: &str, select: bool) -> bool {
    for _ in 0..2 {
        if let Ok(begins) = begins_with_select(alloc, text) {
            return begins == select;
        }
    }
    false
}

/// Whether the examples of tokens and expressions answer this for a text.
fn are_read(alloc: Global, text: &str, select: bool, depth: usize) -> bool {
    for _ in 0..2 {
        if let (Ok(begins), Ok(deep)) = (begins_with_select(alloc, text), depth_of(alloc, text)) {
            return begins == select && deep == depth;
        }
    }
    false
}

/// Whether the examples of blocks answer this.
fn are_blocks(alloc: Global, text: &str, other: &str, count: usize) -> bool {
    for _ in 0..2 {
        if let (Ok(same), Ok(one), Ok(counted)) = (
            say_the_same(alloc, text, other),
            is_one_anywhere(alloc, text),
            count_statements(alloc, text),
        ) {
            return same && !one && counted == count;
        }
    }
    false
}

#[test]
fn the_examples_of_sql(rt: HostRuntime) {
    let alloc = rt.alloc();
    holds(&rt, are_read(alloc, "a + 1 > 2", false, 2), "a + 1 > 2");
    holds(&rt, begins_so(alloc, "select 1", true), "select 1");
    holds(
        &rt,
        are_blocks(alloc, "SELECT A; COMMIT", "select \"a\"; commit;", 2),
        "SELECT A; COMMIT",
    );
}
