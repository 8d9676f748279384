//! With ample memory none is wanting, however much a text lists.

use crate::asked::{block_of, front_of, holds, tokens_of};
use sql_parser::Role;
use sql_trees::{Expr, Stmt};
use std::alloc::{AllocError, Global};
use std::process::Abort;

const SIZES: [usize; 8] = [0, 1, 5, 9, 41, 101, 1_001, 5_001];

/// A text that lists: what stands before the list, before and behind the number of each of its parts, and behind the list.
type Parts = [&'static str; 4];

fn text_of(alloc: Global, parts: Parts, size: usize) -> Result<String, AllocError> {
    let [front, before, behind, back] = parts;
    let mut text = String::new(alloc);
    text.push_str(front)?;
    for number in 0..size {
        let part = format!(in alloc; "{before}{number}{behind}")?;
        text.push_str(part.as_str())?;
    }
    text.push_str(back)?;
    Ok(text)
}

/// What a statement lists.
#[derive(Clone, Copy)]
enum Listed {
    Columns,
    Keys,
    Dropped,
    Rows,
    Values,
    Sets,
    Items,
    OrderKeys,
    Members,
}

/// How many columns the first key has.
fn key_columns(stmt: &Stmt<'_>) -> usize {
    let Stmt::CreateTable(create) = stmt else {
        return 0;
    };
    match create.keys.as_slice() {
        [key, ..] => key.columns.len(),
        [] => 0,
    }
}

fn insert_columns(stmt: &Stmt<'_>) -> usize {
    match stmt {
        Stmt::Insert(insert) => match &insert.columns {
            Some(columns) => columns.len(),
            None => 0,
        },
        _ => 0,
    }
}

/// How many values the first row has.
fn values(stmt: &Stmt<'_>) -> usize {
    let Stmt::Insert(insert) = stmt else {
        return 0;
    };
    match insert.rows.as_slice() {
        [row, ..] => row.len(),
        [] => 0,
    }
}

/// How many members the list of the condition's IN has.
fn members(stmt: &Stmt<'_>) -> usize {
    let Stmt::Delete(delete) = stmt else {
        return 0;
    };
    match &delete.filter {
        Some(Expr::In(_, _, list)) => list.len(),
        _ => 0,
    }
}

fn columns(stmt: &Stmt<'_>) -> usize {
    match stmt {
        Stmt::CreateTable(create) => create.columns.len(),
        _ => 0,
    }
}

fn keys(stmt: &Stmt<'_>) -> usize {
    match stmt {
        Stmt::CreateTable(create) => create.keys.len(),
        _ => 0,
    }
}

fn dropped(stmt: &Stmt<'_>) -> usize {
    match stmt {
        Stmt::DropTable(drop) => drop.names.len(),
        _ => 0,
    }
}

fn rows(stmt: &Stmt<'_>) -> usize {
    match stmt {
        Stmt::Insert(insert) => insert.rows.len(),
        _ => 0,
    }
}

fn sets(stmt: &Stmt<'_>) -> usize {
    match stmt {
        Stmt::Update(update) => update.sets.len(),
        _ => 0,
    }
}

fn items(stmt: &Stmt<'_>) -> usize {
    match stmt {
        Stmt::Select(select) => select.items.len(),
        _ => 0,
    }
}

fn order_keys(stmt: &Stmt<'_>) -> usize {
    match stmt {
        Stmt::Select(select) => select.order.len(),
        _ => 0,
    }
}

fn count_in(listed: Listed, stmt: &Stmt<'_>) -> usize {
    match listed {
        Listed::Columns => columns(stmt),
        Listed::Keys => keys(stmt),
        Listed::Dropped => dropped(stmt),
        Listed::Rows => rows(stmt),
        Listed::Values => values(stmt),
        Listed::Sets => sets(stmt),
        Listed::Items => items(stmt),
        Listed::OrderKeys => order_keys(stmt),
        Listed::Members => members(stmt),
    }
}

/// Whether this is a block whose first statement lists the numbered parts and so many more.
fn is_listed(
    alloc: Global,
    listed: Listed,
    parts: Parts,
    size: usize,
    more: usize,
) -> Result<bool, AllocError> {
    let text = text_of(alloc, parts, size)?;
    let Some(block) = block_of(alloc, Role::Main, text.as_str())? else {
        return Ok(false);
    };
    match block.stmts().first() {
        Some(stmt) => Ok(count_in(listed, stmt) == size.saturating_add(more)),
        None => Ok(false),
    }
}

// What is listed, how often outside the numbered parts, and the text.
const LISTS: [(Listed, usize, Parts); 13] = [
    (
        Listed::Columns,
        1,
        ["CREATE TABLE t (c int", ", c", " text", ")"],
    ),
    (
        Listed::Keys,
        0,
        ["CREATE TABLE t (c int", ", c", " int UNIQUE", ")"],
    ),
    (Listed::Dropped, 1, ["DROP TABLE t", ", t", "", ""]),
    (
        Listed::Rows,
        1,
        ["INSERT INTO t VALUES (1)", ", (", ")", ""],
    ),
    (
        Listed::Values,
        1,
        ["INSERT INTO t VALUES (1", ", ", "", ")"],
    ),
    (
        Listed::Values,
        1,
        ["INSERT INTO t VALUES ('x'", ", '", "'", ")"],
    ),
    (
        Listed::Sets,
        1,
        ["UPDATE t SET c = 1", ", c", " = 2", " WHERE c = 3"],
    ),
    (Listed::Items, 1, ["SELECT c", ", c + ", "", " FROM t"]),
    (
        Listed::Items,
        1,
        ["SELECT count(*)", ", sum(c", ")", " FROM t"],
    ),
    (
        Listed::Items,
        1,
        ["SELECT c AS a", ", c AS a", "", " FROM t"],
    ),
    (
        Listed::OrderKeys,
        1,
        ["SELECT c FROM t ORDER BY c", ", c + ", " DESC", ""],
    ),
    (
        Listed::Members,
        1,
        ["DELETE FROM t WHERE c IN (1", ", ", "", ")"],
    ),
    (
        Listed::Members,
        1,
        ["DELETE FROM t WHERE c IN ('x'", ", c || '", "'", ")"],
    ),
];

/// At each size so much is listed.
fn are_listed(
    rt: &impl Abort,
    alloc: Global,
    listed: Listed,
    parts: Parts,
    more: usize,
) -> Result<(), AllocError> {
    for size in SIZES {
        let told = is_listed(alloc, listed, parts, size, more)?;
        holds(rt, told, parts[0]);
    }
    Ok(())
}

#[test]
fn statements_of_each_size(rt: HostRuntime) -> Result<(), AllocError> {
    for (listed, more, parts) in LISTS {
        are_listed(&rt, rt.alloc(), listed, parts, more)?;
    }
    Ok(())
}

/// Whether this is a block of so many statements.
fn is_block_of(alloc: Global, parts: Parts, size: usize) -> Result<bool, AllocError> {
    let text = text_of(alloc, parts, size)?;
    match block_of(alloc, Role::Session, text.as_str())? {
        Some(block) => Ok(block.stmts().len() == size),
        None => Ok(false),
    }
}

// Of more than 256 statements there is no block.
#[test]
fn blocks_of_each_size(rt: HostRuntime) -> Result<(), AllocError> {
    for size in [0, 1, 5, 9, 41, 101, 256] {
        for parts in [["", "SELECT ", ";", ""], ["", "COMMIT -- ", "\n;", ""]] {
            holds(&rt, is_block_of(rt.alloc(), parts, size)?, parts[1]);
        }
    }
    Ok(())
}

/// Whether the text has so many tokens, each with its keyword, and is an expression.
fn is_expression_of(
    alloc: Global,
    parts: Parts,
    size: usize,
    count: usize,
) -> Result<bool, AllocError> {
    let text = text_of(alloc, parts, size)?;
    let Some(tokens) = tokens_of(alloc, text.as_str())? else {
        return Ok(false);
    };
    let is_whole = matches!(front_of(alloc, text.as_str())?, Some((_, 0)));
    Ok(is_whole && tokens.len() == count)
}

// The text, and how many tokens stand outside its numbered parts, which have two each.
const EXPRESSIONS: [(Parts, usize); 2] = [
    (["a IN (b", ", ", "", ")"], 5),
    (["a NOT IN (b + 1", ", c", "", ")"], 8),
];

#[test]
fn expressions_of_each_size(rt: HostRuntime) -> Result<(), AllocError> {
    for (parts, more) in EXPRESSIONS {
        for size in SIZES {
            let told = is_expression_of(rt.alloc(), parts, size, 2 * size + more)?;
            holds(&rt, told, parts[0]);
        }
    }
    Ok(())
}

/// Whether this is a statement that lists so many twice, one list after the other.
fn lists_twice(alloc: Global, parts: Parts, more: Parts, size: usize) -> Result<bool, AllocError> {
    let mut text = text_of(alloc, parts, size)?;
    let second = text_of(alloc, more, size)?;
    text.push_str(second.as_str())?;
    let Some(block) = block_of(alloc, Role::Main, text.as_str())? else {
        return Ok(false);
    };
    match block.stmts().first() {
        Some(stmt) => Ok(key_columns(stmt).max(insert_columns(stmt)) == size.saturating_add(1)),
        None => Ok(false),
    }
}

// A table with a key over its columns, and an INSERT with a list of columns.
const TWICE: [(Parts, Parts); 2] = [
    (
        ["CREATE TABLE t (c int", ", c", " text", ""],
        [", PRIMARY KEY (c", ", c", "", "))"],
    ),
    (
        ["INSERT INTO t (c", ", c", "", ") VALUES (0"],
        ["", ", ", "", ")"],
    ),
];

#[test]
fn keys_and_columns_of_each_size(rt: HostRuntime) -> Result<(), AllocError> {
    for (parts, more) in TWICE {
        for size in SIZES {
            holds(&rt, lists_twice(rt.alloc(), parts, more, size)?, parts[0]);
        }
    }
    Ok(())
}
