//! Which words are names, and which stand for a part that is left out.

use crate::asked::{block_of, holds, is_refused};
use sql_parser::Role;
use std::alloc::{AllocError, Global};
use std::process::Abort;

// Words that are no names and stand for a part that is left out.
const LEFT_OUT: [&str; 41] = [
    "ALL",
    "ANY",
    "CASE",
    "CAST",
    "CHECK",
    "COLLATE",
    "CONSTRAINT",
    "CROSS",
    "DEFAULT",
    "DISTINCT",
    "ELSE",
    "EXCEPT",
    "FETCH",
    "FOREIGN",
    "FULL",
    "GROUP",
    "HAVING",
    "ILIKE",
    "INNER",
    "INTERSECT",
    "ISNULL",
    "JOIN",
    "LEFT",
    "LIKE",
    "LIMIT",
    "NATURAL",
    "NOTNULL",
    "OFFSET",
    "ON",
    "OUTER",
    "REFERENCES",
    "RETURNING",
    "RIGHT",
    "SELECT",
    "SIMILAR",
    "THEN",
    "UNION",
    "USING",
    "WHEN",
    "WINDOW",
    "WITH",
];

// Words that are names, and elsewhere stand for a part that is left out.
const NAMES_LEFT_OUT: [&str; 18] = [
    "SERIALIZABLE",
    "READ",
    "ONLY",
    "DEFERRABLE",
    "SAVEPOINT",
    "RELEASE",
    "LOCK",
    "VACUUM",
    "TRUNCATE",
    "ALTER",
    "DROP",
    "EXPLAIN",
    "PREPARE",
    "EXECUTE",
    "COPY",
    "VIEW",
    "INDEX",
    "SEQUENCE",
];

// Words of a lock and of ON CONFLICT: names, which elsewhere stand for no part that is left out.
const NAMES: [&str; 8] = [
    "NO", "KEY", "SHARE", "NOWAIT", "SKIP", "LOCKED", "CONFLICT", "NOTHING",
];

// Words that are no names and stand for no part that is left out, but FROM.
const NO_NAMES: [&str; 21] = [
    "AND", "AS", "ASC", "BETWEEN", "CREATE", "DESC", "END", "FALSE", "FOR", "IN", "INTO", "IS",
    "NOT", "NULL", "OR", "ORDER", "PRIMARY", "TABLE", "TRUE", "UNIQUE", "WHERE",
];

// This word between a front and a back.
fn around(alloc: Global, front: &str, word: &str, back: &str) -> Result<String, AllocError> {
    let mut text = String::new(alloc);
    text.push_str(front)?;
    text.push_str(word)?;
    text.push_str(back)?;
    Ok(text)
}

// Whether the word is refused behind this front, with this fault.
fn is_refused_behind(
    alloc: Global,
    front: &str,
    word: &str,
    fault: &str,
) -> Result<bool, AllocError> {
    let text = around(alloc, front, word, "")?;
    is_refused(alloc, Role::Main, &text, fault)
}

// Whether the word is read between this front and back.
fn is_read(alloc: Global, front: &str, word: &str, back: &str) -> Result<bool, AllocError> {
    let text = around(alloc, front, word, back)?;
    Ok(block_of(alloc, Role::Main, &text)?.is_some())
}

fn all_refused(
    rt: &impl Abort,
    alloc: Global,
    front: &str,
    words: &[&str],
    fault: &str,
) -> Result<(), AllocError> {
    for word in words {
        holds(rt, is_refused_behind(alloc, front, *word, fault)?, *word);
    }
    Ok(())
}

fn all_read(
    rt: &impl Abort,
    alloc: Global,
    front: &str,
    words: &[&str],
    back: &str,
) -> Result<(), AllocError> {
    for word in words {
        holds(rt, is_read(alloc, front, *word, back)?, *word);
    }
    Ok(())
}

#[test]
fn words_that_are_no_alias(rt: HostRuntime) -> Result<(), AllocError> {
    let front = "SELECT a FROM t ";
    let fault = "Q2 LeftOut at byte 16";
    all_refused(&rt, rt.alloc(), front, LEFT_OUT.as_slice(), fault)?;
    all_refused(&rt, rt.alloc(), front, NAMES_LEFT_OUT.as_slice(), fault)?;
    let fault = "Q1 Syntax at byte 16";
    all_refused(&rt, rt.alloc(), front, NAMES.as_slice(), fault)
}

#[test]
fn words_that_are_no_names(rt: HostRuntime) -> Result<(), AllocError> {
    let front = "DROP TABLE ";
    let fault = "Q2 LeftOut at byte 11";
    all_refused(&rt, rt.alloc(), front, LEFT_OUT.as_slice(), fault)?;
    let fault = "Q1 Syntax at byte 11";
    all_refused(&rt, rt.alloc(), front, NO_NAMES.as_slice(), fault)
}

#[test]
fn words_that_are_names(rt: HostRuntime) -> Result<(), AllocError> {
    let front = "DROP TABLE ";
    all_read(&rt, rt.alloc(), front, NAMES_LEFT_OUT.as_slice(), "")?;
    all_read(&rt, rt.alloc(), front, NAMES.as_slice(), "")?;
    let front = "DROP TABLE \"";
    all_read(&rt, rt.alloc(), front, LEFT_OUT.as_slice(), "\"")?;
    all_read(&rt, rt.alloc(), front, NO_NAMES.as_slice(), "\"")
}
