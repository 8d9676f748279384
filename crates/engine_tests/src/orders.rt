//! In which order a SELECT shows its rows, and the first fault that it meets (PostgreSQL manual, 7.5 and SELECT).

use crate::at_rows::{Said, all_said, check};
use crate::trial::at_last;
use iso_lexer::Name;
use sql_trees::{Column, Kind};
use sql_values::{Row, Value};
use std::alloc::{AllocError, Global};
use std::process::Abort;

const ROWS: &str =
    "INSERT INTO t VALUES (1, 3, 'x', TRUE), (2, NULL, 'y', FALSE), (3, 1, NULL, NULL), (4, 3, 'a', TRUE), (5, 1, 'B', FALSE)";

const DIRECTIONS: [Said; 14] = [
    ("SELECT id FROM t", " | 1 | 2 | 3 | 4 | 5"),
    ("SELECT id FROM t ORDER BY a", " | 3 | 5 | 1 | 4 | 2"),
    ("SELECT id FROM t ORDER BY a DESC", " | 2 | 1 | 4 | 3 | 5"),
    (
        "SELECT id FROM t ORDER BY a NULLS FIRST",
        " | 2 | 3 | 5 | 1 | 4",
    ),
    (
        "SELECT id FROM t ORDER BY a DESC NULLS LAST",
        " | 1 | 4 | 3 | 5 | 2",
    ),
    ("SELECT id FROM t ORDER BY a, b", " | 5 | 3 | 4 | 1 | 2"),
    (
        "SELECT id FROM t ORDER BY a DESC, b DESC",
        " | 2 | 1 | 4 | 3 | 5",
    ),
    (
        "SELECT id FROM t ORDER BY a, id DESC",
        " | 5 | 3 | 4 | 1 | 2",
    ),
    ("SELECT id FROM t ORDER BY b", " | 5 | 4 | 1 | 2 | 3"),
    ("SELECT id FROM t ORDER BY c", " | 2 | 5 | 1 | 4 | 3"),
    (
        "SELECT id FROM t ORDER BY a * 2147483648 DESC",
        " | 2 | 1 | 4 | 3 | 5",
    ),
    (
        "SELECT id FROM t ORDER BY a IS NULL, id % 2",
        " | 4 | 1 | 3 | 5 | 2",
    ),
    ("SELECT id FROM t WHERE a = 3 ORDER BY b", " | 4 | 1"),
    (
        "SELECT id, b FROM t WHERE a = 3 ORDER BY b FOR UPDATE",
        " | 4 a | 1 x",
    ),
];

const KEYS: [Said; 22] = [
    ("SELECT id FROM t ORDER BY 1 DESC", " | 5 | 4 | 3 | 2 | 1"),
    ("SELECT id FROM t ORDER BY (1) DESC", " | 5 | 4 | 3 | 2 | 1"),
    (
        "SELECT * FROM t WHERE id > 3 ORDER BY 2",
        " | 5 1 B false | 4 3 a true",
    ),
    (
        "SELECT id, * FROM t WHERE id > 3 ORDER BY 3",
        " | 5 5 1 B false | 4 4 3 a true",
    ),
    (
        "SELECT *, -id FROM t WHERE id > 3 ORDER BY 5",
        " | 5 1 B false -5 | 4 3 a true -4",
    ),
    ("SELECT id FROM t ORDER BY 1 + 1", " | 1 | 2 | 3 | 4 | 5"),
    (
        "SELECT id FROM t ORDER BY 'x', NULL, TRUE",
        " | 1 | 2 | 3 | 4 | 5",
    ),
    (
        "SELECT -id AS a FROM t ORDER BY a",
        " | -5 | -4 | -3 | -2 | -1",
    ),
    (
        "SELECT -id AS a FROM t WHERE id < 4 ORDER BY a + 0",
        " | -3 | -1 | -2",
    ),
    (
        "SELECT -id AS n, b AS n FROM t WHERE id < 3 ORDER BY (n)",
        " | -2 y | -1 x",
    ),
    (
        "SELECT id AS \"N\" FROM t WHERE id < 3 ORDER BY \"N\" DESC",
        " | 2 | 1",
    ),
    ("SELECT id AS \"N\" FROM t ORDER BY m", " no column m"),
    ("SELECT id AS n FROM t ORDER BY n + 1", " no column n"),
    ("SELECT x FROM t WHERE y ORDER BY z", " no column x"),
    ("SELECT id FROM t WHERE y ORDER BY z", " no column y"),
    ("SELECT id FROM t ORDER BY 2, z", " no column z"),
    ("SELECT id FROM t ORDER BY 2", " position 2"),
    ("SELECT * FROM t ORDER BY 4, 5", " position 5"),
    ("SELECT id FROM t ORDER BY 1, 0", " position 0"),
    ("SELECT id FROM t ORDER BY -1", " position -1"),
    (
        "SELECT id FROM t ORDER BY 4294967297",
        " position 4294967297",
    ),
    ("SELECT id FROM t WHERE 1 / 0 = 1 ORDER BY 2", " position 2"),
];

const FAULTS: [Said; 10] = [
    ("SELECT id FROM t ORDER BY 6 / (a - 1)", " division by zero"),
    (
        "SELECT id FROM t WHERE a > 1 OR a IS NULL ORDER BY 6 / (a - 1)",
        " | 1 | 4 | 2",
    ),
    ("SELECT 6 / (a - 1) FROM t ORDER BY 1", " division by zero"),
    (
        "SELECT 6 / (a - 1) AS n FROM t ORDER BY n",
        " division by zero",
    ),
    (
        "SELECT id FROM t WHERE 1 / (id - 5) < 1 ORDER BY -b",
        " division by zero",
    ),
    ("SELECT 1 / 0 FROM t ORDER BY -b", " type mismatch"),
    (
        "SELECT id FROM t ORDER BY 1 / (id - 2), -b",
        " type mismatch",
    ),
    (
        "SELECT id FROM t ORDER BY 1 / (id - 1), -b",
        " division by zero",
    ),
    (
        "SELECT 2147483646 + id, 1 / (id - 1) FROM t ORDER BY id",
        " division by zero",
    ),
    (
        "SELECT 2147483646 + id, 1 / (id - 1) FROM t ORDER BY id DESC",
        " integer out of range",
    ),
];

#[test]
fn directions_and_ties(rt: HostRuntime) {
    check(&rt, rt.alloc(), ROWS, &DIRECTIONS);
}

#[test]
fn what_keys_mean(rt: HostRuntime) {
    check(&rt, rt.alloc(), ROWS, &KEYS);
}

#[test]
fn first_fault_of_a_select(rt: HostRuntime) {
    check(&rt, rt.alloc(), ROWS, &FAULTS);
}

const COLUMN: [Column<'static>; 1] = [Column {
    name: Name::Plain("a"),
    kind: Kind::Int,
    not_null: false,
}];

fn push(alloc: Global, rows: &mut Vec<Row>, value: Value) -> Result<(), AllocError> {
    let mut values = Vec::new(alloc);
    values.push(value)?;
    rows.push(Row::from_vec(values))?;
    Ok(())
}

/// A number and a truth value. No table has them in one column, so the rows are made here.
fn mixed_rows(alloc: Global) -> Result<Vec<Row>, AllocError> {
    let mut rows = Vec::new(alloc);
    push(alloc, &mut rows, Value::Int(1))?;
    push(alloc, &mut rows, Value::Bool(true))?;
    Ok(rows)
}

const MIXED: [Said; 2] = [
    ("SELECT a FROM t ORDER BY a", " type mismatch"),
    (
        "SELECT 1 / 0 FROM t ORDER BY 1 + 1, a DESC",
        " type mismatch",
    ),
];

fn mixed_once(rt: &impl Abort, alloc: Global) -> Result<(), AllocError> {
    let rows = mixed_rows(alloc)?;
    all_said(rt, alloc, &COLUMN, &rows, &MIXED)
}

#[test]
fn keys_that_do_not_compare(rt: HostRuntime) {
    at_last!(&rt, mixed_once(&rt, rt.alloc()));
}
