//! Values of expressions at a row, with what PostgreSQL's manual says of them; what columns take; what WHERE passes. The file `values` of the examples
//! has more.

use crate::told::{at_last, constant, expression, holds, is_answer};
use iso_lexer::Name;
use sql_trees::{Column, Expr};
use sql_values::{Columns, Kind, Row, Text, Value, assign, compare, copy_row, eval, passes};
use std::alloc::{AllocError, Global};
use std::cmp::Ordering;
use std::process::Abort;

/// What is asked of an expression.
#[derive(Clone, Copy)]
enum Asked {
    Value,
    /// Whether WHERE passes the row.
    Passes,
    /// What a column of this kind takes.
    Taken(Kind),
}

const COLUMNS: [Column<'static>; 2] = [
    Column {
        name: Name::Folded("A"),
        kind: Kind::Int,
        not_null: false,
    },
    Column {
        name: Name::Quoted("b\"\"B"),
        kind: Kind::Text,
        not_null: true,
    },
];

/// A row of `a`, which is 7, and `b"B`, which is `x`.
fn two_values(alloc: Global) -> Result<Row, AllocError> {
    let mut values = Vec::new(alloc);
    values.push(Value::Int(7))?;
    values.push(Value::Text(Text::from_string(String::from_str(alloc, "x")?)))?;
    Ok(Row::from_vec(values))
}

/// What is asked of an expression at the row.
fn is_so_at(
    alloc: Global,
    asked: Asked,
    expr: &Expr<'_>,
    row: &Row,
    words: &str,
) -> Result<bool, AllocError> {
    let cols = Columns::of(&COLUMNS);
    if row.values().len() != cols.len() {
        return Ok(false);
    }
    if let Asked::Value = asked {
        return is_answer(eval(alloc, expr, &cols, row), words);
    }
    match passes(alloc, Some(expr), &cols, row) {
        Ok(passed) => is_answer(Ok(Value::Bool(passed)), words),
        Err(fault) => is_answer(Err(fault), words),
    }
}

fn is_so_of(
    alloc: Global,
    asked: Asked,
    row: &Row,
    text: &str,
    words: &str,
) -> Result<bool, AllocError> {
    match expression(alloc, text)? {
        Some(expr) => is_so_at(alloc, asked, &expr, row, words),
        None => Ok(false),
    }
}

fn is_taken(alloc: Global, kind: Kind, text: &str, words: &str) -> Result<bool, AllocError> {
    match constant(alloc, text)? {
        Some(value) => is_answer(assign(value, kind), words),
        None => Ok(false),
    }
}

fn is_so(alloc: Global, asked: Asked, text: &str, words: &str) -> Result<bool, AllocError> {
    if let Asked::Taken(kind) = asked {
        return is_taken(alloc, kind, text, words);
    }
    let row = two_values(alloc)?;
    is_so_of(alloc, asked, &row, text, words)
}

fn all_are_so(rt: &impl Abort, alloc: Global, asked: Asked, cases: &[(&str, &str)]) {
    for (text, words) in cases {
        holds(rt, at_last!(is_so(alloc, asked, *text, *words)), *text);
    }
}

const ARITHMETIC: [(&str, &str); 45] = [
    ("2 + 3", "int 5"),
    ("2 - 3", "int -1"),
    ("2 * 3", "int 6"),
    ("5 / 2", "int 2"),
    ("-5 / 2", "int -2"),
    ("5 % 4", "int 1"),
    ("7 % -2", "int 1"),
    ("-7 % -2", "int -1"),
    ("-2147483648 % -1", "int 0"),
    ("2147483647 + 1", "integer out of range"),
    ("-2147483648 - 1", "integer out of range"),
    ("65536 * 65536", "integer out of range"),
    ("46340 * 46340", "int 2147395600"),
    ("46341 * 46341", "integer out of range"),
    ("0 / 0", "division by zero"),
    ("1 % 0", "division by zero"),
    ("NULL / 0", "NULL"),
    ("1 * NULL", "NULL"),
    ("- a", "int -7"),
    ("+ a", "int 7"),
    ("-(-2147483648 + 0)", "integer out of range"),
    ("-(2147483648 + 0)", "bigint -2147483648"),
    ("-(-9223372036854775807 - 1)", "bigint out of range"),
    ("- NULL", "NULL"),
    ("- 'a'", "type mismatch"),
    ("+ TRUE", "type mismatch"),
    ("TRUE + 1", "type mismatch"),
    ("'a' + 'b'", "type mismatch"),
    ("1 + 'a' + 1 / 0", "type mismatch"),
    ("'a' + 1 / 0", "division by zero"),
    ("2147483647", "int 2147483647"),
    ("2147483648", "bigint 2147483648"),
    ("-2147483648", "int -2147483648"),
    ("-2147483649", "bigint -2147483649"),
    ("9223372036854775807", "bigint 9223372036854775807"),
    ("2147483648 - 1", "bigint 2147483647"),
    ("1 + 2147483648", "bigint 2147483649"),
    ("65536 * 4294967296", "bigint 281474976710656"),
    ("4294967296 * 4294967296", "bigint out of range"),
    ("3037000499 * 3037000499", "bigint 9223372030926249001"),
    ("3037000500 * 3037000500", "bigint out of range"),
    ("(-9223372036854775807 - 1) / -1", "bigint out of range"),
    ("(-9223372036854775807 - 1) % -1", "bigint 0"),
    ("2147483648 / 2", "bigint 1073741824"),
    ("2147483648 / 0", "division by zero"),
];

const COMPARISONS_AND_TEXTS: [(&str, &str); 27] = [
    ("1 < 2", "true"),
    ("2 < 1", "false"),
    ("2 <= 2", "true"),
    ("3 > 2", "true"),
    ("2 >= 3", "false"),
    ("1 <> 2", "true"),
    ("1 = 1", "true"),
    ("1 < 2147483648", "true"),
    ("2147483648 > 2147483647", "true"),
    ("'abc' < 'abd'", "true"),
    ("'ab' < 'abc'", "true"),
    ("'B' < 'a'", "true"),
    ("'z' < '\u{e9}'", "true"),
    ("'a' = 'a'", "true"),
    ("FALSE < TRUE", "true"),
    ("NULL = NULL", "NULL"),
    ("NULL <> 1", "NULL"),
    ("'a' < NULL", "NULL"),
    ("1 = 'a'", "type mismatch"),
    ("TRUE = 1", "type mismatch"),
    ("1 || 2", "type mismatch"),
    ("'a' || 1", "type mismatch"),
    ("'a' || NULL", "NULL"),
    ("NULL || 1", "NULL"),
    ("'it''s'", "text it's"),
    ("'''' || 'a'", "text 'a"),
    ("'' || 'a'", "text a"),
];

const LOGIC: [(&str, &str); 44] = [
    ("TRUE AND TRUE", "true"),
    ("TRUE AND FALSE", "false"),
    ("TRUE AND NULL", "NULL"),
    ("FALSE AND FALSE", "false"),
    ("FALSE AND NULL", "false"),
    ("NULL AND NULL", "NULL"),
    ("NULL AND TRUE", "NULL"),
    ("TRUE OR FALSE", "true"),
    ("TRUE OR NULL", "true"),
    ("FALSE OR NULL", "NULL"),
    ("FALSE OR FALSE", "false"),
    ("NULL OR NULL", "NULL"),
    ("NULL OR TRUE", "true"),
    ("NULL OR FALSE", "NULL"),
    ("NOT TRUE", "false"),
    ("NOT FALSE", "true"),
    ("NOT NULL", "NULL"),
    ("NOT 1", "type mismatch"),
    ("1 AND TRUE", "type mismatch"),
    ("1 AND 1 / 0", "type mismatch"),
    ("TRUE AND 1", "type mismatch"),
    ("TRUE OR 1", "true"),
    ("FALSE AND 1", "false"),
    ("FALSE OR 1", "type mismatch"),
    ("NULL AND 1 / 0 = 0", "division by zero"),
    ("TRUE OR 1 / 0 = 0", "true"),
    ("NULL IS NULL", "true"),
    ("1 IS NULL", "false"),
    ("1 IS NOT NULL", "true"),
    ("NULL IS NOT NULL", "false"),
    ("NULL IS TRUE", "false"),
    ("TRUE IS TRUE", "true"),
    ("FALSE IS TRUE", "false"),
    ("NULL IS NOT TRUE", "true"),
    ("NULL IS UNKNOWN", "true"),
    ("FALSE IS UNKNOWN", "false"),
    ("FALSE IS FALSE", "true"),
    ("NULL IS FALSE", "false"),
    ("TRUE IS NOT FALSE", "true"),
    ("NULL IS NOT UNKNOWN", "false"),
    ("NULL = 1 IS UNKNOWN", "true"),
    ("1 IS TRUE", "type mismatch"),
    ("1 IS UNKNOWN", "type mismatch"),
    ("'a' IS NULL", "false"),
];

const IN_AND_BETWEEN: [(&str, &str); 29] = [
    ("1 IN (1, 2)", "true"),
    ("3 IN (1, 2)", "false"),
    ("NULL IN (1, 2)", "NULL"),
    ("1 IN (1, NULL)", "true"),
    ("1 IN (NULL, 1)", "true"),
    ("1 NOT IN (NULL, 2)", "NULL"),
    ("1 NOT IN (1, NULL)", "false"),
    ("1 IN (1, 1 / 0)", "true"),
    ("1 IN (2, 1 / 0)", "division by zero"),
    ("1 IN ('a')", "type mismatch"),
    ("1 IN (1, 'a')", "true"),
    ("1 IN (2147483648)", "false"),
    ("1 / 0 IN (1)", "division by zero"),
    ("NULL IN (NULL)", "NULL"),
    ("2 BETWEEN 1 AND 3", "true"),
    ("3 BETWEEN 1 AND 3", "true"),
    ("1 BETWEEN 1 AND 3", "true"),
    ("4 BETWEEN 1 AND 3", "false"),
    ("0 NOT BETWEEN 1 AND 3", "true"),
    ("NULL BETWEEN 1 AND 3", "NULL"),
    ("2 BETWEEN NULL AND 1", "false"),
    ("2 BETWEEN NULL AND 3", "NULL"),
    ("2 BETWEEN 1 AND NULL", "NULL"),
    ("2 BETWEEN 3 AND NULL", "false"),
    ("2 NOT BETWEEN 3 AND NULL", "true"),
    ("0 BETWEEN 1 AND 1 / 0", "false"),
    ("2 BETWEEN 1 AND 1 / 0", "division by zero"),
    ("'b' BETWEEN 'a' AND 'c'", "true"),
    ("1 BETWEEN 'a' AND 2", "type mismatch"),
];

#[test]
fn arithmetic(rt: HostRuntime) {
    all_are_so(&rt, rt.alloc(), Asked::Value, &ARITHMETIC);
}

#[test]
fn comparisons_and_texts(rt: HostRuntime) {
    all_are_so(&rt, rt.alloc(), Asked::Value, &COMPARISONS_AND_TEXTS);
}

#[test]
fn three_valued_logic(rt: HostRuntime) {
    all_are_so(&rt, rt.alloc(), Asked::Value, &LOGIC);
}

#[test]
fn in_and_between(rt: HostRuntime) {
    all_are_so(&rt, rt.alloc(), Asked::Value, &IN_AND_BETWEEN);
}

const NAMED: [(&str, &str); 4] = [
    ("a + 1", "int 8"),
    ("\"b\"\"B\"", "text x"),
    ("\"A\"\"1\"", "no column A\"1"),
    ("Bb", "no column bb"),
];

#[test]
fn columns_by_name(rt: HostRuntime) {
    all_are_so(&rt, rt.alloc(), Asked::Value, &NAMED);
}

const PASSED: [(&str, &str); 4] = [
    ("a = 7", "true"),
    ("a = 8", "false"),
    ("NULL", "false"),
    ("a", "type mismatch"),
];

#[test]
fn rows_that_pass(rt: HostRuntime) {
    all_are_so(&rt, rt.alloc(), Asked::Passes, &PASSED);
}

const INTEGERS: [(&str, &str); 6] = [
    ("NULL", "NULL"),
    ("1", "int 1"),
    ("-5 + 2147483648 - 2147483648", "int -5"),
    ("2147483648", "integer out of range"),
    ("'a'", "type mismatch"),
    ("TRUE", "type mismatch"),
];

const BIGINTS: [(&str, &str); 2] = [("1", "bigint 1"), ("2147483648", "bigint 2147483648")];

const TEXTS: [(&str, &str); 2] = [("'a'", "text a"), ("1", "type mismatch")];

const BOOLEANS: [(&str, &str); 3] = [("NULL", "NULL"), ("TRUE", "true"), ("1", "type mismatch")];

#[test]
fn taken_by_columns(rt: HostRuntime) {
    all_are_so(&rt, rt.alloc(), Asked::Taken(Kind::Int), &INTEGERS);
    all_are_so(&rt, rt.alloc(), Asked::Taken(Kind::Big), &BIGINTS);
    all_are_so(&rt, rt.alloc(), Asked::Taken(Kind::Text), &TEXTS);
    all_are_so(&rt, rt.alloc(), Asked::Taken(Kind::Bool), &BOOLEANS);
}

fn compare_as(a: &Value, b: &Value, order: Option<Ordering>) -> bool {
    compare(a, b) == order
}

#[test]
fn compared(rt: HostRuntime) {
    let two = Value::Int(2);
    holds(
        &rt,
        compare_as(&two, &Value::Big(2), Some(Ordering::Equal)),
        "equal",
    );
    holds(
        &rt,
        compare_as(&Value::Big(-3), &two, Some(Ordering::Less)),
        "less",
    );
    holds(&rt, compare_as(&Value::Null, &Value::Null, None), "NULL");
    holds(
        &rt,
        compare_as(&two, &Value::Bool(true), None),
        "other kinds",
    );
}

fn is_copied(alloc: Global, row: &Row) -> Result<bool, AllocError> {
    let copy = copy_row(alloc, row)?;
    Ok(row.same(&copy))
}

fn copy_is_same(alloc: Global) -> Result<bool, AllocError> {
    let row = two_values(alloc)?;
    is_copied(alloc, &row)
}

#[test]
fn copied_rows(rt: HostRuntime) {
    holds(&rt, at_last!(copy_is_same(rt.alloc())), "a copy");
}
