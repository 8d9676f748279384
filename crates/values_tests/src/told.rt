//! Expressions as they are written, and answers in words.

use iso_lexer::{At, Ident, LexFault, Name, SqlTok, same_name, sql_tokens};
use sql_expressions::{Parsed, parse_expr};
use sql_trees::{Expr, SqlFault, classified};
use sql_values::{Columns, Row, Value, ValueFault, eval};
use std::alloc::{AllocError, Global};
use std::process::Abort;

/// Fails the test where the claim is false; `of` says which case it is.
pub(crate) fn holds(rt: &impl Abort, claim: bool, of: &str) {
    assert!(rt; claim, "{of}");
}

/// Whether it is so, asked again where memory was refused.
macro_rules! at_last {
    ($asked:expr) => {
        match $asked {
            Ok(so) => so,
            Err(_) => matches!($asked, Ok(true)),
        }
    };
}

pub(crate) use at_last;

fn parsed<'a>(
    alloc: Global,
    len: usize,
    tokens: &[At<SqlTok<'a>>],
) -> Result<Option<Expr<'a>>, AllocError> {
    let tokens = classified(alloc, tokens)?;
    match parse_expr(alloc, len, &tokens) {
        Ok((Parsed { expr, .. }, _)) => Ok(Some(Box::into_inner(expr))),
        Err(SqlFault::Memory) => Err(AllocError),
        Err(_) => Ok(None),
    }
}

/// The expression, where the text is one.
pub(crate) fn expression<'a>(alloc: Global, text: &'a str) -> Result<Option<Expr<'a>>, AllocError> {
    match sql_tokens(alloc, text) {
        Ok(tokens) => parsed(alloc, text.len(), &tokens),
        Err(LexFault::Memory) => Err(AllocError),
        Err(_) => Ok(None),
    }
}

fn is_number(number: i64, kind: &str, words: &str) -> bool {
    match words.strip_prefix(kind) {
        Some(digits) => match digits.parse::<i64>() {
            Ok(wanted) => wanted == number,
            Err(_) => false,
        },
        None => false,
    }
}

fn is_text(text: &str, words: &str) -> bool {
    match words.strip_prefix("text ") {
        Some(wanted) => wanted == text,
        None => false,
    }
}

/// Whether it is the value in these words.
fn is_value(value: &Value, words: &str) -> bool {
    match value {
        Value::Null => words == "NULL",
        Value::Int(n) => is_number(*n as i64, "int ", words),
        Value::Big(n) => is_number(*n, "bigint ", words),
        Value::Text(text) => is_text(text.as_str(), words),
        Value::Bool(true) => words == "true",
        Value::Bool(false) => words == "false",
    }
}

fn is_column(column: &Ident<'_>, words: &str) -> bool {
    match words.strip_prefix("no column ") {
        Some(name) => same_name(&column.name(), &Name::Plain(name)),
        None => false,
    }
}

/// Whether it is the fault in these words.
pub(crate) fn is_fault(fault: &ValueFault<'_>, words: &str) -> bool {
    match fault {
        ValueFault::DivisionByZero => words == "division by zero",
        ValueFault::IntegerRange => words == "integer out of range",
        ValueFault::BigintRange => words == "bigint out of range",
        ValueFault::TypeMismatch => words == "type mismatch",
        ValueFault::NoColumn(column) => is_column(column, words),
        ValueFault::Memory => false,
    }
}

/// Whether it is the value or the fault in these words.
pub(crate) fn is_answer(
    answer: Result<Value, ValueFault<'_>>,
    words: &str,
) -> Result<bool, AllocError> {
    match answer {
        Ok(value) => Ok(is_value(&value, words)),
        Err(ValueFault::Memory) => Err(AllocError),
        Err(fault) => Ok(is_fault(&fault, words)),
    }
}

/// The value at a row without columns, where it has one.
fn value_alone(alloc: Global, expr: &Expr<'_>, row: &Row) -> Result<Option<Value>, AllocError> {
    let cols = Columns::of(&[]);
    if row.values().len() != cols.len() {
        return Ok(None);
    }
    match eval(alloc, expr, &cols, row) {
        Ok(value) => Ok(Some(value)),
        Err(ValueFault::Memory) => Err(AllocError),
        Err(_) => Ok(None),
    }
}

/// The value of an expression without columns, where it has one.
pub(crate) fn constant(alloc: Global, text: &str) -> Result<Option<Value>, AllocError> {
    let row = Row::from_vec(Vec::new(alloc));
    match expression(alloc, text)? {
        Some(expr) => value_alone(alloc, &expr, &row),
        None => Ok(None),
    }
}

fn push_row(alloc: Global, rows: &mut Vec<Row>, value: Value) -> Result<(), AllocError> {
    let mut values = Vec::new(alloc);
    values.push(value)?;
    rows.push(Row::from_vec(values))?;
    Ok(())
}

/// Rows of one value each, of expressions between blanks. One that has no value has no row.
pub(crate) fn rows_of(alloc: Global, words: &str) -> Result<Vec<Row>, AllocError> {
    let mut rows = Vec::new(alloc);
    for word in words.split_whitespace() {
        if let Some(value) = constant(alloc, word)? {
            push_row(alloc, &mut rows, value)?;
        }
    }
    Ok(rows)
}
