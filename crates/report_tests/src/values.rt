//! Tables, and faults of statements.

ghost use Rattle.std.specs.Bool.{OnTrue};
ghost use Rattle.query_results.specs.Results.{IsEven};

use iso_lexer::{Ident, Name};
use query_results::{ResultSet, Title};
use session_machine::{KeyName, Outcome, StmtFault};
use sql_values::{Row, Value};
use std::alloc::{AllocError, Global};

pub(crate) fn is_even(titles: &[Title<'_>], rows: &[Row]) -> bool
    ensures { OnTrue result (IsEven titles.now rows.now) }
{
    let width = titles.len();
    rows.iter().all(|row| row.values().len() == width)
}

/// So many values.
pub(crate) fn row(alloc: Global, columns: usize, number: i32) -> Result<Row, AllocError> {
    let mut values = Vec::new(alloc);
    for _ in 0..columns {
        values.push(Value::Int(number))?;
    }
    Ok(Row::from_vec(values))
}

/// A table of these titles and rows, which are as wide.
pub(crate) fn table<'a>(titles: Vec<Title<'a>>, rows: Vec<Row>) -> Outcome<'a> {
    if is_even(&titles, &rows) {
        Outcome::Rows(ResultSet::new(titles, rows))
    } else {
        Outcome::Done
    }
}

/// A table of one column with one row.
pub(crate) fn cell<'a>(
    alloc: Global,
    title: &'a str,
    number: i32,
) -> Result<Outcome<'a>, AllocError> {
    let titles = vec![in alloc; Title::Column(Ident::new(Name::Folded(title)))]?;
    let mut rows = Vec::new(alloc);
    rows.push(row(alloc, 1, number)?)?;
    Ok(table(titles, rows))
}

fn t<'a>() -> Ident<'a> {
    Ident::new(Name::Folded("T"))
}

fn c<'a>() -> Ident<'a> {
    Ident::new(Name::Quoted("c"))
}

/// The name of a key, copied once.
fn key_name(alloc: Global) -> Result<KeyName, AllocError> {
    let mut text = Vec::new(alloc);
    text.extend_from_slice(b"t_c_key")?;
    KeyName::of(text).copied(alloc)
}

/// What a statement answers that fails by the fault of this number.
pub(crate) fn fault(alloc: Global, number: usize) -> Result<Outcome<'static>, AllocError> {
    Ok(Outcome::Failed(match number {
        0 => StmtFault::NoColumnOf {
            column: c(),
            table: t(),
        },
        1 => StmtFault::NoTable(t()),
        2 => StmtFault::NoTableToDrop(t()),
        3 => StmtFault::TableExists(t()),
        4 => StmtFault::NullValue {
            column: c(),
            table: t(),
        },
        5 => StmtFault::KeyTaken(key_name(alloc)?),
        6 => StmtFault::TooManyValues,
        7 => StmtFault::Aborted,
        8 => StmtFault::LevelTooLate,
        9 => StmtFault::NoPosition(-3),
        10 => StmtFault::NotSerializable,
        11 => StmtFault::Deadlock,
        12 => StmtFault::NotFree(t()),
        _ => StmtFault::NoTableToDrop(Ident::new(Name::Quoted("a\"\"B"))),
    }))
}
