//! Tables byte for byte, and what a failing sink or a want of memory leaves. The files `alignment`, `literals` and `values` of the examples have more.

ghost use Rattle.std.specs.Bool.{OnTrue};
ghost use Rattle.query_results.specs.Results.{IsEven};

use crate::told::{at_last, holds};
use iso_lexer::{Ident, Name};
use query_results::{ResultSet, Title};
use result_tables::{TableFault, is_numeric, write_table};
use sql_values::{Row, Text, Value};
use std::alloc::{AllocError, Global};
use test_devices::Takes;

fn is_even(titles: &[Title<'_>], rows: &[Row]) -> bool
    ensures { OnTrue result (IsEven titles.now rows.now) }
{
    let width = titles.len();
    rows.iter().all(|row| row.values().len() == width)
}

/// The result, where its rows are as long as its titles.
fn set<'a>(titles: Vec<Title<'a>>, rows: Vec<Row>) -> Result<ResultSet<'a>, AllocError> {
    if is_even(titles.as_slice(), rows.as_slice()) {
        Ok(ResultSet::new(titles, rows))
    } else {
        Err(AllocError)
    }
}

fn text(alloc: Global, bytes: &str) -> Result<Value, AllocError> {
    Ok(Value::Text(Text::from_string(String::from_str(alloc, bytes)?)))
}

fn named(name: Name<'_>) -> Title<'_> {
    Title::Column(Ident::new(name))
}

fn text_row(alloc: Global, bytes: &str) -> Result<Row, AllocError> {
    let mut values = Vec::new(alloc);
    values.push(text(alloc, bytes)?)?;
    Ok(Row::from_vec(values))
}

/// Two texts that look like numbers, and an empty one.
fn number_rows(alloc: Global) -> Result<Vec<Row>, AllocError> {
    let mut rows = Vec::new(alloc);
    for bytes in ["12", "-3", ""] {
        rows.push(text_row(alloc, bytes)?)?;
    }
    Ok(rows)
}

fn numbers(alloc: Global) -> Result<ResultSet<'static>, AllocError> {
    let rows = number_rows(alloc)?;
    set(vec![in alloc; named(Name::Folded("c"))]?, rows)
}

const NUMBERS: &[u8] = b" c\n--\n12\n-3\n  \n(3 rows)\n\n";

fn no_columns(alloc: Global) -> Result<ResultSet<'static>, AllocError> {
    set(Vec::new(alloc), Vec::new(alloc))
}

fn each_title(alloc: Global) -> Result<Vec<Title<'static>>, AllocError> {
    Ok(vec![in alloc;
        named(Name::Quoted("a\"\"B")),
        named(Name::Plain("Col")),
        named(Name::Folded("Col")),
        Title::Unnamed,
        Title::Count,
        Title::Sum,
        Title::Min,
        Title::Max,
    ]?)
}

fn each_value(alloc: Global) -> Result<Row, AllocError> {
    Ok(Row::from_vec(vec![in alloc;
        text(alloc, "x")?,
        Value::Bool(true),
        Value::Bool(false),
        Value::Int(2),
        Value::Big(-9223372036854775808),
        Value::Int(-7),
        Value::Null,
        text(alloc, "yyyy")?,
    ]?))
}

fn each_title_and_value(alloc: Global) -> Result<ResultSet<'static>, AllocError> {
    set(each_title(alloc)?, vec![in alloc; each_value(alloc)?]?)
}

const EACH: &[u8] =
    b"a\"B|Col|col|?column?|               count|sum|min|max \n---+---+---+--------+--------------------+---+---+----\nx  |t  |f  |       2|-9223372036854775808| -7|   |yyyy\n(1 row)\n\n";

fn is_whole(alloc: Global, set: &ResultSet<'_>, text: &[u8]) -> bool {
    let mut out = Takes::new(9);
    write_table(alloc, &mut out, set).is_ok() && out.text() == text
}

/// Whether the table is the text, and a prefix of it where memory was refused first.
fn is_table(alloc: Global, set: &ResultSet<'_>, text: &[u8]) -> bool {
    let mut out = Takes::new(9);
    match write_table(alloc, &mut out, set) {
        Ok(()) => out.text() == text,
        Err(TableFault::Memory) => {
            text.starts_with(out.text()) && !out.failed && is_whole(alloc, set, text)
        }
        Err(TableFault::Write) => false,
    }
}

fn are_tables(alloc: Global) -> Result<bool, AllocError> {
    Ok(
        is_table(alloc, &numbers(alloc)?, NUMBERS)
            && is_table(alloc, &no_columns(alloc)?, b"\n\n(0 rows)\n\n")
            && is_table(alloc, &each_title_and_value(alloc)?, EACH),
    )
}

#[test]
fn tables_of_results(rt: HostRuntime) {
    holds(&rt, at_last!(are_tables(rt.alloc())), "tables");
}

/// Whether a sink that takes so few puts is told to have failed.
fn is_told_to_fail(alloc: Global, set: &ResultSet<'_>, puts: usize) -> bool {
    let mut out = Takes::new(puts);
    match write_table(alloc, &mut out, set) {
        Err(TableFault::Write) => out.failed,
        Err(TableFault::Memory) => !out.failed,
        Ok(()) => false,
    }
}

fn each_put_is_told(alloc: Global) -> Result<bool, AllocError> {
    let set = numbers(alloc)?;
    for puts in 0..5 {
        if !is_told_to_fail(alloc, &set, puts) {
            return Ok(false);
        }
    }
    Ok(true)
}

#[test]
fn each_put_failing_in_turn(rt: HostRuntime) {
    holds(&rt, at_last!(each_put_is_told(rt.alloc())), "puts");
}

#[test]
fn texts_that_look_like_numbers(rt: HostRuntime) {
    for text in ["0", "-3", "1.5", "1e5", "1 2"] {
        holds(&rt, is_numeric(text.as_bytes()), text);
    }
    for text in ["-", "e1", "E1", "1-", "1.", "", "a1", "1\t2"] {
        holds(&rt, !is_numeric(text.as_bytes()), text);
    }
}

fn is_copied(alloc: Global) -> Result<bool, AllocError> {
    let set = each_title_and_value(alloc)?;
    let copy = set.copied(alloc)?;
    Ok(set.same(&copy) && !set.same(&numbers(alloc)?))
}

#[test]
fn a_copy_is_the_same(rt: HostRuntime) {
    holds(&rt, at_last!(is_copied(rt.alloc())), "a copy");
}

#[test]
fn an_alias_is_not_the_unnamed_title(rt: HostRuntime) {
    let alias = named(Name::Quoted("?column?"));
    holds(&rt, !Title::Unnamed.same(&alias), "the unnamed title");
    holds(&rt, alias.same(&alias.again()), "the alias");
}
