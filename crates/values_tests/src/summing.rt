//! Aggregates over rows of one column `x`.
ghost use Rattle.std.specs.Prelude.{◌≡◌, All, length};
ghost use Rattle.std.specs.Bool.{OnTrue};

use crate::told::{at_last, expression, is_answer, rows_of};
use iso_lexer::Name;
use sql_trees::{Agg, AggKind, Column};
use sql_values::{Columns, Kind, Row, aggregate};
use std::alloc::{AllocError, Global};
use std::process::Abort;

fn are_as_long(rows: &[&Row], long: usize) -> bool
    ensures { OnTrue result (All (λ row. length row.now ≡ long) rows.now) }
{
    rows.iter().all(|row| row.values().len() == long)
}

fn lent<'r>(alloc: Global, rows: &'r [Row]) -> Result<Vec<&'r Row>, AllocError> {
    let mut lent = Vec::new(alloc);
    for row in rows {
        lent.push(row)?;
    }
    Ok(lent)
}

const COLUMN: [Column<'static>; 1] = [Column {
    name: Name::Folded("x"),
    kind: Kind::Int,
    not_null: false,
}];

fn gives(alloc: Global, agg: &Agg<'_>, rows: &[&Row], words: &str) -> Result<bool, AllocError> {
    let cols = Columns::of(&COLUMN);
    if !are_as_long(rows, cols.len()) {
        return Ok(false);
    }
    is_answer(aggregate(alloc, agg, &cols, rows), words)
}

pub(crate) fn gives_of(
    alloc: Global,
    agg: &Agg<'_>,
    rows: &[Row],
    words: &str,
) -> Result<bool, AllocError> {
    let lent = lent(alloc, rows)?;
    gives(alloc, agg, &lent, words)
}

/// An aggregate, the rows, and the answer in words.
type Case = (Option<AggKind>, &'static str, &'static str, &'static str);

/// The aggregate of that kind, where the text is an expression.
fn agg_of<'a>(
    alloc: Global,
    kind: Option<AggKind>,
    text: &'a str,
) -> Result<Option<Agg<'a>>, AllocError> {
    let Some(kind) = kind else {
        return Ok(Some(Agg::CountRows));
    };
    match expression(alloc, text)? {
        Some(expr) => Ok(Some(Agg::Of(kind, expr))),
        None => Ok(None),
    }
}

fn is_so_of(alloc: Global, rows: &[Row], case: &Case) -> Result<bool, AllocError> {
    match agg_of(alloc, case.0, case.1)? {
        Some(agg) => gives_of(alloc, &agg, rows, case.3),
        None => Ok(false),
    }
}

fn is_so(alloc: Global, case: &Case) -> Result<bool, AllocError> {
    let rows = rows_of(alloc, case.2)?;
    is_so_of(alloc, &rows, case)
}

const COUNT: Option<AggKind> = Some(AggKind::Count);

const SUM: Option<AggKind> = Some(AggKind::Sum);

const MIN: Option<AggKind> = Some(AggKind::Min);

const MAX: Option<AggKind> = Some(AggKind::Max);

const CASES: [Case; 27] = [
    (None, "*", "", "bigint 0"),
    (None, "*", "1 NULL 'a'", "bigint 3"),
    (COUNT, "x", "", "bigint 0"),
    (SUM, "x", "", "NULL"),
    (MIN, "x", "", "NULL"),
    (MAX, "x", "NULL NULL", "NULL"),
    (COUNT, "x", "1 NULL 2 NULL", "bigint 2"),
    (COUNT, "x", "TRUE 'a' 1", "bigint 3"),
    (SUM, "x", "1 NULL 2", "bigint 3"),
    (SUM, "x", "2147483647 2147483647 1", "bigint 4294967295"),
    (SUM, "x", "-2147483648 -2147483648", "bigint -4294967296"),
    (SUM, "x", "1 2147483648", "type mismatch"),
    (SUM, "x", "1 'a'", "type mismatch"),
    (MIN, "x", "3 1 NULL 2", "int 1"),
    (MAX, "x", "3 1 NULL 2", "int 3"),
    (MIN, "x", "2147483648 5 7", "int 5"),
    (MAX, "x", "5 2147483648 7", "bigint 2147483648"),
    (MIN, "x", "'b' 'a' 'ab'", "text a"),
    (MAX, "x", "'b' NULL 'ab'", "text b"),
    (MIN, "x", "TRUE FALSE", "type mismatch"),
    (MAX, "x", "TRUE", "type mismatch"),
    (MIN, "x", "1 'a'", "type mismatch"),
    (SUM, "1 / x", "1 -1", "bigint 0"),
    (SUM, "1 / x", "1 0 -1", "division by zero"),
    (SUM, "1 / x", "1 'a'", "type mismatch"),
    (COUNT, "y", "1", "no column y"),
    (COUNT, "y", "", "bigint 0"),
];

fn tells(rt: &impl Abort, so: bool, case: &Case) {
    assert!(rt; so, "{} of {} is {}", case.1, case.2, case.3);
}

#[test]
fn aggregates(rt: HostRuntime) {
    for case in &CASES {
        tells(&rt, at_last!(is_so(rt.alloc(), case)), case);
    }
}
