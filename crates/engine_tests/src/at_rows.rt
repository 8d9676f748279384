//! Tables of tests: each line is a statement, and what it answers or changes at the rows of one table.
ghost use Rattle.std.specs.Prelude.{◌≡◌, All, length};
ghost use Rattle.std.specs.Bool.{OnTrue};

use crate::trial::{at_last, block, holds};
use crate::words::{
    behind, behind_named, behind_number, behind_row, behind_rows, behind_value_fault, is_over,
};
use iso_lexer::Name;
use session_queries::{
    AssignedColumns, columns_assigned, columns_set, new_values, passing_places, result_of,
    row_values, taken_places, undefined_in_delete, undefined_in_select, undefined_in_update,
    updated_values, wrong_position,
};
use sql_parser::{Block, Role};
use sql_trees::{Column, Delete, Insert, Kind, Select, Stmt, Update};
use sql_values::{Row, ValueFault};
use std::alloc::{AllocError, Global};
use std::process::Abort;

/// A statement, and what it says.
pub type Said = (&'static str, &'static str);

/// `CREATE TABLE t (id int, a int, b text, c bool)`
const COLUMNS: [Column<'static>; 4] = [
    Column {
        name: Name::Plain("id"),
        kind: Kind::Int,
        not_null: false,
    },
    Column {
        name: Name::Plain("a"),
        kind: Kind::Int,
        not_null: false,
    },
    Column {
        name: Name::Plain("b"),
        kind: Kind::Text,
        not_null: false,
    },
    Column {
        name: Name::Plain("c"),
        kind: Kind::Bool,
        not_null: false,
    },
];

fn are_as_long(rows: &[&Row], long: usize) -> bool
    ensures { OnTrue result (All (λ row. length row.now ≡ long) rows.now) }
{
    rows.iter().all(|row| row.values().len() == long)
}

/// Rows, and the columns of their table.
#[derive(Clone, Copy)]
struct At<'r> {
    columns: &'r [Column<'static>],
    rows: &'r [&'r Row],
}

/// Whether a statement says something, or the fault that it has.
type Answer = Result<bool, ValueFault<'static>>;

/// Whether a SELECT that locks its rows says this: its items at the rows that it takes.
fn is_locked(alloc: Global, select: &Select<'static>, at: At<'_>, words: &str) -> Answer
    requires { All (λ row. length row.now ≡ length at.columns.now) at.rows.now }
{
    let mut rest = Some(words);
    let places = taken_places(alloc, select, at.columns, at.rows)?;
    for place in &places {
        let shown = row_values(alloc, &select.items, at.columns, at.rows[*place])?;
        rest = behind_row(rest, &shown);
    }
    Ok(is_over(rest))
}

fn is_shown(alloc: Global, select: &Select<'static>, at: At<'_>, words: &str) -> Answer
    requires { All (λ row. length row.now ≡ length at.columns.now) at.rows.now }
{
    let set = result_of(alloc, select, at.columns, at.rows)?;
    Ok(is_over(behind_rows(Some(words), set.rows())))
}

fn is_selected(alloc: Global, select: &Select<'static>, at: At<'_>, words: &str) -> Answer
    requires { All (λ row. length row.now ≡ length at.columns.now) at.rows.now }
{
    if let Some(name) = undefined_in_select(at.columns, select) {
        return Err(ValueFault::NoColumn(name));
    }
    if let Some(position) = wrong_position(at.columns, select) {
        let rest = behind(Some(words), " position ");
        return Ok(is_over(behind_number(rest, position)));
    }
    match select.lock {
        Some(_) => is_locked(alloc, select, at, words),
        None => is_shown(alloc, select, at, words),
    }
}

/// Whether an UPDATE of columns that are there makes these of its rows.
fn is_made(
    alloc: Global,
    update: &Update<'static>,
    to: &AssignedColumns,
    at: At<'_>,
    words: &str,
) -> Answer
    requires { All (λ row. length row.now ≡ length at.columns.now) at.rows.now }
{
    let mut rest = Some(words);
    let places = passing_places(alloc, &update.filter, at.columns, at.rows)?;
    for place in &places {
        let row = updated_values(alloc, at.columns, to, &update.sets, at.rows[*place])?;
        rest = behind_row(rest, &row);
    }
    Ok(is_over(rest))
}

fn is_updated(alloc: Global, update: &Update<'static>, at: At<'_>, words: &str) -> Answer
    requires { All (λ row. length row.now ≡ length at.columns.now) at.rows.now }
{
    match columns_set(alloc, at.columns, &update.sets)? {
        Ok(to) => match undefined_in_update(at.columns, update) {
            Some(name) => Err(ValueFault::NoColumn(name)),
            None => is_made(alloc, update, &to, at, words),
        },
        Err(name) => {
            let rest = behind_named(Some(words), " no column to assign ", &name);
            Ok(is_over(rest))
        }
    }
}

/// Whether these are the places of the rows that a DELETE takes.
fn is_deleted(alloc: Global, delete: &Delete<'static>, at: At<'_>, words: &str) -> Answer
    requires { All (λ row. length row.now ≡ length at.columns.now) at.rows.now }
{
    if let Some(name) = undefined_in_delete(at.columns, delete) {
        return Err(ValueFault::NoColumn(name));
    }
    let mut rest = Some(words);
    for place in &passing_places(alloc, &delete.filter, at.columns, at.rows)? {
        rest = behind_number(behind(rest, " "), *place as i128);
    }
    Ok(is_over(rest))
}

fn is_answered(alloc: Global, stmt: &Stmt<'static>, at: At<'_>, words: &str) -> Answer
    requires { All (λ row. length row.now ≡ length at.columns.now) at.rows.now }
{
    match stmt {
        Stmt::Select(select) => is_selected(alloc, select, at, words),
        Stmt::Update(update) => is_updated(alloc, update, at, words),
        Stmt::Delete(delete) => is_deleted(alloc, delete, at, words),
        _ => Ok(false),
    }
}

fn is_fault(fault: ValueFault<'static>, words: &str) -> bool {
    is_over(behind_value_fault(Some(words), &fault))
}

/// Whether the one statement of the block says this of the rows.
fn is_said_by(
    alloc: Global,
    block: &Block<'static>,
    at: At<'_>,
    words: &str,
) -> Result<bool, AllocError>
    requires { All (λ row. length row.now ≡ length at.columns.now) at.rows.now }
{
    let [stmt] = block.stmts() else {
        return Ok(false);
    };
    match is_answered(alloc, stmt, at, words) {
        Ok(so) => Ok(so),
        Err(ValueFault::Memory) => Err(AllocError),
        Err(fault) => Ok(is_fault(fault, words)),
    }
}

fn is_said(alloc: Global, at: At<'_>, line: &Said) -> Result<bool, AllocError> {
    let block = block(alloc, line.0, Role::Main)?;
    if are_as_long(at.rows, at.columns.len()) {
        is_said_by(alloc, &block, at, line.1)
    } else {
        Ok(false)
    }
}

fn lent<'r>(alloc: Global, rows: &'r [Row]) -> Result<Vec<&'r Row>, AllocError> {
    let mut lent = Vec::new(alloc);
    for row in rows {
        lent.push(row)?;
    }
    Ok(lent)
}

/// Each line says what it has, at these rows.
pub fn all_said(
    rt: &impl Abort,
    alloc: Global,
    columns: &[Column<'static>],
    rows: &[Row],
    lines: &[Said],
) -> Result<(), AllocError> {
    let rows = lent(alloc, rows)?;
    let at = At {
        columns,
        rows: &rows,
    };
    for line in lines {
        holds(rt, is_said(alloc, at, line)?, line.0);
    }
    Ok(())
}

/// The rows that an INSERT makes.
fn made_by(
    alloc: Global,
    insert: &Insert<'static>,
    to: &AssignedColumns,
) -> Result<Vec<Row>, ValueFault<'static>> {
    let mut rows = Vec::new(alloc);
    for row in &insert.rows {
        rows.push(new_values(alloc, COLUMNS.len(), to, row)?)?;
    }
    Ok(rows)
}

fn inserted(alloc: Global, insert: &Insert<'static>) -> Result<Vec<Row>, AllocError> {
    let Ok(to) = columns_assigned(alloc, &COLUMNS, insert.columns.as_ref())? else {
        return Err(AllocError);
    };
    match made_by(alloc, insert, &to) {
        Ok(rows) => Ok(rows),
        Err(_) => Err(AllocError),
    }
}

fn rows_of(alloc: Global, insert: &'static str) -> Result<Vec<Row>, AllocError> {
    let block = block(alloc, insert, Role::Main)?;
    let [stmt] = block.stmts() else {
        return Err(AllocError);
    };
    match stmt {
        Stmt::Insert(insert) => inserted(alloc, insert),
        _ => Err(AllocError),
    }
}

fn check_once(
    rt: &impl Abort,
    alloc: Global,
    insert: &'static str,
    lines: &[Said],
) -> Result<(), AllocError> {
    let rows = rows_of(alloc, insert)?;
    all_said(rt, alloc, &COLUMNS, &rows, lines)
}

/// Each line says what it has, at the rows of the INSERT; where memory was refused they are asked once more.
pub fn check(rt: &impl Abort, alloc: Global, insert: &'static str, lines: &[Said]) {
    at_last!(rt, check_once(rt, alloc, insert, lines));
}
