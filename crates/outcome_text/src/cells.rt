//! What an outcome has in each of its parts: what a step answered, or the rows of a table. A part is told by its number: the steps in
//! the order of the file, and behind them the tables.

use crate::text::Text;
use outcome_counts::{RunOutcome, same_answers, same_table};
use session_machine::{Outcome, StmtFault};
use sql_values::{Row, Value};
use std::alloc::{AllocError, Global};

/// How a failure is told in a cell.
fn short_fault(fault: &StmtFault<'_>) -> &'static str {
    match fault {
        StmtFault::Deadlock => "ERROR deadlock\n",
        StmtFault::NotSerializable => "ERROR serialize\n",
        StmtFault::KeyTaken(_) => "ERROR key taken\n",
        StmtFault::NotFree(_) => "ERROR locked\n",
        StmtFault::Aborted => "ERROR aborted\n",
        _ => "ERROR\n",
    }
}

fn put_value(out: &mut Text, value: &Value) {
    match value {
        Value::Null => out.put("NULL"),
        Value::Int(number) => out.put_number(i64::from(*number)),
        Value::Big(number) => out.put_number(*number),
        Value::Text(text) => out.put(text.as_str()),
        Value::Bool(true) => out.put("t"),
        Value::Bool(false) => out.put("f"),
    }
}

/// Puts a row's values, with bars between.
fn put_row(out: &mut Text, row: &Row) {
    for (at, value) in row.values().iter().enumerate() {
        if at > 0 {
            out.put("|");
        }
        put_value(out, value);
    }
    out.put("\n");
}

fn put_rows(out: &mut Text, rows: &[Row]) {
    if rows.is_empty() {
        out.put("no rows\n");
    }
    for row in rows {
        put_row(out, row);
    }
}

/// Puts what a step answered; a statement that worked and has no result has no line.
fn put_answers(out: &mut Text, answers: &[Outcome<'_>]) {
    for answer in answers {
        match answer {
            Outcome::Rows(set) => put_rows(out, set.rows()),
            Outcome::Failed(fault) => out.put(short_fault(fault)),
            _ => {}
        }
    }
}

/// Puts what an outcome has in a part.
fn put_part(out: &mut Text, outcome: &RunOutcome<'_>, part: usize) {
    let table = part.saturating_sub(outcome.answers.len());
    if let Some(answers) = outcome.answers.get(part) {
        put_answers(out, answers);
    } else if let Some(Some(rows)) = outcome.tables.get(table) {
        put_rows(out, rows);
    } else {
        out.put("no table\n");
    }
}

/// What an outcome has in a part: a line a row, each with its newline.
pub fn cell_of(alloc: Global, outcome: &RunOutcome<'_>, part: usize) -> Result<String, AllocError> {
    let mut cell = Text::new(alloc, false);
    put_part(&mut cell, outcome, part);
    cell.end()
}

/// How many parts an outcome has.
pub fn parts_in(outcome: &RunOutcome<'_>) -> usize {
    outcome.answers.len().saturating_add(outcome.tables.len())
}

/// Whether both outcomes have the same in a part.
pub fn is_same(a: &RunOutcome<'_>, b: &RunOutcome<'_>, part: usize) -> bool {
    if let Some(answers) = a.answers.get(part) {
        return match b.answers.get(part) {
            Some(others) => same_answers(answers, others),
            None => true,
        };
    }
    let table = part.saturating_sub(a.answers.len());
    if let Some(rows) = a.tables.get(table) {
        return match b.tables.get(table) {
            Some(others) => same_table(rows, others),
            None => true,
        };
    }
    true
}
