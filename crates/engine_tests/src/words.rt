//! Answers in a few words: titles, and each row behind a bar; or the fault, and the name that it tells. What is left of the words
//! behind one part of an answer is asked for the next; nothing is left where they say something else.

use iso_lexer::{Ident, Name};
use query_results::{ResultSet, Title};
use session_machine::{EngineFault, KeyName, Outcome, StmtFault};
use sql_values::{Row, Value, ValueFault};

pub fn behind<'w>(words: Option<&'w str>, part: &str) -> Option<&'w str> {
    words?.strip_prefix(part)
}

/// Whether the words were said to their end.
pub fn is_over(words: Option<&str>) -> bool {
    match words {
        Some(rest) => rest.is_empty(),
        None => false,
    }
}

fn first_word(words: &str) -> &str {
    match words.split_once(' ') {
        Some((word, _)) => word,
        None => words,
    }
}

pub fn behind_number<'w>(words: Option<&'w str>, number: i128) -> Option<&'w str> {
    let word = first_word(words?);
    match word.parse::<i128>() {
        Ok(found) => if found == number {
            behind(words, word)
        } else {
            None
        },
        Err(_) => None,
    }
}

fn behind_value<'w>(words: Option<&'w str>, value: &Value) -> Option<&'w str> {
    match value {
        Value::Null => behind(words, "null"),
        Value::Int(n) => behind_number(words, *n as i128),
        Value::Big(n) => behind_number(words, *n as i128),
        Value::Text(text) => behind(words, text.as_str()),
        Value::Bool(true) => behind(words, "true"),
        Value::Bool(false) => behind(words, "false"),
    }
}

pub fn behind_row<'w>(words: Option<&'w str>, row: &Row) -> Option<&'w str> {
    let mut rest = behind(words, " |");
    for value in row.values() {
        rest = behind_value(behind(rest, " "), value);
    }
    rest
}

pub fn behind_rows<'w>(words: Option<&'w str>, rows: &[Row]) -> Option<&'w str> {
    let mut rest = words;
    for row in rows {
        rest = behind_row(rest, row);
    }
    rest
}

fn name_text(name: Name<'static>) -> &'static str {
    match name {
        Name::Plain(text) => text,
        Name::Quoted(text) => text,
        Name::Folded(text) => text,
    }
}

fn title_text(title: &Title<'static>) -> &'static str {
    match title {
        Title::Column(name) => name_text(name.name()),
        Title::Unnamed => "?",
        Title::Count => "count",
        Title::Sum => "sum",
        Title::Min => "min",
        Title::Max => "max",
    }
}

fn behind_set<'w>(words: Option<&'w str>, set: &ResultSet<'static>) -> Option<&'w str> {
    let mut rest = words;
    for title in set.titles() {
        rest = behind(behind(rest, " "), title_text(title));
    }
    behind_rows(rest, set.rows())
}

pub fn behind_named<'w>(
    words: Option<&'w str>,
    what: &str,
    name: &Ident<'static>,
) -> Option<&'w str> {
    behind(behind(words, what), name_text(name.name()))
}

pub fn behind_value_fault<'w>(
    words: Option<&'w str>,
    fault: &ValueFault<'static>,
) -> Option<&'w str> {
    match fault {
        ValueFault::DivisionByZero => behind(words, " division by zero"),
        ValueFault::IntegerRange => behind(words, " integer out of range"),
        ValueFault::BigintRange => behind(words, " bigint out of range"),
        ValueFault::TypeMismatch => behind(words, " type mismatch"),
        ValueFault::NoColumn(name) => behind_named(words, " no column ", name),
        ValueFault::Memory => behind(words, " out of memory"),
    }
}

fn key_text(name: &KeyName) -> &str {
    match str::from_utf8(name.text()) {
        Ok(text) => text,
        Err(_) => "",
    }
}

fn behind_fault<'w>(words: Option<&'w str>, fault: &StmtFault<'static>) -> Option<&'w str> {
    match fault {
        StmtFault::Value(fault) => behind_value_fault(words, fault),
        StmtFault::NoColumnOf { column, .. } => {
            behind_named(words, " no column to assign ", column)
        }
        StmtFault::NoTable(name) => behind_named(words, " no table ", name),
        StmtFault::NoTableToDrop(name) => behind_named(words, " no table to drop ", name),
        StmtFault::TableExists(name) => behind_named(words, " there is ", name),
        StmtFault::NullValue { column, .. } => behind_named(words, " null in ", column),
        StmtFault::KeyTaken(name) => behind(behind(words, " taken "), key_text(name)),
        StmtFault::TooManyValues => behind(words, " too many values"),
        StmtFault::NoPosition(_) => behind(words, " no position"),
        StmtFault::NotSerializable => behind(words, " not serializable"),
        StmtFault::Deadlock => behind(words, " deadlock"),
        StmtFault::NotFree(table) => behind_named(words, " not free ", table),
        StmtFault::Aborted => behind(words, " aborted"),
        StmtFault::LevelTooLate => behind(words, " too late"),
    }
}

/// Each outcome's words begin with a blank; a launch and a statement without a result say nothing.
pub fn behind_outcome<'w>(words: Option<&'w str>, outcome: &Outcome<'static>) -> Option<&'w str> {
    match outcome {
        Outcome::Rows(set) => behind_set(words, set),
        Outcome::Failed(fault) => behind_fault(words, fault),
        Outcome::Waits => behind(words, " waits"),
        Outcome::Launched | Outcome::Done | Outcome::Left => words,
    }
}

pub fn refusal_text(fault: EngineFault) -> &'static str {
    match fault {
        EngineFault::Busy => "Busy",
        EngineFault::NotYourTurn => "NotYourTurn",
        EngineFault::StillBlocked => "StillBlocked",
        EngineFault::Idle => "Idle",
        EngineFault::Spent => "Spent",
        EngineFault::Memory => "Memory",
        EngineFault::NoSession => "NoSession",
        EngineFault::BlockNotAllowed => "BlockNotAllowed",
    }
}
