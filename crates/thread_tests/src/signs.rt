//! Numbers for what happens, by which runs are compared.

use iso_lexer::{Ident, Name};
use query_results::Title;
use session_machine::{Event, HistItem, Outcome, Reply, StmtFault};
use sql_values::{Row, Value, ValueFault};

pub fn session_of(event: Event) -> u32 {
    match event {
        Event::Launch { session, .. } | Event::Step { session } | Event::Leave { session } => {
            session
        }
    }
}

fn event_sign(event: Event) -> u64 {
    match event {
        Event::Launch { block, .. } => u64::from(block) + 3,
        Event::Step { .. } => 1,
        Event::Leave { .. } => 2,
    }
}

/// The number of what stood before and of this.
fn with(before: u64, next: u64) -> u64 {
    before.wrapping_mul(1_000_003).wrapping_add(next)
}

fn with_text(before: u64, text: &[u8]) -> u64 {
    let mut sign = with(before, text.len() as u64);
    for byte in text {
        sign = with(sign, u64::from(*byte));
    }
    sign
}

fn with_number(before: u64, is_negative: bool, size: u64) -> u64 {
    with(with(before, u64::from(is_negative)), size)
}

fn with_value(before: u64, value: &Value) -> u64 {
    match value {
        Value::Null => with(before, 1),
        Value::Int(int) => with_number(with(before, 2), *int < 0, u64::from(int.unsigned_abs())),
        Value::Big(int) => with_number(with(before, 3), *int < 0, int.unsigned_abs()),
        Value::Text(text) => with_text(with(before, 4), text.as_str().as_bytes()),
        Value::Bool(is) => with(with(before, 5), u64::from(*is)),
    }
}

/// Each value of each row, in order.
fn with_rows(before: u64, rows: &[Row]) -> u64 {
    let mut sign = with(before, rows.len() as u64);
    for row in rows {
        for value in row.values() {
            sign = with_value(sign, value);
        }
    }
    sign
}

fn with_name(before: u64, name: &Ident<'_>) -> u64 {
    match name.name() {
        Name::Plain(text) => with_text(with(before, 1), text.as_bytes()),
        Name::Quoted(text) => with_text(with(before, 2), text.as_bytes()),
        Name::Folded(text) => with_text(with(before, 3), text.as_bytes()),
    }
}

fn with_title(before: u64, title: &Title<'_>) -> u64 {
    match title {
        Title::Column(name) => with_name(with(before, 1), name),
        Title::Unnamed => with(before, 2),
        Title::Count => with(before, 3),
        Title::Sum => with(before, 4),
        Title::Min => with(before, 5),
        Title::Max => with(before, 6),
    }
}

/// Each title, in order.
fn with_titles(before: u64, titles: &[Title<'_>]) -> u64 {
    let mut sign = with(before, titles.len() as u64);
    for title in titles {
        sign = with_title(sign, title);
    }
    sign
}

fn with_value_fault(before: u64, fault: &ValueFault<'_>) -> u64 {
    match fault {
        ValueFault::DivisionByZero => with(before, 1),
        ValueFault::IntegerRange => with(before, 2),
        ValueFault::BigintRange => with(before, 3),
        ValueFault::TypeMismatch => with(before, 4),
        ValueFault::NoColumn(name) => with_name(with(before, 5), name),
        ValueFault::Memory => with(before, 6),
    }
}

/// The names that a fault tells, and which of those that tell none it is.
fn with_fault(before: u64, fault: &StmtFault<'_>) -> u64 {
    match fault {
        StmtFault::Value(fault) => with_value_fault(with(before, 1), fault),
        StmtFault::NoColumnOf { column, table } => {
            with_name(with_name(with(before, 2), column), table)
        }
        StmtFault::NoTable(name) => with_name(with(before, 3), name),
        StmtFault::NoTableToDrop(name) => with_name(with(before, 4), name),
        StmtFault::TableExists(name) => with_name(with(before, 5), name),
        StmtFault::NullValue { column, table } => {
            with_name(with_name(with(before, 6), column), table)
        }
        StmtFault::KeyTaken(name) => with_text(with(before, 7), name.text()),
        StmtFault::TooManyValues => with(before, 8),
        StmtFault::NoPosition(_) => with(before, 9),
        StmtFault::NotSerializable => with(before, 10),
        StmtFault::Deadlock => with(before, 11),
        StmtFault::NotFree(table) => with_name(with(before, 12), table),
        StmtFault::Aborted => with(before, 13),
        StmtFault::LevelTooLate => with(before, 14),
    }
}

fn reply_sign(reply: &Reply<'_>) -> u64 {
    let outcome = match &reply.outcome {
        Outcome::Launched => 1,
        Outcome::Done => 2,
        Outcome::Waits => 3,
        Outcome::Failed(fault) => with_fault(4, fault),
        Outcome::Left => 5,
        Outcome::Rows(set) => with_rows(with_titles(6, set.titles()), set.rows()),
    };
    with(outcome, u64::from(reply.ended))
}

/// The number of what happened before and of this event with its reply.
pub fn sign_of(before: u64, event: Event, reply: &Reply<'_>) -> u64 {
    with(with(before, event_sign(event)), reply_sign(reply))
}

/// The number of these events with their replies.
pub fn sign_of_all(items: &[HistItem<'_>]) -> u64 {
    let mut sign = 0;
    for item in items {
        sign = sign_of(sign, item.event, &item.reply);
    }
    sign
}
