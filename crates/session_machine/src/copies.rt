//! Replies, and what is in them, again.

ghost use Rattle.std.specs.Prelude.{◌≡◌, IfOk};

use crate::fault::StmtFault;
use crate::reply::{HistItem, Outcome, Reply};
use query_results::ResultSet;
use sql_values::ValueFault;
use std::alloc::{AllocError, Global};

fn value_fault_again<'a>(fault: &ValueFault<'a>) -> ValueFault<'a>
    ensures { result ≡ fault.now }
{
    match fault {
        ValueFault::DivisionByZero => ValueFault::DivisionByZero,
        ValueFault::IntegerRange => ValueFault::IntegerRange,
        ValueFault::BigintRange => ValueFault::BigintRange,
        ValueFault::TypeMismatch => ValueFault::TypeMismatch,
        ValueFault::NoColumn(name) => ValueFault::NoColumn(name.again()),
        ValueFault::Memory => ValueFault::Memory,
    }
}

impl<'a> StmtFault<'a> {
    /// The same fault again.
    pub fn copied(&self, alloc: Global) -> Result<StmtFault<'a>, AllocError>
        ensures { IfOk result (λ copy. copy ≡ self.now) }
    {
        Ok(match self {
            StmtFault::Value(fault) => StmtFault::Value(value_fault_again(fault)),
            StmtFault::NoColumnOf { column, table } => StmtFault::NoColumnOf {
                column: column.again(),
                table: table.again(),
            },
            StmtFault::NoTable(table) => StmtFault::NoTable(table.again()),
            StmtFault::NoTableToDrop(table) => StmtFault::NoTableToDrop(table.again()),
            StmtFault::TableExists(table) => StmtFault::TableExists(table.again()),
            StmtFault::NullValue { column, table } => StmtFault::NullValue {
                column: column.again(),
                table: table.again(),
            },
            StmtFault::KeyTaken(name) => StmtFault::KeyTaken(name.copied(alloc)?),
            StmtFault::TooManyValues => StmtFault::TooManyValues,
            StmtFault::NoPosition(position) => StmtFault::NoPosition(*position),
            StmtFault::NotSerializable => StmtFault::NotSerializable,
            StmtFault::Deadlock => StmtFault::Deadlock,
            StmtFault::NotFree(table) => StmtFault::NotFree(table.again()),
            StmtFault::Aborted => StmtFault::Aborted,
            StmtFault::LevelTooLate => StmtFault::LevelTooLate,
        })
    }
}

impl<'a> Outcome<'a> {
    /// The same outcome again.
    pub fn copied(&self, alloc: Global) -> Result<Outcome<'a>, AllocError>
        ensures { IfOk result (λ copy. copy ≡ self.now) }
    {
        Ok(match self {
            Outcome::Launched => Outcome::Launched,
            Outcome::Done => Outcome::Done,
            Outcome::Rows(set) => Outcome::Rows(set.copied(alloc)?),
            Outcome::Waits => Outcome::Waits,
            Outcome::Failed(fault) => Outcome::Failed(fault.copied(alloc)?),
            Outcome::Left => Outcome::Left,
        })
    }
}

impl<'a> Reply<'a> {
    /// The same reply again.
    pub fn copied(&self, alloc: Global) -> Result<Reply<'a>, AllocError>
        ensures { IfOk result (λ copy. copy ≡ self.now) }
    {
        Ok(Reply {
            outcome: self.outcome.copied(alloc)?,
            ended: self.ended,
        })
    }
}

impl<'a> HistItem<'a> {
    /// The same item again.
    pub fn copied(&self, alloc: Global) -> Result<HistItem<'a>, AllocError>
        ensures { IfOk result (λ copy. copy ≡ self.now) }
    {
        Ok(HistItem {
            event: self.event,
            reply: self.reply.copied(alloc)?,
        })
    }
}
