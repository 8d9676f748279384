//! Whether two replies are the same: names by the bytes that they stand for.

ghost use Rattle.std.specs.Prelude.{◌≡◌, ◌↔◌, IsTrue};

use crate::fault::StmtFault;
use crate::reply::{Outcome, Reply};
use sql_values::ValueFault;

fn same_value_faults(a: &ValueFault<'_>, b: &ValueFault<'_>) -> bool
    ensures { IsTrue result ↔ (a.now ≡ b.now) }
{
    match (a, b) {
        (ValueFault::DivisionByZero, ValueFault::DivisionByZero) => true,
        (ValueFault::IntegerRange, ValueFault::IntegerRange) => true,
        (ValueFault::BigintRange, ValueFault::BigintRange) => true,
        (ValueFault::TypeMismatch, ValueFault::TypeMismatch) => true,
        (ValueFault::NoColumn(x), ValueFault::NoColumn(y)) => x.same(y),
        (ValueFault::Memory, ValueFault::Memory) => true,
        _ => false,
    }
}

impl<'a> StmtFault<'a> {
    pub fn same(&self, other: &StmtFault<'_>) -> bool
        ensures { IsTrue result ↔ (self.now ≡ other.now) }
    {
        match (self, other) {
            (StmtFault::Value(x), StmtFault::Value(y)) => same_value_faults(x, y),
            (
                StmtFault::NoColumnOf {
                    column: x,
                    table: s,
                },
                StmtFault::NoColumnOf {
                    column: y,
                    table: t,
                },
            ) => x.same(y) && s.same(t),
            (StmtFault::NoTable(x), StmtFault::NoTable(y)) => x.same(y),
            (StmtFault::NoTableToDrop(x), StmtFault::NoTableToDrop(y)) => x.same(y),
            (StmtFault::TableExists(x), StmtFault::TableExists(y)) => x.same(y),
            (
                StmtFault::NullValue {
                    column: x,
                    table: s,
                },
                StmtFault::NullValue {
                    column: y,
                    table: t,
                },
            ) => x.same(y) && s.same(t),
            (StmtFault::KeyTaken(x), StmtFault::KeyTaken(y)) => x.same(y),
            (StmtFault::TooManyValues, StmtFault::TooManyValues) => true,
            (StmtFault::NoPosition(x), StmtFault::NoPosition(y)) => x == y,
            (StmtFault::NotSerializable, StmtFault::NotSerializable) => true,
            (StmtFault::Deadlock, StmtFault::Deadlock) => true,
            (StmtFault::NotFree(x), StmtFault::NotFree(y)) => x.same(y),
            (StmtFault::Aborted, StmtFault::Aborted) => true,
            (StmtFault::LevelTooLate, StmtFault::LevelTooLate) => true,
            _ => false,
        }
    }
}

impl<'a> Outcome<'a> {
    pub fn same(&self, other: &Outcome<'_>) -> bool
        ensures { IsTrue result ↔ (self.now ≡ other.now) }
    {
        match (self, other) {
            (Outcome::Launched, Outcome::Launched) => true,
            (Outcome::Done, Outcome::Done) => true,
            (Outcome::Rows(x), Outcome::Rows(y)) => x.same(y),
            (Outcome::Waits, Outcome::Waits) => true,
            (Outcome::Failed(x), Outcome::Failed(y)) => x.same(y),
            (Outcome::Left, Outcome::Left) => true,
            _ => false,
        }
    }
}

impl<'a> Reply<'a> {
    pub fn same(&self, other: &Reply<'_>) -> bool
        ensures { IsTrue result ↔ (self.now ≡ other.now) }
    {
        self.ended == other.ended && self.outcome.same(&other.outcome)
    }
}
