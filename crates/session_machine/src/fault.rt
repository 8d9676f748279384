//! Why an event is refused, and why a statement fails.

ghost use Rattle.std.specs.Prelude.{◌≡◌, ◌↔◌, IfOk, IsTrue, Some};
ghost use Rattle.session_machine.specs.declared.fault.EngineFault.TheVariants.{Memory};
ghost use Rattle.session_machine.specs.FaultText.{engine_fault_text};

use iso_lexer::Ident;
use sql_values::ValueFault;
use std::alloc::{AllocError, Global};
use std::error::Error;
use std::fmt;
use std::marker::Model;

/// Why the machine refuses an event.
#[derive(Clone, Copy, Debug, PartialEq, Eq)]
pub enum Refusal {
    Busy,
    NotYourTurn,
    StillBlocked,
    Idle,
    NoSession,
    BlockNotAllowed,
}

/// Why the engine refuses an event: as the machine does, or for want of memory.
#[derive(Clone, Copy, Debug, PartialEq, Eq)]
pub enum EngineFault {
    /// A block is in progress.
    Busy,
    /// In directed mode: a Launch or Leave when the engine isn't quiet, or a Step out of turn.
    NotYourTurn,
    /// The session waits, and what it waits for still stands in its way.
    StillBlocked,
    /// No block is in progress.
    Idle,
    /// Memory was refused in the middle of an event before.
    Spent,
    Memory,
    NoSession,
    /// No such block, or one that the session may not run.
    BlockNotAllowed,
}

/// Prints the number and the name.
impl fmt::Display for EngineFault {
    ghost output = { λ fault. Some (engine_fault_text fault) };

    fn fmt<W: fmt::Write>(&self, f: &mut fmt::Formatter<W>) -> fmt::Result {
        f.write_str(match self {
            EngineFault::Busy => "E1 Busy",
            EngineFault::NotYourTurn => "E2 NotYourTurn",
            EngineFault::StillBlocked => "E3 StillBlocked",
            EngineFault::Idle => "E4 Idle",
            EngineFault::Spent => "E5 Spent",
            EngineFault::Memory => "E6 Memory",
            EngineFault::NoSession => "E7 NoSession",
            EngineFault::BlockNotAllowed => "E8 BlockNotAllowed",
        })
    }
}

impl Error for EngineFault {}

impl From<AllocError> for EngineFault {
    ghost from_gives = { λ _ e. e ≡ Memory };

    fn from(_e: AllocError) -> EngineFault {
        EngineFault::Memory
    }
}

/// The name that a key is given: `t_pkey`, or `t_a_b_key` of the columns `a` and `b` of `t`. Contracts see its bytes.
#[derive(Drop)]
pub struct KeyName {
    text: Vec<u8>,
}

impl Model for KeyName {
    ghost use Rattle.std.specs.Prelude.{ℕ, List};

    ghost Value = { List ℕ };

    ghost view = { λ n. n.text.items };
}

impl KeyName {
    pub fn of(text: Vec<u8>) -> KeyName
        ensures { result ≡ text.items }
    {
        KeyName { text }
    }

    pub fn text(&self) -> &[u8]
        ensures { result.now ≡ self.now }
    {
        &self.text
    }

    /// The same name again.
    pub fn copied(&self, alloc: Global) -> Result<KeyName, AllocError>
        ensures { IfOk result (λ copy. copy ≡ self.now) }
    {
        let mut text = Vec::new(alloc);
        text.extend_from_slice(&self.text)?;
        Ok(KeyName { text })
    }

    pub fn same(&self, other: &KeyName) -> bool
        ensures { IsTrue result ↔ (self.now ≡ other.now) }
    {
        self.text() == other.text()
    }
}

/// Why a statement fails: one variant for each text that it fails with.
#[derive(Drop)]
pub enum StmtFault<'a> {
    /// An expression has no value, or names a column that isn't there.
    Value(ValueFault<'a>),
    /// A value is assigned to a column that the table lacks.
    NoColumnOf { column: Ident<'a>, table: Ident<'a> },
    NoTable(Ident<'a>),
    /// The same of DROP TABLE.
    NoTableToDrop(Ident<'a>),
    TableExists(Ident<'a>),
    NullValue { column: Ident<'a>, table: Ident<'a> },
    /// Another row of the table has the values of the key with this name.
    KeyTaken(KeyName),
    TooManyValues,
    /// ORDER BY names a position that isn't in the select list.
    NoPosition(i128),
    /// Others changed or deleted the row after the transaction's snapshot.
    NotSerializable,
    /// The wait would close a cycle.
    Deadlock,
    /// Others hold a row of the table, and nobody is waited for.
    NotFree(Ident<'a>),
    /// The transaction failed before.
    Aborted,
    /// The level changes after the transaction's first query.
    LevelTooLate,
}
