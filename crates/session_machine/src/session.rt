//! What a session is doing.

ghost use Rattle.std.specs.Prelude.{◌≡◌};
ghost use Rattle.session_machine.specs.Machine.{at_rest};

use crate::paused::Paused;
use row_versions::{RowId, TableId, TxId, View};
use sql_trees::{Level, Strength};
use sql_values::Row;
use std::marker::Model;

/// Where a session stands: at a statement of a block.
#[derive(Clone, Copy)]
pub struct Place {
    pub block: u32,
    pub next: usize,
}

/// An open transaction.
#[derive(Clone, Copy)]
pub struct OpenTransaction {
    pub tx: TxId,
    /// Begun by BEGIN; one that isn't ends with its block.
    pub explicit: bool,
    pub level: Level,
    /// How many transactions had committed at its first query.
    pub snapshot: Option<u64>,
    /// The number of its next query.
    pub command: u64,
}

/// A session's transaction.
#[derive(Clone, Copy)]
pub enum Transaction {
    Closed,
    Open(OpenTransaction),
    /// An explicit transaction in which a statement failed. It is undone, and waits for its COMMIT or ROLLBACK.
    Aborted,
}

/// A key of a table, by the places of its columns, and the row that is to have it.
#[derive(Drop)]
pub struct KeyAsked {
    pub table: TableId,
    pub columns: Vec<u32>,
    pub values: Row,
}

impl Model for KeyAsked {
    ghost use Rattle.session_machine.specs.AskedKeys.{AskedKey};

    ghost Value = { AskedKey };

    ghost view = { λ k. record { table = k.table; columns = k.columns.items; values = k.values } };
}

/// What a statement waits for.
#[derive(Drop)]
pub enum Request {
    /// A row, to be held this strongly.
    Row { row: RowId, strength: Strength },
    /// That nobody may yet come to have a key, or cease to.
    Key(KeyAsked),
}

/// A wait, with the number of the event in which it began and the request that it began with.
#[derive(Drop)]
pub struct Waiting {
    pub number: u64,
    pub request: Request,
}

/// Rows that a statement has answered so far, which contracts see as the list of them.
#[derive(Drop)]
pub struct Gathered {
    rows: Vec<Row>,
}

impl Model for Gathered {
    ghost use Rattle.std.specs.Prelude.{List};
    ghost use Rattle.sql_values.specs.declared.value.Value.{Value as SqlValue};

    ghost Value = { List (List SqlValue) };

    ghost view = { λ g. g.rows.items };
}

impl Gathered {
    pub fn of(rows: Vec<Row>) -> Gathered
        ensures { result ≡ rows.items }
    {
        Gathered { rows }
    }

    pub fn into_rows(self) -> Vec<Row>
        ensures { result.items ≡ self }
    {
        self.rows
    }
}

/// A statement in the middle of its targets: its table, its view, the place among its targets of the one that it is
/// at, what it has answered so far, and what it waits for there.
#[derive(Drop)]
pub struct Progress {
    pub table: TableId,
    pub view: View,
    pub place: usize,
    pub rows: Gathered,
    pub wait: Waiting,
}

/// A session.
#[derive(Drop)]
pub struct Session {
    /// Where it stands in its block, if it has one.
    pub place: Option<Place>,
    pub transaction: Transaction,
    /// The statement that it is in the middle of, which waits.
    pub statement: Option<Paused>,
}

impl Session {
    /// A session that was given no block yet.
    pub fn at_rest() -> Session
        ensures { result ≡ at_rest }
    {
        Session {
            place: None,
            transaction: Transaction::Closed,
            statement: None,
        }
    }
}
