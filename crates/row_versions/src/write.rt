//! A write, what may become of its transaction, and what sees it.
use crate::names::{RowId, TableId, TxId};
use sql_values::Row;

/// One write: an INSERT's, an UPDATE's or, without values, a DELETE's of one row.
#[derive(Drop)]
pub struct Write {
    pub tx: TxId,
    /// The number of the statement in its transaction, from 0.
    pub command: u64,
    pub table: TableId,
    pub row: RowId,
    /// The row's values from here on, or `None` where the row is gone.
    pub values: Option<Row>,
}

/// What has become of a transaction.
#[derive(Clone, Copy)]
pub enum Fate {
    Open,
    RolledBack,
    /// It committed, after so many others.
    Committed(u64),
}

/// What a statement sees: the first `commits` commits, and what its own transaction `tx` wrote in commands
/// below `command`. Without `tx` it sees the first alone.
#[derive(Clone, Copy)]
pub struct View {
    pub tx: Option<TxId>,
    pub commits: u64,
    pub command: u64,
}

/// A version of a row: the write at `place` in the log.
#[derive(Clone, Copy)]
pub struct Seen {
    pub row: RowId,
    pub place: u64,
}
