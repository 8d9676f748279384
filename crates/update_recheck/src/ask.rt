//! What is asked of one target row, and what comes of it.

use row_versions::{Seen, TxId, View};
use smallvec::SmallVec;
use sql_trees::{Expr, Level, Policy, Strength};
use sql_values::{Columns, ValueFault};

/// One target: the row that a statement would update, delete or lock, as its view shows it.
#[derive(Drop)]
pub struct Ask<'a, 't> {
    pub tx: TxId,
    pub level: Level,
    /// The statement's view, which shows the row at `seen`.
    pub view: View,
    pub seen: Seen,
    pub strength: Strength,
    /// What is done where others hold the row in conflict.
    pub policy: Policy,
    /// The statement's WHERE, if it has one.
    pub filter: Option<&'a Expr<'t>>,
    /// The columns of the row's table.
    pub cols: &'a Columns<'a>,
}

/// What comes of it.
#[derive(Drop)]
pub enum Settled<'t> {
    /// The row is locked, and used in this version.
    Take(Seen),
    /// The row is passed over.
    Skip,
    /// Others hold the row in conflict.
    Wait(SmallVec<TxId, 4>),
    /// They do, and a wait for them would close a cycle.
    Deadlock,
    /// They do, and nobody is waited for.
    NotFree,
    /// The row was changed or deleted after Repeatable Read's view.
    Serialize,
    /// WHERE has no value at the newest version.
    Fault(ValueFault<'t>),
}
