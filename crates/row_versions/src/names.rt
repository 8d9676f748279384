//! Numbers of transactions, rows and tables.

/// A transaction: they are numbered from 0 in the order in which they began.
#[derive(Clone, Copy, Default, PartialEq, Eq)]
pub struct TxId(pub u64);

/// A row, named by the place in the log of its first write.
#[derive(Clone, Copy, Default, PartialEq, Eq)]
pub struct RowId(pub u64);

/// A table, by a number that the store's user gives.
#[derive(Clone, Copy, Default, PartialEq, Eq)]
pub struct TableId(pub u64);
