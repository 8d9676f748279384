//! What a store of versions does, whichever way it keeps them.
ghost use Rattle.std.specs.Prelude.{◌≡◌, IfOk, OnOk, OnErr, IfErr, unwrap_or};
ghost use Rattle.std.specs.Option.{option_copied};
ghost use Rattle.row_versions.specs.Log.{Content, commit_count, IsOpen, after_begin, after_commit, after_roll_back, after_write, has_committed, next_tx, new_row, open_in, values_at};
ghost use Rattle.row_versions.specs.Rows.{is_row, rows_of};
ghost use Rattle.row_versions.specs.Newest.{newest_of};

use crate::names::{RowId, TableId, TxId};
use crate::write::{Seen, View};
use sql_values::Row;
use std::alloc::AllocError;

/// A store of all writes and of the fates of their transactions. It keeps the allocator that it was made with.
pub trait Versions: Drop {
    /// All its writes and the fates of its transactions.
    ghost content: { Self → Content };

    /// Begins a transaction, and makes the room in which it will end.
    fn begin(&mut self) -> Result<TxId, AllocError>
        ensures next { IfOk result (λ tx. tx ≡ next_tx (content self.old)) }
        ensures ok { OnOk result (content self.new ≡ after_begin (content self.old)) }
        ensures err { OnErr result (content self.new ≡ content self.old) };

    /// Commits an open transaction. It takes no memory.
    fn commit(&mut self, tx: TxId)
        requires { IsOpen (content self.old) tx }
        ensures { content self.new ≡ after_commit (content self.old) tx };

    /// Rolls an open transaction back. It takes no memory.
    fn roll_back(&mut self, tx: TxId)
        requires { IsOpen (content self.old) tx }
        ensures { content self.new ≡ after_roll_back (content self.old) tx };

    /// Adds a write at the end of the log: of this row, or without one of a new row, which it answers. Without
    /// values it deletes the row. Where memory is refused it hands the values back, and nothing has changed.
    /// It is meant for an open transaction, a row of that table which no other open transaction wrote, and values
    /// where the row is new; what is promised here holds without that.
    fn write(
        &mut self,
        tx: TxId,
        command: u64,
        table: TableId,
        row: Option<RowId>,
        values: Option<Row>,
    ) -> Result<RowId, Option<Row>>
        ensures row { IfOk result (λ made. made ≡ unwrap_or row (new_row (content self.old))) }
        ensures ok { IfOk result (λ made. content self.new
            ≡ after_write (content self.old) (record { tx = tx; command = command; table = table; row = made; values = values })) }
        ensures err { OnErr result (content self.new ≡ content self.old) }
        ensures back { IfErr result (λ back. back ≡ values) };

    /// The rows of the table in the view, in the order in which their shown versions were written.
    fn rows(&self, view: &View, table: TableId) -> Result<Vec<Seen>, AllocError>
        ensures { IfOk result (λ rows. rows.items ≡ rows_of (content self.now) view.now table) };

    /// Whether the view shows the version as a row of the table. It takes no memory.
    fn shows(&self, view: &View, table: TableId, seen: &Seen) -> bool
        ensures { result ≡ is_row (content self.now) view.now table seen.now.place };

    /// The newest version of the row for the transaction: the last write of it that is committed or by `tx`,
    /// also one that deletes it. It takes no memory.
    fn newest(&self, row: RowId, tx: TxId) -> Option<Seen>
        ensures { result ≡ newest_of (content self.now) row tx };

    /// The values that the version gave its row, or `None` where it deleted the row. It takes no memory.
    fn values(&self, seen: &Seen) -> Option<&Row>
        ensures { option_copied result ≡ values_at (content self.now) seen.now.place };

    /// Whether the transaction has committed. It takes no memory.
    fn has_committed(&self, tx: TxId) -> bool
        ensures { result ≡ has_committed (content self.now) tx };

    /// The transactions that are open, in the order in which they began. It takes no memory.
    fn open_txs(&self) -> &[TxId]
        ensures { result.now ≡ open_in (content self.now).fates };

    /// How many transactions have committed, which is the number of the next commit. It takes no memory.
    fn committed(&self) -> u64
        ensures { result ≡ commit_count (content self.now) };
}
