//! Which writes of the log belong together.
ghost use Rattle.std.specs.Prelude.{◌≡◌, ◌↔◌, ◌<◌, ℕ, ◌&&◌, not, true, false, length, All, IfSome, IsTrue, OnOk};
ghost use Rattle.std.specs.List.Sorted.{IsStrictlyIncreasing};
ghost use Rattle.places.specs.Noted.{has_place, noted};
ghost use Rattle.row_versions.specs.Log.{empty_content};
ghost use Rattle.chain_store.specs.Inner.Linked.{AreLinks, IsAdded, IsNoted, is_struck, rolled_back};

use places::Places;
use row_versions::{ListStore, RowId, TableId, TxId, Write};
use std::alloc::{AllocError, Global};

/// Places of writes in the log, all in the order of the log.
#[derive(Drop)]
pub struct Links {
    /// Of each row the writes that are not rolled back.
    pub rows: Places,
    /// Of each table the first writes of its rows, by which rows are named.
    pub tables: Places,
    /// Of each transaction its writes.
    pub own: Places,
}

impl Links {
    /// The links of an empty log. It takes no memory.
    pub fn new(alloc: Global) -> Links
        ensures { AreLinks empty_content result }
    {
        Links {
            rows: Places::new(alloc),
            tables: Places::new(alloc),
            own: Places::new(alloc),
        }
    }

    /// Notes a write that isn't rolled back, at the end of the log: of a new row, or of a row of the table.
    pub fn note(
        &mut self,
        place: usize,
        tx: TxId,
        table: TableId,
        row: RowId,
        is_new: bool,
    ) -> Result<(), AllocError>
        ensures { OnOk result (IsNoted self.old place tx table row is_new self.new) }
    {
        self.rows.add(row.0, place)?;
        self.own.add(tx.0, place)?;
        if is_new {
            self.tables.add(table.0, row.0 as usize)?;
        }
        Ok(())
    }

    /// Whether the links can note a write at the end of the log: its transaction isn't rolled back, and its row is new, or its newest version is of the table.
    pub fn can_note(&self, list: &ListStore, tx: TxId, table: TableId, row: Option<RowId>) -> bool
        requires { AreLinks list.now self.now }
        ensures stands { result ≡ true → rolled_back list.now.fates tx ≡ false }
        ensures named { result ≡ true → IfSome row (λ r. has_place (noted self.now.tables table.0) r.0 ≡ true) }
    {
        !list.has_rolled_back(tx) && row.is_none_or(|row| self.is_of(list, row, table))
    }

    /// Whether the newest version of the row is of the table.
    fn is_of(&self, list: &ListStore, row: RowId, table: TableId) -> bool
        requires { AreLinks list.now self.now }
        ensures { result ≡ true → has_place (noted self.now.tables table.0) row.0 ≡ true }
    {
        match self.rows.at(row.0).last() {
            Some(place) => list.log()[*place].table.0 == table.0,
            None => false,
        }
    }
}

/// Strikes the writes at the places from the chains of their rows. It takes no memory.
pub fn strike(rows: &mut Places, places: &[usize], log: &[Write])
    requires within { All (λ place. place < length log.now) places.now }
    requires rise { (row : ℕ) → IsStrictlyIncreasing (noted rows.old row) }
    ensures rise { (row : ℕ) → IsStrictlyIncreasing (noted rows.new row) }
    ensures left { (row place : ℕ) → has_place (noted rows.new row) place ≡ (has_place (noted rows.old row) place && not (is_struck log.now places.now row place)) }
{
    for index in (0..places.len()).rev() {
        let place = places[index];
        rows.remove(log[place].row.0, place);
    }
}
