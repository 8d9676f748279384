//! A store that links the versions of each row.
ghost use Rattle.std.specs.Prelude.{◌≡◌, IfOk, false};
ghost use Rattle.std.specs.Option.{IfSome, MatchOption};
ghost use Rattle.row_versions.specs.declared.write.Seen.{Seen};
ghost use Rattle.row_versions.specs.Laws.{IsShown};
ghost use Rattle.row_versions.specs.Log.{empty_content};
ghost use Rattle.row_versions.specs.Newest.{newest_of};
ghost use Rattle.row_versions.specs.Rows.{is_row};
ghost use Rattle.chain_store.specs.Inner.Linked.{AreLinks, HasTheShown, Stands, rolled_back};

use crate::links::{Links, strike};
use crate::walk::{Asker, last_of};
use row_versions::{ListStore, RowId, Seen, TableId, TxId, Versions, View};
use sql_values::Row;
use std::alloc::{AllocError, Global};
use std::marker::Model;

/// All writes in the order made, and beside them which belong to one row, one table and one transaction.
pub struct ChainStore {
    alloc: Global,
    list: ListStore,
    links: Links,
    /// The links are not kept any more, and the list is searched: since a write outside of what is meant, or where their memory was refused.
    plain: bool,
}

/// Written out, so that a crate that drops one calls this, and needn't prove anew how each of its lists is dropped.
impl Drop for ChainStore {
    fn drop(self) {
        let ChainStore {
            alloc: _,
            list: _,
            links: _,
            plain: _,
        } = self;
    }
}

impl Model for ChainStore {
    ghost use Rattle.std.specs.Prelude.{◌≡◌, false};
    ghost use Rattle.row_versions.specs.Log.{Content};
    ghost use Rattle.chain_store.specs.Inner.Linked.{AreLinks};

    ghost Value = { Content };

    ghost view = { λ s. s.list };

    ghost invariant = { λ s. s.plain ≡ false → AreLinks s.list s.links };
}

impl ChainStore {
    /// An empty store. It takes no memory.
    pub fn new(alloc: Global) -> ChainStore
        ensures { result ≡ empty_content }
    {
        ChainStore {
            alloc,
            list: ListStore::new(alloc),
            links: Links::new(alloc),
            plain: false,
        }
    }
}

/// The version of the row that the view shows in the table.
fn shown_of(list: &ListStore, links: &Links, view: &View, table: TableId, row: u64) -> Option<Seen>
    requires linked { AreLinks list.now links.now }
    requires stands { Stands list.now view.now }
    ensures { MatchOption result ((seen : Seen) → seen.row.0 ≡ row → IsShown list.now view.now table seen → ⊥)
        (λ seen. (seen.row.0 ≡ row) × IsShown list.now view.now table seen) }
{
    let place = last_of(list, &Asker::ByView(*view), links.rows.at(row))?;
    let write = &list.log()[place];
    if write.table.0 != table.0 || write.values.is_none() {
        return None;
    }
    Some(Seen {
        row: RowId(row),
        place: place as u64,
    })
}

/// Whether the view shows the version at the place as a row of the table.
fn is_shown(list: &ListStore, links: &Links, view: &View, table: TableId, place: u64) -> bool
    requires linked { AreLinks list.now links.now }
    requires stands { Stands list.now view.now }
    ensures { result ≡ is_row list.now view.now table place }
{
    let Some(write) = list.log().get(place as usize) else {
        return false;
    };
    match shown_of(list, links, view, table, write.row.0) {
        Some(seen) => seen.place == place,
        None => false,
    }
}

/// The versions that the view shows in the table, in the order of their rows.
fn shown_rows(
    alloc: Global,
    list: &ListStore,
    links: &Links,
    view: &View,
    table: TableId,
) -> Result<Vec<Seen>, AllocError>
    requires linked { AreLinks list.now links.now }
    requires stands { Stands list.now view.now }
    ensures { IfOk result (λ rows. HasTheShown list.now view.now table rows.items) }
{
    let mut shown = Vec::new(alloc);
    let numbers = links.tables.at(table.0);
    for number in numbers {
        if let Some(seen) = shown_of(list, links, view, table, *number as u64) {
            shown.push(seen)?;
        }
    }
    Ok(shown)
}

/// The newest version of the row for the transaction.
fn newest_in(list: &ListStore, links: &Links, row: RowId, tx: TxId) -> Option<Seen>
    requires linked { AreLinks list.now links.now }
    requires stands { rolled_back list.now.fates tx ≡ false }
    ensures { result ≡ newest_of list.now row tx }
{
    let place = last_of(list, &Asker::ByTx(tx), links.rows.at(row.0))?;
    Some(Seen {
        row,
        place: place as u64,
    })
}

/// Whether the view is one of a transaction that was rolled back, whose own writes it sees.
fn is_rolled_back(list: &ListStore, view: &View) -> bool
    ensures { result ≡ false → Stands list.now view.now }
{
    match view.tx {
        Some(tx) => list.has_rolled_back(tx),
        None => false,
    }
}

impl Versions for ChainStore {
    ghost content = { λ s. s };

    fn begin(&mut self) -> Result<TxId, AllocError> {
        self.list.begin()
    }

    fn commit(&mut self, tx: TxId) {
        self.list.commit(tx);
    }

    fn roll_back(&mut self, tx: TxId) {
        if !self.plain {
            strike(
                &mut self.links.rows,
                self.links.own.at(tx.0),
                self.list.log(),
            );
        }
        self.list.roll_back(tx);
    }

    fn write(
        &mut self,
        tx: TxId,
        command: u64,
        table: TableId,
        row: Option<RowId>,
        values: Option<Row>,
    ) -> Result<RowId, Option<Row>> {
        let place = self.list.log().len();
        let is_linked = !self.plain && self.links.can_note(&self.list, tx, table, row);
        let made = self.list.write(tx, command, table, row, values)?;
        let is_noted = is_linked
            && self
                .links
                .note(place, tx, table, made, row.is_none())
                .is_ok();
        self.plain = !is_noted;
        Ok(made)
    }

    fn rows(&self, view: &View, table: TableId) -> Result<Vec<Seen>, AllocError> {
        if self.plain || is_rolled_back(&self.list, view) {
            return self.list.rows(view, table);
        }
        let mut rows = shown_rows(self.alloc, &self.list, &self.links, view, table)?;
        rows.sort_unstable_by_key(|seen| seen.place);
        Ok(rows)
    }

    fn shows(&self, view: &View, table: TableId, seen: &Seen) -> bool {
        if !self.plain && !is_rolled_back(&self.list, view) {
            return is_shown(&self.list, &self.links, view, table, seen.place);
        }
        self.list.shows(view, table, seen)
    }

    fn newest(&self, row: RowId, tx: TxId) -> Option<Seen> {
        if self.plain || self.list.has_rolled_back(tx) {
            return self.list.newest(row, tx);
        }
        newest_in(&self.list, &self.links, row, tx)
    }

    fn values(&self, seen: &Seen) -> Option<&Row> {
        self.list.values(seen)
    }

    fn has_committed(&self, tx: TxId) -> bool {
        self.list.has_committed(tx)
    }

    fn open_txs(&self) -> &[TxId] {
        self.list.open_txs()
    }

    fn committed(&self) -> u64 {
        self.list.committed()
    }
}
