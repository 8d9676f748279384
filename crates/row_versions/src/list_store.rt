//! A store that keeps the log as one plain list.
ghost use Rattle.std.specs.Prelude.{◌≡◌, ◌↔◌, ◌<◌, ◌∷◌, ◌++◌, [], IfOk, IsTrue, Some, ◌+◌, filter, not, vec_len, vec_capacity};
ghost use Rattle.std.specs.List.{list_any};
ghost use Rattle.row_versions.specs.declared.write.Fate.TheVariants.{RolledBack};
ghost use Rattle.row_versions.specs.Log.{Content, empty_content, fate_of};
ghost use Rattle.row_versions.specs.Members.{same_tx};
ghost use Rattle.row_versions.specs.View.{sees};
ghost use Rattle.row_versions.specs.Inner.Searching.{replaces, shows, shows_at, rows_from, is_version, newest_from};

use crate::names::{RowId, TableId, TxId};
use crate::versions::Versions;
use crate::write::{Fate, Seen, View, Write};
use sql_values::Row;
use std::alloc::{AllocError, Global};
use std::marker::Model;

/// The plain store: a list of all writes, searched anew at each question, and how many transactions have committed.
pub struct ListStore {
    log: Vec<Write>,
    fates: Vec<Fate>,
    commits: u64,
    /// The transactions that are open.
    open_txs: Vec<TxId>,
}

/// Written out, so that a crate that drops one calls this, and needn't prove anew how each of its writes is dropped.
impl Drop for ListStore {
    fn drop(self) {
        let ListStore {
            log: _,
            fates: _,
            commits: _,
            open_txs: _,
        } = self;
    }
}

impl Model for ListStore {
    ghost use Rattle.std.specs.Prelude.{◌≡◌, count_by};
    ghost use Rattle.row_versions.specs.Log.{Content, is_commit, open_in};

    ghost Value = { Content };

    ghost view = { λ s. record { log = s.log.items; fates = s.fates.items } };

    ghost invariant = { λ s. (s.commits ≡ count_by is_commit s.fates.items) × (s.open_txs.items ≡ open_in s.fates.items) };
}

impl ListStore {
    /// An empty store. It takes no memory.
    pub fn new(alloc: Global) -> ListStore
        ensures { result ≡ empty_content }
    {
        ListStore {
            log: Vec::new(alloc),
            fates: Vec::new(alloc),
            commits: 0,
            open_txs: Vec::new(alloc),
        }
    }

    /// All writes in the order made.
    pub fn log(&self) -> &[Write]
        ensures { result.now ≡ self.now.log }
    {
        &self.log
    }

    /// Whether the transaction was rolled back.
    pub fn has_rolled_back(&self, tx: TxId) -> bool
        ensures { IsTrue result ↔ (fate_of self.now.fates tx ≡ Some RolledBack) }
    {
        matches!(self.fates.get(tx.0 as usize), Some(Fate::RolledBack))
    }

    /// Whether the view sees the write.
    pub fn sees(&self, view: &View, write: &Write) -> bool
        ensures { result ≡ sees self.now.fates view.now write.now }
    {
        is_seen(&self.fates, view, write)
    }
}

fn is_seen(fates: &[Fate], view: &View, write: &Write) -> bool
    ensures { result ≡ sees fates.now view.now write.now }
{
    let by_commit = match fates.get(write.tx.0 as usize) {
        Some(Fate::Committed(k)) => *k < view.commits,
        _ => false,
    };
    let own = match view.tx {
        Some(tx) => write.tx.0 == tx.0 && write.command < view.command,
        None => false,
    };
    by_commit || own
}

fn is_replaced(fates: &[Fate], view: &View, row: RowId, later: &[Write]) -> bool
    ensures { result ≡ list_any (replaces fates.now view.now row) later.now }
{
    later.iter().any(|write| write.row.0 == row.0 && is_seen(fates, view, write))
}

fn shows(fates: &[Fate], view: &View, table: TableId, write: &Write, later: &[Write]) -> bool
    ensures { result ≡ shows fates.now view.now table write.now later.now }
{
    write.table.0 == table.0
        && write.values.is_some()
        && is_seen(fates, view, write)
        && !is_replaced(fates, view, write.row, later)
}

fn shows_at(log: &[Write], fates: &[Fate], view: &View, table: TableId, place: usize) -> bool
    ensures { result ≡ shows_at fates.now view.now table log.now place }
{
    match log.get(place) {
        Some(write) => shows(fates, view, table, write, &log[place + 1..]),
        None => false,
    }
}

fn shown_rows(
    alloc: Global,
    log: &[Write],
    fates: &[Fate],
    view: &View,
    table: TableId,
) -> Result<Vec<Seen>, AllocError>
    ensures { IfOk result (λ rows. rows.items ≡ rows_from fates.now view.now table 0 log.now) }
{
    let mut rows = Vec::new(alloc);
    for place in 0..log.len() {
        let write = &log[place];
        if shows(fates, view, table, write, &log[place + 1..]) {
            rows.push(Seen {
                row: write.row,
                place: place as u64,
            })?;
        }
    }
    Ok(rows)
}

fn is_for(fates: &[Fate], row: RowId, tx: TxId, write: &Write) -> bool
    ensures { result ≡ is_version fates.now row tx write.now }
{
    let committed = matches!(fates.get(write.tx.0 as usize), Some(Fate::Committed(_)));
    write.row.0 == row.0 && (committed || write.tx.0 == tx.0)
}

fn newest_version(log: &[Write], fates: &[Fate], row: RowId, tx: TxId) -> Option<Seen>
    ensures { result ≡ newest_from fates.now row tx 0 log.now }
{
    let mut newest = None;
    for place in 0..log.len() {
        if is_for(fates, row, tx, &log[place]) {
            newest = Some(Seen {
                row,
                place: place as u64,
            });
        }
    }
    newest
}

/// The transaction joins the list, which has room.
fn join(txs: &mut Vec<TxId>, tx: TxId)
    requires { vec_len txs.old < vec_capacity txs.old }
    ensures { txs.new.items ≡ txs.old.items ++ tx ∷ [] }
{
    txs.push(tx).unwrap();
}

/// The transaction leaves the list.
fn leave(txs: &mut Vec<TxId>, tx: TxId)
    ensures { txs.new.items ≡ filter (λ other. not (same_tx other tx)) txs.old.items }
{
    txs.retain(|other| other.0 != tx.0);
}

impl Versions for ListStore {
    ghost content = { λ s. s };

    fn begin(&mut self) -> Result<TxId, AllocError> {
        let tx = TxId(self.fates.len() as u64);
        self.open_txs.reserve(1)?;
        self.fates.push(Fate::Open)?;
        join(&mut self.open_txs, tx);
        Ok(tx)
    }

    fn commit(&mut self, tx: TxId) {
        self.fates[tx.0 as usize] = Fate::Committed(self.commits);
        self.commits += 1;
        leave(&mut self.open_txs, tx);
    }

    fn roll_back(&mut self, tx: TxId) {
        self.fates[tx.0 as usize] = Fate::RolledBack;
        leave(&mut self.open_txs, tx);
    }

    fn write(
        &mut self,
        tx: TxId,
        command: u64,
        table: TableId,
        row: Option<RowId>,
        values: Option<Row>,
    ) -> Result<RowId, Option<Row>> {
        let made = row.unwrap_or(RowId(self.log.len() as u64));
        let write = Write {
            tx,
            command,
            table,
            row: made,
            values,
        };
        match self.log.push(write) {
            Ok(()) => Ok(made),
            Err(failed) => Err(failed.value.values),
        }
    }

    #[tactic(auto, using(crate::proofs::Filtered::rows_are))]
    fn rows(&self, view: &View, table: TableId) -> Result<Vec<Seen>, AllocError> {
        shown_rows(*self.log.allocator(), &self.log, &self.fates, view, table)
    }

    #[tactic(auto, using(crate::proofs::Filtered::is_row_where_shown))]
    fn shows(&self, view: &View, table: TableId, seen: &Seen) -> bool {
        shows_at(&self.log, &self.fates, view, table, seen.place as usize)
    }

    #[tactic(auto, using(crate::proofs::Last::newest_is))]
    fn newest(&self, row: RowId, tx: TxId) -> Option<Seen> {
        newest_version(&self.log, &self.fates, row, tx)
    }

    fn values(&self, seen: &Seen) -> Option<&Row> {
        self.log.get(seen.place as usize)?.values.as_ref()
    }

    fn has_committed(&self, tx: TxId) -> bool {
        matches!(self.fates.get(tx.0 as usize), Some(Fate::Committed(_)))
    }

    fn open_txs(&self) -> &[TxId] {
        &self.open_txs
    }

    fn committed(&self) -> u64 {
        self.commits
    }
}
