//! Who stands in the way of a key.
ghost use Rattle.std.specs.Prelude.{◌≡◌, ◌==◌, ◌&&◌, true, IfOk, OnErr, filter};
ghost use Rattle.std.specs.List.{list_any};
ghost use Rattle.row_versions.specs.Log.{has_committed, open_in};
ghost use Rattle.row_versions.specs.Members.{same_tx};
ghost use Rattle.unique_keys.specs.Keys.{has_key};
ghost use Rattle.unique_keys.specs.Inner.Finding.{holds, holds_by_row, is_blocker, own_has, wrote};
ghost use Rattle.unique_keys.specs.Inner.Slots.{at, kept, passes};
ghost use Rattle.unique_keys.specs.Inner.WellKept.{Leads, WellKept};

use crate::newest::committed_has;
use crate::noted::has_key;
use crate::notes::Notes;
use row_versions::{RowId, TableId, TxId, Versions};
use smallvec::SmallVec;
use sql_values::Value;
use std::alloc::{AllocError, Global};

/// Whether the note at the place, if there is one, is of the row, the transaction and the table.
fn is_write_at(notes: &Notes, table: TableId, row: RowId, tx: TxId, place: usize) -> bool
    ensures { result ≡ passes (λ w. ((w.row.0 == row.0) && same_tx w.tx tx) && (w.table.0 == table.0)) (at notes.now.slots.items place) }
{
    match notes.at(place) {
        Some(note) => note.row.0 == row.0 && note.tx.0 == tx.0 && note.table.0 == table.0,
        None => false,
    }
}

/// Whether the transaction wrote the row in the table.
fn wrote(notes: &Notes, table: TableId, row: RowId, tx: TxId) -> bool
    requires { WellKept notes.now }
    ensures { result ≡ wrote (kept notes.now.slots.items) table row tx }
{
    let places = notes.written(row, tx);
    places
        .iter()
        .any(|place| is_write_at(notes, table, row, tx, *place))
}

fn own_has_at(
    notes: &Notes,
    columns: &[u32],
    asked: &[Value],
    row: RowId,
    tx: TxId,
    place: usize,
) -> bool
    ensures { result ≡ passes (λ v. ((v.row.0 == row.0) && same_tx v.tx tx) && has_key columns.now asked.now v.values) (at notes.now.slots.items place) }
{
    match notes.at(place) {
        Some(note) => note.row.0 == row.0 && note.tx.0 == tx.0 && has_key(columns, asked, note),
        None => false,
    }
}

/// Whether some version of the row by the transaction has the key.
fn own_has(notes: &Notes, columns: &[u32], asked: &[Value], row: RowId, tx: TxId) -> bool
    requires { WellKept notes.now }
    ensures { result ≡ own_has (kept notes.now.slots.items) columns.now asked.now row tx }
{
    let places = notes.written(row, tx);
    places
        .iter()
        .any(|place| own_has_at(notes, columns, asked, row, tx, *place))
}

/// Whether the transaction, while it is open, holds the key by what it wrote of the row.
fn holds_by_row<V: Versions>(
    store: &V,
    notes: &Notes,
    table: TableId,
    columns: &[u32],
    asked: &[Value],
    tx: TxId,
    row: RowId,
) -> bool
    requires { WellKept notes.now }
    ensures { result ≡ holds_by_row (has_committed (V.content store.now)) (kept notes.now.slots.items) table columns.now asked.now tx row }
{
    wrote(notes, table, row, tx)
        && (committed_has(store, notes, columns, asked, row)
            || own_has(notes, columns, asked, row, tx))
}

/// Whether the transaction, while it is open, holds the key. Only candidate rows are searched.
fn holds<V: Versions>(
    store: &V,
    notes: &Notes,
    table: TableId,
    columns: &[u32],
    asked: &[Value],
    candidates: &[usize],
    tx: TxId,
) -> bool
    requires well { WellKept notes.now }
    requires leads { Leads notes.now.slots.items candidates.now table columns.now asked.now }
    ensures { result ≡ holds (has_committed (V.content store.now)) (kept notes.now.slots.items) table columns.now asked.now tx }
{
    candidates.iter().any(|row| holds_by_row(
        store,
        notes,
        table,
        columns,
        asked,
        tx,
        RowId(*row as u64),
    ))
}

/// Whether the other transaction, while it is open, stands in the way of the one that asks.
fn is_blocker<V: Versions>(
    store: &V,
    notes: &Notes,
    table: TableId,
    columns: &[u32],
    asked: &[Value],
    candidates: &[usize],
    tx: TxId,
    other: TxId,
) -> bool
    requires well { WellKept notes.now }
    requires leads { Leads notes.now.slots.items candidates.now table columns.now asked.now }
    ensures { result ≡ is_blocker (has_committed (V.content store.now)) (kept notes.now.slots.items) table columns.now asked.now tx other }
{
    other.0 != tx.0 && holds(store, notes, table, columns, asked, candidates, other)
}

/// Whether anybody stands in the way.
pub fn is_blocked<V: Versions>(
    store: &V,
    notes: &Notes,
    table: TableId,
    columns: &[u32],
    asked: &[Value],
    tx: TxId,
) -> bool
    requires { WellKept notes.now }
    ensures { result ≡ list_any (is_blocker (has_committed (V.content store.now)) (kept notes.now.slots.items) table columns.now asked.now tx) (open_in (V.content store.now).fates) }
{
    let candidates = notes.candidates(table, columns, asked);
    let others = store.open_txs();
    for other in others {
        if is_blocker(store, notes, table, columns, asked, candidates, tx, *other) {
            return true;
        }
    }
    false
}

/// The transactions that stand in the way, in the order in which they began.
pub fn blockers<V: Versions>(
    alloc: Global,
    store: &V,
    notes: &Notes,
    table: TableId,
    columns: &[u32],
    asked: &[Value],
    tx: TxId,
) -> Result<SmallVec<TxId, 4>, AllocError>
    requires { WellKept notes.now }
    ensures ok { IfOk result (λ by. by.items ≡ filter (is_blocker (has_committed (V.content store.now)) (kept notes.now.slots.items) table columns.now asked.now tx) (open_in (V.content store.now).fates)) }
    ensures err { OnErr result (list_any (is_blocker (has_committed (V.content store.now)) (kept notes.now.slots.items) table columns.now asked.now tx) (open_in (V.content store.now).fates) ≡ true) }
{
    let candidates = notes.candidates(table, columns, asked);
    let mut by: SmallVec<TxId, 4> = SmallVec::new(alloc);
    let others = store.open_txs();
    for other in others {
        if is_blocker(store, notes, table, columns, asked, candidates, tx, *other) {
            by.push(*other)?;
        }
    }
    Ok(by)
}
