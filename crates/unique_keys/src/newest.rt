//! The newest version of a row, as it was noted.
ghost use Rattle.std.specs.Prelude.{◌≡◌, ◌==◌, ◌&&◌, ◌||◌, None, Some};
ghost use Rattle.row_versions.specs.Log.{has_committed};
ghost use Rattle.unique_keys.specs.Inner.Finding.{committed_has, counts_by, is_version_by, last_of, newest_has, version_has};
ghost use Rattle.unique_keys.specs.Inner.Slots.{at, kept, passes};
ghost use Rattle.unique_keys.specs.Inner.WellKept.{WellKept};

use crate::noted::{Noted, version_has};
use crate::notes::Notes;
use row_versions::{RowId, TxId, Versions};
use sql_values::Value;

/// Whether the write counts: it is committed, or that transaction's own.
fn counts_by<V: Versions>(store: &V, own: Option<TxId>, note: &Noted) -> bool
    ensures { result ≡ counts_by (has_committed (V.content store.now)) own note.now }
{
    store.has_committed(note.tx)
        || match own {
            Some(tx) => note.tx.0 == tx.0,
            None => false,
        }
}

/// Whether the note at the place is a version of the row that counts.
fn is_version_at<V: Versions>(
    store: &V,
    notes: &Notes,
    place: usize,
    row: RowId,
    own: Option<TxId>,
) -> bool
    ensures { result ≡ passes (is_version_by (has_committed (V.content store.now)) own row) (at notes.now.slots.items place) }
{
    match notes.at(place) {
        Some(note) => note.row.0 == row.0 && counts_by(store, own, note),
        None => false,
    }
}

/// Whether the row's newest version that counts has the key.
fn last_has<V: Versions>(
    store: &V,
    notes: &Notes,
    columns: &[u32],
    asked: &[Value],
    row: RowId,
    own: Option<TxId>,
) -> bool
    requires { WellKept notes.now }
    ensures { result ≡ version_has columns.now asked.now (last_of (is_version_by (has_committed (V.content store.now)) own row) (kept notes.now.slots.items)) }
{
    let places = notes.by_row.at(row.0);
    for index in (0..places.len()).rev() {
        let place = places[index];
        if is_version_at(store, notes, place, row, own) {
            return version_has(columns, asked, notes.at(place));
        }
    }
    false
}

/// Whether the row's newest committed version has the key.
pub fn committed_has<V: Versions>(
    store: &V,
    notes: &Notes,
    columns: &[u32],
    asked: &[Value],
    row: RowId,
) -> bool
    requires { WellKept notes.now }
    ensures { result ≡ committed_has (has_committed (V.content store.now)) (kept notes.now.slots.items) columns.now asked.now row }
{
    last_has(store, notes, columns, asked, row, None)
}

/// Whether the row's newest version for the transaction has the key.
pub fn newest_has<V: Versions>(
    store: &V,
    notes: &Notes,
    columns: &[u32],
    asked: &[Value],
    row: RowId,
    tx: TxId,
) -> bool
    requires { WellKept notes.now }
    ensures { result ≡ newest_has (has_committed (V.content store.now)) (kept notes.now.slots.items) columns.now asked.now row tx }
{
    last_has(store, notes, columns, asked, row, Some(tx))
}
