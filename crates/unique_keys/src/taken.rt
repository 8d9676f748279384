//! Which row has a key.
ghost use Rattle.std.specs.Prelude.{◌≡◌};
ghost use Rattle.row_versions.specs.Log.{has_committed};
ghost use Rattle.unique_keys.specs.Inner.Finding.{counts_for, gives, is_another, row_noted, taker_among, takes_by_row};
ghost use Rattle.unique_keys.specs.Inner.Slots.{IsFirst, at, earlier, kept, passes};
ghost use Rattle.unique_keys.specs.Inner.WellKept.{WellKept};

use crate::newest::newest_has;
use crate::noted::{Noted, has_key};
use crate::notes::Notes;
use row_versions::{RowId, TableId, TxId, Versions};
use sql_values::Value;

/// Whether the write counts for the transaction: it is committed, or its own.
fn counts_for<V: Versions>(store: &V, tx: TxId, note: &Noted) -> bool
    ensures { result ≡ counts_for (has_committed (V.content store.now)) tx note.now }
{
    store.has_committed(note.tx) || note.tx.0 == tx.0
}

fn is_another(except: Option<RowId>, row: RowId) -> bool
    ensures { result ≡ is_another except row }
{
    match except {
        Some(except) => row.0 != except.0,
        None => true,
    }
}

/// Whether the note at the place, if there is one, counts, and gave the key to the row of the table.
fn gives_at<V: Versions>(
    store: &V,
    notes: &Notes,
    table: TableId,
    columns: &[u32],
    asked: &[Value],
    tx: TxId,
    row: RowId,
    place: usize,
) -> bool
    ensures { result ≡ passes (gives (has_committed (V.content store.now)) table tx asked.now columns.now row) (at notes.now.slots.items place) }
{
    match notes.at(place) {
        Some(note) => {
            note.row.0 == row.0
                && note.table.0 == table.0
                && counts_for(store, tx, note)
                && has_key(columns, asked, note)
        }
        None => false,
    }
}

/// Where the row of the table was first given the key, if it is another one than the row that is left aside, and has it still.
fn first_taking<V: Versions>(
    store: &V,
    notes: &Notes,
    table: TableId,
    columns: &[u32],
    asked: &[Value],
    tx: TxId,
    except: Option<RowId>,
    row: RowId,
) -> Option<usize>
    requires { WellKept notes.now }
    ensures { IsFirst (takes_by_row (has_committed (V.content store.now)) (kept notes.now.slots.items) table tx except asked.now columns.now row) notes.now.slots.items result }
{
    if !is_another(except, row) || !newest_has(store, notes, columns, asked, row, tx) {
        return None;
    }
    let places = notes.by_row.at(row.0);
    for place in places {
        if gives_at(store, notes, table, columns, asked, tx, row, *place) {
            return Some(*place);
        }
    }
    None
}

/// The smaller of two places, where there are two.
fn earlier(a: Option<usize>, b: Option<usize>) -> Option<usize>
    ensures { result ≡ earlier a b }
{
    match (a, b) {
        (Some(a), Some(b)) => Some(if b < a { b } else { a }),
        (Some(a), None) => Some(a),
        (None, b) => b,
    }
}

/// The row of the note at the place.
fn row_at(notes: &Notes, place: usize) -> Option<RowId>
    ensures { result ≡ row_noted (at notes.now.slots.items place) }
{
    match notes.at(place) {
        Some(note) => Some(note.row),
        None => None,
    }
}

/// The row of the table that has the key, the one that was first given it.
pub fn taker<V: Versions>(
    store: &V,
    notes: &Notes,
    table: TableId,
    columns: &[u32],
    asked: &[Value],
    tx: TxId,
    except: Option<RowId>,
) -> Option<RowId>
    requires { WellKept notes.now }
    ensures { result ≡ taker_among (has_committed (V.content store.now)) (kept notes.now.slots.items) table tx except asked.now columns.now }
{
    let candidates = notes.candidates(table, columns, asked);
    let mut first = None;
    for row in candidates {
        let row = RowId(*row as u64);
        let place = first_taking(store, notes, table, columns, asked, tx, except, row);
        first = earlier(first, place);
    }
    row_at(notes, first?)
}
