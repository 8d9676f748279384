//! Keys that the index knows, and the listing of rows by their codes: each row once for a code, however often it was written.
ghost use Rattle.std.specs.Prelude.{◌≡◌, ◌==◌, ◌&&◌, true, OnOk, nat_eq};
ghost use Rattle.std.specs.List.{list_all, list_any};
ghost use Rattle.places.specs.Noted.{has_place, noted};
ghost use Rattle.unique_keys.specs.Inner.Codes.{note_code};
ghost use Rattle.unique_keys.specs.Inner.Listing.{AreOnce, KeepsRows, Shrunk, is_coded, is_key};

use crate::codes::key_code;
use crate::listing::{add, strike};
use crate::noted::Noted;
use places::Places;
use row_versions::{RowId, TableId};
use std::alloc::AllocError;

/// A key of a table, by the places of its columns.
#[derive(Drop)]
pub struct KnownKey {
    pub table: TableId,
    pub columns: Vec<u32>,
}

fn is_key(table: TableId, columns: &[u32], key: &KnownKey) -> bool
    ensures { result ≡ is_key table columns.now key.now }
{
    key.table.0 == table.0 && key.columns.as_slice() == columns
}

/// Whether the key is among these.
pub fn is_known(known: &[KnownKey], table: TableId, columns: &[u32]) -> bool
    ensures { result ≡ list_any (is_key table columns.now) known.now }
{
    known.iter().any(|key| is_key(table, columns, key))
}

/// The code by which the note's row is listed for the key, if it has values, and none of the key's is NULL.
fn note_code(key: &KnownKey, note: &Noted) -> Option<u64>
    ensures { result ≡ note_code key.now note.now }
{
    match &note.values {
        Some(row) => key_code(key.table, &key.columns, row.values()),
        None => None,
    }
}

fn has_row(rows: &[usize], row: usize) -> bool
    ensures { result ≡ has_place rows.now row }
{
    rows.iter().any(|other| *other == row)
}

/// Lists the row for the code, unless it is listed for it.
fn add_row(by_code: &mut Places, code: u64, row: RowId) -> Result<(), AllocError>
    ensures kept { KeepsRows by_code.old by_code.new }
    ensures once { AreOnce by_code.old → AreOnce by_code.new }
    ensures listed { OnOk result (has_place (noted by_code.new code) row.0 ≡ true) }
{
    let row = row.0 as usize;
    if !has_row(by_code.at(code), row) {
        add(by_code, code, row)?;
    }
    Ok(())
}

/// Lists the note's row for the key.
fn add_code(by_code: &mut Places, key: &KnownKey, note: &Noted) -> Result<(), AllocError>
    ensures kept { KeepsRows by_code.old by_code.new }
    ensures once { AreOnce by_code.old → AreOnce by_code.new }
    ensures coded { OnOk result (is_coded note.now by_code.new key.now ≡ true) }
{
    if note.table.0 == key.table.0 {
        if let Some(code) = note_code(key, note) {
            return add_row(by_code, code, note.row);
        }
    }
    Ok(())
}

/// Lists the note's row for each of the keys.
pub fn add_codes(by_code: &mut Places, known: &[KnownKey], note: &Noted) -> Result<(), AllocError>
    ensures kept { KeepsRows by_code.old by_code.new }
    ensures once { AreOnce by_code.old → AreOnce by_code.new }
    ensures coded { OnOk result (list_all (is_coded note.now by_code.new) known.now ≡ true) }
{
    for key in known {
        add_code(by_code, key, note)?;
    }
    Ok(())
}

/// Strikes the note's row for the key.
fn strike_code(by_code: &mut Places, key: &KnownKey, note: &Noted)
    ensures { Shrunk note.now.row.0 by_code.old by_code.new }
{
    if note.table.0 == key.table.0 {
        if let Some(code) = note_code(key, note) {
            strike(by_code, code, note.row.0 as usize);
        }
    }
}

/// Strikes the note's row for each of the keys.
pub fn strike_codes(by_code: &mut Places, known: &[KnownKey], note: &Noted)
    ensures { Shrunk note.now.row.0 by_code.old by_code.new }
{
    for key in known {
        strike_code(by_code, key, note);
    }
}
