//! The index of unique keys.
ghost use Rattle.std.specs.Prelude.{◌≡◌, ◌≢◌, ◌<◌, ◌^◌, ℕ, List, [], ◌∷◌, ◌++◌, not, length, OnOk, OnErr, IfOk};
ghost use Rattle.std.specs.Option.{option_copied};
ghost use Rattle.row_versions.specs.Log.{Content, IsOpen};
ghost use Rattle.unique_keys.specs.Members.{EachOnce};
ghost use Rattle.row_versions.specs.Members.{is_none_of};
ghost use Rattle.unique_keys.specs.Keys.{columns_of_key};
ghost use Rattle.unique_keys.specs.Writes.{IsUpToDate, notes_without};
ghost use Rattle.unique_keys.specs.Checks.{FindsKeys, FreeBefore, KeyIsHeld, NamesBlockers, key_blockers, taken_by, found_by, found_of, key_found};

use crate::blocking::{blockers, is_blocked};
use crate::keys::{Check, TableKeys};
use crate::noted::Noted;
use crate::notes::Notes;
use crate::taken::taker;
use row_versions::{RowId, Seen, TableId, TxId, Versions};
use smallvec::SmallVec;
use sql_values::{Row, Value};
use std::alloc::{AllocError, Global};
use std::marker::Model;

/// What is noted of the writes of all transactions. Rows are found by the codes of the keys that the index was told of.
/// It keeps the allocator that it was made with.
#[derive(Drop)]
pub struct KeyIndex {
    notes: Notes,
}

impl Model for KeyIndex {
    ghost use Rattle.std.specs.Prelude.{List};
    ghost use Rattle.unique_keys.specs.declared.noted.Noted.{Noted};

    ghost Value = { List Noted };

    ghost use Rattle.unique_keys.specs.Inner.Slots.{kept};
    ghost use Rattle.unique_keys.specs.Inner.WellKept.{WellKept};

    ghost view = { λ s. kept s.notes.slots.items };

    ghost invariant = { λ s. WellKept s.notes };
}

/// What is found of one key.
#[derive(Drop)]
pub enum Found {
    Free,
    /// In this version.
    Taken(Seen),
    Held(SmallVec<TxId, 4>),
}

/// What is found of a key that nobody holds, and that this version has, if any.
fn found_in(version: Option<Seen>) -> Found
    ensures { found_of result ≡ found_by [] version }
{
    match version {
        Some(by) => Found::Taken(by),
        None => Found::Free,
    }
}

impl KeyIndex {
    /// Nothing is noted. It takes no memory.
    pub fn new(alloc: Global) -> KeyIndex
        ensures { result ≡ [] }
    {
        KeyIndex {
            notes: Notes::new(alloc),
        }
    }

    /// From now on rows are found by this key of the table, if no row of the table is noted yet. What is found stays the same.
    pub fn learn(&mut self, table: TableId, columns: &[u32]) -> Result<(), AllocError>
        ensures { self.new ≡ self.old }
    {
        self.notes.learn(table, columns)
    }

    fn learn_keys(&mut self, keys: &TableKeys) -> Result<(), AllocError>
        ensures { self.new ≡ self.old }
    {
        for columns in &keys.keys {
            self.learn(keys.table, columns)?;
        }
        Ok(())
    }

    /// A write of the transaction enters the index, and the room is made in which it leaves. Without values it deletes the row.
    pub fn note(
        &mut self,
        keys: &TableKeys,
        row: RowId,
        tx: TxId,
        values: Option<&Row>,
    ) -> Result<(), AllocError>
        ensures ok { OnOk result (self.new ≡ self.old ++ record { table = keys.now.table; row = row; tx = tx; values = option_copied values.entry } ∷ []) }
        ensures err { OnErr result (self.new ≡ self.old) }
    {
        self.learn_keys(keys)?;
        let alloc = self.notes.alloc();
        let values = match values {
            Some(values) => Some(values.copied(alloc)?),
            None => None,
        };
        self.enter(keys.table, row, tx, values)
    }

    /// As `note`, with values that the index keeps as they are.
    pub fn enter(
        &mut self,
        table: TableId,
        row: RowId,
        tx: TxId,
        values: Option<Row>,
    ) -> Result<(), AllocError>
        ensures ok { OnOk result (self.new ≡ self.old ++ record { table = table; row = row; tx = tx; values = values } ∷ []) }
        ensures err { OnErr result (self.new ≡ self.old) }
    {
        self.notes.push(Noted {
            table,
            row,
            tx,
            values,
        })
    }

    /// A transaction that was rolled back leaves the index, as if it had never written. It takes no memory.
    pub fn forget(&mut self, tx: TxId)
        ensures { self.new ≡ notes_without tx self.old }
    {
        self.notes.forget(tx);
    }

    /// Whether other open transactions hold a key of these columns. It doesn't say which, and takes no memory.
    pub fn is_held<V: Versions>(
        &self,
        store: &V,
        table: TableId,
        columns: &[u32],
        asked: &[Value],
        tx: TxId,
    ) -> bool
        ensures { IsUpToDate self.now (V.content store.now) → result ≡ not (is_none_of (key_blockers (V.content store.now) table tx asked.now columns.now)) }
    {
        is_blocked(store, &self.notes, table, columns, asked, tx)
    }

    /// The transactions that hold a key of these columns, each once.
    pub fn blockers<V: Versions>(
        &self,
        store: &V,
        table: TableId,
        columns: &[u32],
        asked: &[Value],
        tx: TxId,
    ) -> Result<SmallVec<TxId, 4>, AllocError>
        ensures by { IfOk result (λ by. IsUpToDate self.now (V.content store.now) → EachOnce (key_blockers (V.content store.now) table tx asked.now columns.now) by.items) }
        ensures memory { OnErr result (IsUpToDate self.now (V.content store.now) → key_blockers (V.content store.now) table tx asked.now columns.now ≢ []) }
    {
        let alloc = self.notes.alloc();
        blockers(alloc, store, &self.notes, table, columns, asked, tx)
    }

    /// What is found of one key, where the transaction is about to write these values in place of that row, or as a new one.
    /// It takes memory only where the key is held.
    pub fn find<V: Versions>(
        &self,
        store: &V,
        table: TableId,
        columns: &[u32],
        asked: &[Value],
        tx: TxId,
        except: Option<RowId>,
    ) -> Result<Found, AllocError>
        ensures found { IfOk result (λ f. IsUpToDate self.now (V.content store.now) → IsOpen (V.content store.now) tx
            → key_found (V.content store.now) table tx except asked.now columns.now ≡ found_of f) }
        ensures named { IfOk result (λ f. IsUpToDate self.now (V.content store.now) → NamesBlockers (key_blockers (V.content store.now) table tx asked.now columns.now) f) }
        ensures memory { OnErr result (IsUpToDate self.now (V.content store.now) → key_found (V.content store.now) table tx except asked.now columns.now ≡ KeyIsHeld) }
    {
        if self.is_held(store, table, columns, asked, tx) {
            let by = self.blockers(store, table, columns, asked, tx)?;
            return Ok(Found::Held(by));
        }
        match taker(store, &self.notes, table, columns, asked, tx, except) {
            Some(row) => Ok(found_in(store.newest(row, tx))),
            None => Ok(Found::Free),
        }
    }

    /// What is found of a row's keys, where the transaction is about to write these values in place of that row, or as a new one.
    /// The transaction is open: one that was rolled back still has its writes in the log, and none in the index.
    /// It takes memory only where the first key that isn't free is held.
    pub fn check<V: Versions>(
        &self,
        store: &V,
        keys: &TableKeys,
        values: &Row,
        tx: TxId,
        except: Option<RowId>,
    ) -> Result<Check, AllocError>
        requires { length keys.now.keys < 2 ^ 32 }
        ensures found { IfOk result (λ check. IsUpToDate self.now (V.content store.now) → IsOpen (V.content store.now) tx
            → FindsKeys (V.content store.now) keys.now values.now tx except check) }
        ensures memory { OnErr result (IsUpToDate self.now (V.content store.now) → IsOpen (V.content store.now) tx
            → (key : ℕ) × (key < length keys.now.keys)
            × FreeBefore (key_blockers (V.content store.now) keys.now.table tx values.now) (taken_by (V.content store.now) keys.now.table tx except values.now) keys.now key
            × (key_found (V.content store.now) keys.now.table tx except values.now (columns_of_key keys.now key) ≡ KeyIsHeld)) }
    {
        let all = keys.keys.as_slice();
        for key in 0..all.len() {
            let columns = columns_at(keys, key);
            match self.find(store, keys.table, columns, values.values(), tx, except)? {
                Found::Free => {}
                Found::Taken(by) => {
                    return Ok(Check::Taken {
                        key: key as u32,
                        by,
                    });
                }
                Found::Held(by) => {
                    return Ok(Check::Held {
                        key: key as u32,
                        by,
                    });
                }
            }
        }
        Ok(Check::Free)
    }

    /// The transactions that the key of that number waits for, each once: also for one that isn't open.
    pub fn holders<V: Versions>(
        &self,
        store: &V,
        keys: &TableKeys,
        key: u32,
        values: &Row,
        tx: TxId,
    ) -> Result<SmallVec<TxId, 4>, AllocError>
        ensures by { IfOk result (λ by. IsUpToDate self.now (V.content store.now)
            → EachOnce (key_blockers (V.content store.now) keys.now.table tx values.now (columns_of_key keys.now key)) by.items) }
        ensures memory { OnErr result (IsUpToDate self.now (V.content store.now)
            → key_blockers (V.content store.now) keys.now.table tx values.now (columns_of_key keys.now key) ≢ []) }
    {
        let columns = columns_at(keys, key as usize);
        self.blockers(store, keys.table, columns, values.values(), tx)
    }
}

/// The columns of the key of that number.
fn columns_at(keys: &TableKeys, key: usize) -> &[u32]
    ensures { result.now ≡ columns_of_key keys.now key }
{
    match keys.keys.get(key) {
        Some(columns) => columns.as_slice(),
        None => &[],
    }
}
