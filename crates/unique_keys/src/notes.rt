//! The notes, and where each is found.
ghost use Rattle.std.specs.Prelude.{◌≡◌, ◌==◌, ◌<◌, ◌+◌, ◌∷◌, ◌++◌, [], List, length, not, ◌&&◌, ◌||◌, true, false, Some, None, set, OnOk, OnErr, IfSome, IfNone};
ghost use Rattle.std.specs.List.{list_any};
ghost use Rattle.std.specs.Option.{option_copied};
ghost use Rattle.places.specs.Noted.{has_place, noted};
ghost use Rattle.row_versions.specs.Members.{same_tx};
ghost use Rattle.unique_keys.specs.Writes.{notes_without};
ghost use Rattle.unique_keys.specs.Inner.Slots.{at, is_elsewhere, kept, passes, Listed};
ghost use Rattle.unique_keys.specs.Inner.WellKept.{AreAll, IsListed, Leads, WellKept};

use crate::codes::key_code;
use crate::known::{KnownKey, add_codes, is_known, strike_codes};
use crate::listing::{add, push_place, strike};
use crate::noted::Noted;
use places::Places;
use row_versions::{RowId, TableId, TxId};
use sql_values::Value;
use std::alloc::{AllocError, Global};

/// The notes in the order in which they were made, each in a slot. The slot of a note that was forgotten is empty.
#[derive(Drop)]
pub struct Notes {
    alloc: Global,
    pub slots: Vec<Option<Noted>>,
    /// Every row.
    all: Vec<usize>,
    /// From a code to rows among which are all that were given a known key of that code: each once.
    by_code: Places,
    /// From a row to the places of its notes.
    pub by_row: Places,
    /// From a transaction to the places of its notes.
    by_tx: Places,
    known: Vec<KnownKey>,
    /// Whether some row may have been noted in two tables. Then codes lead to nothing.
    mixed: bool,
}

/// Empties the slot at the place.
fn take(slots: &mut Vec<Option<Noted>>, place: usize) -> Option<Noted>
    ensures taken { result ≡ at slots.old.items place }
    ensures left { slots.new.items ≡ set slots.old.items place None }
{
    if place < slots.len() {
        slots[place].take()
    } else {
        None
    }
}

/// Whether the note in the slot, if there is one, is of the table.
fn is_of_table(slot: &Option<Noted>, table: TableId) -> bool
    ensures { result ≡ passes (λ w. w.table.0 == table.0) slot.now }
{
    match slot {
        Some(note) => note.table.0 == table.0,
        None => false,
    }
}

/// Whether a note is of the table.
fn has_table(slots: &[Option<Noted>], table: TableId) -> bool
    ensures { result ≡ list_any (passes (λ w. w.table.0 == table.0)) slots.now }
{
    slots.iter().any(|slot| is_of_table(slot, table))
}

/// Lists the row among all, if no place is listed for it.
fn list_row(all: &mut Vec<usize>, by_row: &Places, row: RowId) -> Result<(), AllocError>
    requires { AreAll by_row.now all.old.items }
    ensures rows { AreAll by_row.now all.new.items }
    ensures listed { OnOk result (has_place all.new.items row.0 ≡ true) }
{
    if by_row.at(row.0).is_empty() {
        push_place(all, row.0 as usize)?;
    }
    Ok(())
}

impl Notes {
    /// No note. It takes no memory.
    pub fn new(alloc: Global) -> Notes
        ensures none { result.slots.items ≡ [] }
        ensures well { WellKept result }
    {
        Notes {
            alloc,
            slots: Vec::new(alloc),
            all: Vec::new(alloc),
            by_code: Places::new(alloc),
            by_row: Places::new(alloc),
            by_tx: Places::new(alloc),
            known: Vec::new(alloc),
            mixed: false,
        }
    }

    pub fn alloc(&self) -> Global {
        self.alloc
    }

    /// The note at the place.
    pub fn at(&self, place: usize) -> Option<&Noted>
        ensures { option_copied result ≡ at self.now.slots.items place }
    {
        match self.slots.get(place) {
            Some(slot) => slot.as_ref(),
            None => None,
        }
    }

    fn is_of_row(&self, place: usize, row: RowId) -> bool
        ensures { result ≡ passes (λ w. w.row.0 == row.0) (at self.now.slots.items place) }
    {
        match self.at(place) {
            Some(note) => note.row.0 == row.0,
            None => false,
        }
    }

    fn is_of_table_at(&self, place: usize, table: TableId) -> bool
        ensures { result ≡ passes (λ w. w.table.0 == table.0) (at self.now.slots.items place) }
    {
        match self.at(place) {
            Some(note) => note.table.0 == table.0,
            None => false,
        }
    }

    /// Whether the row was noted in another table. Where none was so far, its last note is like all.
    fn is_elsewhere(&self, table: TableId, row: RowId) -> bool
        requires { WellKept self.now }
        ensures { result ≡ false → self.now.mixed ≡ false → list_any (is_elsewhere table row) (kept self.now.slots.items) ≡ false }
    {
        let places = self.by_row.at(row.0);
        for index in (0..places.len()).rev() {
            let place = places[index];
            if self.is_of_row(place, row) {
                return !self.is_of_table_at(place, table);
            }
        }
        false
    }

    /// Whether codes lead to nothing once this note is made.
    fn is_mixed_by(&self, note: &Noted) -> bool
        requires { WellKept self.now }
        ensures own { result ≡ false → self.now.mixed ≡ false }
        ensures row { result ≡ false → list_any (is_elsewhere note.now.table note.now.row) (kept self.now.slots.items) ≡ false }
    {
        self.mixed || self.is_elsewhere(note.table, note.row)
    }

    /// Lists the place behind the last one for a note that is about to be put there.
    fn list(&mut self, note: &Noted, place: usize) -> Result<(), AllocError>
        requires well { WellKept self.old }
        requires last { place ≡ length self.old.slots.items }
        ensures slots { self.new.slots ≡ self.old.slots }
        ensures well { WellKept self.new }
        ensures listed { OnOk result (IsListed self.new note.now place) }
    {
        self.mixed = self.is_mixed_by(note);
        list_row(&mut self.all, &self.by_row, note.row)?;
        add(&mut self.by_row, note.row.0, place)?;
        add(&mut self.by_tx, note.tx.0, place)?;
        add_codes(&mut self.by_code, &self.known, note)?;
        Ok(())
    }

    /// Makes the note the last one.
    pub fn push(&mut self, note: Noted) -> Result<(), AllocError>
        requires { WellKept self.old }
        ensures well { WellKept self.new }
        ensures ok { OnOk result (kept self.new.slots.items ≡ kept self.old.slots.items ++ note ∷ []) }
        ensures err { OnErr result (kept self.new.slots.items ≡ kept self.old.slots.items) }
    {
        let place = self.slots.len();
        self.list(&note, place)?;
        self.slots.push(Some(note))?;
        Ok(())
    }

    /// Empties the slot at the place, and strikes it where its note was listed by its row. If that leaves no note of the row, strikes the row where it was listed by the note's keys.
    fn empty(&mut self, place: usize)
        requires { WellKept self.old }
        ensures slots { self.new.slots.items ≡ set self.old.slots.items place None }
        ensures by_tx { self.new.by_tx ≡ self.old.by_tx }
        ensures well { WellKept self.new }
    {
        if let Some(note) = take(&mut self.slots, place) {
            strike(&mut self.by_row, note.row.0, place);
            if self.by_row.at(note.row.0).is_empty() {
                strike_codes(&mut self.by_code, &self.known, &note);
            }
        }
    }

    fn is_of_tx(&self, place: usize, tx: TxId) -> bool
        ensures { result ≡ passes (λ w. same_tx w.tx tx) (at self.now.slots.items place) }
    {
        match self.at(place) {
            Some(note) => note.tx.0 == tx.0,
            None => false,
        }
    }

    /// Empties the slot at the place, if its note is the transaction's.
    fn empty_own(&mut self, tx: TxId, place: usize)
        requires { WellKept self.old }
        ensures by_tx { self.new.by_tx ≡ self.old.by_tx }
        ensures well { WellKept self.new }
        ensures gone { passes (λ w. same_tx w.tx tx) (at self.new.slots.items place) ≡ false }
        ensures left { notes_without tx (kept self.new.slots.items) ≡ notes_without tx (kept self.old.slots.items) }
    {
        if !self.is_of_tx(place, tx) {
            return;
        }
        self.empty(place);
    }

    /// Forgets the transaction's note at the place, one of those that are listed for it.
    fn forget_at(&mut self, tx: TxId, place: usize)
        requires well { WellKept self.old }
        requires listed { has_place (noted self.old.by_tx tx.0) place ≡ true }
        ensures well { WellKept self.new }
        ensures left { notes_without tx (kept self.new.slots.items) ≡ notes_without tx (kept self.old.slots.items) }
        ensures fewer { length (noted self.new.by_tx tx.0) < length (noted self.old.by_tx tx.0) }
    {
        self.empty_own(tx, place);
        strike(&mut self.by_tx, tx.0, place);
    }

    /// The last of the places that are listed for the transaction.
    fn last_of(&self, tx: TxId) -> Option<usize>
        ensures some { IfSome result (λ place. has_place (noted self.now.by_tx tx.0) place ≡ true) }
        ensures none { IfNone result (noted self.now.by_tx tx.0 ≡ []) }
    {
        match self.by_tx.at(tx.0) {
            [.., place] => Some(*place),
            [] => None,
        }
    }

    /// Forgets the transaction's notes, the last one first.
    pub fn forget(&mut self, tx: TxId)
        requires { WellKept self.old }
        ensures well { WellKept self.new }
        ensures left { kept self.new.slots.items ≡ notes_without tx (kept self.old.slots.items) }
    {
        while let Some(place) = self.last_of(tx) {
            self.forget_at(tx, place);
        }
    }

    /// From now on the key's notes are found by its code, if no note is of its table yet.
    pub fn learn(&mut self, table: TableId, columns: &[u32]) -> Result<(), AllocError>
        requires { WellKept self.old }
        ensures slots { self.new.slots ≡ self.old.slots }
        ensures well { WellKept self.new }
    {
        if is_known(&self.known, table, columns) || has_table(&self.slots, table) {
            return Ok(());
        }
        let columns = Vec::from_slice(self.alloc, columns)?;
        self.known.push(KnownKey { table, columns })?;
        Ok(())
    }

    /// Places among which are those of all notes of the row by the transaction: the row's or the transaction's, whichever are fewer.
    pub fn written(&self, row: RowId, tx: TxId) -> &[usize]
        requires { WellKept self.now }
        ensures { Listed self.now.slots.items result.now (λ w. (w.row.0 == row.0) && same_tx w.tx tx) }
    {
        let of_row = self.by_row.at(row.0);
        let of_tx = self.by_tx.at(tx.0);
        if of_row.len() < of_tx.len() {
            of_row
        } else {
            of_tx
        }
    }

    /// Rows among which are all that may have the key: by its code where it is known, else every row.
    pub fn candidates(&self, table: TableId, columns: &[u32], asked: &[Value]) -> &[usize]
        requires { WellKept self.now }
        ensures { Leads self.now.slots.items result.now table columns.now asked.now }
    {
        if self.mixed || !is_known(&self.known, table, columns) {
            return self.all.as_slice();
        }
        match key_code(table, columns, asked) {
            Some(code) => self.by_code.at(code),
            None => &[],
        }
    }
}
