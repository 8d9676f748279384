//! The locks that are held.
ghost use Rattle.std.specs.Prelude.{◌≡◌, List, [], ◌∷◌, ◌++◌, false, not, ◌&&◌, OnOk, OnErr, IfOk};
ghost use Rattle.row_versions.specs.Members.{has, is_distinct, is_none_of};
ghost use Rattle.ordered_slots.specs.Kept.{kept, value_in};
ghost use Rattle.row_locks.specs.declared.held.Held.{Held};
ghost use Rattle.row_locks.specs.Held.{holders_against, with_lock, released, IsTaken, IsReleased};
ghost use Rattle.row_locks.specs.Inner.Noting.{blocker_in, is_holder_in};
ghost use Rattle.row_locks.specs.Inner.Searching.{is_against};

use crate::held::{Held, is_against};
use crate::lock_places::LockPlaces;
use crate::members::has;
use ordered_slots::OrderedSlots;
use row_versions::{RowId, TxId};
use smallvec::SmallVec;
use sql_trees::Strength;
use std::alloc::{AllocError, Global};
use std::marker::Model;

/// The locks that are held, in the order in which they were taken. Each row's and each transaction's are found without a look at the others.
#[derive(Drop)]
pub struct LockTable {
    alloc: Global,
    locks: OrderedSlots<Held>,
    places: LockPlaces,
}

impl Model for LockTable {
    ghost use Rattle.std.specs.Prelude.{List};
    ghost use Rattle.ordered_slots.specs.Kept.{has_no_slot_twice, kept, values};
    ghost use Rattle.row_locks.specs.declared.held.Held.{Held};
    ghost use Rattle.row_locks.specs.Inner.Noting.{AreLocksNoted};

    ghost Value = { List Held };

    ghost view = { λ s. values (kept s.locks) };

    ghost invariant = { λ s. has_no_slot_twice (kept s.locks) × AreLocksNoted s.places.by_row s.places.by_tx (kept s.locks) };
}

impl LockTable {
    /// Nothing is held. It takes no memory.
    pub fn new(alloc: Global) -> LockTable
        ensures { result ≡ [] }
    {
        LockTable {
            alloc,
            locks: OrderedSlots::new(alloc),
            places: LockPlaces::new(alloc),
        }
    }

    /// The transaction holds the row from now on, and the room is made in which it lets go.
    pub fn take(&mut self, row: RowId, tx: TxId, strength: Strength) -> Result<(), AllocError>
        ensures ok { OnOk result (IsTaken self.old (record { row = row; tx = tx; strength = strength }) self.new) }
        ensures last { OnOk result (self.new ≡ with_lock self.old (record { row = row; tx = tx; strength = strength })) }
        ensures err { OnErr result (self.new ≡ self.old) }
    {
        let lock = Held { row, tx, strength };
        let slot = self.locks.add(lock)?;
        if let Err(error) = self.places.note(&lock, slot) {
            self.locks.remove(slot);
            return Err(error);
        }
        Ok(())
    }

    /// The other transactions that hold the row in conflict, each once.
    pub fn against(
        &self,
        row: RowId,
        tx: TxId,
        strength: Strength,
    ) -> Result<SmallVec<TxId, 4>, AllocError>
        ensures each { IfOk result (λ found. (u : TxId) → has found.items u ≡ has (holders_against self.now row tx strength) u) }
        ensures once { IfOk result (λ found. is_distinct found.items) }
        // Where nobody is found there is nothing to keep.
        ensures memory { OnErr result (is_none_of (holders_against self.now row tx strength) ≡ false) }
    {
        let mut found: SmallVec<TxId, 4> = SmallVec::new(self.alloc);
        for slot in self.places.of_row(row) {
            if let Some(holder) = blocker_at(&self.locks, *slot, row, tx, strength, &found) {
                found.push(holder)?;
            }
        }
        Ok(found)
    }

    /// Whether another transaction holds the row in conflict. It takes no memory.
    pub fn is_blocked(&self, row: RowId, tx: TxId, strength: Strength) -> bool
        ensures { result ≡ not (is_none_of (holders_against self.now row tx strength)) }
    {
        for slot in self.places.of_row(row) {
            if blocker_at(&self.locks, *slot, row, tx, strength, &[]).is_some() {
                return true;
            }
        }
        false
    }

    /// Whether that transaction is one of those that hold the row in conflict with the request of this one. It takes no memory.
    pub fn is_held_by(&self, holder: TxId, row: RowId, tx: TxId, strength: Strength) -> bool
        ensures { result ≡ has (holders_against self.now row tx strength) holder }
    {
        for slot in self.places.of_row(row) {
            if is_held_at(&self.locks, *slot, holder, row, tx, strength) {
                return true;
            }
        }
        false
    }

    /// The transaction holds nothing any more. It takes no memory.
    pub fn release(&mut self, tx: TxId)
        ensures held { IsReleased self.old tx self.new }
        ensures same { self.new ≡ released tx self.old }
    {
        while let Some(slot) = self.places.last_of(tx) {
            if let Some(lock) = self.locks.remove(slot) {
                self.places.strike(&lock, slot);
            }
        }
    }
}

/// The holder of the lock in the slot, where it stands against the request and isn't found yet.
fn blocker_at(
    locks: &OrderedSlots<Held>,
    slot: usize,
    row: RowId,
    tx: TxId,
    strength: Strength,
    found: &[TxId],
) -> Option<TxId>
    ensures { result ≡ blocker_in row tx strength found.now (value_in (kept locks.now) slot) }
{
    match locks.get(slot) {
        Some(held) if is_new_against(held, row, tx, strength, found) => Some(held.tx),
        _ => None,
    }
}

/// Whether the lock in the slot is that holder's, and stands against the request.
fn is_held_at(
    locks: &OrderedSlots<Held>,
    slot: usize,
    holder: TxId,
    row: RowId,
    tx: TxId,
    strength: Strength,
) -> bool
    ensures { result ≡ is_holder_in row tx strength holder (value_in (kept locks.now) slot) }
{
    match locks.get(slot) {
        Some(held) => is_against(held, row, tx, strength) && held.tx.0 == holder.0,
        None => false,
    }
}

/// Whether the lock stands against the request and its holder isn't found yet.
fn is_new_against(held: &Held, row: RowId, tx: TxId, strength: Strength, found: &[TxId]) -> bool
    ensures { result ≡ (is_against row tx strength held.now && not (has found.now held.now.tx)) }
{
    is_against(held, row, tx, strength) && !has(found, held.tx)
}
