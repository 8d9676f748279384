//! Where locks stand, by their row and by their transaction.
ghost use Rattle.std.specs.Prelude.{◌≡◌, ℕ, List, [], ◌∷◌, ◌++◌, Some, OnOk, OnErr, IfSome, IfNone, true};
ghost use Rattle.places.specs.Noted.{noted, has_place};
ghost use Rattle.ordered_slots.specs.Kept.{has_no_slot_twice, value_in, without_slot};
ghost use Rattle.row_locks.specs.declared.held.Held.{Held as Lock};
ghost use Rattle.row_locks.specs.Inner.Noting.{AreLocksNoted};

use crate::held::Held;
use places::Places;
use row_versions::{RowId, TxId};
use std::alloc::{AllocError, Global};

/// The slots of locks, noted by row and by transaction.
#[derive(Drop)]
pub struct LockPlaces {
    by_row: Places,
    by_tx: Places,
}

impl LockPlaces {
    /// No lock is noted. It takes no memory.
    pub fn new(alloc: Global) -> LockPlaces
        ensures { AreLocksNoted result.by_row result.by_tx [] }
    {
        LockPlaces {
            by_row: Places::new(alloc),
            by_tx: Places::new(alloc),
        }
    }

    /// The slots of the locks on the row.
    pub fn of_row(&self, row: RowId) -> &[usize]
        ensures { result.now ≡ noted self.now.by_row row.0 }
    {
        self.by_row.at(row.0)
    }

    /// The slot of a lock that the transaction holds: of the one that was taken last.
    pub fn last_of(&self, tx: TxId) -> Option<usize>
        ensures some { IfSome result (λ slot. has_place (noted self.now.by_tx tx.0) slot ≡ true) }
        ensures none { IfNone result (noted self.now.by_tx tx.0 ≡ []) }
    {
        last_place(&self.by_tx, tx.0)
    }

    /// Notes the slot in which the lock was put behind all others.
    pub fn note(&mut self, lock: &Held, slot: usize) -> Result<(), AllocError>
        ensures ok { (locks : List (ℕ × Lock)) → OnOk result (AreLocksNoted self.old.by_row self.old.by_tx locks
            → AreLocksNoted self.new.by_row self.new.by_tx (locks ++ (slot, lock.now) ∷ [])) }
        ensures err { (locks : List (ℕ × Lock)) → OnErr result (AreLocksNoted self.old.by_row self.old.by_tx locks → AreLocksNoted self.new.by_row self.new.by_tx locks) }
    {
        let row = lock.row.0;
        self.by_row.add(row, slot)?;
        if let Err(error) = self.by_tx.add(lock.tx.0, slot) {
            self.by_row.remove(row, slot);
            return Err(error);
        }
        Ok(())
    }

    /// Strikes the slot of the lock.
    pub fn strike(&mut self, lock: &Held, slot: usize)
        ensures { (locks : List (ℕ × Lock)) → has_no_slot_twice locks → value_in locks slot ≡ Some lock.now → AreLocksNoted self.old.by_row self.old.by_tx locks
            → AreLocksNoted self.new.by_row self.new.by_tx (without_slot slot locks) }
    {
        self.by_row.remove(lock.row.0, slot);
        self.by_tx.remove(lock.tx.0, slot);
    }
}

/// The place that was noted last for the number.
pub fn last_place(places: &Places, number: u64) -> Option<usize>
    ensures some { IfSome result (λ place. has_place (noted places.now number) place ≡ true) }
    ensures none { IfNone result (noted places.now number ≡ []) }
{
    places.at(number).last().copied()
}
