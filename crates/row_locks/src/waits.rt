//! The transactions that wait.
ghost use Rattle.std.specs.Prelude.{◌≡◌, ◌≢◌, ◌↔◌, ℕ, IsTrue, true, List, [], ◌∷◌, ◌++◌, OnOk, OnErr, IfOk, not, find, option_map, slice_get};
ghost use Rattle.places.specs.Noted.{noted};
ghost use Rattle.ordered_slots.specs.Kept.{kept};
ghost use Rattle.row_locks.specs.Waiting.{Waiting, is_free, waits_without, with_blockers};
ghost use Rattle.row_locks.specs.Inner.Searching.{reach, spread};
ghost use Rattle.row_locks.specs.Cycles.{Closes, blocks};

use crate::lock_places::last_place;
use crate::members::has;
use crate::wait::Wait;
use ordered_slots::OrderedSlots;
use places::Places;
use row_versions::TxId;
use smallvec::SmallVec;
use std::alloc::{AllocError, Global};
use std::marker::Model;

/// The transactions that wait, in the order in which their waits began. It is meant that a transaction doesn't wait
/// before `add` and waits before `set_blockers`; what is promised here holds without that.
#[derive(Drop)]
pub struct Waits {
    alloc: Global,
    waits: OrderedSlots<Wait>,
    by_tx: Places,
}

impl Model for Waits {
    ghost use Rattle.std.specs.Prelude.{List};
    ghost use Rattle.ordered_slots.specs.Kept.{has_no_slot_twice, kept, values};
    ghost use Rattle.row_locks.specs.Waiting.{Waiting};
    ghost use Rattle.row_locks.specs.Inner.Noting.{AreNoted};

    ghost Value = { List Waiting };

    ghost view = { λ s. values (kept s.waits) };

    ghost invariant = { λ s. has_no_slot_twice (kept s.waits) × AreNoted (λ w. w.tx.0) s.by_tx (kept s.waits) };
}

impl Waits {
    /// Nobody waits. It takes no memory.
    pub fn new(alloc: Global) -> Waits
        ensures { result ≡ [] }
    {
        Waits {
            alloc,
            waits: OrderedSlots::new(alloc),
            by_tx: Places::new(alloc),
        }
    }

    /// The transaction begins to wait, and the room is made in which it waits no more.
    pub fn add(&mut self, tx: TxId, blockers: SmallVec<TxId, 4>) -> Result<(), AllocError>
        ensures ok { OnOk result (self.new ≡ self.old ++ record { tx = tx; blockers = blockers.items } ∷ []) }
        ensures err { OnErr result (self.new ≡ self.old) }
    {
        let slot = self.waits.add(Wait { tx, blockers })?;
        if let Err(error) = self.by_tx.add(tx.0, slot) {
            self.waits.remove(slot);
            return Err(error);
        }
        Ok(())
    }

    /// The transaction waits for these from now on; its wait keeps its place.
    pub fn set_blockers(&mut self, tx: TxId, blockers: SmallVec<TxId, 4>) -> Result<(), AllocError>
        ensures ok { OnOk result (self.new ≡ with_blockers tx blockers.items self.old) }
        ensures err { OnErr result (self.new ≡ self.old) }
    {
        if let Some(slot) = first_place(&self.by_tx, tx.0) {
            self.waits.replace(slot, Wait { tx, blockers });
        }
        Ok(())
    }

    /// The transaction waits no more. It takes no memory.
    pub fn remove(&mut self, tx: TxId)
        ensures { self.new ≡ waits_without tx self.old }
    {
        while let Some(slot) = last_place(&self.by_tx, tx.0) {
            self.waits.remove(slot);
            self.by_tx.remove(tx.0, slot);
        }
    }

    /// Whether a wait of the transaction for these would close a cycle: it is reached from one of them through the
    /// blockers of those that wait. A wait for nobody closes none, and takes no memory.
    pub fn closes(&self, tx: TxId, blockers: &[TxId]) -> Result<bool, AllocError>
        ensures cycle { IfOk result (λ yes. IsTrue yes ↔ Closes (blocks self.now) tx blockers.now) }
        ensures memory { OnErr result (blockers.now ≢ []) }
    {
        if blockers.is_empty() {
            return Ok(false);
        }
        let mut reached = Vec::from_slice(self.alloc, blockers)?;
        let mut next = 0;
        while next < reached.len() {
            let waiter = reached[next];
            spread(&self.waits, self.by_tx.at(waiter.0), &mut reached)?;
            next += 1;
        }
        Ok(has(&reached, tx))
    }

    /// Of those that wait for nobody now, the one whose wait began first. It takes no memory.
    pub fn earliest_free(&self) -> Option<TxId>
        ensures { result ≡ option_map (λ w. w.tx) (find is_free self.now) }
    {
        self.waits
            .values()
            .find(|wait| is_free(wait))
            .map(|wait| wait.tx)
    }
}

/// Whether nobody is waited for.
fn is_free(wait: &Wait) -> bool
    ensures { result ≡ is_free wait.now }
{
    wait.blockers.is_empty()
}

/// Reaches the blockers of the waits in these slots.
fn spread(
    waits: &OrderedSlots<Wait>,
    slots: &[usize],
    reached: &mut Vec<TxId>,
) -> Result<(), AllocError>
    ensures { OnOk result (reached.new.items ≡ spread (kept waits.now) slots.now reached.old.items) }
{
    for slot in slots {
        if let Some(wait) = waits.get(*slot) {
            reach(&wait.blockers, reached)?;
        }
    }
    Ok(())
}

/// Adds those of these that aren't reached yet.
fn reach(blockers: &[TxId], reached: &mut Vec<TxId>) -> Result<(), AllocError>
    ensures { OnOk result (reached.new.items ≡ reach blockers.now reached.old.items) }
{
    for blocker in blockers {
        if !has(reached, *blocker) {
            reached.push(*blocker)?;
        }
    }
    Ok(())
}

/// The place that was noted first for the number.
fn first_place(places: &Places, number: u64) -> Option<usize>
    ensures { result ≡ slice_get (noted places.now number) 0 }
{
    places.at(number).first().copied()
}
