//! Calls that may want memory, on lists of many lengths: where memory is ample each succeeds, however long the list is.

use crate::asking::holds;
use crate::cells::waited_for;
use crate::stores::{Change, ROW, changed};
use row_locks::Strength::{Share, Update};
use row_locks::{LockTable, Waits};
use row_versions::{ListStore, TxId};
use smallvec::SmallVec;
use std::alloc::{AllocError, Global};
use std::test::Fail;

/// How long the lists are.
const SIZES: [u64; 8] = [0, 1, 5, 9, 41, 101, 1_001, 5_001];

/// The first of the transactions that hold the row or are waited for.
const FIRST: u64 = 10;

/// What is called, and of what there are so many.
#[derive(Clone, Copy)]
enum Call {
    /// `take` and `against`, of holders of one row.
    Against,
    /// `add`, of blockers.
    Add,
    /// `set_blockers`, of blockers.
    SetBlockers,
    /// `add` and `closes`, of transactions that wait one for the next.
    ClosesOverWaits,
    /// `closes`, of blockers that don't wait.
    ClosesOverBlockers,
    /// `settle`, of holders of the target.
    Settle,
}

const CALLS: [(Call, &'static str); 6] = [
    (Call::Against, "against"),
    (Call::Add, "add"),
    (Call::SetBlockers, "set_blockers"),
    (Call::ClosesOverWaits, "closes over waits"),
    (Call::ClosesOverBlockers, "closes over blockers"),
    (Call::Settle, "settle"),
];

fn number(n: u64) -> TxId {
    TxId(FIRST.saturating_add(n))
}

/// So many transactions, from the first on.
fn listed(alloc: Global, size: u64) -> Result<SmallVec<TxId, 4>, AllocError> {
    let mut list = SmallVec::new(alloc);
    for n in 0..size {
        list.push(number(n))?;
    }
    Ok(list)
}

/// The row is shared by so many.
fn shared(alloc: Global, size: u64) -> Result<LockTable, AllocError> {
    let mut locks = LockTable::new(alloc);
    for n in 0..size {
        locks.take(ROW, number(n), Share)?;
    }
    Ok(locks)
}

fn all_are_against(alloc: Global, size: u64) -> Result<bool, AllocError> {
    let locks = shared(alloc, size)?;
    let found = locks.against(ROW, TxId(0), Update)?;
    Ok(found.len() as u64 == size)
}

/// Transaction 0 waits for all of them, and the last one would wait for it.
fn closes_at_last(alloc: Global, waits: &Waits, size: u64) -> Result<bool, AllocError> {
    let mut blockers = SmallVec::<TxId, 4>::new(alloc);
    blockers.push(TxId(0))?;
    let closes = waits.closes(number(size.saturating_sub(1)), &blockers)?;
    Ok(closes == (size > 0))
}

fn are_added(alloc: Global, size: u64) -> Result<bool, AllocError> {
    let mut waits = Waits::new(alloc);
    waits.add(TxId(0), listed(alloc, size)?)?;
    closes_at_last(alloc, &waits, size)
}

fn are_set(alloc: Global, size: u64) -> Result<bool, AllocError> {
    let mut waits = Waits::new(alloc);
    waits.add(TxId(0), SmallVec::new(alloc))?;
    waits.set_blockers(TxId(0), listed(alloc, size)?)?;
    closes_at_last(alloc, &waits, size)
}

/// Transaction 0 waits for the first, and each but the last for the next.
fn chain(alloc: Global, size: u64) -> Result<Waits, AllocError> {
    let mut waits = Waits::new(alloc);
    for n in 0..size {
        let mut next = SmallVec::new(alloc);
        next.push(number(n))?;
        let who = if n == 0 { TxId(0) } else { number(n - 1) };
        waits.add(who, next)?;
    }
    Ok(waits)
}

fn closes_over_waits(alloc: Global, size: u64) -> Result<bool, AllocError> {
    closes_at_last(alloc, &chain(alloc, size)?, size)
}

fn closes_over_blockers(alloc: Global, size: u64) -> Result<bool, AllocError> {
    let waits = Waits::new(alloc);
    let closes = waits.closes(TxId(0), &listed(alloc, size)?)?;
    Ok(!closes)
}

fn waits_for_all(alloc: Global, store: &ListStore, size: u64) -> Result<bool, AllocError> {
    let mut locks = shared(alloc, size)?;
    let found = waited_for(alloc, store, &mut locks)?;
    Ok(found == Some(size as usize))
}

fn succeeds(alloc: Global, store: &ListStore, call: Call, size: u64) -> Result<bool, AllocError> {
    match call {
        Call::Against => all_are_against(alloc, size),
        Call::Add => are_added(alloc, size),
        Call::SetBlockers => are_set(alloc, size),
        Call::ClosesOverWaits => closes_over_waits(alloc, size),
        Call::ClosesOverBlockers => closes_over_blockers(alloc, size),
        Call::Settle => waits_for_all(alloc, store, size),
    }
}

/// Asked again where memory was refused.
fn succeeds_at_last(alloc: Global, store: &ListStore, call: Call, size: u64) -> bool {
    match succeeds(alloc, store, call, size) {
        Ok(so) => so,
        Err(_) => matches!(succeeds(alloc, store, call, size), Ok(true)),
    }
}

#[test]
fn each_call_succeeds_at_each_size(rt: HostRuntime) -> Result<(), Fail> {
    let store = changed(rt.alloc(), Change::Unchanged)?;
    for (call, name) in CALLS {
        for size in SIZES {
            holds(&rt, succeeds_at_last(rt.alloc(), &store, call, size), name);
        }
    }
    Ok(())
}
