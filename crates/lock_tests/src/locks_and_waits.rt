//! What no clause says of locks and waits: that each call can succeed, worked rows, and calls after memory was refused.
//! Run also with `rt try --test --fail-alloc N` for each N: a call that was refused has changed nothing, and is made again.

use crate::asking::holds;
use crate::strengths::{CONFLICTS, STRENGTHS};
use row_locks::Strength::{Share, Update};
use row_locks::{LockTable, Strength, Waits};
use row_versions::{RowId, TxId};
use smallvec::SmallVec;
use std::alloc::{AllocError, Global};
use std::process::Abort;
use std::test::Fail;

const ROW: RowId = RowId(7);

const OTHER_ROW: RowId = RowId(8);

const NOBODY: [u64; 0] = [];

fn list(alloc: Global, numbers: &[u64]) -> Result<SmallVec<TxId, 4>, AllocError> {
    let mut list = SmallVec::new(alloc);
    for number in numbers {
        list.push(TxId(*number))?;
    }
    Ok(list)
}

fn some_list(alloc: Global, numbers: &[u64]) -> Result<SmallVec<TxId, 4>, AllocError> {
    match list(alloc, numbers) {
        Ok(list) => Ok(list),
        Err(_) => list(alloc, numbers),
    }
}

fn are(found: &[TxId], numbers: &[u64]) -> bool {
    found.len() == numbers.len()
        && found
            .iter()
            .zip(numbers)
            .all(|(tx, number)| tx.0 == *number)
}

/// The blockers of the transaction's request are these, in the order in which they took their locks. Asked again where memory was refused.
fn blocked_by(locks: &LockTable, row: RowId, tx: u64, strength: Strength, numbers: &[u64]) -> bool {
    for _ in 0..2 {
        if let Ok(found) = locks.against(row, TxId(tx), strength) {
            return are(&found, numbers);
        }
    }
    false
}

/// Takes the row's first lock.
fn take_first(
    rt: &impl Abort,
    locks: &mut LockTable,
    tx: u64,
    strength: Strength,
) -> Result<(), Fail> {
    if locks.take(ROW, TxId(tx), strength).is_err() {
        let nobody = blocked_by(locks, ROW, 9, Update, &NOBODY);
        holds(rt, nobody, "a lock that was refused");
        locks.take(ROW, TxId(tx), strength)?;
    }
    Ok(())
}

/// Of a row that is held: who else wants it is blocked as it should be, the holder is not, nor is anyone at another row.
fn conflict_is(rt: &impl Abort, locks: &LockTable, asked: Strength, conflicts: bool) {
    let blocker: &[u64] = if conflicts { &[1] } else { &NOBODY };
    holds(rt, blocked_by(locks, ROW, 2, asked, blocker), "the blocker");
    holds(rt, blocked_by(locks, ROW, 1, asked, &NOBODY), "the holder");
    let other = blocked_by(locks, OTHER_ROW, 2, asked, &NOBODY);
    holds(rt, other, "another row");
}

/// A row is held so: who else asks for it so is blocked by the holder or not, until the holder lets go.
fn pair_is(
    rt: &impl Abort,
    alloc: Global,
    held: Strength,
    asked: Strength,
    conflicts: bool,
) -> Result<(), Fail> {
    let mut locks = LockTable::new(alloc);
    take_first(rt, &mut locks, 1, held)?;
    conflict_is(rt, &locks, asked, conflicts);
    locks.release(TxId(1));
    let nobody = blocked_by(&locks, ROW, 2, asked, &NOBODY);
    holds(rt, nobody, "a lock that is released");
    Ok(())
}

#[test]
fn strengths_conflict_as_in_the_manual(rt: HostRuntime) -> Result<(), Fail> {
    for (asked, row) in CONFLICTS {
        for which in 0..4 {
            pair_is(&rt, rt.alloc(), STRENGTHS[which], asked, row[which] == b'X')?;
        }
    }
    Ok(())
}

/// The row is shared by these, of whom the first asks twice.
fn take_all(locks: &mut LockTable) -> Result<(), Fail> {
    for tx in [5, 1, 2, 3, 4, 5] {
        if locks.take(ROW, TxId(tx), Share).is_err() {
            locks.take(ROW, TxId(tx), Share)?;
        }
    }
    Ok(())
}

#[test]
fn each_blocker_is_found_once(rt: HostRuntime) -> Result<(), Fail> {
    let mut locks = LockTable::new(rt.alloc());
    take_all(&mut locks)?;
    let all = blocked_by(&locks, ROW, 9, Update, &[5, 1, 2, 3, 4]);
    holds(&rt, all, "all");
    let others = blocked_by(&locks, ROW, 2, Update, &[5, 1, 3, 4]);
    holds(&rt, others, "the others");
    locks.release(TxId(5));
    let left = blocked_by(&locks, ROW, 9, Update, &[1, 2, 3, 4]);
    holds(&rt, left, "those that are left");
    Ok(())
}

/// One that waits, and the two that it waits for.
type Waiter = (u64, [u64; 2]);

fn add(alloc: Global, waits: &mut Waits, tx: u64, blockers: &[u64]) -> Result<(), Fail> {
    if waits.add(TxId(tx), some_list(alloc, blockers)?).is_err() {
        waits.add(TxId(tx), some_list(alloc, blockers)?)?;
    }
    Ok(())
}

fn waits_of(alloc: Global, waiters: &[Waiter]) -> Result<Waits, Fail> {
    let mut waits = Waits::new(alloc);
    for (tx, blockers) in waiters {
        add(alloc, &mut waits, *tx, blockers)?;
    }
    Ok(waits)
}

fn closes(alloc: Global, waits: &Waits, tx: u64, blockers: &[u64]) -> Option<bool> {
    let blockers = some_list(alloc, blockers).ok()?;
    match waits.closes(TxId(tx), &blockers) {
        Ok(closes) => Some(closes),
        Err(_) => waits.closes(TxId(tx), &blockers).ok(),
    }
}

const WAITERS: [Waiter; 4] = [(1, [2, 5]), (3, [1, 6]), (4, [3, 3]), (8, [7, 8])];

/// Who would wait for number 10 and for whom else, and whether that closes a cycle.
const QUESTIONS: [(u64, u64, bool); 11] = [
    (2, 1, true),
    (5, 1, true),
    (2, 3, true),
    (2, 4, true),
    (6, 4, true),
    (6, 1, false),
    (7, 4, false),
    (9, 4, false),
    (4, 2, false),
    (7, 8, true),
    (2, 2, true),
];

#[test]
fn cycles_are_found_through_any_wait(rt: HostRuntime) -> Result<(), Fail> {
    let waits = waits_of(rt.alloc(), &WAITERS)?;
    for (tx, blocker, is_closed) in &QUESTIONS {
        let closes = closes(rt.alloc(), &waits, *tx, &[10, *blocker]);
        holds(&rt, closes == Some(*is_closed), "a cycle");
    }
    let closes = closes(rt.alloc(), &waits, 2, &NOBODY);
    holds(&rt, closes == Some(false), "nobody");
    Ok(())
}

fn set(alloc: Global, waits: &mut Waits, tx: u64, blockers: &[u64]) -> Result<(), Fail> {
    if waits
        .set_blockers(TxId(tx), some_list(alloc, blockers)?)
        .is_err()
    {
        waits.set_blockers(TxId(tx), some_list(alloc, blockers)?)?;
    }
    Ok(())
}

fn is_free(waits: &Waits, tx: u64) -> bool {
    match waits.earliest_free() {
        Some(free) => free.0 == tx,
        None => false,
    }
}

/// Sets the blockers of a wait to nobody, after which it is the earliest that is free.
fn frees(rt: &impl Abort, alloc: Global, waits: &mut Waits, tx: u64) -> Result<(), Fail> {
    set(alloc, waits, tx, &NOBODY)?;
    holds(rt, is_free(waits, tx), "the earliest free one");
    Ok(())
}

#[test]
fn the_earliest_free_wait_goes_first(rt: HostRuntime) -> Result<(), Fail> {
    let mut waits = waits_of(rt.alloc(), &[(5, [1, 2]), (3, [1, 1]), (4, [5, 1])])?;
    holds(&rt, waits.earliest_free().is_none(), "none is free");
    frees(&rt, rt.alloc(), &mut waits, 4)?;
    frees(&rt, rt.alloc(), &mut waits, 3)?;
    frees(&rt, rt.alloc(), &mut waits, 5)?;
    waits.remove(TxId(5));
    waits.remove(TxId(6));
    holds(&rt, is_free(&waits, 3), "the next");
    set(rt.alloc(), &mut waits, 3, &[4])?;
    holds(&rt, is_free(&waits, 4), "the last");
    let closes = closes(rt.alloc(), &waits, 4, &[3]);
    holds(&rt, closes == Some(true), "a cycle");
    waits.remove(TxId(4));
    holds(&rt, waits.earliest_free().is_none(), "none is left");
    Ok(())
}
