//! Locks and waits in many orders of calls, beside plain lists that follow the definitions. The generator is fixed, so they are the same orders in each run.
//! Run also with `rt try --test --fail-alloc N` for some N: a call that was refused has changed nothing, and is made again.

use crate::asking::holds;
use crate::strengths::{CONFLICTS, STRENGTHS};
use row_locks::{LockTable, Strength, Waits};
use row_versions::{RowId, TxId};
use smallvec::SmallVec;
use std::alloc::{AllocError, Global};
use std::process::Abort;
use std::test::Fail;

const ORDERS: u64 = 60;

const CALLS: u64 = 80;

const ROWS: u64 = 3;

const TXS: u64 = 6;

/// What stands in place of a row that is let go, and of a transaction that waits no more.
const GONE: u64 = 6;

/// A linear congruential generator (Knuth, MMIX).
#[derive(Drop)]
struct Dice {
    state: u64,
}

impl Dice {
    /// A number below the count.
    fn roll(&mut self, count: u64) -> u64 {
        self.state = self
            .state
            .wrapping_mul(6_364_136_223_846_793_005)
            .wrapping_add(1_442_695_040_888_963_407);
        (self.state >> 33).checked_rem(count).unwrap_or(0)
    }
}

/// The transaction's bit in a set of transactions.
fn bit(tx: u64) -> u64 {
    match tx {
        0 => 1,
        1 => 2,
        2 => 4,
        3 => 8,
        4 => 16,
        5 => 32,
        _ => 64,
    }
}

fn is_in(set: u64, tx: u64) -> bool {
    set & bit(tx) != 0
}

/// Table 13.3 of the PostgreSQL manual, by the places of the strengths there.
fn conflict(held: usize, asked: usize) -> bool {
    match CONFLICTS.get(asked) {
        Some((_, row)) => matches!(row.get(held), Some(b'X')),
        None => false,
    }
}

/// A lock: its row, its transaction, and its strength's place in the table.
#[derive(Clone, Copy)]
struct Lock {
    row: u64,
    tx: u64,
    strength: usize,
}

/// A transaction that waits, and the set of those that it waits for.
#[derive(Clone, Copy)]
struct Wait {
    tx: u64,
    blockers: u64,
}

/// What is held, and who waits, in plain lists.
#[derive(Drop)]
struct Plain {
    held: Vec<Lock>,
    waits: Vec<Wait>,
}

impl Plain {
    fn against(&self, row: u64, tx: u64, strength: usize) -> u64 {
        let mut found = 0;
        for lock in &self.held {
            if lock.row == row && lock.tx != tx && conflict(lock.strength, strength) {
                found |= bit(lock.tx);
            }
        }
        found
    }

    /// Those that are reached from the blockers in as many steps as there are transactions.
    fn closes(&self, tx: u64, blockers: u64) -> bool {
        let mut reached = blockers;
        for _ in 0..TXS {
            for wait in &self.waits {
                if is_in(reached, wait.tx) {
                    reached |= wait.blockers;
                }
            }
        }
        is_in(reached, tx)
    }

    fn earliest_free(&self) -> Option<u64> {
        for wait in &self.waits {
            if wait.blockers == 0 {
                return Some(wait.tx);
            }
        }
        None
    }

    fn release(&mut self, tx: u64) {
        for lock in &mut self.held {
            if lock.tx == tx {
                lock.row = GONE;
            }
        }
    }

    fn remove(&mut self, tx: u64) {
        for wait in &mut self.waits {
            if wait.tx == tx {
                wait.tx = GONE;
                wait.blockers = bit(GONE);
            }
        }
    }

    fn set_blockers(&mut self, tx: u64, blockers: u64) {
        for wait in &mut self.waits {
            if wait.tx == tx {
                wait.blockers = blockers;
                return;
            }
        }
    }
}

/// The locks and waits, and the same in plain lists.
#[derive(Drop)]
struct Both {
    alloc: Global,
    locks: LockTable,
    waits: Waits,
    plain: Plain,
}

/// What is called: whose call it is, on which row, how strongly, and with which blockers.
#[derive(Clone, Copy)]
struct Call {
    kind: u64,
    row: u64,
    tx: u64,
    strength: usize,
    blockers: u64,
}

fn any_call(dice: &mut Dice) -> Call {
    Call {
        kind: dice.roll(9),
        row: dice.roll(ROWS),
        tx: dice.roll(TXS),
        strength: dice.roll(4) as usize,
        blockers: dice.roll(64) & dice.roll(64),
    }
}

fn strength_at(place: usize) -> Strength {
    match STRENGTHS.get(place) {
        Some(strength) => *strength,
        None => Strength::Update,
    }
}

fn list(alloc: Global, set: u64) -> Result<SmallVec<TxId, 4>, AllocError> {
    let mut list = SmallVec::new(alloc);
    for tx in 0..TXS {
        if is_in(set, tx) {
            list.push(TxId(tx))?;
        }
    }
    Ok(list)
}

fn set_of(found: &[TxId]) -> u64 {
    let mut set = 0;
    for tx in found {
        set |= bit(tx.0);
    }
    set
}

impl Both {
    fn new(alloc: Global) -> Both {
        Both {
            alloc,
            locks: LockTable::new(alloc),
            waits: Waits::new(alloc),
            plain: Plain {
                held: Vec::new(alloc),
                waits: Vec::new(alloc),
            },
        }
    }

    fn take(&mut self, call: Call) -> Result<(), AllocError> {
        let Call {
            row,
            tx,
            strength,
            ..
        } = call;
        self.plain.held.reserve(1)?;
        self.locks
            .take(RowId(row), TxId(tx), strength_at(strength))?;
        self.plain.held.push(Lock { row, tx, strength })?;
        Ok(())
    }

    fn release(&mut self, tx: u64) {
        self.locks.release(TxId(tx));
        self.plain.release(tx);
    }

    fn add(&mut self, tx: u64, blockers: u64) -> Result<(), AllocError> {
        self.plain.waits.reserve(1)?;
        self.waits.add(TxId(tx), list(self.alloc, blockers)?)?;
        self.plain.waits.push(Wait { tx, blockers })?;
        Ok(())
    }

    fn set_blockers(&mut self, tx: u64, blockers: u64) -> Result<(), AllocError> {
        let listed = list(self.alloc, blockers)?;
        self.waits.set_blockers(TxId(tx), listed)?;
        self.plain.set_blockers(tx, blockers);
        Ok(())
    }

    fn remove(&mut self, tx: u64) {
        self.waits.remove(TxId(tx));
        self.plain.remove(tx);
    }

    fn make(&mut self, call: Call) -> Result<(), AllocError> {
        match call.kind {
            0..=3 => self.take(call)?,
            4 => self.release(call.tx),
            5 | 6 => self.add(call.tx, call.blockers)?,
            7 => self.set_blockers(call.tx, call.blockers)?,
            _ => self.remove(call.tx),
        }
        Ok(())
    }

    /// Whether the transaction's request for the row is answered alike.
    fn blocks_alike(&self, row: u64, tx: u64, strength: usize) -> Result<bool, AllocError> {
        let asked = strength_at(strength);
        let found = self.locks.against(RowId(row), TxId(tx), asked)?;
        let blocked = self.locks.is_blocked(RowId(row), TxId(tx), asked);
        let wanted = self.plain.against(row, tx, strength);
        Ok(set_of(&found) == wanted && blocked == (wanted != 0))
    }

    fn closes_alike(&self, tx: u64, blockers: u64) -> Result<bool, AllocError> {
        let listed = list(self.alloc, blockers)?;
        let closes = self.waits.closes(TxId(tx), &listed)?;
        Ok(closes == self.plain.closes(tx, blockers))
    }

    fn frees_alike(&self) -> bool {
        match (self.waits.earliest_free(), self.plain.earliest_free()) {
            (Some(found), Some(wanted)) => found.0 == wanted,
            (None, None) => true,
            _ => false,
        }
    }

    /// Whether all is answered alike to each transaction, of the row and with the blockers that the call names.
    fn are_alike(&self, call: Call) -> Result<bool, AllocError> {
        for tx in 0..TXS {
            for strength in 0..4 {
                if !self.blocks_alike(call.row, tx, strength)? {
                    return Ok(false);
                }
            }
            if !self.closes_alike(tx, call.blockers)? {
                return Ok(false);
            }
        }
        Ok(self.frees_alike())
    }
}

fn make_and_ask(rt: &impl Abort, both: &mut Both, call: Call) -> Result<(), Fail> {
    if both.make(call).is_err() {
        both.make(call)?;
    }
    let alike = match both.are_alike(call) {
        Ok(alike) => alike,
        Err(_) => both.are_alike(call)?,
    };
    holds(rt, alike, "locks and waits as plain lists have them");
    Ok(())
}

#[test]
fn any_order_of_calls_is_as_plain_lists_have_it(rt: HostRuntime) -> Result<(), Fail> {
    let mut dice = Dice { state: 0 };
    for _ in 0..ORDERS {
        let mut both = Both::new(rt.alloc());
        for _ in 0..CALLS {
            make_and_ask(&rt, &mut both, any_call(&mut dice))?;
        }
    }
    Ok(())
}
