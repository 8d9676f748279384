//! Settling one target row.
ghost use Rattle.std.specs.Prelude.{◌≡◌, ◌≢◌, List, length, true, not, Err, IfOk, IfSome, OnOk, OnErr, option_map, if◌then◌else◌};
ghost use Rattle.sql_values.specs.Expressions.{passes};
ghost use Rattle.row_versions.specs.declared.names.TxId.{TxId};
ghost use Rattle.row_locks.specs.Held.{IsTaken, with_lock};
ghost use Rattle.row_versions.specs.Members.{is_none_of};
ghost use Rattle.row_locks.specs.Cycles.{closes};
ghost use Rattle.update_recheck.specs.Asked.{Fits, asked};
ghost use Rattle.update_recheck.specs.Outcome.{row_blockers, is_target_locked, target_outcome};
ghost use Rattle.update_recheck.specs.Outcome.Outcome.{Deadlocks, Waits as Waiting};
ghost use Rattle.update_recheck.specs.Inner.Cases.{holders, is_waited_for, is_locked, is_looked_at, outcome, rechecked};
ghost use Rattle.update_recheck.specs.Settling.{LocksAfter, locks_after, SameMembers, WaitsFor, asks_for_memory, lock_of, outcome_of};
ghost use Rattle.update_recheck.specs.Inner.Stopping.{holders_stop};
ghost use Rattle.update_recheck.specs.Inner.Found.{told, NewestIsWhole};

use crate::ask::{Ask, Settled};
use crate::newest::{Newest, newest_version};
use row_locks::{LockTable, Waits};
use row_versions::{Seen, TxId, Versions};
use smallvec::SmallVec;
use sql_trees::{Level, Policy};
use sql_values::{Row, ValueFault, passes};
use std::alloc::{AllocError, Global};

/// Settles one target. Where the row is locked, that lock is taken and no other; the condition is evaluated before, so
/// that want of memory leaves the locks as they were. A fault of the condition leaves the row locked.
#[tactic(auto, using(crate::proofs::Cases::outcome_is, crate::proofs::Cases::locked_is, crate::proofs::Cases::memory_is))]
pub fn settle<'t, V: Versions>(
    alloc: Global,
    store: &V,
    locks: &mut LockTable,
    waits: &Waits,
    ask: &Ask<'_, 't>,
) -> Result<Settled<'t>, AllocError>
    requires { Fits (V.content store.now) (asked ask.now) }
    ensures outcome { IfOk result (λ s. outcome_of s ≡ target_outcome (V.content store.now) locks.old waits.now (asked ask.now)) }
    ensures blockers { IfOk result (λ s. WaitsFor (row_blockers locks.old (asked ask.now)) s) }
    ensures locks { OnOk result (LocksAfter (is_target_locked (V.content store.now) locks.old waits.now (asked ask.now)) locks.old (lock_of (asked ask.now)) locks.new) }
    ensures last { OnOk result (locks.new ≡ locks_after (is_target_locked (V.content store.now) locks.old waits.now (asked ask.now)) locks.old (lock_of (asked ask.now))) }
    ensures err { OnErr result (locks.new ≡ locks.old) }
    ensures memory { OnErr result (asks_for_memory (V.content store.now) locks.old waits.now (asked ask.now) ≡ true) }
{
    let newest = newest_version(store, ask);
    match ask.level {
        Level::ReadCommitted => settle_read_committed(alloc, locks, waits, ask, newest),
        Level::RepeatableRead => settle_repeatable_read(locks, waits, ask, newest),
    }
}

/// At Read Committed: who holds the row stops it, else it goes by its newest version.
fn settle_read_committed<'t>(
    alloc: Global,
    locks: &mut LockTable,
    waits: &Waits,
    ask: &Ask<'_, 't>,
    newest: Newest<'_>,
) -> Result<Settled<'t>, AllocError>
    requires { NewestIsWhole (asked ask.now) newest }
    ensures outcome { IfOk result (λ s. outcome_of s ≡ outcome Level.ReadCommitted (asked ask.now).seen (holders locks.old waits.now (asked ask.now)) (told (asked ask.now) newest.entry)) }
    ensures blockers { IfOk result (λ s. WaitsFor (row_blockers locks.old (asked ask.now)) s) }
    ensures locks { OnOk result (LocksAfter (is_locked Level.ReadCommitted (holders locks.old waits.now (asked ask.now)) (told (asked ask.now) newest.entry)) locks.old (lock_of (asked ask.now)) locks.new) }
    ensures last { OnOk result (locks.new ≡ locks_after (is_locked Level.ReadCommitted (holders locks.old waits.now (asked ask.now)) (told (asked ask.now) newest.entry)) locks.old (lock_of (asked ask.now))) }
    ensures err { OnErr result (locks.new ≡ locks.old) }
    ensures memory { OnErr result (is_looked_at Level.ReadCommitted (holders locks.old waits.now (asked ask.now)) (told (asked ask.now) newest.entry) ≡ true) }
{
    if let Some(stop) = stopped(locks, waits, ask)? {
        return Ok(stop);
    }
    match newest {
        Newest::Gone => Ok(Settled::Skip),
        Newest::Same => locked(locks, ask, Settled::Take(ask.seen)),
        Newest::Newer(newer, row) => {
            let settled = recheck(alloc, ask, newer, row)?;
            locked(locks, ask, settled)
        }
    }
}

/// At Repeatable Read: a changed row is lost, and who holds an unchanged one stops it.
fn settle_repeatable_read<'t>(
    locks: &mut LockTable,
    waits: &Waits,
    ask: &Ask<'_, 't>,
    newest: Newest<'_>,
) -> Result<Settled<'t>, AllocError>
    ensures outcome { IfOk result (λ s. outcome_of s ≡ outcome Level.RepeatableRead (asked ask.now).seen (holders locks.old waits.now (asked ask.now)) (told (asked ask.now) newest.entry)) }
    ensures blockers { IfOk result (λ s. WaitsFor (row_blockers locks.old (asked ask.now)) s) }
    ensures locks { OnOk result (LocksAfter (is_locked Level.RepeatableRead (holders locks.old waits.now (asked ask.now)) (told (asked ask.now) newest.entry)) locks.old (lock_of (asked ask.now)) locks.new) }
    ensures last { OnOk result (locks.new ≡ locks_after (is_locked Level.RepeatableRead (holders locks.old waits.now (asked ask.now)) (told (asked ask.now) newest.entry)) locks.old (lock_of (asked ask.now))) }
    ensures err { OnErr result (locks.new ≡ locks.old) }
    ensures memory { OnErr result (is_looked_at Level.RepeatableRead (holders locks.old waits.now (asked ask.now)) (told (asked ask.now) newest.entry) ≡ true) }
{
    match newest {
        Newest::Same => {}
        _ => return Ok(Settled::Serialize),
    }
    match stopped(locks, waits, ask)? {
        Some(stop) => Ok(stop),
        None => locked(locks, ask, Settled::Take(ask.seen)),
    }
}

/// What comes of a target that others hold in conflict.
fn stopped<'t>(
    locks: &LockTable,
    waits: &Waits,
    ask: &Ask<'_, 't>,
) -> Result<Option<Settled<'t>>, AllocError>
    ensures stop { IfOk result (λ stop. option_map outcome_of stop ≡ holders_stop (holders locks.now waits.now (asked ask.now))) }
    ensures blockers { IfOk result (λ stop. IfSome stop (λ s. WaitsFor (row_blockers locks.now (asked ask.now)) s)) }
    ensures memory { OnErr result (is_waited_for (holders locks.now waits.now (asked ask.now)) ≡ true) }
{
    if !is_blocked(locks, ask) {
        return Ok(None);
    }
    match ask.policy {
        Policy::Wait => Ok(Some(waited_for(locks, waits, ask)?)),
        Policy::NoWait => Ok(Some(Settled::NotFree)),
        Policy::SkipLocked => Ok(Some(Settled::Skip)),
    }
}

/// Whether others hold the target in conflict. It takes no memory.
pub fn is_blocked(locks: &LockTable, ask: &Ask<'_, '_>) -> bool
    ensures { result ≡ not (is_none_of (row_blockers locks.now (asked ask.now))) }
{
    locks.is_blocked(ask.seen.row, ask.tx, ask.strength)
}

/// What comes of a target that waits for those who hold it: a wait, unless it would close a cycle.
fn waited_for<'t>(
    locks: &LockTable,
    waits: &Waits,
    ask: &Ask<'_, 't>,
) -> Result<Settled<'t>, AllocError>
    ensures outcome { IfOk result (λ s. outcome_of s ≡ (if closes waits.now (asked ask.now).tx (row_blockers locks.now (asked ask.now)) then Deadlocks else Waiting)) }
    ensures blockers { IfOk result (λ s. WaitsFor (row_blockers locks.now (asked ask.now)) s) }
{
    let found = locks.against(ask.seen.row, ask.tx, ask.strength)?;
    if is_deadlock(waits, ask.tx, &found)? {
        return Ok(Settled::Deadlock);
    }
    Ok(Settled::Wait(found))
}

/// Whether a wait of the transaction for those would close a cycle.
fn is_deadlock(waits: &Waits, tx: TxId, found: &SmallVec<TxId, 4>) -> Result<bool, AllocError>
    ensures { IfOk result (λ fails. (others : List TxId) → SameMembers found.now.items others → fails ≡ closes waits.now tx others) }
{
    let fails = waits.closes(tx, found)?;
    Ok(fails)
}

/// What comes of a newer version by what WHERE says of it. Want of memory is told exactly where evaluating it was refused memory.
fn rechecked<'t>(
    newer: Seen,
    passed: Result<bool, ValueFault<'t>>,
) -> Result<Settled<'t>, AllocError>
    ensures outcome { IfOk result (λ s. outcome_of s ≡ rechecked newer passed.entry) }
    ensures blockers { IfOk result (λ s. (others : List TxId) → WaitsFor others s) }
    ensures fault { IfOk result (λ s. passed.entry ≢ Err ValueFault.Memory) }
    ensures memory { OnErr result (passed.entry ≡ Err ValueFault.Memory) }
{
    match passed {
        Ok(true) => Ok(Settled::Take(newer)),
        Ok(false) => Ok(Settled::Skip),
        Err(ValueFault::Memory) => Err(AllocError),
        Err(fault) => Ok(Settled::Fault(fault)),
    }
}

/// What comes of a newer version: WHERE is evaluated again.
fn recheck<'t>(
    alloc: Global,
    ask: &Ask<'_, 't>,
    newer: Seen,
    row: &Row,
) -> Result<Settled<'t>, AllocError>
    requires { length row.now ≡ length (asked ask.now).cols }
    ensures outcome { IfOk result (λ s. outcome_of s ≡ rechecked newer (passes (asked ask.now).condition (asked ask.now).cols row.now)) }
    ensures blockers { IfOk result (λ s. (others : List TxId) → WaitsFor others s) }
{
    rechecked(newer, passes(alloc, ask.filter, ask.cols, row))
}

/// Locks the row, and answers this.
fn locked<'t>(
    locks: &mut LockTable,
    ask: &Ask<'_, 't>,
    settled: Settled<'t>,
) -> Result<Settled<'t>, AllocError>
    ensures same { IfOk result (λ s. s ≡ settled.entry) }
    ensures locks { OnOk result (IsTaken locks.old (lock_of (asked ask.now)) locks.new) }
    ensures last { OnOk result (locks.new ≡ with_lock locks.old (lock_of (asked ask.now))) }
    ensures err { OnErr result (locks.new ≡ locks.old) }
{
    locks.take(ask.seen.row, ask.tx, ask.strength)?;
    Ok(settled)
}
