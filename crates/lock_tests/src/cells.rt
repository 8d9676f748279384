//! Every cell of level, row, request, holder, policy and WHERE, worked from the definitions. Run also with
//! `rt try --test --fail-alloc N` for each N: a call that was refused leaves the locks as they were, and is made again.
ghost use Rattle.std.specs.Prelude.{IsTrue};
ghost use Rattle.update_recheck.specs.Asked.{Fits, asked};

use crate::asking::holds;
use crate::stores::Change::{Gone, Newer, Own, RolledBack, Unchanged};
use crate::stores::{ASKER, Change, ROW, changed};
use crate::strengths::{CONFLICTS, STRENGTHS};
use iso_lexer::Name;
use row_locks::Strength::{Share, Update};
use row_locks::{LockTable, Strength, Waits};
use row_versions::{ListStore, Seen, TxId, Versions, View};
use smallvec::SmallVec;
use sql_trees::{Column, Expr, Kind, Level, Operator, Policy};
use sql_values::Columns;
use std::alloc::{AllocError, Global};
use std::process::Abort;
use std::test::Fail;
use update_recheck::{Ask, Settled, settle};

const HOLDER: TxId = TxId(3);

const PROBE: TxId = TxId(4);

const COLUMNS: [Column<'static>; 1] = [Column {
    name: Name::Plain("n"),
    kind: Kind::Int,
    not_null: false,
}];

/// Whether the store's newest version of the target has a value for each column.
fn fits<V: Versions>(store: &V, ask: &Ask<'_, '_>) -> bool
    ensures { IsTrue result → Fits (V.content store.now) (asked ask.now) }
{
    let Some(newest) = store.newest(ask.seen.row, ask.tx) else {
        return true;
    };
    match store.values(&newest) {
        Some(row) => row.values().len() == ask.cols.len(),
        None => true,
    }
}

fn equal(alloc: Global, digits: u64) -> Result<Expr<'static>, AllocError> {
    let number = Expr::Number {
        negative: false,
        digits,
    };
    let left = Box::new(alloc, Expr::Column(Name::Folded("n")))?;
    Ok(Expr::Binary(Operator::Equal, left, Box::new(alloc, number)?))
}

/// `'a' || 'b' = 'ab'`, which makes a text.
fn made_text(alloc: Global) -> Result<Expr<'static>, AllocError> {
    let left = Box::new(alloc, Expr::Text("a"))?;
    let right = Box::new(alloc, Expr::Text("b"))?;
    let made = Box::new(alloc, Expr::Binary(Operator::Concat, left, right))?;
    Ok(Expr::Binary(Operator::Equal, made, Box::new(alloc, Expr::Text("ab"))?))
}

/// Conditions that at 20 are true, false (and true at 10), NULL, and no condition; then one that makes a text.
fn condition(alloc: Global, which: usize) -> Result<Expr<'static>, AllocError> {
    match which {
        0 => equal(alloc, 20),
        1 => equal(alloc, 10),
        2 => Ok(Expr::Null),
        3 => Ok(Expr::Text("no condition")),
        _ => made_text(alloc),
    }
}

fn some_condition(alloc: Global, which: usize) -> Result<Expr<'static>, Fail> {
    match condition(alloc, which) {
        Ok(expr) => Ok(expr),
        Err(_) => Ok(condition(alloc, which)?),
    }
}

/// The holder's lock on the row, if it has one.
fn locks_of(alloc: Global, held: Option<Strength>) -> Result<LockTable, Fail> {
    let mut locks = LockTable::new(alloc);
    if let Some(strength) = held {
        if locks.take(ROW, HOLDER, strength).is_err() {
            locks.take(ROW, HOLDER, strength)?;
        }
    }
    Ok(locks)
}

fn list_of(alloc: Global, tx: TxId) -> Result<SmallVec<TxId, 4>, Fail> {
    let mut list = SmallVec::new(alloc);
    list.push(tx)?;
    Ok(list)
}

/// The waits: none, or the holder waits for the asker.
fn waits_of(alloc: Global, closing: bool) -> Result<Waits, Fail> {
    let mut waits = Waits::new(alloc);
    if closing && waits.add(HOLDER, list_of(alloc, ASKER)?).is_err() {
        waits.add(HOLDER, list_of(alloc, ASKER)?)?;
    }
    Ok(waits)
}

/// Whether the asker holds the row.
fn is_locked(locks: &LockTable) -> Result<bool, Fail> {
    let holders = locks.against(ROW, PROBE, Strength::Update)?;
    Ok(holders.iter().any(|tx| tx.0 == ASKER.0))
}

/// What `settle` answers; where it is refused memory the row isn't locked, and it is asked again.
fn settled<V: Versions>(
    rt: &impl Abort,
    alloc: Global,
    store: &V,
    locks: &mut LockTable,
    waits: &Waits,
    ask: &Ask<'_, 'static>,
) -> Result<Settled<'static>, Fail> {
    assert!(rt; fits(store, ask));
    if let Ok(settled) = settle(alloc, store, locks, waits, ask) {
        return Ok(settled);
    }
    assert!(rt; !is_locked(locks)?);
    Ok(settle(alloc, store, locks, waits, ask)?)
}

/// The letter of what came of a target that was found at this place.
fn letter(settled: &Settled<'_>, place: u64, is_locked: bool) -> u8 {
    match (settled, is_locked) {
        (Settled::Take(taken), true) => { if taken.place == place { b'T' } else { b'N' } }
        (Settled::Skip, false) => b'S',
        (Settled::Skip, true) => b'K',
        (Settled::Fault(_), true) => b'F',
        (Settled::Wait(_), false) => b'W',
        (Settled::Deadlock, false) => b'D',
        (Settled::NotFree, false) => b'X',
        (Settled::Serialize, false) => b'Z',
        _ => b'?',
    }
}

/// A target: at which level it is asked for, what became of it, how strongly it is wanted, what is done where others hold it.
#[derive(Clone, Copy)]
pub struct Target {
    pub level: Level,
    pub change: Change,
    pub strength: Strength,
    pub policy: Policy,
}

/// What comes of the target in this store.
fn came_in(
    rt: &impl Abort,
    alloc: Global,
    store: &ListStore,
    locks: &mut LockTable,
    waits: &Waits,
    target: Target,
    condition: &Expr<'static>,
) -> Result<u8, Fail> {
    let place = if let Own = target.change { 1 } else { 0 };
    let view = View {
        tx: Some(ASKER),
        commits: 1,
        command: place,
    };
    let cols = Columns::of(&COLUMNS);
    let ask = Ask {
        tx: ASKER,
        level: target.level,
        view,
        seen: Seen { row: ROW, place },
        strength: target.strength,
        policy: target.policy,
        filter: Some(condition),
        cols: &cols,
    };
    let settled = settled(rt, alloc, store, locks, waits, &ask)?;
    Ok(letter(&settled, place, is_locked(locks)?))
}

/// The letter of what comes of the target with that condition.
pub fn came(
    rt: &impl Abort,
    alloc: Global,
    target: Target,
    held: Option<Strength>,
    closing: bool,
    which: usize,
) -> Result<u8, Fail> {
    let store = changed(alloc, target.change)?;
    let condition = some_condition(alloc, which)?;
    let waits = waits_of(alloc, closing)?;
    let mut locks = locks_of(alloc, held)?;
    came_in(rt, alloc, &store, &mut locks, &waits, target, &condition)
}

/// The target under each condition, and once more where the holder waits for the asker: a wait would close a cycle.
fn four_cells(
    rt: &impl Abort,
    alloc: Global,
    target: Target,
    held: Option<Strength>,
    wanted: &[u8; 4],
) -> Result<(), Fail> {
    for which in 0..4 {
        let want = wanted[which];
        let found = came(rt, alloc, target, held, false, which)?;
        holds(rt, found == want, "no cycle");
        let in_a_cycle = if want == b'W' { b'D' } else { want };
        let found = came(rt, alloc, target, held, true, which)?;
        holds(rt, found == in_a_cycle, "a cycle");
    }
    Ok(())
}

/// What became of the row and how strongly it is wanted, and what comes of it where it is free, held at Share, and held at Update.
type Cells = (
    Change,
    Strength,
    &'static [u8; 4],
    &'static [u8; 4],
    &'static [u8; 4],
);

const AT_READ_COMMITTED: [Cells; 10] = [
    (Unchanged, Update, b"TTTT", b"WWWW", b"WWWW"),
    (RolledBack, Update, b"TTTT", b"WWWW", b"WWWW"),
    (Newer, Update, b"NKKF", b"WWWW", b"WWWW"),
    (Gone, Update, b"SSSS", b"WWWW", b"WWWW"),
    (Own, Update, b"TTTT", b"WWWW", b"WWWW"),
    (Unchanged, Share, b"TTTT", b"TTTT", b"WWWW"),
    (RolledBack, Share, b"TTTT", b"TTTT", b"WWWW"),
    (Newer, Share, b"NKKF", b"NKKF", b"WWWW"),
    (Gone, Share, b"SSSS", b"SSSS", b"WWWW"),
    (Own, Share, b"TTTT", b"TTTT", b"WWWW"),
];

const AT_REPEATABLE_READ: [Cells; 10] = [
    (Unchanged, Update, b"TTTT", b"WWWW", b"WWWW"),
    (RolledBack, Update, b"TTTT", b"WWWW", b"WWWW"),
    (Newer, Update, b"ZZZZ", b"ZZZZ", b"ZZZZ"),
    (Gone, Update, b"ZZZZ", b"ZZZZ", b"ZZZZ"),
    (Own, Update, b"TTTT", b"WWWW", b"WWWW"),
    (Unchanged, Share, b"TTTT", b"TTTT", b"WWWW"),
    (RolledBack, Share, b"TTTT", b"TTTT", b"WWWW"),
    (Newer, Share, b"ZZZZ", b"ZZZZ", b"ZZZZ"),
    (Gone, Share, b"ZZZZ", b"ZZZZ", b"ZZZZ"),
    (Own, Share, b"TTTT", b"TTTT", b"WWWW"),
];

fn are_settled(rt: &impl Abort, alloc: Global, level: Level, all: &[Cells]) -> Result<(), Fail> {
    for (change, strength, free, shared, alone) in all {
        let target = Target {
            level,
            change: *change,
            strength: *strength,
            policy: Policy::Wait,
        };
        four_cells(rt, alloc, target, None, *free)?;
        four_cells(rt, alloc, target, Some(Share), *shared)?;
        four_cells(rt, alloc, target, Some(Update), *alone)?;
    }
    Ok(())
}

/// For each level, row and request, with a row that is free, held at Share and held at Update: what comes of the
/// target where WHERE, at the newest version, is true, false, NULL and no condition. T: the row is taken as it was
/// found. N: its newest version is taken. K: it is passed over and stays locked. F: the fault is told and it stays
/// locked. Nothing else locks it. S: it is passed over. W: it waits. Z: it can't serialize.
#[test]
fn each_cell_is_settled_as_defined(rt: HostRuntime) -> Result<(), Fail> {
    are_settled(&rt, rt.alloc(), Level::ReadCommitted, &AT_READ_COMMITTED)?;
    are_settled(&rt, rt.alloc(), Level::RepeatableRead, &AT_REPEATABLE_READ)
}

const POLICIES: [Policy; 3] = [Policy::Wait, Policy::NoWait, Policy::SkipLocked];

/// At which level a target is asked for, and what became of it; what comes of it where it is held without a conflict; where it is held in conflict, by policy; and
/// where the holder waits for the asker too.
type Held = (Level, Change, u8, &'static [u8; 3], &'static [u8; 3]);

const HELD: [Held; 6] = [
    (Level::ReadCommitted, Unchanged, b'T', b"WXS", b"DXS"),
    (Level::ReadCommitted, Newer, b'N', b"WXS", b"DXS"),
    (Level::ReadCommitted, Gone, b'S', b"WXS", b"DXS"),
    (Level::RepeatableRead, Unchanged, b'T', b"WXS", b"DXS"),
    (Level::RepeatableRead, Newer, b'Z', b"ZZZ", b"ZZZ"),
    (Level::RepeatableRead, Gone, b'Z', b"ZZZ", b"ZZZ"),
];

/// The target of this strength, held so, with each policy.
fn each_policy(
    rt: &impl Abort,
    alloc: Global,
    wanted: &Held,
    strength: Strength,
    held: Strength,
    conflicts: bool,
) -> Result<(), Fail> {
    let (level, change, free, blocked, in_a_cycle) = wanted;
    for which in 0..3 {
        let target = Target {
            level: *level,
            change: *change,
            strength,
            policy: POLICIES[which],
        };
        let want = if conflicts { blocked[which] } else { *free };
        let found = came(rt, alloc, target, Some(held), false, 0)?;
        holds(rt, found == want, "no cycle");
        let want = if conflicts { in_a_cycle[which] } else { *free };
        let found = came(rt, alloc, target, Some(held), true, 0)?;
        holds(rt, found == want, "a cycle");
    }
    Ok(())
}

/// Each pair of strengths, at both levels, with each policy, by the manual's table of conflicts. X: the row isn't free. The
/// other letters are those above. A row that is passed over as it is held isn't locked.
#[test]
fn each_pair_of_strengths_is_settled_by_policy(rt: HostRuntime) -> Result<(), Fail> {
    for wanted in &HELD {
        for (strength, row) in CONFLICTS {
            for which in 0..4 {
                each_policy(
                    &rt,
                    rt.alloc(),
                    wanted,
                    strength,
                    STRENGTHS[which],
                    row[which] == b'X',
                )?;
            }
        }
    }
    Ok(())
}

/// For how many the asker waits, where the row is as it was found.
pub fn waited_for<V: Versions>(
    alloc: Global,
    store: &V,
    locks: &mut LockTable,
) -> Result<Option<usize>, AllocError> {
    let cols = Columns::of(&COLUMNS);
    let ask = Ask {
        tx: ASKER,
        level: Level::ReadCommitted,
        view: View {
            tx: Some(ASKER),
            commits: 1,
            command: 0,
        },
        seen: Seen { row: ROW, place: 0 },
        strength: Update,
        policy: Policy::Wait,
        filter: None,
        cols: &cols,
    };
    if !fits(store, &ask) {
        return Ok(None);
    }
    match settle(alloc, store, locks, &Waits::new(alloc), &ask)? {
        Settled::Take(_) => Ok(Some(0)),
        Settled::Wait(found) => Ok(Some(found.len())),
        _ => Ok(None),
    }
}
