//! Random lists of writes by several open transactions, with ends of some between: what the index of keys finds is what the definitions say, asked of a plain list of the writes.
ghost use Rattle.std.specs.Prelude.{◌≡◌};

use crate::told::{at_last, holds};
use row_versions::{ListStore, RowId, TableId, TxId, Versions};
use sql_values::{Row, Value};
use std::alloc::{AllocError, Global};
use unique_keys::{Found, KeyIndex};

const TABLE: TableId = TableId(3);

const LISTS: u64 = 60;

const TXS: u64 = 6;

/// No transaction has this number.
const NOBODY: u64 = 99;

/// How many writes come before each end of a transaction.
const WRITES: u32 = 8;

/// A linear congruential generator (Knuth, MMIX).
#[derive(Drop)]
struct Dice {
    state: u64,
}

impl Dice {
    /// A number below this one.
    fn roll(&mut self, count: u64) -> u64 {
        self.state = self
            .state
            .wrapping_mul(6_364_136_223_846_793_005)
            .wrapping_add(1_442_695_040_888_963_407);
        let high = self.state >> 33;
        high.checked_rem(count).unwrap_or(0)
    }
}

#[derive(Clone, Copy, PartialEq, Eq)]
enum End {
    Open,
    Committed,
    RolledBack,
}

/// A write: of this row, by this transaction, with this number unless it is NULL or the row is deleted.
#[derive(Clone, Copy)]
struct Put {
    row: u64,
    tx: u64,
    number: Option<i32>,
}

/// The index, and the plain list of the writes with how their transactions ended.
#[derive(Drop)]
struct Lists {
    index: KeyIndex,
    puts: Vec<Put>,
    ends: [End; 6],
    /// Only the first two rows are written, again and again.
    is_hot: bool,
}

impl Lists {
    fn end(&self, tx: u64) -> End {
        match self.ends.get(tx as usize) {
            Some(end) => *end,
            None => End::RolledBack,
        }
    }

    /// The number of the row's last write that is committed, or by this transaction.
    fn newest(&self, row: u64, own: u64) -> Option<i32> {
        let mut found = None;
        for put in &self.puts {
            let counts = put.tx == own || self.end(put.tx) == End::Committed;
            if put.row == row && counts {
                found = put.number;
            }
        }
        found
    }

    /// Whether the transaction gave the row the number in some write.
    fn gave(&self, row: u64, tx: u64, number: i32) -> bool {
        let mut has = false;
        for put in &self.puts {
            if put.row == row && put.tx == tx && put.number == Some(number) {
                has = true;
            }
        }
        has
    }

    /// Whether the other transaction holds the key.
    fn blocks(&self, number: i32, tx: u64, other: u64) -> bool {
        let mut blocks = false;
        for put in &self.puts {
            let holds = self.newest(put.row, NOBODY) == Some(number)
                || self.gave(put.row, put.tx, number);
            if put.tx == other && holds {
                blocks = true;
            }
        }
        blocks && other != tx && self.end(other) == End::Open
    }

    /// Whether these, and no others, hold the key, each once.
    fn are_blockers(&self, found: &[TxId], number: i32, tx: u64) -> bool {
        for other in 0..TXS {
            let mut times = 0_u64;
            for one in found {
                if one.0 == other {
                    times = times.saturating_add(1);
                }
            }
            if times != u64::from(self.blocks(number, tx, other)) {
                return false;
            }
        }
        true
    }

    /// The row that has the key, the one that was first given it.
    fn taker(&self, number: i32, tx: u64, except: u64) -> Option<u64> {
        for put in &self.puts {
            let counts = put.tx == tx || self.end(put.tx) == End::Committed;
            if put.row != except
                && counts
                && put.number == Some(number)
                && self.newest(put.row, tx) == Some(number)
            {
                return Some(put.row);
            }
        }
        None
    }
}

/// A row whose second column is the key, an integer or a bigint.
fn row_of(alloc: Global, number: Option<i32>, big: bool) -> Result<Row, AllocError> {
    let value = match number {
        Some(n) if big => Value::Big(i64::from(n)),
        Some(n) => Value::Int(n),
        None => Value::Null,
    };
    Ok(Row::from_vec(vec![in alloc; Value::Int(0), value]?))
}

/// A row that is written: one of the first two in a hot list, else one of the first four, or a new one.
fn row_written(lists: &Lists, dice: &mut Dice) -> Option<RowId> {
    if lists.is_hot && lists.puts.len() > 1 {
        return Some(RowId(dice.roll(2)));
    }
    let old = dice.roll(8);
    if old < 4 { Some(RowId(old)) } else { None }
}

/// A write of a row, which is deleted, or given NULL or one of three numbers.
fn write<V: Versions>(
    alloc: Global,
    store: &mut V,
    lists: &mut Lists,
    dice: &mut Dice,
    tx: u64,
) -> Result<(), AllocError>
    ensures { (V.content store.new).fates ≡ (V.content store.old).fates }
{
    let row = row_written(lists, dice);
    let (number, is_gone) = match dice.roll(5) {
        0 => (None, true),
        1 => (None, false),
        2 => (Some(1), false),
        3 => (Some(2), false),
        _ => (Some(3), false),
    };
    let big = dice.roll(2) == 0;
    let (values, noted) = if is_gone {
        (None, None)
    } else {
        let values = row_of(alloc, number, big)?;
        (Some(values), Some(row_of(alloc, number, big)?))
    };
    let Ok(made) = store.write(TxId(tx), 0, TABLE, row, values) else {
        return Err(AllocError);
    };
    lists.index.enter(TABLE, made, TxId(tx), noted)?;
    lists.puts.push(Put {
        row: made.0,
        tx,
        number,
    })?;
    Ok(())
}

/// Writes by transactions from this number on.
fn write_all<V: Versions>(
    alloc: Global,
    store: &mut V,
    lists: &mut Lists,
    dice: &mut Dice,
    first: u64,
) -> Result<(), AllocError>
    ensures { (V.content store.new).fates ≡ (V.content store.old).fates }
{
    for _ in 0..WRITES {
        let tx = first.wrapping_add(dice.roll(TXS.wrapping_sub(first)));
        write(alloc, store, lists, dice, tx)?;
    }
    Ok(())
}

/// Whether the index finds of one key what the plain list says.
fn agrees<V: Versions>(
    alloc: Global,
    store: &V,
    lists: &Lists,
    number: i32,
    tx: u64,
    except: u64,
) -> Result<bool, AllocError> {
    let asked = row_of(alloc, Some(number), false)?;
    let (values, row) = (asked.values(), RowId(except));
    let by = lists.index.blockers(store, TABLE, &[1], values, TxId(tx))?;
    let held = lists.index.is_held(store, TABLE, &[1], values, TxId(tx));
    if !lists.are_blockers(by.as_slice(), number, tx) || held == by.as_slice().is_empty() {
        return Ok(false);
    }
    let taker = lists.taker(number, tx, except);
    Ok(
        match lists
            .index
            .find(store, TABLE, &[1], values, TxId(tx), Some(row))?
        {
            Found::Held(by) => held && lists.are_blockers(by.as_slice(), number, tx),
            Found::Taken(by) => !held && taker == Some(by.row.0),
            Found::Free => !held && taker.is_none(),
        },
    )
}

/// Whether it does so for each number, each transaction from this one on, and some rows.
fn all_agree<V: Versions>(
    alloc: Global,
    store: &V,
    lists: &Lists,
    first: u64,
) -> Result<bool, AllocError> {
    for tx in first..TXS {
        for number in 1..4 {
            for except in [0, 2, 5] {
                if !agrees(alloc, store, lists, number, tx, except)? {
                    return Ok(false);
                }
            }
        }
    }
    Ok(true)
}

/// Whether the index agrees after each part of a list: writes of six transactions, a commit, a rollback, and writes of the others.
fn list_agrees(alloc: Global, dice: &mut Dice, is_hot: bool) -> Result<bool, AllocError> {
    let mut store = ListStore::new(alloc);
    let mut index = KeyIndex::new(alloc);
    index.learn(TABLE, &[1])?;
    let mut lists = Lists {
        index,
        puts: Vec::new(alloc),
        ends: [End::Open; 6],
        is_hot,
    };
    let committed = store.begin()?;
    let failed = store.begin()?;
    store.begin()?;
    store.begin()?;
    store.begin()?;
    store.begin()?;
    write_all(alloc, &mut store, &mut lists, dice, 0)?;
    let mut well = all_agree(alloc, &store, &lists, 0)?;
    store.commit(committed);
    lists.ends[0] = End::Committed;
    write_all(alloc, &mut store, &mut lists, dice, 1)?;
    well = well && all_agree(alloc, &store, &lists, 1)?;
    store.roll_back(failed);
    lists.index.forget(failed);
    lists.ends[1] = End::RolledBack;
    write_all(alloc, &mut store, &mut lists, dice, 2)?;
    Ok(well && all_agree(alloc, &store, &lists, 2)?)
}

fn all_lists_agree(alloc: Global) -> Result<bool, AllocError> {
    let mut dice = Dice { state: 11 };
    for number in 0..LISTS {
        let is_hot = number.checked_rem(2) == Some(0);
        if !list_agrees(alloc, &mut dice, is_hot)? {
            return Ok(false);
        }
    }
    Ok(true)
}

#[test]
fn random_notes_find_what_the_definitions_say(rt: HostRuntime) {
    holds(&rt, at_last!(all_lists_agree(rt.alloc())), "a random list");
}
