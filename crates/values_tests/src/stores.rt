//! Stories of rows at random: the store that links versions shows at each step what the plain list shows. The generator is fixed,
//! so they are the same stories in each run.
ghost use Rattle.std.specs.Prelude.{◌≡◌};
ghost use Rattle.row_versions.specs.declared.names.TxId.{TxId};
ghost use Rattle.row_versions.specs.Log.{IsOpen, fate_of};

use crate::told::{at_last, holds};
use chain_store::ChainStore;
use row_versions::{ListStore, RowId, TableId, TxId, Versions, View};
use sql_values::{Row, Value};
use std::alloc::{AllocError, Global};

const STORIES: u64 = 30;

/// In each two transactions begin and end.
const ROUNDS: u64 = 20;

const WRITES: u64 = 6;

const TABLES: u64 = 2;

/// A story so far, told by a linear congruential generator (Knuth, MMIX).
#[derive(Drop)]
struct Story {
    state: u64,
    /// The rows that were written, with their tables.
    rows: Vec<(u64, u64)>,
    /// What the store answered.
    seen: Vec<u64>,
    /// In a wild story a row may be written in another table, and after its transaction's end.
    is_wild: bool,
}

impl Story {
    fn new(alloc: Global, number: u64) -> Story {
        Story {
            state: number,
            rows: Vec::new(alloc),
            seen: Vec::new(alloc),
            is_wild: number.checked_rem(3) == Some(0),
        }
    }

    /// A number below `count`.
    fn roll(&mut self, count: u64) -> u64 {
        self.state = self
            .state
            .wrapping_mul(6_364_136_223_846_793_005)
            .wrapping_add(1_442_695_040_888_963_407);
        (self.state >> 33).checked_rem(count).unwrap_or(0)
    }

    /// A row of those that were written, with its table, and sometimes of another table; or none and a table.
    fn target(&mut self) -> (Option<RowId>, TableId) {
        let table = self.roll(TABLES);
        let new = self.roll(3) == 0;
        let strays = self.is_wild && self.roll(20) == 0;
        let count = self.rows.len() as u64;
        let index = self.roll(count) as usize;
        match self.written(index) {
            Some((row, _)) if strays => (Some(RowId(row)), TableId(table)),
            Some((row, its)) if !new => (Some(RowId(row)), TableId(its)),
            _ => (None, TableId(table)),
        }
    }

    fn written(&self, index: usize) -> Option<(u64, u64)> {
        self.rows.get(index).copied()
    }

    fn view(&mut self, committed: u64) -> View {
        let tx = match self.roll(4) {
            0 => None,
            _ => Some(TxId(self.roll(2 * ROUNDS + 1))),
        };
        View {
            tx,
            commits: self.roll(committed.saturating_add(2)),
            command: self.roll(4),
        }
    }
}

fn values_of(alloc: Global, number: u64) -> Result<Option<Row>, AllocError> {
    if number == 0 {
        return Ok(None);
    }
    let mut values = Vec::new(alloc);
    values.push(Value::Bool(number == 1))?;
    Ok(Some(Row::from_vec(values)))
}

/// A write by the transaction.
fn write<V: Versions>(
    alloc: Global,
    store: &mut V,
    story: &mut Story,
    tx: TxId,
) -> Result<(), AllocError>
    ensures { (V.content store.new).fates ≡ (V.content store.old).fates }
{
    let (row, table) = story.target();
    let values = values_of(alloc, story.roll(4))?;
    let command = story.roll(3);
    match store.write(tx, command, table, row, values) {
        Ok(made) => story.rows.push((made.0, table.0)).map_err(|_| AllocError),
        Err(_) => Err(AllocError),
    }
}

/// The two write in turn, as it comes.
fn write_in_turn<V: Versions>(
    alloc: Global,
    store: &mut V,
    story: &mut Story,
    first: TxId,
    second: TxId,
) -> Result<(), AllocError>
    ensures { (V.content store.new).fates ≡ (V.content store.old).fates }
{
    for _ in 0..WRITES {
        let tx = if story.roll(2) == 0 { first } else { second };
        write(alloc, store, story, tx)?;
    }
    Ok(())
}

/// What the store answers is noted.
fn look<V: Versions>(store: &V, story: &mut Story) -> Result<(), AllocError> {
    for table in 0..TABLES {
        let view = story.view(store.committed());
        let rows = store.rows(&view, TableId(table))?;
        for seen in &rows {
            story.seen.push(seen.row.0)?;
            story.seen.push(seen.place)?;
        }
    }
    for tx in store.open_txs() {
        story.seen.push(tx.0)?;
    }
    let row = RowId(story.roll(WRITES * ROUNDS));
    let newest = store.newest(row, TxId(story.roll(2 * ROUNDS + 1)));
    story.seen.push(newest.map_or(u64::MAX, |seen| seen.place))?;
    Ok(())
}

fn end<V: Versions>(store: &mut V, story: &mut Story, tx: TxId)
    requires { IsOpen (V.content store.old) tx }
    ensures { (other : TxId) → (tx.0 ≡ other.0 → ⊥) → fate_of (V.content store.new).fates other ≡ fate_of (V.content store.old).fates other }
{
    if story.roll(3) == 0 {
        store.roll_back(tx);
    } else {
        store.commit(tx);
    }
}

/// Two transactions write, one ends, both write where the story is wild and else the other alone, and it ends.
fn round<V: Versions>(alloc: Global, store: &mut V, story: &mut Story) -> Result<(), AllocError> {
    let first = store.begin()?;
    let second = store.begin()?;
    write_in_turn(alloc, store, story, first, second)?;
    look(store, story)?;
    end(store, story, second);
    look(store, story)?;
    let ended = if story.is_wild { second } else { first };
    write_in_turn(alloc, store, story, first, ended)?;
    look(store, story)?;
    end(store, story, first);
    look(store, story)
}

fn story_over<V: Versions>(alloc: Global, store: &mut V, number: u64) -> Result<Story, AllocError> {
    let mut story = Story::new(alloc, number);
    for _ in 0..ROUNDS {
        round(alloc, store, &mut story)?;
    }
    Ok(story)
}

/// The store as it is, where it may be lent and given to other threads.
fn for_threads<V: Versions + Send + Sync>(store: V) -> V {
    store
}

fn tells_the_same(alloc: Global, number: u64) -> Result<bool, AllocError> {
    let plain = story_over(alloc, &mut ListStore::new(alloc), number)?;
    let mut chains = for_threads(ChainStore::new(alloc));
    let linked = story_over(alloc, &mut chains, number)?;
    Ok(plain.seen.len() > 100 && plain.seen.as_slice() == linked.seen.as_slice())
}

#[test]
fn both_stores_show_the_same(rt: HostRuntime) {
    for number in 0..STORIES {
        holds(&rt, at_last!(tells_the_same(rt.alloc(), number)), "same");
    }
}
