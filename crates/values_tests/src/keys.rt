//! Keys that are held, taken or free, worked from the definitions.
ghost use Rattle.std.specs.Prelude.{◌≡◌};

use crate::told::{at_last, holds};
use row_versions::{ListStore, RowId, TableId, TxId, Versions};
use sql_values::{Row, Value};
use std::alloc::{AllocError, Global};
use unique_keys::{Check, Found, KeyIndex, TableKeys};

const TABLE: TableId = TableId(7);

const OTHER: TableId = TableId(8);

/// What two columns hold: NULL, or a number.
type Pair = (Option<i32>, Option<i32>);

fn value_of(number: Option<i32>) -> Value {
    match number {
        Some(n) => Value::Int(n),
        None => Value::Null,
    }
}

fn row_of(alloc: Global, pair: Pair) -> Result<Row, AllocError> {
    Ok(Row::from_vec(vec![in alloc; value_of(pair.0), value_of(pair.1)]?))
}

/// A key on the columns at each of these places.
fn keys_at(alloc: Global, table: TableId, places: &[&[u32]]) -> Result<TableKeys, AllocError> {
    let mut keys = Vec::new(alloc);
    for columns in places {
        keys.push(Vec::from_slice(alloc, *columns)?)?;
    }
    Ok(TableKeys { table, keys })
}

/// A key on each column.
fn two_keys(alloc: Global, table: TableId) -> Result<TableKeys, AllocError> {
    keys_at(alloc, table, &[&[0], &[1]])
}

/// One key on both columns.
fn wide_key(alloc: Global) -> Result<TableKeys, AllocError> {
    keys_at(alloc, TABLE, &[&[0, 1]])
}

/// A write: of this transaction, of this row or a new one, with these values unless it deletes the row.
type Put = (u64, Option<u64>, Option<Pair>);

fn pair_row(alloc: Global, pair: Option<Pair>) -> Result<Option<Row>, AllocError> {
    match pair {
        Some(pair) => Ok(Some(row_of(alloc, pair)?)),
        None => Ok(None),
    }
}

fn row_id(row: Option<u64>) -> Option<RowId> {
    match row {
        Some(row) => Some(RowId(row)),
        None => None,
    }
}

/// Writes, and notes the write.
fn put<V: Versions>(
    alloc: Global,
    store: &mut V,
    index: &mut KeyIndex,
    keys: &TableKeys,
    put: &Put,
) -> Result<(), AllocError>
    ensures { (V.content store.new).fates ≡ (V.content store.old).fates }
{
    let (tx, row, pair) = *put;
    let noted = pair_row(alloc, pair)?;
    let values = pair_row(alloc, pair)?;
    match store.write(TxId(tx), 0, keys.table, row_id(row), values) {
        Ok(made) => index.note(keys, made, TxId(tx), noted.as_ref()),
        Err(_) => Err(AllocError),
    }
}

fn put_all<V: Versions>(
    alloc: Global,
    store: &mut V,
    index: &mut KeyIndex,
    keys: &TableKeys,
    puts: &[Put],
) -> Result<(), AllocError>
    ensures { (V.content store.new).fates ≡ (V.content store.old).fates }
{
    for one in puts {
        put(alloc, store, index, keys, one)?;
    }
    Ok(())
}

/// The writes of one that commits, one that is rolled back, two that stay open and the one that asks, which is number 4.
const PUTS: [Put; 13] = [
    (0, None, Some((Some(1), Some(10)))),
    (0, None, Some((Some(2), Some(20)))),
    (0, None, Some((Some(3), None))),
    (0, None, Some((Some(4), Some(40)))),
    (0, Some(3), None),
    (1, None, Some((Some(9), Some(90)))),
    (1, Some(2), Some((Some(30), None))),
    (2, Some(0), Some((Some(5), Some(10)))),
    (2, None, Some((Some(6), Some(60)))),
    (2, Some(8), Some((Some(7), Some(60)))),
    (3, None, Some((Some(5), Some(50)))),
    (4, Some(1), None),
    (4, None, Some((Some(8), Some(80)))),
];

/// A store and an index with all of them, and a row of another table.
fn written(alloc: Global) -> Result<(ListStore, KeyIndex), AllocError> {
    let mut store = ListStore::new(alloc);
    let mut index = KeyIndex::new(alloc);
    let made = store.begin()?;
    let failed = store.begin()?;
    store.begin()?;
    store.begin()?;
    store.begin()?;
    let keys = two_keys(alloc, TABLE)?;
    put_all(alloc, &mut store, &mut index, &keys, &PUTS)?;
    let keys = two_keys(alloc, OTHER)?;
    let other = [(0, None, Some((Some(12), Some(120))))];
    put_all(alloc, &mut store, &mut index, &keys, &other)?;
    store.commit(made);
    store.roll_back(failed);
    index.forget(failed);
    Ok((store, index))
}

/// Whether these are found, in any order.
fn are(found: &[TxId], wanted: &[u64]) -> bool {
    found.len() == wanted.len() && found.iter().all(|tx| wanted.contains(&tx.0))
}

/// What is wanted of a row's keys.
#[derive(Clone, Copy)]
enum Wanted {
    Free,
    /// Of which key, and at which place the version stands that has it.
    Taken(u32, u64),
    Held(u32, &'static [u64]),
}

fn is_found(check: &Check, wanted: Wanted) -> bool {
    match (check, wanted) {
        (Check::Free, Wanted::Free) => true,
        (Check::Taken { key, by }, Wanted::Taken(wanted, place)) => {
            *key == wanted && by.place == place
        }
        (Check::Held { key, by }, Wanted::Held(wanted, who)) => *key == wanted && are(by, who),
        _ => false,
    }
}

/// Who asks, for which values, in place of which row, and what is found.
type Case = (u64, Pair, Option<u64>, Wanted);

const CASES: [Case; 26] = [
    (4, (Some(11), Some(110)), None, Wanted::Free),
    // Of an open transaction's row: as it was committed, as it is, as it was in between.
    (4, (Some(1), Some(11)), None, Wanted::Held(0, &[2])),
    (4, (Some(7), Some(11)), None, Wanted::Held(0, &[2])),
    (4, (Some(6), Some(11)), None, Wanted::Held(0, &[2])),
    (4, (Some(11), Some(60)), None, Wanted::Held(1, &[2])),
    // Two open transactions have it.
    (4, (Some(5), Some(11)), None, Wanted::Held(0, &[2, 3])),
    (2, (Some(5), Some(11)), None, Wanted::Held(0, &[3])),
    // An open transaction deleted it.
    (2, (Some(2), Some(11)), None, Wanted::Held(0, &[4])),
    // A committed row has it, or an own one.
    (4, (Some(3), Some(11)), None, Wanted::Taken(0, 2)),
    (4, (Some(8), Some(11)), None, Wanted::Taken(0, 12)),
    (4, (Some(11), Some(80)), None, Wanted::Taken(1, 12)),
    (2, (Some(7), Some(11)), None, Wanted::Taken(0, 9)),
    // The row that was first given it has it still, in a newer version.
    (2, (Some(11), Some(60)), None, Wanted::Taken(1, 9)),
    // The first key that isn't free decides.
    (4, (Some(3), Some(10)), None, Wanted::Taken(0, 2)),
    (4, (Some(2), Some(10)), None, Wanted::Held(1, &[2])),
    // The row that is written itself doesn't count.
    (4, (Some(8), Some(80)), Some(12), Wanted::Free),
    (4, (Some(3), None), Some(2), Wanted::Free),
    // An own row that is deleted, or has another key by now; a row that is gone; one that was rolled back; one of another table.
    (4, (Some(2), Some(20)), None, Wanted::Free),
    (2, (Some(6), Some(11)), None, Wanted::Free),
    (4, (Some(4), Some(40)), None, Wanted::Free),
    (4, (Some(9), Some(90)), None, Wanted::Free),
    (4, (Some(30), Some(11)), None, Wanted::Free),
    (4, (Some(12), Some(120)), None, Wanted::Free),
    // NULL is free, also where a row has NULL.
    (4, (None, None), None, Wanted::Free),
    (4, (Some(11), None), None, Wanted::Free),
    (4, (None, Some(10)), None, Wanted::Held(1, &[2])),
];

const WIDE: [Case; 5] = [
    (4, (Some(1), Some(10)), None, Wanted::Held(0, &[2])),
    (4, (Some(1), Some(20)), None, Wanted::Free),
    (4, (Some(1), Some(80)), None, Wanted::Free),
    (4, (Some(3), None), None, Wanted::Free),
    (4, (Some(8), Some(80)), None, Wanted::Taken(0, 12)),
];

fn finds(
    alloc: Global,
    store: &ListStore,
    index: &KeyIndex,
    keys: &TableKeys,
    case: &Case,
) -> Result<bool, AllocError> {
    let (tx, pair, except, wanted) = *case;
    let all = keys.keys.as_slice();
    if all.len() > 2 {
        return Ok(false);
    }
    let asked = row_of(alloc, pair)?;
    let check = index.check(store, keys, &asked, TxId(tx), row_id(except))?;
    Ok(is_found(&check, wanted))
}

fn finds_all(
    alloc: Global,
    store: &ListStore,
    index: &KeyIndex,
    keys: &TableKeys,
    cases: &[Case],
) -> Result<bool, AllocError> {
    for case in cases {
        if !finds(alloc, store, index, keys, case)? {
            return Ok(false);
        }
    }
    Ok(true)
}

fn key_waits_for(
    alloc: Global,
    store: &ListStore,
    index: &KeyIndex,
    key: u32,
    wanted: &[u64],
) -> Result<bool, AllocError> {
    let keys = two_keys(alloc, TABLE)?;
    let asked = row_of(alloc, (Some(5), Some(60)))?;
    let by = index.holders(store, &keys, key, &asked, TxId(4))?;
    Ok(are(&by, wanted))
}

/// Where nothing is written no key is waited for.
fn nobody_is_waited_for(alloc: Global) -> Result<bool, AllocError> {
    let store = ListStore::new(alloc);
    let index = KeyIndex::new(alloc);
    key_waits_for(alloc, &store, &index, 0, &[])
}

fn keys_are_found(alloc: Global) -> Result<bool, AllocError> {
    let (store, index) = written(alloc)?;
    let found = finds_all(alloc, &store, &index, &two_keys(alloc, TABLE)?, &CASES)?;
    let wide = finds_all(alloc, &store, &index, &wide_key(alloc)?, &WIDE)?;
    Ok(
        found
            && wide
            && key_waits_for(alloc, &store, &index, 0, &[2, 3])?
            && key_waits_for(alloc, &store, &index, 1, &[2])?
            && nobody_is_waited_for(alloc)?,
    )
}

#[test]
fn keys_are_held_taken_or_free(rt: HostRuntime) {
    holds(&rt, at_last!(keys_are_found(rt.alloc())), "keys");
}

/// A row with this number in the first column, which alone is asked for.
fn with_first(alloc: Global, first: i32) -> Result<Row, AllocError> {
    row_of(alloc, (Some(first), None))
}

/// Whether that is found of the first column's key. The key's number doesn't count.
fn one_is(
    alloc: Global,
    store: &ListStore,
    index: &KeyIndex,
    tx: u64,
    first: i32,
    wanted: Wanted,
) -> Result<bool, AllocError> {
    let asked = with_first(alloc, first)?;
    let found = index.find(store, TABLE, &[0], asked.values(), TxId(tx), None)?;
    Ok(match (&found, wanted) {
        (Found::Free, Wanted::Free) => true,
        (Found::Taken(by), Wanted::Taken(_, place)) => by.place == place,
        (Found::Held(by), Wanted::Held(_, who)) => are(by, who),
        _ => false,
    })
}

fn first_is_held(
    alloc: Global,
    store: &ListStore,
    index: &KeyIndex,
    tx: u64,
    first: i32,
) -> Result<bool, AllocError> {
    let asked = with_first(alloc, first)?;
    Ok(index.is_held(store, TABLE, &[0], asked.values(), TxId(tx)))
}

fn one_key_is_found(alloc: Global) -> Result<bool, AllocError> {
    let (store, index) = written(alloc)?;
    Ok(
        one_is(alloc, &store, &index, 4, 11, Wanted::Free)?
            && one_is(alloc, &store, &index, 4, 3, Wanted::Taken(0, 2))?
            && one_is(alloc, &store, &index, 4, 5, Wanted::Held(0, &[2, 3]))?
            // An own row has it, and another open transaction's too.
            && one_is(alloc, &store, &index, 2, 5, Wanted::Held(0, &[3]))?,
    )
}

#[test]
fn one_key_is_held_taken_or_free(rt: HostRuntime) {
    holds(&rt, at_last!(one_key_is_found(rt.alloc())), "one key");
}

fn held_keys_are_told(alloc: Global) -> Result<bool, AllocError> {
    let (store, index) = written(alloc)?;
    // As it was committed and as it is; an own row's; one that another row has for good; one that nobody has.
    Ok(
        first_is_held(alloc, &store, &index, 4, 1)?
            && first_is_held(alloc, &store, &index, 4, 7)?
            && !first_is_held(alloc, &store, &index, 2, 1)?
            && !first_is_held(alloc, &store, &index, 4, 3)?
            && !first_is_held(alloc, &store, &index, 4, 11)?,
    )
}

#[test]
fn keys_are_held_by_other_open_transactions(rt: HostRuntime) {
    holds(&rt, at_last!(held_keys_are_told(rt.alloc())), "held keys");
}

/// One transaction writes a row, whose values enter the index; another asks.
fn entered_values_are_found(alloc: Global) -> Result<bool, AllocError> {
    let mut store = ListStore::new(alloc);
    let mut index = KeyIndex::new(alloc);
    let writes = store.begin()?;
    let asks = store.begin()?;
    let written = with_first(alloc, 1)?;
    let entered = with_first(alloc, 1)?;
    let made = match store.write(writes, 0, TABLE, None, Some(written)) {
        Ok(made) => made,
        Err(_) => return Err(AllocError),
    };
    index.enter(TABLE, made, writes, Some(entered))?;
    Ok(
        one_is(alloc, &store, &index, asks.0, 1, Wanted::Held(0, &[0]))?
            && one_is(alloc, &store, &index, writes.0, 1, Wanted::Taken(0, 0))?
            && one_is(alloc, &store, &index, asks.0, 2, Wanted::Free)?,
    )
}

#[test]
fn values_that_enter_are_found(rt: HostRuntime) {
    holds(
        &rt,
        at_last!(entered_values_are_found(rt.alloc())),
        "entered values",
    );
}
