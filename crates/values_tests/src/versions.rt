//! Worked stories of rows, over each store.
ghost use Rattle.std.specs.Prelude.{◌≡◌};
ghost use Rattle.row_versions.specs.Log.{empty_content};

use crate::told::{at_last, holds};
use chain_store::ChainStore;
use row_versions::{ListStore, RowId, Seen, TableId, TxId, Versions, View};
use sql_values::{Row, Value};
use std::alloc::{AllocError, Global};

const TABLE: TableId = TableId(7);

const OTHER: TableId = TableId(8);

fn row_of(alloc: Global, n: i32) -> Result<Row, AllocError> {
    let mut values = Vec::new(alloc);
    values.push(Value::Int(n))?;
    Ok(Row::from_vec(values))
}

fn is_number(row: Option<&Row>, n: i32) -> bool {
    match row {
        Some(row) => match row.values() {
            [Value::Int(found)] => *found == n,
            _ => false,
        },
        None => false,
    }
}

/// A row, its place in the log, and its number.
type Shown = (u64, u64, i32);

fn is_shown<V: Versions>(store: &V, seen: &Seen, shown: &Shown) -> bool {
    seen.row.0 == shown.0 && seen.place == shown.1 && is_number(store.values(seen), shown.2)
}

fn are_shown<V: Versions>(store: &V, rows: &[Seen], shown: &[Shown]) -> bool {
    if rows.len() != shown.len() {
        return false;
    }
    for k in 0..rows.len() {
        if !is_shown(store, &rows[k], &shown[k]) {
            return false;
        }
    }
    true
}

/// What is seen after so many commits, by this command of a transaction or without one, in a table.
type Showing = (u64, Option<(u64, u64)>, TableId, &'static [Shown]);

fn view_of(showing: &Showing) -> View {
    let commits = showing.0;
    match showing.1 {
        Some((tx, command)) => View {
            tx: Some(TxId(tx)),
            commits,
            command,
        },
        None => View {
            tx: None,
            commits,
            command: 0,
        },
    }
}

fn shows<V: Versions>(store: &V, showing: &Showing) -> Result<bool, AllocError> {
    let rows = store.rows(&view_of(showing), showing.2)?;
    Ok(are_shown(store, &rows, showing.3))
}

fn shows_all<V: Versions>(store: &V, showings: &[Showing]) -> Result<bool, AllocError> {
    for showing in showings {
        if !shows(store, showing)? {
            return Ok(false);
        }
    }
    Ok(true)
}

/// The newest version of the row for the transaction stands at this place, if any.
fn newest_is<V: Versions>(store: &V, row: u64, tx: u64, place: Option<u64>) -> bool {
    match (store.newest(RowId(row), TxId(tx)), place) {
        (Some(seen), Some(place)) => seen.place == place,
        (None, None) => true,
        _ => false,
    }
}

/// A write: of this transaction, of this row or a new one, with a number unless it deletes the row.
type Put = (u64, Option<u64>, Option<i32>);

fn put<V: Versions>(alloc: Global, store: &mut V, put: &Put) -> Result<(), AllocError>
    ensures { (V.content store.new).fates ≡ (V.content store.old).fates }
{
    let row = match put.1 {
        Some(row) => Some(RowId(row)),
        None => None,
    };
    let values = match put.2 {
        Some(n) => Some(row_of(alloc, n)?),
        None => None,
    };
    match store.write(TxId(put.0), 0, TABLE, row, values) {
        Ok(_) => Ok(()),
        Err(_) => Err(AllocError),
    }
}

fn put_all<V: Versions>(alloc: Global, store: &mut V, puts: &[Put]) -> Result<(), AllocError>
    ensures { (V.content store.new).fates ≡ (V.content store.old).fates }
{
    for one in puts {
        put(alloc, store, one)?;
    }
    Ok(())
}

const TWO_ROWS: [Put; 2] = [(0, None, Some(10)), (0, None, Some(20))];

/// Nobody sees an open transaction's writes, nor does its own command that made them.
const OPEN: [Showing; 3] = [
    (1, None, TABLE, &[]),
    (0, Some((0, 0)), TABLE, &[]),
    (0, Some((0, 1)), TABLE, &[(0, 0, 10), (1, 1, 20)]),
];

const COMMITTED: [Showing; 3] = [
    (0, None, TABLE, &[]),
    (1, None, TABLE, &[(0, 0, 10), (1, 1, 20)]),
    (1, None, OTHER, &[]),
];

/// Two rows are inserted and committed.
fn inserts<V: Versions>(alloc: Global, store: &mut V) -> Result<bool, AllocError>
    requires { V.content store.old ≡ empty_content }
{
    let maker = store.begin()?;
    put_all(alloc, store, &TWO_ROWS)?;
    let before = shows_all(store, &OPEN)? && !store.has_committed(maker);
    let is_open = store.open_txs() == [maker].as_slice();
    store.commit(maker);
    let after = shows_all(store, &COMMITTED)? && store.has_committed(maker);
    Ok(before && is_open && after && store.open_txs().is_empty() && store.committed() == 1)
}

const UPDATE_AND_DELETE: [Put; 4] = [
    (0, None, Some(10)),
    (0, None, Some(20)),
    (1, Some(0), Some(11)),
    (2, Some(1), None),
];

/// Each sees its own write alone, an updated row where its new version was written.
const OWN: [Showing; 3] = [
    (1, None, TABLE, &[(0, 0, 10), (1, 1, 20)]),
    (1, Some((1, 1)), TABLE, &[(1, 1, 20), (0, 2, 11)]),
    (1, Some((2, 1)), TABLE, &[(0, 0, 10)]),
];

const ENDED: [Showing; 2] = [
    (1, None, TABLE, &[(0, 0, 10), (1, 1, 20)]),
    (2, None, TABLE, &[(0, 0, 10)]),
];

/// While both are open, each has its own write as the newest version. The last write left no values.
fn are_newest<V: Versions>(store: &V) -> bool {
    let gone = Seen {
        row: RowId(1),
        place: 3,
    };
    newest_is(store, 0, 1, Some(2))
        && newest_is(store, 0, 2, Some(0))
        && newest_is(store, 1, 1, Some(1))
        && newest_is(store, 1, 2, Some(3))
        && newest_is(store, 9, 0, None)
        && store.values(&gone).is_none()
}

/// Of two committed rows one transaction updates the first and is rolled back, and another deletes the second and commits.
fn changes<V: Versions>(alloc: Global, store: &mut V) -> Result<bool, AllocError>
    requires { V.content store.old ≡ empty_content }
{
    let maker = store.begin()?;
    let updater = store.begin()?;
    let deleter = store.begin()?;
    put_all(alloc, store, &UPDATE_AND_DELETE)?;
    store.commit(maker);
    let before = shows_all(store, &OWN)? && are_newest(store);
    store.roll_back(updater);
    store.commit(deleter);
    let after = shows_all(store, &ENDED)? && !store.has_committed(updater);
    Ok(before && after && store.committed() == 2)
}

fn inserts_alone(alloc: Global) -> Result<bool, AllocError> {
    inserts(alloc, &mut ListStore::new(alloc))
}

fn changes_alone(alloc: Global) -> Result<bool, AllocError> {
    changes(alloc, &mut ListStore::new(alloc))
}

fn inserts_linked(alloc: Global) -> Result<bool, AllocError> {
    inserts(alloc, &mut ChainStore::new(alloc))
}

fn changes_linked(alloc: Global) -> Result<bool, AllocError> {
    changes(alloc, &mut ChainStore::new(alloc))
}

#[test]
fn inserted_rows_are_seen_once_committed(rt: HostRuntime) {
    holds(&rt, at_last!(inserts_alone(rt.alloc())), "inserts");
    holds(&rt, at_last!(inserts_linked(rt.alloc())), "linked");
}

#[test]
fn open_and_rolled_back_writes_of_others_are_not_seen(rt: HostRuntime) {
    holds(&rt, at_last!(changes_alone(rt.alloc())), "changes");
    holds(&rt, at_last!(changes_linked(rt.alloc())), "linked");
}
