//! Calls that may want memory, on lists of many lengths: where memory is ample each succeeds, however long the list is.
ghost use Rattle.std.specs.Prelude.{◌≡◌};

use crate::sorting::{ASCENDING, is_order};
use crate::summing::gives_of;
use crate::told::{at_last, holds};
use chain_store::ChainStore;
use iso_lexer::Name;
use query_results::{ResultSet, Title};
use row_versions::{ListStore, RowId, TableId, TxId, Versions, View};
use sql_trees::{Agg, AggKind, Expr, Operator};
use sql_values::{Columns, Row, Value, ValueFault, eval};
use std::alloc::{AllocError, Global};
use unique_keys::{Check, Found, KeyIndex, TableKeys};

/// How long the lists are.
const SIZES: [u32; 8] = [0, 1, 5, 9, 41, 101, 1_001, 5_001];

const TABLE: TableId = TableId(7);

/// What is called, and of what there are so many.
#[derive(Clone, Copy)]
enum Call {
    /// `eval`, of letters of a string.
    Literal,
    /// `eval`, of letters of two strings that are joined.
    Joined,
    /// `eval`, of items of IN.
    Listed,
    /// `order`, of rows.
    Sorted,
    /// `aggregate`, of rows.
    Summed,
    /// `Row::copied`, of values.
    RowCopied,
    /// `ResultSet::copied`, of columns.
    ResultCopied,
    /// `write` and `rows`, of rows.
    Rows,
    /// The same by the store that links versions.
    LinkedRows,
    /// `write` without values, of rows.
    Deleted,
    /// The same by the store that links versions.
    LinkedDeleted,
    /// `begin`, `note` and `find`, of transactions that hold a key.
    Holders,
    /// The same over the store that links versions.
    LinkedHolders,
    /// `check`, of keys of a table.
    Keys,
    /// `check`, of columns of a key.
    KeyColumns,
}

const CALLS: [(Call, &'static str); 15] = [
    (Call::Literal, "a string"),
    (Call::Joined, "joined strings"),
    (Call::Listed, "a list"),
    (Call::Sorted, "sorted rows"),
    (Call::Summed, "summed rows"),
    (Call::RowCopied, "a row's copy"),
    (Call::ResultCopied, "a result's copy"),
    (Call::Rows, "rows of a table"),
    (Call::LinkedRows, "linked rows of a table"),
    (Call::Deleted, "deleted rows"),
    (Call::LinkedDeleted, "deleted rows that are linked"),
    (Call::Holders, "holders of a key"),
    (Call::LinkedHolders, "holders of a key over linked rows"),
    (Call::Keys, "keys of a table"),
    (Call::KeyColumns, "columns of a key"),
];

/// The value at a row without columns.
fn constant(alloc: Global, expr: &Expr<'_>) -> Result<Option<Value>, AllocError> {
    let cols = Columns::of(&[]);
    let row = Row::from_vec(Vec::new(alloc));
    if row.values().len() != cols.len() {
        return Ok(None);
    }
    match eval(alloc, expr, &cols, &row) {
        Ok(value) => Ok(Some(value)),
        Err(ValueFault::Memory) => Err(AllocError),
        Err(_) => Ok(None),
    }
}

fn letters(alloc: Global, size: u32) -> Result<String, AllocError> {
    let mut text = String::new(alloc);
    for _ in 0..size {
        text.push('a')?;
    }
    Ok(text)
}

/// Whether it is a text of so many letters.
fn is_long(value: &Option<Value>, long: usize) -> bool {
    match value {
        Some(Value::Text(text)) => text.as_str().len() == long,
        _ => false,
    }
}

fn literal(alloc: Global, size: u32) -> Result<bool, AllocError> {
    let text = letters(alloc, size)?;
    let value = constant(alloc, &Expr::Text(text.as_str()))?;
    Ok(is_long(&value, size as usize))
}

fn joined(alloc: Global, size: u32) -> Result<bool, AllocError> {
    let text = letters(alloc, size)?;
    let left = Box::new(alloc, Expr::Text(text.as_str()))?;
    let right = Box::new(alloc, Expr::Text(text.as_str()))?;
    let value = constant(alloc, &Expr::Binary(Operator::Concat, left, right))?;
    Ok(is_long(&value, text.len() + text.len()))
}

fn whole<'a>(n: u32) -> Expr<'a> {
    Expr::Number {
        negative: false,
        digits: n as u64,
    }
}

/// Whether the number behind the last is none of them.
fn listed(alloc: Global, size: u32) -> Result<bool, AllocError> {
    let mut items = Vec::new(alloc);
    for n in 0..size {
        items.push(whole(n))?;
    }
    let asked = Box::new(alloc, whole(size))?;
    let value = constant(alloc, &Expr::In(asked, false, items))?;
    Ok(matches!(value, Some(Value::Bool(false))))
}

/// A row of so many ones.
fn ones(alloc: Global, size: u32) -> Result<Row, AllocError> {
    let mut values = Vec::new(alloc);
    for _ in 0..size {
        values.push(Value::Int(1))?;
    }
    Ok(Row::from_vec(values))
}

fn one(alloc: Global, n: i32) -> Result<Row, AllocError> {
    let mut values = Vec::new(alloc);
    values.push(Value::Int(n))?;
    Ok(Row::from_vec(values))
}

/// Rows of one number each, from the last place down to 0.
fn falling(alloc: Global, size: u32) -> Result<Vec<Row>, AllocError> {
    let mut rows = Vec::new(alloc);
    for n in 0..size {
        let left = size.saturating_sub(n).saturating_sub(1);
        match i32::try_from(left) {
            Ok(left) => rows.push(one(alloc, left)?)?,
            Err(_) => return Err(AllocError),
        }
    }
    Ok(rows)
}

/// Their places, from the last to the first.
fn places(alloc: Global, size: u32) -> Result<Vec<usize>, AllocError> {
    let mut places = Vec::new(alloc);
    for n in 0..size {
        places.push(size.saturating_sub(n).saturating_sub(1) as usize)?;
    }
    Ok(places)
}

fn sorted(alloc: Global, size: u32) -> Result<bool, AllocError> {
    let rows = falling(alloc, size)?;
    let wanted = places(alloc, size)?;
    is_order(alloc, &rows, &[ASCENDING], &wanted)
}

/// The sums of the numbers below the sizes.
fn sum_below(size: u32) -> &'static str {
    match size {
        0 => "NULL",
        1 => "bigint 0",
        5 => "bigint 10",
        9 => "bigint 36",
        41 => "bigint 820",
        101 => "bigint 5050",
        1_001 => "bigint 500500",
        _ => "bigint 12502500",
    }
}

fn summed(alloc: Global, size: u32) -> Result<bool, AllocError> {
    let rows = falling(alloc, size)?;
    let agg = Agg::Of(AggKind::Sum, Expr::Column(Name::Folded("x")));
    gives_of(alloc, &agg, &rows, sum_below(size))
}

fn row_copied(alloc: Global, size: u32) -> Result<bool, AllocError> {
    let row = ones(alloc, size)?;
    let copy = row.copied(alloc)?;
    Ok(copy.same(&row) && copy.values().len() == size as usize)
}

fn unnamed<'a>(alloc: Global, size: usize) -> Result<Vec<Title<'a>>, AllocError> {
    let mut titles = Vec::new(alloc);
    for _ in 0..size {
        titles.push(Title::Unnamed)?;
    }
    Ok(titles)
}

fn result_copied(alloc: Global, size: u32) -> Result<bool, AllocError> {
    let titles = unnamed(alloc, size as usize)?;
    let set = ResultSet::new(titles, Vec::new(alloc));
    Ok(set.copied(alloc)?.titles().len() == size as usize)
}

/// The transaction writes a new row of that number, and it is noted.
fn write_one<V: Versions>(
    alloc: Global,
    store: &mut V,
    index: &mut KeyIndex,
    keys: &TableKeys,
    tx: TxId,
) -> Result<(), AllocError> {
    let noted = one(alloc, 1)?;
    let Ok(row) = store.write(tx, 0, TABLE, None, Some(one(alloc, 1)?)) else {
        return Err(AllocError);
    };
    index.note(keys, row, tx, Some(&noted))
}

/// Keys on the columns at each of these places.
fn keys_on(alloc: Global, count: u32, columns: u32) -> Result<TableKeys, AllocError> {
    let mut keys = Vec::new(alloc);
    for _ in 0..count {
        let mut places = Vec::new(alloc);
        for place in 0..columns {
            places.push(place)?;
        }
        keys.push(places)?;
    }
    Ok(TableKeys { table: TABLE, keys })
}

/// So many transactions have each written a row of 1.
fn written<V: Versions>(alloc: Global, store: &mut V, size: u32) -> Result<KeyIndex, AllocError> {
    let keys = keys_on(alloc, 1, 1)?;
    let mut index = KeyIndex::new(alloc);
    for _ in 0..size {
        let tx = store.begin()?;
        write_one(alloc, store, &mut index, &keys, tx)?;
    }
    Ok(index)
}

/// A transaction sees all rows that it has written.
fn rows_are_shown<V: Versions>(
    alloc: Global,
    store: &mut V,
    size: u32,
) -> Result<bool, AllocError> {
    let tx = store.begin()?;
    for _ in 0..size {
        let Ok(_row) = store.write(tx, 0, TABLE, None, Some(one(alloc, 1)?)) else {
            return Err(AllocError);
        };
    }
    let view = View {
        tx: Some(tx),
        commits: 0,
        command: 1,
    };
    let rows = store.rows(&view, TABLE)?;
    Ok(rows.len() == size as usize)
}

/// The transaction writes a row, and then deletes it.
fn write_and_delete<V: Versions>(alloc: Global, store: &mut V, tx: TxId) -> Result<(), AllocError> {
    let Ok(row) = store.write(tx, 0, TABLE, None, Some(one(alloc, 1)?)) else {
        return Err(AllocError);
    };
    match store.write(tx, 1, TABLE, Some(row), None) {
        Ok(_) => Ok(()),
        Err(_) => Err(AllocError),
    }
}

/// A transaction sees none of the rows that it has deleted.
fn rows_are_gone<V: Versions>(alloc: Global, store: &mut V, size: u32) -> Result<bool, AllocError> {
    let tx = store.begin()?;
    for _ in 0..size {
        write_and_delete(alloc, store, tx)?;
    }
    let view = View {
        tx: Some(tx),
        commits: 0,
        command: 2,
    };
    let rows = store.rows(&view, TABLE)?;
    Ok(rows.is_empty())
}

fn all_hold<V: Versions>(alloc: Global, store: &mut V, size: u32) -> Result<bool, AllocError> {
    let index = written(alloc, store, size)?;
    let asked = one(alloc, 1)?;
    let asks = TxId(size as u64);
    Ok(
        match index.find(store, TABLE, &[0], asked.values(), asks, None)? {
            Found::Free => size == 0,
            Found::Taken(_) => false,
            Found::Held(by) => by.len() == size as usize,
        },
    )
}

/// All keys are free where nothing is written.
fn are_free(alloc: Global, keys: &TableKeys, asked: &Row) -> Result<bool, AllocError> {
    let store = ListStore::new(alloc);
    let index = KeyIndex::new(alloc);
    let all = keys.keys.as_slice();
    if all.len() > 5_001 {
        return Ok(false);
    }
    let found = index.check(&store, keys, asked, TxId(0), Some(RowId(0)))?;
    Ok(matches!(found, Check::Free))
}

fn keys_are_free(alloc: Global, size: u32) -> Result<bool, AllocError> {
    are_free(alloc, &keys_on(alloc, size, 1)?, &ones(alloc, 1)?)
}

fn columns_are_free(alloc: Global, size: u32) -> Result<bool, AllocError> {
    are_free(alloc, &keys_on(alloc, 1, size)?, &ones(alloc, size)?)
}

fn succeeds(alloc: Global, call: Call, size: u32) -> Result<bool, AllocError> {
    match call {
        Call::Literal => literal(alloc, size),
        Call::Joined => joined(alloc, size),
        Call::Listed => listed(alloc, size),
        Call::Sorted => sorted(alloc, size),
        Call::Summed => summed(alloc, size),
        Call::RowCopied => row_copied(alloc, size),
        Call::ResultCopied => result_copied(alloc, size),
        Call::Rows => rows_are_shown(alloc, &mut ListStore::new(alloc), size),
        Call::LinkedRows => rows_are_shown(alloc, &mut ChainStore::new(alloc), size),
        Call::Deleted => rows_are_gone(alloc, &mut ListStore::new(alloc), size),
        Call::LinkedDeleted => rows_are_gone(alloc, &mut ChainStore::new(alloc), size),
        Call::Holders => all_hold(alloc, &mut ListStore::new(alloc), size),
        Call::LinkedHolders => all_hold(alloc, &mut ChainStore::new(alloc), size),
        Call::Keys => keys_are_free(alloc, size),
        Call::KeyColumns => columns_are_free(alloc, size),
    }
}

#[test]
fn each_call_succeeds_at_each_size(rt: HostRuntime) {
    for (call, name) in CALLS {
        for size in SIZES {
            holds(&rt, at_last!(succeeds(rt.alloc(), call, size)), name);
        }
    }
}
