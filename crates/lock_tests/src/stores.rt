//! Stores with one row that was changed in some way. Run also with `rt try --test --fail-alloc N` for each N: a call
//! that was refused is made again, and has to succeed then.
ghost use Rattle.std.specs.Prelude.{◌≡◌, IfOk};
ghost use Rattle.row_versions.specs.Log.{after_begin, next_tx};

use row_versions::{ListStore, RowId, TableId, TxId, Versions};
use sql_values::{Row, Value};
use std::alloc::{AllocError, Global};
use std::test::Fail;

pub const TABLE: TableId = TableId(1);

pub const ROW: RowId = RowId(0);

pub const ASKER: TxId = TxId(1);

/// What became of the row after the view was taken.
#[derive(Clone, Copy)]
pub enum Change {
    Unchanged,
    RolledBack,
    Newer,
    Gone,
    Own,
}

fn row_of(alloc: Global, n: i32) -> Result<Row, AllocError> {
    let mut values = Vec::new(alloc);
    values.push(Value::Int(n))?;
    Ok(Row::from_vec(values))
}

/// A row of one number.
fn number(alloc: Global, n: i32) -> Result<Option<Row>, Fail> {
    match row_of(alloc, n) {
        Ok(row) => Ok(Some(row)),
        Err(_) => Ok(Some(row_of(alloc, n)?)),
    }
}

fn begin<V: Versions>(store: &mut V) -> Result<TxId, Fail>
    ensures next { IfOk result (λ tx. tx ≡ next_tx (V.content store.old)) }
    ensures ok { IfOk result (λ tx. V.content store.new ≡ after_begin (V.content store.old)) }
{
    match store.begin() {
        Ok(tx) => Ok(tx),
        Err(_) => Ok(store.begin()?),
    }
}

/// Writes the row, or without values deletes it.
fn write<V: Versions>(
    store: &mut V,
    tx: TxId,
    row: Option<RowId>,
    values: Option<Row>,
) -> Result<(), Fail>
    ensures { (V.content store.new).fates ≡ (V.content store.old).fates }
{
    match store.write(tx, 0, TABLE, row, values) {
        Ok(_) => Ok(()),
        Err(back) => match store.write(tx, 0, TABLE, row, back) {
            Ok(_) => Ok(()),
            Err(_) => Err("refused again".into()),
        },
    }
}

/// A row of 10 was committed; the asker's view was taken; then the row was changed: to 20, or deleted.
pub fn changed(alloc: Global, change: Change) -> Result<ListStore, Fail> {
    let mut store = ListStore::new(alloc);
    let maker = begin(&mut store)?;
    let asker = begin(&mut store)?;
    let other = begin(&mut store)?;
    write(&mut store, maker, None, number(alloc, 10)?)?;
    store.commit(maker);
    match change {
        Change::Unchanged => {}
        Change::RolledBack => {
            write(&mut store, other, Some(ROW), number(alloc, 20)?)?;
            store.roll_back(other);
        }
        Change::Newer => {
            write(&mut store, other, Some(ROW), number(alloc, 20)?)?;
            store.commit(other);
        }
        Change::Gone => {
            write(&mut store, other, Some(ROW), None)?;
            store.commit(other);
        }
        Change::Own => write(&mut store, asker, Some(ROW), number(alloc, 20)?)?,
    }
    Ok(store)
}
