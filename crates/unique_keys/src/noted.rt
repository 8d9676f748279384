//! Writes as the index knows them.
ghost use Rattle.std.specs.Prelude.{◌≡◌};
ghost use Rattle.unique_keys.specs.Keys.{has_key};
ghost use Rattle.unique_keys.specs.Inner.Finding.{agree, are_equal, version_has};
ghost use Rattle.std.specs.List.{slice_get};
ghost use Rattle.std.specs.Option.{option_copied};

use row_versions::{RowId, TableId, TxId};
use sql_values::{Row, Value, compare};

/// A write that was noted: whose it is, of which row, and the values that it gave the row, if it didn't delete it.
#[derive(Drop)]
pub struct Noted {
    pub table: TableId,
    pub row: RowId,
    pub tx: TxId,
    pub values: Option<Row>,
}

/// Whether the rows are equal in the column, as `=` has it.
fn are_equal_at(asked: &[Value], values: &[Value], column: u32) -> bool
    ensures { result ≡ are_equal (slice_get asked.now column) (slice_get values.now column) }
{
    let column = column as usize;
    match (asked.get(column), values.get(column)) {
        (Some(a), Some(b)) => match compare(a, b) {
            Some(order) => order.is_eq(),
            None => false,
        },
        _ => false,
    }
}

fn agree(columns: &[u32], asked: &[Value], values: &[Value]) -> bool
    ensures { result ≡ agree columns.now asked.now values.now }
{
    columns
        .iter()
        .all(|column| are_equal_at(asked, values, *column))
}

/// Whether the write gave its row the key.
#[tactic(auto, using(crate::proofs::Equal::agree_is))]
pub fn has_key(columns: &[u32], asked: &[Value], note: &Noted) -> bool
    ensures { result ≡ has_key columns.now asked.now note.now.values }
{
    match &note.values {
        Some(row) => agree(columns, asked, row.values()),
        None => false,
    }
}

/// Whether the write, if there is one, gave its row the key.
pub fn version_has(columns: &[u32], asked: &[Value], note: Option<&Noted>) -> bool
    ensures { result ≡ version_has columns.now asked.now (option_copied note.entry) }
{
    match note {
        Some(note) => has_key(columns, asked, note),
        None => false,
    }
}
