//! What a statement answers for its rows: RETURNING (PostgreSQL manual, 6.4), and a locking SELECT's items.

ghost use Rattle.std.specs.Prelude.{◌≡◌, ◌<◌, Some, length, map, option_map, is_some, true, IfOk, OnErr};
ghost use Rattle.std.specs.Bool.{OnTrue};
ghost use Rattle.sql_trees.specs.Statements.{column_of, item_of, items_of};
ghost use Rattle.query_results.specs.Results.{IsEven};
ghost use Rattle.session_machine.specs.Tables.{Database as DatabaseFacts};
ghost use Rattle.session_machine.specs.Rows.{columns_in};
ghost use Rattle.session_machine.specs.Inner.Statements.{answer, shows};
ghost use Rattle.session_statements.specs.Inner.Acting.{visit_of};

use crate::act::Visited;
use crate::insert::fault_of;
use query_results::{ResultSet, Title};
use row_versions::Versions;
use session_database::{Database, Stop, Work};
use session_machine::Outcome;
use session_queries::{row_values, titles_of};
use sql_trees::{Column, Item};
use sql_values::Row;
use std::alloc::{AllocError, Global};

/// What the items answer at the row, or their fault.
pub(crate) fn show<'a, 't, V: Versions>(
    db: &Database<'a, 't, V>,
    work: &Work<'_>,
    items: &[Item<'t>],
    row: &Row,
) -> Result<Visited<'t>, AllocError>
    requires within { work.now.table < length db.now.catalog.tables }
    requires even { length row.now ≡ length (columns_in db.now work.now) }
    ensures { (after : DatabaseFacts) → after.catalog ≡ db.now.catalog →
        IfOk result (λ v. shows work.now (Some (map item_of items.now)) after row.now ≡ visit_of after v) }
{
    match row_values(db.alloc(), items, db.columns_in(work), row) {
        Ok(shown) => Ok(Visited::Shows(shown)),
        Err(fault) => {
            let fault = fault_of(fault)?;
            Ok(Visited::Stops(Stop::Fails(fault)))
        }
    }
}

/// What RETURNING answers for the row, if there is one, once the row is written or deleted: the same tables are there then.
pub(crate) fn returned<'a, 't, V: Versions>(
    db: &Database<'a, 't, V>,
    work: &Work<'_>,
    items: &Option<Vec<Item<'t>>>,
    row: &Row,
) -> Result<Visited<'t>, AllocError>
    requires within { work.now.table < length db.now.catalog.tables }
    requires even { length row.now ≡ length (columns_in db.now work.now) }
    ensures shown { (after : DatabaseFacts) → after.catalog ≡ db.now.catalog →
        IfOk result (λ v. shows work.now (option_map items_of items.now) after row.now ≡ visit_of after v) }
    ensures memory { OnErr result (is_some items.now ≡ true) }
{
    match items {
        Some(items) => show(db, work, items, row),
        None => Ok(Visited::Passes),
    }
}

/// Whether each row is as long as the titles.
fn is_even(titles: &[Title<'_>], rows: &[Row]) -> bool
    ensures { OnTrue result (IsEven titles.now rows.now) }
{
    let width = titles.len();
    rows.iter().all(|row| row.values().len() == width)
}

/// The rows under their titles. They are as long as these: those that a statement answered before it waited are
/// looked at again, since nothing is promised of them.
fn result_of<'t>(titles: Vec<Title<'t>>, rows: Vec<Row>) -> Result<ResultSet<'t>, AllocError>
    ensures { IfOk result (λ set. set ≡ record { titles = titles.entry.items; rows = rows.items }) }
{
    if !is_even(&titles, &rows) {
        return Err(AllocError);
    }
    Ok(ResultSet::new(titles, rows))
}

/// What a statement that has come to its end answers: with items these rows, also where there are none.
pub(crate) fn answer<'t>(
    alloc: Global,
    columns: &[Column<'t>],
    items: Option<&Vec<Item<'t>>>,
    rows: Vec<Row>,
) -> Result<Outcome<'t>, AllocError>
    ensures outcome { IfOk result (λ outcome. outcome ≡ answer (map column_of columns.now) (option_map (λ is. items_of is.now) items.entry) rows.items) }
    ensures memory { OnErr result (is_some items.entry ≡ true) }
{
    match items {
        Some(items) => {
            let titles = titles_of(alloc, columns, items)?;
            Ok(Outcome::Rows(result_of(titles, rows)?))
        }
        None => Ok(Outcome::Done),
    }
}
