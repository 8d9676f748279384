//! UPDATE (PostgreSQL manual, its page).

ghost use Rattle.std.specs.Prelude.{◌≡◌, ◌<◌, Ok, length, map, IfOk};
ghost use Rattle.sql_trees.specs.Statements.{column_of, set_of, update_of, Updates};
ghost use Rattle.query_results.specs.Updates.{columns_set, updated};
ghost use Rattle.sql_values.specs.Values.{Answers};
ghost use Rattle.session_machine.specs.Rows.{cols_in, columns_in, update_strength, values_of};
ghost use Rattle.session_machine.specs.Inner.Statements.{update_with, assigned_to};
ghost use Rattle.session_machine.specs.Inner.Pieces.{update_made};
ghost use Rattle.session_machine.specs.Targets.{passing_targets};
ghost use Rattle.session_statements.specs.Inner.Acting.{putting_of, visit_of};
ghost use Rattle.session_statements.specs.Inner.Going.{go_from};
ghost use Rattle.session_statements.specs.Inner.Keeping.{IsAtWork, RowIn};
ghost use Rattle.session_statements.specs.Inner.Kept.{HasKept};
ghost use Rattle.session_statements.specs.Inner.Left.{left};

use crate::act::{Act, Putting, Visited};
use crate::checks::met_before_write;
use crate::effect::Effect;
use crate::insert::fault_of;
use crate::returning::returned;
use crate::targets::all_or_none;
use crate::walk::go_over;
use iso_lexer::Name;
use row_versions::{Seen, Versions};
use session_database::{Database, Stop, Work};
use session_queries::{AssignedColumns, columns_set, leaves_all, updated_values};
use sql_trees::{Column, Expr, Strength, Update};
use sql_values::{Row, ValueFault};
use std::alloc::{AllocError, Global};

/// The columns that are assigned to, where all are there.
fn assigned_to<'t>(
    alloc: Global,
    columns: &[Column<'t>],
    sets: &[(Name<'t>, Expr<'t>)],
) -> Result<AssignedColumns, AllocError>
    ensures { IfOk result (λ to. to ≡ assigned_to (columns_set (map column_of columns.now) (map set_of sets.now))) }
{
    let found = columns_set(alloc, columns, sets)?;
    Ok(all_or_none(alloc, found))
}

/// How strongly the UPDATE wants the target's row at present: by the values of its newest version, all of whose keys it may leave as they are.
pub(crate) fn update_strength<'a, 't, V: Versions>(
    db: &Database<'a, 't, V>,
    work: &Work<'_>,
    stmt: &Update<'t>,
    to: &AssignedColumns,
    seen: &Seen,
) -> Result<Strength, AllocError>
    requires work { IsAtWork db.now work.now }
    requires its { RowIn db.now.content work.now.table seen.now.row }
    ensures { IfOk result (λ strength. strength ≡ update_strength db.now work.now to.now (update_of stmt.now) seen.now.row) }
{
    let Some(newest) = db.newest_values(work, seen.row) else {
        return Ok(Strength::Update);
    };
    let columns = db.columns_in(work);
    let keys = db.keys_in(work);
    let stays = leaves_all(db.alloc(), columns, to, &stmt.sets, keys, newest)?;
    if stays {
        Ok(Strength::NoKeyUpdate)
    } else {
        Ok(Strength::Update)
    }
}

/// What the UPDATE makes of the version.
fn updated<'a, 't, V: Versions>(
    db: &Database<'a, 't, V>,
    work: &Work<'_>,
    stmt: &Update<'t>,
    to: &AssignedColumns,
    version: &Seen,
) -> Result<Row, ValueFault<'t>>
    requires within { work.now.table < length db.now.catalog.tables }
    requires even { length (values_of db.now version.now) ≡ length (columns_in db.now work.now) }
    ensures values { Answers result (updated (cols_in db.now work.now) to.now (map set_of stmt.now.sets.items) (values_of db.now version.now)) }
    ensures even { IfOk result (λ values. length values ≡ length (columns_in db.now work.now)) }
{
    let row = db.row_of(version);
    updated_values(db.alloc(), db.columns_in(work), to, &stmt.sets, row)
}

/// The row has the new values from here on. What RETURNING answers for it is worked out before the store takes them; a
/// fault in that still comes behind the write.
fn update_made<'a, 't, V: Versions>(
    db: &mut Database<'a, 't, V>,
    work: &Work<'_>,
    put: &Putting<'_, 't>,
    version: &Seen,
    values: Row,
) -> Result<Visited<'t>, AllocError>
    requires work { IsAtWork db.old work.now }
    requires even { length values ≡ length (columns_in db.old work.now) }
    ensures { IfOk result (λ v. update_made work.now (putting_of put.now) db.old version.now.row (Ok values) ≡ visit_of db.new v) }
{
    if let Some(met) = met_before_write(db, work, put, &values, Some(version.row))? {
        return Ok(Visited::at_key(met));
    }
    let answer = returned(db, work, put.returning, &values)?;
    db.write_row(work, version.row, Some(values))?;
    Ok(answer)
}

/// The version that a target takes is given its new values.
pub(crate) fn update_with<'a, 't, V: Versions>(
    db: &mut Database<'a, 't, V>,
    work: &Work<'_>,
    stmt: &Update<'t>,
    to: &AssignedColumns,
    version: &Seen,
) -> Result<Visited<'t>, AllocError>
    requires work { IsAtWork db.old work.now }
    requires even { length (values_of db.old version.now) ≡ length (columns_in db.old work.now) }
    ensures { IfOk result (λ v. update_with work.now (update_of stmt.now) to.now db.old version.now ≡ visit_of db.new v) }
{
    match updated(db, work, stmt, to, version) {
        Ok(values) => update_made(db, work, &Putting::of_update(stmt), version, values),
        Err(fault) => {
            let fault = fault_of(fault)?;
            Ok(Visited::Stops(Stop::Fails(fault)))
        }
    }
}

/// UPDATE, from this place among its targets on.
pub(crate) fn update_from<'a, 't, V: Versions>(
    db: &mut Database<'a, 't, V>,
    work: &Work<'_>,
    stmt: &'a Update<'t>,
    targets: Vec<Seen>,
    place: usize,
    rows: Vec<Row>,
) -> Result<Effect<'t>, AllocError>
    requires work { IsAtWork db.old work.now }
    requires targets { passing_targets db.old work.now (update_of stmt.now).filter ≡ Ok targets.items }
    ensures did { IfOk result (λ did. go_from db.old work.now (Updates (update_of stmt.now)) place rows.items ≡ left db.new did) }
    ensures kept { IfOk result (λ did. HasKept work.now targets.items did.statement did.targets) }
{
    let to = assigned_to(db.alloc(), db.columns_in(work), &stmt.sets)?;
    go_over(db, work, &Act::Update(stmt, &to), targets, place, rows)
}
