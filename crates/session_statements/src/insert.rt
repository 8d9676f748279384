//! INSERT (PostgreSQL manual, its page).

ghost use Rattle.std.specs.Prelude.{◌≡◌, ◌≢◌, ◌<◌, List, Ok, drop, length, map, option_map, IfOk, OnOk, OnErr};
ghost use Rattle.sql_trees.specs.Trees.{tree_of};
ghost use Rattle.sql_trees.specs.Statements.{column_of, exprs_of, insert_of, names_of, Inserts};
ghost use Rattle.sql_values.specs.Values.{Answers};
ghost use Rattle.sql_values.specs.declared.fault.ValueFault.TheVariants.{Memory};
ghost use Rattle.sql_values.specs.declared.value.Value.{Value as SqlValue};
ghost use Rattle.row_versions.specs.Log.{Content};
ghost use Rattle.query_results.specs.Queries.{columns_assigned, new_values};
ghost use Rattle.session_machine.specs.declared.reply.Outcome.{Outcome as OutcomeFacts};
ghost use Rattle.session_machine.specs.Rows.{columns_in};
ghost use Rattle.session_machine.specs.Inner.Statements.{insert_one, assigned_to, after_walk, put_insert, walked};
ghost use Rattle.session_machine.specs.Inner.Pieces.{insert_made};
ghost use Rattle.session_statements.specs.Inner.Acting.{halted_walk, putting_of, visit_of};
ghost use Rattle.session_statements.specs.Inner.Going.{go_from};
ghost use Rattle.session_statements.specs.Inner.Keeping.{IsAtWork, IsKept};
ghost use Rattle.session_statements.specs.Inner.Kept.{HasKept};
ghost use Rattle.session_statements.specs.Inner.Left.{left};

use crate::act::{Halt, Putting, Visited};
use crate::checks::met_before_write;
use crate::effect::Effect;
use crate::returning::returned;
use crate::targets::all_or_none;
use crate::walk::end;
use iso_lexer::Name;
use row_versions::{Seen, Versions};
use session_database::{Database, Stop, Work};
use session_machine::StmtFault;
use session_queries::{AssignedColumns, columns_assigned, new_values};
use sql_trees::{Column, Expr, Insert};
use sql_values::{Row, ValueFault};
use std::alloc::{AllocError, Global};

/// The statement's fault, where it isn't want of memory.
pub(crate) fn fault_of<'t>(fault: ValueFault<'t>) -> Result<StmtFault<'t>, AllocError>
    ensures fault { IfOk result (λ f. f ≡ StmtFault.Value fault.entry) }
    ensures other { IfOk result (λ f. fault.entry ≢ Memory) }
    ensures memory { OnErr result (fault.entry ≡ Memory) }
{
    match fault {
        ValueFault::Memory => Err(AllocError),
        other => Ok(StmtFault::Value(other)),
    }
}

/// The columns that values go to, where all are there.
fn inserted_to<'t>(
    alloc: Global,
    columns: &[Column<'_>],
    names: Option<&Vec<Name<'t>>>,
) -> Result<AssignedColumns, AllocError>
    ensures { IfOk result (λ to. to ≡ assigned_to (columns_assigned (map column_of columns.now) (option_map (λ ns. names_of ns.now) names.entry))) }
{
    let found = columns_assigned(alloc, columns, names)?;
    Ok(all_or_none(alloc, found))
}

/// A new row has these values. What RETURNING answers for it is worked out before the store takes them; a fault in that
/// still comes behind the write.
fn insert_made<'a, 't, V: Versions>(
    db: &mut Database<'a, 't, V>,
    work: &Work<'_>,
    put: &Putting<'_, 't>,
    values: Row,
) -> Result<Visited<'t>, AllocError>
    requires work { IsAtWork db.old work.now }
    requires even { length values ≡ length (columns_in db.old work.now) }
    ensures { IfOk result (λ v. insert_made work.now (putting_of put.now) db.old (Ok values) ≡ visit_of db.new v) }
{
    if let Some(met) = met_before_write(db, work, put, &values, None)? {
        return Ok(Visited::at_key(met));
    }
    let answer = returned(db, work, put.returning, &values)?;
    db.add_row(work, values)?;
    Ok(answer)
}

/// A row of the VALUES, assigned to its columns.
fn inserted<'a, 't, V: Versions>(
    db: &Database<'a, 't, V>,
    work: &Work<'_>,
    to: &AssignedColumns,
    row: &[Expr<'t>],
) -> Result<Row, ValueFault<'t>>
    requires within { work.now.table < length db.now.catalog.tables }
    ensures values { Answers result (new_values (length (columns_in db.now work.now)) to.now (map tree_of row.now)) }
    ensures even { IfOk result (λ values. length values ≡ length (columns_in db.now work.now)) }
{
    new_values(db.alloc(), db.columns_in(work).len(), to, row)
}

/// One row is evaluated, assigned, checked and written.
fn insert_row<'a, 't, V: Versions>(
    db: &mut Database<'a, 't, V>,
    work: &Work<'_>,
    stmt: &Insert<'t>,
    to: &AssignedColumns,
    row: &[Expr<'t>],
) -> Result<Visited<'t>, AllocError>
    requires work { IsAtWork db.old work.now }
    ensures { IfOk result (λ v. insert_one work.now (put_insert (insert_of stmt.now)) to.now db.old (map tree_of row.now) ≡ visit_of db.new v) }
{
    match inserted(db, work, to, row) {
        Ok(values) => insert_made(db, work, &Putting::of_insert(stmt), values),
        Err(fault) => {
            let fault = fault_of(fault)?;
            Ok(Visited::Stops(Stop::Fails(fault)))
        }
    }
}

/// Writes one row of the VALUES after the other, from this place on, and appends what is answered for them.
fn insert_rows<'a, 't, V: Versions>(
    db: &mut Database<'a, 't, V>,
    work: &Work<'_>,
    stmt: &'a Insert<'t>,
    to: &AssignedColumns,
    place: usize,
    rows: &mut Vec<Row>,
) -> Result<Option<Halt<'t>>, AllocError>
    requires work { IsAtWork db.old work.now }
    ensures walk { (before : Content) (outcome : List (List SqlValue) → OutcomeFacts) → IfOk result (λ halt.
        after_walk before work.now outcome (walked (insert_one work.now (put_insert (insert_of stmt.now)) to.now) db.old place rows.old.items (drop place (map exprs_of stmt.now.rows.items)))
        ≡ halted_walk before work.now outcome db.new rows.new.items halt) }
    ensures kept { OnOk result (IsKept db.old db.new) }
{
    for at in place..stmt.rows.len() {
        match insert_row(db, work, stmt, to, &stmt.rows[at])? {
            Visited::Passes => {}
            Visited::Shows(row) => rows.push(row)?,
            Visited::Stops(stop) => return Ok(Some(Halt { place: at, stop })),
        }
    }
    Ok(None)
}

/// INSERT, from this place among the rows of its VALUES on; it has no targets besides.
pub(crate) fn insert_from<'a, 't, V: Versions>(
    db: &mut Database<'a, 't, V>,
    work: &Work<'_>,
    stmt: &'a Insert<'t>,
    targets: Vec<Seen>,
    place: usize,
    rows: Vec<Row>,
) -> Result<Effect<'t>, AllocError>
    requires work { IsAtWork db.old work.now }
    ensures did { IfOk result (λ did. go_from db.old work.now (Inserts (insert_of stmt.now)) place rows.items ≡ left db.new did) }
    ensures kept { IfOk result (λ did. HasKept work.now targets.items did.statement did.targets) }
{
    let mut answered = rows;
    let to = inserted_to(db.alloc(), db.columns_in(work), stmt.columns.as_ref())?;
    let halted = insert_rows(db, work, stmt, &to, place, &mut answered)?;
    end(db, work, stmt.returning.as_ref(), halted, answered, targets)
}
