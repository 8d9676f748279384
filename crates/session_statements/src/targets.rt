//! The targets of a statement: the versions that its view shows and that it is about.

ghost use Rattle.std.specs.Prelude.{◌≡◌, ℕ, [], ◌∷◌, List, Result, filter_map, slice_get, option_map, IfOk};
ghost use Rattle.sql_trees.specs.Trees.{tree_of};
ghost use Rattle.sql_trees.specs.Statements.{select_of, stmt_of};
ghost use Rattle.sql_values.specs.declared.fault.ValueFault.{ValueFault as ValueFaultFacts};
ghost use Rattle.session_machine.specs.Inner.Statements.{assigned_to};
ghost use Rattle.session_machine.specs.Targets.{at_places, passing_targets, taken_targets};
ghost use Rattle.session_queries.specs.Code.Fronts.{AnswersList};
ghost use Rattle.session_statements.specs.Inner.Keeping.{IsAtWork};
ghost use Rattle.session_statements.specs.Targets.{targets_of};

use iso_lexer::Ident;
use row_versions::{Seen, Versions};
use session_database::{Database, Work};
use session_queries::{AssignedColumns, passing_places, taken_places};
use sql_trees::{Expr, Select, Stmt};
use sql_values::ValueFault;
use std::alloc::{AllocError, Global};

/// The columns that values go to; none where one isn't there.
pub(crate) fn all_or_none(
    alloc: Global,
    found: Result<AssignedColumns, Ident<'_>>,
) -> AssignedColumns
    ensures { result ≡ assigned_to found.entry }
{
    match found {
        Ok(to) => to,
        Err(_) => AssignedColumns::none(alloc),
    }
}

/// The version at this place, if there is one, as a slice.
fn one_at(seen: &[Seen], place: usize) -> &[Seen]
    ensures { result.now ≡ filter_map (slice_get seen.now) (place ∷ []) }
{
    match seen.get(place) {
        Some(one) => std::slice::from_ref(one),
        None => &[],
    }
}

/// The versions at these places.
fn picked(alloc: Global, seen: &[Seen], places: &[usize]) -> Result<Vec<Seen>, AllocError>
    ensures { IfOk result (λ picked. picked.items ≡ filter_map (slice_get seen.now) places.now) }
{
    let mut picked = Vec::new(alloc);
    for place in places {
        picked.extend_from_slice(one_at(seen, *place))?;
    }
    Ok(picked)
}

/// The versions at the places that a query picks, or its fault.
fn at_places<'t>(
    alloc: Global,
    seen: &[Seen],
    places: Result<Vec<usize>, ValueFault<'t>>,
) -> Result<Vec<Seen>, ValueFault<'t>>
    ensures { (answer : Result (List ℕ) ValueFaultFacts) → AnswersList places.entry answer → AnswersList result (at_places seen.now answer) }
{
    let places = places?;
    Ok(picked(alloc, seen, &places)?)
}

/// The targets of an UPDATE or DELETE with this WHERE.
fn passing_targets<'a, 't, V: Versions>(
    db: &Database<'a, 't, V>,
    work: &Work<'_>,
    filter: &Option<Expr<'t>>,
) -> Result<Vec<Seen>, ValueFault<'t>>
    requires work { IsAtWork db.now work.now }
    ensures { AnswersList result (passing_targets db.now work.now (option_map tree_of filter.now)) }
{
    let seen = db.seen_by(work)?;
    let rows = db.values_of(&seen)?;
    let places = passing_places(db.alloc(), filter, db.columns_in(work), &rows);
    at_places(db.alloc(), &seen, places)
}

/// The targets of a locking SELECT, as ORDER BY sorts them.
fn taken_targets<'a, 't, V: Versions>(
    db: &Database<'a, 't, V>,
    work: &Work<'_>,
    stmt: &Select<'t>,
) -> Result<Vec<Seen>, ValueFault<'t>>
    requires work { IsAtWork db.now work.now }
    ensures { AnswersList result (taken_targets db.now work.now (select_of stmt.now)) }
{
    let seen = db.seen_by(work)?;
    let rows = db.values_of(&seen)?;
    let places = taken_places(db.alloc(), stmt, db.columns_in(work), &rows);
    at_places(db.alloc(), &seen, places)
}

/// The targets of a statement at work, those that it has none of as none.
pub(crate) fn targets_of<'a, 't, V: Versions>(
    db: &Database<'a, 't, V>,
    work: &Work<'_>,
    stmt: &Stmt<'t>,
) -> Result<Vec<Seen>, ValueFault<'t>>
    requires work { IsAtWork db.now work.now }
    ensures { AnswersList result (targets_of db.now work.now (stmt_of stmt.now)) }
{
    match stmt {
        Stmt::Update(update) => passing_targets(db, work, &update.filter),
        Stmt::Delete(delete) => passing_targets(db, work, &delete.filter),
        Stmt::Select(select) => match select.lock {
            Some(_) => taken_targets(db, work, select),
            None => Ok(Vec::new(db.alloc())),
        },
        _ => Ok(Vec::new(db.alloc())),
    }
}
