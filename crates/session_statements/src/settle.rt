//! One target: settled, and then acted on.

ghost use Rattle.std.specs.Prelude.{◌≡◌, ◌<◌, length, map, IfOk, OnOk};
ghost use Rattle.sql_trees.specs.Statements.{column_of, delete_of};
ghost use Rattle.query_results.specs.Queries.{cols_of};
ghost use Rattle.update_recheck.specs.Asked.{Fits};
ghost use Rattle.update_recheck.specs.Outcome.{target_outcome};
ghost use Rattle.update_recheck.specs.Settling.{outcome_of};
ghost use Rattle.session_machine.specs.Waits.{waits_in};
ghost use Rattle.session_machine.specs.Rows.{columns_in, values_of};
ghost use Rattle.session_machine.specs.Inner.Statements.{at_outcome, delete_with, settled};
ghost use Rattle.session_statements.specs.Inner.Acting.{act_with, asked_at, strength_in, table_in, visit_at, visit_of};
ghost use Rattle.session_statements.specs.Inner.Keeping.{CanTake, IsAtWork, RowIn};

use crate::act::{Act, Visited};
use crate::lock::lock_with;
use crate::returning::returned;
use crate::update::{update_strength, update_with};
use iso_lexer::Ident;
use row_versions::{Seen, Versions};
use session_database::{Database, Stop, Work};
use session_machine::{Request, StmtFault};
use sql_trees::{Column, Delete, Strength};
use sql_values::Columns;
use std::alloc::AllocError;
use update_recheck::laws::{outcomes_by_what_is_held, waits_matter_to_the_blocked};
use update_recheck::{Ask, Settled};

/// The columns as expressions know them.
#[tactic(auto, using(session_queries::proofs::ColumnLists::known_columns))]
fn known<'a>(columns: &'a [Column<'a>]) -> Columns<'a>
    ensures { result ≡ cols_of (map column_of columns.now) }
{
    Columns::of(columns)
}

/// How strongly the statement wants the target's row at present.
fn strength_at<'a, 't, V: Versions>(
    db: &Database<'a, 't, V>,
    work: &Work<'_>,
    act: &Act<'_, 'a, 't>,
    seen: &Seen,
) -> Result<Strength, AllocError>
    requires work { IsAtWork db.now work.now }
    requires its { RowIn db.now.content work.now.table seen.now.row }
    ensures { IfOk result (λ strength. strength ≡ strength_in db.now work.now act.now seen.now.row) }
{
    match act {
        Act::Update(stmt, to) => update_strength(db, work, stmt, to, seen),
        Act::Delete(_) => Ok(Strength::Update),
        Act::Lock(_, lock) => Ok(lock.strength),
    }
}

/// Settles the target, which is wanted this strongly, by the locks that are held and the waits of the present state.
fn settle_target<'a, 't, V: Versions>(
    db: &mut Database<'a, 't, V>,
    work: &Work<'_>,
    act: &Act<'_, 'a, 't>,
    seen: &Seen,
    strength: Strength,
) -> Result<Settled<'t>, AllocError>
    requires within { work.now.table < length db.old.catalog.tables }
    requires fits { Fits db.old.content (asked_at db.old work.now act.now strength seen.now) }
    ensures outcome { IfOk result (λ s. outcome_of s
        ≡ target_outcome db.old.content db.old.held (waits_in db.old work.now.around.sessions) (asked_at db.old work.now act.now strength seen.now)) }
    ensures locks { OnOk result (db.new ≡ settled db.old work.now (asked_at db.old work.now act.now strength seen.now)) }
{
    let policy = act.policy();
    let waits = db.waits_at(work, seen.row, strength, policy)?;
    let columns = known(db.columns_in(work));
    let ask = Ask {
        tx: work.by.tx,
        level: work.by.level,
        view: work.view,
        seen: *seen,
        strength,
        policy,
        filter: act.filter(),
        cols: &columns,
    };
    outcomes_by_what_is_held();
    waits_matter_to_the_blocked();
    db.settle_ask(&waits, &ask)
}

/// The fault of a row of the statement's table that others hold.
fn not_free<'t>(act: &Act<'_, '_, 't>) -> StmtFault<'t>
    ensures { result ≡ StmtFault.NotFree (table_in act.now) }
{
    StmtFault::NotFree(Ident::new(act.table()))
}

/// What is done at a target that was asked for this strongly, and came to this.
fn at_outcome<'a, 't, V: Versions>(
    db: &mut Database<'a, 't, V>,
    work: &Work<'_>,
    act: &Act<'_, 'a, 't>,
    seen: &Seen,
    strength: Strength,
    settled: Settled<'t>,
) -> Result<Visited<'t>, AllocError>
    requires work { IsAtWork db.old work.now }
    requires takes { CanTake db.old work.now (outcome_of settled) }
    ensures { IfOk result (λ v. at_outcome (table_in act.now) (act_with work.now act.now) db.old (asked_at db.old work.now act.now strength seen.now) (outcome_of settled.entry) ≡ visit_of db.new v) }
{
    match settled {
        Settled::Take(version) => act_with(db, work, act, &version),
        Settled::Skip => Ok(Visited::Passes),
        Settled::Wait(_blockers) => Ok(Visited::Stops(Stop::Blocked(Request::Row {
            row: seen.row,
            strength,
        }))),
        Settled::Deadlock => Ok(Visited::Stops(Stop::Fails(StmtFault::Deadlock))),
        Settled::NotFree => Ok(Visited::Stops(Stop::Fails(not_free(act)))),
        Settled::Serialize => Ok(Visited::Stops(Stop::Fails(StmtFault::NotSerializable))),
        Settled::Fault(fault) => Ok(Visited::Stops(Stop::Fails(StmtFault::Value(fault)))),
    }
}

/// The target is settled first, as strongly as the statement wants its row now, and then acted on.
pub(crate) fn visit<'a, 't, V: Versions>(
    db: &mut Database<'a, 't, V>,
    work: &Work<'_>,
    act: &Act<'_, 'a, 't>,
    seen: &Seen,
) -> Result<Visited<'t>, AllocError>
    requires work { IsAtWork db.old work.now }
    requires its { RowIn db.old.content work.now.table seen.now.row }
    ensures { IfOk result (λ v. visit_at work.now act.now db.old seen.now ≡ visit_of db.new v) }
{
    let strength = strength_at(db, work, act, seen)?;
    let settled = settle_target(db, work, act, seen, strength)?;
    at_outcome(db, work, act, seen, strength, settled)
}

/// DELETE (PostgreSQL manual, its page): the row is gone from here on. RETURNING answers the version that was taken.
fn delete_with<'a, 't, V: Versions>(
    db: &mut Database<'a, 't, V>,
    work: &Work<'_>,
    stmt: &Delete<'t>,
    version: &Seen,
) -> Result<Visited<'t>, AllocError>
    requires work { IsAtWork db.old work.now }
    requires even { length (values_of db.old version.now) ≡ length (columns_in db.old work.now) }
    ensures { IfOk result (λ v. delete_with work.now (delete_of stmt.now) db.old version.now ≡ visit_of db.new v) }
{
    let answer = returned(db, work, &stmt.returning, db.row_of(version))?;
    db.write_row(work, version.row, None)?;
    Ok(answer)
}

/// What the statement does with the version that a target takes.
fn act_with<'a, 't, V: Versions>(
    db: &mut Database<'a, 't, V>,
    work: &Work<'_>,
    act: &Act<'_, 'a, 't>,
    version: &Seen,
) -> Result<Visited<'t>, AllocError>
    requires work { IsAtWork db.old work.now }
    requires even { length (values_of db.old version.now) ≡ length (columns_in db.old work.now) }
    ensures { IfOk result (λ v. act_with work.now act.now db.old version.now ≡ visit_of db.new v) }
{
    match act {
        Act::Update(stmt, to) => update_with(db, work, stmt, to, version),
        Act::Delete(stmt) => delete_with(db, work, stmt, version),
        Act::Lock(stmt, _) => lock_with(db, work, stmt, version),
    }
}
