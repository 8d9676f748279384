//! SELECT (PostgreSQL manual, its page).

ghost use Rattle.std.specs.Prelude.{◌≡◌, [], ◌∷◌, Result, Err, None, IfOk, OnErr};
ghost use Rattle.std.specs.Option.{option_map_or};
ghost use Rattle.sql_trees.specs.Statements.{select_of, Selects};
ghost use Rattle.sql_values.specs.declared.fault.ValueFault.{ValueFault as ValueFaultFacts};
ghost use Rattle.sql_values.specs.Values.{Answers};
ghost use Rattle.query_results.specs.Results.{Results};
ghost use Rattle.query_results.specs.Queries.{result_of};
ghost use Rattle.session_machine.specs.Views.{rows_shown};
ghost use Rattle.session_machine.specs.Rows.{columns_in};
ghost use Rattle.session_machine.specs.Statements.{fails};
ghost use Rattle.session_machine.specs.Running.{at_once, fault_in};
ghost use Rattle.session_machine.specs.Inner.Statements.{answered};
ghost use Rattle.session_statements.specs.Inner.Keeping.{IsAtWork, IsRunning};
ghost use Rattle.session_statements.specs.Inner.Left.{left};

use crate::effect::Effect;
use crate::faults::fault_in_select;
use crate::transactions::{fail, fail_value};
use query_results::ResultSet;
use row_versions::Versions;
use session_database::{Database, Work};
use session_machine::{OpenTransaction, Outcome, Transaction};
use session_queries::result_of;
use sql_trees::Select;
use sql_values::{Row, ValueFault};
use std::alloc::{AllocError, Global};

/// The result of a SELECT without FROM: there is one row, without columns.
fn constant_result<'t>(alloc: Global, stmt: &Select<'t>) -> Result<ResultSet<'t>, ValueFault<'t>>
    ensures { Answers result (result_of (select_of stmt.now) [] ([] ∷ [])) }
{
    let empty = Row::from_vec(Vec::new(alloc));
    result_of(alloc, stmt, &[], &[&empty])
}

/// The result of a SELECT from its table.
fn result_at<'a, 't, V: Versions>(
    db: &Database<'a, 't, V>,
    work: &Work<'_>,
    stmt: &'a Select<'t>,
) -> Result<ResultSet<'t>, ValueFault<'t>>
    requires work { IsAtWork db.now work.now }
    ensures { Answers result (result_of (select_of stmt.now) (columns_in db.now work.now) (rows_shown db.now.content work.now.view work.now.table)) }
{
    let seen = db.seen_by(work)?;
    let rows = db.values_of(&seen)?;
    result_of(db.alloc(), stmt, db.columns_in(work), rows.as_slice())
}

/// The SELECT has this result, or fails.
fn answer<'a, 't, V: Versions>(
    db: &mut Database<'a, 't, V>,
    by: &OpenTransaction,
    made: Result<ResultSet<'t>, ValueFault<'t>>,
) -> Result<Effect<'t>, AllocError>
    requires running { IsRunning db.old by.now }
    ensures did { (due : Result Results ValueFaultFacts) → Answers made.entry due → IfOk result (λ did. answered db.old by.now due ≡ left db.new did) }
    ensures memory { OnErr result (made.entry ≡ Err ValueFault.Memory) }
{
    match made {
        Ok(set) => {
            let after = db.after_query(by);
            Ok(Effect::of(Transaction::Open(after), Outcome::Rows(set)))
        }
        Err(fault) => fail_value(db, by, fault),
    }
}

/// A SELECT that doesn't lock answers at once: what its view shows of its table, or the fault of its first row that has one.
pub(crate) fn select_rows<'a, 't, V: Versions>(
    db: &mut Database<'a, 't, V>,
    work: &Work<'_>,
    stmt: &'a Select<'t>,
) -> Result<Effect<'t>, AllocError>
    requires work { IsAtWork db.old work.now }
    ensures { IfOk result (λ did.
        at_once db.old work.now.t (columns_in db.old work.now) (rows_shown db.old.content work.now.view work.now.table) (Selects (select_of stmt.now)) ≡ left db.new did) }
{
    let made = result_at(db, work, stmt);
    answer(db, &work.by, made)
}

/// A SELECT without FROM. Where something is wrong with it, it takes no memory.
pub(crate) fn select_constant<'a, 't, V: Versions>(
    db: &mut Database<'a, 't, V>,
    by: &OpenTransaction,
    stmt: &'a Select<'t>,
) -> Result<Effect<'t>, AllocError>
    requires running { IsRunning db.old by.now }
    ensures did { IfOk result (λ did.
        option_map_or (fails db.old by.now) (fault_in [] (Selects (select_of stmt.now))) (at_once db.old by.now [] ([] ∷ []) (Selects (select_of stmt.now))) ≡ left db.new did) }
    ensures memory { OnErr result (fault_in [] (Selects (select_of stmt.now)) ≡ None) }
{
    if let Some(fault) = fault_in_select(&[], stmt) {
        return Ok(fail(db, by, fault));
    }
    let made = constant_result(db.alloc(), stmt);
    answer(db, by, made)
}
