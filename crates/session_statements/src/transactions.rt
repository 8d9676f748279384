//! How a statement ends its transaction, or goes on in it.

ghost use Rattle.std.specs.Prelude.{◌≡◌, ◌≢◌, Option, is_some, IfOk, OnOk, OnErr};
ghost use Rattle.sql_trees.specs.Statements.{stmt_of};
ghost use Rattle.row_versions.specs.Log.{IsOpen};
ghost use Rattle.session_machine.specs.Tables.{Database as DatabaseFacts};
ghost use Rattle.session_statements.specs.Inner.Left.{left};
ghost use Rattle.session_machine.specs.declared.session.Progress.{Progress as ProgressFacts};
ghost use Rattle.session_machine.specs.Statements.{fails, level_set, Surroundings as SurroundingsFacts};
ghost use Rattle.session_machine.specs.Running.{run_stmt};
ghost use Rattle.session_machine.specs.Inner.Statements.{after_failure, is_level, begin_in};

use crate::effect::Effect;
use crate::insert::fault_of;
use iso_lexer::Ident;
use row_versions::Versions;
use session_database::Database;
use session_machine::{OpenTransaction, Outcome, StmtFault, Transaction};
use sql_trees::{Level, Stmt};
use sql_values::ValueFault;
use std::alloc::AllocError;

fn same_level(a: Level, b: Level) -> bool
    ensures { result ≡ is_level a b }
{
    match (a, b) {
        (Level::ReadCommitted, Level::ReadCommitted) => true,
        (Level::RepeatableRead, Level::RepeatableRead) => true,
        _ => false,
    }
}

/// What is left of a transaction in which a statement failed.
fn after_failure(by: &OpenTransaction) -> Transaction
    ensures { result ≡ after_failure by.now }
{
    if by.explicit {
        Transaction::Aborted
    } else {
        Transaction::Closed
    }
}

/// Whether the transaction had a query, so that its level stays as it is.
fn has_query(by: &OpenTransaction) -> bool
    ensures { result ≡ is_some by.now.snapshot }
{
    by.snapshot.is_some()
}

/// The statement failed: its transaction is undone.
pub(crate) fn fail<'a, 't, V: Versions>(
    db: &mut Database<'a, 't, V>,
    by: &OpenTransaction,
    fault: StmtFault<'t>,
) -> Effect<'t>
    requires { IsOpen db.old.content by.now.tx }
    ensures { fails db.old by.now fault.entry ≡ left db.new result }
{
    db.roll_back(by.tx);
    Effect::of(after_failure(by), Outcome::Failed(fault))
}

/// The statement fails by the fault of a value, unless that is want of memory.
pub(crate) fn fail_value<'a, 't, V: Versions>(
    db: &mut Database<'a, 't, V>,
    by: &OpenTransaction,
    fault: ValueFault<'t>,
) -> Result<Effect<'t>, AllocError>
    requires { IsOpen db.old.content by.now.tx }
    ensures did { IfOk result (λ did. fails db.old by.now (StmtFault.Value fault.entry) ≡ left db.new did) }
    ensures other { OnOk result (fault.entry ≢ ValueFault.Memory) }
    ensures memory { OnErr result (fault.entry ≡ ValueFault.Memory) }
{
    let fault = fault_of(fault)?;
    Ok(fail(db, by, fault))
}

/// The level is set before the transaction's first query, or stays.
pub(crate) fn set_level<'a, 't, V: Versions>(
    db: &mut Database<'a, 't, V>,
    by: &OpenTransaction,
    explicit: bool,
    level: Level,
) -> Effect<'t>
    requires { IsOpen db.old.content by.now.tx }
    ensures { level_set db.old by.now explicit level ≡ left db.new result }
{
    if has_query(by) && !same_level(by.level, level) {
        return fail(db, by, StmtFault::LevelTooLate);
    }
    let open = OpenTransaction {
        tx: by.tx,
        explicit,
        level,
        snapshot: by.snapshot,
        command: by.command,
    };
    Effect::turned(Transaction::Open(open))
}

/// BEGIN in an open transaction.
pub(crate) fn begin_again<'a, 't, V: Versions>(
    db: &mut Database<'a, 't, V>,
    by: &OpenTransaction,
    level: Option<Level>,
) -> Effect<'t>
    requires { IsOpen db.old.content by.now.tx }
    ensures { begin_in db.old by.now level ≡ left db.new result }
{
    if by.explicit {
        return Effect::turned(Transaction::Open(*by));
    }
    set_level(db, by, true, level.unwrap_or(by.level))
}

/// A statement in an aborted transaction, which changes nothing of the database.
pub(crate) fn run_aborted<'t>(stmt: &Stmt<'_>) -> Effect<'t>
    ensures { (db : DatabaseFacts) (statement : Option ProgressFacts) (around : SurroundingsFacts) → run_stmt db Transaction.Aborted statement around (stmt_of stmt.now) ≡ left db result }
{
    match stmt {
        Stmt::Commit | Stmt::Rollback => Effect::turned(Transaction::Closed),
        _ => Effect::of(Transaction::Aborted, Outcome::Failed(StmtFault::Aborted)),
    }
}
