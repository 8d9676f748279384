//! A statement, by what its session's transaction is.

ghost use Rattle.std.specs.Prelude.{◌≡◌, ◌+◌, ◌<◌, ◌^◌, Option, Some, length, true, false, IfOk, OnErr};
ghost use Rattle.sql_trees.specs.Statements.{stmt_of};
ghost use Rattle.row_versions.specs.Log.{IsOpen};
ghost use Rattle.session_machine.specs.declared.session.OpenTransaction.{OpenTransaction as OpenFacts};
ghost use Rattle.session_machine.specs.Transactions.{fresh};
ghost use Rattle.session_machine.specs.declared.session.Progress.{Progress as ProgressFacts};
ghost use Rattle.session_machine.specs.Statements.{turns};
ghost use Rattle.session_machine.specs.Running.{run_in, run_stmt};
ghost use Rattle.session_machine.specs.Inner.Statements.{begun};
ghost use Rattle.session_machine.specs.Sound.{RowsFit, RowsStay};
ghost use Rattle.session_machine.specs.Targets.{going_on};
ghost use Rattle.session_statements.specs.Inner.Keeping.{IsAtWork, IsOrderly, IsRunning};
ghost use Rattle.session_statements.specs.Inner.Left.{left};
ghost use Rattle.session_statements.specs.Growing.{begins, is_query, may_grow};
ghost use Rattle.session_statements.specs.Targets.{AreKept, AreTargets};

use crate::begin::{begin_at, go_on, has_targets};
use crate::definitions::{create, drop_tables};
use crate::effect::Effect;
use crate::select::select_constant;
use crate::transactions::{begin_again, run_aborted, set_level};
use row_versions::{Seen, Versions};
use session_database::{Database, Surroundings, Work};
use session_machine::{OpenTransaction, Paused, Progress, Transaction};
use sql_trees::{Level, Stmt};
use sql_values::Row;
use std::alloc::AllocError;

/// What a statement that waits has answered so far.
fn rows_so_far(progress: Progress) -> Vec<Row>
    ensures { result.items ≡ progress.rows }
{
    progress.rows.into_rows()
}

/// A statement of an open transaction.
fn run_open<'a, 't, V: Versions>(
    db: &mut Database<'a, 't, V>,
    by: &OpenTransaction,
    around: &Surroundings<'_>,
    stmt: &'a Stmt<'t>,
) -> Result<Effect<'t>, AllocError>
    requires running { IsRunning db.old by.now }
    ensures did { IfOk result (λ did.
        run_in db.old by.now around.now (stmt_of stmt.now)
        ≡ left db.new did) }
    ensures kept { IfOk result (λ did. AreKept db.old (stmt_of stmt.now) did.statement did.targets) }
    ensures memory { OnErr result (is_query (stmt_of stmt.now) ≡ true) }
{
    match stmt {
        Stmt::Begin(level) => Ok(begin_again(db, by, *level)),
        Stmt::Commit => {
            db.commit(by.tx);
            Ok(Effect::turned(Transaction::Closed))
        }
        Stmt::Rollback => {
            db.roll_back(by.tx);
            Ok(Effect::turned(Transaction::Closed))
        }
        Stmt::SetTransaction(level) => Ok(set_level(db, by, by.explicit, *level)),
        Stmt::CreateTable(made) => create(db, by, made),
        Stmt::DropTable(drop) => drop_tables(db, by, drop),
        Stmt::SetDeadlockTimeout => Ok(Effect::turned(Transaction::Open(*by))),
        Stmt::Insert(insert) => begin_at(db, by, around, insert.table, stmt),
        Stmt::Update(update) => begin_at(db, by, around, update.table, stmt),
        Stmt::Delete(delete) => begin_at(db, by, around, delete.table, stmt),
        Stmt::Select(select) => match select.table {
            Some(name) => begin_at(db, by, around, name, stmt),
            None => select_constant(db, by, select),
        },
    }
}

/// An implicit transaction begins, and the statement is its first.
fn run_first<'a, 't, V: Versions>(
    db: &mut Database<'a, 't, V>,
    around: &Surroundings<'_>,
    stmt: &'a Stmt<'t>,
) -> Result<Effect<'t>, AllocError>
    requires orderly { IsOrderly db.old }
    ensures did { IfOk result (λ did.
        run_in (begun db.old) (fresh db.old.content Level.ReadCommitted false) around.now (stmt_of stmt.now)
        ≡ left db.new did) }
    ensures kept { IfOk result (λ did. AreKept db.old (stmt_of stmt.now) did.statement did.targets) }
{
    let open = db.begin(Level::ReadCommitted, false)?;
    run_open(db, &open, around, stmt)
}

/// A transaction begins, and nothing else is done.
fn begin_one<'a, 't, V: Versions>(
    db: &mut Database<'a, 't, V>,
    level: Level,
    explicit: bool,
) -> Result<Effect<'t>, AllocError>
    ensures { IfOk result (λ did.
        turns (begun db.old) (Transaction.Open (fresh db.old.content level explicit))
        ≡ left db.new did) }
{
    let open = db.begin(level, explicit)?;
    Ok(Effect::turned(Transaction::Open(open)))
}

/// A statement where no transaction is open.
fn run_closed<'a, 't, V: Versions>(
    db: &mut Database<'a, 't, V>,
    around: &Surroundings<'_>,
    stmt: &'a Stmt<'t>,
) -> Result<Effect<'t>, AllocError>
    requires orderly { IsOrderly db.old }
    ensures did { (statement : Option ProgressFacts) → IfOk result (λ did.
        run_stmt db.old Transaction.Closed statement around.now (stmt_of stmt.now)
        ≡ left db.new did) }
    ensures kept { IfOk result (λ did. AreKept db.old (stmt_of stmt.now) did.statement did.targets) }
    ensures memory { OnErr result (begins (stmt_of stmt.now) ≡ true) }
{
    match stmt {
        Stmt::Begin(level) => begin_one(db, level.unwrap_or(Level::ReadCommitted), true),
        Stmt::SetTransaction(level) => begin_one(db, *level, false),
        Stmt::Commit | Stmt::Rollback | Stmt::SetDeadlockTimeout => {
            Ok(Effect::turned(Transaction::Closed))
        }
        _ => run_first(db, around, stmt),
    }
}

/// A statement that goes on where it waits, over the targets that were kept.
fn run_on<'a, 't, V: Versions>(
    db: &mut Database<'a, 't, V>,
    by: &OpenTransaction,
    around: &Surroundings<'_>,
    progress: Progress,
    targets: Vec<Seen>,
    stmt: &'a Stmt<'t>,
) -> Result<Effect<'t>, AllocError>
    requires work { IsAtWork db.old (going_on by.now around.now progress) }
    requires kept { AreTargets db.old (stmt_of stmt.now) progress targets.items }
    ensures did { IfOk result (λ did. run_stmt db.old (Transaction.Open by.now) (Some progress) around.now (stmt_of stmt.now) ≡ left db.new did) }
    ensures kept { IfOk result (λ did. AreKept db.old (stmt_of stmt.now) did.statement did.targets) }
    ensures memory { OnErr result (is_query (stmt_of stmt.now) ≡ true) }
{
    let place = progress.place;
    let work = Work {
        by: *by,
        place: progress.table.0 as usize,
        view: progress.view,
        around,
    };
    if !has_targets(stmt) {
        return run_open(db, by, around, stmt);
    }
    go_on(db, &work, stmt, targets, place, rows_so_far(progress))
}

/// Runs a statement of a session whose transaction is the given one, or goes on with it where it waits, over the
/// targets that it has kept, and answers what is left of that, with what came of the statement. One that waits is
/// left with its targets: those of the state in which it began or went on. Where memory is refused nothing is said of
/// the database.
pub fn run_statement<'a, 't, V: Versions>(
    db: &mut Database<'a, 't, V>,
    transaction: &Transaction,
    statement: Option<Paused>,
    targets: Option<Vec<Seen>>,
    around: &Surroundings<'_>,
    stmt: &'a Stmt<'t>,
) -> Result<Effect<'t>, AllocError>
    requires opened { (t : OpenFacts) → transaction.now ≡ Transaction.Open t → IsOpen db.old.content t.tx }
    requires room { (t : OpenFacts) → transaction.now ≡ Transaction.Open t → t.command + 1 < 2 ^ 64 }
    requires fit { RowsFit db.old.content db.old.catalog }
    requires stay { RowsStay db.old.content }
    requires within { (p : ProgressFacts) → statement ≡ Some p → p.table.0 < length db.old.catalog.tables }
    requires kept { AreKept db.old (stmt_of stmt.now) statement targets }
    ensures did { IfOk result (λ did. run_stmt db.old transaction.now statement around.now (stmt_of stmt.now)
        ≡ record { db = db.new; transaction = did.transaction; statement = did.statement; outcome = did.outcome }) }
    ensures kept { IfOk result (λ did. AreKept db.old (stmt_of stmt.now) did.statement did.targets) }
    ensures memory { OnErr result (may_grow transaction.now (stmt_of stmt.now) ≡ true) }
{
    match transaction {
        Transaction::Closed => run_closed(db, around, stmt),
        Transaction::Open(by) => match (statement, targets) {
            (Some(paused), Some(targets)) => {
                run_on(db, by, around, paused.into_progress(), targets, stmt)
            }
            (Some(_), None) => unreachable!(),
            (None, _) => run_open(db, by, around, stmt),
        },
        Transaction::Aborted => Ok(run_aborted(stmt)),
    }
}
