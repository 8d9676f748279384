//! A statement over a table: it begins at the table that its name means, and goes over its targets there.

ghost use Rattle.std.specs.Prelude.{◌≡◌, [], Some, Ok, true, IfOk, OnErr};
ghost use Rattle.sql_trees.specs.Statements.{name_of, stmt_of};
ghost use Rattle.session_machine.specs.Tables.{find_table};
ghost use Rattle.session_machine.specs.Running.{begin_at};
ghost use Rattle.session_statements.specs.Inner.Going.{go_from, has_targets, reaches};
ghost use Rattle.session_statements.specs.Inner.Keeping.{IsAtWork, IsRunning};
ghost use Rattle.session_statements.specs.Inner.Left.{left};
ghost use Rattle.session_statements.specs.Targets.{AreKept, targets_of};

use crate::act::Act;
use crate::effect::Effect;
use crate::faults::fault_in;
use crate::insert::insert_from;
use crate::select::select_rows;
use crate::targets::targets_of;
use crate::transactions::{fail, fail_value};
use crate::update::update_from;
use crate::walk::go_over;
use iso_lexer::{Ident, Name};
use row_versions::{Seen, Versions};
use session_database::{Database, Surroundings, Work};
use session_machine::{OpenTransaction, StmtFault, Transaction};
use sql_trees::Stmt;
use sql_values::Row;
use std::alloc::AllocError;

/// Whether the statement goes over targets, in the middle of which it may wait.
pub(crate) fn has_targets(stmt: &Stmt<'_>) -> bool
    ensures { result ≡ has_targets (stmt_of stmt.now) }
{
    match stmt {
        Stmt::Insert(_) | Stmt::Update(_) | Stmt::Delete(_) => true,
        Stmt::Select(select) => select.lock.is_some(),
        _ => false,
    }
}

/// The statement goes over these targets, which are its own, from this place on; one that has none answers at once.
pub(crate) fn go_on<'a, 't, V: Versions>(
    db: &mut Database<'a, 't, V>,
    work: &Work<'_>,
    stmt: &'a Stmt<'t>,
    targets: Vec<Seen>,
    place: usize,
    rows: Vec<Row>,
) -> Result<Effect<'t>, AllocError>
    requires work { IsAtWork db.old work.now }
    requires targets { targets_of db.old work.now (stmt_of stmt.now) ≡ Ok targets.items }
    ensures did { IfOk result (λ did. go_from db.old work.now (stmt_of stmt.now) place rows.items ≡ left db.new did) }
    ensures kept { IfOk result (λ did. AreKept db.old (stmt_of stmt.now) did.statement did.targets) }
{
    match stmt {
        Stmt::Insert(insert) => insert_from(db, work, insert, targets, place, rows),
        Stmt::Update(update) => update_from(db, work, update, targets, place, rows),
        Stmt::Delete(delete) => go_over(db, work, &Act::Delete(delete), targets, place, rows),
        Stmt::Select(select) => match select.lock {
            Some(lock) => go_over(db, work, &Act::Lock(select, lock), targets, place, rows),
            None => select_rows(db, work, select),
        },
        _ => Ok(Effect::turned(Transaction::Open(db.after_query(&work.by)))),
    }
}

/// The statement begins at its table: its targets are those of now.
fn start<'a, 't, V: Versions>(
    db: &mut Database<'a, 't, V>,
    work: &Work<'_>,
    stmt: &'a Stmt<'t>,
) -> Result<Effect<'t>, AllocError>
    requires work { IsAtWork db.old work.now }
    ensures did { IfOk result (λ did. go_from db.old work.now (stmt_of stmt.now) 0 [] ≡ left db.new did) }
    ensures kept { IfOk result (λ did. AreKept db.old (stmt_of stmt.now) did.statement did.targets) }
{
    match targets_of(db, work, stmt) {
        Ok(targets) => go_on(db, work, stmt, targets, 0, Vec::new(db.alloc())),
        Err(fault) => fail_value(db, &work.by, fault),
    }
}

/// The statement begins at the table that the name means, in the view of now. It fails where the name means none, or
/// where something is wrong with the statement; of one that assigns no column that takes no memory.
pub(crate) fn begin_at<'a, 't, V: Versions>(
    db: &mut Database<'a, 't, V>,
    by: &OpenTransaction,
    around: &Surroundings<'_>,
    name: Name<'t>,
    stmt: &'a Stmt<'t>,
) -> Result<Effect<'t>, AllocError>
    requires running { IsRunning db.old by.now }
    ensures did { IfOk result (λ did. begin_at db.old by.now around.now (name_of name.entry) (stmt_of stmt.now) ≡ left db.new did) }
    ensures kept { IfOk result (λ did. AreKept db.old (stmt_of stmt.now) did.statement did.targets) }
    ensures memory { OnErr result (reaches db.old (stmt_of stmt.now) (find_table db.old (Some by.now.tx) (name_of name.entry)) ≡ true) }
{
    let Some(place) = db.find_table(Some(by.tx), &name) else {
        return Ok(fail(db, by, StmtFault::NoTable(Ident::new(name))));
    };
    if let Some(fault) = fault_in(db.alloc(), db.columns(place), stmt)? {
        return Ok(fail(db, by, fault));
    }
    let work = db.work(by, place, around);
    start(db, &work, stmt)
}
