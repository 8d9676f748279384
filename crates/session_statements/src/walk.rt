//! How a statement goes from one of its targets to the next, up to the one at which it stops.

ghost use Rattle.std.specs.Prelude.{◌≡◌, List, Some, drop, option_map, IfOk, OnOk};
ghost use Rattle.sql_trees.specs.Statements.{items_of};
ghost use Rattle.sql_values.specs.declared.value.Value.{Value as SqlValue};
ghost use Rattle.row_versions.specs.Log.{Content, IsOpen};
ghost use Rattle.session_machine.specs.declared.reply.Outcome.{Outcome as OutcomeFacts};
ghost use Rattle.session_machine.specs.Transactions.{started};
ghost use Rattle.session_machine.specs.Walks.{Blocked};
ghost use Rattle.session_machine.specs.Tables.{Database as DatabaseFacts};
ghost use Rattle.session_machine.specs.Rows.{columns_in};
ghost use Rattle.session_machine.specs.Inner.Statements.{answer, after_walk, pauses, walked};
ghost use Rattle.session_statements.specs.Inner.Acting.{halted_walk, items_in, visit_at};
ghost use Rattle.session_statements.specs.Inner.Keeping.{IsAtWork, IsKept, RowsIn};
ghost use Rattle.session_statements.specs.Inner.Kept.{HasKept};
ghost use Rattle.session_statements.specs.Inner.Left.{left};

use crate::act::{Act, Halt, Visited};
use crate::effect::Effect;
use crate::returning::answer;
use crate::settle::visit;
use crate::transactions::fail;
use row_versions::{Seen, TableId, Versions};
use session_database::{Database, Stop, Work};
use session_machine::{
    Gathered, OpenTransaction, Outcome, Paused, Progress, Request, Transaction, Waiting,
};
use sql_trees::Item;
use sql_values::Row;
use std::alloc::{AllocError, Global};

/// Visits one target after the other, from this place on, and appends what is answered for them.
pub(crate) fn walk<'a, 't, V: Versions>(
    db: &mut Database<'a, 't, V>,
    work: &Work<'_>,
    act: &Act<'_, 'a, 't>,
    targets: &[Seen],
    place: usize,
    rows: &mut Vec<Row>,
) -> Result<Option<Halt<'t>>, AllocError>
    requires work { IsAtWork db.old work.now }
    requires its { RowsIn db.old.content work.now.table targets.now }
    ensures walk { (before : Content) (outcome : List (List SqlValue) → OutcomeFacts) → IfOk result (λ halt.
        after_walk before work.now outcome (walked (visit_at work.now act.now) db.old place rows.old.items (drop place targets.now))
        ≡ halted_walk before work.now outcome db.new rows.new.items halt) }
    ensures kept { OnOk result (IsKept db.old db.new) }
{
    for at in place..targets.len() {
        match visit(db, work, act, &targets[at])? {
            Visited::Passes => {}
            Visited::Shows(row) => rows.push(row)?,
            Visited::Stops(stop) => return Ok(Some(Halt { place: at, stop })),
        }
    }
    Ok(None)
}

/// The statement waits at a target.
fn pause<'t>(
    alloc: Global,
    work: &Work<'_>,
    begun: OpenTransaction,
    place: usize,
    request: Request,
    rows: Vec<Row>,
    targets: Vec<Seen>,
) -> Result<Effect<'t>, AllocError>
    ensures pauses { (before : Content) (db : DatabaseFacts) → begun ≡ started before work.now.t → IfOk result (λ did.
        pauses before work.now (record { db = db; place = place; rows = rows.items; stop = Some (Blocked request) }) request ≡ left db did) }
    ensures kept { IfOk result (λ did. HasKept work.now targets.items did.statement did.targets) }
{
    let around = work.around;
    let progress = Progress {
        table: TableId(work.place as u64),
        view: work.view,
        place,
        rows: Gathered::of(rows),
        wait: Waiting {
            number: around.number,
            request,
        },
    };
    Ok(Effect {
        transaction: Transaction::Open(begun),
        statement: Some(Paused::new(alloc, progress)?),
        targets: Some(targets),
        outcome: Outcome::Waits,
    })
}

/// The statement waits where it halted, or fails.
fn halt<'a, 't, V: Versions>(
    db: &mut Database<'a, 't, V>,
    work: &Work<'_>,
    halted: Halt<'t>,
    rows: Vec<Row>,
    targets: Vec<Seen>,
) -> Result<Effect<'t>, AllocError>
    requires opened { IsOpen db.old.content work.now.t.tx }
    ensures did { (before : Content) (outcome : List (List SqlValue) → OutcomeFacts) → before.fates ≡ db.old.content.fates → IfOk result (λ did.
        halted_walk before work.now outcome db.old rows.items (Some halted.entry) ≡ left db.new did) }
    ensures kept { IfOk result (λ did. HasKept work.now targets.items did.statement did.targets) }
{
    let Halt { place, stop } = halted;
    match stop {
        Stop::Blocked(request) => {
            let begun = db.started(&work.by);
            pause(db.alloc(), work, begun, place, request, rows, targets)
        }
        Stop::Fails(fault) => Ok(fail(db, &work.by, fault)),
    }
}

/// A statement with these items has gone over these targets, or halted at one. No transaction has ended since it began.
pub(crate) fn end<'a, 't, V: Versions>(
    db: &mut Database<'a, 't, V>,
    work: &Work<'_>,
    items: Option<&Vec<Item<'t>>>,
    halted: Option<Halt<'t>>,
    rows: Vec<Row>,
    targets: Vec<Seen>,
) -> Result<Effect<'t>, AllocError>
    requires work { IsAtWork db.old work.now }
    ensures did { (before : Content) → before.fates ≡ db.old.content.fates → IfOk result (λ did.
        halted_walk before work.now (answer (columns_in db.old work.now) (option_map (λ is. items_of is.now) items.entry)) db.old rows.items halted.entry ≡ left db.new did) }
    ensures kept { IfOk result (λ did. HasKept work.now targets.items did.statement did.targets) }
{
    match halted {
        None => {
            let after = db.after_query(&work.by);
            let outcome = answer(db.alloc(), db.columns_in(work), items, rows)?;
            Ok(Effect::of(Transaction::Open(after), outcome))
        }
        Some(at) => halt(db, work, at, rows, targets),
    }
}

/// A statement goes over these targets, from this place on, and keeps them where it waits.
pub(crate) fn go_over<'a, 't, V: Versions>(
    db: &mut Database<'a, 't, V>,
    work: &Work<'_>,
    act: &Act<'_, 'a, 't>,
    targets: Vec<Seen>,
    place: usize,
    rows: Vec<Row>,
) -> Result<Effect<'t>, AllocError>
    requires work { IsAtWork db.old work.now }
    requires its { RowsIn db.old.content work.now.table targets.items }
    ensures did { IfOk result (λ did.
        after_walk db.old.content work.now (answer (columns_in db.old work.now) (items_in act.now))
        (walked (visit_at work.now act.now) db.old place rows.items (drop place targets.items)) ≡ left db.new did) }
    ensures kept { IfOk result (λ did. HasKept work.now targets.items did.statement did.targets) }
{
    let mut answered = rows;
    let halted = walk(db, work, act, &targets, place, &mut answered)?;
    end(db, work, act.items(), halted, answered, targets)
}
