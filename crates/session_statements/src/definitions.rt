//! CREATE TABLE and DROP TABLE (PostgreSQL manual, the pages of both).

ghost use Rattle.std.specs.Prelude.{◌≡◌, Some, None, true, map, IfOk, OnErr};
ghost use Rattle.sql_trees.specs.Statements.{create_of, drop_of, name_of, Create};
ghost use Rattle.session_machine.specs.Tables.{find_table};
ghost use Rattle.session_statements.specs.Inner.Going.{drop_reaches};
ghost use Rattle.session_statements.specs.Inner.Keeping.{IsRunning};
ghost use Rattle.session_statements.specs.Inner.Left.{left};
ghost use Rattle.session_machine.specs.Statements.{drop_tables, Surroundings as SurroundingsFacts};
ghost use Rattle.session_machine.specs.Running.{run_in};
ghost use Rattle.session_machine.specs.Inner.Pieces.{dropped};

use crate::effect::Effect;
use crate::transactions::fail;
use iso_lexer::{Ident, Name};
use row_versions::Versions;
use session_database::Database;
use session_machine::{OpenTransaction, StmtFault, Transaction};
use sql_trees::{CreateTable, DropTable};
use std::alloc::AllocError;

/// CREATE TABLE: the table is there for its own transaction at once.
pub(crate) fn create<'a, 't, V: Versions>(
    db: &mut Database<'a, 't, V>,
    by: &OpenTransaction,
    made: &'a CreateTable<'t>,
) -> Result<Effect<'t>, AllocError>
    requires running { IsRunning db.old by.now }
    ensures did { (around : SurroundingsFacts) → IfOk result (λ did. run_in db.old by.now around (Create (create_of made.now)) ≡ left db.new did) }
    ensures memory { OnErr result (find_table db.old (Some by.now.tx) (name_of made.now.name) ≡ None) }
{
    if db.find_table(Some(by.tx), &made.name).is_some() {
        return Ok(fail(db, by, StmtFault::TableExists(Ident::new(made.name))));
    }
    let after = db.after_query(by);
    db.add_table(made, by.tx)?;
    Ok(Effect::turned(Transaction::Open(after)))
}

/// Drops one table after the other, up to the first that isn't there, which it answers; with IF EXISTS none is missed.
fn drop_all<'a, 't, V: Versions>(
    db: &mut Database<'a, 't, V>,
    by: &OpenTransaction,
    if_exists: bool,
    names: &'a [Name<'t>],
) -> Result<Option<Ident<'t>>, AllocError>
    ensures dropped { IfOk result (λ missing. dropped db.old by.now if_exists (map name_of names.now) ≡ record { db = db.new; missing = missing }) }
    ensures content { IfOk result (λ missing. db.new.content ≡ db.old.content) }
    ensures memory { OnErr result (drop_reaches db.old by.now if_exists (map name_of names.now) ≡ true) }
{
    for name in names {
        match db.find_table(Some(by.tx), name) {
            Some(place) => db.add_drop(place, by.tx)?,
            None => {
                if !if_exists {
                    return Ok(Some(Ident::new(*name)));
                }
            }
        }
    }
    Ok(None)
}

/// DROP TABLE: the tables are gone for their own transaction at once. Where it comes to none it takes no memory.
pub(crate) fn drop_tables<'a, 't, V: Versions>(
    db: &mut Database<'a, 't, V>,
    by: &OpenTransaction,
    stmt: &'a DropTable<'t>,
) -> Result<Effect<'t>, AllocError>
    requires running { IsRunning db.old by.now }
    ensures did { IfOk result (λ did. drop_tables db.old by.now (drop_of stmt.now).if_exists (drop_of stmt.now).names ≡ left db.new did) }
    ensures memory { OnErr result (drop_reaches db.old by.now (drop_of stmt.now).if_exists (drop_of stmt.now).names ≡ true) }
{
    let after = db.after_query(by);
    match drop_all(db, by, stmt.if_exists, stmt.names.as_slice())? {
        Some(name) => Ok(fail(db, by, StmtFault::NoTableToDrop(name))),
        None => Ok(Effect::turned(Transaction::Open(after))),
    }
}
