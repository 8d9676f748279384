//! What is wrong with a statement over a table, before it looks at any row.

ghost use Rattle.std.specs.Prelude.{◌≡◌, [], true, flat_map, length, map, nat_lt, option_map, Some, None, if◌then◌else◌, IfOk, OnErr};
ghost use Rattle.std.specs.List.{list_any};
ghost use Rattle.std.specs.Option.{option_or};
ghost use Rattle.sql_trees.specs.Statements.{column_of, delete_of, exprs_of, insert_of, items_of, select_of, stmt_of, update_of, Deletes, Inserts, Selects, Updates};
ghost use Rattle.query_results.specs.Queries.{cols_of, returned_exprs};
ghost use Rattle.session_machine.specs.Running.{fault_in, undefined_in};
ghost use Rattle.session_statements.specs.Inner.Going.{assigns};

use iso_lexer::Ident;
use session_machine::StmtFault;
use session_queries::{
    AssignedColumns, columns_assigned, columns_set, some_too_long, undefined_in_delete,
    undefined_in_returning, undefined_in_rows, undefined_in_select, undefined_in_update,
    wrong_position,
};
use sql_trees::{Column, Delete, Insert, Select, Stmt, Update};
use sql_values::ValueFault;
use std::alloc::{AllocError, Global};

/// The fault of a statement that names a column that isn't there.
fn no_column<'t>(name: Ident<'t>) -> StmtFault<'t>
    ensures { result ≡ StmtFault.Value (ValueFault.NoColumn name.entry) }
{
    StmtFault::Value(ValueFault::NoColumn(name))
}

/// An INSERT's VALUES name a column, RETURNING one that isn't there, or a row of VALUES has more of them than there are columns to assign.
fn fault_in_rows<'t>(
    columns: &[Column<'_>],
    to: &AssignedColumns,
    stmt: &Insert<'t>,
) -> Option<StmtFault<'t>>
    ensures { result ≡ option_or (undefined_in [] (flat_map (λ row. row) (map exprs_of stmt.now.rows.items)))
        (option_or (undefined_in (cols_of (map column_of columns.now)) (returned_exprs (option_map items_of stmt.now.returning)))
        (if list_any (λ row. nat_lt (length to.now) (length row)) (map exprs_of stmt.now.rows.items) then Some StmtFault.TooManyValues else None)) }
{
    if let Some(name) = undefined_in_rows(stmt.rows.as_slice()) {
        return Some(no_column(name));
    }
    if let Some(name) = undefined_in_returning(columns, &stmt.returning) {
        return Some(no_column(name));
    }
    if some_too_long(to.len(), stmt.rows.as_slice()) {
        return Some(StmtFault::TooManyValues);
    }
    None
}

fn fault_in_insert<'t>(
    alloc: Global,
    columns: &[Column<'_>],
    stmt: &Insert<'t>,
) -> Result<Option<StmtFault<'t>>, AllocError>
    ensures { IfOk result (λ fault. fault ≡ fault_in (map column_of columns.now) (Inserts (insert_of stmt.now))) }
{
    match columns_assigned(alloc, columns, stmt.columns.as_ref())? {
        Ok(to) => Ok(fault_in_rows(columns, &to, stmt)),
        Err(column) => {
            let table = Ident::new(stmt.table);
            Ok(Some(StmtFault::NoColumnOf { column, table }))
        }
    }
}

fn fault_in_update<'t>(
    alloc: Global,
    columns: &[Column<'_>],
    stmt: &Update<'t>,
) -> Result<Option<StmtFault<'t>>, AllocError>
    ensures { IfOk result (λ fault. fault ≡ fault_in (map column_of columns.now) (Updates (update_of stmt.now))) }
{
    if let Err(column) = columns_set(alloc, columns, &stmt.sets)? {
        let table = Ident::new(stmt.table);
        return Ok(Some(StmtFault::NoColumnOf { column, table }));
    }
    match undefined_in_update(columns, stmt) {
        Some(name) => Ok(Some(no_column(name))),
        None => Ok(None),
    }
}

fn fault_in_delete<'t>(columns: &[Column<'_>], stmt: &Delete<'t>) -> Option<StmtFault<'t>>
    ensures { result ≡ fault_in (map column_of columns.now) (Deletes (delete_of stmt.now)) }
{
    match undefined_in_delete(columns, stmt) {
        Some(name) => Some(no_column(name)),
        None => None,
    }
}

/// A SELECT names a column that isn't there, or sorts by a position that isn't there.
pub(crate) fn fault_in_select<'t>(
    columns: &[Column<'_>],
    stmt: &Select<'t>,
) -> Option<StmtFault<'t>>
    ensures { result ≡ fault_in (map column_of columns.now) (Selects (select_of stmt.now)) }
{
    if let Some(name) = undefined_in_select(columns, stmt) {
        return Some(no_column(name));
    }
    match wrong_position(columns, stmt) {
        Some(position) => Some(StmtFault::NoPosition(position)),
        None => None,
    }
}

/// What is wrong with the statement at a table of these columns. Of those that assign no column it takes no memory.
pub(crate) fn fault_in<'t>(
    alloc: Global,
    columns: &[Column<'_>],
    stmt: &Stmt<'t>,
) -> Result<Option<StmtFault<'t>>, AllocError>
    ensures fault { IfOk result (λ fault. fault ≡ fault_in (map column_of columns.now) (stmt_of stmt.now)) }
    ensures memory { OnErr result (assigns (stmt_of stmt.now) ≡ true) }
{
    match stmt {
        Stmt::Insert(insert) => fault_in_insert(alloc, columns, insert),
        Stmt::Update(update) => fault_in_update(alloc, columns, update),
        Stmt::Delete(delete) => Ok(fault_in_delete(columns, delete)),
        Stmt::Select(select) => Ok(fault_in_select(columns, select)),
        _ => Ok(None),
    }
}
