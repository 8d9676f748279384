//! Where the values of an INSERT or UPDATE go.

ghost use Rattle.std.specs.Prelude.{◌≡◌, ℕ, List, [], IfOk, OnErr, is_ok, length, map, option_map, true};
ghost use Rattle.sql_trees.specs.Statements.{SetTree, column_of, name_of, names_of, set_of};
ghost use Rattle.query_results.specs.Queries.{columns_assigned};
ghost use Rattle.session_queries.specs.Inner.Assigned.{assigned_each, assigned_from, assigned_in_order, missing_name};
ghost use Rattle.query_results.specs.Updates.{columns_set};

use iso_lexer::{Ident, Name, same_name};
use sql_trees::{Column, Expr, Kind};
use std::alloc::{AllocError, Global};
use std::marker::Model;

/// Where a value goes: a column's place in its table, from 0, and the column's kind.
#[derive(Drop)]
pub struct AssignedColumn {
    place: usize,
    kind: Kind,
}

impl Model for AssignedColumn {
    ghost use Rattle.query_results.specs.Queries as query;

    ghost Value = { query.AssignedColumn };

    ghost view = { λ t. record { place = t.place; kind = t.kind } };
}

impl AssignedColumn {
    pub(crate) fn new(place: usize, kind: Kind) -> AssignedColumn
        ensures place { result.place ≡ place }
        ensures kind { result.kind ≡ kind }
    {
        AssignedColumn { place, kind }
    }

    pub fn place(&self) -> usize
        ensures { result ≡ self.now.place }
    {
        self.place
    }

    pub fn kind(&self) -> Kind
        ensures { result ≡ self.now.kind }
    {
        self.kind
    }
}

/// Where the values go, one after the other. Contracts see the list of the columns.
#[derive(Drop)]
pub struct AssignedColumns {
    to: Vec<AssignedColumn>,
}

impl Model for AssignedColumns {
    ghost use Rattle.std.specs.Prelude.{List};
    ghost use Rattle.query_results.specs.Queries as query;

    ghost Value = { List query.AssignedColumn };

    ghost view = { λ t. t.to.items };
}

impl AssignedColumns {
    pub(crate) fn from_vec(to: Vec<AssignedColumn>) -> AssignedColumns
        ensures { result ≡ to.items }
    {
        AssignedColumns { to }
    }

    /// No columns. It takes no memory.
    pub fn none(alloc: Global) -> AssignedColumns
        ensures { result ≡ [] }
    {
        AssignedColumns::from_vec(Vec::new(alloc))
    }

    pub fn as_slice(&self) -> &[AssignedColumn]
        ensures { result.now ≡ self.now }
    {
        self.to.as_slice()
    }

    pub fn len(&self) -> usize
        ensures { result ≡ length self.now }
    {
        self.to.len()
    }
}

fn assigned_in_order(alloc: Global, columns: &[Column<'_>]) -> Result<AssignedColumns, AllocError>
    ensures { IfOk result (λ to. to ≡ assigned_in_order 0 (map column_of columns.now)) }
{
    let mut to = Vec::new(alloc);
    for (place, column) in columns.iter().enumerate() {
        to.push(AssignedColumn::new(place, column.kind))?;
    }
    Ok(AssignedColumns::from_vec(to))
}

/// The first column of that name.
fn assigned_named(columns: &[Column<'_>], name: &Name<'_>) -> Option<AssignedColumn>
    ensures { result ≡ assigned_from 0 (map column_of columns.now) (name_of name.now) }
{
    for (place, column) in columns.iter().enumerate() {
        if same_name(&column.name, name) {
            return Some(AssignedColumn::new(place, column.kind));
        }
    }
    None
}

/// The first of the names that no column has.
fn missing_name<'a>(columns: &[Column<'_>], names: &[Name<'a>]) -> Option<Ident<'a>>
    ensures { result ≡ missing_name (map column_of columns.now) (map name_of names.now) }
{
    for name in names {
        if assigned_named(columns, name).is_none() {
            return Some(Ident::new(*name));
        }
    }
    None
}

/// The first name that is assigned to and that no column has.
fn missing_set<'a>(columns: &[Column<'_>], sets: &[(Name<'a>, Expr<'a>)]) -> Option<Ident<'a>>
    ensures { result ≡ missing_name (map column_of columns.now) (map (λ (s : SetTree). s.column) (map set_of sets.now)) }
{
    for (name, _) in sets {
        if assigned_named(columns, name).is_none() {
            return Some(Ident::new(*name));
        }
    }
    None
}

fn assigned_by_name<'a>(
    alloc: Global,
    columns: &[Column<'_>],
    names: &[Name<'a>],
) -> Result<Result<AssignedColumns, Ident<'a>>, AllocError>
    ensures { IfOk result (λ found. found ≡ assigned_each (map column_of columns.now) (map name_of names.now)) }
{
    let mut to = Vec::new(alloc);
    for name in names {
        match assigned_named(columns, name) {
            Some(column) => to.push(column)?,
            None => return Ok(Err(Ident::new(*name))),
        }
    }
    Ok(Ok(AssignedColumns::from_vec(to)))
}

/// The columns that an INSERT with this list of names gives values to, or the first name that no column has. Without a list the values go to the first columns.
#[tactic(auto, using(crate::proofs::Assigning::all_in_order, crate::proofs::Assigning::each_by_name, crate::proofs::Assigning::missing_told, crate::proofs::Assigning::none_missing))]
pub fn columns_assigned<'a>(
    alloc: Global,
    columns: &[Column<'_>],
    names: Option<&Vec<Name<'a>>>,
) -> Result<Result<AssignedColumns, Ident<'a>>, AllocError>
    ensures found { IfOk result (λ found. found ≡ columns_assigned (map column_of columns.now) (option_map (λ ns. names_of ns.now) names.entry)) }
    // A name that is missing is told also where memory is short.
    ensures memory { OnErr result (is_ok (columns_assigned (map column_of columns.now) (option_map (λ ns. names_of ns.now) names.entry)) ≡ true) }
{
    let Some(names) = names else {
        return Ok(Ok(assigned_in_order(alloc, columns)?));
    };
    match missing_name(columns, names) {
        Some(name) => Ok(Err(name)),
        None => assigned_by_name(alloc, columns, names),
    }
}

fn assigned_names<'a>(
    alloc: Global,
    sets: &[(Name<'a>, Expr<'a>)],
) -> Result<Vec<Name<'a>>, AllocError>
    ensures { IfOk result (λ names. map name_of names.items ≡ map (λ (s : SetTree). s.column) (map set_of sets.now)) }
{
    let mut names = Vec::new(alloc);
    for (name, _) in sets {
        names.push(*name)?;
    }
    Ok(names)
}

/// The columns that an UPDATE assigns to, or the first name that no column has.
#[tactic(auto, using(crate::proofs::Assigning::each_by_name, crate::proofs::Assigning::missing_told, crate::proofs::Assigning::none_missing))]
pub fn columns_set<'a>(
    alloc: Global,
    columns: &[Column<'_>],
    sets: &[(Name<'a>, Expr<'a>)],
) -> Result<Result<AssignedColumns, Ident<'a>>, AllocError>
    ensures found { IfOk result (λ found. found ≡ columns_set (map column_of columns.now) (map set_of sets.now)) }
    // A name that is missing is told also where memory is short.
    ensures memory { OnErr result (is_ok (columns_set (map column_of columns.now) (map set_of sets.now)) ≡ true) }
{
    if let Some(name) = missing_set(columns, sets) {
        return Ok(Err(name));
    }
    let names = assigned_names(alloc, sets)?;
    assigned_by_name(alloc, columns, &names)
}
