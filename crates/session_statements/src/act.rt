//! What a statement does at its targets, and how it puts rows into its table.

ghost use Rattle.std.specs.Prelude.{◌≡◌, option_map};
ghost use Rattle.sql_trees.specs.Trees.{tree_of};
ghost use Rattle.sql_trees.specs.Statements.{insert_of, items_of, name_of, update_of};
ghost use Rattle.session_machine.specs.Tables.{Database as DatabaseFacts};
ghost use Rattle.session_machine.specs.Inner.Statements.{at_key, put_insert, put_update};
ghost use Rattle.session_database.specs.Stops.{meets_of};
ghost use Rattle.session_statements.specs.Inner.Acting.{filter_in, items_in, policy_in, putting_of, table_in, visit_of};

use iso_lexer::Name;
use session_database::{Meets, Stop};
use session_queries::AssignedColumns;
use sql_trees::{Delete, Expr, Insert, Item, Lock, Policy, Select, Update};
use sql_values::Row;

/// What is done at each target.
#[derive(Drop)]
pub(crate) enum Act<'s, 'a, 't> {
    /// It is given new values at these places.
    Update(&'a Update<'t>, &'s AssignedColumns),
    Delete(&'a Delete<'t>),
    /// It is locked so, and shown.
    Lock(&'a Select<'t>, Lock),
}

/// How a statement puts rows into its table.
#[derive(Drop)]
pub(crate) struct Putting<'a, 't> {
    pub table: Name<'t>,
    /// A row whose key is taken is passed over.
    pub do_nothing: bool,
    pub returning: &'a Option<Vec<Item<'t>>>,
}

impl<'a, 't> Putting<'a, 't> {
    pub fn of_insert(stmt: &'a Insert<'t>) -> Putting<'a, 't>
        ensures { putting_of result ≡ put_insert (insert_of stmt.now) }
    {
        Putting {
            table: stmt.table,
            do_nothing: stmt.do_nothing,
            returning: &stmt.returning,
        }
    }

    pub fn of_update(stmt: &'a Update<'t>) -> Putting<'a, 't>
        ensures { putting_of result ≡ put_update (update_of stmt.now) }
    {
        Putting {
            table: stmt.table,
            do_nothing: false,
            returning: &stmt.returning,
        }
    }
}

/// What came of one target, or of one row of VALUES.
#[derive(Drop)]
pub(crate) enum Visited<'t> {
    /// The statement goes on, and nothing is answered.
    Passes,
    Shows(Row),
    Stops(Stop<'t>),
}

impl<'t> Visited<'t> {
    /// What came of a row that isn't written.
    pub fn at_key(met: Meets<'t>) -> Visited<'t>
        ensures { (db : DatabaseFacts) → at_key db (meets_of met.entry) ≡ visit_of db result }
    {
        match met {
            Meets::Stops(stop) => Visited::Stops(stop),
            Meets::PassesOver => Visited::Passes,
        }
    }
}

/// Where a statement stopped among its targets, and why.
#[derive(Drop)]
pub(crate) struct Halt<'t> {
    pub place: usize,
    pub stop: Stop<'t>,
}

impl<'s, 'a, 't> Act<'s, 'a, 't> {
    /// What is done where others hold a target in conflict.
    pub fn policy(&self) -> Policy
        ensures { result ≡ policy_in self.now }
    {
        match self {
            Act::Lock(_, lock) => lock.policy,
            _ => Policy::Wait,
        }
    }

    /// The statement's WHERE.
    pub fn filter(&self) -> Option<&'a Expr<'t>>
        ensures { option_map (λ e. tree_of e.now) result ≡ filter_in self.now }
    {
        match self {
            Act::Update(update, _) => update.filter.as_ref(),
            Act::Delete(delete) => delete.filter.as_ref(),
            Act::Lock(select, _) => select.filter.as_ref(),
        }
    }

    /// The table that the statement names; a SELECT without one has no targets.
    pub fn table(&self) -> Name<'t>
        ensures { name_of result ≡ table_in self.now }
    {
        match self {
            Act::Update(update, _) => update.table,
            Act::Delete(delete) => delete.table,
            Act::Lock(select, _) => select.table.unwrap_or(Name::Plain("")),
        }
    }

    /// The items that it answers: a SELECT's, or RETURNING's.
    pub fn items(&self) -> Option<&'a Vec<Item<'t>>>
        ensures { option_map (λ is. items_of is.now) result ≡ items_in self.now }
    {
        match self {
            Act::Update(update, _) => update.returning.as_ref(),
            Act::Delete(delete) => delete.returning.as_ref(),
            Act::Lock(select, _) => Some(&select.items),
        }
    }
}
