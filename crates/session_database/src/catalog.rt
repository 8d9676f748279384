//! Every CREATE and DROP so far, and which table a name means.

ghost use Rattle.std.specs.Prelude.{◌≡◌, ◌<◌, [], length, map, IfSome, OnOk};
ghost use Rattle.sql_trees.specs.Statements.{create_of, column_of, key_of, name_of};
ghost use Rattle.session_machine.specs.Tables.{is_meant};
ghost use Rattle.session_machine.specs.Inner.Pieces.{table_columns, table_keys, with_table, with_drop, find_from};

use crate::drops::{Drops, does_count};
use crate::table::Table;
use iso_lexer::{Name, same_name};
use row_versions::{TxId, Versions};
use sql_trees::{Column, CreateTable, Key};
use std::alloc::{AllocError, Global};
use std::marker::Model;

/// The tables in the order made, and their DROPs in the order done. Neither is ever taken out.
#[derive(Drop)]
pub struct Catalog<'a, 't> {
    tables: Vec<Table<'a, 't>>,
    drops: Drops,
}

impl<'a, 't> Model for Catalog<'a, 't> {
    ghost use Rattle.session_machine.specs.Tables.{Catalog as CatalogFacts};

    ghost Value = { CatalogFacts };

    ghost view = { λ c. record { tables = c.tables.items; drops = c.drops } };
}

fn is_table<V: Versions>(
    store: &V,
    own: Option<TxId>,
    drops: &Drops,
    name: &Name<'_>,
    place: usize,
    table: &Table<'_, '_>,
) -> bool
    ensures { result ≡ is_meant (V.content store.now) own drops.now (name_of name.now) place table.now }
{
    same_name(&table.made().name, name)
        && does_count(store, own, table.by())
        && !drops.has(store, own, place)
}

fn find_in<V: Versions>(
    store: &V,
    own: Option<TxId>,
    drops: &Drops,
    name: &Name<'_>,
    tables: &[Table<'_, '_>],
) -> Option<usize>
    ensures first { result ≡ find_from (V.content store.now) own drops.now (name_of name.now) 0 tables.now }
    ensures within { IfSome result (λ place. place < length tables.now) }
{
    for (place, table) in tables.iter().enumerate() {
        if is_table(store, own, drops, name, place, table) {
            return Some(place);
        }
    }
    None
}

impl<'a, 't> Catalog<'a, 't> {
    /// No table. It takes no memory.
    pub fn new(alloc: Global) -> Catalog<'a, 't>
        ensures { result ≡ record { tables = []; drops = [] } }
    {
        Catalog {
            tables: Vec::new(alloc),
            drops: Drops::new(alloc),
        }
    }

    /// The place of the table that the name means for `own`: the first whose CREATE counts and whose DROP doesn't.
    pub fn find<V: Versions>(&self, store: &V, own: Option<TxId>, name: &Name<'_>) -> Option<usize>
        ensures first { result ≡ find_from (V.content store.now) own self.now.drops (name_of name.now) 0 self.now.tables }
        ensures within { IfSome result (λ place. place < length self.now.tables) }
    {
        find_in(store, own, &self.drops, name, self.tables.as_slice())
    }

    /// How many tables were made.
    pub fn len(&self) -> usize
        ensures { result ≡ length self.now.tables }
    {
        self.tables.len()
    }

    /// The columns of the table at the place.
    pub fn columns(&self, place: usize) -> &'a [Column<'t>]
        requires { place < length self.now.tables }
        ensures { map column_of result.now ≡ table_columns self.now place }
    {
        self.tables[place].columns()
    }

    /// The keys of the table at the place in declared order: the primary key first.
    pub fn keys(&self, place: usize) -> &'a [Key]
        requires { place < length self.now.tables }
        ensures { map key_of result.now ≡ table_keys self.now place }
    {
        self.tables[place].keys()
    }

    /// Adds a table.
    pub fn add(&mut self, made: &'a CreateTable<'t>, by: TxId) -> Result<(), AllocError>
        ensures { OnOk result (self.new ≡ with_table self.old (create_of made.now) by) }
    {
        self.tables.push(Table::new(made, by))?;
        Ok(())
    }

    /// Adds a DROP of the table at the place.
    pub fn add_drop(&mut self, place: usize, by: TxId) -> Result<(), AllocError>
        ensures { OnOk result (self.new ≡ with_drop self.old place by) }
    {
        self.drops.add(place, by)
    }
}
