//! A table, and what has become of it.

ghost use Rattle.std.specs.Prelude.{◌≡◌, map};
ghost use Rattle.sql_trees.specs.Statements.{create_of, column_of, key_of};

use row_versions::TxId;
use sql_trees::{Column, CreateTable, Key};
use std::marker::Model;

/// A table: its CREATE, and the transaction that made it.
#[derive(Drop)]
pub struct Table<'a, 't> {
    made: &'a CreateTable<'t>,
    by: TxId,
}

impl<'a, 't> Model for Table<'a, 't> {
    ghost use Rattle.session_machine.specs.Tables.{Table as TableFacts};
    ghost use Rattle.sql_trees.specs.Statements.{create_of};

    ghost Value = { TableFacts };

    ghost view = { λ t. record { made = create_of t.made.now; by = t.by } };
}

impl<'a, 't> Table<'a, 't> {
    pub fn new(made: &'a CreateTable<'t>, by: TxId) -> Table<'a, 't>
        ensures { result ≡ record { made = create_of made.now; by = by } }
    {
        Table { made, by }
    }

    /// The statement that made it.
    pub fn made(&self) -> &'a CreateTable<'t>
        ensures { create_of result.now ≡ self.now.made }
    {
        self.made
    }

    /// The transaction that made it.
    pub fn by(&self) -> TxId
        ensures { result ≡ self.now.by }
    {
        self.by
    }

    pub fn columns(&self) -> &'a [Column<'t>]
        ensures { map column_of result.now ≡ self.now.made.columns }
    {
        self.made.columns.as_slice()
    }

    pub fn keys(&self) -> &'a [Key]
        ensures { map key_of result.now ≡ self.now.made.keys }
    {
        self.made.keys.as_slice()
    }
}

/// A DROP of the table at a place, by a transaction.
#[derive(Drop)]
pub struct Dropped {
    table: usize,
    by: TxId,
}

impl Model for Dropped {
    ghost use Rattle.session_machine.specs.Tables.{Dropped as DroppedFacts};

    ghost Value = { DroppedFacts };

    ghost view = { λ d. record { table = d.table; by = d.by } };
}

impl Dropped {
    pub fn new(table: usize, by: TxId) -> Dropped
        ensures { result ≡ record { table = table; by = by } }
    {
        Dropped { table, by }
    }

    /// The place of the table.
    pub fn table(&self) -> usize
        ensures { result ≡ self.now.table }
    {
        self.table
    }

    /// The transaction that drops it.
    pub fn by(&self) -> TxId
        ensures { result ≡ self.now.by }
    {
        self.by
    }
}
