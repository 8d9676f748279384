//! The columns of a table, by which an expression finds its values in a row.

ghost use Rattle.std.specs.Prelude.{◌≡◌, map, length, position, bytes_eq, slice_get, Some};
ghost use Rattle.iso_lexer.specs.Names.{name_view, decoded};
ghost use Rattle.sql_values.specs.Columns.{columns_of};

use iso_lexer::{Name, same_name};
use sql_trees::Column;
use std::marker::Model;

/// Columns in their order: contracts see their names, decoded, with their kinds.
#[derive(Drop)]
pub struct Columns<'a> {
    columns: &'a [Column<'a>],
}

impl<'a> Model for Columns<'a> {
    ghost use Rattle.std.specs.Prelude.{List, ℕ};
    ghost use Rattle.sql_trees.specs.declared.kind.Kind.{Kind};
    ghost use Rattle.sql_values.specs.Columns.{columns_of};

    ghost Value = { List (List ℕ × Kind) };

    ghost view = { λ c. columns_of c.columns.now };
}

impl<'a> Columns<'a> {
    pub fn of(columns: &'a [Column<'a>]) -> Columns<'a>
        ensures { result ≡ columns_of columns.now }
    {
        Columns { columns }
    }

    pub fn len(&self) -> usize
        ensures { result ≡ length self.now }
    {
        self.columns.len()
    }

    /// The place of the first column of this name.
    pub fn place(&self, name: &Name<'_>) -> Option<usize>
        ensures { result ≡ position (λ c. bytes_eq (decoded (name_view name.now)) c.0) self.now }
    {
        place_of(self.columns, name)
    }
}

fn place_of(columns: &[Column<'_>], name: &Name<'_>) -> Option<usize>
    ensures { result ≡ position (λ c. bytes_eq (decoded (name_view name.now)) (decoded (name_view c.name))) columns.now }
{
    columns
        .iter()
        .position(|column| same_name(name, &column.name))
}
