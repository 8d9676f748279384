//! Columns as expressions know them.

ghost use Rattle.std.specs.Prelude.{◌≡◌, length, map};
ghost use Rattle.sql_trees.specs.Statements.{column_of};
ghost use Rattle.query_results.specs.Queries.{cols_of};

use sql_trees::Column;
use sql_values::Columns;

/// The columns as expressions know them.
#[tactic(auto, using(crate::proofs::ColumnLists::known_columns, crate::proofs::ColumnLists::as_many_columns))]
pub fn known<'a>(columns: &'a [Column<'a>]) -> Columns<'a>
    ensures names { result ≡ cols_of (map column_of columns.now) }
    ensures long { length result ≡ length columns.now }
{
    Columns::of(columns)
}
