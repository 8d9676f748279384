//! Laws of sorting, as contracts of functions that do nothing.

ghost use Rattle.std.specs.Prelude.{◌≡◌, ℕ, List};
ghost use Rattle.sql_trees.specs.declared.kind.Dir.{Dir};
ghost use Rattle.sql_values.specs.declared.value.Value.{Value};
ghost use Rattle.sql_values.specs.Sorting.{IsSortedOrder};
ghost use Rattle.query_results.specs.Ordering.{sorted_places};

use sql_values::{one_sorted_order, rows_turned};

/// Insertion sorts.
pub fn sorted_by_insertion()
    ensures { (by : List Dir) (keys : List (List Value)) → IsSortedOrder by keys (sorted_places by keys) }
{
    rows_turned();
}

/// Places in sorted order stand as insertion puts them.
pub fn one_order_by_insertion()
    ensures { (by : List Dir) (keys : List (List Value)) (places : List ℕ) → IsSortedOrder by keys places → sorted_places by keys ≡ places }
{
    one_sorted_order();
    sorted_by_insertion();
}
