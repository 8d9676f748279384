//! Laws of values, as contracts of functions that do nothing.

ghost use Rattle.std.specs.Prelude.{◌≡◌, ℕ, List};
ghost use Rattle.std.specs.Ordering.{ordering_reverse};
ghost use Rattle.sql_trees.specs.declared.kind.Dir.{Dir};
ghost use Rattle.sql_values.specs.declared.value.Value.{Value};
ghost use Rattle.sql_values.specs.Sorting.{IsSortedOrder, row_order};

/// Two rows stand the other way round where they are exchanged.
pub fn rows_turned()
    ensures { (by : List Dir) (a b : List Value) → row_order 0 by b a ≡ ordering_reverse (row_order 0 by a b) }
{}

/// Rows have one sorted order.
pub fn one_sorted_order()
    ensures { (by : List Dir) (keys : List (List Value)) (one other : List ℕ) → IsSortedOrder by keys one → IsSortedOrder by keys other → one ≡ other }
{}
