//! Laws of the interleavings, as contracts of functions that do nothing.

ghost use Rattle.std.specs.Prelude.{◌≡◌, ◌≢◌, ◌↔◌, ℕ, List, AllPairs, Contains};
ghost use Rattle.permutation_lists.specs.Interleavings.{interleavings, IsInterleaving};
ghost use Rattle.permutation_lists.specs.Order.{IsBelow};

/// The interleavings of any counts stand in strictly rising lexicographic order.
pub fn interleavings_rise()
    ensures { (counts : List ℕ) → AllPairs IsBelow (interleavings counts) }
{}

/// A list is an interleaving exactly where each session occurs in it as often as it has steps, and no other number does.
pub fn interleavings_keep_counts()
    ensures { (counts list : List ℕ) → Contains (interleavings counts) list ↔ IsInterleaving counts list }
{}

/// No interleaving is given twice.
pub fn no_interleaving_twice()
    ensures { (counts : List ℕ) → AllPairs (λ one other. one ≢ other) (interleavings counts) }
{}

/// The interleavings are the only strictly rising list of just the lists that keep the counts.
pub fn no_other_interleavings()
    ensures { (counts : List ℕ) (lists : List (List ℕ)) → AllPairs IsBelow lists → ((list : List ℕ) → Contains lists list ↔ IsInterleaving counts list) → lists ≡ interleavings counts }
{}
