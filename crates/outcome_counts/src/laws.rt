//! Laws of counting, as contracts of functions that do nothing.

ghost use Rattle.outcome_counts.specs.Code.Adding.{StayCounted};

/// Permutations that are counted stay so with one more: each at its one place, all counts exact, and their sum that of all.
pub fn stay_counted()
    ensures { StayCounted }
{}
