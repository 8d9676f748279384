//! Laws of locks and waits: each function's contract is one of them, and its body does nothing.
ghost use Rattle.row_locks.specs.Laws.{ConflictsGoBothWays, BlockersHoldInConflict, BlockersByWhatIsHeld, DoingAddsOnlyTheDoer, LocksAreHeld, EndsLetGo, CycleTestIsExact, CyclesByWhoBlocks, NoCycleAppears, WaitsLeadToAnEnd};

/// Strengths conflict whichever of the two is held.
pub fn conflicts_go_both_ways()
    ensures { ConflictsGoBothWays }
{}

/// The blockers of a row request are exactly the other transactions that hold the row in conflict.
pub fn blockers_hold_in_conflict()
    ensures { BlockersHoldInConflict }
{}

/// Who blocks is a matter of which locks are held alone.
pub fn blockers_by_what_is_held()
    ensures { BlockersByWhatIsHeld }
{}

/// What one transaction does adds at most itself to the blockers of others.
pub fn doing_adds_only_the_doer()
    ensures { DoingAddsOnlyTheDoer }
{}

/// A lock that was taken is held, and what others hold stays as it is.
pub fn locks_are_held()
    ensures { LocksAreHeld }
{}

/// A transaction that ends lets go of all that it held, and what others hold stays as it is.
pub fn ends_let_go()
    ensures { EndsLetGo }
{}

/// The test for a cycle passes exactly where some path closes one.
pub fn cycle_test_is_exact()
    ensures { CycleTestIsExact }
{}

/// Whether a cycle is closed is a matter of who is blocked by whom alone.
pub fn cycles_by_who_blocks()
    ensures { CyclesByWhoBlocks }
{}

/// Whichever way transactions block one another, no cycle of waits appears unasked.
pub fn no_cycle_appears()
    ensures { NoCycleAppears }
{}

/// Where no transactions wait in a cycle, the blockers lead from each to one that waits for nobody.
pub fn waits_lead_to_an_end()
    ensures { WaitsLeadToAnEnd }
{}
