//! Laws of the histories of permutations: each function's contract is one of them, and its body does nothing.
ghost use Rattle.std.specs.Prelude.{map};
ghost use Rattle.spec_parser.specs.Trees.{spec_view, entry_view};
ghost use Rattle.permutation_plans.specs.Regular.{HasOneHistory, EachHasOneHistory};
ghost use Rattle.permutation_plans.specs.Code.Fits.{DueIsNextOrder};
ghost use Rattle.permutation_plans.specs.Worked.{WorkedHistory};
ghost use Rattle.permutation_plans.specs.Waited.{WaitedHistory};
ghost use Rattle.permutation_plans.specs.Deadlocked.{DeadlockedHistory};
ghost use Rattle.permutation_plans.specs.FreeWaited.{WaitedFreeHistory};
ghost use Rattle.permutation_plans.specs.Whole.{NextIsDue, WorkedGoesWell};

use spec_parser::{Entry, Spec};

/// A permutation of a spec has at most one regular history.
pub fn one_history(spec: &Spec<'_>, entries: &[Entry])
    ensures { HasOneHistory (spec_view spec.now) (map entry_view entries.now) }
{}

/// So has each permutation of each spec.
pub fn each_has_one_history()
    ensures { EachHasOneHistory }
{}

/// What the code finds to be due after a history is the permutation's next order: so what a plan gives is what a regular history has.
pub fn due_is_the_next_order()
    ensures { DueIsNextOrder }
{}

/// A permutation of two sessions, with a setup, a teardown and a marker, has a regular history.
pub fn worked_history()
    ensures { WorkedHistory }
{}

/// As long as all goes well, what is due after a history is the next of the orders of the whole permutation.
pub fn the_next_order_is_due()
    ensures { NextIsDue }
{}

/// In the worked history all goes well.
pub fn worked_goes_well()
    ensures { WorkedGoesWell }
{}

/// A permutation in which a DELETE waits for another transaction's, and goes on once that has committed, has a regular history; a marker holds the COMMIT's report back until the
/// DELETE is reported, and not its launch.
pub fn waited_history()
    ensures { WaitedHistory }
{}

/// So has a permutation in which two transactions have deleted a row each, and then each deletes the other's: one of these DELETEs waits, the other fails as a deadlock, and the first goes on.
pub fn deadlocked_history()
    ensures { DeadlockedHistory }
{}

/// So has the free run of the file with the wait, in which the same DELETE waits.
pub fn waited_free_history()
    ensures { WaitedFreeHistory }
{}
