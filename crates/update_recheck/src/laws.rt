//! Laws of the outcome: each function's contract is one of them, and its body does nothing.
ghost use Rattle.update_recheck.specs.Laws.{OutcomesByWhatIsHeld, WaitsMatterToTheBlocked};

/// What comes of a target is a matter of which locks are held and who is blocked by whom, and not of their order.
pub fn outcomes_by_what_is_held()
    ensures { OutcomesByWhatIsHeld }
{}

/// The waits that stand matter to a target alone that has blockers, and that waits for them.
pub fn waits_matter_to_the_blocked()
    ensures { WaitsMatterToTheBlocked }
{}
