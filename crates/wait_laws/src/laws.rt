//! Laws of waits: each function's contract is one of them, and its body does nothing.
ghost use Rattle.wait_laws.specs.Laws.{BlockersStayToTheirEnd, TransactionsEndThemselves, NoCycleOfWaits, DeadlockIsExact, KeyIsExact, WritesAreHeld, WaitsGoOnAsBegun, StatementsGoOnInTheirView, StatementsStayAsBegun, RestIsReached};
ghost use Rattle.wait_laws.specs.Replies.{DeadlockIsAnswered};

/// In no state do transactions wait in a cycle, and from each its blockers lead to one that waits for nobody.
pub fn no_cycle_of_waits()
    ensures { NoCycleOfWaits }
{}

/// A target of a statement that waits for others is answered as a deadlock exactly where a wait for its blockers would close a cycle, and as a wait exactly where it has blockers and closes none;
/// with NOWAIT and SKIP LOCKED it is neither.
pub fn deadlock_is_exact()
    ensures { DeadlockIsExact }
{}

/// A key is answered as a deadlock exactly where a wait for its holders would close a cycle, and as a wait exactly where it is held and closes none; as taken and as free exactly
/// where it is not held and another row has it or none. At a taken one ON CONFLICT DO NOTHING passes the row over, or fails at Repeatable Read exactly where the transaction doesn't know the version.
pub fn key_is_exact()
    ensures { KeyIsExact }
{}

/// A reply is `deadlock detected` exactly where the statement asks for something of which a wait would close a cycle, and a wait exactly where others hold what it asks for and a wait closes none.
pub fn deadlock_is_answered()
    ensures { DeadlockIsAnswered }
{}

/// A row that an open transaction wrote is held by it, so that nobody else writes it.
pub fn writes_are_held()
    ensures { WritesAreHeld }
{}

/// Who stands in the way of a request is open, and stays there until its transaction ends; an event brings nobody there but the transaction that does it.
pub fn blockers_stay_to_their_end()
    ensures { BlockersStayToTheirEnd }
{}

/// An event ends no transaction but the one that does it, and that is open afterwards exactly where its session is in it.
pub fn transactions_end_themselves()
    ensures { TransactionsEndThemselves }
{}

/// A session that waits is left as it is by what is done to others, and its statement finds the same rows when it goes on.
pub fn waits_go_on_as_begun()
    ensures { WaitsGoOnAsBegun }
{}

/// A statement that goes on, and stops at a later target, is in its view and at its table still.
pub fn statements_go_on_in_their_view()
    ensures { StatementsGoOnInTheirView }
{}

/// A statement that waits was begun at some moment of the run, and is that one since: its table, its view and its targets are those at its beginning, whatever others do and whatever it wrote itself.
pub fn statements_stay_as_begun()
    ensures { StatementsStayAsBegun }
{}

/// Each step comes nearer to rest, and only so many follow one another.
pub fn rest_is_reached()
    ensures { RestIsReached }
{}
