//! Laws of histories: each function's contract is one of them, and its body does nothing.
ghost use Rattle.session_machine.specs.Sound.{StaysSound};
ghost use Rattle.session_laws.specs.Laws.{OneState, EventsGiveReplies, FirstPartsAreLegal, SnapshotsStay, FailuresAreUnseen, CommitsCount, CommitsAreSeen, OwnWritesAreSeen, VisibleIsSelected};
ghost use Rattle.session_laws.specs.Worked.{WorkedHistory, WorkedStates};

/// The first state is sound, and each event leads from a sound state to a sound one.
pub fn stays_sound()
    ensures { StaysSound }
{}

/// A history leads to one state.
pub fn one_state()
    ensures { OneState }
{}

/// Legal histories of the same events have the same replies.
pub fn events_give_replies()
    ensures { EventsGiveReplies }
{}

/// What came first in a legal history was legal.
pub fn first_parts_are_legal()
    ensures { FirstPartsAreLegal }
{}

/// In Repeatable Read what a transaction sees stays the same from its first query on, while others go on.
pub fn snapshots_stay()
    ensures { SnapshotsStay }
{}

/// Of a failed statement the other sessions see nothing.
pub fn failures_are_unseen()
    ensures { FailuresAreUnseen }
{}

/// A transaction has committed once its COMMIT is done.
pub fn commits_count()
    ensures { CommitsCount }
{}

/// After a commit each query that begins in Read Committed, and each first query in Repeatable Read, sees its rows.
pub fn commits_are_seen()
    ensures { CommitsAreSeen }
{}

/// A query sees what its own transaction wrote before.
pub fn own_writes_are_seen()
    ensures { OwnWritesAreSeen }
{}

/// What `visible` shows is what a SELECT of that moment shows.
pub fn visible_is_selected()
    ensures { VisibleIsSelected }
{}

/// A history of two sessions, one of them in Repeatable Read, is legal.
pub fn worked_history()
    ensures { WorkedHistory }
{}

/// What is refused on its way, and what the sessions see.
pub fn worked_states()
    ensures { WorkedStates }
{}
