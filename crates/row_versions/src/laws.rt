//! Laws of views, rows and versions: each function's contract is one of them, and its body does nothing.
ghost use Rattle.row_versions.specs.Laws.{ViewSeesCommittedAndOwn, RowsAreTheShown, RowsFollowTheLog, EachRowOnce, OpenWritesOfOthersUnseen, OwnWritesSeen, RolledBackWritesUnseen, ViewsStay, LaterViewsSeeACommit, NewestIsTheLast, NewRowsAreNew, OpenTxsAreTheOpen};

/// A view sees exactly what was committed before it and its own transaction's earlier commands.
pub fn view_sees_committed_and_own()
    ensures { ViewSeesCommittedAndOwn }
{}

/// The rows of a table in a view are the versions that it shows.
pub fn rows_are_the_shown()
    ensures { RowsAreTheShown }
{}

/// Rows come in the order in which their shown versions were written.
pub fn rows_follow_the_log()
    ensures { RowsFollowTheLog }
{}

/// A row is shown at most once.
pub fn each_row_once()
    ensures { EachRowOnce }
{}

/// What a view shows doesn't change when another open transaction writes.
pub fn open_writes_of_others_unseen()
    ensures { OpenWritesOfOthersUnseen }
{}

/// A transaction sees the writes of its own earlier commands.
pub fn own_writes_seen()
    ensures { OwnWritesSeen }
{}

/// A write that was rolled back is seen by no other transaction.
pub fn rolled_back_writes_unseen()
    ensures { RolledBackWritesUnseen }
{}

/// What a view shows doesn't change when others begin, roll back, or commit after it.
pub fn views_stay()
    ensures { ViewsStay }
{}

/// A view that is taken after a commit sees that transaction's writes.
pub fn later_views_see_a_commit()
    ensures { LaterViewsSeeACommit }
{}

/// The newest version of a row is the last write of it that is committed or own.
pub fn newest_is_the_last()
    ensures { NewestIsTheLast }
{}

/// A new row is the row of no earlier write.
pub fn new_rows_are_new()
    ensures { NewRowsAreNew }
{}

/// The transactions that a store lists as open are those that are open, and none comes twice.
pub fn open_txs_are_the_open()
    ensures { OpenTxsAreTheOpen }
{}
