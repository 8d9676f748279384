//! What the segment of a setup or teardown shows.

ghost use Rattle.std.specs.Prelude.{◌≡◌, ◌&&◌, not};
ghost use Rattle.std.specs.List.{list_any};
ghost use Rattle.report_lines.specs.Starts.{ends_in};
ghost use Rattle.session_machine.specs.Machine.{is_failed};

use report_lines::{any_fails, session_of};
use session_machine::HistItem;

fn ends_in(session: usize, item: &HistItem<'_>) -> bool
    ensures { result ≡ ends_in session item.now }
{
    session_of(&item.event) as usize == session && item.reply.ended
}

/// Whether the session's block is over.
pub fn is_over(segment: &[HistItem<'_>], session: usize) -> bool
    ensures { result ≡ list_any (ends_in session) segment.now }
{
    for item in segment {
        if ends_in(session, item) {
            return true;
        }
    }
    false
}

/// Whether it is, and no statement failed.
pub fn went_well(segment: &[HistItem<'_>], session: usize) -> bool
    ensures { result ≡ (list_any (ends_in session) segment.now && not (list_any (λ item. is_failed item.reply.outcome) segment.now)) }
{
    let over = is_over(segment, session);
    let failed = any_fails(segment);
    over && !failed
}
