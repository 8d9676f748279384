//! Notes on teardowns.

ghost use Rattle.std.specs.Prelude.{◌≡◌, ◌≢◌, ◌++◌, [], map, codes, OnOk, OnErr};
ghost use Rattle.std.specs.Option.{option_map_or};
ghost use Rattle.iso_lexer.specs.Devices.{page_text};
ghost use Rattle.spec_parser.specs.Trees.{session_view};
ghost use Rattle.spec_parser.specs.Numbered.{session_numbered};
ghost use Rattle.report_text.specs.Replies.{last_outcome};
ghost use Rattle.report_text.specs.FaultText.{fault_text};
ghost use Rattle.report_text.specs.Teardowns.{of_session, note, failure_note};

use crate::fault_text::push_fault;
use crate::names::push_name;
use iso_lexer::Page;
use session_machine::{HistItem, Outcome, StmtFault};
use spec_parser::{SessionPart, session_numbered};
use std::alloc::AllocError;

/// Pushes ` of session ` and its name, of a session of the file.
fn push_whose(
    page: &mut Page,
    sessions: &[SessionPart<'_>],
    session: usize,
) -> Result<(), AllocError>
    ensures text { OnOk result (page_text page.new ≡ page_text page.old ++ option_map_or of_session (session_numbered (map session_view sessions.now) session) []) }
    ensures memory { OnErr result (option_map_or of_session (session_numbered (map session_view sessions.now) session) [] ≢ []) }
{
    match session_numbered(sessions, session) {
        Some(session) => {
            page.push(b" of session ")?;
            push_name(page, &session.name)
        }
        None => Ok(()),
    }
}

fn push_front(
    page: &mut Page,
    sessions: &[SessionPart<'_>],
    session: usize,
) -> Result<(), AllocError>
    ensures { OnOk result (page_text page.new ≡ page_text page.old
        ++ (codes "isolationtester: teardown" ++ option_map_or of_session (session_numbered (map session_view sessions.now) session) [] ++ codes " failed: ")) }
{
    page.push(b"isolationtester: teardown")?;
    push_whose(page, sessions, session)?;
    page.push(b" failed: ")
}

/// Pushes the note on a teardown that waits.
pub fn push_would_wait(
    page: &mut Page,
    sessions: &[SessionPart<'_>],
    session: usize,
) -> Result<(), AllocError>
    ensures { OnOk result (page_text page.new ≡ page_text page.old ++ note (map session_view sessions.now) session (codes "would wait")) }
{
    push_front(page, sessions, session)?;
    page.push(b"would wait\n")
}

fn push_failure(
    page: &mut Page,
    sessions: &[SessionPart<'_>],
    session: usize,
    fault: &StmtFault<'_>,
) -> Result<(), AllocError>
    ensures { OnOk result (page_text page.new ≡ page_text page.old ++ note (map session_view sessions.now) session (fault_text fault.now)) }
{
    push_front(page, sessions, session)?;
    push_fault(page, fault)?;
    page.push(b"\n")
}

pub fn push_outcome_note(
    page: &mut Page,
    sessions: &[SessionPart<'_>],
    session: usize,
    outcome: &Outcome<'_>,
) -> Result<(), AllocError>
    ensures text { OnOk result (page_text page.new ≡ page_text page.old ++ failure_note (map session_view sessions.now) session outcome.now) }
    ensures memory { OnErr result (failure_note (map session_view sessions.now) session outcome.now ≢ []) }
{
    match outcome {
        Outcome::Failed(fault) => push_failure(page, sessions, session, fault),
        _ => Ok(()),
    }
}

/// Pushes the note on a teardown that failed last.
pub fn push_last_note(
    page: &mut Page,
    sessions: &[SessionPart<'_>],
    session: usize,
    segment: &[HistItem<'_>],
) -> Result<(), AllocError>
    ensures text { OnOk result (page_text page.new ≡ page_text page.old ++ failure_note (map session_view sessions.now) session (last_outcome segment.now)) }
    ensures memory { OnErr result (failure_note (map session_view sessions.now) session (last_outcome segment.now) ≢ []) }
{
    match segment.last() {
        Some(item) => push_outcome_note(page, sessions, session, &item.reply.outcome),
        None => Ok(()),
    }
}
