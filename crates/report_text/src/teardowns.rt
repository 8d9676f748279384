//! What teardowns say.

ghost use Rattle.std.specs.Prelude.{◌≡◌, ◌≢◌, ◌++◌, ◌+◌, ◌<◌, ◌^◌, ◌⊎◌, [], map, codes, OnOk, OnErr, IfOk};
ghost use Rattle.iso_lexer.specs.Devices.{page_text};
ghost use Rattle.spec_parser.specs.Trees.{session_view, spec_view};
ghost use Rattle.report_text.specs.Replies.{rows_text, last_outcome};
ghost use Rattle.report_text.specs.Teardowns.{note, failure_note};
ghost use Rattle.report_text.specs.Inner.Teardowns.{teardown_said, last_teardown_of, behind, teardowns_from, teardowns_in_turn};

use crate::notes::{push_last_note, push_would_wait};
use crate::numbers::teardowns_of;
use crate::replies::push_last_rows;
use crate::segments::is_over;
use iso_lexer::Page;
use report_lines::Segments;
use session_machine::HistItem;
use spec_parser::{SessionPart, Spec};
use std::alloc::{AllocError, Global};

/// What goes to the output, and what goes to the notes.
#[derive(Drop)]
pub struct Pages {
    pub text: Page,
    pub notes: Page,
}

impl Pages {
    pub fn new(alloc: Global) -> Pages
        ensures text { (page_text result.text) ≡ [] }
        ensures notes { (page_text result.notes) ≡ [] }
    {
        Pages {
            text: Page::new(alloc),
            notes: Page::new(alloc),
        }
    }
}

/// Pushes what a teardown says that is over.
fn push_over(
    pages: &mut Pages,
    sessions: &[SessionPart<'_>],
    session: usize,
    segment: &[HistItem<'_>],
) -> Result<(), AllocError>
    ensures text { OnOk result (page_text pages.new.text ≡ page_text pages.old.text ++ rows_text (last_outcome segment.now)) }
    ensures notes { OnOk result (page_text pages.new.notes ≡ page_text pages.old.notes ++ failure_note (map session_view sessions.now) session (last_outcome segment.now)) }
    ensures memory { OnErr result ((rows_text (last_outcome segment.now) ≢ []) ⊎ (failure_note (map session_view sessions.now) session (last_outcome segment.now) ≢ [])) }
{
    push_last_rows(&mut pages.text, segment)?;
    push_last_note(&mut pages.notes, sessions, session, segment)
}

/// Pushes that a teardown would wait.
fn push_waiting(
    pages: &mut Pages,
    sessions: &[SessionPart<'_>],
    session: usize,
) -> Result<(), AllocError>
    ensures text { OnOk result (page_text pages.new.text ≡ page_text pages.old.text) }
    ensures notes { OnOk result (page_text pages.new.notes ≡ page_text pages.old.notes ++ note (map session_view sessions.now) session (codes "would wait")) }
{
    push_would_wait(&mut pages.notes, sessions, session)
}

/// Pushes what a teardown says, and answers the segment behind its own.
fn push_teardown(
    pages: &mut Pages,
    sessions: &[SessionPart<'_>],
    segments: &Segments<'_>,
    number: usize,
    session: usize,
) -> Result<usize, AllocError>
    requires { number + 2 < 2 ^ 64 }
    ensures text { OnOk result (page_text pages.new.text ≡ page_text pages.old.text ++ (teardown_said (map session_view sessions.now) segments.now number session).text) }
    ensures notes { OnOk result (page_text pages.new.notes ≡ page_text pages.old.notes ++ (teardown_said (map session_view sessions.now) segments.now number session).notes) }
    ensures next { IfOk result (λ next. next ≡ behind segments.now number session) }
{
    let segment = segments.segment(number);
    if is_over(segment, session) {
        push_over(pages, sessions, session, segment)?;
        Ok(number + 1)
    } else {
        push_waiting(pages, sessions, session)?;
        Ok(number + 2)
    }
}

/// Pushes what these teardowns say, from a segment on, of which so many are there; answers the segment behind theirs.
fn push_teardowns_from(
    pages: &mut Pages,
    sessions: &[SessionPart<'_>],
    segments: &Segments<'_>,
    count: usize,
    first: usize,
    teardowns: &[usize],
) -> Result<usize, AllocError>
    requires { count + 2 < 2 ^ 64 }
    ensures text { OnOk result (page_text pages.new.text ≡ page_text pages.old.text ++ (teardowns_from (map session_view sessions.now) segments.now count first teardowns.now).text) }
    ensures notes { OnOk result (page_text pages.new.notes ≡ page_text pages.old.notes ++ (teardowns_from (map session_view sessions.now) segments.now count first teardowns.now).notes) }
    ensures next { IfOk result (λ next. next ≡ (teardowns_from (map session_view sessions.now) segments.now count first teardowns.now).next) }
    ensures memory { OnErr result (teardowns.now ≢ []) }
{
    let mut number = first;
    for session in teardowns {
        if count <= number {
            return Ok(number);
        }
        number = push_teardown(pages, sessions, segments, number, *session)?;
    }
    Ok(number)
}

/// Pushes what the teardown of the whole file says, if it has one.
fn push_last(
    pages: &mut Pages,
    spec: &Spec<'_>,
    segments: &Segments<'_>,
    count: usize,
    number: usize,
) -> Result<(), AllocError>
    requires { count + 2 < 2 ^ 64 }
    ensures text { OnOk result (page_text pages.new.text ≡ page_text pages.old.text
        ++ (teardowns_from (spec_view spec.now).sessions segments.now count number (last_teardown_of (spec_view spec.now))).text) }
    ensures notes { OnOk result (page_text pages.new.notes ≡ page_text pages.old.notes
        ++ (teardowns_from (spec_view spec.now).sessions segments.now count number (last_teardown_of (spec_view spec.now))).notes) }
    ensures memory { OnErr result (last_teardown_of (spec_view spec.now) ≢ []) }
{
    if spec.teardown.is_some() {
        push_teardowns_from(pages, &spec.sessions, segments, count, number, &[0])?;
    }
    Ok(())
}

/// Pushes what all teardowns say, from a segment on.
pub fn push_teardowns(
    pages: &mut Pages,
    spec: &Spec<'_>,
    segments: &Segments<'_>,
    count: usize,
    first: usize,
) -> Result<(), AllocError>
    requires { count + 2 < 2 ^ 64 }
    ensures text { OnOk result (page_text pages.new.text ≡ page_text pages.old.text ++ (teardowns_in_turn (spec_view spec.now) segments.now count first).text) }
    ensures notes { OnOk result (page_text pages.new.notes ≡ page_text pages.old.notes ++ (teardowns_in_turn (spec_view spec.now) segments.now count first).notes) }
{
    let teardowns = teardowns_of(pages.text.alloc(), spec)?;
    let next = push_teardowns_from(pages, &spec.sessions, segments, count, first, &teardowns)?;
    push_last(
        pages,
        spec,
        segments,
        count,
        next.saturating_add(spec.sessions.len()),
    )
}
