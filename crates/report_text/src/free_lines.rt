//! What the items of a free run print and note.

ghost use Rattle.std.specs.Prelude.{◌≡◌, ◌≢◌, ◌++◌, [], false, map, decimal, codes, option_map, OnOk, OnErr};
ghost use Rattle.std.specs.Option.{option_map_or};
ghost use Rattle.iso_lexer.specs.Devices.{page_text};
ghost use Rattle.spec_parser.specs.Trees.{part_view, step_view, session_view, spec_view};
ghost use Rattle.report_text.specs.Replies.{outcome_text};
ghost use Rattle.report_text.specs.FreeText.{step_with, launch_text, statement_name, statement_text, step_text, event_text, item_text, teardown_of, stands_in, item_note};

use crate::line_text::{push_step_name, push_step_sql};
use crate::notes::push_outcome_note;
use crate::replies::push_outcome;
use crate::standing::Standing;
use iso_lexer::Page;
use itoa::Buffer;
use report_lines::session_of;
use session_machine::{Event, HistItem, Outcome};
use spec_parser::{Part, SessionPart, Spec, StepPart, session_numbered};
use std::alloc::AllocError;

/// The session's step that has this block.
fn step_with<'a>(session: &SessionPart<'a>, block: u32) -> Option<StepPart<'a>>
    ensures { option_map step_view result ≡ step_with (session_view session.now) block }
{
    for step in &session.steps {
        if step.part.block == block {
            return Some(*step);
        }
    }
    None
}

fn push_launch(page: &mut Page, step: &StepPart<'_>) -> Result<(), AllocError>
    ensures { OnOk result (page_text page.new ≡ page_text page.old ++ launch_text (step_view step.now)) }
{
    push_step_sql(page, step)?;
    page.push(b"\n")
}

fn push_number(page: &mut Page, number: usize) -> Result<(), AllocError>
    ensures { OnOk result (page_text page.new ≡ page_text page.old ++ decimal number) }
{
    let mut buffer = Buffer::new();
    page.push(buffer.format(number).as_bytes())
}

fn push_statement_name(
    page: &mut Page,
    step: &StepPart<'_>,
    statement: usize,
) -> Result<(), AllocError>
    ensures { OnOk result (page_text page.new ≡ page_text page.old ++ statement_name (step_view step.now) statement) }
{
    push_step_name(page, step)?;
    page.push(b"statement ")?;
    push_number(page, statement)
}

fn push_over(
    page: &mut Page,
    step: &StepPart<'_>,
    statement: usize,
    outcome: &Outcome<'_>,
) -> Result<(), AllocError>
    ensures { OnOk result (page_text page.new ≡ page_text page.old ++ (statement_name (step_view step.now) statement ++ codes "\n" ++ outcome_text outcome.now)) }
{
    push_statement_name(page, step, statement)?;
    page.push(b"\n")?;
    push_outcome(page, outcome)
}

/// Pushes what a statement of a step prints.
fn push_statement(
    page: &mut Page,
    step: &StepPart<'_>,
    statement: usize,
    outcome: &Outcome<'_>,
) -> Result<(), AllocError>
    ensures { OnOk result (page_text page.new ≡ page_text page.old ++ statement_text (step_view step.now) statement outcome.now) }
{
    match outcome {
        Outcome::Waits => {
            push_statement_name(page, step, statement)?;
            page.push(b" <waiting ...>\n")
        }
        _ => push_over(page, step, statement, outcome),
    }
}

fn push_step(
    page: &mut Page,
    session: &SessionPart<'_>,
    at: Standing,
    outcome: &Outcome<'_>,
) -> Result<(), AllocError>
    ensures text { OnOk result (page_text page.new ≡ page_text page.old ++ step_text (session_view session.now) outcome.now at) }
    ensures memory { OnErr result (step_text (session_view session.now) outcome.now at ≢ []) }
{
    match step_with(session, at.block) {
        Some(step) => push_statement(page, &step, at.statement, outcome),
        None => Ok(()),
    }
}

fn push_event(
    page: &mut Page,
    session: &SessionPart<'_>,
    at: Option<Standing>,
    item: &HistItem<'_>,
) -> Result<(), AllocError>
    ensures text { OnOk result (page_text page.new ≡ page_text page.old ++ event_text item.now.event item.now.reply.outcome at (session_view session.now)) }
    ensures memory { OnErr result (event_text item.now.event item.now.reply.outcome at (session_view session.now) ≢ []) }
{
    match item.event {
        Event::Launch { block, .. } => match step_with(session, block) {
            Some(step) => push_launch(page, &step),
            None => Ok(()),
        },
        Event::Step { .. } => match at {
            Some(at) => push_step(page, session, at, &item.reply.outcome),
            None => Ok(()),
        },
        Event::Leave { .. } => Ok(()),
    }
}

/// Pushes what an item prints, by where its session stands before it.
pub fn push_item(
    page: &mut Page,
    sessions: &[SessionPart<'_>],
    at: Option<Standing>,
    item: &HistItem<'_>,
) -> Result<(), AllocError>
    ensures text { OnOk result (page_text page.new ≡ page_text page.old ++ item_text (map session_view sessions.now) at item.now) }
    ensures memory { OnErr result (item_text (map session_view sessions.now) at item.now ≢ []) }
{
    match session_numbered(sessions, session_of(&item.event) as usize) {
        Some(session) => push_event(page, session, at, item),
        None => Ok(()),
    }
}

/// The teardown of a session, and with 0 that of the whole file.
fn teardown_of<'a>(spec: &Spec<'a>, session: u32) -> Option<Part<'a>>
    ensures { option_map part_view result ≡ teardown_of (spec_view spec.now) session }
{
    match session {
        0 => spec.teardown,
        number => match session_numbered(&spec.sessions, number as usize) {
            Some(session) => session.teardown,
            None => None,
        },
    }
}

fn stands_in(at: Option<Standing>, part: &Part<'_>) -> bool
    ensures { result ≡ stands_in at (part_view part.now) }
{
    match at {
        Some(at) => at.block == part.block,
        None => false,
    }
}

/// Whether the session stands in its teardown.
fn is_in_teardown(spec: &Spec<'_>, session: u32, at: Option<Standing>) -> bool
    ensures { result ≡ option_map_or (stands_in at) (teardown_of (spec_view spec.now) session) false }
{
    match teardown_of(spec, session) {
        Some(part) => stands_in(at, &part),
        None => false,
    }
}

/// Pushes the note on an item with which a teardown fails.
pub fn push_note(
    page: &mut Page,
    spec: &Spec<'_>,
    at: Option<Standing>,
    item: &HistItem<'_>,
) -> Result<(), AllocError>
    ensures text { OnOk result (page_text page.new ≡ page_text page.old ++ item_note (spec_view spec.now) at item.now) }
    ensures memory { OnErr result (item_note (spec_view spec.now) at item.now ≢ []) }
{
    let session = session_of(&item.event);
    if is_in_teardown(spec, session, at) {
        push_outcome_note(page, &spec.sessions, session as usize, &item.reply.outcome)
    } else {
        Ok(())
    }
}
