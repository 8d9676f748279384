//! What steps answered, by a history.

ghost use Rattle.std.specs.Prelude.{◌≡◌, ◌≤◌, ◌++◌, ◌&&◌, IfOk, OnOk, flat_map, length, map};
ghost use Rattle.std.specs.List.{enumerate_from};
ghost use Rattle.iso_lexer.specs.declared.limits.TheConstants.{MOST_SESSIONS};
ghost use Rattle.spec_parser.specs.Trees.{session_view, step_view, StepTree};
ghost use Rattle.outcome_counts.specs.Outcomes.{answers_in, is_answer, is_in, is_step_of, session_answers};
ghost use Rattle.outcome_counts.specs.Inner.Answers.{lists_of};

use session_machine::{Event, HistItem, Outcome};
use spec_parser::{SessionPart, StepPart};
use std::alloc::{AllocError, Global};

/// Whether a statement is over with this.
fn is_answer(outcome: &Outcome<'_>) -> bool
    ensures { result ≡ is_answer outcome.now }
{
    matches!(
        outcome,
        Outcome::Done | Outcome::Rows(_) | Outcome::Failed(_)
    )
}

/// Whether the session is in the block behind an event.
fn is_in(session: u32, block: u32, before: bool, event: &Event) -> bool
    ensures { result ≡ is_in session block before event.now }
{
    match *event {
        Event::Launch {
            session: launched,
            block: given,
        } => {
            if launched == session {
                given == block
            } else {
                before
            }
        }
        Event::Step { .. } | Event::Leave { .. } => before,
    }
}

fn is_step_of(session: u32, event: &Event) -> bool
    ensures { result ≡ is_step_of session event.now }
{
    match *event {
        Event::Step { session: stepped } => stepped == session,
        Event::Launch { .. } | Event::Leave { .. } => false,
    }
}

/// Whether the item is an answer in the block, where its session is in that or not.
fn tells(session: u32, is_here: bool, item: &HistItem<'_>) -> bool
    ensures { result ≡ (is_here && is_step_of session item.now.event && is_answer item.now.reply.outcome) }
{
    is_here && is_step_of(session, &item.event) && is_answer(&item.reply.outcome)
}

/// What the statements of a session's block answered, in their order.
fn answers_in<'t>(
    alloc: Global,
    items: &[HistItem<'t>],
    session: u32,
    block: u32,
) -> Result<Vec<Outcome<'t>>, AllocError>
    ensures { IfOk result (λ answers. answers.items ≡ answers_in items.now session block) }
{
    let mut answers = Vec::new(alloc);
    let mut is_here = false;
    for item in items {
        if tells(session, is_here, item) {
            answers.push(item.reply.outcome.copied(alloc)?)?;
        }
        is_here = is_in(session, block, is_here, &item.event);
    }
    Ok(answers)
}

/// Adds what each of a session's steps answered.
fn push_answers<'t>(
    alloc: Global,
    answers: &mut Vec<Vec<Outcome<'t>>>,
    items: &[HistItem<'t>],
    session: u32,
    steps: &[StepPart<'_>],
) -> Result<(), AllocError>
    ensures { OnOk result (lists_of answers.new.items ≡ lists_of answers.old.items ++ map (λ (step : StepTree). answers_in items.now session step.part.block) (map step_view steps.now)) }
{
    for step in steps {
        answers.push(answers_in(alloc, items, session, step.part.block)?)?;
    }
    Ok(())
}

/// Adds what each step of these sessions answered.
pub fn push_sessions<'t>(
    alloc: Global,
    answers: &mut Vec<Vec<Outcome<'t>>>,
    items: &[HistItem<'t>],
    sessions: &[SessionPart<'_>],
) -> Result<(), AllocError>
    requires { length sessions.now ≤ MOST_SESSIONS }
    ensures { OnOk result (lists_of answers.new.items ≡ lists_of answers.old.items ++ flat_map (session_answers items.now) (enumerate_from 1 (map session_view sessions.now))) }
{
    for (place, session) in sessions.iter().enumerate() {
        push_answers(alloc, answers, items, place as u32 + 1, &session.steps)?;
    }
    Ok(())
}
