//! Whether a history launched what the free run of its spec launches.
ghost use Rattle.std.specs.Prelude.{◌≡◌, ◌≢◌, ◌↔◌, ◌⊎◌, ◌+◌, ◌-◌, ◌<◌, ◌^◌, ◌++◌, [], length, map, drop, slice_get, Some, IsTrue, true, false, IfOk, OnOk, OnErr, MatchOption};
ghost use Rattle.std.specs.Option.{option_map_or};
ghost use Rattle.spec_parser.specs.Trees.{spec_view};
ghost use Rattle.permutation_plans.specs.FreeLaunches.{FreeLaunches as Listed, blocks_in, free_launches};
ghost use Rattle.permutation_plans.specs.FreeRegular.{given, events_of, launches_in, script_events, AreGiven, AreScriptsGiven, between};
ghost use Rattle.permutation_plans.specs.FreeRegular.{items_of, ends_each, EachEnds, IsWhole, stops, item_stops, IsStopped, FitsFrom, FreeFits};

use crate::free_launches::FreeLaunches;
use report_lines::{PermutationRun, PlannedLaunch, Segments, is_order, session_of};
use session_machine::{Event, HistItem, Outcome};
use spec_parser::Spec;
use std::alloc::{AllocError, Global};

/// The Launches and Leaves of the items, in order.
fn given(alloc: Global, items: &[HistItem<'_>]) -> Result<Vec<Event>, AllocError>
    ensures given { IfOk result (λ events. events.items ≡ given items.now) }
    ensures memory { OnErr result (items.now ≢ []) }
{
    let mut events = Vec::new(alloc);
    for item in items {
        if is_order(&item.event) {
            events.push(item.event)?;
        }
    }
    Ok(events)
}

/// Whether these are the session's events.
fn are_events_of(events: &[Event], session: u32, wanted: &[Event]) -> bool
    ensures { IsTrue result ↔ (events_of session events.now ≡ wanted.now) }
{
    let mut rest = wanted;
    for event in events {
        if session_of(event) == session {
            let [first, others @ ..] = rest else {
                return false;
            };
            if *first != *event {
                return false;
            }
            rest = others;
        }
    }
    rest.is_empty()
}

/// A Launch of each block in the session.
fn push_launches(events: &mut Vec<Event>, session: u32, blocks: &[u32]) -> Result<(), AllocError>
    ensures events { OnOk result (events.new.items ≡ events.old.items ++ launches_in session blocks.now) }
    ensures memory { OnErr result (blocks.now ≢ []) }
{
    for block in blocks {
        events.push(Event::Launch {
            session,
            block: *block,
        })?;
    }
    Ok(())
}

/// What a session is given that has these blocks.
fn script_events(alloc: Global, session: u32, blocks: &[u32]) -> Result<Vec<Event>, AllocError>
    ensures { IfOk result (λ events. events.items ≡ script_events session blocks.now) }
{
    let mut events = Vec::new(alloc);
    push_launches(&mut events, session, blocks)?;
    events.push(Event::Leave { session })?;
    Ok(events)
}

/// Whether the session is given these blocks, and leaves.
fn is_given(
    alloc: Global,
    events: &[Event],
    session: u32,
    blocks: &[u32],
) -> Result<bool, AllocError>
    ensures { IfOk result (λ fit. IsTrue fit ↔ (events_of session events.now ≡ script_events session blocks.now)) }
{
    let wanted = script_events(alloc, session, blocks)?;
    Ok(are_events_of(events, session, &wanted))
}

/// Whether each session is given its script.
fn are_given(alloc: Global, events: &[Event], scripts: &[Vec<u32>]) -> Result<bool, AllocError>
    requires { length scripts.now < 2 ^ 32 }
    ensures given { IfOk result (λ fit. IsTrue fit ↔ AreGiven events.now 1 (map blocks_in scripts.now)) }
    ensures memory { OnErr result (map blocks_in scripts.now ≢ []) }
{
    for (place, blocks) in scripts.iter().enumerate() {
        if !is_given(alloc, events, place as u32 + 1, blocks)? {
            return Ok(false);
        }
    }
    Ok(true)
}

/// Whether each block of the session has ended before the next.
fn ends_each(items: &[HistItem<'_>], session: u32) -> bool
    ensures { result ≡ ends_each true (items_of session items.now) }
{
    let mut over = true;
    for item in items {
        if session_of(&item.event) == session {
            if !over && is_order(&item.event) {
                return false;
            }
            over = item.reply.ended;
        }
    }
    over
}

/// Whether that is so of so many sessions.
fn all_end(items: &[HistItem<'_>], sessions: u32) -> bool
    ensures { IsTrue result ↔ EachEnds sessions items.now }
{
    for session in 0..sessions {
        if !ends_each(items, session) {
            return false;
        }
    }
    true
}

/// What is given between the setups with the control session's Leave and its last blocks.
fn between<'s>(plan: &FreeLaunches, events: &'s [Event]) -> &'s [Event]
    ensures { result.now ≡ between plan.now events.now }
{
    let from = plan.before.len() + 1;
    let to = events.len().saturating_sub(plan.after.len());
    if from <= to { &events[from..to] } else { &[] }
}

/// Whether the last events are the control session's last blocks.
fn ends_with(events: &[Event], after: &[u32]) -> bool
    ensures { IsTrue result ↔ (drop (length events.now - length after.now) events.now ≡ launches_in 0 after.now) }
{
    let mut rest = &events[events.len().saturating_sub(after.len())..];
    for block in after {
        let [event, others @ ..] = rest else {
            return false;
        };
        let launch = Event::Launch {
            session: 0,
            block: *block,
        };
        if *event != launch {
            return false;
        }
        rest = others;
    }
    rest.is_empty()
}

/// Whether the sessions are given what they are to be given, the control session's setups apart.
fn scripts_fit(alloc: Global, plan: &FreeLaunches, events: &[Event]) -> Result<bool, AllocError>
    requires { length plan.now.scripts < 2 ^ 32 }
    ensures fit { IfOk result (λ fit. IsTrue fit ↔ AreScriptsGiven plan.now events.now) }
    ensures memory { OnErr result (plan.now.scripts ≢ []) }
{
    let middle = between(plan, events);
    let scripts = are_given(alloc, middle, &plan.scripts)?;
    Ok(scripts && are_events_of(middle, 0, &[]) && ends_with(events, &plan.after))
}

/// Whether the event of this number is this one.
fn is_at(events: &[Event], number: usize, wanted: Event) -> bool
    ensures { IsTrue result ↔ (slice_get events.now number ≡ Some wanted) }
{
    match events.get(number) {
        Some(event) => *event == wanted,
        None => false,
    }
}

/// Whether a history is whole whose setups went well.
fn is_whole(
    alloc: Global,
    plan: &FreeLaunches,
    items: &[HistItem<'_>],
    events: &[Event],
) -> Result<bool, AllocError>
    requires few { length plan.now.scripts + 1 < 2 ^ 32 }
    requires given { events.now ≡ given items.now }
    ensures whole { IfOk result (λ whole. IsTrue whole ↔ IsWhole plan.now items.now) }
    ensures memory { OnErr result (plan.now.scripts ≢ []) }
{
    let left = is_at(events, plan.before.len(), Event::Leave { session: 0 });
    let given = scripts_fit(alloc, plan, events)?;
    let ended = all_end(items, plan.scripts.len() as u32 + 1);
    Ok(left && given && ended)
}

fn stops(outcome: &Outcome<'_>) -> bool
    ensures { result ≡ stops outcome.now }
{
    matches!(outcome, Outcome::Waits | Outcome::Failed(_))
}

/// Whether a history ends with a setup that failed or waits, before which so many events were given.
fn is_stopped(items: &[HistItem<'_>], events: &[Event], before: usize) -> bool
    requires given { events.now ≡ given items.now }
    requires room { before + 1 < 2 ^ 64 }
    ensures { IsTrue result ↔ IsStopped items.now before }
{
    match items.last() {
        Some(item) => stops(&item.reply.outcome) && events.len() == before + 1,
        None => false,
    }
}

/// Whether a history fits, by its setups; `None` where all of them went well, so that what comes behind them decides.
fn setups_fit(plan: &FreeLaunches, segments: &Segments<'_>, events: &[Event]) -> Option<bool>
    requires { events.now ≡ given segments.now }
    ensures { MatchOption result (FreeFits plan.now segments.now ↔ IsWhole plan.now segments.now) (λ fit. IsTrue fit ↔ FreeFits plan.now segments.now) }
{
    for (number, setup) in plan.before.iter().enumerate() {
        let launch = Event::Launch {
            session: setup.session,
            block: setup.block,
        };
        if !is_at(events, number, launch) {
            return Some(false);
        }
        if !segments.went_well(number, setup.session) {
            return Some(is_stopped(segments.items(), events, number));
        }
    }
    None
}

fn fits(alloc: Global, plan: &FreeLaunches, items: &[HistItem<'_>]) -> Result<bool, AllocError>
    requires { length plan.now.scripts + 1 < 2 ^ 32 }
    ensures fit { IfOk result (λ fit. IsTrue fit ↔ FreeFits plan.now items.now) }
    ensures memory { OnErr result ((items.now ≢ []) ⊎ (plan.now.scripts ≢ [])) }
{
    let no_entries = Vec::new(alloc);
    let run = PermutationRun::new(alloc, &no_entries, items, 0)?;
    let events = given(alloc, items)?;
    match setups_fit(plan, &run.segments(), &events) {
        Some(fit) => Ok(fit),
        None => {
            let whole = is_whole(alloc, plan, items, &events)?;
            Ok(whole)
        }
    }
}

/// Whether a history launches what a free run of the spec launches.
pub fn free_fits(alloc: Global, spec: &Spec<'_>, items: &[HistItem<'_>]) -> Result<bool, AllocError>
    requires { length spec.now.sessions.items + 1 < 2 ^ 32 }
    ensures { IfOk result (λ fit. IsTrue fit ↔ FreeFits (free_launches (spec_view spec.now)) items.now) }
{
    let plan = FreeLaunches::of(alloc, spec)?;
    let fit = fits(alloc, &plan, items)?;
    Ok(fit)
}
