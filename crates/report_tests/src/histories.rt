//! Histories made by hand, each by a table of its parts.

use crate::values::{cell, fault};
use session_machine::{Event, HistItem, Outcome, Reply};
use std::alloc::{AllocError, Global};
use std::process::Abort;

/// One item: which session, and what it does or what comes of its statement.
#[derive(Clone, Copy)]
pub(crate) enum Part {
    /// The session is given this block.
    To(u32, u32),
    /// A statement works, and others of the block follow.
    Works(u32),
    /// The last statement of the block works.
    Ends(u32),
    Waits(u32),
    /// A statement gives a table of this one title and number, and others follow.
    Shows(u32, &'static str, i32),
    /// The last statement of the block gives that.
    EndsWith(u32, &'static str, i32),
    /// The last statement of the block fails, by the fault of this number.
    Fails(u32, usize),
    Out(u32),
}

use Part::{Ends, EndsWith, Fails, Out, Shows, To, Waits, Works};

fn event(part: Part) -> Event {
    match part {
        To(session, block) => Event::Launch { session, block },
        Works(session)
        | Ends(session)
        | Waits(session)
        | Shows(session, ..)
        | EndsWith(session, ..)
        | Fails(session, _) => Event::Step { session },
        Out(session) => Event::Leave { session },
    }
}

fn outcome(alloc: Global, part: Part) -> Result<Outcome<'static>, AllocError> {
    match part {
        To(..) => Ok(Outcome::Launched),
        Works(_) | Ends(_) => Ok(Outcome::Done),
        Waits(_) => Ok(Outcome::Waits),
        Shows(_, title, number) | EndsWith(_, title, number) => cell(alloc, title, number),
        Fails(_, number) => fault(alloc, number),
        Out(_) => Ok(Outcome::Left),
    }
}

fn item(alloc: Global, part: Part) -> Result<HistItem<'static>, AllocError> {
    let outcome = outcome(alloc, part)?;
    let ended = matches!(part, Ends(_) | EndsWith(..) | Fails(..) | Out(_));
    Ok(HistItem {
        event: event(part),
        reply: Reply { outcome, ended },
    })
}

/// The same of a session so many numbers further, and a block so many further.
fn moved(part: Part, sessions: u32, blocks: u32) -> Part {
    match part {
        To(session, block) => To(session.wrapping_add(sessions), block.wrapping_add(blocks)),
        Ends(session) => Ends(session.wrapping_add(sessions)),
        Waits(session) => Waits(session.wrapping_add(sessions)),
        Out(session) => Out(session.wrapping_add(sessions)),
        other => other,
    }
}

/// Parts that come so many times, each time of sessions and blocks that are so many numbers further.
#[derive(Clone, Copy)]
pub(crate) struct Round<'p> {
    pub(crate) times: Times,
    pub(crate) parts: &'p [Part],
    pub(crate) by: (u32, u32),
}

/// Once, as often as a test asks, or once as the round behind so many.
#[derive(Clone, Copy)]
pub(crate) enum Times {
    Once,
    Each,
    Behind,
}

impl Times {
    pub(crate) fn bounds(self, count: u32) -> (u32, u32) {
        match self {
            Times::Once => (0, 1),
            Times::Each => (0, count),
            Times::Behind => (count, count.saturating_add(1)),
        }
    }
}

fn push_round(
    alloc: Global,
    items: &mut Vec<HistItem<'static>>,
    round: Round<'_>,
    count: u32,
) -> Result<(), AllocError> {
    let (first, end) = round.times.bounds(count);
    for n in first..end {
        let sessions = n.wrapping_mul(round.by.0);
        let blocks = n.wrapping_mul(round.by.1);
        for part in round.parts {
            items.push(item(alloc, moved(*part, sessions, blocks))?)?;
        }
    }
    Ok(())
}

/// The history of these rounds, where a test asks for so many.
pub(crate) fn history(
    alloc: Global,
    rounds: &[Round<'_>],
    count: u32,
) -> Result<Vec<HistItem<'static>>, AllocError> {
    let mut items = Vec::new(alloc);
    for round in rounds {
        push_round(alloc, &mut items, *round, count)?;
    }
    Ok(items)
}

/// The round of these parts, once.
pub(crate) fn once(parts: &[Part]) -> Round<'_> {
    Round {
        times: Times::Once,
        parts,
        by: (0, 0),
    }
}

pub(crate) fn holds(rt: &impl Abort, fact: bool) {
    assert!(rt; fact);
}
