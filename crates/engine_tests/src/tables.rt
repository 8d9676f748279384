//! Tables of tests: what is tried with an engine over the blocks of lines.

use self::Given::{Launch, Leave, Step};
use crate::stores::comes_to_the_same;
use crate::trial::{Engine, Line, at_last, blocks, engine_of, holds, is_legal, run};
use crate::words::{behind, behind_outcome, behind_rows, is_over, refusal_text};
use row_versions::{Seen, TxId};
use session_core::replays;
use session_machine::{EngineFault, HistItem, Mode, Reply, Turn};
use sql_parser::Block;
use std::alloc::{AllocError, Global};
use std::process::Abort;

/// Whether the outcomes of these events say this.
fn are_said(items: &[HistItem<'static>], words: &str) -> bool {
    let mut rest = Some(words);
    for item in items {
        rest = behind_outcome(rest, &item.reply.outcome);
    }
    is_over(rest)
}

/// Whether the session's block, and what goes on behind it, says this.
fn is_said(
    engine: &mut Engine<'_>,
    session: u32,
    block: u32,
    words: &str,
) -> Result<bool, EngineFault> {
    let before = engine.history().len();
    run(engine, session, block)?;
    match engine.history().get(before..) {
        Some(items) => Ok(are_said(items, words)),
        None => Ok(false),
    }
}

fn all_said(rt: &impl Abort, engine: &mut Engine<'_>, lines: &[Line]) -> Result<(), AllocError> {
    let mut block: u32 = 0;
    for line in lines {
        match is_said(engine, line.0, block, line.2) {
            Ok(so) => holds(rt, so, line.1),
            Err(_) => return Err(AllocError),
        }
        block = block.wrapping_add(1);
    }
    Ok(())
}

/// What a session is given: a block, its next step, or its leave.
#[derive(Clone, Copy)]
pub enum Given {
    Launch(u32, u32),
    Step(u32),
    Leave(u32),
}

/// What a session is given, and the answer.
pub type Call = (Given, &'static str);

fn act(engine: &mut Engine<'_>, given: Given) -> Result<Reply<'static>, EngineFault> {
    match given {
        Launch(session, block) => engine.launch(session, block),
        Step(session) => engine.step(session),
        Leave(session) => engine.leave(session),
    }
}

/// Whether the reply is in these words.
fn is_reply(reply: &Reply<'static>, words: &str) -> bool {
    let rest = behind_outcome(behind(Some(words), "answered"), &reply.outcome);
    is_over(if reply.ended {
        behind(rest, " and ended")
    } else {
        rest
    })
}

/// The call has its answer, unless it is refused memory.
fn has_answer(rt: &impl Abort, engine: &mut Engine<'_>, call: &Call) -> Result<(), AllocError> {
    let (given, words) = *call;
    match act(engine, given) {
        Ok(reply) => holds(rt, is_reply(&reply, words), words),
        Err(EngineFault::Memory) => return Err(AllocError),
        Err(fault) => holds(rt, refusal_text(fault) == words, words),
    }
    Ok(())
}

fn is_refused(answer: Result<Reply<'static>, EngineFault>) -> bool {
    matches!(answer, Err(EngineFault::Spent))
}

fn does_nothing(engine: &mut Engine<'_>) -> bool {
    is_refused(engine.launch(1, 3)) && is_refused(engine.step(1)) && is_refused(engine.leave(1))
}

fn shows_nothing(engine: &Engine<'_>) -> bool {
    matches!(engine.visible(0, "t"), Err(EngineFault::Spent))
        && matches!(engine.turn(), Turn::Spent)
        && !engine.quiet()
}

/// Whether the engine is spent since so many events, which are legal.
fn is_spent(
    alloc: Global,
    engine: &mut Engine<'_>,
    blocks: &[Block<'static>],
    events: usize,
) -> Result<bool, AllocError> {
    let is_spent = does_nothing(engine) && shows_nothing(engine);
    let is_legal = is_legal(alloc, engine, blocks)?;
    Ok(is_spent && is_legal && engine.history().len() == events)
}

/// The calls have their answers, up to one that is refused memory. Then the engine is spent, and its history, which is legal, is the one before that call.
fn have_answers(
    rt: &impl Abort,
    alloc: Global,
    engine: &mut Engine<'_>,
    blocks: &[Block<'static>],
    calls: &[Call],
) -> Result<(), AllocError> {
    for call in calls {
        let before = engine.history().len();
        if has_answer(rt, engine, call).is_err() {
            holds(rt, is_spent(alloc, engine, blocks, before)?, "spent");
            return Err(AllocError);
        }
    }
    Ok(())
}

/// What sessions see of a table.
pub type Sight = (u32, &'static str, &'static str);

fn is_seen(engine: &Engine<'_>, sight: &Sight) -> Result<bool, AllocError> {
    let (session, table, words) = *sight;
    match engine.visible(session, table) {
        Ok(Some(rows)) => Ok(is_over(behind_rows(Some(words), &rows))),
        Ok(None) => Ok(words == "none"),
        Err(EngineFault::Memory) => Err(AllocError),
        Err(fault) => Ok(words == refusal_text(fault)),
    }
}

/// The sessions see this; where memory was refused that has changed nothing, and it is asked again.
fn all_see(rt: &impl Abort, engine: &Engine<'_>, sights: &[Sight]) -> Result<(), AllocError> {
    for sight in sights {
        let so = match is_seen(engine, sight) {
            Ok(so) => so,
            Err(_) => is_seen(engine, sight)?,
        };
        holds(rt, so, sight.2);
    }
    Ok(())
}

/// What a session has kept: rows, and the places of their versions.
pub type Kept = (u32, Option<&'static [(u64, u64)]>);

fn are_at(targets: &[Seen], places: &[(u64, u64)]) -> bool {
    for (seen, place) in targets.iter().zip(places) {
        if seen.row.0 != place.0 || seen.place != place.1 {
            return false;
        }
    }
    targets.len() == places.len()
}

fn keeps(engine: &Engine<'_>, kept: &Kept) -> bool {
    match (engine.kept_targets(kept.0), kept.1) {
        (Some(targets), Some(places)) => are_at(targets, places),
        (None, None) => true,
        _ => false,
    }
}

fn all_keep(engine: &Engine<'_>, all: &[Kept]) -> bool {
    for kept in all {
        if !keeps(engine, kept) {
            return false;
        }
    }
    true
}

/// Who stands in a session's way: the numbers of their transactions.
pub type InTheWay = (u32, &'static [u64]);

fn stands_there(kept: &[TxId], tx: u64) -> bool {
    for other in kept {
        if other.0 == tx {
            return true;
        }
    }
    false
}

fn is_blocked_by(engine: &Engine<'_>, way: &InTheWay) -> bool {
    let kept = engine.kept_blockers(way.0);
    for tx in way.1 {
        if !stands_there(kept, *tx) {
            return false;
        }
    }
    kept.len() == way.1.len()
}

fn all_blocked_by(engine: &Engine<'_>, all: &[InTheWay]) -> bool {
    for way in all {
        if !is_blocked_by(engine, way) {
            return false;
        }
    }
    true
}

/// Whether nothing goes on, after so many events.
fn rests(engine: &Engine<'_>, events: usize) -> bool {
    matches!(engine.turn(), Turn::Driver) && engine.quiet() && engine.history().len() == events
}

/// The history with the end of the event at that place told otherwise.
fn with_other_end(
    alloc: Global,
    history: &[HistItem<'static>],
    place: usize,
) -> Result<Vec<HistItem<'static>>, AllocError> {
    let mut items = Vec::new(alloc);
    for item in history {
        let mut copy = item.copied(alloc)?;
        copy.reply.ended = copy.reply.ended != (items.len() == place);
        items.push(copy)?;
    }
    Ok(items)
}

fn is_changed_legal(
    alloc: Global,
    blocks: &[Block<'static>],
    history: &[HistItem<'static>],
) -> Result<bool, AllocError> {
    let changed = with_other_end(alloc, history, 5)?;
    replays(alloc, blocks, 2, Mode::Directed, &changed)
}

/// Whether the history of a free run of one session replays, and doesn't with the end of any one event told otherwise.
fn replays_freely(
    alloc: Global,
    blocks: &[Block<'static>],
    history: &[HistItem<'static>],
) -> Result<bool, AllocError> {
    for place in 0..history.len() {
        let changed = with_other_end(alloc, history, place)?;
        if replays(alloc, blocks, 1, Mode::Free, &changed)? {
            return Ok(false);
        }
    }
    replays(alloc, blocks, 1, Mode::Free, history)
}

/// Whether the history replays over these blocks and in either mode, and neither with another session count nor with a reply changed.
fn replays_alone(
    alloc: Global,
    blocks: &[Block<'static>],
    history: &[HistItem<'static>],
) -> Result<bool, AllocError> {
    let directed = replays(alloc, blocks, 2, Mode::Directed, history)?;
    let free = replays(alloc, blocks, 2, Mode::Free, history)?;
    let by_one = replays(alloc, blocks, 1, Mode::Directed, history)?;
    let changed = is_changed_legal(alloc, blocks, history)?;
    Ok(directed && free && !by_one && !changed)
}

fn is_of(engine: &Engine<'_>, blocks: &[Block<'static>], sessions: u32, mode: Mode) -> bool {
    engine.is_of(blocks, sessions, mode)
}

fn is_of_fewer(engine: &Engine<'_>, blocks: &[Block<'static>]) -> bool {
    match blocks {
        [_, fewer @ ..] => is_of(engine, fewer, 2, Mode::Free),
        [] => true,
    }
}

/// Whether the engine is of these blocks in any spelling, and of none else, two sessions and the free mode.
fn is_of_its_blocks(
    alloc: Global,
    engine: &Engine<'_>,
    its: &[Block<'static>],
    respelt: &[Line],
) -> Result<bool, AllocError> {
    let respelt = blocks(alloc, respelt)?;
    Ok(
        is_of(engine, its, 2, Mode::Free)
            && is_of(engine, &respelt, 2, Mode::Free)
            && !is_of(engine, its, 1, Mode::Free)
            && !is_of(engine, its, 2, Mode::Directed)
            && !is_of_fewer(engine, its),
    )
}

/// What is tried with an engine.
#[derive(Clone, Copy)]
pub enum Try {
    /// The blocks, one after the other, say what the lines have.
    Lines,
    Calls(&'static [Call]),
    Sights(&'static [Sight]),
    /// The sessions have kept this of the statements that they are in the middle of.
    Keep(&'static [Kept]),
    /// These, and nobody else, are kept as standing in the way of the sessions.
    Blocked(&'static [InTheWay]),
    /// Nothing goes on, after so many events.
    Rests(usize),
    Replays,
    /// The history replays in a free run of one session, and with none of its replies changed.
    ReplaysFreely,
    /// It is of its blocks, also in this spelling.
    IsOf(&'static [Line]),
}

/// An engine over the blocks of these lines, and what is tried with it in turn.
#[derive(Clone, Copy)]
pub struct Run<'r> {
    pub lines: &'r [Line],
    pub sessions: u32,
    pub mode: Mode,
    pub tries: &'r [Try],
}

fn is_tried(
    rt: &impl Abort,
    alloc: Global,
    engine: &mut Engine<'_>,
    blocks: &[Block<'static>],
    run: &Run<'_>,
    of: Try,
) -> Result<(), AllocError> {
    let so = match of {
        Try::Lines => return all_said(rt, engine, run.lines),
        Try::Calls(calls) => return have_answers(rt, alloc, engine, blocks, calls),
        Try::Sights(sights) => return all_see(rt, engine, sights),
        Try::Keep(kept) => all_keep(engine, kept),
        Try::Blocked(ways) => all_blocked_by(engine, ways),
        Try::Rests(events) => rests(engine, events),
        Try::Replays => replays_alone(alloc, blocks, engine.history())?,
        Try::ReplaysFreely => replays_freely(alloc, blocks, engine.history())?,
        Try::IsOf(respelt) => is_of_its_blocks(alloc, engine, blocks, respelt)?,
    };
    holds(rt, so, "what is tried with the engine");
    Ok(())
}

fn goes_over(
    rt: &impl Abort,
    alloc: Global,
    blocks: &[Block<'static>],
    run: &Run<'_>,
) -> Result<(), AllocError> {
    if run.sessions > 64 {
        return Err(AllocError);
    }
    let mut engine = engine_of(alloc, blocks, run.sessions, run.mode)?;
    for of in run.tries {
        is_tried(rt, alloc, &mut engine, blocks, run, *of)?;
    }
    match comes_to_the_same(alloc, blocks, run.mode, &engine) {
        Ok(so) => holds(rt, so, "over the store that links versions"),
        Err(_) => return Err(AllocError),
    }
    Ok(())
}

fn goes_once(rt: &impl Abort, alloc: Global, run: &Run<'_>) -> Result<(), AllocError> {
    let blocks = blocks(alloc, run.lines)?;
    goes_over(rt, alloc, &blocks, run)
}

/// All that is tried holds; where memory was refused it is tried once more.
pub fn goes(rt: &impl Abort, alloc: Global, run: &Run<'_>) {
    at_last!(rt, goes_once(rt, alloc, run));
}

/// The blocks of the lines, one after the other, say what the lines have.
pub fn check(rt: &impl Abort, alloc: Global, lines: &[Line]) {
    let run = Run {
        lines,
        sessions: 4,
        mode: Mode::Directed,
        tries: &[Try::Lines],
    };
    goes(rt, alloc, &run);
}
