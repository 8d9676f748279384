//! Seats beside an engine, where memory is wanted on the way.
ghost use Rattle.std.specs.Prelude.{◌≡◌};
ghost use Rattle.session_machine.specs.Machine.{session_of};

use crate::asking::holds;
use row_versions::ListStore;
use session_core::EngineState;
use session_machine::{EngineFault, Event, Mode};
use session_threads::{Seat, ThreadFault, act, close};
use sql_parser::{Block, Role, parse_block};
use std::alloc::{AllocError, Global};
use std::process::Abort;

/// The control session makes a table, session 1 reads in Repeatable Read, session 2 writes, both read.
const TEXTS: [&str; 4] = [
    "CREATE TABLE t (x int); INSERT INTO t VALUES (1);",
    "BEGIN ISOLATION LEVEL REPEATABLE READ; SELECT * FROM t;",
    "INSERT INTO t VALUES (2);",
    "SELECT * FROM t;",
];

fn blocks(alloc: Global) -> Result<Vec<Block<'static>>, AllocError> {
    let mut blocks = Vec::new(alloc);
    for text in TEXTS {
        let Ok(block) = parse_block(alloc, text, Role::Main) else {
            return Err(AllocError);
        };
        blocks.push(block)?;
    }
    Ok(blocks)
}

/// What a session is given.
#[derive(Clone, Copy)]
enum Given {
    Launch(u32),
    Step,
    Leave,
}

const EVENTS: [(usize, Given); 13] = [
    (0, Given::Launch(0)),
    (0, Given::Step),
    (0, Given::Step),
    (1, Given::Launch(1)),
    (1, Given::Step),
    (1, Given::Step),
    (2, Given::Launch(2)),
    (2, Given::Step),
    (1, Given::Launch(3)),
    (1, Given::Step),
    (2, Given::Launch(3)),
    (2, Given::Step),
    (1, Given::Leave),
];

/// The event that gives that to the session.
fn event_of(session: u32, given: Given) -> Event
    ensures { session_of result ≡ session }
{
    match given {
        Given::Launch(block) => Event::Launch { session, block },
        Given::Step => Event::Step { session },
        Given::Leave => Event::Leave { session },
    }
}

type Engine<'a> = EngineState<'a, 'static, ListStore>;

fn do_one(
    engine: &mut Engine<'_>,
    seats: &mut [Seat<'static>],
    place: usize,
    given: Given,
) -> Result<(), ThreadFault> {
    let Some(seat) = seats.get_mut(place) else {
        return Err(ThreadFault::OtherRun);
    };
    let event = event_of(seat.session(), given);
    act(engine, seat, event)
}

/// Where an event is refused, memory was; an engine that was refused it does nothing more, and one whose seat was goes on.
fn goes_on(rt: &impl Abort, engine: &mut Engine<'_>, seats: &mut [Seat<'static>]) -> bool {
    for (place, given) in EVENTS {
        match do_one(engine, seats, place, given) {
            Ok(()) => {}
            Err(ThreadFault::Memory) => {
                let again = do_one(engine, seats, place, given);
                holds(rt, again.is_ok(), "once more");
            }
            Err(fault) => {
                let memory = ThreadFault::Engine(EngineFault::Memory);
                let spent = Err(ThreadFault::Engine(EngineFault::Spent));
                holds(rt, fault == memory, "a want of memory");
                let again = do_one(engine, seats, place, given);
                holds(rt, again == spent, "and then nothing");
                return false;
            }
        }
    }
    true
}

fn empty_seats(alloc: Global) -> Result<Vec<Seat<'static>>, AllocError> {
    let mut seats = Vec::new(alloc);
    for session in 0..3 {
        seats.push(Seat::new(alloc, session))?;
    }
    Ok(seats)
}

/// Whether all events are done. The seats fit the engine, wherever that ended.
fn fit(rt: &impl Abort, alloc: Global, blocks: &[Block<'static>]) -> Result<bool, AllocError> {
    let store = ListStore::new(alloc);
    let mut engine = EngineState::new(alloc, blocks, 2, Mode::Directed, store)?;
    let mut seats = empty_seats(alloc)?;
    let are_done = goes_on(rt, &mut engine, &mut seats);
    holds(rt, close(engine, seats).is_ok(), "the seats fit");
    Ok(are_done)
}

fn fit_once(rt: &impl Abort, alloc: Global) -> Result<bool, AllocError> {
    let blocks = blocks(alloc)?;
    fit(rt, alloc, &blocks)
}

#[test]
fn close_compares_seats(rt: HostRuntime) {
    let first = fit_once(&rt, rt.alloc());
    let last = if first == Ok(true) {
        first
    } else {
        fit_once(&rt, rt.alloc())
    };
    holds(&rt, last == Ok(true), "the end of a run");
}
