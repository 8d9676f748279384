//! Seats beside the history of an engine.
ghost use Rattle.std.specs.Prelude.{◌≡◌};
ghost use Rattle.session_machine.specs.Machine.{session_of};

use crate::asking::{but_wants, holds};
use row_versions::ListStore;
use session_core::EngineState;
use session_machine::{Event, Mode};
use session_threads::{Seat, ThreadFault, act, close};
use sql_parser::{Block, Role, parse_block};
use std::alloc::{AllocError, Global};
use std::test::Fail;

fn blocks<'t>(alloc: Global) -> Result<Vec<Block<'t>>, Fail> {
    let mut blocks = Vec::new(alloc);
    for text in [
        "CREATE TABLE t (x int); INSERT INTO t VALUES (1);",
        "BEGIN ISOLATION LEVEL REPEATABLE READ; SELECT * FROM t;",
        "INSERT INTO t VALUES (2);",
        "SELECT * FROM t;",
    ] {
        blocks.push(parse_block(alloc, text, Role::Main)?)?;
    }
    Ok(blocks)
}

/// What a session is given.
#[derive(Clone, Copy)]
enum Given {
    Launch(u32),
    Step,
    Leave,
}

/// A history of two sessions: the control session makes the table, session 1 reads in Repeatable Read, session 2 writes, both
/// read, and session 1 leaves.
const EVENTS: [(usize, Given); 13] = [
    (0, Given::Launch(0)),
    (0, Given::Step),
    (0, Given::Step),
    (1, Given::Launch(1)),
    (1, Given::Step),
    (1, Given::Step),
    (2, Given::Launch(2)),
    (2, Given::Step),
    (1, Given::Launch(3)),
    (1, Given::Step),
    (2, Given::Launch(3)),
    (2, Given::Step),
    (1, Given::Leave),
];

/// The event that gives that to the session.
fn event_of(session: u32, given: Given) -> Event
    ensures { session_of result ≡ session }
{
    match given {
        Given::Launch(block) => Event::Launch { session, block },
        Given::Step => Event::Step { session },
        Given::Leave => Event::Leave { session },
    }
}

fn do_one<'t>(
    engine: &mut EngineState<'_, 't, ListStore>,
    seat: &mut Seat<'t>,
    given: Given,
) -> Result<(), ThreadFault> {
    let event = event_of(seat.session(), given);
    act(engine, seat, event)
}

/// The seats behind that history.
fn seats_of<'t>(
    alloc: Global,
    engine: &mut EngineState<'_, 't, ListStore>,
) -> Result<Vec<Seat<'t>>, Fail> {
    let mut seats = Vec::new(alloc);
    for session in 0..3 {
        seats.push(Seat::new(alloc, session))?;
    }
    for (session, given) in EVENTS {
        let Some(seat) = seats.get_mut(session) else {
            return Err("a session without a seat".into());
        };
        do_one(engine, seat, given)?;
    }
    Ok(seats)
}

/// Which seats are put beside the engine.
#[derive(Clone, Copy)]
enum Hands {
    All,
    WithoutTwo,
    OneTwice,
    NewZero,
    TwoMore,
}

fn changed<'t>(
    alloc: Global,
    seats: Vec<Seat<'t>>,
    hands: Hands,
) -> Result<Vec<Seat<'t>>, AllocError> {
    let mut changed = Vec::new(alloc);
    for seat in seats {
        match (hands, seat.session()) {
            (Hands::NewZero, 0) => changed.push(Seat::new(alloc, 0))?,
            (Hands::WithoutTwo, 2) => {}
            (Hands::OneTwice, 2) => {
                changed.push(Seat::new(alloc, 1))?;
                changed.push(seat)?;
            }
            _ => changed.push(seat)?,
        }
    }
    if let Hands::TwoMore = hands {
        changed.push(Seat::new(alloc, 9))?;
        changed.push(Seat::new(alloc, 7))?;
    }
    Ok(changed)
}

/// What `close` finds wrong with the seats after a run of two sessions.
fn found(alloc: Global, blocks: &[Block<'_>], hands: Hands) -> Result<Option<ThreadFault>, Fail> {
    let store = ListStore::new(alloc);
    let mut engine = EngineState::new(alloc, blocks, 2, Mode::Directed, store)?;
    let seats = seats_of(alloc, &mut engine)?;
    let changed = changed(alloc, seats, hands)?;
    Ok(but_wants(close(engine, changed).err())?)
}

#[test]
fn close_compares_seats(rt: HostRuntime) -> Result<(), Fail> {
    let alloc = rt.alloc();
    let blocks = blocks(alloc)?;
    for (hands, session, of) in [
        (Hands::All, None, "all seats"),
        (Hands::WithoutTwo, Some(2), "without seat 2"),
        (Hands::OneTwice, Some(1), "seat 1 twice"),
        (Hands::NewZero, Some(0), "a new seat 0"),
        (Hands::TwoMore, Some(7), "seats 9 and 7"),
    ] {
        let expected = session.map(|session| ThreadFault::SeatMismatch { session });
        holds(&rt, found(alloc, &blocks, hands)? == expected, of);
    }
    Ok(())
}
