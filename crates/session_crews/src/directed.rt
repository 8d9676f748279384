//! Runs that a crew serves side by side, in each of which a driver says what is given to whom.
ghost use Rattle.std.specs.Prelude.{◌≡◌, ◌≤◌, ◌+◌, ℕ, true, false, All, IfOk, IfSome, length, vec_len};
ghost use Rattle.iso_lexer.specs.declared.limits.TheConstants.{MOST_SESSIONS};
ghost use Rattle.session_crews.specs.Crews.{EachFrom, MayServe};
ghost use Rattle.session_crews.specs.Inner.Queue.{Serves};
ghost use Rattle.session_crews.specs.Inner.Room.{IsRoomFor};

use crate::counter::Counter;
use crate::crew::Room;
use crate::driven::Drives;
use crate::keeper::{Keeper, Keeping};
use crate::queue::{Kept, Queue};
use crate::shared::Opened;
use crate::slot::Slot;
use session_machine::{Engine, EngineFault};
use session_seats::{Board, Gate, NotStarted, Orderings, SeatAt, ThreadFault, start_thread};
use std::alloc::{AllocError, Global};
use std::marker::Brand;
use std::sync::Wait;
use std::thread;
use std::thread::{JoinHandle, Scope, Threads};

/// How many runs are in flight at a time, at most: what wakes a thread serves many, and what each holds is soon given to the next.
const IN_FLIGHT: usize = 24;

/// Starts a thread for a session. Each start that is refused loses the first run that waits, and then it is tried again for the
/// others. Says whether the thread was started: else no run waits any more.
fn start_one<
    's,
    'e: 's,
    E: Engine,
    S: SeatAt<E>,
    O: Orderings,
    D: Drives<E> + Drop,
    T: Drop,
    B: Keeping<Opened<E, D>, T>,
    K: Keeper<E, S, T>,
    F: FnOnce() -> () + Send + Drop + 's,
>(
    scope: &'s Scope<'s, &'e ()>,
    crew: &mut Vec<JoinHandle<()>>,
    counter: &mut Counter<'_, E, S, O, D, T, B, K>,
    work: F,
) -> bool
    requires pre { (f : _) → F.pre f }
    ensures started { result ≡ true → length crew.new.items ≡ length crew.old.items + 1 }
    ensures none_left { result ≡ false → counter.new.waiting ≡ 0 }
    ensures same { counter.new.sessions ≡ counter.old.sessions }
{
    let mut work = work;
    for _ in 0..counter.waiting() {
        let Err(refused) = start_thread(scope, crew, work) else {
            return true;
        };
        let NotStarted { fault, work: again } = refused;
        counter.lose_next(fault);
        work = again;
    }
    false
}

/// Starts a thread for each session but the control session. Says whether all were started: else no run waits any more.
fn start<
    's,
    'e: 's,
    E: Engine + Send + 's,
    S: SeatAt<E> + Send + 's,
    O: Orderings + Send + 's,
    D: Drives<E> + Send + Drop + 's,
    T: Drop,
    B: Keeping<Opened<E, D>, T>,
    K: Keeper<E, S, T>,
    G: Gate + 's,
    R: Wait + Sync + 's,
>(
    scope: &'s Scope<'s, &'e ()>,
    rt: &'s R,
    room: &'s Room<'_, E, S, O, D, G>,
    crew: &mut Vec<JoinHandle<()>>,
    counter: &mut Counter<'_, E, S, O, D, T, B, K>,
) -> bool
    ensures started { result ≡ true → length crew.new.items ≡ length crew.old.items + counter.old.sessions }
    ensures none_left { result ≡ false → counter.new.waiting ≡ 0 }
{
    for session in 1..counter.sessions() + 1 {
        let work = move || room.work(rt, session);
        if !start_one(scope, crew, counter, work) {
            return false;
        }
    }
    true
}

/// Starts the threads, does what is the control session's in the calling one until all runs are over, and joins the others.
fn serve_in<
    's,
    'e: 's,
    E: Engine + Send + 's,
    S: SeatAt<E> + Send + 's,
    O: Orderings + Send + 's,
    D: Drives<E> + Send + Drop + 's,
    T: Drop,
    B: Keeping<Opened<E, D>, T>,
    K: Keeper<E, S, T>,
    G: Gate + 's,
    R: Threads + Wait + Sync + 's,
>(
    scope: &'s Scope<'s, &'e ()>,
    rt: &'s R,
    room: &'s Room<'_, E, S, O, D, G>,
    counter: &mut Counter<'_, E, S, O, D, T, B, K>,
) {
    let mut crew = Vec::new(room.alloc);
    let _ = start(scope, rt, room, &mut crew, counter);
    counter.serve(rt, room);
    for thread in crew {
        thread.join(rt);
    }
}

/// What is kept at this place, or that the run there came to no end.
fn item_at<E, S, T: Drop, K: Keeper<E, S, T>>(
    keeper: &K,
    kept: Option<Option<Kept<T>>>,
    place: usize,
) -> T
    requires ready { K.is_ready keeper.now }
    requires kept { IfSome kept (λ slot. IfSome slot (λ kept. K.keeps keeper.now kept.place kept.item)) }
    ensures { K.keeps keeper.now place result }
{
    match kept {
        Some(Some(kept)) if kept.place == place => kept.item,
        _ => keeper.lose(place, ThreadFault::Engine(EngineFault::NotYourTurn)),
    }
}

/// What is kept of each run, in order, in the room that was made for it. One of which nothing is kept came to no end.
fn in_order<E, S, T: Drop, K: Keeper<E, S, T>>(
    keeper: &K,
    kept: Vec<Option<Kept<T>>>,
    count: usize,
    mut all: Vec<T>,
) -> Vec<T>
    requires ready { K.is_ready keeper.now }
    requires kept { All (λ slot. IfSome slot (λ kept. K.keeps keeper.now kept.place kept.item)) kept.items }
    requires room { IsRoomFor count all }
    ensures count { length result.items ≡ count }
    ensures kept { EachFrom (K.keeps keeper.now) 0 result.items }
{
    let mut kept = kept.into_iter();
    for place in 0..count {
        all.push(item_at(keeper, kept.next(), place)).unwrap();
    }
    all
}

/// A slot for each run that is in flight at a time.
fn slots_for<E: Engine, S: SeatAt<E>, O: Orderings, D: Drives<E> + Drop>(
    alloc: Global,
    count: usize,
) -> Result<Vec<Slot<E, S, O, D>>, AllocError>
    ensures { IfOk result (λ slots. vec_len slots ≡ count) }
{
    let mut slots = Vec::with_capacity(alloc, count)?;
    for _ in 0..count {
        slots.push(Slot::empty())?;
    }
    Ok(slots)
}

/// Serves the runs in a scope.
fn serve_in_scope<
    E: Engine + Send,
    S: SeatAt<E> + Send,
    O: Orderings + Send,
    D: Drives<E> + Send + Drop,
    T: Drop,
    B: Keeping<Opened<E, D>, T>,
    K: Keeper<E, S, T>,
    G: Gate,
    R: Threads + Wait + Sync,
>(rt: &R, room: &Room<'_, E, S, O, D, G>, counter: &mut Counter<'_, E, S, O, D, T, B, K>)
    requires few { vec_len room.now.slots ≤ 24 }
{
    thread::scope(thread::scope_env(), rt, move |scope| {
        serve_in(scope, rt, room, counter)
    });
}

/// Serves the runs, and gives what is kept of them.
fn serve_runs<
    E: Engine + Send,
    S: SeatAt<E> + Send,
    O: Orderings + Send,
    D: Drives<E> + Send + Drop,
    T: Drop,
    B: Keeping<Opened<E, D>, T>,
    K: Keeper<E, S, T>,
    G: Gate,
    R: Threads + Wait + Sync,
>(
    rt: &R,
    alloc: Global,
    sessions: u32,
    runs: Vec<Opened<E, D>>,
    keeper: &K,
    gate: &G,
) -> Result<Vec<Option<Kept<T>>>, AllocError>
    requires few { sessions ≤ MOST_SESSIONS }
    requires serves { Serves E.engine D.order_after D.follows O.orders (K.is_ready keeper.now) (K.ends keeper.now) (K.keeps keeper.now) B.waits B.kept }
    requires waits { EachFrom B.waits 0 runs.items }
    ensures { IfOk result (λ kept. All (λ slot. IfSome slot (λ kept. B.kept kept.place kept.item)) kept.items) }
{
    let in_flight = runs.len().min(IN_FLIGHT);
    let slots = slots_for::<E, S, O, D>(alloc, in_flight)?;
    let Ok(board) = Board::new(alloc, sessions, in_flight) else {
        return Err(AllocError);
    };
    let queue: Queue<Opened<E, D>, T, B> = Queue::new(alloc, runs)?;
    let mut counter = Counter::new(alloc, sessions, keeper, queue);
    let room = Room {
        alloc,
        slots,
        board,
        gate,
    };
    serve_in_scope(rt, &room, &mut counter);
    Ok(counter.into_kept())
}

/// Serves the runs, and puts what is kept of them in order, where the type says what waits and what is kept.
fn run_kept<
    E: Engine + Send,
    S: SeatAt<E> + Send,
    O: Orderings + Send,
    D: Drives<E> + Send + Drop,
    T: Drop,
    B: Keeping<Opened<E, D>, T>,
    K: Keeper<E, S, T>,
    G: Gate,
    R: Threads + Wait + Sync,
>(
    rt: &R,
    alloc: Global,
    sessions: u32,
    runs: Vec<Opened<E, D>>,
    keeper: &K,
    gate: &G,
) -> Result<Vec<T>, AllocError>
    requires few { sessions ≤ MOST_SESSIONS }
    requires serves { Serves E.engine D.order_after D.follows O.orders (K.is_ready keeper.now) (K.ends keeper.now) (K.keeps keeper.now) B.waits B.kept }
    requires waits { EachFrom B.waits 0 runs.items }
    requires kept { (place : ℕ) (item : T) → B.kept place item → K.keeps keeper.now place item }
    ensures count { IfOk result (λ kept. length kept.items ≡ length runs.items) }
    ensures kept { IfOk result (λ kept. EachFrom (K.keeps keeper.now) 0 kept.items) }
{
    let count = runs.len();
    let all = Vec::with_capacity(alloc, count)?;
    let kept = serve_runs::<E, S, O, D, T, B, K, G, R>(rt, alloc, sessions, runs, keeper, gate)?;
    Ok(in_order(keeper, kept, count, all))
}

/// Runs what drivers order, each event in its session's own thread, which all runs have in common; the calling thread is the
/// control session's. No more than 24 runs are in flight at a time: one that is over is replaced by the next that waits, so the
/// threads start once. The keeper says what is kept of each, in the calling thread, as soon as it is over; what is kept is answered
/// in the order of the runs. A thread does one event in each run in which it is its session's turn, at an
/// open gate all that are its to do there, and then hands those runs on. The thread whose event left an engine quiet asks that
/// run's driver. Each event is put in its session's seat of the run by its thread; the seats of a run are in the order of their
/// sessions. What ends one run early ends no other. A run for whose seats memory is refused is lost, and for each start of a thread that is
/// refused the first run that waits. Where memory is refused for what the runs have in common, nothing has run. The type says
/// which orders the drivers' are.
pub fn run_crew<
    E: Engine + Send,
    S: SeatAt<E> + Send,
    O: Orderings + Send,
    D: Drives<E> + Send + Drop,
    T: Drop,
    K: Keeper<E, S, T>,
    G: Gate,
    R: Threads + Wait + Sync,
>(
    rt: &R,
    alloc: Global,
    sessions: u32,
    runs: Vec<Opened<E, D>>,
    keeper: &K,
    gate: &G,
) -> Result<Vec<T>, AllocError>
    requires { MayServe E.engine D.order_after D.follows O.orders (K.is_ready keeper.now) (K.ends keeper.now) sessions runs.items }
    ensures count { IfOk result (λ kept. length kept.items ≡ length runs.items) }
    ensures kept { IfOk result (λ kept. EachFrom (K.keeps keeper.now) 0 kept.items) }
{
    run_kept::<E, S, O, D, T, Brand, K, G, R>(rt, alloc, sessions, runs, keeper, gate)
}
