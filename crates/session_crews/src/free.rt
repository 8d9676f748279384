//! A run in which each session's thread runs the session's script, with no order between sessions.
ghost use Rattle.std.specs.Prelude.{◌≡◌, ◌≤◌, ◌⊎◌, ◌+◌, [], true, false, None, Some, is_some, length, vec_len, IfErr, IfOk, IfSome};
ghost use Rattle.iso_lexer.specs.declared.limits.TheConstants.{MOST_SESSIONS};
ghost use Rattle.session_seats.specs.Acts.{IsRunOf};
ghost use Rattle.session_seats.specs.Free.{scripts_in};
ghost use Rattle.session_seats.specs.FreeRuns.{FitsPlan, IsCutShort};
ghost use Rattle.session_crews.specs.Inner.FreeRuns.{AllDone, AreAtStart, DidLast, HaveDone, IsSetUp, Left};

use crate::free_run::{FreeRun, run_block};
use crate::free_shared::{FreeShared, Stopped, run_script, stop};
use crate::joined::Joined;
use crate::progress::Progress;
use session_machine::{Engine, EngineFault, Event};
use session_seats::{
    BlockState, FreePlan, Gate, Runner, Scripting, SeatAt, ThreadFault, start_thread,
};
use std::alloc::Global;
use std::marker::Brand;
use std::sync::{Condvar, Mutex, Wait};
use std::thread;
use std::thread::{JoinHandle, Scope, Threads};

/// A block of a session that isn't there, or whose seat isn't.
const NO_SESSION: ThreadFault = ThreadFault::Engine(EngineFault::NoSession);

/// Runs the blocks that come before the threads, one after the other, up to one that fails or waits. Says whether all went
/// well.
fn run_before<E: Engine, S: SeatAt<E>, R: Wait>(
    rt: &R,
    run: &mut FreeRun<E>,
    seats: &mut [S],
    plan: &FreePlan,
) -> bool
    requires new { (E.engine run.old.engine).history ≡ [] }
    requires well { run.old.fault ≡ None }
    ensures of { IsRunOf (E.engine run.old.engine) (E.engine run.new.engine) }
    ensures well { result ≡ true → IsSetUp plan.now.before.items (E.engine run.old.engine) (E.engine run.new.engine) × (run.new.fault ≡ None) }
    ensures cut { result ≡ false → run.new.fault ≡ None → IsCutShort plan.now (E.engine run.new.engine).history × (is_some (E.engine run.old.engine).machine ≡ true → is_some (E.engine run.new.engine).machine ≡ true) }
{
    for setup in &plan.before {
        let (session, block) = *setup;
        let Some(seat) = seats.get_mut(session as usize) else {
            run.note(NO_SESSION);
            return false;
        };
        if seat.session() != session {
            run.note(NO_SESSION);
            return false;
        }
        match run_block(rt, run, seat, block) {
            Some(BlockState::Ended) => {}
            Some(BlockState::GoesOn) => {
                run.note(ThreadFault::Engine(EngineFault::Busy));
                return false;
            }
            Some(BlockState::Stopped { ended: _ended }) => return false,
            None => return false,
        }
    }
    true
}

/// The control session leaves, so that nobody waits for it. Says whether it did.
fn leave_control<E: Engine, S: SeatAt<E>>(run: &mut FreeRun<E>, seats: &mut [S]) -> bool
    requires { run.old.fault ≡ None }
    ensures of { IsRunOf (E.engine run.old.engine) (E.engine run.new.engine) }
    ensures left { result ≡ true → Left (E.engine run.old.engine) (E.engine run.new.engine) × (run.new.fault ≡ None) }
    ensures over { result ≡ false → is_some run.new.fault ≡ true }
{
    match seats.first_mut() {
        Some(seat) if seat.session() == 0 => {
            run.perform(seat, Event::Leave { session: 0 }).is_some()
        }
        _ => {
            run.note(NO_SESSION);
            false
        }
    }
}

/// Runs the control session's last blocks. One that waits has nobody left to wait for.
fn run_after<E: Engine, S: SeatAt<E>, R: Wait>(
    rt: &R,
    run: &mut FreeRun<E>,
    seats: &mut [S],
    after: &[u32],
)
    requires { run.old.fault ≡ None }
    ensures of { IsRunOf (E.engine run.old.engine) (E.engine run.new.engine) }
    ensures done { run.new.fault ≡ None → DidLast after.now (E.engine run.old.engine) (E.engine run.new.engine) }
{
    let Some(seat) = seats.first_mut() else {
        run.note(NO_SESSION);
        return;
    };
    if seat.session() != 0 {
        run.note(NO_SESSION);
        return;
    }
    for block in after {
        match run_block(rt, run, seat, *block) {
            Some(state) if state.is_over() => {}
            Some(_) => {
                run.note(ThreadFault::Engine(EngineFault::StillBlocked));
                return;
            }
            None => return,
        }
    }
}

/// Each session at the beginning of its script.
fn at_start(alloc: Global, scripts: &[Vec<u32>]) -> Result<Vec<Progress<'_>>, ThreadFault>
    requires { length scripts.now ≤ MOST_SESSIONS }
    ensures ok { IfOk result (λ progress. AreAtStart (scripts_in scripts.now) progress.items) }
    ensures err { IfErr result (λ fault. fault ≡ ThreadFault.Memory) }
{
    let mut progress = Vec::new(alloc);
    for (place, script) in scripts.iter().enumerate() {
        let own = Progress::new(place as u32 + 1, script);
        if progress.push(own).is_err() {
            return Err(ThreadFault::Memory);
        }
    }
    Ok(progress)
}

/// Starts a thread for each of these seats. Where one is refused the run is stopped.
fn start_scripts<
    's,
    'e: 's,
    'p: 's,
    E: Engine + Send + 's,
    S: SeatAt<E> + Send + 's,
    P: Scripting + Send + 's,
    G: Gate + 's,
    R: Wait + Sync + 's,
>(
    scope: &'s Scope<'s, &'e ()>,
    rt: &'s R,
    shared: &'s Mutex<FreeShared<'p, E, P>>,
    bell: &'s Condvar,
    gate: &'s G,
    seats: &'s mut [S],
    crew: &mut Vec<JoinHandle<()>>,
) -> Result<(), Stopped>
    ensures started { IfOk result (λ _. length crew.new.items ≡ length crew.old.items + length seats.old) }
    ensures fault { IfErr result (λ stopped. (stopped.fault ≡ ThreadFault.Memory) ⊎ (stopped.fault ≡ ThreadFault.ThreadRefused)) }
{
    for seat in seats.iter_mut() {
        let runner = Runner { bell, seat };
        let started = start_thread(scope, crew, move || run_script(rt, shared, gate, runner));
        if let Err(refused) = started {
            return Err(stop(rt, shared, bell, refused.fault));
        }
    }
    Ok(())
}

/// Serves all seats but the control session's, which is the first, in a scope, and gives them back.
fn run_threads<
    E: Engine + Send,
    S: SeatAt<E> + Send,
    P: Scripting + Send,
    G: Gate,
    R: Threads + Wait + Sync,
>(
    rt: &R,
    alloc: Global,
    shared: &Mutex<FreeShared<'_, E, P>>,
    bell: &Condvar,
    gate: &G,
    mut seats: Vec<S>,
) -> Vec<S> {
    if let Some((_, lent)) = seats.split_first_mut() {
        thread::scope(thread::scope_env(), rt, move |scope| {
            let mut crew = Vec::new(alloc);
            let _ = start_scripts(scope, rt, shared, bell, gate, lent, &mut crew);
            for thread in crew {
                thread.join(rt);
            }
        });
    }
    seats
}

/// The sessions' part, where the type says at which engine and with which scripts they begin.
fn run_scripting<
    E: Engine + Send,
    S: SeatAt<E> + Send,
    P: Scripting + Send,
    G: Gate,
    R: Threads + Wait + Sync,
>(rt: &R, alloc: Global, engine: E, seats: Vec<S>, scripts: &[Vec<u32>], gate: &G) -> Joined<E, S>
    requires few { length scripts.now ≤ MOST_SESSIONS }
    requires start { E.engine engine ≡ P.start }
    requires unspent { is_some (E.engine engine).machine ≡ true }
    requires scripts { scripts_in scripts.now ≡ P.scripts }
    ensures of { IsRunOf P.start (E.engine result.engine) }
    ensures done { result.met ≡ None → result.late ≡ None → AllDone P.start P.scripts (E.engine result.engine) }
{
    let progress = match at_start(alloc, scripts) {
        Ok(progress) => progress,
        Err(fault) => return ended(engine, seats, Some(fault)),
    };
    let shared: FreeShared<'_, E, P> = FreeShared::new(engine, progress);
    let lock = Mutex::new(shared);
    let bell = Condvar::new();
    let seats = run_threads(rt, alloc, &lock, &bell, gate, seats);
    joined_of(lock.into_inner(), seats)
}

/// A run that is over before its threads have started.
fn ended<E: Engine, S: Drop>(engine: E, seats: Vec<S>, met: Option<ThreadFault>) -> Joined<E, S>
    ensures { (E.engine result.engine ≡ E.engine engine) × (result.met ≡ met) × (result.late ≡ None) }
{
    Joined {
        engine,
        seats,
        met,
        late: None,
    }
}

/// What is left of what stood behind the lock, and the seats. Where some session hasn't done its script, it isn't the control
/// session's turn.
fn joined_of<E: Engine, S: Drop, P: Scripting>(
    shared: FreeShared<'_, E, P>,
    seats: Vec<S>,
) -> Joined<E, S>
    ensures of { IsRunOf P.start (E.engine result.engine) }
    ensures met { result.met ≡ shared.entry.fault }
    ensures late { HaveDone shared.entry.progress → result.late ≡ None }
    ensures done { result.met ≡ None → result.late ≡ None → AllDone P.start P.scripts (E.engine result.engine) }
{
    let (run, done) = shared.into_parts();
    let late = if done {
        None
    } else {
        Some(ThreadFault::Engine(EngineFault::NotYourTurn))
    };
    Joined {
        engine: run.engine,
        seats,
        met: run.fault,
        late,
    }
}

/// The sessions' part: each session's thread runs its script.
fn run_sessions<E: Engine + Send, S: SeatAt<E> + Send, G: Gate, R: Threads + Wait + Sync>(
    rt: &R,
    alloc: Global,
    engine: E,
    seats: Vec<S>,
    scripts: &[Vec<u32>],
    gate: &G,
) -> Joined<E, S>
    requires few { length scripts.now ≤ MOST_SESSIONS }
    requires unspent { is_some (E.engine engine).machine ≡ true }
    ensures of { IsRunOf (E.engine engine) (E.engine result.engine) }
    ensures done { result.met ≡ None → result.late ≡ None → AllDone (E.engine engine) (scripts_in scripts.now) (E.engine result.engine) }
{
    run_scripting::<E, S, Brand, G, R>(rt, alloc, engine, seats, scripts, gate)
}

/// Behind the sessions' part the control session's last blocks, unless something is against it.
fn run_last<E: Engine, S: SeatAt<E>, R: Wait>(
    rt: &R,
    joined: Joined<E, S>,
    after: &[u32],
) -> Joined<E, S>
    ensures of { IsRunOf (E.engine joined.engine) (E.engine result.engine) }
    ensures met { result.met ≡ joined.met }
    ensures cut { IfSome joined.met (λ _. (E.engine result.engine ≡ E.engine joined.engine) × (result.late ≡ joined.late)) }
    ensures late { IfSome joined.late (λ fault. (E.engine result.engine ≡ E.engine joined.engine) × (result.late ≡ Some fault)) }
    ensures done { result.met ≡ None → result.late ≡ None → DidLast after.now (E.engine joined.engine) (E.engine result.engine) × (joined.late ≡ None) }
{
    let Joined {
        engine,
        mut seats,
        met,
        late,
    } = joined;
    let mut run = FreeRun {
        engine,
        fault: late,
    };
    if met.is_none() && run.fault.is_none() {
        run_after(rt, &mut run, &mut seats, after);
    }
    Joined {
        engine: run.engine,
        seats,
        met,
        late: run.fault,
    }
}

/// Runs the blocks that come before, one after the other in the calling thread; after one that fails or waits the run is
/// over. Else the control session leaves, and the thread of each session runs its script and leaves, with no order between
/// sessions. After the joins the calling thread runs the control session's last blocks. The sessions' threads ask the gate;
/// one whose event waits for others sleeps until something was released. The seats are in the order of their sessions, from
/// the control session's on, and each event is put in its session's seat.
pub fn run_scripts<E: Engine + Send, S: SeatAt<E> + Send, G: Gate, R: Threads + Wait + Sync>(
    rt: &R,
    alloc: Global,
    engine: E,
    mut seats: Vec<S>,
    plan: &FreePlan,
    gate: &G,
) -> Joined<E, S>
    requires few { vec_len plan.now.scripts ≤ MOST_SESSIONS }
    requires new { (E.engine engine).history ≡ [] }
    requires unspent { is_some (E.engine engine).machine ≡ true }
    ensures of { IsRunOf (E.engine engine) (E.engine result.engine) }
    ensures fits { result.met ≡ None → result.late ≡ None → FitsPlan plan.now (E.engine result.engine).history }
    ensures unspent { result.met ≡ None → result.late ≡ None → is_some (E.engine result.engine).machine ≡ true }
{
    let mut run = FreeRun {
        engine,
        fault: None,
    };
    if !run_before(rt, &mut run, &mut seats, plan) || !leave_control(&mut run, &mut seats) {
        return ended(run.engine, seats, run.fault);
    }
    let joined = run_sessions(rt, alloc, run.engine, seats, &plan.scripts, gate);
    run_last(rt, joined, &plan.after)
}
