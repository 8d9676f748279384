//! What stands behind the lock of a free run, and how an event is done there.
ghost use Rattle.std.specs.Prelude.{◌≡◌, ◌↔◌, IsTrue, true, None, Some, is_some, length, IfNone, IfSome};
ghost use Rattle.std.specs.Option.{option_or};
ghost use Rattle.session_machine.specs.Machine.{session_of};
ghost use Rattle.session_machine.specs.declared.event.Event.{Event as EventOf};
ghost use Rattle.session_seats.specs.Acts.{IsRunOf, NotActed};
ghost use Rattle.session_seats.specs.Free.{last_item, may_release};
ghost use Rattle.session_crews.specs.Inner.Shared.{HasLast};
ghost use Rattle.session_crews.specs.Inner.FreeRuns.{AllDone, AreAtStart, HaveDone, IsNextOf, NothingIsNextOf};

use crate::free_run::FreeRun;
use crate::progress::Progress;
use session_machine::{Engine, EngineFault, Event};
use session_seats::{
    Admitted, Gate, Runner, Scripting, SeatAt, ThreadFault, Told, Tried, ask, block_state,
    may_release, tell,
};
use std::marker::{Model, PhantomData};
use std::sync::{Condvar, Mutex, Wait};

/// The engine, how far each session has come with its script, and a fault that was met. The history goes on from where the
/// threads began by what the sessions have done of their scripts.
#[derive(Drop)]
pub struct FreeShared<'p, E: Engine, P: Scripting> {
    engine: E,
    progress: Vec<Progress<'p>>,
    fault: Option<ThreadFault>,
    scripting: PhantomData<P>,
}

impl<'p, E: Engine, P: Scripting> Model for FreeShared<'p, E, P> {
    ghost use Rattle.session_seats.specs.Acts.{IsRunOf};
    ghost use Rattle.session_crews.specs.Inner.FreeRuns.{FreeSharedOf, RunsScripts};
    ghost use Rattle.session_machine.specs.Inner.TreeCodes.{tree_code};
    ghost use Rattle.std.specs.Coded.{codes};

    ghost Value = { FreeSharedOf };

    ghost coded = { Prim.hlevel (codes, tree_code) };

    ghost view = { λ s. record { engine = E.engine s.engine; progress = s.progress.items; fault = s.fault } };

    ghost invariant = { λ s. RunsScripts P.start P.scripts (E.engine s.engine) s.progress.items s.fault };
}

impl<'p, E: Engine, P: Scripting> FreeShared<'p, E, P> {
    /// Of an engine at which the sessions begin with their scripts.
    pub fn new(engine: E, progress: Vec<Progress<'p>>) -> Self
        requires start { E.engine engine ≡ P.start }
        requires unspent { is_some (E.engine engine).machine ≡ true }
        requires scripts { AreAtStart P.scripts progress.items }
        ensures { result ≡ record { engine = E.engine engine; progress = progress.entry.items; fault = None } }
    {
        FreeShared {
            engine,
            progress,
            fault: None,
            scripting: PhantomData,
        }
    }

    /// No event is to begin any more.
    pub fn over(&self) -> bool
        ensures { result ≡ is_some self.now.fault }
    {
        self.fault.is_some()
    }

    /// How many events there were.
    fn events(&self) -> usize
        ensures { result ≡ length self.now.engine.history }
    {
        self.engine.events()
    }

    /// Whether the run goes on, and there were just so many events.
    fn is_at(&self, events: usize) -> bool
        ensures { IsTrue result ↔ ((self.now.fault ≡ None) × (events ≡ length self.now.engine.history)) }
    {
        !self.over() && self.events() == events
    }

    /// Keeps a fault, where none was met before.
    pub fn note(&mut self, fault: ThreadFault)
        ensures { self.new ≡ record { engine = self.old.engine; progress = self.old.progress; fault = option_or self.old.fault (Some fault) } }
    {
        if self.fault.is_none() {
            self.fault = Some(fault);
        }
    }

    /// What the session does next; `None` where it has done its script, or has none.
    pub fn due(&self, session: u32) -> Option<Event>
        ensures own { IfSome result (λ event. session_of event ≡ session) }
        ensures next { IfSome result (λ event. IsNextOf self.now.progress session event) }
        ensures none { IfNone result (NothingIsNextOf self.now.progress session) }
        ensures exact { (event : EventOf) → IsNextOf self.now.progress session event → result ≡ Some event }
    {
        match session {
            0 => None,
            number => match self.progress.get(number as usize - 1) {
                Some(progress) => progress.next(),
                None => None,
            },
        }
    }

    /// Whether the event is what the session does next.
    fn is_due(&self, session: u32, event: Event) -> bool
        ensures is { result ≡ true → IsNextOf self.now.progress session event }
        ensures exact { IsNextOf self.now.progress session event → result ≡ true }
    {
        self.due(session) == Some(event)
    }

    /// Does the event, unless the run is over, the event isn't the session's next one, or something stands in its way.
    fn perform<S: SeatAt<E>>(&mut self, seat: &mut S, event: Event) -> Tried
        requires { session_of event ≡ (S.seat seat.old).session }
        ensures done { result ≡ Tried.Done → HasLast event (S.seat seat.new) }
        ensures session { (S.seat seat.new).session ≡ (S.seat seat.old).session }
        ensures over { result ≡ Tried.Over → is_some self.new.fault ≡ true }
        ensures first { IfSome self.old.fault (λ fault. self.new.fault ≡ Some fault) }
        ensures told { self.old.fault ≡ None → IsNextOf self.old.progress (S.seat seat.old).session event
            → IfSome self.new.fault (λ fault. NotActed event self.old.engine fault self.new.engine) }
    {
        if self.over() {
            return Tried::Over;
        }
        let session = seat.session();
        if !self.is_due(session, event) {
            self.note(ThreadFault::Engine(EngineFault::NotYourTurn));
            return Tried::Over;
        }
        let place = session as usize - 1;
        match seat.act(&mut self.engine, event) {
            Ok(()) => {
                self.progress[place].advance(block_state(seat.last()).is_over());
                Tried::Done
            }
            Err(ThreadFault::Engine(EngineFault::StillBlocked)) => Tried::Blocked {
                events: self.events(),
            },
            Err(fault) => {
                self.fault = Some(fault);
                Tried::Over
            }
        }
    }

    /// The engine with the fault that was met, and whether all sessions have done their scripts.
    pub fn into_parts(self) -> (FreeRun<E>, bool)
        ensures same { (E.engine result.0.engine ≡ self.entry.engine) × (result.0.fault ≡ self.entry.fault) }
        ensures of { IsRunOf P.start self.entry.engine }
        ensures done { result.1 ≡ true → self.entry.fault ≡ None → AllDone P.start P.scripts self.entry.engine }
        ensures all { HaveDone self.entry.progress → result.1 ≡ true }
    {
        let done = all_done(&self.progress);
        let run = FreeRun {
            engine: self.engine,
            fault: self.fault,
        };
        (run, done)
    }
}

/// Whether each session has done its script.
fn all_done(progress: &[Progress<'_>]) -> bool
    ensures done { result ≡ true → HaveDone progress.now }
    ensures all { HaveDone progress.now → result ≡ true }
{
    for each in progress {
        if !each.is_done() {
            return false;
        }
    }
    true
}

/// Says that a free run was stopped, and for which fault. Nothing but `stop` makes one.
#[derive(Drop)]
pub struct Stopped {
    fault: ThreadFault,
}

/// Keeps a fault, and wakes everyone.
pub fn stop<E: Engine, P: Scripting, R: Wait>(
    rt: &R,
    shared: &Mutex<FreeShared<'_, E, P>>,
    bell: &Condvar,
    fault: ThreadFault,
) -> Stopped
    ensures { result.fault ≡ fault }
{
    shared.lock(rt).note(fault);
    bell.notify_all();
    Stopped { fault }
}

/// Whether those who sleep are woken behind an event that was tried: where it may have released something, or the run is over.
fn wakes<E: Engine, S: SeatAt<E>>(tried: Tried, seat: &S) -> bool
    ensures over { tried ≡ Tried.Over → result ≡ true }
    ensures done { tried ≡ Tried.Done → result ≡ may_release (last_item (S.seat seat.now)) }
{
    match tried {
        Tried::Done => may_release(seat.last()),
        Tried::Blocked { .. } => false,
        Tried::Over => true,
    }
}

/// Tries an event that a gate has admitted, under the lock. Wakes those who sleep where something may have been released, or the run
/// is over.
fn try_event<E: Engine, S: SeatAt<E>, P: Scripting, R: Wait>(
    rt: &R,
    shared: &Mutex<FreeShared<'_, E, P>>,
    bell: &Condvar,
    seat: &mut S,
    admitted: &Admitted,
) -> Tried
    requires { session_of admitted.now ≡ (S.seat seat.old).session }
    ensures session { (S.seat seat.new).session ≡ (S.seat seat.old).session }
    ensures done { result ≡ Tried.Done → HasLast admitted.now (S.seat seat.new) }
{
    let mut guard = shared.lock(rt);
    let tried = guard.perform(seat, admitted.event());
    drop(guard);
    if wakes::<E, S>(tried, seat) {
        bell.notify_all();
    }
    tried
}

/// Sleeps until there were more events than so many, or the run is over.
fn sleep<E: Engine, P: Scripting, R: Wait>(
    rt: &R,
    shared: &Mutex<FreeShared<'_, E, P>>,
    bell: &Condvar,
    events: usize,
) {
    let guard = bell.wait_while(rt, shared.lock(rt), |s| s.is_at(events));
    drop(guard);
}

/// Does one event as soon as nothing stands in its way: asks the gate, does the event under the lock, and tells the gate.
/// Says that it was done and told; it wasn't where the run is over.
fn free_event<E: Engine, S: SeatAt<E>, P: Scripting, G: Gate, R: Wait>(
    rt: &R,
    shared: &Mutex<FreeShared<'_, E, P>>,
    bell: &Condvar,
    gate: &G,
    seat: &mut S,
    event: Event,
) -> Option<Told>
    requires { session_of event ≡ (S.seat seat.old).session }
    ensures session { (S.seat seat.new).session ≡ (S.seat seat.old).session }
    ensures done { IfSome result (λ _. HasLast event (S.seat seat.new)) }
{
    let Some(admitted) = ask(gate, event) else {
        let _ = stop(rt, shared, bell, ThreadFault::Gate);
        return None;
    };
    for _ in rt.forever() {
        match try_event(rt, shared, bell, seat, &admitted) {
            Tried::Done => return Some(tell::<E, S, G>(gate, seat)),
            Tried::Blocked { events } => sleep(rt, shared, bell, events),
            Tried::Over => return None,
        }
    }
    None
}

/// Does what is the session's, one event after the other, until it has done its script or the run is over.
pub fn run_script<E: Engine, S: SeatAt<E>, P: Scripting, G: Gate, R: Wait>(
    rt: &R,
    shared: &Mutex<FreeShared<'_, E, P>>,
    gate: &G,
    runner: Runner<'_, S>,
) {
    let Runner { bell, seat } = runner;
    for _ in rt.forever() {
        let due = shared.lock(rt).due(seat.session());
        match due {
            Some(event) if free_event(rt, shared, bell, gate, seat, event).is_some() => {}
            _ => return,
        }
    }
}
