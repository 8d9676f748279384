//! A place of a crew, behind a lock: the run that is served there.
ghost use Rattle.std.specs.Prelude.{◌≡◌, true};
ghost use Rattle.session_crews.specs.Inner.Shared.{is_outside};

use crate::driven::Drives;
use crate::served::{Look, Served};
use crate::shared::Hand;
use session_machine::{Engine, Event};
use session_seats::{Admitted, AtOpenGate, Orderings, SeatAt, ThreadFault, Told};
use std::alloc::Global;
use std::sync::{Mutex, Wait};

/// A place of a crew, with the run that is served there, if one is.
#[derive(Drop)]
pub struct Slot<E: Engine, S, O: Orderings, D: Drives<E>> {
    run: Mutex<Option<Served<E, S, O, D>>>,
}

impl<E: Engine, S: SeatAt<E>, O: Orderings, D: Drives<E> + Drop> Slot<E, S, O, D> {
    /// No run is served there.
    pub fn empty() -> Self {
        Slot {
            run: Mutex::new(None),
        }
    }

    /// Puts a run there, and says who looks at it first.
    pub fn put<R: Wait>(&self, rt: &R, run: Served<E, S, O, D>) -> Hand {
        let hand = run.hand();
        *self.run.lock(rt) = Some(run);
        hand
    }

    /// Whether the run there is done.
    pub fn is_done<R: Wait>(&self, rt: &R) -> bool {
        match &*self.run.lock(rt) {
            Some(run) => run.is_done(),
            None => false,
        }
    }

    /// Takes the run away, where it is done.
    pub fn take_done<R: Wait>(&self, rt: &R) -> Option<Served<E, S, O, D>> {
        let mut run = self.run.lock(rt);
        match &*run {
            Some(served) if served.is_done() => run.take(),
            _ => None,
        }
    }

    /// The event that the session is to do there now.
    pub fn due<R: Wait>(&self, rt: &R, session: u32) -> Option<Event> {
        match &*self.run.lock(rt) {
            Some(run) => run.shared.due(session),
            None => None,
        }
    }

    /// Ends the run in a fault that says nothing of what its engine was to do next, unless it is over. Says who looks at it then.
    pub fn give_up<R: Wait>(&self, rt: &R, fault: ThreadFault) -> Hand
        requires { is_outside fault ≡ true }
    {
        match &mut *self.run.lock(rt) {
            Some(run) => {
                run.end(fault);
                run.hand()
            }
            None => Hand::Nobody,
        }
    }

    /// Does there all that is the session's to do, at an open gate. Says who looks at the run then.
    pub fn go_on<R: Wait>(&self, rt: &R, open: &AtOpenGate, session: u32) -> Hand {
        match &mut *self.run.lock(rt) {
            Some(run) => run.go_on(rt, open, session),
            None => Hand::Nobody,
        }
    }

    /// Does there the event that a gate has admitted to the session. Lends the session its seat where it was done.
    pub fn do_one<R: Wait>(
        &self,
        rt: &R,
        alloc: Global,
        admitted: &Admitted,
        session: u32,
    ) -> Look<S> {
        match &mut *self.run.lock(rt) {
            Some(run) => run.do_one(alloc, admitted, session),
            None => Look {
                hand: Hand::Nobody,
                seat: None,
            },
        }
    }

    /// Takes a session's seat back, of which the gate was told. Says who looks at the run then, where it is done with that.
    pub fn take_back<R: Wait>(&self, rt: &R, session: u32, seat: S, told: Told) -> Hand {
        match &mut *self.run.lock(rt) {
            Some(run) => run.take_back(session, seat, told),
            None => Hand::Nobody,
        }
    }
}
