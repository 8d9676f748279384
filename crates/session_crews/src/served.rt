//! A run that a crew serves, with its seats.
ghost use Rattle.std.specs.Prelude.{◌≡◌, ◌≤◌, ◌<◌, ◌-◌, ◌==◌, ◌&&◌, true, false, None, Some, length, slice_get, IfSome, IfNone};
ghost use Rattle.session_crews.specs.Crews.{IsNew};
ghost use Rattle.session_crews.specs.Inner.Shared.{HasLast, at_hand, hand_of, hand_with, is_outside, is_over, own_of};
ghost use Rattle.iso_lexer.specs.declared.limits.TheConstants.{MOST_SESSIONS};

use crate::driven::Drives;
use crate::shared::{Hand, Opened, Shared};
use session_machine::{Engine, EngineFault};
use session_seats::{Admitted, AtOpenGate, Orderings, SeatAt, ThreadFault, Told, number_of};
use std::alloc::{AllocError, Global};
use std::mem::replace;
use std::sync::Wait;

/// An event that isn't the session's to do.
pub const OUT_OF_TURN: ThreadFault = ThreadFault::Engine(EngineFault::NotYourTurn);

/// What came of a session's event in a run: who looks at the run next, and the session's seat, of which a gate is to be told, where
/// the event was done.
#[derive(Drop)]
pub struct Look<S> {
    pub hand: Hand,
    pub seat: Option<S>,
}

/// A run in flight, and a seat for each session, in the order of their numbers. Where a session's thread has the seat for a
/// while, an empty one stands in for it.
#[derive(Drop)]
pub struct Served<E: Engine, S, O: Orderings, D: Drives<E>> {
    pub shared: Shared<E, O, D>,
    pub seats: Vec<S>,
    lent: usize,
}

/// An empty seat for the control session, and for each of so many sessions beside it.
fn empty_seats<E: Engine, S: SeatAt<E>>(alloc: Global, sessions: u32) -> Result<Vec<S>, AllocError>
    requires { sessions ≤ MOST_SESSIONS }
{
    let mut seats = Vec::with_capacity(alloc, sessions as usize + 1)?;
    for session in 0..sessions + 1 {
        seats.push(S::empty(alloc, session))?;
    }
    Ok(seats)
}

impl<E: Engine, S: SeatAt<E>, O: Orderings, D: Drives<E> + Drop> Served<E, S, O, D> {
    /// A run in which nothing has happened, and the first order of its driver.
    pub fn new(alloc: Global, sessions: u32, opened: Opened<E, D>) -> Result<Self, AllocError>
        requires few { sessions ≤ MOST_SESSIONS }
        requires new { IsNew (O.orders opened.place) (E.engine opened.engine) (D.order_after opened.driver) (D.follows opened.driver) }
    {
        let seats = empty_seats::<E, S>(alloc, sessions)?;
        let mut shared: Shared<E, O, D> = Shared::new(alloc, opened);
        shared.ask();
        Ok(Served {
            shared,
            seats,
            lent: 0,
        })
    }

    /// Whether it is over, and all its seats are there.
    pub fn is_done(&self) -> bool
        ensures { result ≡ (is_over self.now.shared && (self.now.lent == 0)) }
    {
        self.shared.over() && self.lent == 0
    }

    /// Who looks at it next: the control session where it is done, nobody where that is still to come of a seat.
    pub fn hand(&self) -> Hand
        ensures { result ≡ hand_with self.now.lent (hand_of (is_over self.now.shared) (at_hand self.now.shared)) }
    {
        match self.shared.hand() {
            Hand::Nobody if self.lent == 0 => Hand::Session(0),
            hand => hand,
        }
    }

    /// Ends the run in a fault that says nothing of what its engine was to do next, unless it is over.
    pub fn end(&mut self, fault: ThreadFault)
        requires { is_outside fault ≡ true }
        ensures over { is_over self.new.shared ≡ true }
        ensures fault { is_over self.old.shared ≡ false → self.new.shared.fault ≡ Some fault }
        ensures late { is_over self.old.shared ≡ true → self.new.shared ≡ self.old.shared }
        ensures lent { self.new.lent ≡ self.old.lent }
    {
        if !self.shared.over() {
            self.shared.note(fault);
        }
    }

    /// Does the event in the session's seat, and asks the driver for what comes next. Says whether it was done: it wasn't where the
    /// run is over, and in one that is not the session's to go on with, which ends.
    fn perform(&mut self, admitted: &Admitted, session: u32) -> bool
        ensures done { result ≡ true → IfSome (slice_get self.new.seats.items session) (λ seat. HasLast admitted.now (S.seat seat)) × (session < length self.new.seats.items) }
        ensures not_done { result ≡ false → is_over self.new.shared ≡ true }
        ensures lent { self.new.lent ≡ self.old.lent }
    {
        let event = admitted.event();
        match self.seats.get_mut(session as usize) {
            Some(seat) if seat.session() == number_of(event) => {
                let done = self.shared.perform(seat, event);
                self.shared.ask();
                done
            }
            _ => {
                self.end(OUT_OF_TURN);
                false
            }
        }
    }

    /// Does all that is the session's to do, at an open gate. A run that is not the session's to go on with ends. Says who looks at
    /// it next.
    pub fn go_on<R: Wait>(&mut self, rt: &R, open: &AtOpenGate, session: u32) -> Hand
        ensures hand { result ≡ hand_with self.new.lent (hand_of (is_over self.new.shared) (at_hand self.new.shared)) }
        ensures all { own_of session (at_hand self.new.shared) ≡ None }
    {
        let mut done = false;
        for _ in rt.forever() {
            let Some(event) = self.shared.due(session) else {
                break;
            };
            done = self.perform(&open.admit(event), session);
            if !done {
                break;
            }
        }
        if !done {
            self.end(OUT_OF_TURN);
        }
        self.hand()
    }

    /// Does an event that a gate has admitted to the session. Says who looks at the run next, and lends the session its seat where the
    /// event was done.
    pub fn do_one(&mut self, alloc: Global, admitted: &Admitted, session: u32) -> Look<S>
        ensures hand { result.hand ≡ hand_with self.new.lent (hand_of (is_over self.new.shared) (at_hand self.new.shared)) }
        ensures last { IfSome result.seat (λ seat. HasLast admitted.now (S.seat seat)) }
        ensures none { IfNone result.seat (is_over self.new.shared ≡ true) }
    {
        let seat = if self.perform(admitted, session) {
            self.lend(alloc, session)
        } else {
            None
        };
        Look {
            hand: self.hand(),
            seat,
        }
    }

    /// Lends the session's thread its seat.
    fn lend(&mut self, alloc: Global, session: u32) -> Option<S>
        ensures seat { result ≡ slice_get self.old.seats.items session }
        ensures shared { self.new.shared ≡ self.old.shared }
        ensures lent { IfSome result (λ _. ¬ (self.new.lent ≡ 0)) }
    {
        let seat = self.seats.get_mut(session as usize)?;
        self.lent = self.lent.saturating_add(1);
        Some(replace(seat, S::empty(alloc, session)))
    }

    /// Takes a seat back that was lent, and of which the gate was told. Says who looks at the run then, where it is done with that.
    pub fn take_back(&mut self, session: u32, seat: S, _told: Told) -> Hand
        ensures shared { self.new.shared ≡ self.old.shared }
        ensures lent { self.new.lent ≡ self.old.lent - 1 }
        ensures done { (is_over self.new.shared && (self.new.lent == 0)) ≡ true → result ≡ Hand.Session 0 }
        ensures not_done { (is_over self.new.shared && (self.new.lent == 0)) ≡ false → result ≡ Hand.Nobody }
    {
        if let Some(place) = self.seats.get_mut(session as usize) {
            *place = seat;
        }
        self.lent = self.lent.saturating_sub(1);
        if self.is_done() {
            self.hand()
        } else {
            Hand::Nobody
        }
    }
}
