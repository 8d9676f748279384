//! What stands behind the lock of a directed run.
ghost use Rattle.std.specs.Prelude.{◌≡◌, ◌≢◌, ◌↔◌, ◌⊎◌, ◌<◌, ◌≤◌, true, false, [], None, Some, IfSome, IsTrue};
ghost use Rattle.std.specs.Option.{option_or};
ghost use Rattle.session_machine.specs.Machine.{session_of};
ghost use Rattle.session_machine.specs.Engine.{is_quiet_in};
ghost use Rattle.session_crews.specs.Inner.Shared.{Stands, at_hand, hand_of, is_over, own_of};
ghost use Rattle.session_seats.specs.Acts.{Acted, NotActed};
ghost use Rattle.session_seats.specs.Orders.{IsDriven};
ghost use Rattle.session_seats.specs.Refusals.{IsNextIn, MayMeet};

use crate::driven::Drives;
use session_machine::{Engine, EngineFault, Event, Order, Turn};
use session_seats::{Orderings, SeatAt, ThreadFault, number_of};
use std::alloc::Global;
use std::marker::{Model, PhantomData};

/// A run before it begins, and its place in the crew.
#[derive(Drop)]
pub struct Opened<E, D> {
    pub place: usize,
    pub engine: E,
    pub driver: D,
}

/// Who looks at a run next.
#[derive(Clone, Copy)]
pub enum Hand {
    /// The thread of this session, which has something to do.
    Session(u32),
    /// Nobody: the run is over.
    Nobody,
}

/// The run's place, the engine, the driver, the order that was given and is not yet done, whether the driver said Stop, and a
/// fault that was met. Each Launch and Leave of the history is what the driver orders after the history before it, nothing
/// follows a Stop, and what the driver keeps fits the history. An order that is not yet done is what is next, and a fault was
/// met where what is next can't be done, or comes from outside.
#[derive(Drop)]
pub struct Shared<E: Engine, O: Orderings, D: Drives<E>> {
    place: usize,
    engine: E,
    driver: D,
    alloc: Global,
    order: Option<Event>,
    stop: bool,
    fault: Option<ThreadFault>,
    orders: PhantomData<O>,
}

impl<E: Engine, O: Orderings, D: Drives<E>> Model for Shared<E, O, D> {
    ghost use Rattle.session_crews.specs.Inner.Shared.{SharedOf, RunsInOrder, IsLed, IsServed};
    ghost use Rattle.session_machine.specs.Inner.TreeCodes.{tree_code};
    ghost use Rattle.std.specs.Coded.{codes};

    ghost Value = { SharedOf };

    ghost coded = { Prim.hlevel (codes, tree_code) };

    ghost view = { λ s. record { place = s.place; engine = E.engine s.engine; order = s.order; stop = s.stop; fault = s.fault } };

    ghost invariant = { λ s. RunsInOrder (O.orders s.place) (E.engine s.engine).history s.order s.stop
        × IsLed (O.orders s.place) (D.order_after s.driver) (D.follows s.driver) (E.engine s.engine).history s.fault
        × IsServed (O.orders s.place) (E.engine s.engine) s.order s.fault };
}

impl<E: Engine, O: Orderings, D: Drives<E>> Shared<E, O, D> {
    /// Of an engine in which nothing has happened.
    pub fn new(alloc: Global, opened: Opened<E, D>) -> Self
        requires empty { (E.engine opened.engine).history ≡ [] }
        requires orders { D.order_after opened.driver ≡ O.orders opened.place }
        requires follows { D.follows opened.driver [] }
        ensures { result ≡ record { place = opened.place; engine = E.engine opened.engine; order = None; stop = false; fault = None } }
    {
        Shared {
            place: opened.place,
            engine: opened.engine,
            driver: opened.driver,
            alloc,
            order: None,
            stop: false,
            fault: None,
            orders: PhantomData,
        }
    }

    /// No event is to begin any more.
    pub fn over(&self) -> bool
        ensures { result ≡ is_over self.now }
    {
        self.stop || self.fault.is_some()
    }

    /// The event that comes next: the order that was given, or else the Step of the session whose turn it is.
    fn at_hand(&self) -> Option<Event>
        ensures is { result ≡ at_hand self.now }
        ensures next { IfSome result (IsNextIn (O.orders self.now.place) self.now.engine) }
    {
        if self.over() {
            return None;
        }
        match self.order {
            Some(event) => Some(event),
            None => match self.engine.turn() {
                Turn::Session(session) => Some(Event::Step { session }),
                _ => None,
            },
        }
    }

    /// The event that the session is to do now, where the run goes on.
    pub fn due(&self, session: u32) -> Option<Event>
        ensures is { result ≡ own_of session (at_hand self.now) }
        ensures own { IfSome result (λ e. session_of e ≡ session) }
    {
        match self.at_hand() {
            Some(event) if number_of(event) == session => Some(event),
            _ => None,
        }
    }

    /// Keeps a fault that may be met, where none was met before.
    pub fn note(&mut self, fault: ThreadFault)
        requires { MayMeet (O.orders self.old.place) self.old.engine fault }
        ensures { self.new ≡ record { place = self.old.place; engine = self.old.engine; order = self.old.order; stop = self.old.stop; fault = option_or self.old.fault (Some fault) } }
    {
        if self.fault.is_none() {
            self.fault = Some(fault);
        }
    }

    /// Takes an order, which is what is next. One of a session that isn't there could not be done by anyone.
    fn give(&mut self, session: u32, event: Event)
        requires own { session_of event ≡ session }
        requires next { IsNextIn (O.orders self.old.place) self.old.engine event }
        ensures there { session ≤ self.old.engine.count → self.new ≡ record self.old { order = Some event } }
        ensures not_there { self.old.engine.count < session → self.new ≡ record self.old { fault = option_or self.old.fault (Some (ThreadFault.Engine EngineFault.NoSession)) } }
        ensures fault { IfSome self.new.fault (λ fault. (self.old.fault ≡ Some fault) ⊎ (fault ≡ ThreadFault.Engine EngineFault.NoSession)) }
    {
        if session > self.engine.sessions() {
            self.note(ThreadFault::Engine(EngineFault::NoSession));
        } else {
            self.order = Some(event);
        }
    }

    /// Takes the driver's next order, where the run goes on and there is nothing else to do.
    pub fn ask(&mut self)
        ensures first { IfSome self.old.fault (λ fault. self.new.fault ≡ Some fault) }
        ensures fault { IfSome self.new.fault (λ fault. (self.old.fault ≡ Some fault) ⊎ ((fault ≡ ThreadFault.Memory) ⊎ (fault ≡ ThreadFault.Engine EngineFault.NoSession))) }
        ensures asked { is_over self.old ≡ false → self.old.order ≡ None → is_quiet_in self.old.engine.machine ≡ true → self.new.fault ≡ None
            → Stands (O.orders self.old.place self.old.engine.history) self.new }
        ensures late { is_over self.old ≡ true → self.new ≡ self.old }
        ensures same { (self.new.engine ≡ self.old.engine) × (self.new.place ≡ self.old.place) }
    {
        if self.over() || self.order.is_some() || !self.engine.quiet() {
            return;
        }
        match self.driver.next(self.alloc, &self.engine) {
            Ok(Order::Launch { session, block }) => {
                self.give(session, Event::Launch { session, block });
            }
            Ok(Order::Leave { session }) => self.give(session, Event::Leave { session }),
            Ok(Order::Stop) => self.stop = true,
            Err(_) => self.fault = Some(ThreadFault::Memory),
        }
    }

    /// Whether the event is the next one.
    fn is_next(&self, event: Event) -> bool
        ensures is { IsTrue result ↔ (at_hand self.now ≡ Some event) }
        ensures next { result ≡ true → IsNextIn (O.orders self.now.place) self.now.engine event }
    {
        self.at_hand() == Some(event)
    }

    /// Does the event, unless the run is over. One that comes out of turn ends the run. Says whether it was done.
    pub fn perform<S: SeatAt<E>>(&mut self, seat: &mut S, event: Event) -> bool
        requires { session_of event ≡ (S.seat seat.old).session }
        ensures session { (S.seat seat.new).session ≡ (S.seat seat.old).session }
        ensures first { IfSome self.old.fault (λ fault. self.new.fault ≡ Some fault) }
        ensures over { result ≡ false → is_over self.new ≡ true }
        ensures late { is_over self.old ≡ true → self.new ≡ self.old }
        ensures out_of_turn { is_over self.old ≡ false → at_hand self.old ≢ Some event
            → self.new ≡ record self.old { fault = Some (ThreadFault.Engine EngineFault.NotYourTurn) } }
        ensures given { at_hand self.old ≡ Some event → self.new.order ≡ None }
        ensures stop { self.new.stop ≡ self.old.stop }
        ensures done { result ≡ true → Acted event self.old.engine self.new.engine (S.seat seat.old) (S.seat seat.new) × (self.new.fault ≡ None) }
        ensures told { at_hand self.old ≡ Some event → IfSome self.new.fault (λ fault. NotActed event self.old.engine fault self.new.engine) }
    {
        if self.over() {
            return false;
        }
        if !self.is_next(event) {
            self.note(ThreadFault::Engine(EngineFault::NotYourTurn));
            return false;
        }
        let acted = seat.act(&mut self.engine, event);
        self.order = None;
        match acted {
            Ok(()) => true,
            Err(fault) => {
                self.note(fault);
                false
            }
        }
    }

    /// Who looks at the run next: whose event comes next, or else the control session.
    pub fn hand(&self) -> Hand
        ensures { result ≡ hand_of (is_over self.now) (at_hand self.now) }
    {
        match self.at_hand() {
            Some(event) => Hand::Session(number_of(event)),
            None if self.over() => Hand::Nobody,
            None => Hand::Session(0),
        }
    }
}

impl<E: Engine, O: Orderings, D: Drives<E> + Drop> Shared<E, O, D> {
    /// The run's place, the engine, whether the driver said Stop, and the fault that was met, which may be met.
    pub fn into_parts(self) -> (usize, E, bool, Option<ThreadFault>)
        ensures { (result.0 ≡ self.place) × (E.engine result.1 ≡ self.engine) × (result.2 ≡ self.stop) × (result.3 ≡ self.fault)
            × (result.2 ≡ true → IsDriven (O.orders result.0) (E.engine result.1).history)
            × IfSome result.3 (MayMeet (O.orders result.0) (E.engine result.1)) }
    {
        (self.place, self.engine, self.stop, self.fault)
    }
}
