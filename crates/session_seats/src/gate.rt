//! Who admits the events.
ghost use Rattle.std.specs.Prelude.{◌≡◌, true, false, IfNone, IfSome};
ghost use Rattle.session_machine.specs.declared.event.Event.{Event as EventOf};
ghost use Rattle.session_machine.specs.declared.reply.HistItem.{HistItem as Item};
ghost use Rattle.session_seats.specs.Free.{last_item};

use crate::seat_at::SeatAt;
use session_machine::{Engine, Event, Reply};
use std::marker::Model;
use std::thread::yield_now;

/// Is asked before each event and told each reply, by the thread that does the event and without the lock; of the blocks before
/// and behind the scripts of a free run it hears nothing.
pub trait Gate: Sync {
    // it lets the event begin
    ghost lets: { Self → EventOf → Type 0 };

    // it was asked for the event, and doesn't let it begin
    ghost refuses: { Self → EventOf → Type 0 };

    // it knows of the event, and what came of it
    ghost knows: { Self → Item → Type 0 };

    /// Whether it admits every event at once and needs to hear of none: such a gate is neither asked nor told.
    fn is_open(&self) -> bool
        ensures { result ≡ true → ((event : EventOf) → lets self.now event) × ((item : Item) → knows self.now item) }
    {
        false
    }

    /// How often it is asked for one event before the run ends; 0 counts as 1.
    fn tries(&self) -> u64 {
        1
    }

    /// Whether the event may begin now.
    fn admits(&self, event: Event) -> bool
        ensures lets { result ≡ true → lets self.now event }
        ensures refuses { result ≡ false → refuses self.now event };

    /// Is told what came of an event.
    fn answered(&self, event: Event, reply: &Reply<'_>)
        ensures { knows self.now (record { event = event; reply = reply.now }) };
}

/// Admits every event.
#[derive(Clone, Copy)]
pub struct OpenGate;

impl Gate for OpenGate {
    ghost lets = { λ gate event. Unit {0} };

    ghost refuses = { λ gate event. ⊥ };

    ghost knows = { λ gate item. Unit {0} };

    fn is_open(&self) -> bool {
        true
    }

    fn admits(&self, _event: Event) -> bool {
        true
    }

    fn answered(&self, _event: Event, _reply: &Reply<'_>) {}
}

/// An event that a gate has admitted. Nothing but `ask` and an open gate makes one.
#[derive(Drop)]
pub struct Admitted {
    event: Event,
}

impl Model for Admitted {
    ghost Value = { EventOf };

    ghost view = { λ admitted. admitted.event };
}

impl Admitted {
    /// The event.
    pub fn event(&self) -> Event
        ensures { result ≡ self.now }
    {
        self.event
    }
}

/// Asks the gate for the event, as often as it may be asked.
pub fn ask<G: Gate>(gate: &G, event: Event) -> Option<Admitted>
    ensures lets { IfSome result (λ admitted. (admitted ≡ event) × G.lets gate.now event) }
    ensures refuses { IfNone result (G.refuses gate.now event) }
{
    if gate.is_open() || gate.admits(event) {
        return Some(Admitted { event });
    }
    for _ in 1..gate.tries() {
        yield_now();
        if gate.admits(event) {
            return Some(Admitted { event });
        }
    }
    None
}

/// Says that a gate is open. Nothing but such a gate makes one.
#[derive(Drop)]
pub struct AtOpenGate {
    made: (),
}

impl AtOpenGate {
    /// Where the gate is open.
    pub fn of<G: Gate>(gate: &G) -> Option<AtOpenGate>
        ensures { IfSome result (λ _. ((event : EventOf) → G.lets gate.now event) × ((item : Item) → G.knows gate.now item)) }
    {
        if gate.is_open() {
            Some(AtOpenGate { made: () })
        } else {
            None
        }
    }

    /// The gate admits the event.
    pub fn admit(&self, event: Event) -> Admitted
        ensures { result ≡ event }
    {
        Admitted { event }
    }
}

/// Says that a gate was told what came last in a seat. Nothing but `tell` makes one.
#[derive(Drop)]
pub struct Told {
    made: (),
}

/// Tells the gate the event that came last in the seat, and its reply, unless it is open.
pub fn tell<E: Engine, S: SeatAt<E>, G: Gate>(gate: &G, seat: &S) -> Told
    ensures { IfSome (last_item (S.seat seat.now)) (G.knows gate.now) }
{
    if !gate.is_open() {
        if let Some(item) = seat.last() {
            gate.answered(item.event, &item.reply);
        }
    }
    Told { made: () }
}
