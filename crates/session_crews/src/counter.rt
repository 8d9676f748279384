//! What the control session's thread does for a crew beside its own events: it puts runs in their slots, and keeps what there is of
//! those that are over.

use crate::crew::{Room, hand_to};
use crate::driven::Drives;
use crate::ending::ended_of;
use crate::flight::Flight;
use crate::keeper::{Keeper, Keeping};
use crate::queue::{Kept, Queue};
use crate::served::Served;
use crate::shared::Opened;
use crate::slot::Slot;
use iso_lexer::MOST_SESSIONS;
use session_machine::Engine;
use session_seats::{Gate, Orderings, SeatAt, ThreadFault, bit_of, make_room};
use std::alloc::Global;
use std::marker::{Model, PhantomData};
use std::sync::Wait;

/// For how many sessions beside the control session runs are served, who says what is kept, and the runs that wait.
#[derive(Drop)]
pub struct Counter<
    'k,
    E: Engine,
    S,
    O: Orderings,
    D: Drives<E>,
    T,
    B: Keeping<Opened<E, D>, T>,
    K: Keeper<E, S, T>,
> {
    alloc: Global,
    sessions: u32,
    keeper: &'k K,
    queue: Queue<Opened<E, D>, T, B>,
    engine: PhantomData<E>,
    seat: PhantomData<S>,
    orders: PhantomData<O>,
    driver: PhantomData<D>,
}

impl<
    'k,
    E: Engine,
    S,
    O: Orderings,
    D: Drives<E>,
    T,
    B: Keeping<Opened<E, D>, T>,
    K: Keeper<E, S, T>,
> Model for Counter<'k, E, S, O, D, T, B, K> {
    ghost use Rattle.iso_lexer.specs.declared.limits.TheConstants.{MOST_SESSIONS};
    ghost use Rattle.std.specs.Prelude.{◌≤◌};
    ghost use Rattle.session_crews.specs.Inner.Queue.{CounterOf, Serves};

    ghost Value = { CounterOf };

    ghost view = { λ c. record { sessions = c.sessions; waiting = c.queue } };

    ghost invariant = { λ c. (c.sessions ≤ MOST_SESSIONS) × Serves E.engine D.order_after D.follows O.orders (K.is_ready c.keeper.now) (K.ends c.keeper.now) (K.keeps c.keeper.now) B.waits B.kept };
}

impl<
    'k,
    E: Engine,
    S: SeatAt<E>,
    O: Orderings,
    D: Drives<E> + Drop,
    T: Drop,
    B: Keeping<Opened<E, D>, T>,
    K: Keeper<E, S, T>,
> Counter<'k, E, S, O, D, T, B, K> {
    ghost use Rattle.iso_lexer.specs.declared.limits.TheConstants.{MOST_SESSIONS};
    ghost use Rattle.std.specs.Prelude.{◌≡◌, ◌≤◌, ◌-◌, true, All, IfSome};
    ghost use Rattle.session_crews.specs.Inner.Queue.{Serves};
    ghost use Rattle.session_crews.specs.Inner.Shared.{is_outside};

    /// All runs of the queue wait.
    pub fn new(
        alloc: Global,
        sessions: u32,
        keeper: &'k K,
        queue: Queue<Opened<E, D>, T, B>,
    ) -> Self
        requires few { sessions ≤ MOST_SESSIONS }
        requires serves { Serves E.engine D.order_after D.follows O.orders (K.is_ready keeper.now) (K.ends keeper.now) (K.keeps keeper.now) B.waits B.kept }
    {
        Counter {
            alloc,
            sessions,
            keeper,
            queue,
            engine: PhantomData,
            seat: PhantomData,
            orders: PhantomData,
            driver: PhantomData,
        }
    }

    /// For how many sessions beside the control session it serves runs.
    pub fn sessions(&self) -> u32
        ensures is { result ≡ self.now.sessions }
        ensures few { result ≤ MOST_SESSIONS }
    {
        self.sessions
    }

    /// How many runs wait.
    pub fn waiting(&self) -> usize
        ensures { result ≡ self.now.waiting }
    {
        self.queue.waiting()
    }

    /// Loses the first run that waits, for this fault.
    pub fn lose_next(&mut self, fault: ThreadFault)
        requires { is_outside fault ≡ true }
        ensures { self.new ≡ record { sessions = self.old.sessions; waiting = self.old.waiting - 1 } }
    {
        if let Some((place, _)) = self.queue.next() {
            self.queue.keep(place, self.keeper.lose(place, fault));
        }
    }

    /// The first run that waits, with its seats. One for whose seats memory is refused is lost.
    fn seat_next(&mut self) -> Option<Served<E, S, O, D>> {
        for _ in 0..self.queue.waiting() {
            let (place, opened) = self.queue.next()?;
            if let Ok(run) = Served::new(self.alloc, self.sessions, opened) {
                return Some(run);
            }
            self.queue
                .keep(place, self.keeper.lose(place, ThreadFault::Memory));
        }
        None
    }

    /// Puts the first run that waits in this slot, and notes who looks at it first. Where none waits nothing more comes there. Says
    /// whether one did.
    fn fill<G: Gate, R: Wait>(
        &mut self,
        rt: &R,
        room: &Room<'_, E, S, O, D, G>,
        slot: &Slot<E, S, O, D>,
        place: usize,
        hands: &mut [u64],
    ) -> bool {
        match self.seat_next() {
            Some(run) => {
                hand_to(hands, place, slot.put(rt, run));
                true
            }
            None => {
                room.board.end(place);
                false
            }
        }
    }

    /// Fills these slots: what there is of a run that is done there is kept first. Says which have a run then.
    fn fill_each<G: Gate, R: Wait>(
        &mut self,
        rt: &R,
        room: &Room<'_, E, S, O, D, G>,
        slots: u64,
        hands: &mut [u64],
    ) -> u64 {
        let mut filled = 0;
        for (place, slot) in room.slots.iter().enumerate() {
            if slots & bit_of(place) == 0 {
                continue;
            }
            if let Some(done) = slot.take_done(rt) {
                let over = ended_of(done.shared, done.seats);
                let at = over.place;
                self.queue.keep(at, self.keeper.keep(at, over.run));
            }
            if self.fill(rt, room, slot, place, hands) {
                filled |= bit_of(place);
            }
        }
        filled
    }

    /// Fills all slots, and does the control session's events until no run is left. Runs that are done wait until half of those in
    /// flight are: what wakes a thread then serves many.
    pub fn serve<G: Gate, R: Wait>(&mut self, rt: &R, room: &Room<'_, E, S, O, D, G>) {
        make_room(self.alloc, room.slots.len());
        let mut place_for_hands = [0; MOST_SESSIONS + 1];
        let hands = room.hands_in(&mut place_for_hands);
        let mut flight = Flight::new(self.fill_each(rt, room, u64::MAX, hands));
        let mut looks = 0;
        for _ in rt.forever() {
            let again = room.pass(rt, 0, looks, hands);
            looks = room.board.next(rt, 0, again);
            if looks == 0 {
                return;
            }
            flight.note(room.done_among(rt, looks));
            looks = flight.going_on(looks);
            if flight.is_half_done() {
                flight.replace(self.fill_each(rt, room, flight.done(), hands));
            }
        }
    }

    /// All that is kept, at most one at each place.
    pub fn into_kept(self) -> Vec<Option<Kept<T>>>
        ensures { All (λ slot. IfSome slot (λ kept. B.kept kept.place kept.item)) result.items }
    {
        self.queue.into_kept()
    }
}
