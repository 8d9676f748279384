//! What a session's thread does in the runs of a crew.
ghost use Rattle.std.specs.Prelude.{◌≡◌, true, Err, IfErr};
ghost use Rattle.session_machine.specs.declared.event.Event.{Event as EventOf};
ghost use Rattle.session_crews.specs.Inner.Shared.{handed, is_outside};

use crate::driven::Drives;
use crate::served::OUT_OF_TURN;
use crate::shared::Hand;
use crate::slot::Slot;
use iso_lexer::MOST_SESSIONS;
use session_machine::Engine;
use session_seats::{
    Admitted, AtOpenGate, Board, Gate, Orderings, SeatAt, ThreadFault, ask, bit_of, make_room, tell,
};
use std::alloc::Global;
use std::sync::Wait;

/// What all threads of a crew are lent: a slot for each run in flight, who looks where, and the gate.
#[derive(Drop)]
pub struct Room<'g, E: Engine, S, O: Orderings, D: Drives<E>, G> {
    pub alloc: Global,
    pub slots: Vec<Slot<E, S, O, D>>,
    pub board: Board,
    pub gate: &'g G,
}

/// Notes who looks at the run at this place next.
pub fn hand_to(hands: &mut [u64], place: usize, hand: Hand)
    ensures { hands.new ≡ handed hands.old place hand }
{
    if let Hand::Session(session) = hand {
        let at = session as usize;
        if at < hands.len() {
            hands[at] |= bit_of(place);
        }
    }
}

impl<'g, E: Engine, S: SeatAt<E>, O: Orderings, D: Drives<E> + Drop, G: Gate> Room<
    'g,
    E,
    S,
    O,
    D,
    G,
> {
    /// The first words of this room, one for each desk: in each the runs are marked that are to lie there.
    pub fn hands_in<'h>(&self, room: &'h mut [u64]) -> &'h mut [u64] {
        let count = self.board.desks().min(room.len());
        &mut room[..count]
    }

    /// The session's next event in a run, where the gate admits it. A run in which it is refused ends, and so does one that is not the
    /// session's to go on with.
    fn ask_for_next<R: Wait>(
        &self,
        rt: &R,
        slot: &Slot<E, S, O, D>,
        session: u32,
    ) -> Result<Admitted, ThreadFault>
        ensures outside { IfErr result (λ fault. is_outside fault ≡ true) }
        ensures gate { result ≡ Err ThreadFault.Gate → (event : EventOf) × G.refuses self.now.gate.now event }
    {
        match slot.due(rt, session) {
            Some(event) => ask(self.gate, event).ok_or(ThreadFault::Gate),
            None => Err(OUT_OF_TURN),
        }
    }

    /// Does one event of the session in a run, where the gate admits it, hands the run on, and tells the gate what came of it.
    /// Says in which runs it is the session's turn again.
    fn pass_gate<R: Wait>(
        &self,
        rt: &R,
        slot: &Slot<E, S, O, D>,
        place: usize,
        session: u32,
        hands: &mut [u64],
    ) -> u64 {
        let admitted = match self.ask_for_next(rt, slot, session) {
            Ok(admitted) => admitted,
            Err(fault) => {
                hand_to(hands, place, slot.give_up(rt, fault));
                return 0;
            }
        };
        let look = slot.do_one(rt, self.alloc, &admitted, session);
        hand_to(hands, place, look.hand);
        let again = self.board.hand_on(session, hands);
        if let Some(seat) = look.seat {
            let told = tell::<E, S, G>(self.gate, &seat);
            hand_to(hands, place, slot.take_back(rt, session, seat, told));
        }
        again
    }

    /// Does what the session is to do in each of these runs: one event, at an open gate all that are its to do. Hands them on, and
    /// says in which of them it is the session's turn again.
    pub fn pass<R: Wait>(&self, rt: &R, session: u32, looks: u64, hands: &mut [u64]) -> u64 {
        let open = AtOpenGate::of(self.gate);
        let mut again = 0;
        for (place, slot) in self.slots.iter().enumerate() {
            if looks & bit_of(place) == 0 {
                continue;
            }
            match &open {
                Some(open) => hand_to(hands, place, slot.go_on(rt, open, session)),
                None => again |= self.pass_gate(rt, slot, place, session, hands),
            }
        }
        again | self.board.hand_on(session, hands)
    }

    /// Which of these runs are done.
    pub fn done_among<R: Wait>(&self, rt: &R, looks: u64) -> u64 {
        let mut done = 0;
        for (place, slot) in self.slots.iter().enumerate() {
            if looks & bit_of(place) != 0 && slot.is_done(rt) {
                done |= bit_of(place);
            }
        }
        done
    }

    /// Does the session's events in all runs until they are over.
    pub fn work<R: Wait>(&self, rt: &R, session: u32) {
        make_room(self.alloc, self.slots.len());
        let mut room = [0; MOST_SESSIONS + 1];
        let hands = self.hands_in(&mut room);
        let mut looks = self.board.take(rt, session);
        for _ in rt.forever() {
            if looks == 0 {
                return;
            }
            let again = self.pass(rt, session, looks, hands);
            looks = self.board.next(rt, session, again);
        }
    }
}
