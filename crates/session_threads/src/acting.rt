//! One event on the engine of a run.
ghost use Rattle.std.specs.Prelude.{◌≡◌, OnOk, OnErr, IfErr};
ghost use Rattle.session_machine.specs.Machine.{session_of};
ghost use Rattle.session_seats.specs.Acts.{Acted, NotActed};

use crate::held::Held;
use row_versions::Versions;
use session_core::EngineState;
use session_machine::{Answers, Event, HistItem};
use session_seats::{Seat, SeatAt, ThreadFault};
use std::alloc::Global;

/// For how many events a seat makes room at its first one: most sessions of a permutation have no more.
const ROOM: usize = 8;

/// Does one event on the engine, and puts it last in the session's seat. The seat's place is made first, so that what the
/// engine has answered is never lost.
pub fn act<'t, V: Versions>(
    engine: &mut EngineState<'_, 't, V>,
    seat: &mut Seat<'t>,
    event: Event,
) -> Result<(), ThreadFault>
    requires { session_of event ≡ seat.old.session }
    ensures ok { OnOk result (Acted event engine.old engine.new seat.old seat.new) }
    ensures seat { OnErr result (seat.new ≡ seat.old) }
    ensures err { IfErr result (λ e. NotActed event engine.old e engine.new) }
{
    let room = if seat.items.is_empty() { ROOM } else { 1 };
    if seat.items.try_reserve(room).is_err() {
        return Err(ThreadFault::Memory);
    }
    match engine.ask(event) {
        Ok(reply) => {
            seat.items.push(HistItem { event, reply }).unwrap();
            Ok(())
        }
        Err(fault) => Err(ThreadFault::Engine(fault)),
    }
}

/// A session's seat at an engine in the hands of threads.
impl<'a, 't, V: Versions> SeatAt<Held<'a, 't, V>> for Seat<'t> {
    ghost seat = { λ s. s };

    fn empty(alloc: Global, session: u32) -> Self {
        Seat::new(alloc, session)
    }

    fn session(&self) -> u32 {
        Seat::session(self)
    }

    fn act(&mut self, engine: &mut Held<'a, 't, V>, event: Event) -> Result<(), ThreadFault> {
        act(&mut engine.state, self, event)
    }

    fn last(&self) -> Option<&HistItem<'_>> {
        self.items.last()
    }
}
