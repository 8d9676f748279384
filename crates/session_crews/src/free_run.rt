//! A free run while one thread alone does its events.
ghost use Rattle.std.specs.Prelude.{◌≡◌, true, None, Some, is_some, IfNone, IfSome};
ghost use Rattle.std.specs.Option.{option_or};
ghost use Rattle.session_machine.specs.Machine.{session_of};
ghost use Rattle.session_seats.specs.Acts.{IsRunOf, NotActed};
ghost use Rattle.session_crews.specs.Inner.FreeRuns.{Did, RanBlock};

use session_machine::{Engine, EngineFault, Event};
use session_seats::{BlockState, SeatAt, ThreadFault, block_state};
use std::sync::Wait;

/// The engine, and a fault that was met.
#[derive(Drop)]
pub struct FreeRun<E: Engine> {
    pub engine: E,
    pub fault: Option<ThreadFault>,
}

impl<E: Engine> FreeRun<E> {
    /// Keeps a fault, where none was met before.
    pub fn note(&mut self, fault: ThreadFault)
        ensures first { self.new.fault ≡ option_or self.old.fault (Some fault) }
        ensures same { E.engine self.new.engine ≡ E.engine self.old.engine }
    {
        if self.fault.is_none() {
            self.fault = Some(fault);
        }
    }

    /// Does the event, unless a fault was met. Says how far the session's block has come; `None` where it wasn't done.
    pub fn perform<S: SeatAt<E>>(&mut self, seat: &mut S, event: Event) -> Option<BlockState>
        requires { session_of event ≡ (S.seat seat.old).session }
        ensures session { (S.seat seat.new).session ≡ (S.seat seat.old).session }
        ensures of { IsRunOf (E.engine self.old.engine) (E.engine self.new.engine) }
        ensures done { IfSome result (λ state. Did event (E.engine self.old.engine) (E.engine self.new.engine) state × (self.new.fault ≡ None)) }
        ensures over { IfNone result (is_some self.new.fault ≡ true) }
        ensures first { IfSome self.old.fault (λ fault. self.new.fault ≡ Some fault) }
        ensures told { self.old.fault ≡ None → IfSome self.new.fault (λ fault. NotActed event (E.engine self.old.engine) fault (E.engine self.new.engine)) }
    {
        if self.fault.is_some() {
            return None;
        }
        match seat.act(&mut self.engine, event) {
            Ok(()) => Some(block_state(seat.last())),
            Err(fault) => {
                self.note(fault);
                None
            }
        }
    }
}

/// Launches a block in a session, and steps as long as it goes on. Says how far it has come; `None` where a fault was met.
pub fn run_block<E: Engine, S: SeatAt<E>, R: Wait>(
    rt: &R,
    run: &mut FreeRun<E>,
    seat: &mut S,
    block: u32,
) -> Option<BlockState>
    ensures session { (S.seat seat.new).session ≡ (S.seat seat.old).session }
    ensures of { IsRunOf (E.engine run.old.engine) (E.engine run.new.engine) }
    ensures done { IfSome result (λ state. RanBlock (S.seat seat.old).session block (E.engine run.old.engine) (E.engine run.new.engine) state × (run.new.fault ≡ None)) }
    ensures over { IfNone result (is_some run.new.fault ≡ true) }
{
    let session = seat.session();
    let mut state = run.perform(seat, Event::Launch { session, block })?;
    for _ in rt.forever() {
        let BlockState::GoesOn = state else {
            return Some(state);
        };
        state = run.perform(seat, Event::Step { session })?;
    }
    run.note(ThreadFault::Engine(EngineFault::Busy));
    None
}
