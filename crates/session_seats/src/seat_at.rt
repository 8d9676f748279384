//! A session's seat at an engine.
ghost use Rattle.std.specs.Prelude.{◌≡◌, OnOk, OnErr, IfErr};
ghost use Rattle.std.specs.Option.{option_copied};
ghost use Rattle.session_machine.specs.Machine.{session_of};
ghost use Rattle.session_seats.specs.Acts.{Acted, NotActed};
ghost use Rattle.session_seats.specs.Free.{last_item};
ghost use Rattle.session_seats.specs.Seats.{SeatOf, empty_seat};

use crate::fault::ThreadFault;
use session_machine::{Engine, Event, HistItem};
use std::alloc::Global;

/// What a session's thread does with its seat and the engine at which it has it.
pub trait SeatAt<E: Engine>: Drop {
    /// The session's number, and its events with their replies, in order.
    ghost seat: { Self → SeatOf };

    /// The session's seat in which nothing stands. It takes no memory.
    fn empty(alloc: Global, session: u32) -> Self
        ensures { seat result ≡ empty_seat session };

    /// The session's number.
    fn session(&self) -> u32
        ensures { result ≡ (seat self.now).session };

    /// Does one event on the engine, and puts it last in the seat. Its place is made first, so that what the engine has
    /// answered is never lost.
    fn act(&mut self, engine: &mut E, event: Event) -> Result<(), ThreadFault>
        requires { session_of event ≡ (seat self.old).session }
        ensures ok { OnOk result (Acted event (E.engine engine.old) (E.engine engine.new) (seat self.old) (seat self.new)) }
        ensures seat { OnErr result (seat self.new ≡ seat self.old) }
        ensures err { IfErr result (λ e. NotActed event (E.engine engine.old) e (E.engine engine.new)) };

    /// What came last.
    fn last(&self) -> Option<&HistItem<'_>>
        ensures { option_copied result ≡ last_item (seat self.now) };
}
