//! Who is told of each run of a crew when it is over.
ghost use Rattle.std.specs.Prelude.{ℕ, Result};
ghost use Rattle.session_seats.specs.declared.fault.ThreadFault.{ThreadFault as Fault};
ghost use Rattle.session_threads.specs.Closing.{ClosedOf};

use crate::closing::Closed;
use row_versions::Versions;
use session_seats::ThreadFault;

/// Makes of each run that is over what is kept of it.
pub trait Reports<T> {
    // what it may be told of the run at a place
    ghost may_tell: { Self → ℕ → Result ClosedOf Fault → Type 0 };

    // what is kept of the run at a place
    ghost keeps: { Self → ℕ → T → Type 0 };

    /// What is kept of the run at this place.
    fn report<V: Versions>(&self, place: usize, run: Result<Closed<'_, '_, V>, ThreadFault>) -> T
        requires { may_tell self.now place run }
        ensures { keeps self.now place result };
}
