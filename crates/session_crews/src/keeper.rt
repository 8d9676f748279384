//! Who says what is kept of each run of a crew that is over.
ghost use Rattle.std.specs.Prelude.{◌≡◌, ℕ, true};
ghost use Rattle.session_crews.specs.declared.joined.Joined.{Joined as Left};
ghost use Rattle.session_crews.specs.Inner.Shared.{is_outside};

use crate::joined::Joined;
use session_seats::ThreadFault;
use std::marker::Brand;

/// Makes of a run that is over what is kept of it.
pub trait Keeper<E, S, T> {
    // it may be asked to keep runs
    ghost is_ready: { Self → Type 0 };

    // what may be left of the run at a place when it is over
    ghost ends: { Self → ℕ → Left E S → Type 0 };

    // what is kept of the run at a place
    ghost keeps: { Self → ℕ → T → Type 0 };

    /// What is kept of the run at this place, which is over.
    fn keep(&self, place: usize, left: Joined<E, S>) -> T
        requires ready { is_ready self.now }
        requires ends { ends self.now place left }
        ensures { keeps self.now place result };

    /// What is kept of one that never began, for this fault.
    fn lose(&self, place: usize, fault: ThreadFault) -> T
        requires ready { is_ready self.now }
        requires outside { is_outside fault ≡ true }
        ensures { keeps self.now place result };
}

/// What waits for its turn in a crew, and what is kept there, by its type: each crew picks it.
pub trait Keeping<W, T> {
    // what waits at a place
    ghost waits: { ℕ → W → Type 0 };

    // what is kept of the run at a place
    ghost kept: { ℕ → T → Type 0 };
}

impl<W, T> Keeping<W, T> for Brand {
    ghost waits = { λ place waiting. Unit {0} };

    ghost kept = { λ place item. Unit {0} };
}
