//! What is left of a run that a crew has served.
ghost use Rattle.std.specs.Prelude.{◌≡◌, ◌&&◌, None, Some, if◌then◌else◌};
ghost use Rattle.session_machine.specs.Engine.{is_quiet_in};
ghost use Rattle.session_crews.specs.Crews.{IsOver};

use crate::driven::Drives;
use crate::joined::Joined;
use crate::shared::Shared;
use session_machine::{Engine, EngineFault};
use session_seats::{Orderings, ThreadFault};

/// A run that is over, and its place.
#[derive(Drop)]
pub struct Ended<E, S> {
    pub place: usize,
    pub run: Joined<E, S>,
}

/// What is left of what stood behind the lock, with the seats. A run that the driver didn't stop, or in which something still goes
/// on, hasn't come to its end.
pub fn ended_of<E: Engine, S, O: Orderings, D: Drives<E> + Drop>(
    shared: Shared<E, O, D>,
    seats: Vec<S>,
) -> Ended<E, S>
    ensures same { (result.place ≡ shared.place) × (E.engine result.run.engine ≡ shared.engine) }
    ensures met { result.run.met ≡ shared.fault }
    ensures over { IsOver (O.orders result.place) (E.engine result.run.engine) result.run.met result.run.late }
    ensures late { result.run.late ≡ (if shared.stop && is_quiet_in shared.engine.machine then None else Some (ThreadFault.Engine EngineFault.NotYourTurn)) }
{
    let (place, engine, stop, met) = shared.into_parts();
    let late = if stop && engine.quiet() {
        None
    } else {
        Some(ThreadFault::Engine(EngineFault::NotYourTurn))
    };
    let run = Joined {
        engine,
        seats,
        met,
        late,
    };
    Ended { place, run }
}
