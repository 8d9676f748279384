//! What an engine of the machine does, whichever way it keeps its state.
ghost use Rattle.std.specs.Prelude.{◌≡◌, ◌≢◌, Err, IsErrOf, length};
ghost use Rattle.session_machine.specs.Engine.{Engine as EngineOf, IsDue, engine_after, is_quiet_in, spent_engine, turn_of};

use crate::event::{Event, Turn};
use crate::fault::EngineFault;
use crate::reply::Reply;

/// Sessions of the machine, in a run that is recorded.
pub trait Engine: Drop {
    /// What it was opened over, the machine's state unless it is spent, and its history.
    ghost engine: { Self → EngineOf };

    /// How many events it has answered. It takes no memory.
    fn events(&self) -> usize
        ensures { result ≡ length (engine self.now).history };

    /// How many sessions it has beside the control session. It takes no memory.
    fn sessions(&self) -> u32
        ensures { result ≡ (engine self.now).count };

    /// Whose turn it is. It takes no memory.
    fn turn(&self) -> Turn
        ensures { result ≡ turn_of (engine self.now).machine };

    /// Whether nothing goes on by itself. It takes no memory.
    fn quiet(&self) -> bool
        ensures { result ≡ is_quiet_in (engine self.now).machine };
}

/// An engine whose replies have names of one text.
pub trait Answers<'t>: Engine {
    /// Asks for an event. After a want of memory the engine is spent.
    fn ask(&mut self, event: Event) -> Result<Reply<'t>, EngineFault>
        ensures memory { IsErrOf result EngineFault.Memory → Self.engine self.new ≡ spent_engine (Self.engine self.old) }
        ensures due { IsErrOf result EngineFault.Memory → IsDue (Self.engine self.old) event }
        ensures answer { result ≢ Err EngineFault.Memory → engine_after (Self.engine self.old) event ≡ record { engine = Self.engine self.new; answer = result } };
}
