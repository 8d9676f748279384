//! An engine in the hands of threads.

use row_versions::Versions;
use session_core::EngineState;
use session_machine::{Engine, Turn};

/// An engine whose drop is written out, so that a crate that drops one calls it, and needn't prove anew how each of the engine's
/// parts is dropped.
pub struct Held<'a, 't, V: Versions> {
    pub state: EngineState<'a, 't, V>,
}

impl<'a, 't, V: Versions> Drop for Held<'a, 't, V> {
    fn drop(self) {
        let Held { state } = self;
        state.end();
    }
}

impl<'a, 't, V: Versions> Engine for Held<'a, 't, V> {
    ghost engine = { λ held. held.state };

    fn events(&self) -> usize {
        self.state.events()
    }

    fn sessions(&self) -> u32 {
        self.state.sessions()
    }

    fn turn(&self) -> Turn {
        self.state.turn()
    }

    fn quiet(&self) -> bool {
        self.state.quiet()
    }
}
