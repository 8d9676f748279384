//! The beginning of a run of a crew.
ghost use Rattle.std.specs.Prelude.{◌≡◌, ◌≤◌, IfOk};
ghost use Rattle.iso_lexer.specs.declared.limits.TheConstants.{MOST_SESSIONS};
ghost use Rattle.sql_blocks.specs.Blocks.{blocks_of};
ghost use Rattle.session_machine.specs.Engine.{opened};
ghost use Rattle.session_crews.specs.Crews.{IsNew};
ghost use Rattle.session_threads.specs.Crews.{Waits};

use crate::driver::{ByDriver, Driver};
use crate::held::Held;
use row_versions::Versions;
use session_core::EngineState;
use session_crews::Opened;
use session_machine::Mode;
use session_seats::Orderings;
use sql_blocks::Block;
use std::alloc::{AllocError, Global};

/// A run that is to be: where its rows stand, and who drives it.
#[derive(Drop)]
pub struct Run<V, D> {
    pub store: V,
    pub driver: D,
}

/// An engine in which nothing has happened, over these blocks and so many sessions, with the run's driver.
pub fn open_run<'a, 't, V: Versions, O: Orderings, D: Driver<V> + Drop>(
    alloc: Global,
    blocks: &'a [Block<'t>],
    sessions: u32,
    place: usize,
    run: Run<V, D>,
) -> Result<Opened<Held<'a, 't, V>, ByDriver<V, D>>, AllocError>
    requires few { sessions ≤ MOST_SESSIONS }
    requires waits { Waits V.content D.order_after D.follows O.orders place run }
    ensures new { IfOk result (λ run. IsNew (O.orders run.place) run.engine.state (D.order_after run.driver.driver) (D.follows run.driver.driver)) }
    ensures of { IfOk result (λ run. (run.place ≡ place) × (run.engine.state ≡ opened (blocks_of blocks.now) sessions Mode.Directed)) }
{
    let Run { store, driver } = run;
    let state = EngineState::new(alloc, blocks, sessions, Mode::Directed, store)?;
    let driver = ByDriver::new(driver);
    Ok(Opened {
        place,
        engine: Held { state },
        driver,
    })
}
