//! A run with a thread for each session, in which a driver says what is given to whom.
ghost use Rattle.std.specs.Prelude.{◌≡◌, ◌≤◌, ℕ, [], true, IfOk, IfErr};
ghost use Rattle.iso_lexer.specs.declared.limits.TheConstants.{MOST_SESSIONS};
ghost use Rattle.row_versions.specs.Log.{empty_content};
ghost use Rattle.sql_blocks.specs.Blocks.{blocks_of};
ghost use Rattle.session_machine.specs.Engine.{is_quiet_in};
ghost use Rattle.session_core.specs.Engines.{IsOf};
ghost use Rattle.session_seats.specs.Orders.{IsDriven};
ghost use Rattle.session_seats.specs.Refusals.{MayStop};
ghost use Rattle.session_threads.specs.Crews.{CameBy};

use crate::closing::Closed;
use crate::driver::Driver;
use crate::ending::close_run;
use crate::held::Held;
use crate::opening::{Run, open_run};
use row_versions::Versions;
use session_crews::run_one;
use session_machine::Mode;
use session_seats::{Gate, Orderings, Seat, ThreadFault};
use sql_blocks::Block;
use std::alloc::Global;
use std::marker::Brand;
use std::sync::Wait;
use std::thread::Threads;

/// Runs what the driver orders, where the type says which orders these are.
fn run_own<
    'a,
    't,
    V: Versions + Send,
    O: Orderings + Send,
    D: Driver<V> + Send + Drop,
    G: Gate,
    R: Threads + Wait + Sync,
>(
    rt: &R,
    alloc: Global,
    blocks: &'a [Block<'t>],
    sessions: u32,
    store: V,
    driver: D,
    gate: &G,
) -> Result<Closed<'a, 't, V>, ThreadFault>
    requires few { sessions ≤ MOST_SESSIONS }
    requires empty { V.content store ≡ empty_content }
    requires follows { D.follows driver [] }
    requires orders { (place : ℕ) → D.order_after driver ≡ O.orders place }
    ensures { CameBy (blocks_of blocks.now) sessions (D.order_after driver) result }
{
    let run = Run { store, driver };
    let Ok(opened) = open_run::<V, O, D>(alloc, blocks, sessions, 0, run) else {
        return Err(ThreadFault::Memory);
    };
    let left = run_one::<Held<'a, 't, V>, Seat<'t>, O, _, G, R>(rt, alloc, sessions, opened, gate)?;
    close_run::<V, O>(0, left, blocks, sessions)
}

/// Runs what the driver orders, each event in its session's own thread; the calling thread is the control session's. The
/// thread whose event left the engine quiet asks the driver. The seats hold the events that their threads have done.
pub fn run_directed<
    'a,
    't,
    V: Versions + Send,
    D: Driver<V> + Send + Drop,
    G: Gate,
    R: Threads + Wait + Sync,
>(
    rt: &R,
    alloc: Global,
    blocks: &'a [Block<'t>],
    sessions: u32,
    store: V,
    driver: D,
    gate: &G,
) -> Result<Closed<'a, 't, V>, ThreadFault>
    requires few { sessions ≤ MOST_SESSIONS }
    requires empty { V.content store ≡ empty_content }
    requires follows { D.follows driver [] }
    ensures of { IfOk result (λ c. IsOf c.state (blocks_of blocks.now) sessions Mode.Directed) }
    ensures quiet { IfOk result (λ c. is_quiet_in c.state.machine ≡ true) }
    ensures driven { IfOk result (λ c. IsDriven (D.order_after driver) c.state.history) }
    ensures stopped { IfErr result (MayStop (D.order_after driver) (blocks_of blocks.now) sessions) }
{
    run_own::<V, Brand, D, G, R>(rt, alloc, blocks, sessions, store, driver, gate)
}
