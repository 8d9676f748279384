//! Many runs, which one set of threads serves.
ghost use Rattle.std.specs.Prelude.{◌≡◌, ◌≤◌, ℕ, true, IfOk, Result, length};
ghost use Rattle.iso_lexer.specs.declared.limits.TheConstants.{MOST_SESSIONS};
ghost use Rattle.sql_blocks.specs.Blocks.{blocks_of};
ghost use Rattle.session_machine.specs.declared.event.Mode.{Mode};
ghost use Rattle.session_machine.specs.Engine.{opened};
ghost use Rattle.session_seats.specs.declared.fault.ThreadFault.{ThreadFault as Fault};
ghost use Rattle.session_crews.specs.Crews.{EachFrom, IsNew, IsOver};
ghost use Rattle.session_threads.specs.Closing.{ClosedOf};
ghost use Rattle.session_threads.specs.Crews.{CameBy, Waits};

use crate::driver::{ByDriver, Driver};
use crate::ending::close_run;
use crate::held::Held;
use crate::opening::{Run, open_run};
use crate::reports::Reports;
use row_versions::Versions;
use session_crews::{Joined, Keeper, Opened, run_crew};
use session_seats::{Gate, Orderings, Seat, ThreadFault};
use sql_blocks::Block;
use std::alloc::{AllocError, Global};
use std::marker::PhantomData;
use std::sync::Wait;
use std::thread::Threads;

/// An engine for each run, with its driver and its place. Where memory is refused for one of them there is none.
fn open_each<'a, 't, V: Versions, O: Orderings, D: Driver<V> + Drop>(
    alloc: Global,
    blocks: &'a [Block<'t>],
    sessions: u32,
    runs: Vec<Run<V, D>>,
) -> Result<Vec<Opened<Held<'a, 't, V>, ByDriver<V, D>>>, AllocError>
    requires few { sessions ≤ MOST_SESSIONS }
    requires waits { EachFrom (Waits V.content D.order_after D.follows O.orders) 0 runs.items }
    ensures count { IfOk result (λ all. length all.items ≡ length runs.items) }
    ensures new { IfOk result (λ all. EachFrom (λ place run. IsNew (O.orders run.place) run.engine.state (D.order_after run.driver.driver) (D.follows run.driver.driver)) 0 all.items) }
    ensures of { IfOk result (λ all. EachFrom (λ _ run. run.engine.state ≡ opened (blocks_of blocks.now) sessions Mode.Directed) 0 all.items) }
{
    let mut all = Vec::with_capacity(alloc, runs.len())?;
    for run in runs {
        let place = all.len();
        let opened = open_run::<V, O, D>(alloc, blocks, sessions, place, run)?;
        all.push(opened).unwrap();
    }
    Ok(all)
}

/// Closes each run of a crew that is over, and has it reported. The type says which orders are whose.
#[derive(Drop)]
struct Closing<'k, 'x, O: Orderings, P> {
    blocks: &'k [Block<'x>],
    sessions: u32,
    reports: &'k P,
    orders: PhantomData<O>,
}

impl<'k, 'x, 'a, 't, V: Versions, O: Orderings, T, P: Reports<T>> Keeper<
    Held<'a, 't, V>,
    Seat<'t>,
    T,
> for Closing<'k, 'x, O, P> {
    ghost is_ready = { λ c. (place : ℕ) (run : Result ClosedOf Fault) → CameBy (blocks_of c.blocks.now) c.sessions (O.orders place) run → P.may_tell c.reports.now place run };

    ghost ends = { λ c place left. IsOver (O.orders place) left.engine.state left.met left.late };

    ghost keeps = { λ c place kept. P.keeps c.reports.now place kept };

    fn keep(&self, place: usize, left: Joined<Held<'a, 't, V>, Seat<'t>>) -> T
        requires ready { (place : ℕ) (run : Result ClosedOf Fault) → CameBy (blocks_of self.now.blocks.now) self.now.sessions (O.orders place) run → P.may_tell self.now.reports.now place run }
        requires ends { IsOver (O.orders place) left.engine.state left.met left.late }
        ensures { P.keeps self.now.reports.now place result }
    {
        let run = close_run::<V, O>(place, left, self.blocks, self.sessions);
        self.reports.report::<V>(place, run)
    }

    fn lose(&self, place: usize, fault: ThreadFault) -> T {
        self.reports.report::<V>(place, Err(fault))
    }
}

/// Serves these runs, in which nothing has happened.
fn serve_each<
    'a,
    't,
    V: Versions + Send,
    O: Orderings + Send,
    D: Driver<V> + Send + Drop,
    T: Drop,
    P: Reports<T>,
    G: Gate,
    R: Threads + Wait + Sync,
>(
    rt: &R,
    alloc: Global,
    sessions: u32,
    opened: Vec<Opened<Held<'a, 't, V>, ByDriver<V, D>>>,
    closing: &Closing<'_, '_, O, P>,
    gate: &G,
) -> Result<Vec<T>, AllocError>
    requires few { sessions ≤ MOST_SESSIONS }
    requires new { EachFrom (λ place run. IsNew (O.orders run.place) run.engine.state (D.order_after run.driver.driver) (D.follows run.driver.driver)) 0 opened.items }
    requires ready { (place : ℕ) (run : Result ClosedOf Fault) → CameBy (blocks_of closing.now.blocks.now) closing.now.sessions (O.orders place) run → P.may_tell closing.now.reports.now place run }
    ensures kept { IfOk result (λ kept. EachFrom (P.keeps closing.now.reports.now) 0 kept.items) }
    ensures count { IfOk result (λ kept. length kept.items ≡ length opened.entry.items) }
{
    run_crew::<Held<'a, 't, V>, Seat<'t>, O, ByDriver<V, D>, T, _, G, R>(
        rt, alloc, sessions, opened, closing, gate,
    )
}

/// Runs what each of these drivers orders, each event in its session's own thread, which serves all runs; the calling thread is the
/// control session's. No more than 24 runs are in flight at a time, and the threads start once. The thread whose event left an
/// engine quiet asks that run's driver. The seats of a run hold the events that their threads have done in it. As soon as a run is
/// over it is closed and reported, in the calling thread; what is kept of them is answered in the order of the runs. What ends a run
/// early is told of that run alone: the engine's refusal only where it is of what the driver orders. Where memory is refused for
/// what they have in common, or for one of their engines, none has begun. The type says which orders are whose.
pub fn run_each<
    'a,
    't,
    V: Versions + Send,
    O: Orderings + Send,
    D: Driver<V> + Send + Drop,
    T: Drop,
    P: Reports<T>,
    G: Gate,
    R: Threads + Wait + Sync,
>(
    rt: &R,
    alloc: Global,
    blocks: &'a [Block<'t>],
    sessions: u32,
    runs: Vec<Run<V, D>>,
    reports: &P,
    gate: &G,
) -> Result<Vec<T>, AllocError>
    requires few { sessions ≤ MOST_SESSIONS }
    requires waits { EachFrom (Waits V.content D.order_after D.follows O.orders) 0 runs.items }
    requires told { (place : ℕ) (run : Result ClosedOf Fault) → CameBy (blocks_of blocks.now) sessions (O.orders place) run → P.may_tell reports.now place run }
    ensures count { IfOk result (λ kept. length kept.items ≡ length runs.items) }
    ensures kept { IfOk result (λ kept. EachFrom (P.keeps reports.now) 0 kept.items) }
{
    let opened = open_each::<V, O, D>(alloc, blocks, sessions, runs)?;
    let closing = Closing::<'_, '_, O, P> {
        blocks,
        sessions,
        reports,
        orders: PhantomData,
    };
    serve_each::<V, O, D, T, P, G, R>(rt, alloc, sessions, opened, &closing, gate)
}
