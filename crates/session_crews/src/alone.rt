//! A crew of one run.
ghost use Rattle.std.specs.Prelude.{◌≡◌, ◌≤◌, true, IfOk, IfErr};
ghost use Rattle.iso_lexer.specs.declared.limits.TheConstants.{MOST_SESSIONS};
ghost use Rattle.session_crews.specs.Crews.{IsNew, IsOver};
ghost use Rattle.session_crews.specs.Inner.Shared.{is_outside};

use crate::directed::run_crew;
use crate::driven::Drives;
use crate::joined::Joined;
use crate::keeper::Keeper;
use crate::shared::Opened;
use session_machine::Engine;
use session_seats::{Gate, Orderings, SeatAt, ThreadFault};
use std::alloc::{AllocError, Global};
use std::marker::PhantomData;
use std::sync::Wait;
use std::thread::Threads;

/// Keeps what is left of a run as it is. The type says which orders are whose.
#[derive(Drop)]
pub struct AsItIs<O: Orderings> {
    orders: PhantomData<O>,
}

impl<E: Engine, S, O: Orderings> Keeper<E, S, Result<Joined<E, S>, ThreadFault>> for AsItIs<O> {
    ghost is_ready = { λ k. Unit {0} };

    ghost ends = { λ k place left. IsOver (O.orders place) (E.engine left.engine) left.met left.late };

    ghost keeps = { λ k place kept. IfOk kept (λ left. IsOver (O.orders place) (E.engine left.engine) left.met left.late)
        × IfErr kept (λ fault. is_outside fault ≡ true) };

    fn keep(&self, place: usize, left: Joined<E, S>) -> Result<Joined<E, S>, ThreadFault>
        requires ends { IsOver (O.orders place) (E.engine left.engine) left.met left.late }
        ensures { IfOk result (λ left. IsOver (O.orders place) (E.engine left.engine) left.met left.late) × IfErr result (λ fault. is_outside fault ≡ true) }
    {
        let _ = place;
        Ok(left)
    }

    fn lose(&self, _place: usize, fault: ThreadFault) -> Result<Joined<E, S>, ThreadFault> {
        Err(fault)
    }
}

/// Runs what one driver orders, as a crew of that run alone. Where the run never began the fault says why.
pub fn run_one<
    E: Engine + Send,
    S: SeatAt<E> + Send,
    O: Orderings + Send,
    D: Drives<E> + Send + Drop,
    G: Gate,
    R: Threads + Wait + Sync,
>(
    rt: &R,
    alloc: Global,
    sessions: u32,
    opened: Opened<E, D>,
    gate: &G,
) -> Result<Joined<E, S>, ThreadFault>
    requires few { sessions ≤ MOST_SESSIONS }
    requires new { IsNew (O.orders opened.place) (E.engine opened.engine) (D.order_after opened.driver) (D.follows opened.driver) }
    ensures over { IfOk result (λ left. IsOver (O.orders 0) (E.engine left.engine) left.met left.late) }
    ensures lost { IfErr result (λ fault. is_outside fault ≡ true) }
{
    let mut runs = Vec::new(alloc);
    if runs.push(opened).is_err() {
        return Err(ThreadFault::Memory);
    }
    let keeper = AsItIs::<O> {
        orders: PhantomData,
    };
    let ran = run_crew::<E, S, O, D, _, _, G, R>(rt, alloc, sessions, runs, &keeper, gate);
    let Ok(kept) = ran else {
        return Err(ThreadFault::Memory);
    };
    match kept.into_iter().next() {
        Some(run) => run,
        None => Err(ThreadFault::Memory),
    }
}
