//! The end of a run of a crew.
ghost use Rattle.std.specs.Prelude.{◌≡◌, None, Err, true, false, IfOk, IfErr, IfSome};
ghost use Rattle.sql_blocks.specs.Blocks.{blocks_of};
ghost use Rattle.session_core.specs.Engines.{IsOf};
ghost use Rattle.session_crews.specs.Crews.{IsOver};
ghost use Rattle.session_seats.specs.Refusals.{MayStop};
ghost use Rattle.session_threads.specs.Crews.{RanBy};
ghost use Rattle.session_threads.specs.Inner.Met.{is_refusal, told_of};

use crate::closing::{Closed, end_of};
use crate::held::Held;
use row_versions::Versions;
use session_crews::Joined;
use session_machine::{EngineFault, Mode};
use session_seats::{Orderings, Seat, ThreadFault};
use sql_blocks::Block;

/// Whether the engine refused what was next for it.
fn is_refusal(fault: ThreadFault) -> bool
    ensures { result ≡ is_refusal fault }
{
    match fault {
        ThreadFault::Engine(EngineFault::Memory) => false,
        ThreadFault::Engine(EngineFault::NotYourTurn) => false,
        ThreadFault::Engine(_) => true,
        _ => false,
    }
}

/// What a run is told to have met, where that is the run that was handed in or where it is another.
fn told_of(is_own: bool, met: Option<ThreadFault>) -> Option<ThreadFault>
    ensures { result ≡ told_of is_own met }
{
    match met {
        _ if is_own => met,
        Some(fault) if !is_refusal(fault) => met,
        _ => Some(ThreadFault::OtherRun),
    }
}

/// The end of the run at this place of a crew. What its engine refused is told where the engine is of these blocks and so many sessions; any other
/// fault that was met comes before that it is another.
pub fn close_run<'a, 't, V: Versions, O: Orderings>(
    place: usize,
    left: Joined<Held<'a, 't, V>, Seat<'t>>,
    blocks: &[Block<'_>],
    sessions: u32,
) -> Result<Closed<'a, 't, V>, ThreadFault>
    requires over { IsOver (O.orders place) left.engine.state left.met left.late }
    ensures met { IfSome left.entry.met (λ fault. is_refusal fault ≡ false → result ≡ Err fault) }
    ensures refused { IsOf left.entry.engine.state (blocks_of blocks.now) sessions Mode.Directed → IfSome left.entry.met (λ fault. result ≡ Err fault) }
    ensures other_run { left.entry.met ≡ None → ¬ (IsOf left.entry.engine.state (blocks_of blocks.now) sessions Mode.Directed) → result ≡ Err ThreadFault.OtherRun }
    ensures late { left.entry.met ≡ None → IsOf left.entry.engine.state (blocks_of blocks.now) sessions Mode.Directed → IfSome left.entry.late (λ fault. result ≡ Err fault) }
    ensures ran { IfOk result (RanBy (blocks_of blocks.now) sessions (O.orders place)) }
    ensures stopped { IfErr result (MayStop (O.orders place) (blocks_of blocks.now) sessions) }
{
    let _ = place;
    let mut run = left;
    // (its history leads to its state: of that a refusal speaks)
    run.engine.state.history();
    let is_own = run.engine.state.is_of(blocks, sessions, Mode::Directed);
    run.met = told_of(is_own, run.met);
    end_of(run, is_own)
}
