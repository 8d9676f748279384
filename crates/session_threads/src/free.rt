//! A run in which each session's thread runs the session's script, with no order between sessions.
ghost use Rattle.std.specs.Prelude.{◌≡◌, ◌≤◌, true, is_some, IfOk, vec_len};
ghost use Rattle.iso_lexer.specs.declared.limits.TheConstants.{MOST_SESSIONS};
ghost use Rattle.row_versions.specs.Log.{empty_content};
ghost use Rattle.sql_blocks.specs.Blocks.{blocks_of};
ghost use Rattle.session_seats.specs.FreeRuns.{FitsPlan};
ghost use Rattle.session_core.specs.Engines.{IsOf};

use crate::closing::{Closed, end_of, opened_with_seats};
use row_versions::Versions;
use session_crews::run_scripts;
use session_machine::Mode;
use session_seats::{FreePlan, Gate, ThreadFault};
use sql_blocks::Block;
use std::alloc::Global;
use std::sync::Wait;
use std::thread::Threads;

/// Runs the blocks that come before, one after the other in the calling thread; after one that fails or waits the run is
/// over. Else the control session leaves, and the thread of each session runs its script and leaves, with no order between
/// sessions. After the joins the calling thread runs the control session's last blocks. The sessions' threads ask the gate;
/// one whose event waits for others sleeps until something was released.
pub fn run_free<'a, 't, V: Versions + Send, G: Gate, R: Threads + Wait + Sync>(
    rt: &R,
    alloc: Global,
    blocks: &'a [Block<'t>],
    plan: &FreePlan,
    store: V,
    gate: &G,
) -> Result<Closed<'a, 't, V>, ThreadFault>
    requires few { vec_len plan.now.scripts ≤ MOST_SESSIONS }
    requires empty { V.content store ≡ empty_content }
    ensures of { IfOk result (λ c. IsOf c.state (blocks_of blocks.now) (vec_len plan.now.scripts) Mode.Free) }
    ensures fits { IfOk result (λ c. FitsPlan plan.now c.state.history) }
    ensures unspent { IfOk result (λ c. is_some c.state.machine ≡ true) }
{
    let sessions = plan.scripts.len() as u32;
    let (engine, seats) = opened_with_seats(alloc, blocks, sessions, Mode::Free, store)?;
    let run = run_scripts(rt, alloc, engine, seats, plan, gate);
    let is_own = run.engine.state.is_of(blocks, sessions, Mode::Free);
    end_of(run, is_own)
}
