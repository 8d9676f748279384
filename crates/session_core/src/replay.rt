//! Whether a history is one of the machine's.
ghost use Rattle.std.specs.Prelude.{◌≡◌, ◌↔◌, ◌+◌, ◌<◌, ◌≤◌, ◌^◌, ℕ, IsTrue, IfOk, OnOk, true, false, length};
ghost use Rattle.iso_lexer.specs.declared.limits.TheConstants.{MOST_SESSIONS};
ghost use Rattle.sql_blocks.specs.Blocks.{blocks_of};
ghost use Rattle.session_machine.specs.Sound.{IsSoundMachine};
ghost use Rattle.session_machine.specs.Machine.{Machine, opening, Run};
ghost use Rattle.session_machine.specs.Engine.{Follows, IsLegal};
ghost use Rattle.session_core.specs.Inner.Blocking.{AreBlockers};
ghost use Rattle.session_core.specs.Inner.Kept.{AllKept};
ghost use Rattle.wait_laws.specs.Laws.{Reaches};

use crate::blockers::AllBlockers;
use crate::kept::Kept;
use crate::live::Live;
use chain_store::ChainStore;
use row_versions::Versions;
use session_laws::laws::stays_sound;
use session_machine::{HistItem, Mode};
use sql_blocks::Block;
use std::alloc::{AllocError, Global};

/// Does an item's event, and says whether it was answered as the item says.
fn agrees<'a, 't, V: Versions>(
    live: &mut Live<'a, 't, V>,
    kept: &mut Kept,
    blockers: &mut AllBlockers,
    blocks: &'a [Block<'t>],
    mode: Mode,
    item: &HistItem<'_>,
) -> Result<bool, AllocError>
    requires sound { IsSoundMachine live.old }
    requires room { live.old.events + 1 < 2 ^ 64 }
    requires kept { AllKept (blocks_of blocks.now) live.old kept.old }
    requires blockers { AreBlockers live.old blockers.old }
    ensures yes { IfOk result (λ agrees. agrees ≡ true → Follows (blocks_of blocks.now) mode live.old item.now live.new) }
    ensures no { IfOk result (λ agrees. agrees ≡ false → (after : Machine) → Follows (blocks_of blocks.now) mode live.old item.now after → ⊥) }
    ensures kept { (count : ℕ) → Reaches (blocks_of blocks.now) mode count live.old → OnOk result (AllKept (blocks_of blocks.now) live.new kept.new) }
    ensures blockers { (count : ℕ) → Reaches (blocks_of blocks.now) mode count live.old → OnOk result (AreBlockers live.new blockers.new) }
{
    match live.act(kept, blockers, blocks, mode, item.event)? {
        Ok(reply) => Ok(reply.same(&item.reply)),
        Err(_) => Ok(false),
    }
}

/// Whether the history is one that an engine over these blocks, with so many sessions beside the control session
/// and in this mode, gives: each of its events is refused nowhere, and its reply is the machine's.
pub fn replays<'a, 't>(
    alloc: Global,
    blocks: &'a [Block<'t>],
    count: u32,
    mode: Mode,
    history: &[HistItem<'_>],
) -> Result<bool, AllocError>
    requires few { count ≤ MOST_SESSIONS }
    ensures { IfOk result (λ legal. IsTrue legal ↔ IsLegal (blocks_of blocks.now) count mode history.now) }
{
    stays_sound();
    let mut live = Live::new(alloc, count, ChainStore::new(alloc))?;
    let mut kept = Kept::none(alloc, count)?;
    let mut blockers = AllBlockers::none(alloc, count)?;
    for item in history {
        if !agrees(&mut live, &mut kept, &mut blockers, blocks, mode, item)? {
            return Ok(false);
        }
    }
    Ok(true)
}
