//! Serial orders of transactions, and their outcomes.

ghost use Rattle.std.specs.Prelude.{◌≡◌, ◌≤◌, ◌<◌, ◌^◌, ◌↔◌, IfOk, IsTrue, MatchOption, OnOk, length, map, string_bytes};
ghost use Rattle.sql_blocks.specs.Blocks.{blocks_of};
ghost use Rattle.permutation_plans.specs.Regular.{IsRegular};
ghost use Rattle.spec_parser.specs.Trees.{entry_view, spec_view};
ghost use Rattle.spec_parser.specs.Stands.{Stands};
ghost use Rattle.outcome_counts.specs.declared.outcome.RunOutcome.{RunOutcome};
ghost use Rattle.outcome_verdicts.specs.Transactions.{list_view};
ghost use Rattle.outcome_verdicts.specs.Verdicts.{StandFor};
ghost use Rattle.outcome_verdicts.specs.Code.Adding.{IsTold};
ghost use Rattle.report_lines.specs.Starts.{segment_start};
ghost use Rattle.report_text.specs.Code.Turns.{setup_numbers};
ghost use Rattle.outcome_counts.specs.Endings.{wanted};
ghost use Rattle.outcomes.specs.Judging.{AreSerialEntries, IsSerialIn, IsSerialOrder, IsSerialRun};

use crate::outcome::outcome_of;
use outcome_counts::{Ended, Ending, RunOutcome, ended_in, is_serial};
use outcome_verdicts::{SerialOrder, Transaction, add_order, counts_of, entries_in_order};
use permutation_lists::Interleavings;
use plain_runs::run_alone;
use session_machine::HistItem;
use spec_files::RunFault;
use spec_parser::{Entry, Spec};
use sql_blocks::Block;
use std::alloc::{AllocError, Global};

/// Whether the entries that ended so in this history are serial: behind the setups, and up to their end.
fn are_serial(
    spec: &Spec<'_>,
    blocks: &[Block<'_>],
    entries: &[Entry],
    items: &[HistItem<'_>],
    ended: Ended,
) -> bool
    requires stands { Stands (spec_view spec.now) }
    requires setups { ended.setups ≡ segment_start items.now (length (setup_numbers (spec_view spec.now))) }
    requires front { ended.front ≡ segment_start items.now (wanted (spec_view spec.now) (map entry_view entries.now)) }
    requires within { ended.front ≤ length items.now }
    ensures { IsTrue result ↔ AreSerialEntries (spec_view spec.now) (blocks_of blocks.now) (map entry_view entries.now) items.now }
{
    let count = spec.sessions.len() as u32 + 1;
    is_serial(blocks, count, ended.setups, &items[..ended.front])
}

/// The outcome of these entries, which have this history, if they run to their end as a serial order.
fn outcome_if_serial<'t>(
    alloc: Global,
    spec: &Spec<'_>,
    blocks: &[Block<'t>],
    names: &[String],
    entries: &[Entry],
    items: &[HistItem<'t>],
) -> Result<Option<RunOutcome<'t>>, RunFault>
    requires stands { Stands (spec_view spec.now) }
    requires regular { IsRegular (spec_view spec.now) (blocks_of blocks.now) (map entry_view entries.now) items.now }
    ensures { IfOk result (λ found. MatchOption found
        ((o : RunOutcome) → IsSerialRun (spec_view spec.now) (blocks_of blocks.now) (map string_bytes names.now) (map entry_view entries.now) o → ⊥)
        (λ o. IsSerialRun (spec_view spec.now) (blocks_of blocks.now) (map string_bytes names.now) (map entry_view entries.now) o)) }
{
    let ended = ended_in(alloc, spec, entries, items)?;
    match ended.ending {
        Ending::Whole => {
            if !are_serial(spec, blocks, entries, items, ended) {
                return Ok(None);
            }
            let outcome = outcome_of(alloc, spec, blocks, names, entries, items, ended.front)?;
            Ok(Some(outcome))
        }
        _ => Ok(None),
    }
}

/// The outcome of these entries, if they run to their end as a serial order.
fn serial_outcome<'t>(
    alloc: Global,
    spec: &Spec<'_>,
    blocks: &[Block<'t>],
    names: &[String],
    entries: &[Entry],
) -> Result<Option<RunOutcome<'t>>, RunFault>
    requires { Stands (spec_view spec.now) }
    ensures { IfOk result (λ found. MatchOption found
        ((o : RunOutcome) → IsSerialRun (spec_view spec.now) (blocks_of blocks.now) (map string_bytes names.now) (map entry_view entries.now) o → ⊥)
        (λ o. IsSerialRun (spec_view spec.now) (blocks_of blocks.now) (map string_bytes names.now) (map entry_view entries.now) o)) }
{
    let engine = run_alone(alloc, spec, blocks, entries)?;
    outcome_if_serial(alloc, spec, blocks, names, entries, engine.history())
}

/// Runs the transactions in this order, and adds it if it is serial and no other one has its outcome.
fn tell_order<'t>(
    alloc: Global,
    spec: &Spec<'_>,
    blocks: &[Block<'t>],
    names: &[String],
    lists: &[Vec<Transaction>],
    order: &[u32],
    orders: &mut Vec<SerialOrder<'t>>,
) -> Result<(), RunFault>
    requires { Stands (spec_view spec.now) }
    ensures { OnOk result (IsTold (IsSerialIn (spec_view spec.now) (blocks_of blocks.now) (map string_bytes names.now) (map list_view lists.now)) orders.old.items orders.new.items order.now) }
{
    let entries = entries_in_order(alloc, lists, order)?;
    match serial_outcome(alloc, spec, blocks, names, &entries)? {
        Some(outcome) => {
            add_order(alloc, orders, order, outcome)?;
            Ok(())
        }
        None => Ok(()),
    }
}

/// The serial orders of these transactions, of each outcome the first.
pub fn serial_orders<'t>(
    alloc: Global,
    spec: &Spec<'_>,
    blocks: &[Block<'t>],
    names: &[String],
    lists: &[Vec<Transaction>],
) -> Result<Vec<SerialOrder<'t>>, RunFault>
    requires spec { Stands (spec_view spec.now) }
    requires few { length lists.now < 2 ^ 32 }
    ensures { IfOk result (λ orders. StandFor (IsSerialOrder (spec_view spec.now) (blocks_of blocks.now) (map string_bytes names.now) (map list_view lists.now)) orders.items) }
{
    let counts = counts_of(alloc, lists)?;
    let mut orders = Vec::new(alloc);
    let mut turns = Vec::new(alloc);
    let mut interleavings = Interleavings::new(alloc, &counts)?;
    while interleavings.next(&mut turns)? {
        tell_order(alloc, spec, blocks, names, lists, &turns, &mut orders)?;
    }
    Ok(orders)
}
