//! The outcome of a permutation.

ghost use Rattle.std.specs.Prelude.{◌≡◌, ◌≤◌, IfOk, Ok, length, map, string_bytes};
ghost use Rattle.sql_blocks.specs.Blocks.{blocks_of};
ghost use Rattle.session_machine.specs.Engine.{visible_in};
ghost use Rattle.spec_parser.specs.Trees.{entry_view, spec_view};
ghost use Rattle.spec_parser.specs.Stands.{Stands};
ghost use Rattle.permutation_plans.specs.Regular.{IsRegular};
ghost use Rattle.outcome_counts.specs.Outcomes.{answers_of, answers_told};
ghost use Rattle.report_lines.specs.Starts.{segment_start};
ghost use Rattle.outcome_counts.specs.Endings.{front_of, wanted};
ghost use Rattle.outcomes.specs.Tables.{Shown, tables_view};

use crate::replay::replayed;
use outcome_counts::RunOutcome;
use row_versions::ListStore;
use session_core::EngineState;
use session_machine::HistItem;
use session_seats::ThreadFault;
use spec_files::RunFault;
use spec_parser::{Entry, Spec};
use sql_blocks::Block;
use std::alloc::Global;

/// The outcome of a permutation that has this history, where the control session of an engine sees the tables.
fn outcome_at<'t>(
    alloc: Global,
    spec: &Spec<'_>,
    names: &[String],
    items: &[HistItem<'t>],
    engine: &EngineState<'_, '_, ListStore>,
) -> Result<RunOutcome<'t>, RunFault>
    requires { Stands (spec_view spec.now) }
    ensures answers { IfOk result (λ o. answers_told o ≡ answers_of (spec_view spec.now) items.now) }
    ensures tables { IfOk result (λ o. map (visible_in engine.now.machine 0) (map string_bytes names.now) ≡ map Ok (tables_view o.tables.items)) }
{
    let mut outcome = RunOutcome::of(alloc, spec, items)?;
    for name in names {
        match engine.visible(0, name.as_str()) {
            Ok(rows) => outcome.add_table(rows)?,
            Err(fault) => return Err(ThreadFault::Engine(fault).into()),
        }
    }
    Ok(outcome)
}

/// The outcome of a permutation that has this history, of which so many items come before the teardowns.
pub fn outcome_of<'t>(
    alloc: Global,
    spec: &Spec<'_>,
    blocks: &[Block<'t>],
    names: &[String],
    entries: &[Entry],
    items: &[HistItem<'t>],
    front: usize,
) -> Result<RunOutcome<'t>, RunFault>
    requires stands { Stands (spec_view spec.now) }
    requires regular { IsRegular (spec_view spec.now) (blocks_of blocks.now) (map entry_view entries.now) items.now }
    requires front { front ≡ segment_start items.now (wanted (spec_view spec.now) (map entry_view entries.now)) }
    requires within { front ≤ length items.now }
    ensures answers { IfOk result (λ o. answers_told o ≡ answers_of (spec_view spec.now) items.now) }
    ensures tables { IfOk result (λ o. Shown (blocks_of blocks.now) (length (spec_view spec.now).sessions)
        (front_of (spec_view spec.now) (map entry_view entries.now) items.now) (map string_bytes names.now) (tables_view o.tables.items)) }
{
    let engine = replayed(alloc, spec, blocks, &items[..front])?;
    engine.history();
    outcome_at(alloc, spec, names, items, &engine)
}
