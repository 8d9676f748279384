//! All permutations of a spec, counted by their outcomes, with a verdict on each.

ghost use Rattle.std.specs.Prelude.{◌≡◌, IfOk, OnOk, length, map, string_bytes};
ghost use Rattle.sql_blocks.specs.Blocks.{blocks_of};
ghost use Rattle.spec_parser.specs.Trees.{entry_view, spec_view};
ghost use Rattle.spec_parser.specs.Stands.{Stands};
ghost use Rattle.permutation_plans.specs.Regular.{IsRegular};
ghost use Rattle.outcome_counts.specs.Code.Adding.{IsOneMore};
ghost use Rattle.outcome_counts.specs.Counts.{Fate, HasRoom, counts_view};
ghost use Rattle.outcome_counts.specs.Tables.{tables_made};
ghost use Rattle.outcomes.specs.Counting.{AllCounted, ComesTo, IsFate};
ghost use Rattle.outcomes.specs.Judging.{AllJudged, IsJudged};

use crate::outcome::outcome_of;
use crate::serial::serial_orders;
use crate::verdict::verdict_of;
use iso_lexer::Page;
use outcome_counts::{Counted, Ending, Group, ended_in, tables_made};
use outcome_text::Watch;
use outcome_verdicts::{Judged, Outcomes, transactions_of};
use permutation_lists::Permutations;
use plain_runs::run_alone;
use session_machine::HistItem;
use spec_files::{RunFault, write_permutation};
use spec_parser::{Entry, Spec};
use sql_blocks::Block;
use std::alloc::Global;

/// Why a permutation was not set up.
fn setup_fault(
    alloc: Global,
    spec: &Spec<'_>,
    entries: &[Entry],
    items: &[HistItem<'_>],
) -> RunFault {
    let mut text = Page::new(alloc);
    let mut notes = Page::new(alloc);
    match write_permutation(alloc, spec, entries, items, &mut text, &mut notes) {
        Err(fault) => fault,
        Ok(_) => RunFault::SetupWaits,
    }
}

/// Counts a permutation that has this history.
fn count_history<'t>(
    alloc: Global,
    spec: &Spec<'_>,
    blocks: &[Block<'t>],
    names: &[String],
    entries: &[Entry],
    items: &[HistItem<'t>],
    counted: &mut Counted<'t>,
) -> Result<(), RunFault>
    requires spec { Stands (spec_view spec.now) }
    requires room { HasRoom (counts_view counted.old) }
    requires regular { IsRegular (spec_view spec.now) (blocks_of blocks.now) (map entry_view entries.now) items.now }
    ensures { OnOk result ((fate : Fate) × IsFate (spec_view spec.now) (blocks_of blocks.now) (map string_bytes names.now) (map entry_view entries.now) items.now fate × IsOneMore (counts_view counted.old) (counts_view counted.new) fate) }
{
    let ended = ended_in(alloc, spec, entries, items)?;
    match ended.ending {
        Ending::NotSetUp => Err(setup_fault(alloc, spec, entries, items)),
        Ending::Blocked => {
            counted.add_blocked();
            Ok(())
        }
        Ending::Waits => {
            counted.add_waiting();
            Ok(())
        }
        Ending::Whole => {
            let outcome = outcome_of(alloc, spec, blocks, names, entries, items, ended.front)?;
            counted.add(alloc, outcome, entries)?;
            Ok(())
        }
    }
}

/// Runs a permutation, and counts it.
fn count_one<'t>(
    alloc: Global,
    spec: &Spec<'_>,
    blocks: &[Block<'t>],
    names: &[String],
    entries: &[Entry],
    counted: &mut Counted<'t>,
) -> Result<(), RunFault>
    requires spec { Stands (spec_view spec.now) }
    requires room { HasRoom (counts_view counted.old) }
    ensures { OnOk result ((fate : Fate) × ComesTo (spec_view spec.now) (blocks_of blocks.now) (map string_bytes names.now) (map entry_view entries.now) fate × IsOneMore (counts_view counted.old) (counts_view counted.new) fate) }
{
    let engine = run_alone(alloc, spec, blocks, entries)?;
    let items = engine.history();
    count_history(alloc, spec, blocks, names, entries, items, counted)
}

/// Runs the permutations of a spec, up to so many, and counts them.
fn count_all<'t, W: Watch>(
    alloc: Global,
    spec: &Spec<'_>,
    blocks: &[Block<'t>],
    names: &[String],
    limit: u64,
    watch: &mut W,
) -> Result<(u64, Counted<'t>), RunFault>
    requires spec { Stands (spec_view spec.now) }
    ensures { IfOk result (λ all. AllCounted (spec_view spec.now) (blocks_of blocks.now) (map string_bytes names.now) all.0 (counts_view all.1)) }
{
    let mut permutations = Permutations::of(alloc, spec)?;
    let mut counted = Counted::new(alloc);
    let mut number = 0u64;
    while permutations.advance(alloc)? {
        if number >= limit {
            return Err(RunFault::TooManyPermutations);
        }
        number += 1;
        count_one(
            alloc,
            spec,
            blocks,
            names,
            permutations.entries(),
            &mut counted,
        )?;
        watch.have_run(number);
    }
    Ok((number, counted))
}

/// The verdict on an outcome.
fn judge<'t>(
    alloc: Global,
    spec: &Spec<'_>,
    blocks: &[Block<'t>],
    names: &[String],
    group: &Group<'t>,
) -> Result<Judged<'t>, RunFault>
    requires spec { Stands (spec_view spec.now) }
    ensures { IfOk result (λ judged. IsJudged (spec_view spec.now) (blocks_of blocks.now) (map string_bytes names.now) group.now judged) }
{
    let lists = transactions_of(alloc, spec, blocks, &group.nearest)?;
    let orders = serial_orders(alloc, spec, blocks, names, &lists)?;
    let verdict = verdict_of(alloc, spec, blocks, names, &group.outcome, &orders, &lists)?;
    Ok(Judged { verdict, orders })
}

/// The verdicts on all outcomes, in their order.
fn judge_all<'t>(
    alloc: Global,
    spec: &Spec<'_>,
    blocks: &[Block<'t>],
    names: &[String],
    groups: &[Group<'t>],
) -> Result<Vec<Judged<'t>>, RunFault>
    requires spec { Stands (spec_view spec.now) }
    ensures judged { IfOk result (λ judged. AllJudged (spec_view spec.now) (blocks_of blocks.now) (map string_bytes names.now) groups.now judged.items) }
    ensures long { IfOk result (λ judged. length judged.items ≡ length groups.now) }
{
    let mut all = Vec::new(alloc);
    for group in groups {
        all.push(judge(alloc, spec, blocks, names, group)?)?;
    }
    Ok(all)
}

/// Runs the permutations of a spec, up to so many, and says what can happen. After `limit` permutations, with one more there, the
/// run ends; so it does after a setup that fails or waits. Who watches is told behind each permutation how many have run.
pub fn outcomes_of<'t, W: Watch>(
    alloc: Global,
    spec: &Spec<'_>,
    blocks: &[Block<'t>],
    limit: u64,
    watch: &mut W,
) -> Result<Outcomes<'t>, RunFault>
    requires spec { Stands (spec_view spec.now) }
    ensures tables { IfOk result (λ o. map string_bytes o.tables.items ≡ tables_made (spec_view spec.now) (blocks_of blocks.now)) }
    ensures counted { IfOk result (λ o. AllCounted (spec_view spec.now) (blocks_of blocks.now) (map string_bytes o.tables.items) o.permutations (counts_view o.counted)) }
    ensures judged { IfOk result (λ o. AllJudged (spec_view spec.now) (blocks_of blocks.now) (map string_bytes o.tables.items) o.counted.groups.items o.judged.items) }
    ensures long { IfOk result (λ o. length o.judged.items ≡ length o.counted.groups.items) }
{
    let tables = tables_made(alloc, spec, blocks)?;
    let (permutations, counted) = count_all(alloc, spec, blocks, tables.as_slice(), limit, watch)?;
    let judged = judge_all(alloc, spec, blocks, &tables, counted.groups.as_slice())?;
    Ok(Outcomes {
        tables,
        permutations,
        counted,
        judged,
    })
}
