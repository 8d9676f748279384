//! Whether an outcome is that of a serial order.

ghost use Rattle.std.specs.Prelude.{◌≡◌, ◌≢◌, ◌<◌, ◌^◌, [], IfOk, length, map, string_bytes};
ghost use Rattle.sql_blocks.specs.Blocks.{blocks_of};
ghost use Rattle.spec_parser.specs.Trees.{spec_view};
ghost use Rattle.spec_parser.specs.Stands.{Stands};
ghost use Rattle.outcome_counts.specs.Outcomes.{SameOutcome};
ghost use Rattle.outcome_verdicts.specs.Transactions.{list_view, transaction_view};
ghost use Rattle.outcome_verdicts.specs.Failures.{CanBeLeftOut, failed_of};
ghost use Rattle.outcome_verdicts.specs.Verdicts.{IsAsNone, StandFor};
ghost use Rattle.outcomes.specs.Judging.{IsSerialOrder, IsVerdictOn};

use crate::serial::serial_orders;
use outcome_counts::RunOutcome;
use outcome_verdicts::{
    SerialOrder, Transaction, Verdict, failed_of, mixed_step, order_with, order_without, rest_of,
    sessions_of,
};
use spec_files::RunFault;
use spec_parser::Spec;
use sql_blocks::Block;
use std::alloc::Global;

/// The verdict on an outcome that no serial order of all transactions has, where these failed and can be left out.
fn verdict_without<'t>(
    alloc: Global,
    spec: &Spec<'_>,
    blocks: &[Block<'t>],
    names: &[String],
    outcome: &RunOutcome<'t>,
    lists: &[Vec<Transaction>],
    failed: &[Transaction],
) -> Result<Verdict, RunFault>
    requires spec { Stands (spec_view spec.now) }
    requires few { length lists.now < 2 ^ 32 }
    requires none { IsAsNone (IsSerialOrder (spec_view spec.now) (blocks_of blocks.now) (map string_bytes names.now) (map list_view lists.now)) (λ s. SameOutcome s outcome.now) }
    requires failed { map transaction_view failed.now ≡ failed_of (spec_view spec.now) outcome.now (map list_view lists.now) }
    requires some { map transaction_view failed.now ≢ [] }
    requires out { CanBeLeftOut (spec_view spec.now) (blocks_of blocks.now) (map transaction_view failed.now) }
    ensures { IfOk result (λ verdict. IsVerdictOn (spec_view spec.now) (blocks_of blocks.now) (map string_bytes names.now) (map list_view lists.now) outcome.now verdict) }
{
    let kept = rest_of(alloc, spec, outcome, lists)?;
    let orders = serial_orders(alloc, spec, blocks, names, &kept)?;
    match order_without(spec, failed, &orders, outcome) {
        Some(order) => {
            let rest = Vec::from_slice(alloc, order.sessions.as_slice())?;
            let failed = sessions_of(alloc, failed)?;
            Ok(Verdict::RestSerial { failed, rest })
        }
        None => Ok(Verdict::NotSerial),
    }
}

/// The verdict on an outcome that no serial order of all transactions has.
fn verdict_of_rest<'t>(
    alloc: Global,
    spec: &Spec<'_>,
    blocks: &[Block<'t>],
    names: &[String],
    outcome: &RunOutcome<'t>,
    lists: &[Vec<Transaction>],
) -> Result<Verdict, RunFault>
    requires spec { Stands (spec_view spec.now) }
    requires few { length lists.now < 2 ^ 32 }
    requires none { IsAsNone (IsSerialOrder (spec_view spec.now) (blocks_of blocks.now) (map string_bytes names.now) (map list_view lists.now)) (λ s. SameOutcome s outcome.now) }
    ensures { IfOk result (λ verdict. IsVerdictOn (spec_view spec.now) (blocks_of blocks.now) (map string_bytes names.now) (map list_view lists.now) outcome.now verdict) }
{
    let failed = failed_of(alloc, spec, outcome, lists)?;
    if failed.is_empty() {
        return Ok(Verdict::NotSerial);
    }
    match mixed_step(spec, blocks, &failed) {
        Some((session, step)) => Ok(Verdict::Untold { session, step }),
        None => verdict_without(alloc, spec, blocks, names, outcome, lists, &failed),
    }
}

/// The verdict on an outcome, beside the serial orders of its permutations' transactions.
pub fn verdict_of<'t>(
    alloc: Global,
    spec: &Spec<'_>,
    blocks: &[Block<'t>],
    names: &[String],
    outcome: &RunOutcome<'t>,
    orders: &[SerialOrder<'t>],
    lists: &[Vec<Transaction>],
) -> Result<Verdict, RunFault>
    requires spec { Stands (spec_view spec.now) }
    requires few { length lists.now < 2 ^ 32 }
    requires orders { StandFor (IsSerialOrder (spec_view spec.now) (blocks_of blocks.now) (map string_bytes names.now) (map list_view lists.now)) orders.now }
    ensures { IfOk result (λ verdict. IsVerdictOn (spec_view spec.now) (blocks_of blocks.now) (map string_bytes names.now) (map list_view lists.now) outcome.now verdict) }
{
    match order_with(orders, outcome) {
        Some(order) => {
            let sessions = Vec::from_slice(alloc, order.sessions.as_slice())?;
            Ok(Verdict::Serial(sessions))
        }
        None => verdict_of_rest(alloc, spec, blocks, names, outcome, lists),
    }
}
