//! What a free run of a spec launches, as its threads are given it.

ghost use Rattle.std.specs.Prelude.{◌≡◌, ◌<◌, ◌^◌, length, map, vec_len, IfOk};
ghost use Rattle.spec_parser.specs.Trees.{spec_view};
ghost use Rattle.permutation_plans.specs.FreeLaunches.{free_launches, scripts_of};
ghost use Rattle.spec_files.specs.FreeRuns.{pair_of};

use permutation_plans::FreeLaunches;
use report_lines::PlannedLaunch;
use session_seats::FreePlan;
use spec_parser::Spec;
use std::alloc::{AllocError, Global};

fn pairs(alloc: Global, launches: &[PlannedLaunch]) -> Result<Vec<(u32, u32)>, AllocError>
    ensures { IfOk result (λ pairs. pairs.items ≡ map pair_of launches.now) }
{
    let mut pairs = Vec::new(alloc);
    for launch in launches {
        pairs.push((launch.session, launch.block))?;
    }
    Ok(pairs)
}

/// What the threads of a free run of the spec are given.
pub fn free_plan_of(alloc: Global, spec: &Spec<'_>) -> Result<FreePlan, AllocError>
    requires { length spec.now.sessions.items < 2 ^ 32 }
    ensures before { IfOk result (λ plan. plan.before.items ≡ map pair_of (free_launches (spec_view spec.now)).before) }
    ensures scripts { IfOk result (λ plan. scripts_of plan.scripts ≡ (free_launches (spec_view spec.now)).scripts) }
    ensures after { IfOk result (λ plan. plan.after.items ≡ (free_launches (spec_view spec.now)).after) }
    ensures sessions { IfOk result (λ plan. vec_len plan.scripts ≡ length (spec_view spec.now).sessions) }
{
    let launches = FreeLaunches::of(alloc, spec)?;
    let before = pairs(alloc, &launches.before)?;
    Ok(FreePlan {
        before,
        scripts: launches.scripts,
        after: launches.after,
    })
}
