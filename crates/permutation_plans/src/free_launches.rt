//! What a free run of a spec launches.
ghost use Rattle.std.specs.Prelude.{◌≡◌, ◌≢◌, ◌<◌, ◌^◌, ◌++◌, [], length, map, option_map, option_to_list, IfOk, OnOk, OnErr};
ghost use Rattle.spec_parser.specs.Trees.{part_view, step_view, session_view, spec_view};
ghost use Rattle.permutation_plans.specs.FreeLaunches.{block, step_block, script, free_launches, scripts_of};

use crate::launches::setups;
use report_lines::PlannedLaunch;
use spec_parser::{Part, SessionPart, Spec, StepPart};
use std::alloc::{AllocError, Global};
use std::marker::Model;

/// The blocks that run before the sessions' threads, those of each session, and those of the control session behind them.
#[derive(Drop)]
pub struct FreeLaunches {
    pub before: Vec<PlannedLaunch>,
    pub scripts: Vec<Vec<u32>>,
    pub after: Vec<u32>,
}

impl Model for FreeLaunches {
    ghost use Rattle.permutation_plans.specs.FreeLaunches.{FreeLaunches as Listed, scripts_of};

    ghost Value = { Listed };

    ghost view = { λ l. record { before = l.before.items; scripts = scripts_of l.scripts; after = l.after.items } };
}

fn push_steps(blocks: &mut Vec<u32>, steps: &[StepPart<'_>]) -> Result<(), AllocError>
    ensures blocks { OnOk result (blocks.new.items ≡ blocks.old.items ++ map step_block (map step_view steps.now)) }
    ensures memory { OnErr result (steps.now ≢ []) }
{
    for step in steps {
        blocks.push(step.part.block)?;
    }
    Ok(())
}

/// Adds the part, if it is there.
fn push_part(blocks: &mut Vec<u32>, part: Option<Part<'_>>) -> Result<(), AllocError>
    ensures blocks { OnOk result (blocks.new.items ≡ blocks.old.items ++ map block (option_to_list (option_map part_view part.entry))) }
    ensures memory { OnErr result (option_to_list (option_map part_view part.entry) ≢ []) }
{
    if let Some(part) = part {
        blocks.push(part.block)?;
    }
    Ok(())
}

/// The blocks of a session's steps, and its teardown.
fn script(alloc: Global, session: &SessionPart<'_>) -> Result<Vec<u32>, AllocError>
    ensures { IfOk result (λ blocks. blocks.items ≡ script (session_view session.now)) }
{
    let mut blocks = Vec::new(alloc);
    push_steps(&mut blocks, &session.steps)?;
    push_part(&mut blocks, session.teardown)?;
    Ok(blocks)
}

fn scripts(alloc: Global, sessions: &[SessionPart<'_>]) -> Result<Vec<Vec<u32>>, AllocError>
    ensures { IfOk result (λ scripts. scripts_of scripts ≡ map script (map session_view sessions.now)) }
{
    let mut scripts = Vec::new(alloc);
    for session in sessions {
        let blocks = script(alloc, session)?;
        scripts.push(blocks)?;
    }
    Ok(scripts)
}

impl FreeLaunches {
    ghost use Rattle.permutation_plans.specs.FreeLaunches.{free_launches};

    /// What a free run of the spec launches.
    pub fn of(alloc: Global, spec: &Spec<'_>) -> Result<FreeLaunches, AllocError>
        requires { length spec.now.sessions.items < 2 ^ 32 }
        ensures { IfOk result (λ l. l ≡ free_launches (spec_view spec.now)) }
    {
        let mut after = Vec::new(alloc);
        push_part(&mut after, spec.teardown)?;
        Ok(FreeLaunches {
            before: setups(alloc, spec)?,
            scripts: scripts(alloc, &spec.sessions)?,
            after,
        })
    }
}
