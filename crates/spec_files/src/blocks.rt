//! The blocks of a file, in its order.

ghost use Rattle.std.specs.Prelude.{◌≡◌, ◌++◌, ◌∷◌, [], map, option_map, option_to_list, flat_map, IfOk, OnOk};
ghost use Rattle.std.specs.List.{AllByRecursion};
ghost use Rattle.spec_parser.specs.Trees.{part_view, step_view, session_view, spec_view};
ghost use Rattle.spec_parser.specs.Stands.{session_parts};
ghost use Rattle.sql_blocks.specs.declared.block.Role.TheVariants.{Main, Session};
ghost use Rattle.spec_files.specs.Blocks.{blocks_in};
ghost use Rattle.spec_files.specs.BlockAnswers.{block_as};
ghost use Rattle.spec_files.specs.BlockAnswers.{placed_view, step_part, block_fault, Says, SayAll, HasShortText};

use crate::fault::{BlockFault, RunFault};
use spec_parser::{Part, SessionPart, Spec, StepPart};
use sql_blocks::{Block, Role};
use sql_parser::parse_block;
use sql_trees::SqlFault;
use std::alloc::{AllocError, AllocFailed, Global};

/// A block of the file, and where it stands.
#[derive(Clone, Copy)]
pub struct PlacedPart<'a> {
    pub role: Role,
    pub part: Part<'a>,
}

fn add<'a>(parts: &mut Vec<PlacedPart<'a>>, role: Role, part: &Part<'a>) -> Result<(), AllocError>
    ensures { OnOk result (map placed_view parts.new.items ≡ map placed_view parts.old.items ++ block_as role (part_view part.now) ∷ []) }
{
    parts.push(PlacedPart { role, part: *part })?;
    Ok(())
}

fn add_if<'a>(
    parts: &mut Vec<PlacedPart<'a>>,
    role: Role,
    part: &Option<Part<'a>>,
) -> Result<(), AllocError>
    ensures { OnOk result (map placed_view parts.new.items ≡ map placed_view parts.old.items ++ map (block_as role) (option_to_list (option_map part_view part.now))) }
{
    match part {
        Some(part) => add(parts, role, part),
        None => Ok(()),
    }
}

fn add_mains<'a>(parts: &mut Vec<PlacedPart<'a>>, mains: &[Part<'a>]) -> Result<(), AllocError>
    ensures { OnOk result (map placed_view parts.new.items ≡ map placed_view parts.old.items ++ map (block_as Main) (map part_view mains.now)) }
{
    for part in mains {
        add(parts, Role::Main, part)?;
    }
    Ok(())
}

fn add_steps<'a>(parts: &mut Vec<PlacedPart<'a>>, steps: &[StepPart<'a>]) -> Result<(), AllocError>
    ensures { OnOk result (map placed_view parts.new.items ≡ map placed_view parts.old.items ++ map (block_as Session) (map step_part (map step_view steps.now))) }
{
    for step in steps {
        add(parts, Role::Session, &step.part)?;
    }
    Ok(())
}

fn add_session<'a>(
    parts: &mut Vec<PlacedPart<'a>>,
    session: &SessionPart<'a>,
) -> Result<(), AllocError>
    ensures { OnOk result (map placed_view parts.new.items ≡ map placed_view parts.old.items ++ map (block_as Session) (session_parts (session_view session.now))) }
{
    add_if(parts, Role::Session, &session.setup)?;
    add_steps(parts, &session.steps)?;
    add_if(parts, Role::Session, &session.teardown)
}

fn add_sessions<'a>(
    parts: &mut Vec<PlacedPart<'a>>,
    sessions: &[SessionPart<'a>],
) -> Result<(), AllocError>
    ensures { OnOk result (map placed_view parts.new.items ≡ map placed_view parts.old.items ++ map (block_as Session) (flat_map session_parts (map session_view sessions.now))) }
{
    for session in sessions {
        add_session(parts, session)?;
    }
    Ok(())
}

/// The blocks in the order of the file.
pub fn blocks_in<'a>(alloc: Global, spec: &Spec<'a>) -> Result<Vec<PlacedPart<'a>>, AllocError>
    ensures { IfOk result (λ parts. map placed_view parts.items ≡ blocks_in (spec_view spec.now)) }
{
    let mut parts = Vec::new(alloc);
    add_mains(&mut parts, &spec.setups)?;
    add_if(&mut parts, Role::Main, &spec.teardown)?;
    add_sessions(&mut parts, &spec.sessions)?;
    Ok(parts)
}

fn as_run_fault(block: usize, fault: SqlFault) -> RunFault
    ensures { result ≡ block_fault block fault }
{
    match fault {
        SqlFault::Memory => RunFault::Memory,
        fault => RunFault::Sql(BlockFault { block, fault }),
    }
}

fn read_block<'a>(alloc: Global, placed: &PlacedPart<'a>) -> Result<Block<'a>, RunFault>
    requires { HasShortText (placed_view placed.now) }
    ensures { Says (placed_view placed.now) result }
{
    match parse_block(alloc, placed.part.sql, placed.role) {
        Ok(block) => Ok(block),
        Err(fault) => Err(as_run_fault(placed.part.at, fault)),
    }
}

/// The blocks as statements, or the first fault of them.
pub fn read_blocks<'a>(alloc: Global, parts: &[PlacedPart<'a>]) -> Result<Vec<Block<'a>>, RunFault>
    requires { AllByRecursion HasShortText (map placed_view parts.now) }
    ensures { SayAll (map placed_view parts.now) result }
{
    let mut blocks = Vec::new(alloc);
    for placed in parts {
        let block = read_block(alloc, placed)?;
        blocks.push(block)?;
    }
    Ok(blocks)
}
