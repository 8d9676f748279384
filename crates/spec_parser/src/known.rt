//! The steps of a file, by name.

ghost use Rattle.std.specs.Prelude.{◌≡◌, ◌<◌, ◌^◌, ◌++◌, [], length, map, find, take, drop, option_map, IfOk, OnOk};
ghost use Rattle.spec_parser.specs.Trees.{draft_view, session_draft_view};
ghost use Rattle.spec_parser.specs.Names.{is_named};
ghost use Rattle.spec_parser.specs.Inner.Known.{first_repeat, known_view, steps_from, sessions_from};
ghost use Rattle.iso_lexer.specs.Names.{name_view};

use crate::draft::{PlacedName, SessionDraft, StepDraft};
use iso_lexer::{Name, same_name};
use std::alloc::{AllocError, Global};

/// A step of the file: its name, its session, from 1, and its number in that, from 0.
#[derive(Clone, Copy)]
pub struct KnownStep<'a> {
    pub name: PlacedName<'a>,
    pub session: u32,
    pub step: u32,
}

fn add_steps<'a>(
    known: &mut Vec<KnownStep<'a>>,
    session: u32,
    steps: &[StepDraft<'a>],
) -> Result<(), AllocError>
    requires few { length steps.now < 2 ^ 32 }
    ensures added { OnOk result (map known_view known.new.items ≡ map known_view known.old.items ++ steps_from session 0 (map draft_view steps.now)) }
{
    let mut number: u32 = 0;
    for step in steps {
        known.push(KnownStep {
            name: step.name,
            session,
            step: number,
        })?;
        number += 1;
    }
    Ok(())
}

/// All steps, in file order.
pub fn known_steps<'a>(
    alloc: Global,
    sessions: &[SessionDraft<'a>],
) -> Result<Vec<KnownStep<'a>>, AllocError>
    requires few { length sessions.now < 2 ^ 32 }
    ensures all { IfOk result (λ v. map known_view v.items ≡ sessions_from 1 (map session_draft_view sessions.now)) }
{
    let mut known = Vec::new(alloc);
    let mut number: u32 = 0;
    for session in sessions {
        number += 1;
        add_steps(&mut known, number, &session.steps)?;
    }
    Ok(known)
}

/// The first of these steps that has this name.
pub fn find_step<'a>(known: &[KnownStep<'a>], name: &Name<'_>) -> Option<KnownStep<'a>>
    ensures found { option_map known_view result ≡ find (is_named (name_view name.now)) (map known_view known.now) }
{
    for step in known {
        if same_name(&step.name.name, name) {
            return Some(*step);
        }
    }
    None
}

/// Where the first name stands that an earlier step has.
pub fn first_repeat(known: &[KnownStep<'_>]) -> Option<usize>
    ensures found { result ≡ first_repeat [] (map known_view known.now) }
{
    for i in 0..known.len() {
        let step = known[i];
        if find_step(&known[..i], &step.name.name).is_some() {
            return Some(step.name.at);
        }
    }
    None
}
