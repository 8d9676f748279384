//! Looks up the names of permutations.

ghost use Rattle.std.specs.Prelude.{◌≡◌, ◌<◌, length, map, IfOk, IsErrOf};
ghost use Rattle.spec_parser.specs.Trees.{step_view, session_view, entry_view, perm_view, draft_view, session_draft_view, marker_view, entry_name_view, perm_names_view};
ghost use Rattle.iso_lexer.specs.Results.{each};
ghost use Rattle.spec_parser.specs.Names.{known_marker, known_entry, session_tree};
ghost use Rattle.spec_parser.specs.Inner.Known.{step_tree, known_perms, known_view, IsAs, EntryWantsRoom};

use crate::draft::{EntryName, MarkerName, SessionDraft, StepDraft};
use crate::fault::SpecFault;
use crate::known::{KnownStep, find_step};
use crate::tree::{Entry, Marker, SessionPart, StepPart};
use std::alloc::{AllocError, Global};

fn known_marker(known: &[KnownStep<'_>], marker: &MarkerName<'_>) -> Result<Marker, SpecFault>
    ensures { result ≡ known_marker (map known_view known.now) (marker_view marker.now) }
{
    match marker {
        MarkerName::Star => Ok(Marker::Star),
        MarkerName::Named(name) => match find_step(known, &name.name) {
            Some(step) => Ok(Marker::Step {
                session: step.session,
                step: step.step,
            }),
            None => Err(SpecFault::UndefinedMarker { at: name.at }),
        },
    }
}

fn known_markers(
    alloc: Global,
    known: &[KnownStep<'_>],
    markers: &[MarkerName<'_>],
) -> Result<Vec<Marker>, SpecFault>
    ensures are { IsAs (λ v. v.items) result (each (known_marker (map known_view known.now)) (map marker_view markers.now)) }
    ensures room { IsErrOf result SpecFault.Memory → 0 < length markers.now }
{
    let mut items = Vec::new(alloc);
    for name in markers {
        let item = known_marker(known, name)?;
        items.push(item)?;
    }
    Ok(items)
}

fn known_entry(
    alloc: Global,
    known: &[KnownStep<'_>],
    entry: &EntryName<'_>,
) -> Result<Entry, SpecFault>
    ensures is { IsAs entry_view result (known_entry (map known_view known.now) (entry_name_view entry.now)) }
    ensures room { IsErrOf result SpecFault.Memory → EntryWantsRoom (map known_view known.now) (entry_name_view entry.now) }
{
    let Some(step) = find_step(known, &entry.name.name) else {
        return Err(SpecFault::UndefinedStep { at: entry.name.at });
    };
    let markers = known_markers(alloc, known, &entry.markers)?;
    Ok(Entry {
        session: step.session,
        step: step.step,
        markers,
    })
}

fn known_perm(
    alloc: Global,
    known: &[KnownStep<'_>],
    entries: &[EntryName<'_>],
) -> Result<Vec<Entry>, SpecFault>
    ensures { IsAs perm_view result (each (known_entry (map known_view known.now)) (map entry_name_view entries.now)) }
{
    let mut items = Vec::new(alloc);
    for entry in entries {
        let item = known_entry(alloc, known, entry)?;
        items.push(item)?;
    }
    Ok(items)
}

/// The permutations, with the steps that their names stand for.
pub fn known_perms(
    alloc: Global,
    known: &[KnownStep<'_>],
    perms: &[Vec<EntryName<'_>>],
) -> Result<Vec<Vec<Entry>>, SpecFault>
    ensures { IsAs (λ v. map perm_view v.items) result (known_perms (map known_view known.now) (map perm_names_view perms.now)) }
{
    let mut items = Vec::new(alloc);
    for entries in perms {
        let item = known_perm(alloc, known, entries)?;
        items.push(item)?;
    }
    Ok(items)
}

fn step_parts<'a>(alloc: Global, steps: &[StepDraft<'a>]) -> Result<Vec<StepPart<'a>>, AllocError>
    ensures { IfOk result (λ v. map step_view v.items ≡ map step_tree (map draft_view steps.now)) }
{
    let mut parts = Vec::new(alloc);
    for step in steps {
        parts.push(StepPart {
            name: step.name.name,
            part: step.part,
        })?;
    }
    Ok(parts)
}

fn session_part<'a>(
    alloc: Global,
    session: &SessionDraft<'a>,
) -> Result<SessionPart<'a>, AllocError>
    ensures { IfOk result (λ s. session_view s ≡ session_tree (session_draft_view session.now)) }
{
    let steps = step_parts(alloc, &session.steps)?;
    Ok(SessionPart {
        name: session.name.name,
        setup: session.setup,
        steps,
        teardown: session.teardown,
    })
}

/// The sessions, without the places of their steps' names.
pub fn session_parts<'a>(
    alloc: Global,
    sessions: &[SessionDraft<'a>],
) -> Result<Vec<SessionPart<'a>>, AllocError>
    ensures { IfOk result (λ v. map session_view v.items ≡ map session_tree (map session_draft_view sessions.now)) }
{
    let mut parts = Vec::new(alloc);
    for session in sessions {
        let part = session_part(alloc, session)?;
        parts.push(part)?;
    }
    Ok(parts)
}
