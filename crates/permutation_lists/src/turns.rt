//! The entries of turns.

ghost use Rattle.std.specs.Prelude.{◌≡◌, ◌≢◌, ◌≤◌, ◌<◌, ◌^◌, ◌==◌, [], length, map, flat_map, count_by, IfOk, OnErr};
ghost use Rattle.spec_parser.specs.Trees.{entry_view, session_view};
ghost use Rattle.permutation_lists.specs.Permutations.{entries_of};

use spec_parser::{Entry, SessionPart};
use std::alloc::{AllocError, Global};

/// The entry of a session's turn, after the turns before it.
fn entry_after(alloc: Global, before: &[u32], session: u32) -> Entry
    requires { length before.now < 2 ^ 32 }
    ensures { entry_view result ≡ record { session = session; step = count_by (λ x. x == session) before.now; markers = [] } }
{
    let step = before.iter().filter(|turn| **turn == session).count();
    Entry {
        session,
        step: step as u32,
        markers: Vec::new(alloc),
    }
}

/// The entries of turns.
pub fn entries_of(alloc: Global, turns: &[u32]) -> Result<Vec<Entry>, AllocError>
    requires { length turns.now < 2 ^ 32 }
    ensures entries { IfOk result (λ entries. map entry_view entries.items ≡ entries_of turns.now) }
    ensures memory { OnErr result (turns.now ≢ []) }
{
    let mut entries = Vec::with_capacity(alloc, turns.len())?;
    for (place, session) in turns.iter().enumerate() {
        entries.push(entry_after(alloc, &turns[..place], *session))?;
    }
    Ok(entries)
}

/// How many steps each session has.
pub fn step_counts(alloc: Global, sessions: &[SessionPart<'_>]) -> Result<Vec<u32>, AllocError>
    requires { length (flat_map (λ s. s.steps) (map session_view sessions.now)) < 2 ^ 32 }
    ensures counts { IfOk result (λ counts. counts.items ≡ map (λ s. length s.steps) (map session_view sessions.now)) }
    ensures memory { OnErr result (sessions.now ≢ []) }
{
    let mut counts = Vec::with_capacity(alloc, sessions.len())?;
    for session in sessions {
        counts.push(session.steps.len() as u32)?;
    }
    Ok(counts)
}
