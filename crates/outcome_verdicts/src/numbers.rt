//! The numbers of steps in the file.

ghost use Rattle.std.specs.Prelude.{◌≡◌, ◌+◌, ◌==◌, ◌<◌, min, length, map, flat_map};
ghost use Rattle.spec_parser.specs.Trees.{session_view, spec_view};
ghost use Rattle.outcome_verdicts.specs.Failures.{number_of};

use spec_parser::{SessionPart, Spec};

/// So many and all steps of these sessions, as far as a number goes.
fn with_steps(sessions: &[SessionPart<'_>], first: usize) -> usize
    ensures { result ≡ min (length (flat_map (λ s. s.steps) (map session_view sessions.now)) + first) usize.MAX }
{
    let mut number = first;
    for session in sessions {
        number = number.saturating_add(session.steps.len());
    }
    number
}

/// The number of a session's step among all steps of the file.
pub fn step_number(spec: &Spec<'_>, session: u32, step: u32) -> usize
    ensures { result ≡ min (number_of (spec_view spec.now) session step) usize.MAX }
{
    let sessions = spec.sessions.as_slice();
    let before = (session as usize).saturating_sub(1).min(sessions.len());
    with_steps(&sessions[..before], step as usize)
}

/// Whether a session's step has this number.
pub fn is_number_of(spec: &Spec<'_>, session: u32, step: u32, number: usize) -> bool
    requires { number < usize.MAX }
    ensures { result ≡ (number_of (spec_view spec.now) session step == number) }
{
    step_number(spec, session, step) == number
}
