//! How many setups a permutation runs.

ghost use Rattle.std.specs.Prelude.{◌≡◌, ◌≤◌, ◌+◌, length, map};
ghost use Rattle.spec_parser.specs.Trees.{session_view, spec_view};
ghost use Rattle.spec_parser.specs.Stands.{Stands};
ghost use Rattle.iso_lexer.specs.declared.limits.TheConstants.{MOST_SESSIONS};
ghost use Rattle.report_text.specs.Code.Turns.{session_numbers, setup_numbers};

use spec_parser::{SessionPart, Spec};

/// How many of these sessions have a setup.
fn session_setups(sessions: &[SessionPart<'_>]) -> usize
    ensures exact { result ≡ length (session_numbers (λ s. s.setup) (map session_view sessions.now)) }
    ensures few { result ≤ length sessions.now }
{
    let mut number = 0usize;
    for session in sessions {
        if session.setup.is_some() {
            number += 1;
        }
    }
    number
}

/// How many setups a permutation runs: those of the file, and one of each session that has one.
pub fn setups_in(spec: &Spec<'_>) -> usize
    requires { Stands (spec_view spec.now) }
    ensures exact { result ≡ length (setup_numbers (spec_view spec.now)) }
    ensures few { result ≤ length spec.now.setups.items + MOST_SESSIONS }
{
    spec.setups.len() + session_setups(&spec.sessions)
}
