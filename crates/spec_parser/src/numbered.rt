//! The sessions and steps that numbers name.

ghost use Rattle.std.specs.Prelude.{◌≡◌, map, option_map};
ghost use Rattle.spec_parser.specs.Trees.{step_view, session_view, entry_view, spec_view};
ghost use Rattle.spec_parser.specs.Numbered.{session_numbered, step_numbered, step_of_entry};

use crate::tree::{Entry, SessionPart, Spec, StepPart};

/// The session of this number, from 1.
pub fn session_numbered<'s, 'a>(
    sessions: &'s [SessionPart<'a>],
    number: usize,
) -> Option<&'s SessionPart<'a>>
    ensures { option_map (λ x. session_view x.now) result ≡ session_numbered (map session_view sessions.now) number }
{
    match number {
        0 => None,
        _ => sessions.get(number - 1),
    }
}

impl<'a> Spec<'a> {
    /// The step of this number, from 0, of the session of that number, from 1.
    pub fn step_numbered(&self, session: u32, step: u32) -> Option<&StepPart<'a>>
        ensures { option_map (λ x. step_view x.now) result ≡ step_numbered (spec_view self.now) session step }
    {
        let session = session_numbered(&self.sessions, session as usize)?;
        session.steps.get(step as usize)
    }

    /// The step that an entry names.
    pub fn step_of(&self, entry: &Entry) -> Option<&StepPart<'a>>
        ensures { option_map (λ x. step_view x.now) result ≡ step_of_entry (spec_view self.now) (entry_view entry.now) }
    {
        self.step_numbered(entry.session, entry.step)
    }
}
