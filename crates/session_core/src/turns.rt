//! Whose turn it is.
ghost use Rattle.std.specs.Prelude.{◌≡◌, ◌<◌, not, ◌&&◌, IfSome, length};
ghost use Rattle.std.specs.List.{position_from};
ghost use Rattle.session_machine.specs.Machine.{is_directed, is_quiet, turn_in};
ghost use Rattle.session_machine.specs.Inner.Steps.{is_ready, is_turn};
ghost use Rattle.session_core.specs.Inner.Blocking.{AreBlockers};

use crate::blockers::AllBlockers;
use crate::live::Live;
use row_versions::Versions;
use session_machine::{Mode, Session};

fn is_ready(session: &Session) -> bool
    ensures { result ≡ is_ready session.now }
{
    session.place.is_some() && session.statement.is_none()
}

/// The least session that is in its block and doesn't wait.
fn ready_session(sessions: &[Session]) -> Option<usize>
    ensures first { result ≡ position_from is_ready 0 sessions.now }
    ensures within { IfSome result (λ k. k < length sessions.now) }
{
    for (k, session) in sessions.iter().enumerate() {
        if is_ready(session) {
            return Some(k);
        }
    }
    None
}

impl<'a, 't, V: Versions> Live<'a, 't, V> {
    /// Whose turn it is: the least session that can go on without waiting, else the one that has waited longest of
    /// those whose wait nothing blocks any more.
    pub fn turn(&self, blockers: &AllBlockers) -> Option<usize>
        requires blockers { AreBlockers self.now blockers.now }
        ensures turn { result ≡ turn_in self.now }
        ensures within { IfSome result (λ k. k < length self.now.sessions) }
    {
        match ready_session(&self.sessions) {
            Some(k) => Some(k),
            None => self.freed_session(blockers),
        }
    }

    /// In directed mode a block is launched, and a session leaves, only when nothing goes on by itself.
    pub fn must_wait_for_rest(&self, blockers: &AllBlockers, mode: Mode) -> bool
        requires blockers { AreBlockers self.now blockers.now }
        ensures { result ≡ (is_directed mode && not (is_quiet self.now)) }
    {
        match mode {
            Mode::Directed => self.turn(blockers).is_some(),
            Mode::Free => false,
        }
    }

    fn is_turn_of(&self, blockers: &AllBlockers, session: usize) -> bool
        requires blockers { AreBlockers self.now blockers.now }
        ensures { result ≡ is_turn (turn_in self.now) session }
    {
        match self.turn(blockers) {
            Some(k) => k == session,
            None => false,
        }
    }

    /// In directed mode a session steps only in its turn.
    pub fn must_wait_for_turn(&self, blockers: &AllBlockers, mode: Mode, session: usize) -> bool
        requires blockers { AreBlockers self.now blockers.now }
        ensures { result ≡ (is_directed mode && not (is_turn (turn_in self.now) session)) }
    {
        match mode {
            Mode::Directed => !self.is_turn_of(blockers, session),
            Mode::Free => false,
        }
    }
}
