//! Sessions that wait, and those whose wait nothing blocks any more.
ghost use Rattle.std.specs.Prelude.{◌≡◌, ◌<◌, Some, IfSome, option_map, length, slice_get};
ghost use Rattle.session_machine.specs.Machine.{free_wait};
ghost use Rattle.session_machine.specs.Waits.{is_still_blocked};
ghost use Rattle.session_core.specs.Inner.Blocking.{AreBlockers};
ghost use Rattle.session_core.specs.Inner.Freed.{FreeWait, earliest_free, sooner};

use crate::blockers::AllBlockers;
use crate::live::Live;
use row_versions::Versions;
use session_machine::Session;
use std::marker::Model;

/// A wait that nothing blocks any more: its number, and its session.
#[derive(Drop)]
struct Free {
    number: u64,
    session: usize,
}

impl Model for Free {
    ghost use Rattle.session_core.specs.Inner.Freed.{FreeWait};

    ghost Value = { FreeWait };

    ghost view = { λ f. record { number = f.number; session = f.session } };
}

/// The sooner of a session's wait and another.
fn sooner(number: Option<u64>, session: usize, other: Option<Free>) -> Option<Free>
    ensures { result ≡ sooner number session other }
{
    match (number, other) {
        (None, other) => other,
        (Some(number), Some(other)) if other.number < number => Some(other),
        (Some(number), _) => Some(Free { number, session }),
    }
}

impl<'a, 't, V: Versions> Live<'a, 't, V> {
    /// Whether the session waits, and what it asked for is still held against it: somebody is kept who stands in its way.
    pub fn is_still_blocked(&self, blockers: &AllBlockers, session: usize) -> bool
        requires blockers { AreBlockers self.now blockers.now }
        ensures { IfSome (slice_get self.now.sessions session) (λ s. result ≡ is_still_blocked self.now.db s) }
    {
        blockers.is_blocked(session)
    }

    /// The number of the session's wait, if it waits and nothing blocks it any more.
    fn free_wait(&self, blockers: &AllBlockers, session: usize, current: &Session) -> Option<u64>
        requires blockers { AreBlockers self.now blockers.now }
        requires its { slice_get self.now.sessions session ≡ Some current.now }
        ensures { result ≡ free_wait self.now.db current.now }
    {
        if self.is_still_blocked(blockers, session) {
            return None;
        }
        match &current.statement {
            Some(paused) => Some(paused.progress().wait.number),
            None => None,
        }
    }

    /// The session that has waited longest of those whose wait nothing blocks any more.
    pub fn freed_session(&self, blockers: &AllBlockers) -> Option<usize>
        requires blockers { AreBlockers self.now blockers.now }
        ensures earliest { result ≡ option_map (λ (w : FreeWait). w.session) (earliest_free self.now.db 0 self.now.sessions) }
        ensures within { IfSome result (λ k. k < length self.now.sessions) }
    {
        let mut first: Option<Free> = None;
        for k in (0..self.sessions.len()).rev() {
            first = sooner(self.free_wait(blockers, k, &self.sessions[k]), k, first);
        }
        match first {
            Some(free) => Some(free.session),
            None => None,
        }
    }
}
