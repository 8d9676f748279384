//! How far a session has come with its script.
ghost use Rattle.std.specs.Prelude.{◌≡◌, ◌↔◌, [], true, IfSome, IsTrue};
ghost use Rattle.session_machine.specs.Machine.{session_of};
ghost use Rattle.session_seats.specs.FreeRuns.{script_events};
ghost use Rattle.session_crews.specs.Inner.FreeRuns.{next_event, left_after};

use session_machine::Event;
use std::marker::Model;

/// A session, the blocks of its script that it was not given yet, whether it has left, and whether its last block is over.
#[derive(Drop)]
pub struct Progress<'p> {
    session: u32,
    rest: &'p [u32],
    left: bool,
    over: bool,
}

impl<'p> Model for Progress<'p> {
    ghost use Rattle.session_crews.specs.Inner.FreeRuns.{ProgressOf, events_left};

    ghost Value = { ProgressOf };

    ghost view = { λ p. record { session = p.session; over = p.over; events = events_left p.session p.left p.rest.now } };
}

impl<'p> Progress<'p> {
    /// A session that was given nothing of its script.
    pub fn new(session: u32, script: &'p [u32]) -> Self
        ensures { result ≡ record { session = session; over = true; events = script_events session script.now } }
    {
        Progress {
            session,
            rest: script,
            left: false,
            over: true,
        }
    }

    /// What the session does next.
    pub fn next(&self) -> Option<Event>
        ensures next { result ≡ next_event self.now.session self.now.over self.now.events }
        ensures own { IfSome result (λ event. session_of event ≡ self.now.session) }
    {
        let session = self.session;
        if !self.over {
            return Some(Event::Step { session });
        }
        if self.left {
            return None;
        }
        match self.rest {
            [block, ..] => Some(Event::Launch {
                session,
                block: *block,
            }),
            [] => Some(Event::Leave { session }),
        }
    }

    /// The session has done that, and its block is over or not.
    pub fn advance(&mut self, over: bool)
        ensures { self.new ≡ record { session = self.old.session; over = over; events = left_after self.old.over self.old.events } }
    {
        if self.over {
            match self.rest {
                [_, others @ ..] => self.rest = others,
                [] => self.left = true,
            }
        }
        self.over = over;
    }

    /// Whether the session has done all of its script.
    pub fn is_done(&self) -> bool
        ensures { IsTrue result ↔ ((self.now.over ≡ true) × (self.now.events ≡ [])) }
    {
        self.over && self.left
    }
}
