//! Gates that look at what the threads of other sessions do.

use crate::gates::comes;
use session_machine::{Event, Reply};
use session_threads::Gate;
use std::sync::atomic::{AtomicU64, Ordering};
use std::thread::yield_now;

/// Lets session 2 launch behind session 1, and session 1 step behind session 2.
#[derive(Drop)]
pub struct Crossed {
    looks: u64,
    launched: AtomicU64,
    stepped: AtomicU64,
}

impl Crossed {
    pub fn new(looks: u64) -> Crossed {
        Crossed {
            looks,
            launched: AtomicU64::new(0),
            stepped: AtomicU64::new(0),
        }
    }
}

impl Gate for Crossed {
    ghost lets = { λ gate event. Unit {0} };

    ghost refuses = { λ gate event. Unit {0} };

    ghost knows = { λ gate item. Unit {0} };

    fn tries(&self) -> u64 {
        self.looks
    }

    fn admits(&self, event: Event) -> bool {
        yield_now();
        match event {
            Event::Launch { session: 2, .. } => self.launched.load(Ordering::SeqCst) == 1,
            Event::Step { session: 1 } => self.stepped.load(Ordering::SeqCst) == 1,
            _ => true,
        }
    }

    fn answered(&self, event: Event, _reply: &Reply<'_>) {
        match event {
            Event::Launch { session: 1, .. } => self.launched.store(1, Ordering::SeqCst),
            Event::Step { session: 2 } => self.stepped.store(1, Ordering::SeqCst),
            _ => {}
        }
    }
}

/// Admits a step of session 1 or 2 once the other one asks for a step too.
#[derive(Drop)]
pub struct Handshake {
    looks: u64,
    first: AtomicU64,
    second: AtomicU64,
}

impl Handshake {
    pub fn new(looks: u64) -> Handshake {
        Handshake {
            looks,
            first: AtomicU64::new(0),
            second: AtomicU64::new(0),
        }
    }

    /// Says that one has come, and looks for the other.
    fn meets(&self, own: &AtomicU64, other: &AtomicU64) -> bool {
        own.store(1, Ordering::SeqCst);
        comes(other, 1, self.looks)
    }
}

impl Gate for Handshake {
    ghost lets = { λ gate event. Unit {0} };

    ghost refuses = { λ gate event. Unit {0} };

    ghost knows = { λ gate item. Unit {0} };

    fn tries(&self) -> u64 {
        1
    }

    fn admits(&self, event: Event) -> bool {
        match event {
            Event::Step { session: 1 } => self.meets(&self.first, &self.second),
            Event::Step { session: 2 } => self.meets(&self.second, &self.first),
            _ => true,
        }
    }

    fn answered(&self, _event: Event, _reply: &Reply<'_>) {}
}

/// Admits a session's step once that of the next session was answered, up to the last session.
#[derive(Drop)]
pub struct Reversed {
    looks: u64,
    /// The session whose step is admitted.
    turn: AtomicU64,
}

impl Reversed {
    pub fn from_last(session: u32, looks: u64) -> Reversed {
        Reversed {
            looks,
            turn: AtomicU64::new(session as u64),
        }
    }
}

impl Gate for Reversed {
    ghost lets = { λ gate event. Unit {0} };

    ghost refuses = { λ gate event. Unit {0} };

    ghost knows = { λ gate item. Unit {0} };

    fn tries(&self) -> u64 {
        self.looks
    }

    fn admits(&self, event: Event) -> bool {
        yield_now();
        match event {
            Event::Step { session } => self.turn.load(Ordering::SeqCst) == session as u64,
            _ => true,
        }
    }

    fn answered(&self, event: Event, _reply: &Reply<'_>) {
        if let Event::Step { session } = event {
            self.turn
                .store((session as u64).saturating_sub(1), Ordering::SeqCst);
        }
    }
}
