//! Gates that look at what other threads do, and one that is shut.

use crate::signs::{session_of, sign_of};
use session_machine::{Event, Reply};
use session_threads::Gate;
use std::env::{Env, FillError};
use std::sync::atomic::{AtomicU64, Ordering};
use std::thread::yield_now;

/// So many looks that the others come, however loaded the machine is.
const MANY: u64 = 100_000_000;

/// Enough looks where few other programs run.
const FEW: u64 = 1_000_000;

/// How often a thread looks for the others before it gives up. bench/allocations.sh sets FEW_LOOKS: where it has an allocation
/// refused, the others may never come.
pub fn looks(rt: &impl Env) -> u64 {
    match rt.var("FEW_LOOKS", &mut [0; 8]) {
        Err(FillError::NotPresent) => MANY,
        _ => FEW,
    }
}

/// Looks so often until the number is there. Says whether it came.
pub fn comes(number: &AtomicU64, wanted: u64, looks: u64) -> bool {
    for _ in 0..looks {
        if number.load(Ordering::SeqCst) == wanted {
            return true;
        }
        yield_now();
    }
    false
}

/// Counts the steps that were answered, and those whose thread saw all the others answered while it was told.
#[derive(Drop)]
pub struct Meeting {
    pub all: u64,
    pub looks: u64,
    pub came: AtomicU64,
    pub met: AtomicU64,
}

impl Meeting {
    pub fn of(all: u64, looks: u64) -> Meeting {
        Meeting {
            all,
            looks,
            came: AtomicU64::new(0),
            met: AtomicU64::new(0),
        }
    }
}

impl Gate for Meeting {
    ghost lets = { λ gate event. Unit {0} };

    ghost refuses = { λ gate event. Unit {0} };

    ghost knows = { λ gate item. Unit {0} };

    fn tries(&self) -> u64 {
        1
    }

    fn admits(&self, _event: Event) -> bool {
        true
    }

    fn answered(&self, event: Event, _reply: &Reply<'_>) {
        if let Event::Step { .. } = event {
            self.came.fetch_add(1, Ordering::SeqCst);
            if comes(&self.came, self.all, self.looks) {
                self.met.fetch_add(1, Ordering::SeqCst);
            }
        }
    }
}

/// Admits everything, and puts what sessions 1 and 2 are told into a number for each.
#[derive(Drop)]
pub struct Telling {
    pub first: AtomicU64,
    pub second: AtomicU64,
}

impl Telling {
    pub fn new() -> Telling {
        Telling {
            first: AtomicU64::new(0),
            second: AtomicU64::new(0),
        }
    }
}

impl Gate for Telling {
    ghost lets = { λ gate event. Unit {0} };

    ghost refuses = { λ gate event. Unit {0} };

    ghost knows = { λ gate item. Unit {0} };

    fn tries(&self) -> u64 {
        1
    }

    fn admits(&self, _event: Event) -> bool {
        true
    }

    fn answered(&self, event: Event, reply: &Reply<'_>) {
        let told = match session_of(event) {
            1 => &self.first,
            2 => &self.second,
            _ => return,
        };
        let before = told.load(Ordering::SeqCst);
        yield_now();
        told.store(sign_of(before, event, reply), Ordering::SeqCst);
    }
}

/// Admits nothing, and counts how often it was asked.
#[derive(Drop)]
pub struct Shut {
    pub asked: AtomicU64,
}

impl Gate for Shut {
    ghost lets = { λ gate event. Unit {0} };

    ghost refuses = { λ gate event. Unit {0} };

    ghost knows = { λ gate item. Unit {0} };

    fn tries(&self) -> u64 {
        3
    }

    fn admits(&self, _event: Event) -> bool {
        self.asked.fetch_add(1, Ordering::SeqCst);
        yield_now();
        false
    }

    fn answered(&self, _event: Event, _reply: &Reply<'_>) {}
}

/// Says that it is open, and counts how often it is asked or told all the same; whoever asks it isn't admitted.
#[derive(Drop)]
pub struct Open {
    pub heard: AtomicU64,
}

impl Gate for Open {
    ghost lets = { λ gate event. Unit {0} };

    ghost refuses = { λ gate event. Unit {0} };

    ghost knows = { λ gate item. Unit {0} };

    fn is_open(&self) -> bool {
        true
    }

    fn admits(&self, _event: Event) -> bool {
        self.heard.fetch_add(1, Ordering::SeqCst);
        false
    }

    fn answered(&self, _event: Event, _reply: &Reply<'_>) {
        self.heard.fetch_add(1, Ordering::SeqCst);
    }
}
