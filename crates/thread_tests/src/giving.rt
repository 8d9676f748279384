//! Drivers that give what a test says, and gates that count what they are asked and told.

use row_versions::ListStore;
use session_core::EngineState;
use session_machine::{Event, Order, Outcome, Reply};
use session_threads::{Driver, Gate};
use std::alloc::{AllocError, Global};
use std::sync::atomic::{AtomicU64, Ordering};
use std::thread::yield_now;

/// Orders one thing before any event, and another behind them.
#[derive(Drop)]
pub struct Twice {
    pub first: Order,
    pub then: Order,
}

impl Driver<ListStore> for Twice {
    ghost use Rattle.std.specs.Prelude.{nat_eq, length, if◌then◌else◌};

    ghost order_after = { λ d items. if nat_eq (length items) 0 then d.first else d.then };

    ghost follows = { λ d items. Unit {0} };

    fn next(
        &mut self,
        _alloc: Global,
        engine: &EngineState<'_, '_, ListStore>,
    ) -> Result<Order, AllocError> {
        Ok(if engine.history().len() == 0 {
            self.first
        } else {
            self.then
        })
    }

    ghost goes_on = { λ d items more fits. fits };
}

/// Orders one thing before any event, and another behind them, and counts how often it is asked.
#[derive(Drop)]
pub struct Asked<'c> {
    pub first: Order,
    pub then: Order,
    pub asks: &'c AtomicU64,
}

impl<'c> Driver<ListStore> for Asked<'c> {
    ghost use Rattle.std.specs.Prelude.{nat_eq, length, if◌then◌else◌};

    ghost order_after = { λ d items. if nat_eq (length items) 0 then d.first else d.then };

    ghost follows = { λ d items. Unit {0} };

    fn next(
        &mut self,
        _alloc: Global,
        engine: &EngineState<'_, '_, ListStore>,
    ) -> Result<Order, AllocError> {
        self.asks.fetch_add(1, Ordering::SeqCst);
        Ok(if engine.history().len() == 0 {
            self.first
        } else {
            self.then
        })
    }

    ghost goes_on = { λ d items more fits. fits };
}

/// Orders one thing before any event, and is refused memory behind them.
#[derive(Drop)]
pub struct Starved {
    pub first: Order,
}

impl Driver<ListStore> for Starved {
    ghost order_after = { λ d items. d.first };

    ghost follows = { λ d items. Unit {0} };

    fn next(
        &mut self,
        _alloc: Global,
        engine: &EngineState<'_, '_, ListStore>,
    ) -> Result<Order, AllocError> {
        if engine.history().len() == 0 {
            Ok(self.first)
        } else {
            Err(AllocError)
        }
    }

    ghost goes_on = { λ d items more fits. fits };
}

/// Admits everything, and counts the questions and the answers.
#[derive(Drop)]
pub struct Counting {
    asked: AtomicU64,
    told: AtomicU64,
}

impl Counting {
    pub fn new() -> Counting {
        Counting {
            asked: AtomicU64::new(0),
            told: AtomicU64::new(0),
        }
    }

    pub fn asked(&self) -> u64 {
        self.asked.load(Ordering::SeqCst)
    }

    pub fn told(&self) -> u64 {
        self.told.load(Ordering::SeqCst)
    }
}

impl Gate for Counting {
    ghost lets = { λ gate event. Unit {0} };

    ghost refuses = { λ gate event. Unit {0} };

    ghost knows = { λ gate item. Unit {0} };

    fn tries(&self) -> u64 {
        1
    }

    fn admits(&self, _event: Event) -> bool {
        self.asked.fetch_add(1, Ordering::SeqCst);
        true
    }

    fn answered(&self, _event: Event, _reply: &Reply<'_>) {
        self.told.fetch_add(1, Ordering::SeqCst);
    }
}

/// How often a thread lets others run, so that those that are to sleep do.
pub const YIELDS: u64 = 1_000;

/// Lets session 2 step behind two steps of session 1, and session 1 launch block 99 once session 2 waits and sleeps. Counts what
/// it admits and is told.
#[derive(Drop)]
pub struct Behind {
    looks: u64,
    stepped: AtomicU64,
    waits: AtomicU64,
    admitted: AtomicU64,
    told: AtomicU64,
}

impl Behind {
    pub fn new(looks: u64) -> Behind {
        Behind {
            looks,
            stepped: AtomicU64::new(0),
            waits: AtomicU64::new(0),
            admitted: AtomicU64::new(0),
            told: AtomicU64::new(0),
        }
    }

    pub fn admitted(&self) -> u64 {
        self.admitted.load(Ordering::SeqCst)
    }

    /// Whether it is time for the event.
    fn is_time(&self, event: Event) -> bool {
        match event {
            Event::Step { session: 2 } => self.stepped.load(Ordering::SeqCst) == 2,
            Event::Launch { block: 99, .. } => {
                self.waits.load(Ordering::SeqCst) > 0
                    && self.waits.fetch_add(1, Ordering::SeqCst) > YIELDS
            }
            _ => true,
        }
    }

    pub fn told(&self) -> u64 {
        self.told.load(Ordering::SeqCst)
    }
}

impl Gate for Behind {
    ghost lets = { λ gate event. Unit {0} };

    ghost refuses = { λ gate event. Unit {0} };

    ghost knows = { λ gate item. Unit {0} };

    fn tries(&self) -> u64 {
        self.looks
    }

    fn admits(&self, event: Event) -> bool {
        yield_now();
        let is_time = self.is_time(event);
        if is_time {
            self.admitted.fetch_add(1, Ordering::SeqCst);
        }
        is_time
    }

    fn answered(&self, event: Event, reply: &Reply<'_>) {
        self.told.fetch_add(1, Ordering::SeqCst);
        if let Event::Step { session: 1 } = event {
            self.stepped.fetch_add(1, Ordering::SeqCst);
        }
        if let Outcome::Waits = reply.outcome {
            self.waits.store(1, Ordering::SeqCst);
        }
    }
}
