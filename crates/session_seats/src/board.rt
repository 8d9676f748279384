//! Which session's thread is to look at which runs of a crew, and who is woken.
ghost use Rattle.std.specs.Prelude.{◌≡◌, ◌+◌, ◌-◌, ◌<◌, ◌≤◌, ◌==◌, ◌^◌, bit_and, bit_or, length, replicate, slice_get, vec_len, IfErr, IfOk, IfSome, IfNone};
ghost use Rattle.iso_lexer.specs.declared.limits.TheConstants.{MOST_SESSIONS};

use crate::fault::ThreadFault;
use std::alloc::Global;
use std::hint::spin_loop;
use std::sync::Wait;
use std::sync::atomic::{AtomicU64, AtomicUsize, Ordering};
use std::thread::Parker;

/// How many runs a crew has, at most: each has a bit of its own.
pub const MOST_RUNS: usize = 64;

/// How often a thread looks at its desk before it sleeps.
const FEW_LOOKS: usize = 20;

/// How often where it looks for a while, in a crew of one run: that takes some 30 to 300 microseconds, by how long the processor
/// rests at each look, and a thread is woken in less. In a crew of more runs a thread waits longer, for something to be done in
/// several of them.
const MANY_LOOKS: usize = 6000;

/// How often in a row a thread doesn't look for a while, at most.
const MOST_DOUBT: usize = 127;

/// The bit of the run at this place; none of one behind the 64th.
pub fn bit_of(place: usize) -> u64
    ensures bit { place < 64 → result ≡ 2 ^ place }
    ensures none { 64 ≤ place → result ≡ 0 }
{
    if place < MOST_RUNS { 1 << place } else { 0 }
}

/// The bits of so many runs, of 64 at most.
fn bits_of(runs: usize) -> u64
    ensures few { runs ≤ 64 → result ≡ 2 ^ runs - 1 }
    ensures many { 64 ≤ runs → result ≡ 2 ^ 64 - 1 }
{
    if runs < MOST_RUNS {
        (1 << runs) - 1
    } else {
        u64::MAX
    }
}

/// Whether a thread looks at its desk for a while before it sleeps. Where that is in vain it doesn't the next times: with fewer
/// processors than threads it would keep those from a processor that have something to do. The more often it is in vain, the
/// more times.
#[derive(Drop)]
struct Patience {
    looks: usize,
    doubt: AtomicUsize,
    without: AtomicUsize,
}

impl Patience {
    /// In a crew of so many runs.
    fn new(runs: usize) -> Patience {
        Patience {
            looks: if runs == 1 { MANY_LOOKS } else { FEW_LOOKS },
            doubt: AtomicUsize::new(0),
            without: AtomicUsize::new(0),
        }
    }

    /// How often the thread looks this time.
    fn looks(&self) -> usize {
        let without = self.without.load(Ordering::SeqCst);
        if without == 0 {
            return self.looks;
        }
        self.without.store(without - 1, Ordering::SeqCst);
        FEW_LOOKS
    }

    /// Something came within so many looks.
    fn gain(&self, looks: usize) {
        if looks > FEW_LOOKS {
            let doubt = self.doubt.load(Ordering::SeqCst);
            self.doubt.store(doubt / 2, Ordering::SeqCst);
        }
    }

    /// Nothing did.
    fn lose(&self, looks: usize) {
        if looks > FEW_LOOKS {
            let doubt = self.doubt.load(Ordering::SeqCst);
            let more = doubt.saturating_mul(2).saturating_add(1).min(MOST_DOUBT);
            self.doubt.store(more, Ordering::SeqCst);
            self.without.store(more, Ordering::SeqCst);
        }
    }
}

/// What a session's thread is to look at: a bit for each run, and where it sleeps while there is none.
#[derive(Drop)]
struct Desk {
    runs: AtomicU64,
    patience: Patience,
    sleeper: Parker,
}

impl Desk {
    /// Puts runs on it, and wakes its thread where it was empty.
    fn put(&self, runs: u64) {
        if self.runs.fetch_or(runs, Ordering::SeqCst) == 0 {
            self.sleeper.unpark();
        }
    }

    /// Takes what lies on it, be it nothing.
    fn take(&self) -> u64 {
        if self.runs.load(Ordering::SeqCst) == 0 {
            return 0;
        }
        self.runs.swap(0, Ordering::SeqCst)
    }
}

/// A desk for each session's thread, and which runs are over. No proof rests on it: it says alone who looks where, and what
/// is done is found behind the locks of the runs.
#[derive(Drop)]
pub struct Board {
    desks: Vec<Desk>,
    over: AtomicU64,
    all: u64,
}

impl Board {
    /// For the control session and so many sessions beside it, and for so many runs.
    pub fn new(alloc: Global, sessions: u32, runs: usize) -> Result<Board, ThreadFault>
        requires { sessions ≤ MOST_SESSIONS }
        ensures desks { IfOk result (λ board. vec_len board.desks ≡ sessions + 1) }
        ensures all { IfOk result (λ board. runs ≤ 64 → board.all ≡ 2 ^ runs - 1) }
        ensures err { IfErr result (λ fault. fault ≡ ThreadFault.Memory) }
    {
        let mut desks = Vec::new(alloc);
        for _ in 0..sessions + 1 {
            let desk = Desk {
                runs: AtomicU64::new(0),
                patience: Patience::new(runs),
                sleeper: Parker::new(),
            };
            if desks.push(desk).is_err() {
                return Err(ThreadFault::Memory);
            }
        }
        Ok(Board {
            desks,
            over: AtomicU64::new(0),
            all: bits_of(runs),
        })
    }

    /// How many desks there are.
    pub fn desks(&self) -> usize
        ensures { result ≡ vec_len self.now.desks }
    {
        self.desks.len()
    }

    /// Puts runs on a session's desk, and wakes its thread where the desk was empty.
    pub fn put(&self, session: u32, runs: u64) {
        if let Some(desk) = self.desks.get(session as usize) {
            desk.put(runs);
        }
    }

    /// Puts what is handed to each session on its desk, and takes it out of the hands: the first are the control session's.
    /// Nobody has to be woken for what is handed to the own session: that is answered.
    pub fn hand_on(&self, own: u32, hands: &mut [u64]) -> u64
        ensures kept { IfSome (slice_get hands.old own) (λ runs. result ≡ runs) }
        ensures none { IfNone (slice_get hands.old own) (result ≡ 0) }
        ensures emptied { hands.new ≡ replicate (length hands.old) 0 }
    {
        let mut kept = 0;
        if let Some(runs) = hands.get_mut(own as usize) {
            kept = *runs;
            *runs = 0;
        }
        for (desk, runs) in self.desks.iter().zip(hands.iter()) {
            if *runs != 0 {
                desk.put(*runs);
            }
        }
        hands.fill(0);
        kept
    }

    /// The run at this place is over; where all are, everyone is woken.
    pub fn end(&self, place: usize) {
        let before = self.over.fetch_or(bit_of(place), Ordering::SeqCst);
        if self.are_all_with(before, place) {
            for desk in &self.desks {
                desk.sleeper.unpark();
            }
        }
    }

    /// Whether these are all runs.
    fn are_all(&self, runs: u64) -> bool
        ensures { result ≡ (runs == self.now.all) }
    {
        runs == self.all
    }

    /// Whether these are all runs, with the one at this place.
    fn are_all_with(&self, runs: u64, place: usize) -> bool
        ensures { place < 64 → result ≡ (bit_or runs (2 ^ place) == self.now.all) }
    {
        self.are_all(runs | bit_of(place))
    }

    /// Whether all runs are over.
    fn is_over(&self) -> bool {
        self.are_all(self.over.load(Ordering::SeqCst))
    }

    /// Looks at a desk, as often as its thread has patience. Finds nothing where all runs are over.
    fn look_again(&self, desk: &Desk) -> Option<u64> {
        let looks = desk.patience.looks();
        for _ in 0..looks {
            spin_loop();
            let runs = desk.take();
            if runs != 0 {
                desk.patience.gain(looks);
                return Some(runs);
            }
            if self.is_over() {
                return Some(0);
            }
        }
        desk.patience.lose(looks);
        None
    }

    /// Takes what lies on the session's desk; looks a few times or for a while, and sleeps then, until there is something.
    /// Takes nothing where all runs are over.
    pub fn take<R: Wait>(&self, rt: &R, session: u32) -> u64 {
        let Some(desk) = self.desks.get(session as usize) else {
            return 0;
        };
        for _ in rt.forever() {
            let runs = desk.take();
            if runs != 0 {
                return runs;
            }
            if let Some(runs) = self.look_again(desk) {
                return runs;
            }
            desk.sleeper.park(rt);
        }
        unreachable!()
    }

    /// What the session looks at next: the runs that it kept, with what lies on its desk; where it kept none it waits for some.
    pub fn next<R: Wait>(&self, rt: &R, session: u32, kept: u64) -> u64
        ensures { bit_and result kept ≡ kept }
    {
        if kept == 0 {
            return self.take(rt, session);
        }
        match self.desks.get(session as usize) {
            Some(desk) => desk.take() | kept,
            None => kept,
        }
    }
}
