//! How far the run has come, on a terminal.

use crate::watch::Watch;
use std::rt::Runtime;
use std::time::Instant;

/// So many permutations run between two looks at the clock.
const BETWEEN_LOOKS: u64 = 256;

/// Tells on the errors, where they are a terminal, how many permutations have run: after a second, and again after each further
/// one.
#[derive(Drop)]
pub struct Progress<'r, R> {
    rt: &'r R,
    /// When it was told last, or the run began; none where nobody reads it, or the clock can't be read.
    last: Option<Instant>,
    has_told: bool,
}

impl<'r, R: Runtime> Progress<'r, R> {
    pub fn new(rt: &'r R, is_read: bool) -> Progress<'r, R> {
        let last = if is_read { Instant::now(rt).ok() } else { None };
        Progress {
            rt,
            last,
            has_told: false,
        }
    }

    /// Takes the line away.
    pub fn end(&self) {
        if self.has_told {
            let _ = eprint!(self.rt; "\r\x1b[K");
        }
    }
}

impl<'r, R: Runtime> Watch for Progress<'r, R> {
    fn have_run(&mut self, permutations: u64) {
        if permutations % BETWEEN_LOOKS != 0 {
            return;
        }
        let (Some(last), Ok(now)) = (self.last, Instant::now(self.rt)) else {
            return;
        };
        if now.duration_since(last).as_secs() >= 1 {
            let _ = eprint!(self.rt; "\r{permutations} permutations");
            self.last = Some(now);
            self.has_told = true;
        }
    }
}
