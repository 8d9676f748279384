//! A statement that waits, kept apart from its session.

ghost use Rattle.std.specs.Prelude.{◌≡◌, IfOk};

use crate::session::Progress;
use std::alloc::{AllocError, Global};
use std::marker::Model;

/// A statement in the middle of its targets, in a box: few sessions wait, and one that doesn't stays small. Contracts see it as what it contains.
#[derive(Drop)]
pub struct Paused {
    progress: Box<Progress>,
}

impl Model for Paused {
    ghost use Rattle.session_machine.specs.declared.session.Progress.{Progress as ProgressFacts};

    ghost Value = { ProgressFacts };

    ghost view = { λ p. p.progress.value };
}

impl Paused {
    /// Puts the statement into a box. Fails only where memory is refused.
    pub fn new(alloc: Global, progress: Progress) -> Result<Paused, AllocError>
        ensures { IfOk result (λ paused. paused ≡ progress) }
    {
        Ok(Paused {
            progress: Box::new(alloc, progress)?,
        })
    }

    /// The statement that waits.
    pub fn progress(&self) -> &Progress
        ensures { result.now ≡ self.now }
    {
        &self.progress
    }

    /// Takes the statement out, to go on with it.
    pub fn into_progress(self) -> Progress
        ensures { result ≡ self }
    {
        Box::into_inner(self.progress)
    }
}
