//! One target, settled by the locks that are held.

ghost use Rattle.std.specs.Prelude.{◌≡◌, IfOk, OnOk};
ghost use Rattle.update_recheck.specs.Asked.{Fits, asked};
ghost use Rattle.update_recheck.specs.Outcome.{is_target_locked, target_outcome};
ghost use Rattle.update_recheck.specs.Settling.{lock_of, locks_after, outcome_of};

use crate::database::Database;
use row_locks::Waits;
use row_versions::Versions;
use std::alloc::AllocError;
use update_recheck::{Ask, Settled, settle};

impl<'a, 't, V: Versions> Database<'a, 't, V> {
    /// Settles the target that is asked for.
    pub fn settle_ask(
        &mut self,
        waits: &Waits,
        ask: &Ask<'_, 't>,
    ) -> Result<Settled<'t>, AllocError>
        requires { Fits self.old.content (asked ask.now) }
        ensures outcome { IfOk result (λ s. outcome_of s ≡ target_outcome self.old.content self.old.held waits.now (asked ask.now)) }
        ensures locks { OnOk result (self.new ≡ record self.old {
          held = locks_after (is_target_locked self.old.content self.old.held waits.now (asked ask.now)) self.old.held (lock_of (asked ask.now));
        }) }
    {
        settle(self.alloc, &self.store, &mut self.locks, waits, ask)
    }
}
