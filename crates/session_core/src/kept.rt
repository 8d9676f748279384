//! The targets that sessions keep while they wait.
ghost use Rattle.std.specs.Prelude.{◌≡◌, ◌+◌, ◌<◌, ◌≤◌, None, IfOk, length, option_map, replicate, slice_get, slice_set};
ghost use Rattle.iso_lexer.specs.declared.limits.TheConstants.{MOST_SESSIONS};
ghost use Rattle.session_core.specs.Inner.Kept.{kept_at};

use row_versions::Seen;
use std::alloc::{AllocError, Global};
use std::marker::Model;

/// What each session has kept that is in the middle of a statement: all targets of that, by the session's number.
#[derive(Drop)]
pub struct Kept {
    lists: Vec<Option<Vec<Seen>>>,
}

impl Model for Kept {
    ghost use Rattle.std.specs.Prelude.{List, Option};
    ghost use Rattle.std.specs.Global.{Vec};
    ghost use Rattle.row_versions.specs.declared.write.Seen.{Seen as SeenFacts};

    ghost Value = { List (Option (Vec SeenFacts)) };

    ghost view = { λ k. k.lists.items };
}

impl Kept {
    /// So many sessions beside the control session have kept nothing.
    pub fn none(alloc: Global, count: u32) -> Result<Kept, AllocError>
        requires few { count ≤ MOST_SESSIONS }
        ensures { IfOk result (λ k. k ≡ replicate (count + 1) None) }
    {
        let mut lists = Vec::new(alloc);
        for _ in 0..count + 1 {
            lists.push(None)?;
        }
        Ok(Kept { lists })
    }

    /// Takes what the session has kept.
    pub fn take(&mut self, session: u32) -> Option<Vec<Seen>>
        requires { session < length self.old }
        ensures was { slice_get self.old session ≡ Some result }
        ensures taken { self.new ≡ slice_set self.old session None }
    {
        self.lists[session as usize].take()
    }

    /// What the session has kept, if anything.
    pub fn of(&self, session: u32) -> Option<&[Seen]>
        ensures { option_map (λ targets. targets.now) result ≡ kept_at self.now session }
    {
        match self.lists.get(session as usize) {
            Some(Some(targets)) => Some(targets),
            _ => None,
        }
    }

    /// The session keeps these targets.
    pub fn put(&mut self, session: u32, targets: Option<Vec<Seen>>)
        requires { session < length self.old }
        ensures { self.new ≡ slice_set self.old session targets }
    {
        self.lists[session as usize] = targets;
    }
}
