//! Who stands in the way of the sessions that wait.
ghost use Rattle.std.specs.Prelude.{◌≡◌, ◌||◌, ◌&&◌, ◌+◌, ◌<◌, ◌≤◌, [], true, false, not, IfOk, OnErr, OnOk, length, replicate, slice_get, slice_set};
ghost use Rattle.iso_lexer.specs.declared.limits.TheConstants.{MOST_SESSIONS};
ghost use Rattle.std.specs.List.{position_from};
ghost use Rattle.row_versions.specs.declared.names.TxId.{TxId as TxFacts};
ghost use Rattle.row_versions.specs.Members.{has, is_none_of, same_tx};
ghost use Rattle.session_core.specs.Inner.Blocking.{IsChanged, blockers_kept};

use row_versions::TxId;
use smallvec::SmallVec;
use std::alloc::{AllocError, Global};
use std::marker::Model;

/// Those who stand in the way of a session that waits.
#[derive(Drop)]
pub struct Blockers {
    by: SmallVec<TxId, 4>,
}

impl Model for Blockers {
    ghost use Rattle.std.specs.Prelude.{List};
    ghost use Rattle.std.specs.List.{position_from};
    ghost use Rattle.row_versions.specs.declared.names.TxId.{TxId as TxFacts};

    ghost Value = { List TxFacts };

    ghost view = { λ b. b.by.items };
}

/// The place of the transaction among these.
fn place_of(found: &[TxId], tx: TxId) -> Option<usize>
    ensures { result ≡ position_from (λ other. same_tx other tx) 0 found.now }
{
    for (place, other) in found.iter().enumerate() {
        if other.0 == tx.0 {
            return Some(place);
        }
    }
    None
}

impl Blockers {
    /// These stand in the way.
    pub fn of(by: SmallVec<TxId, 4>) -> Blockers
        ensures { result ≡ by.items }
    {
        Blockers { by }
    }

    /// The transaction stands in the way too.
    pub fn add(&mut self, tx: TxId) -> Result<(), AllocError>
        ensures added { OnOk result ((u : TxFacts) → has self.new u ≡ (has self.old u || same_tx tx u)) }
        ensures once { has self.old tx ≡ true → OnOk result (self.new ≡ self.old) }
        ensures memory { OnErr result (has self.old tx ≡ false) }
    {
        match place_of(&self.by, tx) {
            Some(_) => Ok(()),
            None => {
                self.by.push(tx)?;
                Ok(())
            }
        }
    }

    /// The transaction doesn't stand in the way any more. It takes no memory.
    pub fn strike(&mut self, tx: TxId)
        ensures { (u : TxFacts) → has self.new u ≡ (has self.old u && not (same_tx tx u)) }
    {
        while let Some(place) = place_of(&self.by, tx) {
            self.by.remove(place);
        }
    }
}

/// Those who stand in the way of each session, by its number: nobody, where it doesn't wait.
#[derive(Drop)]
pub struct AllBlockers {
    lists: Vec<Blockers>,
}

impl Model for AllBlockers {
    ghost use Rattle.std.specs.Prelude.{List};
    ghost use Rattle.std.specs.List.{position_from};
    ghost use Rattle.row_versions.specs.declared.names.TxId.{TxId as TxFacts};

    ghost Value = { List (List TxFacts) };

    ghost view = { λ b. b.lists.items };
}

impl AllBlockers {
    /// Nobody stands in the way of so many sessions beside the control session.
    pub fn none(alloc: Global, count: u32) -> Result<AllBlockers, AllocError>
        requires few { count ≤ MOST_SESSIONS }
        ensures { IfOk result (λ b. b ≡ replicate (count + 1) []) }
    {
        let mut lists = Vec::new(alloc);
        for _ in 0..count + 1 {
            lists.push(Blockers::of(SmallVec::new(alloc)))?;
        }
        Ok(AllBlockers { lists })
    }

    /// Those who stand in the way of the session.
    pub fn at(&self, session: usize) -> &[TxId]
        ensures { result.now ≡ blockers_kept self.now session }
    {
        match self.lists.get(session) {
            Some(found) => &found.by,
            None => &[],
        }
    }

    /// Whether somebody stands in the way of the session.
    pub fn is_blocked(&self, session: usize) -> bool
        ensures { result ≡ not (is_none_of (blockers_kept self.now session)) }
    {
        !self.at(session).is_empty()
    }

    /// These stand in the way of the session from now on.
    pub fn set(&mut self, session: usize, found: Blockers)
        requires { session < length self.old }
        ensures { self.new ≡ slice_set self.old session found }
    {
        self.lists[session] = found;
    }

    /// The transaction stands in the way of the session too.
    pub fn add(&mut self, session: usize, tx: TxId) -> Result<(), AllocError>
        requires { session < length self.old }
        ensures { OnOk result (IsChanged self.old session (λ u. has (blockers_kept self.old session) u || same_tx tx u) self.new) }
    {
        self.lists[session].add(tx)
    }

    /// The transaction doesn't stand in the way of the session any more. It takes no memory.
    pub fn strike(&mut self, session: usize, tx: TxId)
        requires { session < length self.old }
        ensures { IsChanged self.old session (λ u. has (blockers_kept self.old session) u && not (same_tx tx u)) self.new }
    {
        self.lists[session].strike(tx);
    }
}
