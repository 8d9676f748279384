//! The interleavings of sessions: all orders of their steps that keep each session's own steps in order.

ghost use Rattle.std.specs.Prelude.{◌≡◌, ℕ, ◌^◌, ◌<◌, ◌≤◌, [], ◌∷◌, length, sum, IfOk, OnErr, vec_capacity};
ghost use Rattle.std.specs.Bool.{OnTrue, OnFalse};
ghost use Rattle.permutation_lists.specs.Interleavings.{interleavings, of_length, WantsRoom};

use crate::steps::{advance, fill};
use std::alloc::{AllocError, Global};
use std::marker::Model;

/// The interleavings that are still to be given, in lexicographic order.
#[derive(Drop)]
pub struct Interleavings {
    // How many steps each number has: none the number 0, and from 1 on the sessions.
    counts: Vec<u32>,
    // How many of them are left after the next list, while it is worked on.
    left: Vec<u32>,
    next: Vec<u32>,
    // All lists were given.
    over: bool,
}

impl Model for Interleavings {
    ghost use Rattle.std.specs.Prelude.{List, ℕ};
    ghost use Rattle.permutation_lists.specs.Inner.ToCome.{to_come, IsReady};

    ghost Value = { List (List ℕ) };

    ghost view = { λ i. to_come i.over i.counts.items i.next.items };

    ghost invariant = { λ i. IsReady i.over i.counts.items i.left.items i.next.items };
}

impl Interleavings {
    /// All interleavings of sessions that have so many steps each; the first count is that of session 1.
    /// Without counts they are the one empty list. Fails only where memory is refused.
    pub fn new(alloc: Global, counts: &[u32]) -> Result<Self, AllocError>
        requires few { length counts.now < 2 ^ 32 }
        ensures { IfOk result (λ i. i ≡ interleavings counts.now) }
    {
        let steps: usize = counts.iter().map(|count| *count as usize).sum();
        let next = vec![in alloc; 0; steps]?;
        let mut numbered = Vec::with_capacity(alloc, counts.len() + 1)?;
        numbered.push(0)?;
        numbered.extend_from_slice(counts)?;
        let left = Vec::from_slice(alloc, numbered.as_slice())?;
        Ok(Interleavings::start(numbered, left, next))
    }

    /// The first list, of counts whose turns are all left, is the least.
    fn start(counts: Vec<u32>, mut left: Vec<u32>, mut next: Vec<u32>) -> Interleavings
        requires few { length counts.items ≤ 2 ^ 32 }
        requires left { left.items ≡ counts.items }
        requires long { length next.items ≡ sum counts.items }
        ensures { result ≡ of_length (sum counts.items) counts.items }
    {
        fill(
            counts.as_slice(),
            left.as_mut_slice(),
            next.as_mut_slice(),
            0,
        );
        Interleavings {
            counts,
            left,
            next,
            over: false,
        }
    }

    /// Leaves the next list in `out` and answers true, or answers false where all were given.
    /// Fails only where `out` has no room for the list and memory is refused; nothing has changed then.
    pub fn next(&mut self, out: &mut Vec<u32>) -> Result<bool, AllocError>
        ensures given { IfOk result (λ more. OnTrue more (self.old ≡ out.new.items ∷ self.new)) }
        ensures over { IfOk result (λ more. OnFalse more ((self.old ≡ []) × (self.new ≡ []) × (out.new.items ≡ out.old.items))) }
        ensures memory { OnErr result ((self.new ≡ self.old) × (out.new.items ≡ out.old.items)) }
        ensures room { OnErr result (WantsRoom self.old (vec_capacity out.old)) }
    {
        if self.over {
            return Ok(false);
        }
        out.try_reserve(self.next.len().saturating_sub(out.len()))?;
        out.clear();
        out.extend_from_slice(self.next.as_slice()).unwrap();
        let more = advance(
            self.counts.as_slice(),
            self.left.as_mut_slice(),
            self.next.as_mut_slice(),
        );
        self.over = !more;
        Ok(true)
    }
}
