//! The runs of a crew that wait for their turn, and what is kept of those that are over.
ghost use Rattle.std.specs.Prelude.{◌≡◌, ◌-◌, All, IfNone, IfOk, IfSome, length};
ghost use Rattle.session_crews.specs.Crews.{EachFrom};

use crate::keeper::Keeping;
use std::alloc::{AllocError, Global};
use std::collections::VecDeque;
use std::marker::{Model, PhantomData};

/// What is kept of the run at a place.
#[derive(Drop)]
pub struct Kept<T> {
    pub place: usize,
    pub item: T,
}

/// The runs that wait, in order, the place of the first of them, and what is kept of others, each at its place. Contracts see how
/// many wait.
#[derive(Drop)]
pub struct Queue<W, T, K: Keeping<W, T>> {
    waiting: VecDeque<W>,
    first: usize,
    kept: Vec<Option<Kept<T>>>,
    of: PhantomData<K>,
}

impl<W, T, K: Keeping<W, T>> Model for Queue<W, T, K> {
    ghost use Rattle.std.specs.Prelude.{ℕ, ◌+◌, ◌≤◌, All, IfSome, length};
    ghost use Rattle.session_crews.specs.Crews.{EachFrom};

    ghost Value = { ℕ };

    ghost view = { λ q. length q.waiting.items };

    ghost invariant = { λ q. (q.first + length q.waiting.items ≤ length q.kept.items) × EachFrom K.waits q.first q.waiting.items
        × All (λ slot. IfSome slot (λ kept. K.kept kept.place kept.item)) q.kept.items };
}

/// Puts what is kept at its place, where there is such a place.
fn put<W, T: Drop, K: Keeping<W, T>>(kept: &mut Vec<Option<Kept<T>>>, place: usize, item: T)
    requires item { K.kept place item }
    requires others { All (λ slot. IfSome slot (λ kept. K.kept kept.place kept.item)) kept.old.items }
    ensures same { length kept.new.items ≡ length kept.old.items }
    ensures kept { All (λ slot. IfSome slot (λ kept. K.kept kept.place kept.item)) kept.new.items }
{
    if let Some(slot) = kept.get_mut(place) {
        let _ = slot.replace(Kept { place, item });
    }
}

impl<W: Drop, T: Drop, K: Keeping<W, T>> Queue<W, T, K> {
    /// All of them wait.
    pub fn new(alloc: Global, runs: Vec<W>) -> Result<Self, AllocError>
        requires { EachFrom K.waits 0 runs.items }
        ensures { IfOk result (λ queue. queue ≡ length runs.items) }
    {
        let mut kept = Vec::with_capacity(alloc, runs.len())?;
        for _ in 0..runs.len() {
            kept.push(None)?;
        }
        Ok(Queue {
            waiting: runs.into(),
            first: 0,
            kept,
            of: PhantomData,
        })
    }

    /// How many wait.
    pub fn waiting(&self) -> usize
        ensures { result ≡ self.now }
    {
        self.waiting.len()
    }

    /// Takes the first run that waits, with its place.
    pub fn next(&mut self) -> Option<(usize, W)>
        ensures first { IfSome result (λ first. K.waits first.0 first.1) }
        ensures others { self.new ≡ self.old - 1 }
        ensures none { IfNone result (self.old ≡ 0) }
    {
        let waiting = self.waiting.pop_front()?;
        let place = self.first;
        self.first += 1;
        Some((place, waiting))
    }

    /// Keeps what there is of the run at a place.
    pub fn keep(&mut self, place: usize, item: T)
        requires { K.kept place item }
        ensures { self.new ≡ self.old }
    {
        put::<W, T, K>(&mut self.kept, place, item);
    }

    /// All that is kept, at most one at each place.
    pub fn into_kept(self) -> Vec<Option<Kept<T>>>
        ensures { All (λ slot. IfSome slot (λ kept. K.kept kept.place kept.item)) result.items }
    {
        self.kept
    }
}
