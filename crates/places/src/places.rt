//! A map from numbers to lists of places.
ghost use Rattle.std.specs.Prelude.{◌≡◌, ℕ, List, [], ◌∷◌, ◌++◌, OnOk, OnErr, false, ◌==◌};
ghost use Rattle.places.specs.Noted.{noted, without_last};

use crate::last::remove_last;
use smallvec::SmallVec;
use std::alloc::{AllocError, Global};
use std::collections::HashMap;

/// For each number the places that are noted for it, in the order in which they were added; for most numbers at first none.
#[derive(Drop)]
pub struct Places {
    alloc: Global,
    map: HashMap<u64, SmallVec<usize, 2>>,
}

impl Places {
    /// No place is noted for any number. It takes no memory.
    pub fn new(alloc: Global) -> Places
        ensures { (number : ℕ) → noted result number ≡ [] }
    {
        Places {
            alloc,
            map: HashMap::new(alloc),
        }
    }

    /// The places that are noted for the number, those first that were added first. It takes no memory.
    pub fn at(&self, number: u64) -> &[usize]
        ensures { result.now ≡ noted self.now number }
    {
        match self.map.get(&number) {
            Some(places) => places.as_slice(),
            None => &[],
        }
    }

    /// Notes the place for the number, behind those that are noted already.
    pub fn add(&mut self, number: u64, place: usize) -> Result<(), AllocError>
        ensures ok { OnOk result (noted self.new number ≡ noted self.old number ++ place ∷ []) }
        ensures others { (other : ℕ) → (other == number) ≡ false → noted self.new other ≡ noted self.old other }
        ensures err { OnErr result ((other : ℕ) → noted self.new other ≡ noted self.old other) }
    {
        let empty = SmallVec::new(self.alloc);
        let places = self.map.entry(number)?.or_insert(empty);
        places.push(place)?;
        Ok(())
    }

    /// Strikes the place that was added last of those equal to this one. It takes no memory, and looks from the end: to strike what was added last costs nothing more.
    pub fn remove(&mut self, number: u64, place: usize)
        ensures struck { noted self.new number ≡ without_last place (noted self.old number) }
        ensures others { (other : ℕ) → (other == number) ≡ false → noted self.new other ≡ noted self.old other }
    {
        if let Some(places) = self.map.get_mut(&number) {
            remove_last(places, place);
        }
    }
}
