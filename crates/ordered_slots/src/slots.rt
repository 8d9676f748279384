//! Values in slots.
ghost use Rattle.std.specs.Prelude.{◌≡◌, [], ◌∷◌, ◌++◌, IfOk, OnOk, OnErr, option_copied};
ghost use Rattle.ordered_slots.specs.Kept.{has_no_slot_twice, kept, value_in, values, with_value, without_slot};

use crate::values::Values;
use std::alloc::{AllocError, Global};
use std::collections::VecDeque;

/// Values, each in a slot of its own, in the order in which they were added. A slot is a number, and no value that was
/// added later has a smaller one. An empty slot takes room only while values stand before it and behind it.
#[derive(Drop)]
pub struct OrderedSlots<T> {
    /// The number of the first of the slots.
    first: usize,
    /// Each slot from there on, with its value or empty.
    slots: VecDeque<Option<T>>,
}

impl<T> OrderedSlots<T> {
    /// No slot has a value. It takes no memory.
    pub fn new(alloc: Global) -> OrderedSlots<T>
        ensures { kept result ≡ [] }
    {
        OrderedSlots {
            first: 0,
            slots: VecDeque::new(alloc),
        }
    }

    /// Adds the value behind all others, in a slot that has none.
    pub fn add(&mut self, value: T) -> Result<usize, AllocError>
    where
        T: Drop,
        ensures ok { IfOk result (λ slot. kept self.new ≡ kept self.old ++ (slot, value) ∷ []) }
        ensures err { OnErr result (kept self.new ≡ kept self.old) }
        ensures apart { OnOk result (has_no_slot_twice (kept self.new)) }
    {
        let slot = self.first.checked_add(self.slots.len()).ok_or(AllocError)?;
        self.slots.push_back(Some(value))?;
        Ok(slot)
    }

    /// The value in the slot.
    pub fn get(&self, slot: usize) -> Option<&T>
        ensures { option_copied result ≡ value_in (kept self.now) slot }
    {
        let place = slot.checked_sub(self.first)?;
        self.slots.get(place)?.as_ref()
    }

    /// Puts another value into the slot, if it has one. It takes no memory.
    pub fn replace(&mut self, slot: usize, value: T)
    where
        T: Drop,
        ensures { kept self.new ≡ with_value slot value (kept self.old) }
    {
        if let Some(place) = slot.checked_sub(self.first) {
            if let Some(held) = self.slots.get_mut(place) {
                if held.is_some() {
                    *held = Some(value);
                }
            }
        }
    }

    /// The values, in the order in which they were added.
    pub fn values(&self) -> Values<'_, T>
        ensures { result ≡ values (kept self.now) }
    {
        Values {
            slots: self.slots.iter(),
        }
    }

    /// Takes the value out of the slot. It takes no memory.
    pub fn remove(&mut self, slot: usize) -> Option<T>
    where
        T: Drop,
        ensures value { result ≡ value_in (kept self.old) slot }
        ensures rest { kept self.new ≡ without_slot slot (kept self.old) }
        ensures apart { has_no_slot_twice (kept self.new) }
    {
        let place = slot.checked_sub(self.first)?;
        let value = self.slots.get_mut(place)?.take();
        self.trim();
        value
    }

    /// Lets go of the empty slots before the first value and behind the last.
    fn trim(&mut self)
    where
        T: Drop,
        ensures { kept self.new ≡ kept self.old }
    {
        while let Some(None) = self.slots.back() {
            self.slots.pop_back();
        }
        while let Some(None) = self.slots.front() {
            let Some(second) = self.first.checked_add(1) else {
                return;
            };
            self.slots.pop_front();
            self.first = second;
        }
    }
}
