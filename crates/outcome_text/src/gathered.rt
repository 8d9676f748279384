//! Values that are gathered, one behind the other.

use std::alloc::{AllocError, Global};

/// The values so far, and whether memory was refused for one: who prints them is told.
#[derive(Drop)]
pub struct Gathered<T> {
    so_far: Vec<T>,
    is_refused: bool,
}

impl<T: Drop> Gathered<T> {
    pub fn new(alloc: Global) -> Gathered<T> {
        Gathered {
            so_far: Vec::new(alloc),
            is_refused: false,
        }
    }

    /// Adds a value.
    pub fn add(&mut self, value: T) {
        if self.so_far.push(value).is_err() {
            self.is_refused = true;
        }
    }

    /// Adds a value for which memory may have been refused.
    pub fn add_made(&mut self, value: Result<T, AllocError>) {
        match value {
            Ok(value) => self.add(value),
            Err(_) => self.is_refused = true,
        }
    }

    /// The values that were added.
    pub fn all(&self) -> &[T] {
        self.so_far.as_slice()
    }

    /// Whether there are fewer than were to be added.
    pub fn is_refused(&self) -> bool {
        self.is_refused
    }
}
