//! Going over the values in slots.
ghost use Rattle.std.specs.Prelude.{length};
ghost use Rattle.std.specs.Iterator.{at_most};
ghost use Rattle.std.specs.Map.Iter.{TakesFirst, deref};

use std::collections::vec_deque::Iter;
use std::marker::Model;

/// The values in these slots, in order.
#[derive(Drop)]
pub struct Values<'a, T> {
    pub slots: Iter<'a, Option<T>>,
}

impl<'a, T> Model for Values<'a, T> {
    ghost use Rattle.std.specs.Prelude.{List};
    ghost use Rattle.std.specs.VecDeque.Iter.{deque_iter_rest};
    ghost use Rattle.ordered_slots.specs.Kept.{filled, values};

    ghost Value = { List T };

    ghost view = { λ s. values (filled 0 (deque_iter_rest s.slots)) };
}

impl<'a, T> Iterator for Values<'a, T> {
    type Item = &'a T;

    ghost next_gives = { TakesFirst deref };

    ghost remaining = { λ s. at_most (length s) };

    fn next(&mut self) -> Option<&'a T> {
        while let Some(slot) = self.slots.next() {
            if let Some(value) = slot {
                return Some(value);
            }
        }
        None
    }
}
