//! Who says what the sessions are given.
ghost use Rattle.std.specs.Prelude.{◌≡◌, ◌++◌, IfOk, OnOk, List};
ghost use Rattle.session_machine.specs.declared.reply.HistItem.{HistItem as Item};
ghost use Rattle.session_machine.specs.declared.event.Order.{Order as Given};

use session_machine::{Engine, Order};
use std::alloc::{AllocError, Global};

/// Says what is to be done next whenever an engine of this kind is quiet, by what it has answered so far.
pub trait Drives<E: Engine> {
    // what it orders after a history
    ghost order_after: { Self → List Item → Given };

    // what it keeps fits a history: it is of a prefix of it
    ghost follows: { Self → List Item → Type 0 };

    /// The next order. It is asked for where the engine is quiet, of a history that goes on from the one before. What it
    /// orders after a history stays the same.
    fn next(&mut self, alloc: Global, engine: &E) -> Result<Order, AllocError>
        requires follows { follows self.old (E.engine engine.now).history }
        ensures order { IfOk result (λ order. order ≡ order_after self.old (E.engine engine.now).history) }
        ensures follows { OnOk result (follows self.new (E.engine engine.now).history) }
        ensures same { order_after self.new ≡ order_after self.old };

    // and it fits each history that goes on from that one
    ghost goes_on: { (driver : Self) (items more : List Item) → follows driver items → follows driver (items ++ more) };
}
