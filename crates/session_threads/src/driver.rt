//! Who says what the sessions are given.
ghost use Rattle.std.specs.Prelude.{◌≡◌, ◌++◌, IfOk, OnOk, List};
ghost use Rattle.session_machine.specs.declared.reply.HistItem.{HistItem as Item};
ghost use Rattle.session_machine.specs.declared.event.Order.{Order as Given};

use crate::held::Held;
use row_versions::Versions;
use session_core::EngineState;
use session_crews::Drives;
use session_machine::Order;
use std::alloc::{AllocError, Global};
use std::marker::PhantomData;

/// Says what is to be done next whenever an engine is quiet, by what the engine has answered so far.
pub trait Driver<V: Versions> {
    // what it orders after a history
    ghost order_after: { Self → List Item → Given };

    // what it keeps fits a history: it is of a prefix of it
    ghost follows: { Self → List Item → Type 0 };

    /// The next order. It is asked for where the engine is quiet, of a history that goes on from the one before. What it
    /// orders after a history stays the same.
    fn next(&mut self, alloc: Global, engine: &EngineState<'_, '_, V>) -> Result<Order, AllocError>
        requires follows { follows self.old engine.now.history }
        ensures order { IfOk result (λ order. order ≡ order_after self.old engine.now.history) }
        ensures follows { OnOk result (follows self.new engine.now.history) }
        ensures same { order_after self.new ≡ order_after self.old };

    // and it fits each history that goes on from that one
    ghost goes_on: { (driver : Self) (items more : List Item) → follows driver items → follows driver (items ++ more) };
}

/// A driver that is lent.
impl<V: Versions, D: Driver<V>> Driver<V> for &mut D {
    ghost order_after = { λ d items. D.order_after d.now items };

    ghost follows = { λ d items. D.follows d.now items };

    fn next(
        &mut self,
        alloc: Global,
        engine: &EngineState<'_, '_, V>,
    ) -> Result<Order, AllocError> {
        (**self).next(alloc, engine)
    }

    ghost goes_on = { λ d items more. D.goes_on d.now items more };
}

/// A driver of engines over such a store, as one of any of these engines.
#[derive(Drop)]
pub struct ByDriver<V: Versions, D: Driver<V>> {
    driver: D,
    store: PhantomData<V>,
}

impl<V: Versions, D: Driver<V>> ByDriver<V, D> {
    pub fn new(driver: D) -> Self
        ensures { result.driver ≡ driver }
    {
        ByDriver {
            driver,
            store: PhantomData,
        }
    }
}

impl<'a, 't, V: Versions, D: Driver<V>> Drives<Held<'a, 't, V>> for ByDriver<V, D> {
    ghost order_after = { λ d items. D.order_after d.driver items };

    ghost follows = { λ d items. D.follows d.driver items };

    fn next(&mut self, alloc: Global, engine: &Held<'a, 't, V>) -> Result<Order, AllocError> {
        self.driver.next(alloc, &engine.state)
    }

    ghost goes_on = { λ d items more. D.goes_on d.driver items more };
}
