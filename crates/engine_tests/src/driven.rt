//! That a driver is asked, by itself and lent.
ghost use Rattle.std.specs.Prelude.{◌==◌, length, if◌then◌else◌};
ghost use Rattle.session_machine.specs.declared.event.Order.TheVariants.{Launch, Stop};

use crate::trial::{Engine, at_last, engine_of, holds};
use row_versions::Versions;
use session_core::EngineState;
use session_machine::{Mode, Order};
use session_threads::Driver;
use std::alloc::{AllocError, Global};
use std::process::Abort;

/// Gives session 1 the first block, and then stops.
#[derive(Drop)]
struct Once;

impl<V: Versions> Driver<V> for Once {
    ghost order_after = { λ _ items. if length items == 0 then Launch 1 0 else Stop };

    ghost follows = { λ _ items. Unit {0} };

    fn next(
        &mut self,
        _alloc: Global,
        engine: &EngineState<'_, '_, V>,
    ) -> Result<Order, AllocError> {
        if engine.history().is_empty() {
            Ok(Order::Launch {
                session: 1,
                block: 0,
            })
        } else {
            Ok(Order::Stop)
        }
    }

    ghost goes_on = { λ once items more is. is };
}

fn is_asked<V: Versions, D: Driver<V>>(
    alloc: Global,
    driver: &mut D,
    engine: &EngineState<'_, '_, V>,
) -> Result<bool, AllocError>
    requires { D.follows driver.old engine.now.history }
{
    let order = driver.next(alloc, engine)?;
    Ok(matches!(
        order,
        Order::Launch {
            session: 1,
            block: 0
        }
    ))
}

fn asks(rt: &impl Abort, alloc: Global, engine: &Engine<'_>) -> Result<(), AllocError> {
    let mut once = Once;
    holds(rt, is_asked(alloc, &mut once, engine)?, "itself");
    let mut lent = &mut once;
    holds(rt, is_asked(alloc, &mut lent, engine)?, "lent");
    Ok(())
}

fn asked_once(rt: &impl Abort, alloc: Global) -> Result<(), AllocError> {
    let engine = engine_of(alloc, &[], 1, Mode::Directed)?;
    asks(rt, alloc, &engine)
}

#[test]
fn a_driver_is_asked_and_lent(rt: HostRuntime) {
    at_last!(&rt, asked_once(&rt, rt.alloc()));
}
