//! What a run is given, by its type: each run picks it, and its threads hold on to it.
ghost use Rattle.std.specs.Prelude.{ℕ, List};
ghost use Rattle.session_machine.specs.Engine.{Engine as EngineOf};
ghost use Rattle.session_machine.specs.declared.reply.HistItem.{HistItem as Item};
ghost use Rattle.session_machine.specs.declared.event.Order.{Order as Given};

use std::marker::Brand;

/// The orders that each run of a crew is given, by its place: they are its driver's.
pub trait Orderings {
    ghost orders: { ℕ → List Item → Given };
}

impl Orderings for Brand {
    ghost use Rattle.session_machine.specs.declared.event.Order.TheVariants.{Stop};

    ghost orders = { λ place items. Stop };
}

/// The sessions' part of a free run: the engine at which their threads began, and the script of each.
pub trait Scripting {
    ghost start: { EngineOf };

    ghost scripts: { List (List ℕ) };
}

impl Scripting for Brand {
    ghost use Rattle.std.specs.Prelude.{[]};
    ghost use Rattle.session_machine.specs.declared.event.Mode.TheVariants.{Free};
    ghost use Rattle.session_machine.specs.Engine.{opened};

    ghost start = { opened [] 0 Free };

    ghost scripts = { [] };
}
