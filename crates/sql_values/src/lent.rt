//! A value that is made, or lent by who has it.

ghost use Rattle.std.specs.Prelude.{◌≡◌, IfOk};
ghost use Rattle.sql_values.specs.Inner.Bound.{lent};

use crate::value::Value;
use std::alloc::{AllocError, Global};

/// A value that was made, or that a row or an expression has.
#[derive(Drop)]
pub enum Lent<'r> {
    Made(Value),
    Of(&'r Value),
}

impl Lent<'_> {
    pub fn value(&self) -> &Value
        ensures { result.now ≡ lent self.now }
    {
        match self {
            Lent::Made(value) => value,
            Lent::Of(value) => value,
        }
    }

    /// The value, which is copied where it is lent.
    pub fn owned(self, alloc: Global) -> Result<Value, AllocError>
        ensures { IfOk result (λ value. value ≡ lent self.entry) }
    {
        match self {
            Lent::Made(value) => Ok(value),
            Lent::Of(value) => value.copied(alloc),
        }
    }
}
