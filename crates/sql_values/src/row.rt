//! A row of values, which contracts see as the list of them.
ghost use Rattle.std.specs.Prelude.{◌≡◌, ℕ, List, IfOk, IsTrue, ◌↔◌, take};
ghost use Rattle.sql_values.specs.declared.value.Value.{Value as SqlValue};

use crate::value::Value;
use std::alloc::{AllocError, Global};
use std::marker::Model;

/// The values of a row.
pub struct Row {
    values: Vec<Value>,
}

/// Written out, so that a crate that drops one calls this, and needn't prove anew how its values are dropped.
impl Drop for Row {
    fn drop(self) {
        let Row { values: _ } = self;
    }
}

impl Model for Row {
    ghost Value = { List SqlValue };

    ghost view = { λ r. r.values.items };
}

impl Row {
    pub fn from_vec(values: Vec<Value>) -> Row
        ensures { result ≡ values.items }
    {
        Row { values }
    }

    pub fn values(&self) -> &[Value]
        ensures { result.now ≡ self.now }
    {
        self.values.as_slice()
    }

    /// The same row again.
    pub fn copied(&self, alloc: Global) -> Result<Row, AllocError>
        ensures { IfOk result (λ copy. copy ≡ self.now) }
    {
        let mut values = Vec::with_capacity(alloc, self.values.len())?;
        for value in &self.values {
            values.push(value.copied(alloc)?)?;
        }
        Ok(Row { values })
    }

    pub fn same(&self, other: &Row) -> bool
        ensures { IsTrue result ↔ (self.now ≡ other.now) }
    {
        same_values(self.values.as_slice(), other.values.as_slice())
    }
}

fn same_values(a: &[Value], b: &[Value]) -> bool
    ensures { IsTrue result ↔ (a.now ≡ b.now) }
{
    if a.len() != b.len() {
        return false;
    }
    for i in 0..a.len() {
        if !a[i].same(&b[i]) {
            return false;
        }
    }
    true
}

/// The same row again.
pub fn copy_row(alloc: Global, row: &Row) -> Result<Row, AllocError>
    ensures { IfOk result (λ copy. copy ≡ row.now) }
{
    row.copied(alloc)
}
