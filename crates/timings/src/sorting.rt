//! Sorts rows by a key, and says how many.

ghost use Rattle.std.specs.Prelude.{◌≡◌, length, All, IfOk};

use anyhow::{Result, bail};
use sql_values::{Dir, Row, Value, order};
use std::alloc::{AllocError, Global};
use std::time::Instant;

/// Rows of one whole number each, in no order.
fn keys(alloc: Global, count: u32) -> Result<Vec<Row>, AllocError>
    ensures { IfOk result (λ rows. All (λ row. length row ≡ 1) rows.items) }
{
    let mut rows = Vec::new(alloc);
    let mut state: u32 = 1;
    for _ in 0..count {
        state = state.wrapping_mul(1_664_525).wrapping_add(1_013_904_223);
        rows.push(key(alloc, (state >> 2) as i32)?)?;
    }
    Ok(rows)
}

fn key(alloc: Global, number: i32) -> Result<Row, AllocError>
    ensures { IfOk result (λ row. length row ≡ 1) }
{
    let mut values = Vec::new(alloc);
    values.push(Value::Int(number))?;
    Ok(Row::from_vec(values))
}

pub fn run(rt: &HostRuntime, with_times: bool) -> Result<()> {
    let by = [Dir {
        desc: false,
        nulls_first: false,
    }];
    for count in [1_000, 10_000] {
        let rows = keys(rt.alloc(), count)?;
        let start = Instant::now(rt)?;
        let Ok(sorted) = order(rt.alloc(), &rows, &by) else {
            bail!("the rows could not be sorted");
        };
        let time = start.elapsed(rt)?;
        println!(rt; "{} rows in order", sorted.len())?;
        if with_times {
            let micros = time.as_micros();
            eprintln!(rt; "{count} rows: {micros} µs")?;
        }
    }
    Ok(())
}
