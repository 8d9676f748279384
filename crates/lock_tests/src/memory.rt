//! Each place where settling may want memory. Run with `rt try --test --fail-alloc 1..`.

use crate::asking::holds;
use crate::cells::{Target, came};
use crate::stores::Change;
use row_locks::Strength;
use sql_trees::{Level, Policy};
use std::test::Fail;

/// The table of locks grows; WHERE makes a text; the search for a cycle makes its lists.
#[test]
fn refused_memory_leaves_the_locks(rt: HostRuntime) -> Result<(), Fail> {
    let cases = [
        (Change::Unchanged, None, 0, b'T'),
        (Change::Newer, None, 4, b'N'),
        (Change::Unchanged, Some(Strength::Update), 0, b'D'),
    ];
    for (change, held, which, want) in cases {
        let target = Target {
            level: Level::ReadCommitted,
            change,
            strength: Strength::Update,
            policy: Policy::Wait,
        };
        let found = came(&rt, rt.alloc(), target, held, true, which)?;
        holds(&rt, found == want, "a cell");
    }
    Ok(())
}
