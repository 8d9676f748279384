//! The order of rows by their keys.
ghost use Rattle.std.specs.Prelude.{◌≡◌, All, length};
ghost use Rattle.std.specs.Bool.{OnTrue};

use crate::told::{at_last, holds, is_fault, rows_of};
use sql_values::{Dir, Row, Value, ValueFault, order};
use std::alloc::{AllocError, Global};

fn are_as_long(rows: &[Row], long: usize) -> bool
    ensures { OnTrue result (All (λ row. length row ≡ long) rows.now) }
{
    rows.iter().all(|row| row.values().len() == long)
}

pub(crate) fn is_order(
    alloc: Global,
    keys: &[Row],
    by: &[Dir],
    wanted: &[usize],
) -> Result<bool, AllocError> {
    if !are_as_long(keys, by.len()) {
        return Ok(false);
    }
    match order(alloc, keys, by) {
        Ok(places) => Ok(places.as_slice() == wanted),
        Err(ValueFault::Memory) => Err(AllocError),
        // No place says that the keys don't compare.
        Err(fault) => Ok(wanted.is_empty() && is_fault(&fault, "type mismatch")),
    }
}

pub(crate) const ASCENDING: Dir = Dir {
    desc: false,
    nulls_first: false,
};

const DESCENDING: Dir = Dir {
    desc: true,
    nulls_first: true,
};

const NULLS_FIRST: Dir = Dir {
    desc: false,
    nulls_first: true,
};

const NULLS_LAST: Dir = Dir {
    desc: true,
    nulls_first: false,
};

/// A direction, the rows' keys, and their places in order: none where they don't compare.
type Case = (Dir, &'static str, &'static [usize]);

const CASES: [Case; 15] = [
    (ASCENDING, "", &[]),
    (ASCENDING, "3 1 2", &[1, 2, 0]),
    (DESCENDING, "3 1 2", &[0, 2, 1]),
    (ASCENDING, "1 NULL 2", &[0, 2, 1]),
    (DESCENDING, "1 NULL 2", &[1, 2, 0]),
    (NULLS_FIRST, "NULL 1 NULL 2", &[0, 2, 1, 3]),
    (NULLS_LAST, "NULL 1 NULL 2", &[3, 1, 0, 2]),
    (ASCENDING, "2 1 2 1 2", &[1, 3, 0, 2, 4]),
    (DESCENDING, "2 1 2 1 2", &[0, 2, 4, 1, 3]),
    (ASCENDING, "'b' 'a' 'ab' 'B'", &[3, 1, 2, 0]),
    (ASCENDING, "TRUE FALSE NULL TRUE", &[1, 0, 3, 2]),
    (ASCENDING, "2147483648 1 -2147483649", &[2, 1, 0]),
    (ASCENDING, "NULL NULL", &[0, 1]),
    (ASCENDING, "1 NULL 'a'", &[]),
    (DESCENDING, "NULL TRUE 1", &[]),
];

fn is_so(alloc: Global, case: &Case) -> Result<bool, AllocError> {
    let (dir, words, wanted) = *case;
    let rows = rows_of(alloc, words)?;
    is_order(alloc, &rows, &[dir], wanted)
}

#[test]
fn order_of_rows(rt: HostRuntime) {
    for case in &CASES {
        holds(&rt, at_last!(is_so(rt.alloc(), case)), case.1);
    }
}

/// The first values rise, and the second ones fall.
fn by_two(alloc: Global) -> Result<bool, AllocError> {
    let mut keys = Vec::new(alloc);
    for (a, b) in [(1, 5), (0, 5), (1, 7), (0, 6), (1, 5)] {
        keys.push(Row::from_vec(vec![in alloc; Value::Int(a), Value::Int(b)]?))?;
    }
    is_order(alloc, &keys, &[ASCENDING, DESCENDING], &[3, 1, 2, 0, 4])
}

#[test]
fn order_by_two_keys(rt: HostRuntime) {
    holds(&rt, at_last!(by_two(rt.alloc())), "two keys");
}
