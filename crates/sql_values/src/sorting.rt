//! The order of rows.

ghost use Rattle.std.specs.Prelude.{◌≡◌, ◌≢◌, ◌↔◌, ◌+◌, IfOk, IfErr, All, length, map, true, false, is_some, unwrap_or, slice_get, slice_index_or};
ghost use Rattle.std.specs.List.{list_all, range_with_len};
ghost use Rattle.sql_values.specs.declared.value.Value.TheVariants.{Null};
ghost use Rattle.sql_values.specs.Sorting.{kind_rank, full_order, key_order, key, keys_at, row_order, IsSortedOrder, can_sort};
ghost use Rattle.sql_values.specs.Values.{compare};
ghost use Rattle.sql_values.specs.Inner.Extremes.{without_nulls};
ghost use Rattle.sql_values.specs.Inner.Sortable.{null_place, all_compare};

use crate::comparison::compare;
use crate::fault::ValueFault;
use crate::operation::is_null;
use crate::row::Row;
use crate::value::Value;
use sql_trees::Dir;
use std::alloc::{AllocError, Global};
use std::cmp::Ordering;

fn kind_rank(value: &Value) -> u8
    ensures { result ≡ kind_rank value.now }
{
    match value {
        Value::Null => 0,
        Value::Int(_) | Value::Big(_) => 1,
        Value::Text(_) => 2,
        Value::Bool(_) => 3,
    }
}

/// The order of two values, for all of them: values of kinds that don't compare stand by their kinds.
pub fn full_order(a: &Value, b: &Value) -> Ordering
    ensures { result ≡ full_order a.now b.now }
{
    match compare(a, b) {
        Some(order) => order,
        None => kind_rank(a).cmp(&kind_rank(b)),
    }
}

fn null_place(dir: Dir, value: &Value) -> u8
    ensures { result ≡ null_place dir value.now }
{
    match value {
        Value::Null if dir.nulls_first => 0,
        Value::Null => 2,
        _ => 1,
    }
}

/// How a key sorted in this direction orders two values.
#[tactic(auto, using(crate::proofs::Orders::nulls_placed))]
fn key_order(dir: Dir, a: &Value, b: &Value) -> Ordering
    ensures { result ≡ key_order dir a.now b.now }
{
    let nulls = null_place(dir, a).cmp(&null_place(dir, b));
    let values = if dir.desc {
        full_order(b, a)
    } else {
        full_order(a, b)
    };
    nulls.then(values)
}

/// The value of a key of a row, or else the other one.
fn key<'a>(k: usize, row: &'a [Value], otherwise: &'a Value) -> &'a Value
    ensures { result.now ≡ unwrap_or (slice_get row.now k) otherwise.now }
{
    match row.get(k) {
        Some(value) => value,
        None => otherwise,
    }
}

/// The first key that tells two rows apart orders them.
fn row_order(by: &[Dir], a: &[Value], b: &[Value]) -> Ordering
    ensures { result ≡ row_order 0 by.now a.now b.now }
{
    let null = Value::Null;
    for k in 0..by.len() {
        match key_order(by[k], key(k, a, &null), key(k, b, &null)) {
            Ordering::Equal => {}
            order => return order,
        }
    }
    Ordering::Equal
}

/// The keys of the row at that place.
fn keys_at(keys: &[Row], place: usize) -> &[Value]
    ensures { result.now ≡ keys_at keys.now place }
{
    match keys.get(place) {
        Some(row) => row.values(),
        None => &[],
    }
}

/// Whether the values of a key, NULLs aside, compare with this one.
fn all_compare_with(value: &Value, k: usize, keys: &[Row]) -> bool
    ensures { result ≡ list_all (λ w. is_some (compare value.now w)) (without_nulls (map (key k) keys.now)) }
{
    let null = Value::Null;
    for row in keys {
        let other = key(k, row.values(), &null);
        if !is_null(other) && compare(value, other).is_none() {
            return false;
        }
    }
    true
}

/// Whether the values of a key, NULLs aside, compare with the first of them.
fn all_compare(k: usize, keys: &[Row]) -> bool
    ensures { result ≡ all_compare (without_nulls (map (key k) keys.now)) }
{
    let null = Value::Null;
    for i in 0..keys.len() {
        let value = key(k, keys[i].values(), &null);
        if !is_null(value) {
            return all_compare_with(value, k, &keys[i + 1..]);
        }
    }
    true
}

/// Whether the rows can be sorted by these keys.
fn can_sort(by: &[Dir], keys: &[Row]) -> bool
    ensures { result ≡ can_sort by.now keys.now }
{
    for k in 0..by.len() {
        if !all_compare(k, keys) {
            return false;
        }
    }
    true
}

/// How the rows at two places stand by their keys.
fn place_order(by: &[Dir], keys: &[Row], p: usize, q: usize) -> Ordering
    ensures { result ≡ row_order 0 by.now (keys_at keys.now p) (keys_at keys.now q) }
{
    row_order(by, keys_at(keys, p), keys_at(keys, q))
}

/// The places below a number, in order.
#[tactic(auto, using(crate::proofs::Orders::range_more))]
fn places_below(alloc: Global, number: usize) -> Result<Vec<usize>, AllocError>
    ensures { IfOk result (λ places. places.items ≡ range_with_len 0 number) }
{
    let mut places = Vec::with_capacity(alloc, number)?;
    for place in 0..number {
        places.push(place)?;
    }
    Ok(places)
}

/// The places of the rows in sorted order.
fn sorted(alloc: Global, keys: &[Row], by: &[Dir]) -> Result<Vec<usize>, AllocError>
    ensures { IfOk result (λ places. IsSortedOrder by.now keys.now places.items) }
{
    let mut places = places_below(alloc, keys.len())?;
    places.sort_by(|p, q| place_order(by, keys, *p, *q))?;
    Ok(places)
}

/// The places of the rows, sorted by their keys: rows with equal keys stay in their order. It takes n log n comparisons.
/// A key of which some value can't be compared with the first one that isn't NULL is a type mismatch.
pub fn order<'a>(alloc: Global, keys: &[Row], by: &[Dir]) -> Result<Vec<usize>, ValueFault<'a>>
    requires { All (λ row. length row ≡ length by.now) keys.now }
    ensures sorted { IfOk result (λ places. IsSortedOrder by.now keys.now places.items) }
    // A mismatch is told exactly where the keys don't compare, also where memory is short.
    ensures mismatch { (result ≡ Err ValueFault.TypeMismatch) ↔ (can_sort by.now keys.now ≡ false) }
    ensures nothing_else { IfErr result (λ fault. fault ≢ ValueFault.TypeMismatch → fault ≡ ValueFault.Memory) }
{
    if !can_sort(by, keys) {
        return Err(ValueFault::TypeMismatch);
    }
    Ok(sorted(alloc, keys, by)?)
}
