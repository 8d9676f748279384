//! Rows as multisets.

ghost use Rattle.std.specs.Prelude.{◌≡◌, ◌↔◌, IsTrue};
ghost use Rattle.std.specs.List.{list_any};
ghost use Rattle.outcome_counts.specs.Rows.{SameRows, is_row, times};
ghost use Rattle.outcome_counts.specs.Inner.Answers.{differs};

use sql_values::Row;

/// Whether both are the same row.
fn is_row(row: &Row, other: &Row) -> bool
    ensures { result ≡ is_row row.now other.now }
{
    row.same(other)
}

/// How often the row stands among these.
fn times(row: &Row, rows: &[Row]) -> usize
    ensures { result ≡ times row.now rows.now }
{
    let mut times = 0usize;
    for other in rows {
        if is_row(row, other) {
            times += 1;
        }
    }
    times
}

/// Whether the row stands more often in the one than in the other.
#[tactic(auto, unfolding(crate::specs::Inner::Answers::differs))]
fn differs(row: &Row, a: &[Row], b: &[Row]) -> bool
    ensures { result ≡ differs a.now b.now row.now }
{
    times(row, a) != times(row, b)
}

/// Whether one of these rows stands more often in the one than in the other.
fn one_differs(rows: &[Row], a: &[Row], b: &[Row]) -> bool
    ensures { result ≡ list_any (differs a.now b.now) rows.now }
{
    for row in rows {
        if differs(row, a, b) {
            return true;
        }
    }
    false
}

/// Whether both are the same rows, in any order.
pub fn same_rows(a: &[Row], b: &[Row]) -> bool
    ensures { IsTrue result ↔ SameRows a.now b.now }
{
    if one_differs(a, a, b) {
        return false;
    }
    !one_differs(b, a, b)
}
