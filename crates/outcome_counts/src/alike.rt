//! Whether two outcomes are one.

ghost use Rattle.std.specs.Prelude.{◌≡◌, ◌↔◌, IsTrue};
ghost use Rattle.outcome_counts.specs.Outcomes.{Pairwise, SameAnswer, SameAnswers, SameOutcome, SameTable};

use crate::outcome::RunOutcome;
use crate::rows::same_rows;
use query_results::{ResultSet, Title};
use session_machine::Outcome;
use sql_values::Row;

fn same_titles(a: &[Title<'_>], b: &[Title<'_>]) -> bool
    ensures { IsTrue result ↔ (a.now ≡ b.now) }
{
    if a.len() != b.len() {
        return false;
    }
    for i in 0..a.len() {
        let x = &a[i];
        let y = &b[i];
        if !x.same(y) {
            return false;
        }
    }
    true
}

/// Whether both tables have the same titles, and the same rows in any order.
fn same_results(a: &ResultSet<'_>, b: &ResultSet<'_>) -> bool
    ensures { IsTrue result ↔ SameAnswer (Outcome.Rows a.now) (Outcome.Rows b.now) }
{
    let titles = a.titles();
    let others = b.titles();
    let rows = a.rows();
    let other_rows = b.rows();
    same_titles(titles, others) && same_rows(rows, other_rows)
}

/// Whether two statements answered the same.
fn same_answer(a: &Outcome<'_>, b: &Outcome<'_>) -> bool
    ensures { IsTrue result ↔ SameAnswer a.now b.now }
{
    match (a, b) {
        (Outcome::Rows(x), Outcome::Rows(y)) => same_results(x, y),
        _ => a.same(b),
    }
}

/// Whether two steps answered the same, statement by statement.
pub fn same_answers(a: &[Outcome<'_>], b: &[Outcome<'_>]) -> bool
    ensures { IsTrue result ↔ Pairwise SameAnswer a.now b.now }
{
    if a.len() != b.len() {
        return false;
    }
    for i in 0..a.len() {
        let x = &a[i];
        let y = &b[i];
        if !same_answer(x, y) {
            return false;
        }
    }
    true
}

/// Whether two steps answered the same, as lists of their own.
fn same_step(a: &Vec<Outcome<'_>>, b: &Vec<Outcome<'_>>) -> bool
    ensures { IsTrue result ↔ SameAnswers a.now b.now }
{
    let answers = a.as_slice();
    let others = b.as_slice();
    same_answers(answers, others)
}

/// Whether each step answered the same.
fn same_steps(a: &[Vec<Outcome<'_>>], b: &[Vec<Outcome<'_>>]) -> bool
    ensures { IsTrue result ↔ Pairwise SameAnswers a.now b.now }
{
    if a.len() != b.len() {
        return false;
    }
    for i in 0..a.len() {
        let x = &a[i];
        let y = &b[i];
        if !same_step(x, y) {
            return false;
        }
    }
    true
}

/// Whether both are the same rows, or both no table.
pub fn same_table(a: &Option<Vec<Row>>, b: &Option<Vec<Row>>) -> bool
    ensures { IsTrue result ↔ SameTable a.now b.now }
{
    match (a, b) {
        (Some(x), Some(y)) => same_rows(x.as_slice(), y.as_slice()),
        (None, None) => true,
        _ => false,
    }
}

/// Whether the same tables are there, each with the same rows.
pub fn same_tables(a: &[Option<Vec<Row>>], b: &[Option<Vec<Row>>]) -> bool
    ensures { IsTrue result ↔ Pairwise SameTable a.now b.now }
{
    if a.len() != b.len() {
        return false;
    }
    for i in 0..a.len() {
        let x = &a[i];
        let y = &b[i];
        if !same_table(x, y) {
            return false;
        }
    }
    true
}

impl<'t> RunOutcome<'t> {
    /// Whether both are one outcome.
    pub fn same(&self, other: &RunOutcome<'_>) -> bool
        ensures { IsTrue result ↔ SameOutcome self.now other.now }
    {
        same_steps(&self.answers, &other.answers) && same_tables(&self.tables, &other.tables)
    }
}
