//! Results of queries.

ghost use Rattle.std.specs.Prelude.{◌≡◌, ◌↔◌, ◌≤◌, length, take, All, IfOk, IsTrue};
ghost use Rattle.query_results.specs.Results.{IsEven};

use crate::title::Title;
use sql_values::Row;
use std::alloc::{AllocError, Global};
use std::marker::Model;

/// The titles of a query's columns, and its rows, each as long as the titles.
#[derive(Drop)]
pub struct ResultSet<'a> {
    titles: Vec<Title<'a>>,
    rows: Vec<Row>,
}

impl<'a> Model for ResultSet<'a> {
    ghost use Rattle.query_results.specs.Results.{Results, IsEven};

    ghost Value = { Results };

    ghost view = { λ s. record { titles = s.titles.items; rows = s.rows.items } };

    ghost invariant = { λ s. IsEven s.titles.items s.rows.items };
}

impl<'a> ResultSet<'a> {
    pub fn new(titles: Vec<Title<'a>>, rows: Vec<Row>) -> ResultSet<'a>
        requires { IsEven titles.items rows.items }
        ensures titles { result.titles ≡ titles.entry.items }
        ensures rows { result.rows ≡ rows.items }
    {
        ResultSet { titles, rows }
    }

    pub fn titles(&self) -> &[Title<'a>]
        ensures { result.now ≡ self.now.titles }
    {
        self.titles.as_slice()
    }

    pub fn rows(&self) -> &[Row]
        ensures rows { result.now ≡ self.now.rows }
        ensures even { IsEven self.now.titles result.now }
    {
        self.rows.as_slice()
    }

    /// The same result again.
    pub fn copied(&self, alloc: Global) -> Result<ResultSet<'a>, AllocError>
        ensures { IfOk result (λ copy. copy ≡ self.now) }
    {
        let titles = copied_titles(alloc, self.titles())?;
        let rows = copied_rows(alloc, self.rows())?;
        Ok(ResultSet::new(titles, rows))
    }

    pub fn same(&self, other: &ResultSet<'_>) -> bool
        ensures { IsTrue result ↔ (self.now ≡ other.now) }
    {
        same_titles(self.titles(), other.titles()) && same_rows(self.rows(), other.rows())
    }
}

fn copied_titles<'a>(alloc: Global, titles: &[Title<'a>]) -> Result<Vec<Title<'a>>, AllocError>
    ensures { IfOk result (λ copy. copy.items ≡ titles.now) }
{
    let mut copies = Vec::new(alloc);
    for title in titles {
        copies.push(title.again())?;
    }
    Ok(copies)
}

fn copied_rows(alloc: Global, rows: &[Row]) -> Result<Vec<Row>, AllocError>
    ensures { IfOk result (λ copy. copy.items ≡ rows.now) }
{
    let mut copies = Vec::new(alloc);
    for row in rows {
        copies.push(row.copied(alloc)?)?;
    }
    Ok(copies)
}

fn same_titles(a: &[Title<'_>], b: &[Title<'_>]) -> bool
    ensures { IsTrue result ↔ (a.now ≡ b.now) }
{
    if a.len() != b.len() {
        return false;
    }
    for i in 0..a.len() {
        let x = &a[i];
        let y = &b[i];
        if !x.same(y) {
            return false;
        }
    }
    true
}

fn same_rows(a: &[Row], b: &[Row]) -> bool
    ensures { IsTrue result ↔ (a.now ≡ b.now) }
{
    if a.len() != b.len() {
        return false;
    }
    for i in 0..a.len() {
        let x = &a[i];
        let y = &b[i];
        if !x.same(y) {
            return false;
        }
    }
    true
}
