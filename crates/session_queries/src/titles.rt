//! The titles of a query's result.

ghost use Rattle.std.specs.Prelude.{◌≡◌, ◌++◌, IfOk, OnOk, length, map, option_map};
ghost use Rattle.sql_trees.specs.Trees.{agg_of, tree_of};
ghost use Rattle.sql_trees.specs.Statements.{All, column_of, item_of, name_of};
ghost use Rattle.query_results.specs.Queries.{item_titles, titles_of};
ghost use Rattle.query_results.specs.Inner.Pieces.{own_title};
ghost use Rattle.session_queries.specs.Inner.Parts.{agg_title, kind_title, title_of, title_or};
ghost use Rattle.session_queries.specs.Inner.Answers.{counted};

use iso_lexer::{Ident, Name};
use query_results::Title;
use sql_trees::{Agg, AggKind, Column, Expr, Item};
use std::alloc::{AllocError, Global};

/// An item without an alias has the name of the column that it is.
fn title_of<'a>(expr: &Expr<'a>) -> Title<'a>
    ensures { result ≡ title_of (tree_of expr.now) }
{
    match expr {
        Expr::Column(name) => Title::Column(Ident::new(*name)),
        _ => Title::Unnamed,
    }
}

fn title_or<'a>(expr: &Expr<'a>, alias: Option<Name<'a>>) -> Title<'a>
    ensures { result ≡ title_or (tree_of expr.now) (option_map name_of alias.entry) }
{
    match alias {
        Some(name) => Title::Column(Ident::new(name)),
        None => title_of(expr),
    }
}

/// Appends the titles of the columns.
fn append_columns<'a>(titles: &mut Vec<Title<'a>>, columns: &[Column<'a>]) -> Result<(), AllocError>
    ensures { OnOk result (titles.new.items ≡ titles.old.items ++ item_titles (map column_of columns.now) All) }
{
    for column in columns {
        titles.push(Title::Column(Ident::new(column.name)))?;
    }
    Ok(())
}

/// Appends the titles of what the item shows.
#[tactic(auto, using(crate::proofs::Parts::titled))]
fn append_item<'a>(
    titles: &mut Vec<Title<'a>>,
    columns: &[Column<'a>],
    item: &Item<'a>,
) -> Result<(), AllocError>
    ensures { OnOk result (titles.new.items ≡ titles.old.items ++ item_titles (map column_of columns.now) (item_of item.now)) }
{
    match item {
        Item::All => append_columns(titles, columns),
        Item::Expr(expr, alias) => Ok(titles.push(title_or(expr, *alias))?),
        Item::Agg(_, _) => Ok(()),
    }
}

/// The titles of what the items show of a table with these columns.
pub fn titles_of<'a>(
    alloc: Global,
    columns: &[Column<'a>],
    items: &[Item<'a>],
) -> Result<Vec<Title<'a>>, AllocError>
    ensures { IfOk result (λ titles. titles.items ≡ titles_of (map column_of columns.now) (map item_of items.now)) }
{
    let mut titles = Vec::new(alloc);
    for item in items {
        append_item(&mut titles, columns, item)?;
    }
    Ok(titles)
}

fn kind_title<'a>(kind: AggKind) -> Title<'a>
    ensures { result ≡ kind_title kind }
{
    match kind {
        AggKind::Count => Title::Count,
        AggKind::Sum => Title::Sum,
        AggKind::Min => Title::Min,
        AggKind::Max => Title::Max,
    }
}

#[tactic(auto, using(crate::proofs::Parts::titled_by_kind))]
fn own_title<'a>(agg: &Agg<'_>) -> Title<'a>
    ensures { result ≡ own_title (agg_of agg.now) }
{
    match agg {
        Agg::CountRows => Title::Count,
        Agg::Of(kind, _) => kind_title(*kind),
    }
}

/// An aggregate without an alias has its own title.
fn agg_title<'a>(agg: &Agg<'a>, alias: Option<Name<'a>>) -> Title<'a>
    ensures { result ≡ agg_title (agg_of agg.now, option_map name_of alias.entry) }
{
    match alias {
        Some(given) => Title::Column(Ident::new(given)),
        None => own_title(agg),
    }
}

/// The titles of the aggregates among the items.
pub fn agg_titles<'a>(alloc: Global, items: &[Item<'a>]) -> Result<Vec<Title<'a>>, AllocError>
    ensures titles { IfOk result (λ titles. titles.items ≡ map (λ a. a.1) (counted (map item_of items.now))) }
    ensures long { IfOk result (λ titles. length titles.items ≡ length (counted (map item_of items.now))) }
{
    let mut titles = Vec::new(alloc);
    for item in items {
        if let Item::Agg(agg, alias) = item {
            titles.push(agg_title(agg, *alias))?;
        }
    }
    Ok(titles)
}
