//! INSERT, UPDATE and DELETE.

ghost use Rattle.std.specs.Prelude.{◌≡◌, ◌≤◌, [], IfOk, length, map, option_map};
ghost use Rattle.iso_lexer.specs.declared.sql_token.SqlSign.TheVariants as signs;
ghost use Rattle.sql_trees.specs.Statements.{name_of, names_of, set_of, stmt_of};
ghost use Rattle.sql_trees.specs.Tokens.{tok_view, tok_views};
ghost use Rattle.sql_trees.specs.Trees.{tree_of};
ghost use Rattle.sql_expressions.specs.Results.{Gives};
ghost use Rattle.sql_expressions.specs.Readers.{is_sign, expect, items_at};
ghost use Rattle.sql_blocks.specs.Parts.{set_columns};
ghost use Rattle.sql_parser.specs.Tables.{has_name};
ghost use Rattle.sql_parser.specs.Inner.Changes.{set_value, set_add, columns_at, insert_at, update_at, delete_at};
ghost use Rattle.sql_parser.specs.Changes.{filter_at};

use crate::list::{List, items};
use crate::names::{DistinctNames, RowList, distinct_names, rows};
use crate::part::{after_open, after_word, close, expr, keyword, name};
use crate::returning::{conflict, returning};
use crate::transaction::ReadStmt;
use iso_lexer::{Name, SqlSign, same_name};
use sql_expressions::{Parser, Tokens};
use sql_trees::{Delete, Expr, Insert, SqlFault, Stmt, Tok, Update, Word};

/// Columns that all differ, with their new values.
#[derive(Drop)]
pub struct SetList<'a> {
    pub sets: Vec<(Name<'a>, Expr<'a>)>,
}

fn is_set(name: &Name, mut sets: &[(Name, Expr)]) -> bool
    ensures { result ≡ has_name (name_of name.now) (set_columns (map set_of sets.entry.now)) }
{
    while let [set, rest @ ..] = sets {
        if same_name(&set.0, name) {
            return true;
        }
        sets = rest;
    }
    false
}

fn is_equal(tok: Tok) -> bool
    ensures { result ≡ is_sign signs.Equal (tok_view tok.entry) }
{
    matches!(tok, Tok::Sign(SqlSign::Equal))
}

// The tokens behind a `=`, which has to stand next.
fn equal<'t, 'a>(parser: Parser, tokens: Tokens<'t, 'a>) -> Result<Tokens<'t, 'a>, SqlFault>
    ensures exact { Gives (λ rest. tok_views rest.now) result (expect parser.text_len (is_sign signs.Equal) (tok_views tokens.now)) }
    ensures shorter { IfOk result (λ rest. length rest.now ≤ length tokens.now) }
{
    match tokens {
        [token, rest @ ..] if is_equal(token.tok) => Ok(rest),
        _ => Err(parser.misplaced(tokens)),
    }
}

impl<'a> SetList<'a> {
    // Adds a column whose name has been read.
    fn add_named<'t>(
        &mut self,
        parser: Parser,
        column: Name<'a>,
        tokens: Tokens<'t, 'a>,
    ) -> Result<Tokens<'t, 'a>, SqlFault>
        ensures exact { Gives (λ rest. (map set_of self.new.sets.items, tok_views rest.now)) result (set_value parser.text_len (name_of column.entry) (map set_of self.old.sets.items) (tok_views tokens.now)) }
        ensures shorter { IfOk result (λ rest. length rest.now ≤ length tokens.now) }
    {
        let (value, rest) = expr(parser, equal(parser, tokens)?)?;
        self.sets.push((column, Box::into_inner(value)))?;
        Ok(rest)
    }
}

impl<'a> List<'a> for SetList<'a> {
    ghost adds = { λ last s ts r. Gives (λ x. (map set_of x.0.sets.items, x.1)) r (set_add last (map set_of s.sets.items) ts) };

    #[tactic(auto, unfolding(crate::specs::Inner::Changes::set_add))]
    fn add<'t>(
        &mut self,
        parser: Parser,
        tokens: Tokens<'t, 'a>,
    ) -> Result<Tokens<'t, 'a>, SqlFault> {
        let place = parser.place_of(tokens);
        let (column, rest) = name(parser, tokens)?;
        if is_set(&column, &self.sets) {
            return Err(SqlFault::BadColumns(place));
        }
        self.add_named(parser, column, rest)
    }
}

// Columns with their new values, with commas between them.
fn sets<'t, 'a>(
    parser: Parser,
    tokens: Tokens<'t, 'a>,
) -> Result<(SetList<'a>, Tokens<'t, 'a>), SqlFault>
    ensures exact { Gives (λ x. (map set_of x.0.sets.items, tok_views x.1.now)) result (items_at (set_add parser.text_len) [] (tok_views tokens.now)) }
    ensures shorter { IfOk result (λ x. length x.1.now ≤ length tokens.now) }
{
    let list = SetList {
        sets: Vec::new(parser.alloc),
    };
    items(parser, list, tokens)
}

// The columns in parentheses, if any.
#[tactic(auto, unfolding(crate::specs::Inner::Changes::columns_at))]
fn columns<'t, 'a>(
    parser: Parser,
    tokens: Tokens<'t, 'a>,
) -> Result<(Option<Vec<Name<'a>>>, Tokens<'t, 'a>), SqlFault>
    ensures { Gives (λ x. (option_map names_of x.0, tok_views x.1.now)) result (columns_at parser.text_len (tok_views tokens.now)) }
{
    let Some(opened) = after_open(tokens) else {
        return Ok((None, tokens));
    };
    let (DistinctNames { names }, rest) = distinct_names(parser, opened)?;
    let rest = close(parser, rest)?;
    Ok((Some(names), rest))
}

/// WHERE and its condition, if any.
#[tactic(auto, unfolding(crate::specs::Changes::filter_at))]
pub fn filter<'t, 'a>(
    parser: Parser,
    tokens: Tokens<'t, 'a>,
) -> Result<(Option<Box<Expr<'a>>>, Tokens<'t, 'a>), SqlFault>
    ensures { Gives (λ x. (option_map (λ e. tree_of e.value) x.0, tok_views x.1.now)) result (filter_at parser.text_len (tok_views tokens.now)) }
{
    let Some(tokens) = after_word(Word::Where, tokens) else {
        return Ok((None, tokens));
    };
    let (condition, rest) = expr(parser, tokens)?;
    Ok((Some(condition), rest))
}

/// The condition without its box.
pub fn unboxed<'a>(condition: Option<Box<Expr<'a>>>) -> Option<Expr<'a>>
    ensures { option_map tree_of result ≡ option_map (λ e. tree_of e.value) condition.entry }
{
    match condition {
        Some(condition) => Some(Box::into_inner(condition)),
        None => None,
    }
}

/// What stands behind INSERT.
#[tactic(auto, unfolding(crate::specs::Inner::Changes::insert_at))]
pub fn insert<'t, 'a>(parser: Parser, tokens: Tokens<'t, 'a>) -> ReadStmt<'t, 'a>
    ensures { Gives (λ x. (stmt_of x.0, tok_views x.1.now)) result (insert_at parser.text_len (tok_views tokens.now)) }
{
    let tokens = keyword(parser, Word::Into, tokens)?;
    let (table, rest) = name(parser, tokens)?;
    let (columns, rest) = columns(parser, rest)?;
    let rest = keyword(parser, Word::Values, rest)?;
    let width = width_of(&columns);
    let (RowList { rows, .. }, rest) = rows(parser, width, rest)?;
    let (do_nothing, rest) = conflict(parser, rest)?;
    let (returning, rest) = returning(parser, rest)?;
    Ok((
        Stmt::Insert(Insert {
            table,
            columns,
            rows,
            do_nothing,
            returning,
        }),
        rest,
    ))
}

// How many columns are listed.
fn width_of(columns: &Option<Vec<Name>>) -> Option<usize>
    ensures { result ≡ option_map length (option_map names_of columns.now) }
{
    match columns {
        Some(names) => Some(names.len()),
        None => None,
    }
}

/// What stands behind UPDATE.
#[tactic(auto, unfolding(crate::specs::Inner::Changes::update_at))]
pub fn update<'t, 'a>(parser: Parser, tokens: Tokens<'t, 'a>) -> ReadStmt<'t, 'a>
    ensures { Gives (λ x. (stmt_of x.0, tok_views x.1.now)) result (update_at parser.text_len (tok_views tokens.now)) }
{
    let (table, rest) = name(parser, tokens)?;
    let rest = keyword(parser, Word::Set, rest)?;
    let (SetList { sets }, rest) = sets(parser, rest)?;
    let (filter, rest) = filter(parser, rest)?;
    let filter = unboxed(filter);
    let (returning, rest) = returning(parser, rest)?;
    Ok((
        Stmt::Update(Update {
            table,
            sets,
            filter,
            returning,
        }),
        rest,
    ))
}

/// What stands behind DELETE.
#[tactic(auto, unfolding(crate::specs::Inner::Changes::delete_at))]
pub fn delete<'t, 'a>(parser: Parser, tokens: Tokens<'t, 'a>) -> ReadStmt<'t, 'a>
    ensures { Gives (λ x. (stmt_of x.0, tok_views x.1.now)) result (delete_at parser.text_len (tok_views tokens.now)) }
{
    let tokens = keyword(parser, Word::From, tokens)?;
    let (table, rest) = name(parser, tokens)?;
    let (filter, rest) = filter(parser, rest)?;
    let filter = unboxed(filter);
    let (returning, rest) = returning(parser, rest)?;
    Ok((
        Stmt::Delete(Delete {
            table,
            filter,
            returning,
        }),
        rest,
    ))
}
