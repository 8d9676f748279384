//! Lists of names, of values and of rows.

ghost use Rattle.std.specs.Prelude.{◌≡◌, ◌≤◌, [], IfOk, length, map};
ghost use Rattle.sql_trees.specs.Statements.{name_of, exprs_of};
ghost use Rattle.sql_trees.specs.Tokens.{tok_views};
ghost use Rattle.sql_expressions.specs.Results.{Gives};
ghost use Rattle.sql_expressions.specs.Readers.{items_at, name_at, added};
ghost use Rattle.sql_parser.specs.Readers.{tree_at};
ghost use Rattle.sql_parser.specs.Inner.Changes.{distinct_add, row_add};
ghost use Rattle.sql_parser.specs.Code.Views.{rows_view};

use crate::list::{List, items};
use crate::part::{close, expr, is_among, name, open};
use iso_lexer::Name;
use sql_expressions::{Parser, Tokens};
use sql_trees::{Expr, SqlFault};

/// Names that may repeat.
#[derive(Drop)]
pub struct NameList<'a> {
    pub names: Vec<Name<'a>>,
}

impl<'a> List<'a> for NameList<'a> {
    ghost adds = { λ last s ts r. Gives (λ x. (map name_of x.0.names.items, x.1)) r (added (name_at last) (map name_of s.names.items) ts) };

    fn add<'t>(
        &mut self,
        parser: Parser,
        tokens: Tokens<'t, 'a>,
    ) -> Result<Tokens<'t, 'a>, SqlFault> {
        let (name, rest) = name(parser, tokens)?;
        self.names.push(name)?;
        Ok(rest)
    }
}

/// Names that all differ.
#[derive(Drop)]
pub struct DistinctNames<'a> {
    pub names: Vec<Name<'a>>,
}

impl<'a> List<'a> for DistinctNames<'a> {
    ghost adds = { λ last s ts r. Gives (λ x. (map name_of x.0.names.items, x.1)) r (distinct_add last (map name_of s.names.items) ts) };

    fn add<'t>(
        &mut self,
        parser: Parser,
        tokens: Tokens<'t, 'a>,
    ) -> Result<Tokens<'t, 'a>, SqlFault> {
        let (name, rest) = name(parser, tokens)?;
        if is_among(&name, &self.names) {
            return Err(SqlFault::BadColumns(parser.place_of(tokens)));
        }
        self.names.push(name)?;
        Ok(rest)
    }
}

/// The values of a row.
#[derive(Drop)]
pub struct ValueList<'a> {
    pub values: Vec<Expr<'a>>,
}

impl<'a> List<'a> for ValueList<'a> {
    ghost adds = { λ last s ts r. Gives (λ x. (exprs_of x.0.values, x.1)) r (added (tree_at last) (exprs_of s.values) ts) };

    fn add<'t>(
        &mut self,
        parser: Parser,
        tokens: Tokens<'t, 'a>,
    ) -> Result<Tokens<'t, 'a>, SqlFault> {
        let (value, rest) = expr(parser, tokens)?;
        self.values.push(Box::into_inner(value))?;
        Ok(rest)
    }
}

/// Rows of VALUES, and how many values each has to have.
#[derive(Drop)]
pub struct RowList<'a> {
    pub rows: Vec<Vec<Expr<'a>>>,
    pub width: Option<usize>,
}

impl<'a> List<'a> for RowList<'a> {
    ghost adds = { λ last s ts r. Gives (λ x. (rows_view x.0, x.1)) r (row_add last (rows_view s) ts) };

    #[tactic(auto, unfolding(crate::specs::Inner::Changes::row_add))]
    fn add<'t>(
        &mut self,
        parser: Parser,
        tokens: Tokens<'t, 'a>,
    ) -> Result<Tokens<'t, 'a>, SqlFault> {
        let place = parser.place_of(tokens);
        let (ValueList { values }, rest) = values(parser, open(parser, tokens)?)?;
        let rest = close(parser, rest)?;
        let width = values.len();
        if let Some(wanted) = self.width
            && wanted != width
        {
            return Err(SqlFault::Syntax(place));
        }
        self.rows.push(values)?;
        self.width = Some(width);
        Ok(rest)
    }
}

/// Names that may repeat, with commas between them.
pub fn names<'t, 'a>(
    parser: Parser,
    tokens: Tokens<'t, 'a>,
) -> Result<(NameList<'a>, Tokens<'t, 'a>), SqlFault>
    ensures exact { Gives (λ x. (map name_of x.0.names.items, tok_views x.1.now)) result (items_at (added (name_at parser.text_len)) [] (tok_views tokens.now)) }
    ensures shorter { IfOk result (λ x. length x.1.now ≤ length tokens.now) }
{
    let list = NameList {
        names: Vec::new(parser.alloc),
    };
    items(parser, list, tokens)
}

/// Names that all differ, with commas between them.
pub fn distinct_names<'t, 'a>(
    parser: Parser,
    tokens: Tokens<'t, 'a>,
) -> Result<(DistinctNames<'a>, Tokens<'t, 'a>), SqlFault>
    ensures exact { Gives (λ x. (map name_of x.0.names.items, tok_views x.1.now)) result (items_at (distinct_add parser.text_len) [] (tok_views tokens.now)) }
    ensures shorter { IfOk result (λ x. length x.1.now ≤ length tokens.now) }
{
    let list = DistinctNames {
        names: Vec::new(parser.alloc),
    };
    items(parser, list, tokens)
}

/// The values of a row, with commas between them.
pub fn values<'t, 'a>(
    parser: Parser,
    tokens: Tokens<'t, 'a>,
) -> Result<(ValueList<'a>, Tokens<'t, 'a>), SqlFault>
    ensures exact { Gives (λ x. (exprs_of x.0.values, tok_views x.1.now)) result (items_at (added (tree_at parser.text_len)) [] (tok_views tokens.now)) }
    ensures shorter { IfOk result (λ x. length x.1.now ≤ length tokens.now) }
{
    let list = ValueList {
        values: Vec::new(parser.alloc),
    };
    items(parser, list, tokens)
}

/// Rows of VALUES of one length, with commas between them.
pub fn rows<'t, 'a>(
    parser: Parser,
    width: Option<usize>,
    tokens: Tokens<'t, 'a>,
) -> Result<(RowList<'a>, Tokens<'t, 'a>), SqlFault>
    ensures exact { Gives (λ x. (rows_view x.0, tok_views x.1.now)) result (items_at (row_add parser.text_len) (record { rows = []; width = width }) (tok_views tokens.now)) }
    ensures shorter { IfOk result (λ x. length x.1.now ≤ length tokens.now) }
{
    let list = RowList {
        rows: Vec::new(parser.alloc),
        width,
    };
    items(parser, list, tokens)
}
