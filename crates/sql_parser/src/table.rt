//! CREATE TABLE and DROP TABLE, as they are written.

ghost use Rattle.std.specs.Prelude.{◌≡◌, ◌<◌, ◌≤◌, ◌++◌, ◌∷◌, [], IfOk, length, map, option_map};
ghost use Rattle.sql_trees.specs.Statements.{name_of, stmt_of, column_of};
ghost use Rattle.sql_trees.specs.Tokens.{tok_view, tok_views};
ghost use Rattle.sql_expressions.specs.Results.{Gives};
ghost use Rattle.sql_expressions.specs.Readers.{items_at};
ghost use Rattle.sql_blocks.specs.Parts.{column_names};
ghost use Rattle.sql_parser.specs.Tables.{has_name, placed_names, drop_at};
ghost use Rattle.sql_parser.specs.Grammar.{empty_table, kind_of};
ghost use Rattle.sql_parser.specs.Inner.Tables.{kind_at, key_add, key_at, limits_at, column_behind, column_read, table_add, after_if};
ghost use Rattle.sql_parser.specs.Inner.OneConstraint.{is_constraint, constraint_at, constrained};
ghost use Rattle.sql_parser.specs.Code.Views.{placed_of, key_text_of, table_text_of};

use crate::list::{List, items};
use crate::names::{NameList, names};
use crate::part::{after_word, close, is_word, keyword, misplaced_word, name, open};
use crate::transaction::ReadStmt;
use iso_lexer::{Name, same_name};
use sql_expressions::{Parser, Tokens};
use sql_trees::{Column, DropTable, Kind, SqlFault, Stmt, Tok, Word};
use std::alloc::{AllocError, Global};

/// A name, and the byte at which it stands.
#[derive(Clone, Copy)]
pub struct PlacedName<'a> {
    pub name: Name<'a>,
    pub place: usize,
}

/// A key as it is written.
#[derive(Drop)]
pub struct KeyText<'a> {
    pub primary: bool,
    pub columns: Vec<PlacedName<'a>>,
}

/// The columns and keys of a table as they are written.
#[derive(Drop)]
pub struct TableText<'a> {
    pub columns: Vec<Column<'a>>,
    pub keys: Vec<KeyText<'a>>,
}

/// The columns of a key.
#[derive(Drop)]
pub struct KeyColumns<'a> {
    pub columns: Vec<PlacedName<'a>>,
}

/// Whether one of the names is this one.
pub fn is_placed(name: &Name, mut names: &[PlacedName]) -> bool
    ensures { result ≡ has_name (name_of name.now) (placed_names (map placed_of names.entry.now)) }
{
    while let [other, rest @ ..] = names {
        if same_name(&other.name, name) {
            return true;
        }
        names = rest;
    }
    false
}

/// Whether one of the columns has this name.
pub fn is_column(name: &Name, mut columns: &[Column]) -> bool
    ensures { result ≡ has_name (name_of name.now) (column_names (map column_of columns.entry.now)) }
{
    while let [other, rest @ ..] = columns {
        if same_name(&other.name, name) {
            return true;
        }
        columns = rest;
    }
    false
}

impl<'a> List<'a> for KeyColumns<'a> {
    ghost adds = { λ last s ts r. Gives (λ x. (map placed_of x.0.columns.items, x.1)) r (key_add last (map placed_of s.columns.items) ts) };

    fn add<'t>(
        &mut self,
        parser: Parser,
        tokens: Tokens<'t, 'a>,
    ) -> Result<Tokens<'t, 'a>, SqlFault> {
        let place = parser.place_of(tokens);
        let (name, rest) = name(parser, tokens)?;
        if is_placed(&name, &self.columns) {
            return Err(SqlFault::BadColumns(place));
        }
        self.columns.push(PlacedName { name, place })?;
        Ok(rest)
    }
}

// The columns of a key, with commas between them.
fn key_columns<'t, 'a>(
    parser: Parser,
    tokens: Tokens<'t, 'a>,
) -> Result<(KeyColumns<'a>, Tokens<'t, 'a>), SqlFault>
    ensures exact { Gives (λ x. (map placed_of x.0.columns.items, tok_views x.1.now)) result (items_at (key_add parser.text_len) [] (tok_views tokens.now)) }
    ensures shorter { IfOk result (λ x. length x.1.now ≤ length tokens.now) }
{
    let list = KeyColumns {
        columns: Vec::new(parser.alloc),
    };
    items(parser, list, tokens)
}

fn kind_of(tok: Tok) -> Option<Kind>
    ensures { result ≡ kind_of (tok_view tok.entry) }
{
    match tok {
        Tok::Word(Word::Integer, _) => Some(Kind::Int),
        Tok::Word(Word::Bigint, _) => Some(Kind::Big),
        Tok::Word(Word::Text, _) => Some(Kind::Text),
        Tok::Word(Word::Boolean, _) => Some(Kind::Bool),
        _ => None,
    }
}

// A column's kind.
fn kind<'t, 'a>(parser: Parser, tokens: Tokens<'t, 'a>) -> Result<(Kind, Tokens<'t, 'a>), SqlFault>
    ensures exact { Gives (λ x. (x.0, tok_views x.1.now)) result (kind_at parser.text_len (tok_views tokens.now)) }
    ensures shorter { IfOk result (λ x. length x.1.now ≤ length tokens.now) }
{
    let [token, rest @ ..] = tokens else {
        return Err(misplaced_word(parser, tokens));
    };
    match kind_of(token.tok) {
        Some(kind) => Ok((kind, rest)),
        None => Err(misplaced_word(parser, tokens)),
    }
}

fn is_constraint(tok: Tok) -> bool
    ensures { result ≡ is_constraint (tok_view tok.entry) }
{
    matches!(tok, Tok::Word(Word::Not | Word::Primary | Word::Unique, _))
}

// Whether more is said of a column.
fn constrained(tokens: Tokens) -> bool
    ensures { result ≡ constrained (tok_views tokens.now) }
{
    match tokens {
        [] => false,
        [token, ..] => is_constraint(token.tok),
    }
}

// Adds a key of this column alone.
fn push_key<'a>(
    alloc: Global,
    keys: &mut Vec<KeyText<'a>>,
    primary: bool,
    column: PlacedName<'a>,
) -> Result<(), AllocError>
    ensures { IfOk result (λ done. map key_text_of keys.new.items ≡ map key_text_of keys.old.items ++ (record { primary = primary; columns = placed_of column.entry ∷ [] }) ∷ []) }
{
    let mut columns = Vec::new(alloc);
    columns.push(column)?;
    keys.push(KeyText { primary, columns })?;
    Ok(())
}

// Reads the constraint that stands next: whether the column is NOT NULL with it.
fn read_limit<'t, 'a>(
    parser: Parser,
    column: PlacedName<'a>,
    not_null: bool,
    keys: &mut Vec<KeyText<'a>>,
    tokens: Tokens<'t, 'a>,
) -> Result<(bool, Tokens<'t, 'a>), SqlFault>
    ensures exact { Gives (λ x. (record { not_null = x.0; keys = map key_text_of keys.new.items }, tok_views x.1.now)) result (constraint_at parser.text_len (placed_of column.entry) (record { not_null = not_null; keys = map key_text_of keys.old.items }) (tok_views tokens.now)) }
    ensures shorter { IfOk result (λ x. length x.1.now < length tokens.now) }
{
    let [token, rest @ ..] = tokens else {
        return Err(parser.misplaced(tokens));
    };
    match token.tok {
        Tok::Word(Word::Not, _) => {
            let rest = keyword(parser, Word::Null, rest)?;
            Ok((true, rest))
        }
        Tok::Word(Word::Primary, _) => {
            let rest = keyword(parser, Word::Key, rest)?;
            push_key(parser.alloc, keys, true, column)?;
            Ok((not_null, rest))
        }
        Tok::Word(Word::Unique, _) => {
            push_key(parser.alloc, keys, false, column)?;
            Ok((not_null, rest))
        }
        _ => Err(parser.misplaced(tokens)),
    }
}

// Reads a column's kind and all that is said of it, its keys behind these: the kind, and whether it is NOT NULL.
#[tactic(auto, unfolding(crate::specs::Inner::Tables::limits_at))]
fn read_limits<'t, 'a>(
    parser: Parser,
    column: PlacedName<'a>,
    keys: &mut Vec<KeyText<'a>>,
    tokens: Tokens<'t, 'a>,
) -> Result<(Kind, bool, Tokens<'t, 'a>), SqlFault>
    ensures exact { Gives (λ x. ((x.0, record { not_null = x.1; keys = map key_text_of keys.new.items }), tok_views x.2.now)) result (limits_at parser.text_len (placed_of column.entry) (map key_text_of keys.old.items) (tok_views tokens.now)) }
    ensures shorter { IfOk result (λ x. length x.2.now ≤ length tokens.now) }
{
    let (kind, mut rest) = kind(parser, tokens)?;
    let mut not_null = false;
    while constrained(rest) {
        (not_null, rest) = read_limit(parser, column, not_null, keys, rest)?;
    }
    Ok((kind, not_null, rest))
}

impl<'a> TableText<'a> {
    // Adds a key over the columns in parentheses.
    #[tactic(auto, unfolding(crate::specs::Inner::Tables::key_at))]
    fn add_key<'t>(
        &mut self,
        parser: Parser,
        primary: bool,
        tokens: Tokens<'t, 'a>,
    ) -> Result<Tokens<'t, 'a>, SqlFault>
        ensures exact { Gives (λ rest. (table_text_of self.new, tok_views rest.now)) result (key_at parser.text_len primary (table_text_of self.old) (tok_views tokens.now)) }
        ensures shorter { IfOk result (λ rest. length rest.now ≤ length tokens.now) }
    {
        let (KeyColumns { columns }, rest) = key_columns(parser, open(parser, tokens)?)?;
        let rest = close(parser, rest)?;
        self.keys.push(KeyText { primary, columns })?;
        Ok(rest)
    }

    // Adds a column whose name has been read.
    #[tactic(auto, unfolding(crate::specs::Inner::Tables::column_behind))]
    fn add_named<'t>(
        &mut self,
        parser: Parser,
        column: PlacedName<'a>,
        tokens: Tokens<'t, 'a>,
    ) -> Result<Tokens<'t, 'a>, SqlFault>
        ensures exact { Gives (λ rest. (table_text_of self.new, tok_views rest.now)) result (column_behind parser.text_len (placed_of column.entry) (table_text_of self.old) (tok_views tokens.now)) }
        ensures shorter { IfOk result (λ rest. length rest.now ≤ length tokens.now) }
    {
        let (kind, not_null, rest) = read_limits(parser, column, &mut self.keys, tokens)?;
        let name = column.name;
        self.columns.push(Column {
            name,
            kind,
            not_null,
        })?;
        Ok(rest)
    }

    // Adds the column that stands next.
    #[tactic(auto, unfolding(crate::specs::Inner::Tables::column_read))]
    fn add_column<'t>(
        &mut self,
        parser: Parser,
        tokens: Tokens<'t, 'a>,
    ) -> Result<Tokens<'t, 'a>, SqlFault>
        ensures exact { Gives (λ rest. (table_text_of self.new, tok_views rest.now)) result (column_read parser.text_len (table_text_of self.old) (tok_views tokens.now)) }
        ensures shorter { IfOk result (λ rest. length rest.now ≤ length tokens.now) }
    {
        let place = parser.place_of(tokens);
        let (name, rest) = name(parser, tokens)?;
        if is_column(&name, &self.columns) {
            return Err(SqlFault::BadColumns(place));
        }
        self.add_named(parser, PlacedName { name, place }, rest)
    }
}

impl<'a> List<'a> for TableText<'a> {
    ghost adds = { λ last s ts r. Gives (λ x. (table_text_of x.0, x.1)) r (table_add last (table_text_of s) ts) };

    #[tactic(auto, unfolding(crate::specs::Inner::Tables::table_add))]
    fn add<'t>(
        &mut self,
        parser: Parser,
        tokens: Tokens<'t, 'a>,
    ) -> Result<Tokens<'t, 'a>, SqlFault> {
        if let Some(rest) = after_word(Word::Primary, tokens) {
            let rest = keyword(parser, Word::Key, rest)?;
            return self.add_key(parser, true, rest);
        }
        if let Some(rest) = after_word(Word::Unique, tokens) {
            return self.add_key(parser, false, rest);
        }
        self.add_column(parser, tokens)
    }
}

/// The columns and keys of a table, with commas between them.
pub fn table_items<'t, 'a>(
    parser: Parser,
    tokens: Tokens<'t, 'a>,
) -> Result<(TableText<'a>, Tokens<'t, 'a>), SqlFault>
    ensures exact { Gives (λ x. (table_text_of x.0, tok_views x.1.now)) result (items_at (table_add parser.text_len) empty_table (tok_views tokens.now)) }
    ensures shorter { IfOk result (λ x. length x.1.now ≤ length tokens.now) }
{
    let list = TableText {
        columns: Vec::new(parser.alloc),
        keys: Vec::new(parser.alloc),
    };
    items(parser, list, tokens)
}

// The tokens behind IF EXISTS.
fn after_if<'t, 'a>(tokens: Tokens<'t, 'a>) -> Option<Tokens<'t, 'a>>
    ensures { option_map (λ rest. tok_views rest.now) result ≡ after_if (tok_views tokens.now) }
{
    match tokens {
        [token, rest @ ..] if is_word(token.tok, Word::If) => after_word(Word::Exists, rest),
        _ => None,
    }
}

/// What stands behind DROP.
#[tactic(auto, unfolding(crate::specs::Tables::drop_at))]
pub fn drop_table<'t, 'a>(parser: Parser, tokens: Tokens<'t, 'a>) -> ReadStmt<'t, 'a>
    ensures { Gives (λ x. (stmt_of x.0, tok_views x.1.now)) result (drop_at parser.text_len (tok_views tokens.now)) }
{
    let tokens = keyword(parser, Word::Table, tokens)?;
    if let Some(tokens) = after_if(tokens) {
        let (NameList { names }, rest) = names(parser, tokens)?;
        return Ok((
            Stmt::DropTable(DropTable {
                if_exists: true,
                names,
            }),
            rest,
        ));
    }
    let (NameList { names }, rest) = names(parser, tokens)?;
    Ok((
        Stmt::DropTable(DropTable {
            if_exists: false,
            names,
        }),
        rest,
    ))
}
