//! The keys of a CREATE TABLE, once the whole has been read.

ghost use Rattle.std.specs.Prelude.{◌≡◌, ◌<◌, ◌^◌, ◌++◌, ◌&&◌, [], IfOk, length, map, slice_index};
ghost use Rattle.std.specs.List.{list_any};
ghost use Rattle.sql_trees.specs.Statements.{name_of, stmt_of, column_of, key_of};
ghost use Rattle.sql_trees.specs.Inner.KeyNames.{underscored};
ghost use Rattle.sql_trees.specs.Tokens.{tok_views};
ghost use Rattle.sql_expressions.specs.Results.{Gives};
ghost use Rattle.sql_blocks.specs.Parts.{column_names};
ghost use Rattle.sql_parser.specs.Inner.Calls.{seen};
ghost use Rattle.sql_parser.specs.Inner.Pieces.{is_kept_key, resolved_keys};
ghost use Rattle.sql_parser.specs.Tables.{has_name, completed, placed_names, resolved};
ghost use Rattle.sql_parser.specs.Inner.Tables.{made_name, first_lacking, text_fault, keys_fault, place_among, finished, create_at};
ghost use Rattle.sql_parser.specs.Code.Views.{placed_of, key_text_of, table_text_of};

use crate::part::{close, keyword, name, open};
use crate::statement::ReadWhole;
use crate::table::{KeyText, PlacedName, TableText, is_column, is_placed, table_items};
use iso_lexer::{Name, same_name};
use sql_expressions::{Parser, Tokens};
use sql_trees::{Column, CreateTable, Key, SqlFault, Stmt, Word};
use std::alloc::{AllocError, Global};

// The columns of a key, each behind an underscore, behind these bytes.
fn push_columns(
    alloc: Global,
    mut text: Vec<u8>,
    mut columns: &[PlacedName],
) -> Result<Vec<u8>, AllocError>
    ensures { IfOk result (λ v. v.items ≡ text.items ++ underscored (placed_names (map placed_of columns.entry.now))) }
{
    while let [column, rest @ ..] = columns {
        text.push(b'_')?;
        text = column.name.push_to(alloc, text)?;
        columns = rest;
    }
    Ok(text)
}

// The name that a key is given: its table's and `pkey`, or its table's, its columns' and `key`.
fn made_name(alloc: Global, table: &Name, key: &KeyText) -> Result<Vec<u8>, AllocError>
    ensures { IfOk result (λ v. v.items ≡ made_name (name_of table.now) (key_text_of key.now)) }
{
    let mut text = table.push_to(alloc, Vec::new(alloc))?;
    if key.primary {
        text.extend_from_slice(b"_pkey")?;
        return Ok(text);
    }
    let mut text = push_columns(alloc, text, &key.columns)?;
    text.extend_from_slice(b"_key")?;
    Ok(text)
}

// Whether one of the texts is this one.
fn is_text(text: &[u8], mut texts: &[Vec<u8>]) -> bool
    ensures { result ≡ has_name text.now (map (λ v. v.items) texts.entry.now) }
{
    while let [other, rest @ ..] = texts {
        if other.as_slice() == text {
            return true;
        }
        texts = rest;
    }
    false
}

// Where the first column stands that the table lacks.
fn first_lacking(columns: &[Column], mut names: &[PlacedName]) -> Option<usize>
    ensures { result ≡ first_lacking (column_names (map column_of columns.now)) (map placed_of names.entry.now) }
{
    while let [name, rest @ ..] = names {
        if !is_column(&name.name, columns) {
            return Some(name.place);
        }
        names = rest;
    }
    None
}

fn first_place(names: &[PlacedName]) -> usize
    ensures { result ≡ slice_index (map (λ n. n.place) (map placed_of names.now)) 0 }
{
    match names {
        [] => 0,
        [first, ..] => first.place,
    }
}

// The place of a key's fault: a name that was made before, or a column that the table lacks.
#[tactic(auto, unfolding(crate::specs::Inner::Tables::text_fault))]
fn key_fault(text: &[u8], made: &[Vec<u8>], columns: &[Column], key: &KeyText) -> Option<usize>
    ensures { result ≡ text_fault text.now (column_names (map column_of columns.now)) (map (λ v. v.items) made.now) (key_text_of key.now) }
{
    if is_text(text, made) {
        Some(first_place(&key.columns))
    } else {
        first_lacking(columns, &key.columns)
    }
}

// The place of the first fault of the keys.
#[tactic(auto, unfolding(crate::specs::Inner::Tables::keys_fault))]
fn keys_fault(
    alloc: Global,
    table: &Name,
    columns: &[Column],
    mut keys: &[KeyText],
) -> Result<Option<usize>, AllocError>
    ensures { IfOk result (λ r. r ≡ keys_fault (name_of table.now) (column_names (map column_of columns.now)) [] (map key_text_of keys.entry.now)) }
{
    let mut made: Vec<Vec<u8>> = Vec::new(alloc);
    while let [key, rest @ ..] = keys {
        let text = made_name(alloc, table, key)?;
        if let Some(place) = key_fault(&text, &made, columns, key) {
            return Ok(Some(place));
        }
        made.push(text)?;
        keys = rest;
    }
    Ok(None)
}

fn in_primary(mut keys: &[KeyText], name: &Name) -> bool
    ensures { result ≡ list_any (λ k. k.primary && has_name (name_of name.now) (placed_names k.columns)) (map key_text_of keys.entry.now) }
{
    while let [key, rest @ ..] = keys {
        if key.primary && is_placed(name, &key.columns) {
            return true;
        }
        keys = rest;
    }
    false
}

// The columns, those of a primary key NOT NULL.
fn completed<'a>(
    alloc: Global,
    keys: &[KeyText],
    mut columns: &[Column<'a>],
) -> Result<Vec<Column<'a>>, AllocError>
    ensures { IfOk result (λ v. map column_of v.items ≡ map (completed (map key_text_of keys.now)) (map column_of columns.entry.now)) }
{
    let mut all = Vec::new(alloc);
    while let [column, rest @ ..] = columns {
        all.push(Column {
            name: column.name,
            kind: column.kind,
            not_null: column.not_null || in_primary(keys, &column.name),
        })?;
        columns = rest;
    }
    Ok(all)
}

// A column's place in the table.
fn place_in(mut columns: &[Column], name: &Name) -> u32
    requires { length columns.now < 2 ^ 32 }
    ensures { result ≡ place_among (column_names (map column_of columns.entry.now)) (name_of name.now) }
{
    let mut place = 0;
    while let [column, rest @ ..] = columns {
        if same_name(&column.name, name) {
            return place;
        }
        place += 1;
        columns = rest;
    }
    place
}

// The places in the table of a key's columns.
fn places(
    alloc: Global,
    columns: &[Column],
    mut names: &[PlacedName],
) -> Result<Vec<u32>, AllocError>
    requires { length columns.now < 2 ^ 32 }
    ensures { IfOk result (λ v. v.items ≡ map (λ n. place_among (column_names (map column_of columns.now)) n.name) (map placed_of names.entry.now)) }
{
    let mut places = Vec::new(alloc);
    while let [name, rest @ ..] = names {
        places.push(place_in(columns, &name.name))?;
        names = rest;
    }
    Ok(places)
}

// A key with its columns' places in the table.
fn resolved(alloc: Global, columns: &[Column], key: &KeyText) -> Result<Key, AllocError>
    requires { length columns.now < 2 ^ 32 }
    ensures { IfOk result (λ k. key_of k ≡ resolved (column_names (map column_of columns.now)) (key_text_of key.now)) }
{
    Ok(Key {
        primary: key.primary,
        columns: places(alloc, columns, &key.columns)?,
    })
}

fn is_kept_key(key: &KeyText, primary: bool) -> bool
    ensures { result ≡ is_kept_key primary (key_text_of key.now) }
{
    if primary { key.primary } else { !key.primary }
}

// The primary keys, or the others, behind these.
fn push_keys(
    alloc: Global,
    columns: &[Column],
    mut keys: &[KeyText],
    primary: bool,
    mut all: Vec<Key>,
) -> Result<Vec<Key>, AllocError>
    requires { length columns.now < 2 ^ 32 }
    ensures { IfOk result (λ v. map key_of v.items ≡ map key_of all.items ++ resolved_keys primary (column_names (map column_of columns.now)) (map key_text_of keys.entry.now)) }
{
    while let [key, rest @ ..] = keys {
        if is_kept_key(key, primary) {
            all.push(resolved(alloc, columns, key)?)?;
        }
        keys = rest;
    }
    Ok(all)
}

// The table as it was read, or the fault of its keys.
#[tactic(auto, unfolding(crate::specs::Inner::Tables::finished))]
fn finished<'a>(
    alloc: Global,
    name: Name<'a>,
    table: &TableText<'a>,
) -> Result<Result<Stmt<'a>, SqlFault>, AllocError>
    requires { length table.now.columns.items < 2 ^ 32 }
    ensures { IfOk result (λ r. seen stmt_of r ≡ finished (name_of name.entry) (table_text_of table.now)) }
{
    if let Some(place) = keys_fault(alloc, &name, &table.columns, &table.keys)? {
        return Ok(Err(SqlFault::BadColumns(place)));
    }
    let all = push_keys(alloc, &table.columns, &table.keys, true, Vec::new(alloc))?;
    let all = push_keys(alloc, &table.columns, &table.keys, false, all)?;
    let columns = completed(alloc, &table.keys, &table.columns)?;
    Ok(Ok(Stmt::CreateTable(CreateTable {
        name,
        columns,
        keys: all,
    })))
}

/// What stands behind CREATE.
#[tactic(auto, unfolding(crate::specs::Inner::Tables::create_at))]
pub fn create_table<'t, 'a>(parser: Parser, tokens: Tokens<'t, 'a>) -> ReadWhole<'t, 'a>
    requires { length tokens.now < 2 ^ 32 }
    ensures { Gives (λ x. (seen stmt_of x.0, tok_views x.1.now)) result (create_at parser.text_len (tok_views tokens.now)) }
{
    let tokens = keyword(parser, Word::Table, tokens)?;
    let (name, rest) = name(parser, tokens)?;
    let (table, rest) = table_items(parser, open(parser, rest)?)?;
    let rest = close(parser, rest)?;
    Ok((finished(parser.alloc, name, &table)?, rest))
}
