//! The tables that a file makes.

ghost use Rattle.std.specs.Prelude.{◌≡◌, ◌++◌, true, false, IfOk, MatchOption, OnOk, flat_map, map, string_bytes};
ghost use Rattle.std.specs.Str.{is_utf8};
ghost use Rattle.sql_blocks.specs.Blocks.{blocks_of};
ghost use Rattle.sql_trees.specs.Statements.{name_of, stmt_of};
ghost use Rattle.spec_parser.specs.Trees.{spec_view};
ghost use Rattle.outcome_counts.specs.Tables.{as_text, made_by, tables_made};

use crate::standing::stmts_at;
use iso_lexer::Name;
use spec_parser::Spec;
use sql_blocks::Block;
use sql_trees::Stmt;
use std::alloc::{AllocError, Global};

/// The bytes as a text, where they are UTF-8.
fn text_of(bytes: Vec<u8>) -> Option<String>
    ensures { MatchOption result (is_utf8 bytes.items ≡ false) (λ text. (is_utf8 bytes.items ≡ true) × (string_bytes text ≡ bytes.items)) }
{
    match String::from_utf8(bytes) {
        Ok(text) => Some(text),
        Err(_) => None,
    }
}

/// What a name stands for.
pub fn written(alloc: Global, name: &Name<'_>) -> Result<String, AllocError>
    ensures { IfOk result (λ text. string_bytes text ≡ as_text (name_of name.now)) }
{
    match text_of(name.push_to(alloc, Vec::new(alloc))?) {
        Some(text) => Ok(text),
        None => Ok(String::new(alloc)),
    }
}

/// Adds the names of the tables that these statements make.
fn push_made(alloc: Global, names: &mut Vec<String>, stmts: &[Stmt<'_>]) -> Result<(), AllocError>
    ensures { OnOk result (map string_bytes names.new.items ≡ map string_bytes names.old.items ++ flat_map made_by (map stmt_of stmts.now)) }
{
    for stmt in stmts {
        if let Stmt::CreateTable(made) = stmt {
            names.push(written(alloc, &made.name)?)?;
        }
    }
    Ok(())
}

/// The names of the tables that the setups of the file make.
pub fn tables_made(
    alloc: Global,
    spec: &Spec<'_>,
    blocks: &[Block<'_>],
) -> Result<Vec<String>, AllocError>
    ensures { IfOk result (λ names. map string_bytes names.items ≡ tables_made (spec_view spec.now) (blocks_of blocks.now)) }
{
    let mut names = Vec::new(alloc);
    for part in &spec.setups {
        push_made(alloc, &mut names, stmts_at(blocks, part.block))?;
    }
    Ok(names)
}
