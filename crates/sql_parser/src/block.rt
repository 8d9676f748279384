//! Blocks of statements.

ghost use Rattle.std.specs.Prelude.{◌≡◌, ◌<◌, ◌≤◌, ◌^◌, [], Ok, IfOk, length, map, IfSome, vec_len, option_map};
ghost use Rattle.iso_lexer.specs.declared.limits.TheConstants.{MAX_STMTS};
ghost use Rattle.iso_lexer.specs.declared.sql_token.SqlSign.TheVariants as signs;
ghost use Rattle.sql_trees.specs.Statements.{stmt_of};
ghost use Rattle.sql_trees.specs.Tokens.{tok_view, tok_views};
ghost use Rattle.sql_expressions.specs.Readers.{is_sign};
ghost use Rattle.sql_expressions.specs.Results.{Gives};
ghost use Rattle.sql_parser.specs.Inner.Calls.{seen};
ghost use Rattle.sql_parser.specs.Texts.{Parses};
ghost use Rattle.sql_parser.specs.Inner.Blocks.{at_end, whole_at, piece_at, block_at};
ghost use Rattle.sql_parser.specs.Inner.Pieces.{piece_len, SplitsAs};

use crate::statement::stmt;
use iso_lexer::{LexFault, SqlSign, sql_tokens};
use sql_blocks::{Block, MAX_STMTS, Role};
use sql_expressions::{Parser, Tokens};
use sql_trees::{SqlFault, Stmt, Tok, classified};
use std::alloc::Global;

fn is_semicolon(tok: Tok) -> bool
    ensures { result ≡ is_sign signs.Semicolon (tok_view tok.entry) }
{
    matches!(tok, Tok::Sign(SqlSign::Semicolon))
}

// How many tokens stand before the next `;`.
fn piece_len(mut tokens: Tokens) -> usize
    ensures exact { result ≡ piece_len (tok_views tokens.entry.now) }
    ensures within { result ≤ length tokens.entry.now }
{
    let mut n = 0;
    while let [token, rest @ ..] = tokens {
        if is_semicolon(token.tok) {
            return n;
        }
        n += 1;
        tokens = rest;
    }
    n
}

// The tokens before the next `;`, its place, and the tokens behind it.
fn next_piece<'t, 'a>(tokens: Tokens<'t, 'a>) -> Option<(Tokens<'t, 'a>, usize, Tokens<'t, 'a>)>
    ensures splits { SplitsAs (tok_views tokens.now) (option_map (λ x. (tok_views x.0.now, x.1, tok_views x.2.now)) result) }
    ensures shorter { IfSome result (λ x. (length x.0.now ≤ length tokens.now) × (length x.2.now < length tokens.now)) }
{
    let n = piece_len(tokens);
    let (piece, marked) = tokens.split_at(n);
    let Some((mark, behind)) = marked.split_first() else {
        return None;
    };
    Some((piece, mark.span.start, behind))
}

// Nothing, or the fault at the first token where one is left.
fn all_read(parser: Parser, tokens: Tokens) -> Result<(), SqlFault>
    ensures { result ≡ at_end parser.text_len (Ok tt) (tok_views tokens.now) }
{
    if tokens.is_empty() {
        Ok(())
    } else {
        Err(parser.misplaced(tokens))
    }
}

// A statement behind which nothing stands, and of which all holds that has to hold of the whole.
#[tactic(auto, unfolding(crate::specs::Inner::Blocks::whole_at))]
fn whole_stmt<'a>(parser: Parser, role: Role, piece: Tokens<'_, 'a>) -> Result<Stmt<'a>, SqlFault>
    requires { length piece.now < 2 ^ 32 }
    ensures { Gives stmt_of result (whole_at parser.text_len role (tok_views piece.now)) }
{
    let (answer, rest) = stmt(parser, role, piece)?;
    all_read(parser, rest).and(answer)
}

// The statements with the one of this piece, if it has one.
#[tactic(auto, unfolding(crate::specs::Inner::Blocks::piece_at))]
fn with_piece<'a>(
    parser: Parser,
    role: Role,
    mut stmts: Vec<Stmt<'a>>,
    piece: Tokens<'_, 'a>,
) -> Result<Vec<Stmt<'a>>, SqlFault>
    requires { length piece.now < 2 ^ 32 }
    ensures exact { Gives (λ v. map stmt_of v.items) result (piece_at parser.text_len role (map stmt_of stmts.entry.items) (tok_views piece.now)) }
    ensures few { vec_len stmts.entry ≤ MAX_STMTS → IfOk result (λ v. vec_len v ≤ MAX_STMTS) }
{
    let [token, ..] = piece else { return Ok(stmts) };
    if stmts.len() >= MAX_STMTS {
        return Err(SqlFault::TooMany(token.span.start));
    }
    stmts.push(whole_stmt(parser, role, piece)?)?;
    Ok(stmts)
}

// No statement yet, and all tokens.
fn nothing_read<'t, 'a>(parser: Parser, tokens: Tokens<'t, 'a>) -> (Vec<Stmt<'a>>, Tokens<'t, 'a>)
    ensures none { result.0.items ≡ [] }
    ensures len { vec_len result.0 ≡ 0 }
    ensures all { result.1.now ≡ tokens.now }
{
    (Vec::new(parser.alloc), tokens)
}

// The statements of the block of these tokens of a text.
fn read_stmts<'a>(
    parser: Parser,
    role: Role,
    tokens: Tokens<'_, 'a>,
) -> Result<Vec<Stmt<'a>>, SqlFault>
    requires { length tokens.now < 2 ^ 32 }
    ensures exact { Gives (λ v. map stmt_of v.items) result (block_at parser.text_len role (tok_views tokens.now)) }
    ensures few { IfOk result (λ v. vec_len v ≤ MAX_STMTS) }
{
    let (mut stmts, mut rest) = nothing_read(parser, tokens);
    while let Some((piece, place, behind)) = next_piece(rest) {
        let here = Parser {
            alloc: parser.alloc,
            text_len: place,
        };
        stmts = with_piece(here, role, stmts, piece)?;
        rest = behind;
    }
    with_piece(parser, role, stmts, rest)
}

// The block of these tokens of a text.
fn parse_tokens<'a>(
    parser: Parser,
    role: Role,
    tokens: Tokens<'_, 'a>,
) -> Result<Block<'a>, SqlFault>
    requires { length tokens.now < 2 ^ 32 }
    ensures exact { Gives (λ b. map stmt_of b.stmts) result (block_at parser.text_len role (tok_views tokens.now)) }
    ensures role { IfOk result (λ b. b.role ≡ role) }
{
    let stmts = read_stmts(parser, role, tokens)?;
    Ok(Block::new(role, stmts))
}

/// The block that this text is, or its first fault: faults of the text's tokens come before all others.
pub fn parse_block<'a>(alloc: Global, text: &'a str, role: Role) -> Result<Block<'a>, SqlFault>
    requires { length text.now < 2 ^ 32 }
    ensures exact { Parses text.now role (seen (λ b. map stmt_of b.stmts) result) }
    ensures role { IfOk result (λ b. b.role ≡ role) }
{
    let lexed = match sql_tokens(alloc, text) {
        Ok(lexed) => lexed,
        Err(LexFault::Memory) => return Err(SqlFault::Memory),
        Err(LexFault::Fault(fault)) => return Err(SqlFault::Lex(fault)),
    };
    let tokens = classified(alloc, &lexed)?;
    let text_len = text.len();
    parse_tokens(Parser { alloc, text_len }, role, &tokens)
}
