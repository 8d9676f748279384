//! BEGIN, START TRANSACTION and SET.

ghost use Rattle.std.specs.Prelude.{◌≡◌, option_map};
ghost use Rattle.sql_trees.specs.Tokens.{tok_view, tok_views};
ghost use Rattle.sql_trees.specs.Statements.{stmt_of};
ghost use Rattle.sql_expressions.specs.Results.{Gives};
ghost use Rattle.sql_expressions.specs.Readers.{expect};
ghost use Rattle.sql_parser.specs.Inner.Parts.{past};
ghost use Rattle.sql_parser.specs.Transactions.{is_work};
ghost use Rattle.sql_parser.specs.Grammar.{is_scope, is_to, is_setting};
ghost use Rattle.sql_parser.specs.Inner.Transactions.{level_at, begin_at, start_at, parameter_at, set_at};

use crate::part::{after_word, is_word, keyword, misplaced_word};
use iso_lexer::SqlSign;
use sql_expressions::{Parser, Tokens};
use sql_trees::{Level, SqlFault, Stmt, Tok, Word};

/// What reading a statement answers: the statement, and the tokens behind it.
pub type ReadStmt<'t, 'a> = Result<(Stmt<'a>, Tokens<'t, 'a>), SqlFault>;

/// The tokens without a WORK or TRANSACTION that stands next.
pub fn past_work<'t, 'a>(tokens: Tokens<'t, 'a>) -> Tokens<'t, 'a>
    ensures { tok_views result.now ≡ past is_work (tok_views tokens.now) }
{
    match tokens {
        [token, rest @ ..]
            if is_word(token.tok, Word::Work) || is_word(token.tok, Word::Transaction) => rest,
        _ => tokens,
    }
}

// The tokens without a SESSION or LOCAL that stands next.
fn past_scope<'t, 'a>(tokens: Tokens<'t, 'a>) -> Tokens<'t, 'a>
    ensures { tok_views result.now ≡ past is_scope (tok_views tokens.now) }
{
    match tokens {
        [token, rest @ ..]
            if is_word(token.tok, Word::Session) || is_word(token.tok, Word::Local) => rest,
        _ => tokens,
    }
}

// What stands behind ISOLATION: LEVEL and a level.
#[tactic(auto, unfolding(crate::specs::Inner::Transactions::level_at))]
fn level<'t, 'a>(
    parser: Parser,
    tokens: Tokens<'t, 'a>,
) -> Result<(Level, Tokens<'t, 'a>), SqlFault>
    ensures { Gives (λ x. (x.0, tok_views x.1.now)) result (level_at parser.text_len (tok_views tokens.now)) }
{
    let tokens = keyword(parser, Word::Level, tokens)?;
    let Some(read) = after_word(Word::Read, tokens) else {
        let tokens = keyword(parser, Word::Repeatable, tokens)?;
        let rest = keyword(parser, Word::Read, tokens)?;
        return Ok((Level::RepeatableRead, rest));
    };
    if let Some(rest) = after_word(Word::Committed, read) {
        return Ok((Level::ReadCommitted, rest));
    }
    let rest = keyword(parser, Word::Uncommitted, read)?;
    Ok((Level::ReadCommitted, rest))
}

/// What stands behind BEGIN and WORK or TRANSACTION.
#[tactic(auto, unfolding(crate::specs::Inner::Transactions::begin_at))]
pub fn begin<'t, 'a>(parser: Parser, tokens: Tokens<'t, 'a>) -> ReadStmt<'t, 'a>
    ensures { Gives (λ x. (stmt_of x.0, tok_views x.1.now)) result (begin_at parser.text_len (tok_views tokens.now)) }
{
    let Some(isolation) = after_word(Word::Isolation, tokens) else {
        return Ok((Stmt::Begin(None), tokens));
    };
    let (level, rest) = level(parser, isolation)?;
    Ok((Stmt::Begin(Some(level)), rest))
}

/// What stands behind START.
#[tactic(auto, unfolding(crate::specs::Inner::Transactions::start_at))]
pub fn start<'t, 'a>(parser: Parser, tokens: Tokens<'t, 'a>) -> ReadStmt<'t, 'a>
    ensures { Gives (λ x. (stmt_of x.0, tok_views x.1.now)) result (start_at parser.text_len (tok_views tokens.now)) }
{
    let tokens = keyword(parser, Word::Transaction, tokens)?;
    begin(parser, tokens)
}

fn is_to(tok: Tok) -> bool
    ensures { result ≡ is_to (tok_view tok.entry) }
{
    match tok {
        Tok::Sign(SqlSign::Equal) => true,
        tok => is_word(tok, Word::To),
    }
}

fn is_setting(tok: Tok) -> bool
    ensures { result ≡ is_setting (tok_view tok.entry) }
{
    matches!(tok, Tok::Number(_) | Tok::Text(_))
}

// The tokens behind `=` or TO, and behind a number or string.
fn to<'t, 'a>(parser: Parser, tokens: Tokens<'t, 'a>) -> Result<Tokens<'t, 'a>, SqlFault>
    ensures { Gives (λ rest. tok_views rest.now) result (expect parser.text_len is_to (tok_views tokens.now)) }
{
    match tokens {
        [token, rest @ ..] if is_to(token.tok) => Ok(rest),
        _ => Err(parser.misplaced(tokens)),
    }
}

fn setting<'t, 'a>(parser: Parser, tokens: Tokens<'t, 'a>) -> Result<Tokens<'t, 'a>, SqlFault>
    ensures { Gives (λ rest. tok_views rest.now) result (expect parser.text_len is_setting (tok_views tokens.now)) }
{
    match tokens {
        [token, rest @ ..] if is_setting(token.tok) => Ok(rest),
        _ => Err(parser.misplaced(tokens)),
    }
}

// A parameter and its value.
#[tactic(auto, unfolding(crate::specs::Inner::Transactions::parameter_at))]
fn parameter<'t, 'a>(parser: Parser, tokens: Tokens<'t, 'a>) -> ReadStmt<'t, 'a>
    ensures { Gives (λ x. (stmt_of x.0, tok_views x.1.now)) result (parameter_at parser.text_len (tok_views tokens.now)) }
{
    let Some(tokens) = after_word(Word::DeadlockTimeout, tokens) else {
        return Err(misplaced_word(parser, tokens));
    };
    let tokens = to(parser, tokens)?;
    let rest = setting(parser, tokens)?;
    Ok((Stmt::SetDeadlockTimeout, rest))
}

/// What stands behind SET.
#[tactic(auto, unfolding(crate::specs::Inner::Transactions::set_at))]
pub fn set<'t, 'a>(parser: Parser, tokens: Tokens<'t, 'a>) -> ReadStmt<'t, 'a>
    ensures { Gives (λ x. (stmt_of x.0, tok_views x.1.now)) result (set_at parser.text_len (tok_views tokens.now)) }
{
    let Some(transaction) = after_word(Word::Transaction, tokens) else {
        return parameter(parser, past_scope(tokens));
    };
    let isolation = keyword(parser, Word::Isolation, transaction)?;
    let (level, rest) = level(parser, isolation)?;
    Ok((Stmt::SetTransaction(level), rest))
}
