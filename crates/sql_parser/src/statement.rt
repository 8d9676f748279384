//! Statements, by their first word.

ghost use Rattle.std.specs.Prelude.{◌≡◌, ◌<◌, ◌^◌, length};
ghost use Rattle.sql_trees.specs.Statements.{stmt_of};
ghost use Rattle.sql_trees.specs.Tokens.{tok_view, tok_views};
ghost use Rattle.sql_expressions.specs.Results.{Gives};
ghost use Rattle.sql_parser.specs.Inner.Calls.{seen};
ghost use Rattle.sql_parser.specs.Grammar.{is_ddl};
ghost use Rattle.sql_parser.specs.Inner.Blocks.{stmt_at};
ghost use Rattle.sql_parser.specs.Inner.Pieces.{simple_at, begun_at};

use crate::change::{delete, insert, update};
use crate::query::select;
use crate::table::drop_table;
use crate::table_keys::create_table;
use crate::transaction::{ReadStmt, begin, past_work, set, start};
use sql_blocks::Role;
use sql_expressions::{Parser, Tokens};
use sql_trees::{SqlFault, Stmt, Tok, Word};

/// What reading a whole statement answers: the statement, or what is wrong with the whole, and the tokens behind it.
pub type ReadWhole<'t, 'a> = Result<(Result<Stmt<'a>, SqlFault>, Tokens<'t, 'a>), SqlFault>;

fn is_ddl(tok: Tok) -> bool
    ensures { result ≡ is_ddl (tok_view tok.entry) }
{
    matches!(tok, Tok::Word(Word::Create | Word::Drop, _))
}

// A statement of which nothing has to hold as a whole, by its first token.
#[tactic(auto, unfolding(crate::specs::Inner::Blocks::simple_of))]
fn simple<'t, 'a>(parser: Parser, tokens: Tokens<'t, 'a>) -> ReadStmt<'t, 'a>
    ensures { Gives (λ x. (stmt_of x.0, tok_views x.1.now)) result (simple_at parser.text_len (tok_views tokens.now)) }
{
    let [token, rest @ ..] = tokens else {
        return Err(parser.misplaced(tokens));
    };
    match token.tok {
        Tok::Word(Word::Begin, _) => begin(parser, past_work(rest)),
        Tok::Word(Word::Start, _) => start(parser, rest),
        Tok::Word(Word::Commit | Word::End, _) => Ok((Stmt::Commit, past_work(rest))),
        Tok::Word(Word::Rollback | Word::Abort, _) => Ok((Stmt::Rollback, past_work(rest))),
        Tok::Word(Word::Set, _) => set(parser, rest),
        Tok::Word(Word::Drop, _) => drop_table(parser, rest),
        Tok::Word(Word::Insert, _) => insert(parser, rest),
        Tok::Word(Word::Update, _) => update(parser, rest),
        Tok::Word(Word::Delete, _) => delete(parser, rest),
        _ => Err(parser.misplaced(tokens)),
    }
}

// A statement by its first token, or what is wrong with the whole of it.
fn begun<'t, 'a>(parser: Parser, tokens: Tokens<'t, 'a>) -> ReadWhole<'t, 'a>
    requires { length tokens.now < 2 ^ 32 }
    ensures { Gives (λ x. (seen stmt_of x.0, tok_views x.1.now)) result (begun_at parser.text_len (tok_views tokens.now)) }
{
    let [token, rest @ ..] = tokens else {
        return Err(parser.misplaced(tokens));
    };
    match token.tok {
        Tok::Word(Word::Create, _) => create_table(parser, rest),
        Tok::Word(Word::Select, _) => select(parser, token.span.start, rest),
        _ => {
            let (stmt, rest) = simple(parser, tokens)?;
            Ok((Ok(stmt), rest))
        }
    }
}

/// A statement. A session's block makes and drops no table.
#[tactic(auto, unfolding(crate::specs::Inner::Blocks::stmt_at))]
pub fn stmt<'t, 'a>(parser: Parser, role: Role, tokens: Tokens<'t, 'a>) -> ReadWhole<'t, 'a>
    requires { length tokens.now < 2 ^ 32 }
    ensures { Gives (λ x. (seen stmt_of x.0, tok_views x.1.now)) result (stmt_at parser.text_len role (tok_views tokens.now)) }
{
    let [token, ..] = tokens else {
        return Err(parser.misplaced(tokens));
    };
    match role {
        Role::Session if is_ddl(token.tok) => Err(SqlFault::DdlInSession(token.span.start)),
        _ => begun(parser, tokens),
    }
}
