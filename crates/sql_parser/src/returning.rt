//! ON CONFLICT DO NOTHING, and RETURNING.

ghost use Rattle.std.specs.Prelude.{◌≡◌, ◌≤◌, [], IfOk, length, map, option_map};
ghost use Rattle.sql_trees.specs.Statements.{item_of, items_of};
ghost use Rattle.sql_trees.specs.Tokens.{tok_views};
ghost use Rattle.sql_expressions.specs.Results.{Gives};
ghost use Rattle.sql_expressions.specs.Readers.{items_at, added};
ghost use Rattle.sql_parser.specs.Changes.{conflict_at, returned_at};
ghost use Rattle.sql_parser.specs.Inner.Changes.{do_at, nothing_at, returning_at};

use crate::list::{List, items};
use crate::part::{after_open, after_word, expr, keyword};
use crate::query::{after_star, alias};
use sql_expressions::{Parser, Tokens};
use sql_trees::{Item, SqlFault, Word};

/// The items of RETURNING.
#[derive(Drop)]
pub struct ReturnedList<'a> {
    pub items: Vec<Item<'a>>,
}

// The tokens behind a DO, which has to stand next; a `(`, which begins a conflict's target, is left out.
fn behind_do<'t, 'a>(parser: Parser, tokens: Tokens<'t, 'a>) -> Result<Tokens<'t, 'a>, SqlFault>
    ensures { Gives (λ rest. tok_views rest.now) result (do_at parser.text_len (tok_views tokens.now)) }
{
    if after_open(tokens).is_some() {
        return Err(SqlFault::LeftOut(parser.place_of(tokens)));
    }
    keyword(parser, Word::Do, tokens)
}

// The tokens behind a NOTHING, which has to stand next; UPDATE is left out.
fn behind_nothing<'t, 'a>(
    parser: Parser,
    tokens: Tokens<'t, 'a>,
) -> Result<Tokens<'t, 'a>, SqlFault>
    ensures { Gives (λ rest. tok_views rest.now) result (nothing_at parser.text_len (tok_views tokens.now)) }
{
    if after_word(Word::Update, tokens).is_some() {
        return Err(SqlFault::LeftOut(parser.place_of(tokens)));
    }
    keyword(parser, Word::Nothing, tokens)
}

/// ON CONFLICT DO NOTHING, or nothing.
#[tactic(auto, unfolding(crate::specs::Changes::conflict_at))]
pub fn conflict<'t, 'a>(
    parser: Parser,
    tokens: Tokens<'t, 'a>,
) -> Result<(bool, Tokens<'t, 'a>), SqlFault>
    ensures { Gives (λ x. (x.0, tok_views x.1.now)) result (conflict_at parser.text_len (tok_views tokens.now)) }
{
    let Some(tokens) = after_word(Word::On, tokens) else {
        return Ok((false, tokens));
    };
    let rest = keyword(parser, Word::Conflict, tokens)?;
    let rest = behind_do(parser, rest)?;
    let rest = behind_nothing(parser, rest)?;
    Ok((true, rest))
}

// An item of RETURNING.
#[tactic(auto, unfolding(crate::specs::Changes::returned_at))]
fn returned<'t, 'a>(
    parser: Parser,
    tokens: Tokens<'t, 'a>,
) -> Result<(Item<'a>, Tokens<'t, 'a>), SqlFault>
    ensures exact { Gives (λ x. (item_of x.0, tok_views x.1.now)) result (returned_at parser.text_len (tok_views tokens.now)) }
    ensures shorter { IfOk result (λ x. length x.1.now ≤ length tokens.now) }
{
    if let Some(rest) = after_star(tokens) {
        return Ok((Item::All, rest));
    }
    let (value, rest) = expr(parser, tokens)?;
    let (alias, rest) = alias(parser, rest)?;
    Ok((Item::Expr(Box::into_inner(value), alias), rest))
}

impl<'a> List<'a> for ReturnedList<'a> {
    ghost adds = { λ last s ts r. Gives (λ x. (map item_of x.0.items.items, x.1)) r (added (returned_at last) (map item_of s.items.items) ts) };

    fn add<'t>(
        &mut self,
        parser: Parser,
        tokens: Tokens<'t, 'a>,
    ) -> Result<Tokens<'t, 'a>, SqlFault> {
        let (item, rest) = returned(parser, tokens)?;
        self.items.push(item)?;
        Ok(rest)
    }
}

// The items of RETURNING, with commas between them.
fn returned_list<'t, 'a>(
    parser: Parser,
    tokens: Tokens<'t, 'a>,
) -> Result<(ReturnedList<'a>, Tokens<'t, 'a>), SqlFault>
    ensures exact { Gives (λ x. (map item_of x.0.items.items, tok_views x.1.now)) result (items_at (added (returned_at parser.text_len)) [] (tok_views tokens.now)) }
    ensures shorter { IfOk result (λ x. length x.1.now ≤ length tokens.now) }
{
    let list = ReturnedList {
        items: Vec::new(parser.alloc),
    };
    items(parser, list, tokens)
}

/// RETURNING and its items, if any.
#[tactic(auto, unfolding(crate::specs::Inner::Changes::returning_at))]
pub fn returning<'t, 'a>(
    parser: Parser,
    tokens: Tokens<'t, 'a>,
) -> Result<(Option<Vec<Item<'a>>>, Tokens<'t, 'a>), SqlFault>
    ensures { Gives (λ x. (option_map items_of x.0, tok_views x.1.now)) result (returning_at parser.text_len (tok_views tokens.now)) }
{
    let Some(tokens) = after_word(Word::Returning, tokens) else {
        return Ok((None, tokens));
    };
    let (ReturnedList { items }, rest) = returned_list(parser, tokens)?;
    Ok((Some(items), rest))
}
