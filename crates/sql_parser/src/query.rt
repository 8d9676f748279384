//! SELECT.

ghost use Rattle.std.specs.Prelude.{◌≡◌, ◌<◌, ◌≤◌, [], IfOk, IfSome, length, map, option_map};
ghost use Rattle.std.specs.List.{list_any, list_all};
ghost use Rattle.iso_lexer.specs.declared.sql_token.SqlSign.TheVariants as signs;
ghost use Rattle.sql_trees.specs.Statements.{name_of, stmt_of, item_of, order_of, select_of};
ghost use Rattle.sql_trees.specs.Tokens.{tok_view, tok_views};
ghost use Rattle.sql_expressions.specs.Results.{Gives};
ghost use Rattle.sql_expressions.specs.Readers.{is_sign, after, items_at, added};
ghost use Rattle.sql_expressions.specs.Reading.{agg_kind};
ghost use Rattle.sql_blocks.specs.Parts.{is_aggregate, is_allowed};
ghost use Rattle.sql_blocks.specs.Inner.Parts.{is_all, is_sorted};
ghost use Rattle.sql_parser.specs.Inner.Calls.{seen};
ghost use Rattle.sql_parser.specs.Inner.Pieces.{agg_item_at};
ghost use Rattle.sql_parser.specs.Inner.Queries.{call_at, counts_rows, maybe_name, direction_at, item_at, from_at, nulls_at, order_add, order_at, strength_at, lock_at, select_at};
ghost use Rattle.sql_parser.specs.Changes.{alias_at};
ghost use Rattle.sql_parser.specs.Queries.{policy_at};

use crate::change::{filter, unboxed};
use crate::list::{List, items};
use crate::part::{after_open, after_word, close, expr, keyword, name};
use iso_lexer::{At, Name, SqlSign};
use sql_expressions::{Parser, Tokens};
use sql_trees::{
    Agg, AggKind, Dir, Item, Lock, OrderKey, Policy, Select, SqlFault, Stmt, Strength, Tok, Word,
};

/// The items of a SELECT.
#[derive(Drop)]
pub struct ItemList<'a> {
    pub items: Vec<Item<'a>>,
}

/// The keys of an ORDER BY.
#[derive(Drop)]
pub struct OrderList<'a> {
    pub keys: Vec<OrderKey<'a>>,
}

fn agg_kind(tok: Tok) -> Option<AggKind>
    ensures { result ≡ agg_kind (tok_view tok.entry) }
{
    match tok {
        Tok::Word(Word::Count, _) => Some(AggKind::Count),
        Tok::Word(Word::Sum, _) => Some(AggKind::Sum),
        Tok::Word(Word::Min, _) => Some(AggKind::Min),
        Tok::Word(Word::Max, _) => Some(AggKind::Max),
        _ => None,
    }
}

/// The tokens behind a `*`, if it stands next.
pub fn after_star<'t, 'a>(tokens: Tokens<'t, 'a>) -> Option<Tokens<'t, 'a>>
    ensures exact { option_map (λ rest. tok_views rest.now) result ≡ after (is_sign signs.Star) (tok_views tokens.now) }
    ensures shorter { IfSome result (λ rest. length rest.now < length tokens.now) }
{
    match tokens {
        [
            At {
                tok: Tok::Sign(SqlSign::Star),
                ..
            },
            rest @ ..,
        ] => Some(rest),
        _ => None,
    }
}

// The aggregate that is called next, and the tokens behind its `(`.
fn call<'t, 'a>(tokens: Tokens<'t, 'a>) -> Option<(AggKind, Tokens<'t, 'a>)>
    ensures exact { option_map (λ x. (x.0, tok_views x.1.now)) result ≡ call_at (tok_views tokens.now) }
    ensures shorter { IfSome result (λ x. length x.1.now ≤ length tokens.now) }
{
    let [token, rest @ ..] = tokens else {
        return None
    };
    let kind = agg_kind(token.tok)?;
    let opened = after_open(rest)?;
    Some((kind, opened))
}

// The tokens behind the star of `count(*)`.
fn after_rows<'t, 'a>(kind: AggKind, tokens: Tokens<'t, 'a>) -> Option<Tokens<'t, 'a>>
    ensures exact { option_map (λ rest. tok_views rest.now) result ≡ counts_rows kind (tok_views tokens.now) }
    ensures shorter { IfSome result (λ rest. length rest.now < length tokens.now) }
{
    match kind {
        AggKind::Count => after_star(tokens),
        _ => None,
    }
}

// The name that stands next, if one does.
fn maybe_name<'t, 'a>(tokens: Tokens<'t, 'a>) -> (Option<Name<'a>>, Tokens<'t, 'a>)
    ensures exact { maybe_name (tok_views tokens.now) ≡ Ok (option_map name_of result.0, tok_views result.1.now) }
    ensures shorter { length result.1.now ≤ length tokens.now }
{
    let [token, rest @ ..] = tokens else {
        return (None, tokens);
    };
    match token.tok.name() {
        Some(name) => (Some(name), rest),
        None => (None, tokens),
    }
}

/// The name given to an item, with or without AS.
#[tactic(auto, unfolding(crate::specs::Changes::alias_at))]
pub fn alias<'t, 'a>(
    parser: Parser,
    tokens: Tokens<'t, 'a>,
) -> Result<(Option<Name<'a>>, Tokens<'t, 'a>), SqlFault>
    ensures exact { Gives (λ x. (option_map name_of x.0, tok_views x.1.now)) result (alias_at parser.text_len (tok_views tokens.now)) }
    ensures shorter { IfOk result (λ x. length x.1.now ≤ length tokens.now) }
{
    let Some(tokens) = after_word(Word::As, tokens) else {
        return Ok(maybe_name(tokens));
    };
    let (name, rest) = name(parser, tokens)?;
    Ok((Some(name), rest))
}

// The item of an aggregate, behind its `(`.
#[tactic(auto, unfolding(crate::specs::Inner::Queries::agg_at))]
fn agg_item<'t, 'a>(
    parser: Parser,
    kind: AggKind,
    tokens: Tokens<'t, 'a>,
) -> Result<(Item<'a>, Tokens<'t, 'a>), SqlFault>
    ensures exact { Gives (λ x. (item_of x.0, tok_views x.1.now)) result (agg_item_at parser.text_len kind (tok_views tokens.now)) }
    ensures shorter { IfOk result (λ x. length x.1.now ≤ length tokens.now) }
{
    if let Some(rest) = after_rows(kind, tokens) {
        let rest = close(parser, rest)?;
        let (alias, rest) = alias(parser, rest)?;
        return Ok((Item::Agg(Agg::CountRows, alias), rest));
    }
    let (argument, rest) = expr(parser, tokens)?;
    let rest = close(parser, rest)?;
    let (alias, rest) = alias(parser, rest)?;
    let agg = Agg::Of(kind, Box::into_inner(argument));
    Ok((Item::Agg(agg, alias), rest))
}

// An item of a SELECT.
#[tactic(auto, unfolding(crate::specs::Inner::Queries::item_at))]
fn item<'t, 'a>(
    parser: Parser,
    tokens: Tokens<'t, 'a>,
) -> Result<(Item<'a>, Tokens<'t, 'a>), SqlFault>
    ensures exact { Gives (λ x. (item_of x.0, tok_views x.1.now)) result (item_at parser.text_len (tok_views tokens.now)) }
    ensures shorter { IfOk result (λ x. length x.1.now ≤ length tokens.now) }
{
    if let Some(rest) = after_star(tokens) {
        return Ok((Item::All, rest));
    }
    if let Some((kind, opened)) = call(tokens) {
        return agg_item(parser, kind, opened);
    }
    let (value, rest) = expr(parser, tokens)?;
    let (alias, rest) = alias(parser, rest)?;
    Ok((Item::Expr(Box::into_inner(value), alias), rest))
}

impl<'a> List<'a> for ItemList<'a> {
    ghost adds = { λ last s ts r. Gives (λ x. (map item_of x.0.items.items, x.1)) r (added (item_at last) (map item_of s.items.items) ts) };

    fn add<'t>(
        &mut self,
        parser: Parser,
        tokens: Tokens<'t, 'a>,
    ) -> Result<Tokens<'t, 'a>, SqlFault> {
        let (item, rest) = item(parser, tokens)?;
        self.items.push(item)?;
        Ok(rest)
    }
}

// The items of a SELECT, with commas between them.
fn item_list<'t, 'a>(
    parser: Parser,
    tokens: Tokens<'t, 'a>,
) -> Result<(ItemList<'a>, Tokens<'t, 'a>), SqlFault>
    ensures exact { Gives (λ x. (map item_of x.0.items.items, tok_views x.1.now)) result (items_at (added (item_at parser.text_len)) [] (tok_views tokens.now)) }
    ensures shorter { IfOk result (λ x. length x.1.now ≤ length tokens.now) }
{
    let list = ItemList {
        items: Vec::new(parser.alloc),
    };
    items(parser, list, tokens)
}

// FROM and its table, if any.
#[tactic(auto, unfolding(crate::specs::Inner::Queries::from_at))]
fn from<'t, 'a>(
    parser: Parser,
    tokens: Tokens<'t, 'a>,
) -> Result<(Option<Name<'a>>, Tokens<'t, 'a>), SqlFault>
    ensures { Gives (λ x. (option_map name_of x.0, tok_views x.1.now)) result (from_at parser.text_len (tok_views tokens.now)) }
{
    let Some(tokens) = after_word(Word::From, tokens) else {
        return Ok((None, tokens));
    };
    let (table, rest) = name(parser, tokens)?;
    Ok((Some(table), rest))
}

// ASC, DESC or none of them: whether sorting goes down.
#[tactic(auto, unfolding(crate::specs::Inner::Queries::direction_at))]
fn direction<'t, 'a>(tokens: Tokens<'t, 'a>) -> (bool, Tokens<'t, 'a>)
    ensures exact { direction_at (tok_views tokens.now) ≡ Ok (result.0, tok_views result.1.now) }
    ensures shorter { length result.1.now ≤ length tokens.now }
{
    if let Some(rest) = after_word(Word::Asc, tokens) {
        return (false, rest);
    }
    match after_word(Word::Desc, tokens) {
        Some(rest) => (true, rest),
        None => (false, tokens),
    }
}

// NULLS FIRST or NULLS LAST; else NULL is sorted as the greatest value.
#[tactic(auto, unfolding(crate::specs::Inner::Queries::nulls_at))]
fn nulls<'t, 'a>(
    parser: Parser,
    desc: bool,
    tokens: Tokens<'t, 'a>,
) -> Result<(bool, Tokens<'t, 'a>), SqlFault>
    ensures exact { Gives (λ x. (x.0, tok_views x.1.now)) result (nulls_at parser.text_len desc (tok_views tokens.now)) }
    ensures shorter { IfOk result (λ x. length x.1.now ≤ length tokens.now) }
{
    let Some(tokens) = after_word(Word::Nulls, tokens) else {
        return Ok((desc, tokens));
    };
    if let Some(rest) = after_word(Word::First, tokens) {
        return Ok((true, rest));
    }
    let rest = keyword(parser, Word::Last, tokens)?;
    Ok((false, rest))
}

impl<'a> List<'a> for OrderList<'a> {
    ghost adds = { λ last s ts r. Gives (λ x. (map order_of x.0.keys.items, x.1)) r (order_add last (map order_of s.keys.items) ts) };

    #[tactic(auto, unfolding(crate::specs::Inner::Queries::order_add))]
    fn add<'t>(
        &mut self,
        parser: Parser,
        tokens: Tokens<'t, 'a>,
    ) -> Result<Tokens<'t, 'a>, SqlFault> {
        let (expr, rest) = expr(parser, tokens)?;
        let (desc, rest) = direction(rest);
        let (nulls_first, rest) = nulls(parser, desc, rest)?;
        let dir = Dir { desc, nulls_first };
        let expr = Box::into_inner(expr);
        self.keys.push(OrderKey { expr, dir })?;
        Ok(rest)
    }
}

// The keys of an ORDER BY, with commas between them.
fn order_list<'t, 'a>(
    parser: Parser,
    tokens: Tokens<'t, 'a>,
) -> Result<(OrderList<'a>, Tokens<'t, 'a>), SqlFault>
    ensures exact { Gives (λ x. (map order_of x.0.keys.items, tok_views x.1.now)) result (items_at (order_add parser.text_len) [] (tok_views tokens.now)) }
    ensures shorter { IfOk result (λ x. length x.1.now ≤ length tokens.now) }
{
    let list = OrderList {
        keys: Vec::new(parser.alloc),
    };
    items(parser, list, tokens)
}

// ORDER BY and its keys, if any.
#[tactic(auto, unfolding(crate::specs::Inner::Queries::order_at))]
fn order<'t, 'a>(
    parser: Parser,
    tokens: Tokens<'t, 'a>,
) -> Result<(Vec<OrderKey<'a>>, Tokens<'t, 'a>), SqlFault>
    ensures { Gives (λ x. (map order_of x.0.items, tok_views x.1.now)) result (order_at parser.text_len (tok_views tokens.now)) }
{
    let Some(tokens) = after_word(Word::Order, tokens) else {
        return Ok((Vec::new(parser.alloc), tokens));
    };
    let tokens = keyword(parser, Word::By, tokens)?;
    let (OrderList { keys }, rest) = order_list(parser, tokens)?;
    Ok((keys, rest))
}

// How strongly the rows are locked: UPDATE, NO KEY UPDATE, SHARE or KEY SHARE.
#[tactic(auto, unfolding(crate::specs::Inner::Queries::strength_at))]
fn strength<'t, 'a>(
    parser: Parser,
    tokens: Tokens<'t, 'a>,
) -> Result<(Strength, Tokens<'t, 'a>), SqlFault>
    ensures { Gives (λ x. (x.0, tok_views x.1.now)) result (strength_at parser.text_len (tok_views tokens.now)) }
{
    if let Some(rest) = after_word(Word::No, tokens) {
        let rest = keyword(parser, Word::Key, rest)?;
        let rest = keyword(parser, Word::Update, rest)?;
        return Ok((Strength::NoKeyUpdate, rest));
    }
    if let Some(rest) = after_word(Word::Key, tokens) {
        let rest = keyword(parser, Word::Share, rest)?;
        return Ok((Strength::KeyShare, rest));
    }
    if let Some(rest) = after_word(Word::Update, tokens) {
        return Ok((Strength::Update, rest));
    }
    let rest = keyword(parser, Word::Share, tokens)?;
    Ok((Strength::Share, rest))
}

// What is done at a row that others hold: NOWAIT, SKIP LOCKED, or it is waited for.
#[tactic(auto, unfolding(crate::specs::Queries::policy_at))]
fn policy<'t, 'a>(
    parser: Parser,
    tokens: Tokens<'t, 'a>,
) -> Result<(Policy, Tokens<'t, 'a>), SqlFault>
    ensures { Gives (λ x. (x.0, tok_views x.1.now)) result (policy_at parser.text_len (tok_views tokens.now)) }
{
    if let Some(rest) = after_word(Word::NoWait, tokens) {
        return Ok((Policy::NoWait, rest));
    }
    let Some(rest) = after_word(Word::Skip, tokens) else {
        return Ok((Policy::Wait, tokens));
    };
    let rest = keyword(parser, Word::Locked, rest)?;
    Ok((Policy::SkipLocked, rest))
}

// FOR with how the rows are locked, if any.
#[tactic(auto, unfolding(crate::specs::Inner::Queries::lock_at))]
fn lock<'t, 'a>(
    parser: Parser,
    tokens: Tokens<'t, 'a>,
) -> Result<(Option<Lock>, Tokens<'t, 'a>), SqlFault>
    ensures { Gives (λ x. (x.0, tok_views x.1.now)) result (lock_at parser.text_len (tok_views tokens.now)) }
{
    let Some(tokens) = after_word(Word::For, tokens) else {
        return Ok((None, tokens));
    };
    let (strength, rest) = strength(parser, tokens)?;
    let (policy, rest) = policy(parser, rest)?;
    Ok((Some(Lock { strength, policy }), rest))
}

fn is_aggregate(item: &Item) -> bool
    ensures { result ≡ is_aggregate (item_of item.now) }
{
    matches!(item, Item::Agg(..))
}

fn is_all(item: &Item) -> bool
    ensures { result ≡ is_all (item_of item.now) }
{
    matches!(item, Item::All)
}

fn some_aggregate(mut items: &[Item]) -> bool
    ensures { result ≡ list_any is_aggregate (map item_of items.entry.now) }
{
    while let [item, rest @ ..] = items {
        if is_aggregate(item) {
            return true;
        }
        items = rest;
    }
    false
}

fn all_aggregates(mut items: &[Item]) -> bool
    ensures { result ≡ list_all is_aggregate (map item_of items.entry.now) }
{
    while let [item, rest @ ..] = items {
        if !is_aggregate(item) {
            return false;
        }
        items = rest;
    }
    true
}

fn some_star(mut items: &[Item]) -> bool
    ensures { result ≡ list_any is_all (map item_of items.entry.now) }
{
    while let [item, rest @ ..] = items {
        if is_all(item) {
            return true;
        }
        items = rest;
    }
    false
}

fn is_sorted(keys: &[OrderKey]) -> bool
    ensures { result ≡ is_sorted (map order_of keys.now) }
{
    !keys.is_empty()
}

// Whether aggregates stand alone, and a star and a lock have a table.
fn is_allowed(select: &Select) -> bool
    ensures { result ≡ is_allowed (select_of select.now) }
{
    let locks = select.lock.is_some();
    let plain = !some_aggregate(&select.items);
    let grouped = all_aggregates(&select.items) && !(is_sorted(&select.order) || locks);
    let needs_table = some_star(&select.items) || locks;
    (plain || grouped) && (select.table.is_some() || !needs_table)
}

/// What stands behind a SELECT at this place.
#[tactic(auto, unfolding(crate::specs::Inner::Queries::select_at))]
pub fn select<'t, 'a>(
    parser: Parser,
    place: usize,
    tokens: Tokens<'t, 'a>,
) -> Result<(Result<Stmt<'a>, SqlFault>, Tokens<'t, 'a>), SqlFault>
    ensures { Gives (λ x. (seen stmt_of x.0, tok_views x.1.now)) result (select_at parser.text_len place (tok_views tokens.now)) }
{
    let (ItemList { items }, rest) = item_list(parser, tokens)?;
    let (table, rest) = from(parser, rest)?;
    let (filter, rest) = filter(parser, rest)?;
    let (order, rest) = order(parser, rest)?;
    let (lock, rest) = lock(parser, rest)?;
    let filter = unboxed(filter);
    let select = Select {
        items,
        table,
        filter,
        order,
        lock,
    };
    if is_allowed(&select) {
        Ok((Ok(Stmt::Select(select)), rest))
    } else {
        Ok((Err(SqlFault::LeftOut(place)), rest))
    }
}
