//! Expressions, read from left to right by a function for each level.

ghost use Rattle.std.specs.Prelude.{ℕ, ◌≡◌, ◌+◌, [], ◌<◌, ◌++◌, IfOk, option_map, length};
ghost use Rattle.iso_lexer.specs.declared.limits.TheConstants.{MAX_DEPTH};
ghost use Rattle.sql_expressions.specs.declared.level.Opened.TheVariants.{Whole};
ghost use Rattle.sql_trees.specs.Tokens.{Tokens, tok_view, tok_views, tok_at};
ghost use Rattle.sql_trees.specs.Trees.{Tree, tree_of, trees};
ghost use Rattle.sql_expressions.specs.Build.{negated};
ghost use Rattle.sql_expressions.specs.Grammar.{Begins, Ends, Spells, OR};
ghost use Rattle.sql_expressions.specs.Results.{Gives};
ghost use Rattle.sql_expressions.specs.Readers.{expect};
ghost use Rattle.sql_expressions.specs.Reading.{Part, part_of, operators, comparison_op, expr_at};
ghost use Rattle.sql_expressions.specs.Inner.Pieces.{found, Found_op, Found_list, found_list, found_bounds, range_node, made, node, membership_of, atom_at, closed_at, prefixed_at, list_open_at, contains_at, upper_at, not_among_at, among_at, compared_at, is_and, deeper, join, next_op, column_first, una_at, chain_at, operand_at, in_at, between_at, inn_at, truth_test, after_is, maybe_is, is_at, not_at, inside, list_at};

use crate::cursor::{Parser, Tokens, after_comma};
use crate::level::{Chain, Membership, Opened, Prefix};
use crate::operator::{comparison, is_call, is_not, prefix, truth_of};
use crate::parsed::Parsed;
use iso_lexer::{At, MAX_DEPTH, SqlSign};
use sql_trees::{Expr, Operator, SqlFault, Tok, Truth, Word};
use std::alloc::Global;

/// What a level reads: an expression, and the tokens after it.
pub type Read<'t, 'a> = Result<(Parsed<'a>, Tokens<'t, 'a>), SqlFault>;

// One more than the depth of the deepest part, for the node that the token at this place makes.
fn deeper(place: usize, depth: usize) -> Result<usize, SqlFault>
    ensures { Gives (λ d. d) result (deeper place depth) }
{
    if depth < MAX_DEPTH {
        Ok(depth + 1)
    } else {
        Err(SqlFault::TooDeep(place))
    }
}

impl Parser {
    // An expression of this depth.
    fn made<'t, 'a>(self, depth: usize, expr: Expr<'a>, rest: Tokens<'t, 'a>) -> Read<'t, 'a>
        ensures { Gives (λ x. found x.0 x.1.now) result (made depth (tree_of expr.entry) (tok_views rest.now)) }
    {
        let expr = Box::new(self.alloc, expr)?;
        Ok((Parsed { expr, depth }, rest))
    }

    // The node that the token at this place makes, over parts of which the deepest has this depth.
    fn node<'t, 'a>(
        self,
        place: usize,
        depth: usize,
        expr: Expr<'a>,
        rest: Tokens<'t, 'a>,
    ) -> Read<'t, 'a>
        ensures exact { Gives (λ x. found x.0 x.1.now) result (node place depth (tree_of expr.entry) (tok_views rest.now)) }
        ensures deeper { IfOk result (λ x. x.0.depth ≡ depth + 1) }
    {
        let depth = deeper(place, depth)?;
        self.made(depth, expr, rest)
    }

    // The tokens behind an `AND`, which has to stand next.
    fn and<'t, 'a>(self, tokens: Tokens<'t, 'a>) -> Result<Tokens<'t, 'a>, SqlFault>
        ensures { Gives (λ rest. tok_views rest.now) result (expect self.text_len is_and (tok_views tokens.now)) }
    {
        match tokens {
            [
                At {
                    tok: Tok::Word(Word::And, _),
                    ..
                },
                rest @ ..,
            ] => Ok(rest),
            _ => Err(self.misplaced(tokens)),
        }
    }

    // The column that the first token names, with no call behind it.
    fn column<'t, 'a>(self, tokens: Tokens<'t, 'a>) -> Read<'t, 'a>
        ensures { Gives (λ x. found x.0 x.1.now) result (column_first self.text_len (tok_views tokens.now)) }
    {
        let [token, rest @ ..] = tokens else {
            return Err(self.misplaced(tokens));
        };
        let Some(name) = token.tok.name() else {
            return Err(self.misplaced(tokens));
        };
        match rest {
            [
                At {
                    tok: Tok::Sign(SqlSign::Open),
                    span,
                },
                ..
            ] => Err(SqlFault::LeftOut(if is_call(token.tok) {
                token.span.start
            } else {
                span.start
            })),
            _ => self.made(0, Expr::Column(name), rest),
        }
    }

    // A literal, or a column.
    fn atom<'t, 'a>(self, tokens: Tokens<'t, 'a>) -> Read<'t, 'a>
        ensures { Gives (λ x. found x.0 x.1.now) result (atom_at self.text_len (tok_views tokens.now)) }
    {
        let [token, rest @ ..] = tokens else {
            return Err(self.misplaced(tokens));
        };
        match token.tok {
            Tok::Number(digits) => self.made(
                0,
                Expr::Number {
                    negative: false,
                    digits,
                },
                rest,
            ),
            Tok::Text(text) => self.made(0, Expr::Text(text), rest),
            Tok::Word(Word::True, _) => self.made(0, Expr::Bool(true), rest),
            Tok::Word(Word::False, _) => self.made(0, Expr::Bool(false), rest),
            Tok::Word(Word::Null, _) => self.made(0, Expr::Null, rest),
            _ => self.column(tokens),
        }
    }

    // What a parenthesis at this place makes of the expression behind it, which has to be closed.
    fn closed<'t, 'a>(
        self,
        place: usize,
        operand: Parsed<'a>,
        tokens: Tokens<'t, 'a>,
    ) -> Read<'t, 'a>
        ensures { Gives (λ x. found x.0 x.1.now) result (closed_at self.text_len place (found operand.entry tokens.now)) }
    {
        let Parsed { expr, depth } = operand;
        let depth = deeper(place, depth)?;
        let rest = self.close(tokens)?;
        Ok((Parsed { expr, depth }, rest))
    }

    // What a parenthesis or a sign at this place makes of the expression behind it.
    fn prefixed<'t, 'a>(
        self,
        prefix: Prefix,
        place: usize,
        operand: Parsed<'a>,
        tokens: Tokens<'t, 'a>,
    ) -> Read<'t, 'a>
        ensures { Gives (λ x. found x.0 x.1.now) result (prefixed_at self.text_len prefix place (found operand.entry tokens.now)) }
    {
        match prefix {
            Prefix::Paren => self.closed(place, operand, tokens),
            Prefix::Minus => self.negated(place, operand, tokens),
            Prefix::Plus => {
                let Parsed { expr, depth } = operand;
                self.node(place, depth, Expr::Plus(expr), tokens)
            }
        }
    }

    // An operator's node.
    fn join<'t, 'a>(
        self,
        operator: Operator,
        place: usize,
        left: Parsed<'a>,
        right: Parsed<'a>,
        rest: Tokens<'t, 'a>,
    ) -> Read<'t, 'a>
        ensures exact { Gives (λ x. found x.0 x.1.now) result
            (join (record { op = operator; place = place; rest = tok_views rest.now }) (found left.entry rest.now) (found right.entry rest.now)) }
        ensures deeper { IfOk result (λ x. left.entry.depth < x.0.depth) }
    {
        let Parsed { expr: left, depth } = left;
        let Parsed {
            expr: right,
            depth: behind,
        } = right;
        let expr = Expr::Binary(operator, left, right);
        self.node(place, depth.max(behind), expr, rest)
    }

    // The node of a `BETWEEN` at this place, behind an operand of this depth.
    fn range<'t, 'a>(
        self,
        test: Membership<'t, 'a>,
        left: Parsed<'a>,
        low: Parsed<'a>,
        high: Parsed<'a>,
        rest: Tokens<'t, 'a>,
    ) -> Read<'t, 'a>
        ensures { Gives (λ x. found x.0 x.1.now) result (range_node test.entry.negated test.entry.place (tree_of left.entry.expr.value) left.entry.depth (found_bounds low.entry high.entry rest.now)) }
    {
        let Parsed { expr: left, depth } = left;
        let Parsed {
            expr: low,
            depth: from,
        } = low;
        let Parsed {
            expr: high,
            depth: to,
        } = high;
        let expr = Expr::Between(left, test.negated, low, high);
        self.node(test.place, depth.max(from.max(to)), expr, rest)
    }

    // The node of an `IN`, whose list has to be closed, over parts of which the deepest has this depth.
    fn contains<'t, 'a>(
        self,
        test: Membership<'t, 'a>,
        depth: usize,
        left: Box<Expr<'a>>,
        items: Vec<Expr<'a>>,
        tokens: Tokens<'t, 'a>,
    ) -> Read<'t, 'a>
        ensures { Gives (λ x. found x.0 x.1.now) result (contains_at self.text_len test.entry.negated test.entry.place depth (tree_of left.entry.value) (trees items.entry.items) (tok_views tokens.now)) }
    {
        let depth = deeper(test.place, depth)?;
        let rest = self.close(tokens)?;
        self.made(depth, Expr::In(left, test.negated, items), rest)
    }

    // Where the list of an `IN` stands, behind an operand of this depth, and the tokens behind its `(`.
    fn list_open<'t, 'a>(
        self,
        test: Membership<'t, 'a>,
        depth: usize,
    ) -> Result<(usize, Tokens<'t, 'a>), SqlFault>
        ensures { Gives (λ x. (x.0, tok_views x.1.now)) result (list_open_at self.text_len test.entry.place depth (tok_views test.entry.rest.now)) }
    {
        deeper(test.place, depth)?;
        let paren = self.place_of(test.rest);
        let rest = self.open(test.rest)?;
        Ok((paren, rest))
    }

    // The tokens behind the `AND` of a `BETWEEN` at this place, whose operand and lower end have this depth at most.
    fn upper<'t, 'a>(
        self,
        place: usize,
        depth: usize,
        tokens: Tokens<'t, 'a>,
    ) -> Result<Tokens<'t, 'a>, SqlFault>
        ensures { Gives (λ rest. tok_views rest.now) result (upper_at self.text_len place depth (tok_views tokens.now)) }
    {
        deeper(place, depth)?;
        self.and(tokens)
    }

    // `IN` or `BETWEEN` behind a `NOT` at this place.
    fn not_among<'t, 'a>(
        self,
        place: usize,
        depth: usize,
        tokens: Tokens<'t, 'a>,
    ) -> Result<Membership<'t, 'a>, SqlFault>
        ensures { Gives (λ x. membership_of x) result (not_among_at self.text_len place depth (tok_views tokens.now)) }
    {
        deeper(place, depth)?;
        let [token, rest @ ..] = tokens else {
            return Err(self.misplaced(tokens));
        };
        let ranged = match token.tok {
            Tok::Word(Word::Between, _) => true,
            Tok::Word(Word::In, _) => false,
            _ => return Err(self.misplaced(tokens)),
        };
        Ok(Membership {
            ranged,
            negated: true,
            place,
            rest,
        })
    }

    // `IN` or `BETWEEN` with or without a `NOT`, behind an operand of this depth, if one stands next.
    fn among<'t, 'a>(
        self,
        depth: usize,
        tokens: Tokens<'t, 'a>,
    ) -> Result<Option<Membership<'t, 'a>>, SqlFault>
        ensures { Gives (λ x. option_map membership_of x) result (among_at self.text_len depth (tok_views tokens.now)) }
    {
        let [token, rest @ ..] = tokens else {
            return Ok(None);
        };
        let place = token.span.start;
        let ranged = match token.tok {
            Tok::Word(Word::Between, _) => true,
            Tok::Word(Word::In, _) => false,
            Tok::Word(Word::Not, _) => return Ok(Some(self.not_among(place, depth, rest)?)),
            _ => return Ok(None),
        };
        Ok(Some(Membership {
            ranged,
            negated: false,
            place,
            rest,
        }))
    }

    // The operator that stands next, its place, and the tokens after it.
    fn next_operator<'t, 'a>(
        self,
        level: Chain,
        tokens: Tokens<'t, 'a>,
    ) -> Option<(Operator, usize, Tokens<'t, 'a>)>
        ensures { option_map (λ x. record { op = x.0; place = x.1; rest = tok_views x.2.now }) result ≡ next_op (operators level) (tok_views tokens.now) }
    {
        let [token, rest @ ..] = tokens else {
            return None
        };
        let operator = level.operator(token.tok)?;
        Some((operator, token.span.start, rest))
    }

    // The comparison that stands next, its place, and the tokens after it.
    fn next_comparison<'t, 'a>(
        self,
        tokens: Tokens<'t, 'a>,
    ) -> Option<(Operator, usize, Tokens<'t, 'a>)>
        ensures { option_map (λ x. record { op = x.0; place = x.1; rest = tok_views x.2.now }) result ≡ next_op comparison_op (tok_views tokens.now) }
    {
        let [token, rest @ ..] = tokens else {
            return None
        };
        let operator = comparison(token.tok)?;
        Some((operator, token.span.start, rest))
    }

    // A minus at this place before an expression: of a literal it makes one literal.
    fn negated<'t, 'a>(
        self,
        place: usize,
        operand: Parsed<'a>,
        rest: Tokens<'t, 'a>,
    ) -> Read<'t, 'a>
        ensures { Gives (λ x. found x.0 x.1.now) result (node place operand.entry.depth (negated (tree_of operand.entry.expr.value)) (tok_views rest.now)) }
    {
        let Parsed { expr, depth } = operand;
        let expr = match &*expr {
            Expr::Number { negative, digits } => Expr::Number {
                negative: !*negative,
                digits: *digits,
            },
            _ => Expr::Minus(expr),
        };
        self.node(place, depth, expr, rest)
    }

    // What an `IS` asks for, whose node has this depth.
    fn truth_test<'t, 'a>(
        self,
        negated: bool,
        operand: Box<Expr<'a>>,
        depth: usize,
        tokens: Tokens<'t, 'a>,
    ) -> Read<'t, 'a>
        ensures { Gives (λ x. found x.0 x.1.now) result (truth_test self.text_len negated (tree_of operand.entry.value) depth (tok_views tokens.now)) }
    {
        let [token, rest @ ..] = tokens else {
            return Err(self.misplaced(tokens));
        };
        let Some(truth) = truth_of(token.tok) else {
            return Err(self.misplaced(tokens));
        };
        self.made(depth, Expr::Is(operand, negated, truth), rest)
    }

    // What an `IS` or `IS NOT` asks for, whose node has this depth.
    fn after_is<'t, 'a>(
        self,
        operand: Box<Expr<'a>>,
        depth: usize,
        tokens: Tokens<'t, 'a>,
    ) -> Read<'t, 'a>
        ensures { Gives (λ x. found x.0 x.1.now) result (after_is self.text_len (tree_of operand.entry.value) depth (tok_views tokens.now)) }
    {
        match tokens {
            [token, rest @ ..] if is_not(token.tok) => self.truth_test(true, operand, depth, rest),
            _ => self.truth_test(false, operand, depth, tokens),
        }
    }

    // `IS` and what it asks for, if it stands next.
    fn maybe_is<'t, 'a>(self, left: Parsed<'a>, tokens: Tokens<'t, 'a>) -> Read<'t, 'a>
        ensures { Gives (λ x. found x.0 x.1.now) result (maybe_is self.text_len (found left.entry tokens.now) (tok_views tokens.now)) }
    {
        match tokens {
            [
                At {
                    tok: Tok::Word(Word::Is, _),
                    span,
                },
                rest @ ..,
            ] => {
                let Parsed { expr, depth } = left;
                let depth = deeper(span.start, depth)?;
                self.after_is(expr, depth, rest)
            }
            _ => Ok((left, tokens)),
        }
    }

    // A comparison's node, and `IS` behind it.
    fn compared<'t, 'a>(
        self,
        operator: Operator,
        place: usize,
        left: Parsed<'a>,
        right: Parsed<'a>,
        rest: Tokens<'t, 'a>,
    ) -> Read<'t, 'a>
        ensures { Gives (λ x. found x.0 x.1.now) result (compared_at self.text_len (record { op = operator; place = place; rest = tok_views rest.now }) (found left.entry rest.now) (found right.entry rest.now)) }
    {
        let (both, rest) = self.join(operator, place, left, right, rest)?;
        self.maybe_is(both, rest)
    }

    // What stands behind an opening at this place, of which so many may still be made.
    #[cycle(levels)]
    #[tactic(auto, unfolding(crate::specs::Inner::Pieces::inside))]
    fn opened<'t, 'a>(
        self,
        level: Opened,
        room: usize,
        place: usize,
        tokens: Tokens<'t, 'a>,
    ) -> Read<'t, 'a>
        ensures { Gives (λ x. found x.0 x.1.now) result (inside self.text_len room level place (tok_views tokens.now)) }
    {
        if room == 0 {
            return Err(SqlFault::TooDeep(place));
        }
        match level {
            Opened::Whole => self.chain(Chain::Or, room - 1, tokens),
            Opened::Negation => self.not(room - 1, tokens),
            Opened::Unary => self.unary(room - 1, tokens),
        }
    }

    #[cycle(levels)]
    fn unary<'t, 'a>(self, room: usize, tokens: Tokens<'t, 'a>) -> Read<'t, 'a>
        ensures { Gives (λ x. found x.0 x.1.now) result (una_at self.text_len (inside self.text_len room) (tok_views tokens.now)) }
    {
        let Some((prefix, place, behind)) = prefix(tokens) else {
            return self.atom(tokens);
        };
        let (operand, rest) = self.opened(prefix.opens(), room, place, behind)?;
        self.prefixed(prefix, place, operand, rest)
    }

    #[cycle(levels)]
    #[tactic(auto, unfolding(crate::specs::Inner::Pieces::negation_at))]
    fn not<'t, 'a>(self, room: usize, tokens: Tokens<'t, 'a>) -> Read<'t, 'a>
        ensures { Gives (λ x. found x.0 x.1.now) result (not_at self.text_len (inside self.text_len room) (tok_views tokens.now)) }
    {
        match tokens {
            [
                At {
                    tok: Tok::Word(Word::Not, _),
                    span,
                },
                rest @ ..,
            ] => {
                let (Parsed { expr, depth }, rest) = self.opened(
                    Opened::Negation,
                    room,
                    span.start,
                    rest,
                )?;
                self.node(span.start, depth, Expr::Not(expr), rest)
            }
            _ => self.is(room, tokens),
        }
    }

    // A comparison at most, and `IS` behind it.
    #[cycle(levels)]
    fn is<'t, 'a>(self, room: usize, tokens: Tokens<'t, 'a>) -> Read<'t, 'a>
        ensures { Gives (λ x. found x.0 x.1.now) result (is_at self.text_len (inside self.text_len room) (tok_views tokens.now)) }
    {
        let (left, rest) = self.membership(room, tokens)?;
        let Some((operator, place, after)) = self.next_comparison(rest) else {
            return self.maybe_is(left, rest);
        };
        let Parsed { expr, depth } = left;
        deeper(place, depth)?;
        let (right, rest) = self.membership(room, after)?;
        self.compared(operator, place, Parsed { expr, depth }, right, rest)
    }

    // `IN` and `BETWEEN`.
    #[cycle(levels)]
    fn membership<'t, 'a>(self, room: usize, tokens: Tokens<'t, 'a>) -> Read<'t, 'a>
        ensures { Gives (λ x. found x.0 x.1.now) result (inn_at self.text_len (inside self.text_len room) (tok_views tokens.now)) }
    {
        let (left, rest) = self.chain(Chain::Concat, room, tokens)?;
        let Parsed { expr, depth } = left;
        let Some(test) = self.among(depth, rest)? else {
            return Ok((Parsed { expr, depth }, rest));
        };
        if test.ranged {
            self.between(test, Parsed { expr, depth }, room)
        } else {
            self.contained(test, Parsed { expr, depth }, room)
        }
    }

    #[cycle(levels)]
    fn between<'t, 'a>(
        self,
        test: Membership<'t, 'a>,
        left: Parsed<'a>,
        room: usize,
    ) -> Read<'t, 'a>
        ensures { Gives (λ x. found x.0 x.1.now) result (between_at self.text_len (inside self.text_len room) test.entry.negated test.entry.place (tree_of left.entry.expr.value) left.entry.depth (tok_views test.entry.rest.now)) }
    {
        let Parsed { expr, depth } = left;
        deeper(test.place, depth)?;
        let (low, rest) = self.chain(Chain::Concat, room, test.rest)?;
        let Parsed {
            expr: least,
            depth: from,
        } = low;
        let rest = self.upper(test.place, depth.max(from), rest)?;
        let (high, rest) = self.chain(Chain::Concat, room, rest)?;
        let left = Parsed { expr, depth };
        let low = Parsed {
            expr: least,
            depth: from,
        };
        self.range(test, left, low, high, rest)
    }

    #[cycle(levels)]
    fn contained<'t, 'a>(
        self,
        test: Membership<'t, 'a>,
        left: Parsed<'a>,
        room: usize,
    ) -> Read<'t, 'a>
        ensures { Gives (λ x. found x.0 x.1.now) result (in_at self.text_len (inside self.text_len room) test.entry.negated test.entry.place (tree_of left.entry.expr.value) left.entry.depth (tok_views test.entry.rest.now)) }
    {
        let Parsed { expr, depth } = left;
        let (paren, rest) = self.list_open(test, depth)?;
        let (items, deepest, rest) = self.list(room, paren, rest)?;
        self.contains(test, depth.max(deepest), expr, items, rest)
    }

    // The items of a list, and the depth of the deepest.
    #[cycle(levels)]
    fn list<'t, 'a>(
        self,
        room: usize,
        place: usize,
        tokens: Tokens<'t, 'a>,
    ) -> Result<(Vec<Expr<'a>>, usize, Tokens<'t, 'a>), SqlFault>
        ensures { Gives (λ x. found_list x.0.items x.1 x.2.now) result (list_at (inside self.text_len room Whole place) (tok_views tokens.now)) }
    {
        let (Parsed { expr, mut depth }, mut rest) = self.opened(
            Opened::Whole,
            room,
            place,
            tokens,
        )?;
        let mut items = Vec::new(self.alloc);
        items.push(Box::into_inner(expr))?;
        while let Some(after) = after_comma(rest) {
            let (Parsed { expr, depth: next }, after) = self.opened(
                Opened::Whole,
                room,
                place,
                after,
            )?;
            items.push(Box::into_inner(expr))?;
            depth = depth.max(next);
            rest = after;
        }
        Ok((items, depth, rest))
    }

    #[cycle(levels)]
    fn operand<'t, 'a>(self, level: Chain, room: usize, tokens: Tokens<'t, 'a>) -> Read<'t, 'a>
        ensures { Gives (λ x. found x.0 x.1.now) result (operand_at self.text_len (inside self.text_len room) level (tok_views tokens.now)) }
    {
        match level {
            Chain::Or => self.chain(Chain::And, room, tokens),
            Chain::And => self.not(room, tokens),
            Chain::Concat => self.chain(Chain::Sum, room, tokens),
            Chain::Sum => self.chain(Chain::Product, room, tokens),
            Chain::Product => self.unary(room, tokens),
        }
    }

    #[cycle(levels)]
    fn chain<'t, 'a>(self, level: Chain, room: usize, tokens: Tokens<'t, 'a>) -> Read<'t, 'a>
        ensures { Gives (λ x. found x.0 x.1.now) result (chain_at self.text_len (inside self.text_len room) level (tok_views tokens.now)) }
    {
        let (mut left, mut rest) = self.operand(level, room, tokens)?;
        while let Some((operator, place, after)) = self.next_operator(level, rest) {
            let Parsed { expr, depth } = left;
            deeper(place, depth)?;
            let (right, after) = self.operand(level, room, after)?;
            (left, rest) = self.join(operator, place, Parsed { expr, depth }, right, after)?;
        }
        Ok((left, rest))
    }
}

impl Parser {
    /// The expression at the front of the tokens, and the tokens after it.
    pub fn expression<'t, 'a>(self, tokens: Tokens<'t, 'a>) -> Read<'t, 'a>
        // Which expression or fault it is.
        ensures exact { Gives (λ x. (part_of x.0, tok_views x.1.now)) result (expr_at self.text_len (tok_views tokens.now)) }
        // What is read is in the grammar.
        ensures found { IfOk result (λ x. Begins (tok_views tokens.now) (part_of x.0, tok_views x.1.now)) }
        // It takes a token at least.
        ensures shorter { IfOk result (λ x. length (tok_views x.1.now) < length (tok_views tokens.now)) }
        // What is in the grammar is read, where what follows does not go on with it.
        ensures only { (front rest : Tokens) (e : Tree) (d : ℕ) → tok_views tokens.now ≡ front ++ rest → Spells MAX_DEPTH OR front e d → Ends rest → Gives {Y = Part × Tokens} (λ x. (part_of x.0, tok_views x.1.now)) result (Ok (record { tree = e; depth = d }, rest)) }
    {
        self.chain(Chain::Or, MAX_DEPTH, tokens)
    }
}

/// The expression at the front of the tokens, and the tokens after it.
pub fn parse_expr<'t, 'a>(
    alloc: Global,
    text_len: usize,
    tokens: &'t [At<Tok<'a>>],
) -> Result<(Parsed<'a>, &'t [At<Tok<'a>>]), SqlFault>
    // Which expression or fault it is.
    ensures exact { Gives (λ x. (part_of x.0, tok_views x.1.now)) result (expr_at text_len (tok_views tokens.now)) }
    // What is read is in the grammar.
    ensures found { IfOk result (λ x. Begins (tok_views tokens.now) (part_of x.0, tok_views x.1.now)) }
    // What is in the grammar is read, where what follows does not go on with it.
    ensures only { (front rest : Tokens) (e : Tree) (d : ℕ) → tok_views tokens.now ≡ front ++ rest → Spells MAX_DEPTH OR front e d → Ends rest → Gives {Y = Part × Tokens} (λ x. (part_of x.0, tok_views x.1.now)) result (Ok (record { tree = e; depth = d }, rest)) }
{
    let parser = Parser { alloc, text_len };
    parser.expression(tokens)
}
