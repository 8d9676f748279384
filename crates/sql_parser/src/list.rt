//! Items with commas between them.

ghost use Rattle.std.specs.Prelude.{◌≡◌, ℕ, ◌≤◌, IfOk, length, Result};
ghost use Rattle.sql_trees.specs.declared.fault.SqlFault.{SqlFault};
ghost use Rattle.sql_trees.specs.Tokens.{Tokens, tok_views};
ghost use Rattle.sql_parser.specs.Inner.Calls.{Listed, seen};

use sql_expressions::{Parser, Tokens, after_comma};
use sql_trees::SqlFault;

/// What was read of a list so far.
pub trait List<'a>: Sized + Drop {
    // what adding an item at these tokens may answer, in a text of this many bytes
    ghost adds: { ℕ → Self → Tokens → Result (Self × Tokens) SqlFault → Type 0 };

    /// Adds the item that stands next: the tokens behind it.
    fn add<'t>(
        &mut self,
        parser: Parser,
        tokens: Tokens<'t, 'a>,
    ) -> Result<Tokens<'t, 'a>, SqlFault>
        ensures exact { adds parser.text_len self.old (tok_views tokens.now) (seen (λ rest. (self.new, tok_views rest.now)) result) }
        ensures shorter { IfOk result (λ rest. length rest.now ≤ length tokens.now) };
}

/// The list with an item, and one more behind each comma.
pub fn items<'t, 'a, L: List<'a>>(
    parser: Parser,
    mut list: L,
    tokens: Tokens<'t, 'a>,
) -> Result<(L, Tokens<'t, 'a>), SqlFault>
    ensures exact { Listed (L.adds parser.text_len) list (tok_views tokens.now) (seen (λ x. (x.0, tok_views x.1.now)) result) }
    ensures shorter { IfOk result (λ x. length x.1.now ≤ length tokens.now) }
{
    let mut rest = list.add(parser, tokens)?;
    while let Some(after) = after_comma(rest) {
        rest = list.add(parser, after)?;
    }
    Ok((list, rest))
}
