//! Whether two trees are one, but for the spelling of names and strings.

ghost use Rattle.std.specs.Prelude.{◌≡◌, ◌↔◌, ◌<◌, [], ◌∷◌, IsTrue, MatchOption, bytes_eq, length};
ghost use Rattle.sql_trees.specs.Trees.{tree_of, trees, undoubled};
ghost use Rattle.sql_trees.specs.Same.{same_flag, same_tree, same_trees};

use iso_lexer::same_name;
use sql_trees::Expr;

/// The first byte that a part of a string stands for, and the part behind it.
#[tactic(auto, unfolding(sql_trees::specs::Trees::undoubled))]
fn first_of(part: &[u8]) -> Option<(u8, &[u8])>
    ensures { MatchOption result (undoubled part.now ≡ []) (λ x. (undoubled part.now ≡ x.0 ∷ undoubled x.1.now) × (length x.1.now < length part.now)) }
{
    let (first, rest) = part.split_first()?;
    match rest {
        [next, behind @ ..] if *first == b'\'' && *next == b'\'' => Some((*first, behind)),
        _ => Some((*first, rest)),
    }
}

/// Whether two strings stand for the same bytes.
pub fn same_text(a: &str, b: &str) -> bool
    ensures { result ≡ bytes_eq (undoubled a.now) (undoubled b.now) }
{
    let mut x = a.as_bytes();
    let mut y = b.as_bytes();
    while let Some((first, rest)) = first_of(x) {
        match first_of(y) {
            Some((other, behind)) if other == first => {
                x = rest;
                y = behind;
            }
            _ => return false,
        }
    }
    first_of(y).is_none()
}

fn same_flag(a: bool, b: bool) -> bool
    ensures { result ≡ same_flag a b }
{
    a == b
}

#[cycle(same)]
fn alike(a: &Expr<'_>, b: &Expr<'_>) -> bool
    ensures { result ≡ same_tree (tree_of a.now) (tree_of b.now) }
{
    match a {
        Expr::Null => matches!(b, Expr::Null),
        Expr::Bool(x) => matches!(b, Expr::Bool(y) if same_flag(*x, *y)),
        Expr::Number { negative, digits } => {
            matches!(b, Expr::Number { negative: sign, digits: other } if same_flag(*negative, *sign) && digits == other)
        }
        Expr::Text(x) => matches!(b, Expr::Text(y) if same_text(x, y)),
        Expr::Column(x) => matches!(b, Expr::Column(y) if same_name(x, y)),
        Expr::Plus(x) => matches!(b, Expr::Plus(y) if alike(x, y)),
        Expr::Minus(x) => matches!(b, Expr::Minus(y) if alike(x, y)),
        Expr::Not(x) => matches!(b, Expr::Not(y) if alike(x, y)),
        Expr::Binary(o, x, y) => {
            matches!(b, Expr::Binary(p, u, v) if *o == *p && alike(x, u) && alike(y, v))
        }
        Expr::Is(x, no, truth) => {
            matches!(b, Expr::Is(y, other, asked) if same_flag(*no, *other) && *truth == *asked && alike(x, y))
        }
        Expr::In(x, no, items) => {
            matches!(b, Expr::In(y, other, others) if same_flag(*no, *other) && alike(x, y) && all_alike(items, others))
        }
        Expr::Between(x, no, low, high) => {
            matches!(b, Expr::Between(y, other, least, most) if same_flag(*no, *other) && alike(x, y) && alike(low, least) && alike(high, most))
        }
    }
}

#[cycle(same)]
fn all_alike(items: &[Expr<'_>], others: &[Expr<'_>]) -> bool
    ensures { result ≡ same_trees (trees items.now) (trees others.now) }
{
    let mut left = others;
    for item in items {
        let [other, rest @ ..] = left else {
            return false;
        };
        if !alike(item, other) {
            return false;
        }
        left = rest;
    }
    left.is_empty()
}

/// Whether two expressions are one: names and strings by the bytes that they stand for, all else as it stands.
pub fn same_expr(a: &Expr<'_>, b: &Expr<'_>) -> bool
    ensures { IsTrue result ↔ (tree_of a.now ≡ tree_of b.now) }
{
    alike(a, b)
}
