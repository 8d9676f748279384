//! Whether two names are one.

ghost use Rattle.std.specs.Prelude.{◌≡◌, [], bytes_eq, MatchOption};
ghost use Rattle.iso_lexer.specs.Names.{name_view};
ghost use Rattle.iso_lexer.specs.Names.{decoded};
ghost use Rattle.iso_lexer.specs.Inner.NameParts.{decoded_in, raw_bytes, FirstIs};
ghost use Rattle.std.proofs.Common.{rules};
ghost use Rattle.std.specs.Cmp.Rules.{comparing};

use crate::name::Name;

fn written<'a>(name: &Name<'a>) -> &'a [u8]
    ensures { result.now ≡ raw_bytes (name_view name.now) }
{
    match *name {
        Name::Plain(text) => text.as_bytes(),
        Name::Quoted(text) => text.as_bytes(),
        Name::Folded(text) => text.as_bytes(),
    }
}

/// The first byte that a part of a name stands for, and the part behind it.
#[tactic(auto, unfolding(crate::specs::Names::unquoted))]
fn first_of<'a>(name: &Name<'_>, part: &'a [u8]) -> Option<(u8, &'a [u8])>
    ensures { MatchOption result (decoded_in (name_view name.now) part.now ≡ []) (λ x. FirstIs (name_view name.now) part.now x.0 x.1.now) }
{
    let (first, rest) = part.split_first()?;
    match name {
        Name::Plain(_) => Some((*first, rest)),
        Name::Quoted(_) => match rest {
            [_, behind @ ..] if *first == b'"' => Some((*first, behind)),
            _ => Some((*first, rest)),
        },
        Name::Folded(_) => Some((first.to_ascii_lowercase(), rest)),
    }
}

/// Whether the names stand for the same bytes.
pub fn same_name(a: &Name<'_>, b: &Name<'_>) -> bool
    ensures { result ≡ bytes_eq (decoded (name_view a.now)) (decoded (name_view b.now)) }
{
    let mut x = written(a);
    let mut y = written(b);
    while let Some((first, rest)) = first_of(a, x) {
        match first_of(b, y) {
            Some((other, behind)) if other == first => {
                x = rest;
                y = behind;
            }
            _ => return false,
        }
    }
    first_of(b, y).is_none()
}

/// Names are equal where they stand for the same bytes.
impl PartialEq for Name<'_> {
    ghost eq = { λ a b. bytes_eq (decoded (name_view a)) (decoded (name_view b)) };

    ghost laws = { Prim.search (comparing, rules) };

    fn eq(&self, other: &Self) -> bool {
        same_name(self, other)
    }
}
