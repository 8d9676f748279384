//! Whether two values stand for one tree.

ghost use Rattle.std.specs.Prelude.{◌≡◌, ◌↔◌, Bool, List, ℕ, Option, IsTrue, map, option_map};

/// What stands for a tree, as the other type does.
pub trait Alike<Other> {
    ghost Seen: { Type 0 };

    ghost seen: { Self → Seen };

    ghost seen_other: { Other → Seen };

    /// Whether the two stand for one tree.
    fn alike(&self, other: &Other) -> bool
        ensures { IsTrue result ↔ (seen self.now ≡ seen_other other.now) };
}

/// Whether the two lists stand for one list of trees.
pub fn all_alike<T: Alike<U>, U>(items: &[T], others: &[U]) -> bool
    ensures { IsTrue result ↔ (map T.seen items.now ≡ map T.seen_other others.now) }
{
    let mut left = others;
    for item in items {
        let [other, rest @ ..] = left else {
            return false;
        };
        if !item.alike(other) {
            return false;
        }
        left = rest;
    }
    left.is_empty()
}

impl<T: Alike<U>, U> Alike<Vec<U>> for Vec<T> {
    ghost Seen = { List T.Seen };

    ghost seen = { λ v. map T.seen v.items };

    ghost seen_other = { λ v. map T.seen_other v.items };

    fn alike(&self, other: &Vec<U>) -> bool {
        all_alike(self, other)
    }
}

impl<T: Alike<U>, U> Alike<Option<U>> for Option<T> {
    ghost Seen = { Option T.Seen };

    ghost seen = { option_map T.seen };

    ghost seen_other = { option_map T.seen_other };

    fn alike(&self, other: &Option<U>) -> bool {
        match (self, other) {
            (None, None) => true,
            (Some(x), Some(y)) => x.alike(y),
            _ => false,
        }
    }
}

impl Alike<bool> for bool {
    ghost Seen = { Bool };

    ghost seen = { λ b. b };

    ghost seen_other = { λ b. b };

    fn alike(&self, other: &Self) -> bool {
        *self == *other
    }
}

impl Alike<u32> for u32 {
    ghost Seen = { ℕ };

    ghost seen = { λ n. n };

    ghost seen_other = { λ n. n };

    fn alike(&self, other: &Self) -> bool {
        *self == *other
    }
}
