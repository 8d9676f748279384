//! Names as the bytes that they stand for.

ghost use Rattle.std.specs.Prelude.{◌≡◌, ◌↔◌, IsTrue};
ghost use Rattle.iso_lexer.specs.Names.{name_view, decoded};

use crate::name::Name;
use crate::same::same_name;
use std::marker::Model;

/// A name, which contracts see as the bytes that it stands for.
#[derive(Drop)]
pub struct Ident<'a> {
    written: Name<'a>,
}

impl<'a> Model for Ident<'a> {
    ghost use Rattle.std.specs.Prelude.{ℕ, List};
    ghost use Rattle.iso_lexer.specs.Names.{name_view, decoded};

    ghost Value = { List ℕ };

    ghost view = { λ i. decoded (name_view i.written) };
}

impl<'a> Ident<'a> {
    pub fn new(name: Name<'a>) -> Ident<'a>
        ensures { result ≡ decoded (name_view name.entry) }
    {
        Ident { written: name }
    }

    /// The name as it is written.
    pub fn name(&self) -> Name<'a>
        ensures { decoded (name_view result) ≡ self.now }
    {
        self.written
    }

    /// The same name again.
    pub fn again(&self) -> Ident<'a>
        ensures { result ≡ self.now }
    {
        Ident {
            written: self.name(),
        }
    }

    /// Whether both stand for the same bytes.
    pub fn same(&self, other: &Ident<'_>) -> bool
        ensures { IsTrue result ↔ (self.now ≡ other.now) }
    {
        same_name(&self.name(), &other.name())
    }
}
