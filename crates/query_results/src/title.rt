//! Titles of columns.

ghost use Rattle.std.specs.Prelude.{◌≡◌, ◌↔◌, IsTrue};

use iso_lexer::Ident;

/// A column's title.
#[derive(Drop)]
pub enum Title<'a> {
    /// An alias, or the name of the column that alone makes the item.
    Column(Ident<'a>),
    /// `?column?`, which is not the title of an alias with these bytes.
    Unnamed,
    Count,
    Sum,
    Min,
    Max,
}

impl<'a> Title<'a> {
    /// The same title again.
    pub fn again(&self) -> Title<'a>
        ensures { result ≡ self.now }
    {
        match self {
            Title::Column(name) => Title::Column(name.again()),
            Title::Unnamed => Title::Unnamed,
            Title::Count => Title::Count,
            Title::Sum => Title::Sum,
            Title::Min => Title::Min,
            Title::Max => Title::Max,
        }
    }

    pub fn same(&self, other: &Title<'_>) -> bool
        ensures { IsTrue result ↔ (self.now ≡ other.now) }
    {
        match (self, other) {
            (Title::Column(a), Title::Column(b)) => a.same(b),
            (Title::Unnamed, Title::Unnamed) => true,
            (Title::Count, Title::Count) => true,
            (Title::Sum, Title::Sum) => true,
            (Title::Min, Title::Min) => true,
            (Title::Max, Title::Max) => true,
            _ => false,
        }
    }
}
