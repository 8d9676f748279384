//! Where a quoted name or string ends.

ghost use Rattle.std.specs.Prelude.{◌≡◌, ◌<◌, ◌==◌, ◌&&◌, false};
ghost use Rattle.iso_lexer.specs.Quotes.{ComputedQuotes};
ghost use Rattle.iso_lexer.specs.Inner.Quotes.{quoted_from, quoted_front};
ghost use Rattle.iso_lexer.specs.Fronts.{piece_view};

use crate::fault::FaultKind;
use crate::piece::Piece;

/// How a quoted text goes on behind its opening quote.
#[derive(Clone, Copy)]
pub enum Quoted {
    /// Closed within so many bytes, the closing quote among them.
    Closed(usize),
    /// Broken by a newline there.
    Broken(usize),
    Unclosed,
}

/// Whether the byte breaks what has to stay on its line.
fn is_break(one_line: bool, b: u8) -> bool
    ensures { result ≡ (one_line && b == 10) }
{
    one_line && b == b'\n'
}

fn quoted_end(mark: u8, one_line: bool, bytes: &[u8]) -> Quoted
    ensures { result ≡ quoted_from mark one_line false bytes.now }
{
    let mut behind_quote = false;
    for (i, b) in bytes.iter().enumerate() {
        if behind_quote {
            if *b != mark {
                return Quoted::Closed(i);
            }
            behind_quote = false;
        } else if *b == mark {
            behind_quote = true;
        } else if is_break(one_line, *b) {
            return Quoted::Broken(i);
        }
    }
    if behind_quote {
        Quoted::Closed(bytes.len())
    } else {
        Quoted::Unclosed
    }
}

/// The text between the quotes, by what stands behind the opening one.
pub fn quoted_front(mark: u8, one_line: bool, unclosed: FaultKind, text: &str) -> Piece<'_, &str>
    requires { mark < 128 }
    ensures { piece_view (λ s. s.now) result ≡ quoted_front (λ s. s) unclosed (quoted_from mark one_line false text.now) text.now }
{
    match quoted_end(mark, one_line, text.as_bytes()) {
        Quoted::Closed(len) => {
            let (_, rest) = text.split_at(len);
            let (inside, _) = text.split_at(len - 1);
            Piece::Token(inside, rest)
        }
        Quoted::Broken(at) => Piece::Fault(FaultKind::NewlineInName, at + 1),
        Quoted::Unclosed => Piece::Fault(unclosed, 0),
    }
}

/// A quoted text goes on by doubled quotes and other bytes up to its closing quote, and that is what is computed.
pub fn quotes_go_on()
    ensures { ComputedQuotes }
{}
