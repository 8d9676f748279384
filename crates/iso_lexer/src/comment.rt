//! Where a comment of SQL text ends.

ghost use Rattle.std.specs.Prelude.{◌≡◌, ◌&&◌, ◌==◌, None, MatchOption};
ghost use Rattle.iso_lexer.specs.Comments.{after_comment, ComputedComments, EndsAt};

fn ends_here(first: u8, second: u8) -> bool
    ensures { result ≡ (first == 42 && second == 47) }
{
    first == b'*' && second == b'/'
}

/// Whether a comment opens with these two bytes.
pub fn opens_here(first: u8, second: u8) -> bool
    ensures { result ≡ (first == 47 && second == 42) }
{
    first == b'/' && second == b'*'
}

/// How many bytes of what stands behind a comment's opening belong to the comment, its end among them.
pub fn comment_end(bytes: &[u8]) -> Option<usize>
    ensures { MatchOption result (after_comment 0 bytes.now ≡ None) (EndsAt bytes.now) }
{
    let mut around = 0usize;
    let mut at = 0;
    while at + 1 < bytes.len() {
        let first = bytes[at];
        let second = bytes[at + 1];
        if ends_here(first, second) {
            at += 2;
            if around == 0 {
                return Some(at);
            }
            around -= 1;
        } else if opens_here(first, second) {
            at += 2;
            around += 1;
        } else {
            at += 1;
        }
    }
    None
}

/// A comment goes on by comments in it and other bytes up to its end, and that is what is computed.
pub fn comments_nest()
    ensures { ComputedComments }
{}
