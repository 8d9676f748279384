//! Runs of bytes of one class.

ghost use Rattle.std.specs.Prelude.{◌≡◌, ◌||◌, ◌==◌};
ghost use Rattle.std.specs.List.{prefix_len, suffix_len};
ghost use Rattle.iso_lexer.specs.Bytes.{is_blank, is_name_start, is_name_byte};
ghost use Rattle.iso_lexer.specs.Inner.Runs.{passes, run_of, after_run, trimmed};

#[derive(Clone, Copy)]
pub enum Run {
    Blanks,
    Comment,
    Word,
    Digits,
}

pub fn is_blank(b: u8) -> bool
    ensures { result ≡ is_blank b }
{
    matches!(b, b' ' | b'\t' | b'\r' | 12 | 11)
}

pub fn is_line_end(b: u8) -> bool
    ensures { result ≡ (b == 10 || b == 13) }
{
    b == b'\n' || b == b'\r'
}

pub fn is_name_start(b: u8) -> bool
    ensures { result ≡ is_name_start b }
{
    b.is_ascii_alphabetic() || b == b'_' || b >= 128
}

pub fn is_name_byte(b: u8) -> bool
    ensures { result ≡ is_name_byte b }
{
    is_name_start(b) || b.is_ascii_digit() || b == b'$'
}

impl Run {
    fn passes(self, b: u8) -> bool
        ensures { result ≡ passes self b }
    {
        match self {
            Run::Blanks => is_blank(b),
            Run::Comment => !is_line_end(b),
            Run::Word => is_name_byte(b),
            Run::Digits => b.is_ascii_digit(),
        }
    }
}

fn run_len(run: Run, bytes: &[u8]) -> usize
    ensures { result ≡ prefix_len (passes run) bytes.now }
{
    bytes.iter().take_while(|b| run.passes(**b)).count()
}

/// The longest run at the front, and what follows it.
pub fn split_run(run: Run, text: &str) -> (&str, &str)
    ensures run { result.0.now ≡ run_of run text.now }
    ensures rest { result.1.now ≡ after_run run text.now }
{
    text.split_at(run_len(run, text.as_bytes()))
}

fn blanks_at_end(bytes: &[u8]) -> usize
    ensures { result ≡ suffix_len is_blank bytes.now }
{
    bytes.iter().rev().take_while(|b| is_blank(**b)).count()
}

/// Without the blanks at both ends.
pub fn trimmed(text: &str) -> &str
    ensures { result.now ≡ trimmed text.now }
{
    let (_, rest) = split_run(Run::Blanks, text);
    rest.split_at(rest.len() - blanks_at_end(rest.as_bytes())).0
}
