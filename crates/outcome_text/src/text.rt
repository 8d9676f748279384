//! Text that is put piece by piece, as it stands or on a page of HTML.

use std::alloc::{AllocError, Global};
use std::fmt::Write;

/// The picture of NUL; those of the control characters after it follow.
const FIRST_CONTROL_PICTURE: u32 = 0x2400;

const UNKNOWN: char = '\u{fffd}';

/// What stands for a character that shows nothing.
fn shown(ch: char) -> char {
    let code = u32::from(ch);
    if ch == '\n' || ch == '\t' {
        ch
    } else if code < 32 {
        char::from_u32(FIRST_CONTROL_PICTURE.saturating_add(code)).unwrap_or(UNKNOWN)
    } else if ch.is_control() {
        UNKNOWN
    } else {
        ch
    }
}

/// What was put so far, and whether memory was refused for a piece of it: who takes the text is told.
#[derive(Drop)]
pub struct Text {
    is_page: bool,
    so_far: String,
    is_refused: bool,
}

impl Text {
    /// No text, to be read as it stands, or on a page.
    pub fn new(alloc: Global, is_page: bool) -> Text {
        Text {
            is_page,
            so_far: String::new(alloc),
            is_refused: false,
        }
    }

    /// Puts a piece as it stands.
    pub fn put(&mut self, piece: &str) {
        if self.so_far.push_str(piece).is_err() {
            self.is_refused = true;
        }
    }

    pub fn put_char(&mut self, ch: char) {
        if self.so_far.push(ch).is_err() {
            self.is_refused = true;
        }
    }

    pub fn put_count(&mut self, number: u64) {
        if write!(self.so_far, "{number}").is_err() {
            self.is_refused = true;
        }
    }

    pub fn put_number(&mut self, number: i64) {
        if write!(self.so_far, "{number}").is_err() {
            self.is_refused = true;
        }
    }

    /// Puts a piece as it is to be read: on a page what has a meaning there is written otherwise.
    pub fn tell(&mut self, piece: &str) {
        if !self.is_page {
            return self.put(piece);
        }
        for ch in piece.chars() {
            match ch {
                '<' => self.put("&lt;"),
                '>' => self.put("&gt;"),
                '&' => self.put("&amp;"),
                '"' => self.put("&quot;"),
                '\'' => self.put("&#39;"),
                _ => self.put_char(shown(ch)),
            }
        }
    }

    /// Puts a pattern as it stands, and in each of its braces the next piece, as it is to be read.
    pub fn fill(&mut self, pattern: &str, pieces: &[&str]) {
        for (at, part) in pattern.split("{}").enumerate() {
            if let Some(piece) = pieces.get(at.wrapping_sub(1)) {
                self.tell(piece);
            }
            self.put(part);
        }
    }

    /// Puts the lines of a cell, with this between.
    pub fn tell_lines(&mut self, cell: &str, between: &str) {
        for (at, line) in cell.lines().enumerate() {
            if at > 0 {
                self.put(between);
            }
            self.tell(line);
        }
    }

    /// What was put so far.
    pub fn as_str(&self) -> &str {
        self.so_far.as_str()
    }

    /// Notes that memory was refused for what is to be put, if it was.
    pub fn note(&mut self, is_refused: bool) {
        if is_refused {
            self.is_refused = true;
        }
    }

    /// Whether memory was refused.
    pub fn is_refused(&self) -> bool {
        self.is_refused
    }

    /// What was put.
    pub fn end(self) -> Result<String, AllocError> {
        if self.is_refused {
            return Err(AllocError);
        }
        Ok(self.so_far)
    }
}
