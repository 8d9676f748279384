//! A source that fails.

ghost use Rattle.std.specs.Prelude.{None};

use iso_lexer::{DeviceFault, Source};

/// Gives a file a byte at a time so many times, and then fails.
#[derive(Drop)]
pub struct Gives<'t> {
    rest: &'t [u8],
    reads: usize,
    pub failed: bool,
}

impl<'t> Gives<'t> {
    pub fn new(file: &'t str, reads: usize) -> Gives<'t> {
        Gives {
            rest: file.as_bytes(),
            reads,
            failed: false,
        }
    }
}

impl<'t> Source for Gives<'t> {
    ghost left = { λ _. None };

    ghost failed = { λ s. s.failed };

    fn read(&mut self, buf: &mut [u8]) -> Result<usize, DeviceFault> {
        if self.failed || self.reads == 0 {
            self.failed = true;
            return Err(DeviceFault);
        }
        self.reads -= 1;
        if buf.is_empty() {
            return Ok(0);
        }
        let Some((first, rest)) = self.rest.split_first() else {
            return Ok(0);
        };
        buf[0] = *first;
        self.rest = rest;
        Ok(1)
    }
}
