//! A file that was read, as a source.

ghost use Rattle.std.specs.Prelude.{Some, false};

use iso_lexer::{DeviceFault, Source};
use std::io::Read;

/// The bytes of a file that are left. Reading them doesn't fail.
#[derive(Drop)]
pub struct InMemory<'f> {
    pub rest: &'f [u8],
}

impl<'f> Source for InMemory<'f> {
    ghost left = { λ s. Some s.rest.now };

    ghost failed = { λ _. false };

    fn read(&mut self, buf: &mut [u8]) -> Result<usize, DeviceFault> {
        match self.rest.read(buf) {
            Ok(n) => Ok(n),
            Err(_) => Err(DeviceFault),
        }
    }
}
