//! A sink that fails.

ghost use Rattle.std.specs.Prelude.{None};

use iso_lexer::{DeviceFault, Sink};

/// Takes so many puts, of which it keeps the first 1,024 bytes, and then fails.
#[derive(Drop)]
pub struct Takes {
    bytes: [u8; 1024],
    len: usize,
    puts: usize,
    pub failed: bool,
}

impl Takes {
    pub fn new(puts: usize) -> Takes {
        Takes {
            bytes: [0; 1024],
            len: 0,
            puts,
            failed: false,
        }
    }

    /// What it has kept.
    pub fn text(&self) -> &[u8] {
        match self.bytes.get(..self.len) {
            Some(text) => text,
            None => &[],
        }
    }
}

/// Keeps more bytes, as far as there is room, and says how many there are.
fn keep(bytes: &mut [u8], len: usize, more: &[u8]) -> usize {
    let mut end = len;
    for byte in more {
        if end < bytes.len() {
            bytes[end] = *byte;
            end += 1;
        }
    }
    end
}

impl Sink for Takes {
    ghost put_so_far = { λ _. None };

    ghost failed = { λ s. s.failed };

    fn put(&mut self, bytes: &[u8]) -> Result<(), DeviceFault> {
        if self.failed || self.puts == 0 {
            self.failed = true;
            return Err(DeviceFault);
        }
        self.puts -= 1;
        self.len = keep(&mut self.bytes, self.len, bytes);
        Ok(())
    }
}
