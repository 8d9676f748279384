//! Text in memory, before it goes out.

ghost use Rattle.std.specs.Prelude.{◌≡◌, ◌++◌, [], false, length, OnOk, OnErr, Some};
ghost use Rattle.iso_lexer.specs.Devices.{page_text, page_failed, HasNoRoom};

use crate::device::{DeviceFault, Sink};
use std::alloc::{AllocError, Global};

/// A page of text in memory. As a device it fails where memory was refused.
#[derive(Drop)]
pub struct Page {
    bytes: Vec<u8>,
    failed: bool,
}

impl Page {
    pub fn new(alloc: Global) -> Page
        ensures bytes { page_text result ≡ [] }
        ensures failed { page_failed result ≡ false }
    {
        Page {
            bytes: Vec::new(alloc),
            failed: false,
        }
    }

    pub fn alloc(&self) -> Global {
        *self.bytes.allocator()
    }

    pub fn bytes(&self) -> &[u8]
        ensures { result.now ≡ page_text self.now }
    {
        self.bytes.as_slice()
    }

    pub fn into_bytes(self) -> Vec<u8>
        ensures { result.items ≡ page_text self }
    {
        self.bytes
    }

    pub fn push(&mut self, text: &[u8]) -> Result<(), AllocError>
        ensures bytes { OnOk result (page_text self.new ≡ page_text self.old ++ text.now) }
        ensures failed { page_failed self.new ≡ page_failed self.old }
        ensures full { OnErr result (HasNoRoom self.old (length text.now)) }
    {
        self.bytes.extend_from_slice(text)
    }
}

impl Sink for Page {
    ghost put_so_far = { λ p. Some (page_text p) };

    ghost failed = { λ p. page_failed p };

    fn put(&mut self, bytes: &[u8]) -> Result<(), DeviceFault> {
        if self.failed {
            return Err(DeviceFault);
        }
        match self.bytes.extend_from_slice(bytes) {
            Ok(()) => Ok(()),
            Err(_) => {
                self.failed = true;
                Err(DeviceFault)
            }
        }
    }
}
