//! Where bytes come from and go to.

ghost use Rattle.std.specs.Prelude.{◌≡◌, ◌≤◌, List, ℕ, Option, Some, Bool, codes, length, IfOk, OnOk};
ghost use Rattle.std.specs.Io.KnownBytes.{ReadConsumes, Appends};
ghost use Rattle.iso_lexer.specs.Devices.{FailsWith, PutsFront};

use std::error::Error;
use std::fmt;

/// The device failed, and each later call of it fails.
#[derive(Clone, Copy, Debug, PartialEq, Eq)]
pub struct DeviceFault;

impl fmt::Display for DeviceFault {
    ghost output = { λ _. Some (codes "Device") };

    fn fmt<W: fmt::Write>(&self, f: &mut fmt::Formatter<W>) -> fmt::Result {
        f.write_str("Device")
    }
}

impl Error for DeviceFault {}

/// Bytes that come in.
pub trait Source {
    /// The bytes that are left, where the source tells them.
    ghost left: { Self → Option (List ℕ) };

    ghost failed: { Self → Bool };

    /// Puts bytes at the front of the buffer, and says how many: none at the end alone.
    fn read(&mut self, buf: &mut [u8]) -> Result<usize, DeviceFault>
        ensures bound { IfOk result (λ n. n ≤ length buf.new) }
        ensures bytes { ReadConsumes (left self.old) (left self.new) result buf.new }
        ensures fails { FailsWith (failed self.old) (failed self.new) result };
}

/// Bytes that go out.
pub trait Sink {
    /// The bytes that went out, where the sink tells them.
    ghost put_so_far: { Self → Option (List ℕ) };

    ghost failed: { Self → Bool };

    fn put(&mut self, bytes: &[u8]) -> Result<(), DeviceFault>
        ensures bytes { OnOk result (Appends (put_so_far self.old) (put_so_far self.new) bytes.now) }
        ensures front { PutsFront (put_so_far self.old) (put_so_far self.new) bytes.now }
        ensures fails { FailsWith (failed self.old) (failed self.new) result };
}
