//! Reading all of a source.

ghost use Rattle.std.specs.Prelude.{◌≡◌, ◌<◌, true, ℕ, List, Option, Some, codes, IfOk, OnErr, IsErrOf};
ghost use Rattle.iso_lexer.specs.declared.whole.ReadFault.TheVariants.{Memory, Device};
ghost use Rattle.iso_lexer.specs.Devices.{IsFront, TakesFew};

use crate::device::{DeviceFault, Source};
use std::alloc::{AllocError, Global};
use std::error::Error;
use std::fmt;

/// Why a source was not read to its end.
#[derive(Debug, Drop)]
pub enum ReadFault {
    Memory,
    Device,
}

impl fmt::Display for ReadFault {
    ghost output = { λ fault. elim fault as (λ _. Option (List ℕ)) [ Memory ↦ Some (codes "Memory") | Device ↦ Some (codes "Device") ] };

    fn fmt<W: fmt::Write>(&self, f: &mut fmt::Formatter<W>) -> fmt::Result {
        f.write_str(match self {
            Self::Memory => "Memory",
            Self::Device => "Device",
        })
    }
}

impl Error for ReadFault {}

impl From<DeviceFault> for ReadFault {
    ghost from_gives = { λ _ e. e ≡ Device };

    fn from(_e: DeviceFault) -> ReadFault {
        ReadFault::Device
    }
}

impl From<AllocError> for ReadFault {
    ghost from_gives = { λ _ e. e ≡ Memory };

    fn from(_e: AllocError) -> ReadFault {
        ReadFault::Memory
    }
}

/// The bytes of a source, no more than `limit` of them. Its fault is answered exactly where it has failed.
pub fn read_all<S: Source>(
    alloc: Global,
    source: &mut S,
    limit: usize,
) -> Result<Vec<u8>, ReadFault>
    ensures bytes { IfOk result (λ v. IsFront limit (S.left source.old) (S.left source.new) v.items) }
    ensures device { IsErrOf result ReadFault.Device → S.failed source.new ≡ true }
    ensures failed { 0 < limit → S.failed source.new ≡ true → IsErrOf result ReadFault.Device }
    ensures few { OnErr result (TakesFew limit (S.left source.old) (S.left source.new)) }
    ensures stays { S.failed source.old ≡ true → S.failed source.new ≡ true }
{
    let mut bytes = Vec::new(alloc);
    let mut buffer = [0u8; 4096];
    while bytes.len() < limit {
        let room = (limit - bytes.len()).min(4096);
        let n = source.read(&mut buffer[..room])?;
        if n == 0 {
            return Ok(bytes);
        }
        bytes.extend_from_slice(&buffer[..n])?;
    }
    Ok(bytes)
}
