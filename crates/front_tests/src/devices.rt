//! Devices that fail, and how much of a source is read. Where memory is refused a test ends with that fault.

use crate::asking::holds;
use iso_lexer::{FromStd, ReadFault, read_all};
use std::alloc::AllocError;
use std::test::Fail;
use test_devices::Gives;

#[test]
fn a_source_is_read_up_to_the_limit(rt: HostRuntime) -> Result<(), Fail> {
    let text = "0123456789".repeat(rt.alloc(), 1000)?;
    for (limit, length) in [(0, 0), (3, 3), (4096, 4096), (9999, 9999), (20000, 10000)] {
        let mut source = FromStd::new(text.as_bytes());
        let bytes = read_all(rt.alloc(), &mut source, limit)?;
        holds(&rt, bytes.len() == length, "so many");
        holds(&rt, text.as_bytes().starts_with(&bytes), "the front");
    }
    Ok(())
}

#[test]
fn a_failing_read_is_told(rt: HostRuntime) -> Result<(), AllocError> {
    let mut source = Gives::new("xxx", 2);
    for _ in 0..2 {
        match read_all(rt.alloc(), &mut source, 10) {
            Err(ReadFault::Memory) => return Err(AllocError),
            answer => holds(&rt, matches!(answer, Err(ReadFault::Device)), "Device"),
        }
    }
    Ok(())
}
