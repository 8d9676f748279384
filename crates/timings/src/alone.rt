//! Runs the spec file that comes on standard input on the calling thread alone, and prints the reports of its permutations.

use anyhow::{Result, bail};
use iso_lexer::{FromStd, LONGEST_FILE, read_all};
use plain_runs::print_alone;
use std::io::{self, BufWriter, Write};

pub fn run(host: &HostRuntime) -> Result<()> {
    let mut input = FromStd::new(host.reader());
    let Ok(bytes) = read_all(host.alloc(), &mut input, LONGEST_FILE + 1) else {
        bail!("standard input can't be read");
    };
    let mut text = BufWriter::new(host.alloc(), io::writer(host))?;
    let mut out = FromStd::new(&mut text);
    let mut notes = FromStd::new(host.stderr());
    if print_alone(host.alloc(), &bytes, &mut out, &mut notes, u64::MAX).is_err() {
        bail!("the run ended early");
    }
    text.flush()?;
    Ok(())
}
