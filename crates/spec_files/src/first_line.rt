//! The first line that a run prints.

ghost use Rattle.std.specs.Prelude.{◌≡◌, IfOk};
ghost use Rattle.spec_parser.specs.Trees.{spec_view};
ghost use Rattle.spec_files.specs.FirstLine.{first_line};

use itoa::Buffer;
use spec_parser::Spec;
use std::alloc::{AllocError, Global};

pub fn first_line(alloc: Global, spec: &Spec<'_>) -> Result<Vec<u8>, AllocError>
    ensures { IfOk result (λ line. line.items ≡ first_line (spec_view spec.now)) }
{
    let mut line = Vec::new(alloc);
    line.extend_from_slice(b"Parsed test spec with ")?;
    line.extend_from_slice(Buffer::new().format(spec.sessions.len()).as_bytes())?;
    line.extend_from_slice(b" sessions\n")?;
    Ok(line)
}
