//! Names on a page.

ghost use Rattle.std.specs.Prelude.{◌≡◌, ◌++◌, OnOk};
ghost use Rattle.iso_lexer.specs.Devices.{page_text};
ghost use Rattle.iso_lexer.specs.Names.{name_view, decoded};

use iso_lexer::{Name, Page, write_name};
use std::alloc::AllocError;

/// Pushes the bytes that a name stands for.
pub fn push_name(page: &mut Page, name: &Name<'_>) -> Result<(), AllocError>
    ensures { OnOk result (page_text page.new ≡ page_text page.old ++ decoded (name_view name.now)) }
{
    write_name(page, name).map_err(|_| AllocError)
}
