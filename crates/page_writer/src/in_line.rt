//! A text in one line.

ghost use Rattle.std.specs.Prelude.{◌≡◌, ◌++◌, OnOk};
ghost use Rattle.page_writer.specs.InLine.{in_line, line_of};

use std::alloc::AllocError;

/// Returns a byte of a text, and a blank for the end of a line.
fn in_line(byte: u8) -> u8
    ensures { result ≡ in_line byte }
{
    if byte == b'\n' { b' ' } else { byte }
}

/// Appends bytes in one line.
pub fn push_in_line(text: &mut Vec<u8>, bytes: &[u8]) -> Result<(), AllocError>
    ensures { OnOk result (text.new.items ≡ text.old.items ++ line_of bytes.now) }
{
    for byte in bytes {
        text.push(in_line(*byte))?;
    }
    Ok(())
}
