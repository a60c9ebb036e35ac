//! `*=` and numbers.

ghost use Rattle.std.specs.Prelude.{◌≡◌, ◌++◌, drop, OnOk};
ghost use Rattle.model.specs.InstructionText.{byte_text};
ghost use Rattle.source_forms.specs.Rows.{bytes_text, ended, more_bytes, origin_line};

use formatting::{digits_of, digits_of_address};
use std::alloc::AllocError;

/// Appends `*=` and an address as a line. The only error is that a request for memory was refused.
pub fn push_origin(out: &mut Vec<u8>, address: u16) -> Result<(), AllocError>
    ensures { OnOk result (out.new.items ≡ out.old.items ++ ended (origin_line address)) }
{
    let [a, b, c, d] = digits_of_address(address);
    out.extend_from_slice(&[b'*', b'=', b'$', a, b, c, d, b'\n'])?;
    Ok(())
}

/// Appends a byte as a number. The only error is that a request for memory was refused.
pub fn push_byte(out: &mut Vec<u8>, byte: u8) -> Result<(), AllocError>
    ensures { OnOk result (out.new.items ≡ out.old.items ++ byte_text byte) }
{
    let [high, low] = digits_of(byte);
    out.extend_from_slice(&[b'$', high, low])?;
    Ok(())
}

/// Further numbers, each after a comma.
fn push_more(out: &mut Vec<u8>, bytes: &[u8]) -> Result<(), AllocError>
    ensures { OnOk result (out.new.items ≡ out.old.items ++ more_bytes bytes.now) }
{
    for byte in bytes {
        out.push(b',')?;
        push_byte(out, *byte)?;
    }
    Ok(())
}

/// Appends numbers with a comma between them. The only error is that a request for memory was
/// refused.
pub fn push_numbers(out: &mut Vec<u8>, bytes: &[u8]) -> Result<(), AllocError>
    ensures { OnOk result (out.new.items ≡ out.old.items ++ bytes_text bytes.now) }
{
    if let Some((first, more)) = bytes.split_first() {
        push_byte(out, *first)?;
        push_more(out, more)?;
    }
    Ok(())
}
