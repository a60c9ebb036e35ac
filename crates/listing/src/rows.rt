//! The rows of a line, and of a name.

ghost use Rattle.std.specs.Prelude.{◌≡◌, ◌+◌, ◌-◌, ◌≤◌, ◌<◌, ◌^◌, ◌++◌, ◌∷◌, [], OnErr, OnOk};
ghost use Rattle.std.specs.Prelude.{codes, length, take};
ghost use Rattle.model.specs.Listing.{address_text, group_row, group_rows, line_rows, name_row};
ghost use Rattle.model.specs.Listing.{number_text};

use formatting::{Text, address_text, byte_columns, push_bytes, push_hex_address};
use itoa::Buffer;
use std::alloc::AllocError;

/// Returns an address, two spaces, columns and an end, as rows begin.
fn row_text(address: u32, columns: &[u8], end: &[u8]) -> Text
    requires columns { length columns.now ≤ 8 }
    requires end { length end.now ≤ 2 }
    ensures { result.items ≡ address_text address ++ 32 ∷ 32 ∷ (columns.now ++ end.now) }
{
    let mut text = Text::new();
    push_bytes(&mut text, &address_text(address));
    push_bytes(&mut text, b"  ");
    push_bytes(&mut text, columns);
    push_bytes(&mut text, end);
    text
}

/// Appends a row of one to three further bytes.
fn push_group(out: &mut Vec<u8>, address: u32, bytes: &[u8]) -> Result<(), AllocError>
    requires { length bytes.now ≤ 3 }
    ensures rows { OnOk result (out.new.items ≡ out.old.items ++ group_row address bytes.now) }
    ensures kept { take (length out.old.items) out.new.items ≡ out.old.items }
{
    let width = (3 * bytes.len()).saturating_sub(1);
    let row = row_text(address, &byte_columns(bytes)[..width], b"\n");
    out.extend_from_slice(row.as_slice())
}

/// Appends the rows of all further bytes.
#[tactic(auto, using(crate::proofs::Groups::next_group, crate::proofs::Groups::no_group))]
fn push_groups(out: &mut Vec<u8>, address: u32, bytes: &[u8]) -> Result<(), AllocError>
    requires { address + length bytes.now < 2 ^ 32 - 3 }
    ensures rows { OnOk result (out.new.items ≡ out.old.items ++ group_rows address bytes.now) }
    ensures kept { take (length out.old.items) out.new.items ≡ out.old.items }
{
    let mut at = address;
    let mut rest = bytes;
    while !rest.is_empty() {
        let (group, behind) = rest.split_at(rest.len().min(3));
        push_group(out, at, group)?;
        at += 3;
        rest = behind;
    }
    Ok(())
}

/// Appends a line's rows, as far as allocations succeed.
fn extend_with_line(
    out: &mut Vec<u8>,
    address: u32,
    bytes: &[u8],
    line: &[u8],
) -> Result<(), AllocError>
    requires { address + length bytes.now < 2 ^ 32 - 6 }
    ensures rows { OnOk result
        (out.new.items ≡ out.old.items ++ line_rows address bytes.now line.now) }
    ensures kept { take (length out.old.items) out.new.items ≡ out.old.items }
{
    let start = row_text(address, &byte_columns(bytes), b"  ");
    out.extend_from_slice(start.as_slice())?;
    out.extend_from_slice(line)?;
    out.push(b'\n')?;
    push_groups(out, address + 3, &bytes[bytes.len().min(3)..])
}

/// Appends a line's rows: its address, its first three bytes and its text, then its further bytes.
///
/// Errors: `AllocError` if an allocation fails; the text is then unchanged.
pub fn push_line(
    out: &mut Vec<u8>,
    address: u32,
    bytes: &[u8],
    line: &[u8],
) -> Result<(), AllocError>
    requires { address + length bytes.now < 2 ^ 32 - 6 }
    ensures rows { OnOk result
        (out.new.items ≡ out.old.items ++ line_rows address bytes.now line.now) }
    ensures err { OnErr result (out.new.items ≡ out.old.items) }
{
    let before = out.len();
    match extend_with_line(out, address, bytes, line) {
        Ok(()) => Ok(()),
        Err(error) => {
            out.truncate(before);
            Err(error)
        }
    }
}

/// Returns what follows a name: its number, as an address if it is one, otherwise in decimal.
fn name_end(number: i32) -> Text
    ensures { result.items ≡ codes " = " ++ number_text number ++ 10 ∷ [] }
{
    let mut text = Text::new();
    if number >= 0 && number < 65536 {
        push_bytes(&mut text, b" = $");
        push_hex_address(&mut text, number as u16);
    } else {
        push_bytes(&mut text, b" = ");
        push_bytes(&mut text, Buffer::new().format(number).as_bytes());
    }
    push_bytes(&mut text, b"\n");
    text
}

/// Appends a name's row, as far as allocations succeed.
fn extend_with_name(out: &mut Vec<u8>, name: &[u8], number: i32) -> Result<(), AllocError>
    ensures rows { OnOk result (out.new.items ≡ out.old.items ++ name_row (name.now, number)) }
    ensures kept { take (length out.old.items) out.new.items ≡ out.old.items }
{
    out.extend_from_slice(name)?;
    out.extend_from_slice(name_end(number).as_slice())
}

/// Appends a name's row.
///
/// Errors: `AllocError` if an allocation fails; the text is then unchanged.
pub fn push_name(out: &mut Vec<u8>, name: &[u8], number: i32) -> Result<(), AllocError>
    ensures rows { OnOk result (out.new.items ≡ out.old.items ++ name_row (name.now, number)) }
    ensures err { OnErr result (out.new.items ≡ out.old.items) }
{
    let before = out.len();
    match extend_with_name(out, name, number) {
        Ok(()) => Ok(()),
        Err(error) => {
            out.truncate(before);
            Err(error)
        }
    }
}
