//! Writing one record.

ghost use Rattle.std.specs.Prelude.{◌≡◌, ◌+◌, ◌<◌, ◌≤◌, ◌++◌, ◌∷◌, [], IfOk, length, sum};
ghost use Rattle.hex.specs.Hex.{encode_upper};
ghost use Rattle.image_writer.specs.ImageTexts.{checksum, record_text};

use formatting::digits_of;
use std::alloc::AllocError;

fn push_digits(out: &mut Vec<u8>, byte: u8) -> Result<(), AllocError>
    ensures { IfOk result (λ _. out.new.items ≡ out.old.items ++ encode_upper (byte ∷ [])) }
{
    out.extend_from_slice(&digits_of(byte))
}

fn push_all_digits(out: &mut Vec<u8>, bytes: &[u8]) -> Result<(), AllocError>
    ensures { IfOk result (λ _. out.new.items ≡ out.old.items ++ encode_upper bytes.now) }
{
    for byte in bytes {
        push_digits(out, *byte)?;
    }
    Ok(())
}

/// Returns the sum of bytes.
fn total(bytes: &[u8]) -> u32
    requires { length bytes.now ≤ 16 }
    ensures { result ≡ sum bytes.now }
{
    bytes.iter().map(|byte| *byte as u32).sum()
}

/// Returns the checksum with which the bytes of a record have a sum, modulo 256.
fn checksum(wanted_total: u32, head: &[u8], bytes: &[u8]) -> u8
    requires head { length head.now ≤ 16 }
    requires bytes { length bytes.now ≤ 16 }
    requires total { wanted_total ≤ 255 }
    ensures { result ≡ checksum wanted_total (head.now ++ bytes.now) }
{
    let sum = total(head) as u64 + total(bytes) as u64;
    ((wanted_total as u64 + 256 - sum % 256) % 256) as u8
}

/// Appends a record: its mark, its bytes in two parts and their checksum in hex digits, CR LF.
pub fn push_record(
    out: &mut Vec<u8>,
    mark: &[u8],
    wanted_total: u32,
    head: &[u8],
    bytes: &[u8],
) -> Result<(), AllocError>
    requires head { length head.now ≤ 16 }
    requires bytes { length bytes.now ≤ 16 }
    requires total { wanted_total ≤ 255 }
    ensures { IfOk result (λ _. out.new.items
        ≡ out.old.items ++ record_text mark.now wanted_total (head.now ++ bytes.now)) }
{
    out.extend_from_slice(mark)?;
    push_all_digits(out, head)?;
    push_all_digits(out, bytes)?;
    push_digits(out, checksum(wanted_total, head, bytes))?;
    out.extend_from_slice(b"\r\n")
}
