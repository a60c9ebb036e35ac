//! Writing one record.

ghost use Rattle.std.specs.Prelude.{◌≡◌, ◌++◌, ◌∷◌, ◌≤◌, [], length, IfOk, sum};
ghost use Rattle.hex.specs.Hex.{encode_upper};
ghost use Rattle.model.specs.TapeText.{line, word};

use formatting::digits_of;
use std::alloc::AllocError;

fn push_byte(out: &mut Vec<u8>, byte: u8) -> Result<(), AllocError>
    ensures { IfOk result (λ _. out.new.items ≡ out.old.items ++ encode_upper (byte ∷ [])) }
{
    out.extend_from_slice(&digits_of(byte))
}

fn push_bytes(out: &mut Vec<u8>, bytes: &[u8]) -> Result<(), AllocError>
    ensures { IfOk result (λ _. out.new.items ≡ out.old.items ++ encode_upper bytes.now) }
{
    for byte in bytes {
        push_byte(out, *byte)?;
    }
    Ok(())
}

fn push_word(out: &mut Vec<u8>, number: u16) -> Result<(), AllocError>
    ensures { IfOk result (λ _. out.new.items ≡ out.old.items ++ encode_upper (word number)) }
{
    push_byte(out, (number / 256) as u8)?;
    push_byte(out, (number % 256) as u8)
}

/// Returns the sum of bytes.
pub fn total(bytes: &[u8]) -> u32
    requires { length bytes.now ≤ 260 }
    ensures { result ≡ sum bytes.now }
{
    bytes.iter().map(|byte| *byte as u32).sum()
}

/// Writes a record with its checksum, and CR LF.
///
/// Source: KIM-1 manual for the form; mos65 for capitals and the line's end.
pub fn write_record(
    out: &mut Vec<u8>,
    count: u8,
    number: u16,
    bytes: &[u8],
) -> Result<(), AllocError>
    requires { length bytes.now ≤ 24 }
    ensures { IfOk result
        (λ _. out.new.items ≡ out.old.items ++ line (count ∷ word number ++ bytes.now)) }
{
    let head = count as u64 + (number / 256) as u64 + (number % 256) as u64;
    let sum = head + total(bytes) as u64;
    out.extend_from_slice(b";")?;
    push_byte(out, count)?;
    push_word(out, number)?;
    push_bytes(out, bytes)?;
    push_word(out, (sum % 65536) as u16)?;
    out.extend_from_slice(b"\r\n")
}
