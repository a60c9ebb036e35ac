//! Bytes as they are shown.

ghost use Rattle.std.specs.Prelude.{◌≡◌, ◌++◌, ℕ, decimal, IfOk, List, OnOk, string_bytes};
ghost use Rattle.std.specs.Str.Lossy.{utf8_lossy};
ghost use Rattle.dap_views.specs.Variables.{behind_text, byte_text, character_text, value_text};

use formatting::{digits_of, push_byte, push_count, push_text};
use std::alloc::{AllocError, Global};

/// Returns bytes as a text, if memory did not run out for them.
pub fn as_text(
    alloc: Global,
    bytes: Vec<u8>,
    grown: Result<(), AllocError>,
) -> Result<String, AllocError>
    ensures { (shown : List ℕ) → OnOk grown (bytes.items ≡ shown)
        → IfOk result (λ text. string_bytes text ≡ utf8_lossy shown) }
{
    grown?;
    String::from_utf8_lossy(alloc, bytes.as_slice())
}

/// Returns a byte: a `$` and two hex digits.
pub fn byte_text(alloc: Global, byte: u8) -> Result<String, AllocError>
    ensures { IfOk result (λ text. string_bytes text ≡ byte_text byte) }
{
    let [high, low] = digits_of(byte);
    String::from_utf8_lossy(alloc, &[b'$', high, low])
}

/// Appends the character of a byte, between quotes and behind a blank, if it can be seen.
fn push_character(text: &mut Vec<u8>, byte: u8) -> Result<(), AllocError>
    ensures { OnOk result (text.new.items ≡ text.old.items ++ character_text byte) }
{
    if byte >= 32 && byte <= 126 {
        text.extend_from_slice(&[b' ', b'\'', byte, b'\''])
    } else {
        Ok(())
    }
}

/// Returns what stands behind the hexadecimal value of a variable: a blank, the decimal value, and
/// the character.
pub fn behind_text(alloc: Global, byte: u8) -> Result<Vec<u8>, AllocError>
    ensures { IfOk result (λ text. text.items ≡ behind_text byte) }
{
    let mut text = Vec::new(alloc);
    push_text(&mut text, " ")?;
    push_count(&mut text, u64::from(byte))?;
    push_character(&mut text, byte)?;
    Ok(text)
}

/// Returns the value of a variable: a `$` and two hex digits, the decimal value, and the character.
pub fn value_text(alloc: Global, byte: u8) -> Result<String, AllocError>
    ensures { IfOk result (λ text. string_bytes text ≡ value_text byte) }
{
    let mut text = Vec::new(alloc);
    push_text(&mut text, "$")?;
    push_byte(&mut text, byte)?;
    push_text(&mut text, " ")?;
    push_count(&mut text, u64::from(byte))?;
    push_character(&mut text, byte)?;
    String::from_utf8_lossy(alloc, text.as_slice())
}

/// Returns a number in decimal.
pub fn number_text(alloc: Global, number: u64) -> Result<String, AllocError>
    ensures { IfOk result (λ text. string_bytes text ≡ decimal number) }
{
    format!(in alloc; "{number}")
}
