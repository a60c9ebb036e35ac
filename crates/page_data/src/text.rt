//! Text and data between the parts of a page's template.

ghost use Rattle.std.specs.Prelude.{◌≡◌, ◌%◌, ◌++◌, OnErr, OnOk, true, length, List, ℕ};
ghost use Rattle.base64.specs.Engines.{standard};
ghost use Rattle.base64.specs.GeneralPurpose.{encode_of};
ghost use Rattle.page_data.specs.Safe.{escape, escaped, is_plain, is_safe_text};

use base64::engine::general_purpose::STANDARD;
use formatting::push_byte;
use std::alloc::{AllocError, Global};

/// Returns whether a byte stands for itself: a line feed, or a printable byte of ASCII that is none
/// of `%`, `&`, `<` and `>`.
fn is_plain(byte: u8) -> bool
    ensures { result ≡ is_plain byte }
{
    byte == b'\n' || (32 <= byte && byte <= 126 && !matches!(byte, b'%' | b'&' | b'<' | b'>'))
}

/// Appends a byte: itself, or `%` and two capital hex digits.
fn push_escape(text: &mut Vec<u8>, byte: u8) -> Result<(), AllocError>
    ensures { OnOk result (text.new.items ≡ text.old.items ++ escape byte) }
{
    if is_plain(byte) {
        text.push(byte)?;
        Ok(())
    } else {
        text.push(b'%')?;
        push_byte(text, byte)
    }
}

/// Appends text in which nothing ends a script or begins markup: each byte that might is written as
/// `%` and two capital hex digits.
///
/// Errors: `AllocError` if an allocation fails; a beginning of the text may have been appended.
pub fn push_escaped(text: &mut Vec<u8>, bytes: &[u8]) -> Result<(), AllocError>
    ensures ok { OnOk result (text.new.items ≡ text.old.items ++ escaped bytes.now) }
    ensures safe { OnOk result (is_safe_text (escaped bytes.now) ≡ true) }
{
    for byte in bytes {
        push_escape(text, *byte)?;
    }
    Ok(())
}

/// Appends bytes in base64, with padding at the end. Nothing in it begins markup either.
///
/// Errors: `AllocError` if an allocation fails; nothing is appended.
pub fn push_base64(alloc: Global, text: &mut Vec<u8>, bytes: &[u8]) -> Result<(), AllocError>
    ensures ok { OnOk result (text.new.items ≡ text.old.items ++ encode_of standard bytes.now) }
    ensures err { OnErr result (text.new.items ≡ text.old.items) }
    ensures safe { OnOk result (is_safe_text (encode_of standard bytes.now) ≡ true) }
    // A text in pieces is one text, if each piece but the last has whole groups of three bytes.
    ensures joined { OnOk result (length bytes.now % 3 ≡ 0 → (rest : List ℕ)
        → encode_of standard (bytes.now ++ rest)
        ≡ encode_of standard bytes.now ++ encode_of standard rest) }
{
    let encoded = STANDARD.encode(alloc, bytes)?;
    text.extend_from_slice(encoded.as_bytes())
}
