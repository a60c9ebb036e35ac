//! Digits, words and blanks appended to a text that grows.
//!
//! The only error of each call is that an allocation failed.

ghost use Rattle.std.specs.Prelude.{◌≡◌, ◌≤◌, ◌++◌, OnErr, OnOk, decimal, drop, length, take};
ghost use Rattle.model.specs.Text.{hex_address, hex_byte};
ghost use Rattle.formatting.specs.Padding.{padded};

use crate::hex_digits::{digits_of, digits_of_address};
use itoa::Buffer;
use std::alloc::AllocError;

/// Appends words.
pub fn push_text(text: &mut Vec<u8>, words: &str) -> Result<(), AllocError>
    ensures ok { OnOk result (text.new.items ≡ text.old.items ++ words.now) }
    ensures err { OnErr result (text.new.items ≡ text.old.items) }
{
    text.extend_from_slice(words.as_bytes())
}

/// Appends a count in decimal.
pub fn push_count(text: &mut Vec<u8>, number: u64) -> Result<(), AllocError>
    ensures ok { OnOk result (text.new.items ≡ text.old.items ++ decimal number) }
    ensures err { OnErr result (text.new.items ≡ text.old.items) }
{
    text.extend_from_slice(Buffer::new().format(number).as_bytes())
}

/// Appends a byte as two capital hex digits.
pub fn push_byte(text: &mut Vec<u8>, byte: u8) -> Result<(), AllocError>
    ensures ok { OnOk result (text.new.items ≡ text.old.items ++ hex_byte byte) }
    ensures err { OnErr result (text.new.items ≡ text.old.items) }
{
    text.extend_from_slice(&digits_of(byte))
}

/// Appends an address as four capital hex digits.
pub fn push_address(text: &mut Vec<u8>, address: u16) -> Result<(), AllocError>
    ensures ok { OnOk result (text.new.items ≡ text.old.items ++ hex_address address) }
    ensures err { OnErr result (text.new.items ≡ text.old.items) }
{
    text.extend_from_slice(&digits_of_address(address))
}

/// Appends blanks until the row that begins at `from` has `width` bytes.
///
/// A row that has as many or more stays as it is.
#[tactic(auto, using(crate::proofs::Padding::padded_at))]
pub fn push_blanks(text: &mut Vec<u8>, from: usize, width: u8) -> Result<(), AllocError>
    requires { from ≤ length text.old.items }
    ensures { OnOk result (text.new.items ≡ take from text.old.items
        ++ padded width (drop from text.old.items)) }
{
    let written = text.len() - from;
    let missing = (width as usize).saturating_sub(written);
    text.resize(text.len() + missing, b' ')?;
    Ok(())
}
