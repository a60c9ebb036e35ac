//! Words put together.

ghost use Rattle.std.specs.Prelude.{◌≡◌, ◌%◌, ◌∷◌, ◌++◌, IfOk, OnOk};
ghost use Rattle.std.specs.Fmt.{signed_decimal};
ghost use Rattle.model.specs.Text.{hex_address};
ghost use Rattle.source_notes.specs.Words.{concat};

use formatting::push_address;
use itoa::Buffer;
use std::alloc::{AllocError, Global};

/// Returns pieces of text, one after another.
///
/// Errors: `AllocError` if an allocation fails.
pub fn concat(alloc: Global, pieces: &[&[u8]]) -> Result<Vec<u8>, AllocError>
    ensures { IfOk result (λ text. text.items ≡ concat pieces.now) }
{
    let mut words = Vec::new(alloc);
    for piece in pieces {
        words.extend_from_slice(piece)?;
    }
    Ok(words)
}

/// Returns words as they stand.
///
/// Errors: `AllocError` if an allocation fails.
pub fn phrase(alloc: Global, words: &str) -> Result<Vec<u8>, AllocError>
    ensures { IfOk result (λ text. text.items ≡ words.now) }
{
    Vec::from_slice(alloc, words.as_bytes())
}

/// Returns a name and words about it.
///
/// Errors: `AllocError` if an allocation fails.
pub fn describe(alloc: Global, name: &[u8], words: &str) -> Result<Vec<u8>, AllocError>
    ensures { IfOk result (λ text. text.items ≡ name.now ++ words.now) }
{
    let mut text = Vec::from_slice(alloc, name)?;
    text.extend_from_slice(words.as_bytes())?;
    Ok(text)
}

/// Appends a number in decimal, after `-` if it is below 0.
///
/// Errors: `AllocError` if an allocation fails.
pub fn push_signed(words: &mut Vec<u8>, number: i32) -> Result<(), AllocError>
    ensures { OnOk result (words.new.items ≡ words.old.items ++ signed_decimal number) }
{
    words.extend_from_slice(Buffer::new().format(number).as_bytes())
}

/// Appends `$` and an address as four capital hex digits. 65536 is 0 again.
///
/// Errors: `AllocError` if an allocation fails.
pub fn push_dollar_address(words: &mut Vec<u8>, address: u32) -> Result<(), AllocError>
    ensures { OnOk result (words.new.items
        ≡ words.old.items ++ 36 ∷ hex_address (address % 65536)) }
{
    words.push(b'$')?;
    push_address(words, (address % 65536) as u16)
}
