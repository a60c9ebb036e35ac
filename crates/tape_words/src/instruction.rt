//! Instructions of an image, and numbers of things, as text.

ghost use Rattle.std.specs.Prelude.{◌≡◌, ◌+◌, ◌++◌, ◌≤◌, IfSome, OnOk, encode_utf8_all};
ghost use Rattle.std.specs.Prelude.{option_map, string_bytes};
ghost use Rattle.disasm.specs.Rows.{row_view};
ghost use Rattle.tape_words.specs.Answers.{counted};
ghost use Rattle.tape_words.specs.Instructions.{byte_at, len_by, row_at, text_by};

use disasm::{TextLine, line_in};
use memory_map::Image;
use model::Profile;
use std::alloc::AllocError;

/// Returns an image's byte so many addresses after an address, if there is one.
fn byte_after(image: &Image, address: u16, count: u16) -> Option<u8>
    ensures { result ≡ byte_at image.now (address + count) }
{
    match address.checked_add(count) {
        Some(there) => image.get(there),
        None => None,
    }
}

/// Returns the row at an address of what the image has there, if it has a byte.
#[tactic(auto, unfolding(crate::specs::Instructions::bytes_at))]
fn line_at(profile: Profile, image: &Image, address: u16) -> Option<TextLine>
    ensures row { option_map row_view result ≡ row_at profile image.now address }
    ensures short { IfSome result (λ line. line.text_len ≤ 12) }
{
    let Some(first) = byte_after(image, address, 0) else {
        return None;
    };
    let Some(second) = byte_after(image, address, 1) else {
        return Some(line_in(profile, &[first], address));
    };
    let Some(third) = byte_after(image, address, 2) else {
        return Some(line_in(profile, &[first, second], address));
    };
    Some(line_in(profile, &[first, second, third], address))
}

/// Returns how many bytes the row at an address shows; 1 if the image has no byte there.
pub fn instruction_len(profile: Profile, image: &Image, address: u16) -> u8
    ensures { result ≡ len_by (row_at profile image.now address) }
{
    match line_at(profile, image, address) {
        Some(line) => line.len,
        None => 1,
    }
}

/// Appends characters that are given as bytes.
fn push_characters(words: &mut String, text: &[u8]) -> Result<(), AllocError>
    ensures { OnOk result
        (string_bytes words.new ≡ string_bytes words.old ++ encode_utf8_all text.now) }
{
    for byte in text {
        words.push(*byte as char)?;
    }
    Ok(())
}

/// Appends the instruction at an address as `dis` writes it, or `nothing` if the image has no byte
/// there.
///
/// Errors: `AllocError` if an allocation fails.
pub fn push_instruction(
    words: &mut String,
    profile: Profile,
    image: &Image,
    address: u16,
) -> Result<(), AllocError>
    ensures { OnOk result (string_bytes words.new ≡ string_bytes words.old
        ++ encode_utf8_all (text_by (row_at profile image.now address))) }
{
    match line_at(profile, image, address) {
        Some(line) => push_characters(words, &line.text[..line.text_len as usize]),
        None => words.push_str("nothing"),
    }
}

/// Appends how many things there are: their number, and the word for one or for more.
///
/// Errors: `AllocError` if an allocation fails.
pub fn push_count(words: &mut String, count: u64, one: &str, more: &str) -> Result<(), AllocError>
    ensures { OnOk result (string_bytes words.new
        ≡ string_bytes words.old ++ counted count one.now more.now) }
{
    write!(words, "{count} ")?;
    words.push_str(if count == 1 { one } else { more })
}
