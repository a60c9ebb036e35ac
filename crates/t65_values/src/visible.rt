//! Bytes of files as they are told.

ghost use Rattle.std.specs.Prelude.{◌≡◌, ◌++◌, IfOk, OnOk, chars, flat_map, string_bytes};
ghost use Rattle.std.specs.Str.Lossy.{utf8_lossy};
ghost use Rattle.t65_values.specs.Visible.{is_special, visible, visible_character, visible_text};

use std::alloc::AllocError;

/// Returns whether a character ends a line or a paragraph, stands for what is no UTF-8, or is none
/// of XML.
fn is_special(character: char) -> bool
    ensures { result ≡ is_special character }
{
    character == '\u{2028}'
        || character == '\u{2029}'
        || character == '\u{FFFD}'
        || character == '\u{FFFE}'
        || character == '\u{FFFF}'
}

/// Returns how a character is told.
fn visible(character: char) -> char
    ensures { result ≡ visible character }
{
    if character == '\t' {
        ' '
    } else if character.is_control() || is_special(character) {
        '?'
    } else {
        character
    }
}

/// Appends a character, with a blank for a tab and a `?` for any other that is not visible.
///
/// Errors: `AllocError` if an allocation fails.
pub fn push_visible(text: &mut String, character: char) -> Result<(), AllocError>
    ensures { OnOk result
        (string_bytes text.new ≡ string_bytes text.old ++ visible_character character) }
{
    text.push(visible(character))
}

/// Returns the characters of some bytes, with U+FFFD for each sequence that is no UTF-8. The text
/// has the allocator of another one.
///
/// Errors: `AllocError` if an allocation fails.
pub fn characters_of(text: &String, bytes: &[u8]) -> Result<String, AllocError>
    ensures { IfOk result (λ characters. string_bytes characters ≡ utf8_lossy bytes.now) }
{
    String::from_utf8_lossy(*text.allocator(), bytes)
}

/// Appends the characters of a text as they are told.
fn push_all_visible(text: &mut String, characters: &str) -> Result<(), AllocError>
    ensures { OnOk result (string_bytes text.new
        ≡ string_bytes text.old ++ flat_map visible_character (chars characters.now)) }
{
    for character in characters.chars() {
        push_visible(text, character)?;
    }
    Ok(())
}

/// Appends bytes as they are told.
///
/// Errors: `AllocError` if an allocation fails.
pub fn push_visible_text(text: &mut String, bytes: &[u8]) -> Result<(), AllocError>
    ensures { OnOk result
        (string_bytes text.new ≡ string_bytes text.old ++ visible_text bytes.now) }
{
    let characters = characters_of(text, bytes)?;
    push_all_visible(text, &characters)
}
