//! What a text begins with.

ghost use Rattle.std.specs.Prelude.{◌≡◌, ◌<◌, ◌≤◌, length, position, true};
ghost use Rattle.std.specs.List.{prefix_len};
ghost use Rattle.lexer.specs.Front.{field_length, first_field, is_next, without_blanks};
ghost use Rattle.model.specs.AllFaults.{word_at};
ghost use Rattle.model.specs.Token.{is_blank};

use crate::byte_class::{is_blank_byte, word_run};

/// Returns whether a text begins with `sign`.
pub fn is_next(sign: u8, text: &[u8]) -> bool
    ensures next { result ≡ is_next sign text.now }
    ensures some { result ≡ true → 0 < length text.now }
{
    match text {
        [] => false,
        [first, ..] => *first == sign,
    }
}

/// Counts the blanks at the front of a text.
pub fn blank_run(text: &[u8]) -> usize
    ensures counted { result ≡ prefix_len is_blank text.now }
    ensures inside { result ≤ length text.now }
{
    text.iter()
        .take_while(|byte| matches!(**byte, b' ' | b'\t'))
        .count()
}

/// Returns a text without the blanks at its front.
pub fn without_blanks(text: &[u8]) -> &[u8]
    ensures { result.now ≡ without_blanks text.now }
{
    &text[blank_run(text)..]
}

/// Returns the letters, digits and `_` at the front of a text.
pub fn word_at(text: &[u8]) -> &[u8]
    ensures { result.now ≡ word_at text.now }
{
    &text[..word_run(text)]
}

/// Returns the index of the first blank.
fn first_blank(text: &[u8]) -> Option<usize>
    ensures { result ≡ position is_blank text.now }
{
    text.iter().position(|byte| is_blank_byte(*byte))
}

/// Counts the bytes before the first blank of a text.
pub fn field_length(text: &[u8]) -> usize
    ensures length { result ≡ field_length text.now }
    ensures within { result ≤ length text.now }
{
    match first_blank(text) {
        Some(at) => at,
        None => text.len(),
    }
}

/// Returns the bytes before the first blank of a text.
pub fn first_field(text: &[u8]) -> &[u8]
    ensures { result.now ≡ first_field text.now }
{
    &text[..field_length(text)]
}
