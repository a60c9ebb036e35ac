//! Words, signs and texts at the front of a line.

ghost use Rattle.std.specs.Prelude.{◌≡◌, ◌≤◌, ◌==◌, drop, length};
ghost use Rattle.std.specs.List.{prefix_len};
ghost use Rattle.std.specs.Option.{option_map};
ghost use Rattle.mon_line_parts.specs.Reading.{after, after_word, character_of};
ghost use Rattle.mon_line_parts.specs.Reading.{escaped, file_of, is_empty, is_no_blank, is_no_quote};
ghost use Rattle.mon_line_parts.specs.Reading.{after_image_word, image_word, is_name_byte};
ghost use Rattle.mon_line_parts.specs.Reading.{is_word, past, quoted_next, skip};
ghost use Rattle.mon_line_parts.specs.Reading.{with_escape, without_comment, without_quote, word_of};

use lexer::{blank_run, is_next, word_run};
use source_map::is_same_word;

/// Returns whether nothing is left.
pub fn is_empty(text: &[u8]) -> bool
    ensures { result ≡ is_empty text.now }
{
    text.is_empty()
}

/// A text before the comment with which it begins.
fn without_comment(text: &[u8]) -> &[u8]
    ensures { result.now ≡ without_comment text.now }
{
    match text {
        [] => text,
        [first, ..] if *first == b';' => &text[text.len()..],
        _ => text,
    }
}

/// Returns a text without blanks before it. A comment counts as nothing.
pub fn skip(text: &[u8]) -> &[u8]
    ensures { result.now ≡ skip text.now }
{
    without_comment(&text[blank_run(text)..])
}

/// Returns the text after its first bytes and the blanks behind them.
pub fn after(count: usize, text: &[u8]) -> &[u8]
    ensures { result.now ≡ after count text.now }
{
    skip(&text[count.min(text.len())..])
}

/// Returns the text after a sign, if the sign comes next.
pub fn past(sign: u8, text: &[u8]) -> &[u8]
    ensures { result.now ≡ past sign text.now }
{
    if is_next(sign, text) {
        after(1, text)
    } else {
        text
    }
}

/// Returns the letters, digits and `_` at the front: none if something else is next.
pub fn word_of(text: &[u8]) -> &[u8]
    ensures { result.now ≡ word_of text.now }
{
    &text[..word_run(text)]
}

/// Returns the text after its first word and the blanks behind it.
pub fn after_word(text: &[u8]) -> &[u8]
    ensures { result.now ≡ after_word text.now }
{
    after(word_run(text), text)
}

/// Counts the bytes at the front that are letters, digits, or `_ @ . :`.
fn name_bytes(text: &[u8]) -> usize
    ensures counted { result ≡ prefix_len is_name_byte text.now }
    ensures inside { result ≤ length text.now }
{
    text.iter()
        .take_while(|byte| {
            matches!(
                **byte,
                b'A'..=b'Z' | b'a'..=b'z' | b'0'..=b'9' | b'_' | b'@' | b'.' | b':'
            )
        })
        .count()
}

/// Returns the letters, digits, and `_ @ . :` at the front, which a name of an image may have.
pub fn image_word(text: &[u8]) -> &[u8]
    ensures { result.now ≡ image_word text.now }
{
    &text[..name_bytes(text)]
}

/// Returns the text after such a word and the blanks behind it.
pub fn after_image_word(text: &[u8]) -> &[u8]
    ensures { result.now ≡ after_image_word text.now }
{
    after(name_bytes(text), text)
}

/// Returns whether a word comes next, capitals or not.
pub fn is_word(word: &[u8], text: &[u8]) -> bool
    ensures { result ≡ is_word word.now text.now }
{
    is_same_word(word_of(text), word)
}

/// A text without the `'` with which it begins.
fn without_quote(text: &[u8]) -> &[u8]
    ensures { result.now ≡ without_quote text.now }
{
    match text {
        [] => text,
        [first, rest @ ..] => { if *first == b'\'' { rest } else { text } }
    }
}

/// Returns a character between two quotes, the second of which may be missing, and the text after
/// it.
pub fn character_of(text: &[u8]) -> Option<(u8, &[u8])>
    ensures { option_map (λ p. (p.0, p.1.now)) result ≡ character_of text.now }
{
    match text {
        [] => None,
        [_] => None,
        [quote, byte, rest @ ..] => {
            if *quote == b'\'' {
                Some((*byte, skip(without_quote(rest))))
            } else {
                None
            }
        }
    }
}

/// Returns a text without its first byte.
pub fn without_first(text: &[u8]) -> &[u8]
    ensures { result.now ≡ drop 1 text.now }
{
    match text {
        [] => text,
        [_, rest @ ..] => rest,
    }
}

/// Returns what a byte behind a backslash stands for, if it stands for something.
fn escaped(byte: u8) -> Option<u8>
    ensures { result ≡ escaped byte }
{
    match byte {
        b'n' => Some(b'\n'),
        b't' => Some(b'\t'),
        b'\\' => Some(b'\\'),
        b'"' => Some(b'"'),
        _ => None,
    }
}

/// Returns what a backslash and the text behind it begin with: one byte if the first two stand for
/// one, otherwise the backslash. The text after it comes with it.
fn with_escape(escaped: Option<u8>, text: &[u8]) -> (u8, &[u8])
    ensures { (result.0, result.1.now) ≡ with_escape escaped text.now }
{
    match escaped {
        Some(byte) => (byte, without_first(text)),
        None => (b'\\', text),
    }
}

/// Returns the next byte between quotes and the text after it, or `None` at a `"` and at the end.
/// `\n`, `\t`, `\\` and `\"` are one byte each.
pub fn quoted_next(text: &[u8]) -> Option<(u8, &[u8])>
    ensures { option_map (λ p. (p.0, p.1.now)) result ≡ quoted_next text.now }
{
    match text {
        [] => None,
        [b'"', ..] => None,
        [b'\\', second, ..] => Some(with_escape(escaped(*second), &text[1..])),
        [first, rest @ ..] => Some((*first, rest)),
    }
}

/// Counts the bytes before the first `"`.
fn unquoted_bytes(text: &[u8]) -> usize
    ensures counted { result ≡ prefix_len is_no_quote text.now }
    ensures inside { result ≤ length text.now }
{
    text.iter().take_while(|byte| **byte != b'"').count()
}

/// Counts the bytes before the first blank.
fn unblank_bytes(text: &[u8]) -> usize
    ensures counted { result ≡ prefix_len is_no_blank text.now }
    ensures inside { result ≤ length text.now }
{
    text.iter()
        .take_while(|byte| !matches!(**byte, b' ' | b'\t'))
        .count()
}

/// Returns the name of a file and the text after it: what stands between two `"`, of which the
/// second may be missing, otherwise what stands before the first blank. The name has no byte if
/// nothing is left.
pub fn file_of(text: &[u8]) -> (&[u8], &[u8])
    ensures { (result.0.now, result.1.now) ≡ file_of text.now }
{
    if is_next(b'"', text) {
        let text = without_first(text);
        let (name, rest) = text.split_at(unquoted_bytes(text));
        return (name, after(1, rest));
    }
    let (name, rest) = text.split_at(unblank_bytes(text));
    (name, after(0, rest))
}
