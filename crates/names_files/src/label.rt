//! Lines in which other tools write a name and its address.

ghost use Rattle.std.specs.Prelude.{◌≡◌, ◌≤◌, ◌==◌, ◌++◌, IfOk, length, option_map, position};
ghost use Rattle.std.specs.Str.{byte};
ghost use Rattle.lexer.specs.Front.{field_length, first_field, without_blanks};
ghost use Rattle.names_files.specs.Labels.{before, behind_bank, behind_key, debug_label};
ghost use Rattle.names_files.specs.Labels.{definition_text, field};
ghost use Rattle.names_files.specs.Labels.{is_row_end, label_in, label_of, row_in, row_label};
ghost use Rattle.names_files.specs.Views.{label_view};

use lexer::{field_length, first_field, without_blanks};
use std::alloc::{AllocError, Global};

/// The hex digits of an address, and a name.
#[derive(Clone, Copy)]
pub struct Label<'a> {
    pub digits: &'a [u8],
    pub name: &'a [u8],
}

/// Returns what stands behind the name of a memory, if there is one.
fn behind_bank(text: &[u8]) -> &[u8]
    ensures { result.now ≡ behind_bank text.now }
{
    if text.starts_with(b"C:") {
        &text[2..]
    } else {
        text
    }
}

/// Returns the index of the first blank.
fn blank_at(text: &[u8]) -> Option<usize>
    ensures { result ≡ position (λ b. b == byte " ") text.now }
{
    text.iter().position(|byte| *byte == b' ')
}

/// Returns the label that is written behind the beginning of its line.
fn label_in(text: &[u8]) -> Option<Label<'_>>
    ensures { option_map label_view result ≡ label_in text.now }
{
    let at = blank_at(text)?;
    let (digits, rest) = text.split_at(at);
    if rest.starts_with(b" .") {
        let name = &rest[2..];
        Some(Label { digits, name })
    } else {
        None
    }
}

/// Returns the label that a line `al ADDRESS .NAME` gives.
#[tactic(auto, unfolding(crate::specs::Labels::label_of))]
pub fn label_of(line: &[u8]) -> Option<Label<'_>>
    ensures { option_map label_view result ≡ label_of line.now }
{
    if line.starts_with(b"al ") {
        label_in(behind_bank(&line[3..]))
    } else {
        None
    }
}

/// Returns what stands behind the first place of a key.
fn behind_key<'a>(key: &[u8], text: &'a [u8]) -> Option<&'a [u8]>
    ensures { option_map (λ t. t.now) result ≡ behind_key key.now text.now }
{
    let mut rest = text;
    while !rest.is_empty() {
        if rest.starts_with(key) {
            let (_, behind) = rest.split_at(key.len());
            return Some(behind);
        }
        let (_, behind) = rest.split_at(1);
        rest = behind;
    }
    None
}

/// Returns the index of the first byte that is this.
fn byte_at(end: u8, text: &[u8]) -> Option<usize>
    ensures { result ≡ position (λ b. b == end) text.now }
{
    text.iter().position(|byte| *byte == end)
}

/// Returns the bytes before the first one that is this: all if none is.
fn before(end: u8, text: &[u8]) -> &[u8]
    ensures { result.now ≡ before end text.now }
{
    match byte_at(end, text) {
        Some(at) => &text[..at],
        None => text,
    }
}

/// Returns the field that begins behind a key.
fn field<'a>(key: &[u8], end: u8, line: &'a [u8]) -> Option<&'a [u8]>
    ensures { option_map (λ t. t.now) result ≡ field key.now end line.now }
{
    match behind_key(key, line) {
        Some(text) => Some(before(end, text)),
        None => None,
    }
}

/// Returns the symbol that a line of a debug file gives, if it has a value.
#[tactic(auto, unfolding(crate::specs::Labels::debug_label))]
pub fn debug_label(line: &[u8]) -> Option<Label<'_>>
    ensures { option_map label_view result ≡ debug_label line.now }
{
    if !line.starts_with(b"sym\t") {
        return None;
    }
    match (
        field(b",name=\"", b'"', line),
        field(b",val=0x", b',', line),
    ) {
        (Some(name), Some(digits)) => Some(Label { digits, name }),
        _ => None,
    }
}

/// Returns whether a row of a table may end with a text.
fn is_row_end(text: &[u8]) -> bool
    ensures { result ≡ is_row_end text.now }
{
    text.is_empty() || text.starts_with(b"(")
}

/// Returns the label of a row, from its name and what is behind it.
fn row_in<'a>(name: &'a [u8], text: &'a [u8]) -> Option<Label<'a>>
    ensures { option_map label_view result ≡ row_in name.now text.now }
{
    let length = field_length(text);
    if is_row_end(without_blanks(&text[length..])) {
        let digits = first_field(text);
        Some(Label { digits, name })
    } else {
        None
    }
}

/// Returns the label that a row of DASM's table gives.
#[tactic(auto, unfolding(crate::specs::Labels::row_label))]
pub fn row_label(line: &[u8]) -> Option<Label<'_>>
    ensures { option_map label_view result ≡ row_label line.now }
{
    let length = field_length(line);
    row_in(first_field(line), without_blanks(&line[length..]))
}

/// Returns a label as a line of a source.
pub fn definition_text(alloc: Global, label: &Label<'_>) -> Result<Vec<u8>, AllocError>
    ensures { IfOk result (λ text. text.items ≡ definition_text (label_view label.now)) }
{
    let mut text = Vec::new(alloc);
    text.extend_from_slice(label.name)?;
    text.extend_from_slice(b"=$")?;
    text.extend_from_slice(label.digits)?;
    Ok(text)
}
