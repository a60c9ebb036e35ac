//! Where something stands, and the line with a mark.

ghost use Rattle.std.specs.Prelude.{◌≡◌, ◌++◌, ◌<◌, IfOk, OnOk, drop, get_or, length, replicate};
ghost use Rattle.std.specs.Option.{option_map};
ghost use Rattle.source_notes.specs.Places.{place_of};
ghost use Rattle.source_notes.specs.Shown.{after_head, blank_below, blank_under, blanks_under};
ghost use Rattle.source_notes.specs.Shown.{left_after, mark, marked_line, shown_byte, shown_first};
ghost use Rattle.source_notes.specs.Shown.{shown_from};

use crate::characters::further;
use crate::note::Note;
use crate::runs::{Class, after};
use formatting::push_count;
use std::alloc::{AllocError, Global};

/// Appends where something stands: file, line and column.
pub fn push_place(text: &mut Vec<u8>, file: &[u8], line: u32, column: u32) -> Result<(), AllocError>
    ensures { OnOk result (text.new.items ≡ text.old.items ++ place_of file.now line column) }
{
    text.extend_from_slice(file)?;
    text.push(b':')?;
    push_count(text, line as u64)?;
    text.push(b':')?;
    push_count(text, column as u64)?;
    text.extend_from_slice(b": ")?;
    Ok(())
}

/// Returns how many bytes after the first of some belong to its character, where so many of them
/// belong to one that began before.
fn left_after(left: usize, bytes: &[u8]) -> usize
    ensures { result ≡ left_after left bytes.now }
{
    match left {
        0 => further(bytes),
        _ => left - 1,
    }
}

/// Returns how the first byte of a character is shown, which has so many more.
fn shown_first(more: usize, byte: u8) -> u8
    ensures { result ≡ shown_first more byte }
{
    if more > 0 || Class::Line.has(byte) {
        byte
    } else {
        b'?'
    }
}

/// Returns how the first of some bytes is shown.
fn shown_byte(left: usize, bytes: &[u8]) -> u8
    requires { 0 < length bytes.now }
    ensures { result ≡ shown_byte left (get_or bytes.now 0 0) (drop 1 bytes.now) }
{
    match left {
        0 => shown_first(further(bytes), bytes[0]),
        _ => bytes[0],
    }
}

/// Appends a line as it is shown.
fn push_shown(text: &mut Vec<u8>, line: &[u8]) -> Result<(), AllocError>
    ensures { OnOk result (text.new.items ≡ text.old.items ++ shown_from 0 line.now) }
{
    let mut left = 0usize;
    for at in 0..line.len() {
        let bytes = &line[at..];
        text.push(shown_byte(left, bytes))?;
        left = left_after(left, bytes);
    }
    Ok(())
}

/// Returns the blank under the first of some bytes.
fn blank_below(bytes: &[u8]) -> u8
    ensures { result ≡ blank_below bytes.now }
{
    match bytes {
        [b'\t', ..] => b'\t',
        _ => b' ',
    }
}

/// Appends the blank under the first of some bytes, if it begins a character.
fn push_blank(text: &mut Vec<u8>, left: usize, bytes: &[u8]) -> Result<(), AllocError>
    ensures { OnOk result (text.new.items ≡ text.old.items ++ blank_under left bytes.now) }
{
    if left == 0 {
        text.push(blank_below(bytes))?;
    }
    Ok(())
}

/// Appends the blanks under so many bytes of a line.
fn push_blanks_under(text: &mut Vec<u8>, line: &[u8], count: usize) -> Result<(), AllocError>
    ensures { OnOk result (text.new.items ≡ text.old.items ++ blanks_under 0 count line.now) }
{
    let mut left = 0usize;
    for at in 0..count {
        let bytes = after(line, at);
        push_blank(text, left, bytes)?;
        left = left_after(left, bytes);
    }
    Ok(())
}

/// Appends `~` so many times.
fn push_wave(text: &mut Vec<u8>, count: usize) -> Result<(), AllocError>
    ensures { OnOk result (text.new.items ≡ text.old.items ++ replicate count 126) }
{
    for _ in 0..count {
        text.push(b'~')?;
    }
    Ok(())
}

/// Appends the mark under what is meant.
fn push_mark(text: &mut Vec<u8>, line: &[u8], start: usize, width: usize) -> Result<(), AllocError>
    ensures { OnOk result (text.new.items ≡ text.old.items ++ mark line.now start width) }
{
    push_blanks_under(text, line, start)?;
    text.push(b'^')?;
    push_wave(text, width.saturating_sub(1))
}

/// Returns the line itself, and below it a mark under what is meant.
fn marked_line(alloc: Global, line: &[u8], note: &Note) -> Result<Vec<u8>, AllocError>
    ensures { IfOk result (λ text. text.items
        ≡ marked_line line.now note.now.start note.now.width) }
{
    let mut text = Vec::new(alloc);
    push_shown(&mut text, line)?;
    text.push(b'\n')?;
    push_mark(&mut text, line, note.start, note.width)?;
    text.push(b'\n')?;
    Ok(text)
}

/// Returns what follows a block's head: the words, and the line with a mark, if there is a line.
pub fn after_head(alloc: Global, line: Option<&[u8]>, note: &Note) -> Result<Vec<u8>, AllocError>
    ensures { IfOk result (λ text. text.items
        ≡ after_head (option_map (λ line. line.now) line.entry) note.now) }
{
    let mut text = Vec::from_slice(alloc, &note.words)?;
    text.push(b'\n')?;
    match line {
        Some(line) => text.extend_from_slice(&marked_line(alloc, line, note)?)?,
        None => {}
    }
    Ok(text)
}
