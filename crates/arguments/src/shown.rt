//! Names as they are shown: those of files, and those that files have.

ghost use Rattle.std.specs.Char.{is_control};
ghost use Rattle.std.specs.Prelude.{◌≡◌, ◌||◌, ◌++◌, IfOk, OnOk, if◌then◌else◌, string_bytes};
ghost use Rattle.arguments.specs.Shown.{breaks_or_turns, shown_bytes, shown_name};
ghost use Rattle.model.specs.Writers.{Writes};

use crate::output::{NotWritten, put};
use formatting::{Text, push_bytes};
use std::alloc::{AllocError, Global};
use std::fmt;
use std::io::Write;

/// How many bytes are put together before they are written.
const MOST_AT_ONCE: usize = 60;

/// Returns whether a character ends a line or a paragraph, or turns the direction of a text.
fn breaks_or_turns(character: char) -> bool
    ensures { result ≡ breaks_or_turns character }
{
    character == '\u{61C}'
        || (character >= '\u{200E}' && character <= '\u{200F}')
        || (character >= '\u{2028}' && character <= '\u{202E}')
        || (character >= '\u{2066}' && character <= '\u{2069}')
}

/// Returns how a character is shown.
fn shown_char(character: char) -> char
    ensures { result
        ≡ (if is_control character || breaks_or_turns character then 63 else character) }
{
    if character.is_control() || breaks_or_turns(character) {
        '?'
    } else {
        character
    }
}

/// Writes a name as it is shown: a control character, and one that ends a line or turns the
/// direction of a text, is `?`.
///
/// Errors: `NotWritten` if a write fails: a beginning of it was then written.
pub fn put_shown<O: Write>(output: &mut O, name: &str) -> Result<(), NotWritten>
    ensures { Writes (O.contents output.old) (O.contents output.new) (shown_name name.now) result }
{
    let mut text = Text::new();
    for character in name.chars() {
        if text.len() > MOST_AT_ONCE {
            match put(output, text.as_slice()) {
                Ok(()) => {}
                Err(_) => return Err(NotWritten),
            }
            text = Text::new();
        }
        let mut room = [0u8; 4];
        let shown = shown_char(character).encode_utf8(&mut room);
        push_bytes(&mut text, shown.as_bytes());
    }
    put(output, text.as_slice())
}

/// Returns a name as it is shown, as `put_shown` writes it.
///
/// Errors: `AllocError` if an allocation fails.
pub fn shown_name(alloc: Global, name: &str) -> Result<String, AllocError>
    ensures { IfOk result (λ text. string_bytes text ≡ shown_name name.now) }
{
    let mut text = String::new(alloc);
    for character in name.chars() {
        text.push(shown_char(character))?;
    }
    Ok(text)
}

/// Appends a name of any bytes as it is shown: as `put_shown` writes it, with U+FFFD for each
/// sequence that is no UTF-8. Names of a debug file, of C functions and of locals are such.
///
/// Errors: `AllocError` if an allocation fails.
pub fn push_shown(text: &mut Vec<u8>, name: &[u8]) -> Result<(), AllocError>
    ensures { OnOk result (text.new.items ≡ text.old.items ++ shown_bytes name.now) }
{
    let lossy = String::from_utf8_lossy(*text.allocator(), name)?;
    let shown = shown_name(*text.allocator(), &lossy)?;
    text.extend_from_slice(shown.as_bytes())?;
    Ok(())
}

/// A writer that shows the lines that it is given, as `put_shown` does, but for the end of a line.
#[derive(Drop)]
pub struct ShownLines<'a, W> {
    /// What it writes to.
    pub output: &'a mut W,
}

impl<W: Write> fmt::Write for ShownLines<'_, W> {
    fn write_str(&mut self, text: &str) -> fmt::Result {
        for line in text.split_inclusive('\n') {
            let (name, end) = match line.strip_suffix('\n') {
                Some(name) => (name, "\n"),
                None => (line, ""),
            };
            match put_shown(self.output, name) {
                Ok(()) => {}
                Err(_) => return Err(fmt::Error),
            }
            match put(self.output, end.as_bytes()) {
                Ok(()) => {}
                Err(_) => return Err(fmt::Error),
            }
        }
        Ok(())
    }
}
