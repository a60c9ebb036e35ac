//! A file of notes at steps of a run.

ghost use Rattle.std.specs.Prelude.{◌≡◌, ◌≤◌, [], IfErr, IfOk, None, Ok, Some, decimal};
ghost use Rattle.std.specs.Prelude.{if◌then◌else◌, length, map, option_map};
ghost use Rattle.std.specs.List.{prefix_len};
ghost use Rattle.lexer.specs.Front.{without_blanks};
ghost use Rattle.model.specs.Commands.{decimal_of};
ghost use Rattle.model.specs.TextLines.{lines_of};
ghost use Rattle.model.specs.Writers.{AppendsFront};
ghost use Rattle.word_page.specs.Notes.{IsFaultIn, IsFaultOf, is_word_byte, no_note_line, note_of};
ghost use Rattle.word_page.specs.Notes.{note_view, notes_from, notes_in, notes_line, notes_status};
ghost use Rattle.word_page.specs.Notes.{with_line};

use crate::wording::{NO_NOTE, NOTES_TOO_LONG};
use arguments::{Refusal, put_named, refuse};
use commands::decimal_of;
use formatting::{Text, push_decimal};
use lexer::without_blanks;
use line_parts::next_line;
use page_writer::Note;
use std::alloc::{AllocError, Global};
use std::io::Write;

/// The most bytes of a file of notes.
pub const MOST_NOTES: usize = 1_048_576;

/// Why a file is no file of notes.
#[derive(Clone, Copy)]
pub enum NotesFault {
    /// The line of this number, counted from 1, is no note.
    NoNote { line: u64 },
    /// The file has more than 1,048,576 bytes.
    TooLong,
    /// An allocation failed.
    OutOfMemory,
}

/// Counts the bytes before the first blank of a text.
fn word_run(text: &[u8]) -> usize
    ensures counted { result ≡ prefix_len is_word_byte text.now }
    ensures inside { result ≤ length text.now }
{
    text.iter()
        .take_while(|byte| **byte != b' ' && **byte != b'\t')
        .count()
}

/// Returns the note that a line is, whose first byte is no blank.
#[tactic(auto, unfolding(crate::specs::Notes::note_of))]
fn note_of(line: &[u8]) -> Option<Note<'_>>
    ensures { option_map note_view result ≡ note_of line.now }
{
    let count = word_run(line);
    let step = decimal_of(&line[..count])?;
    let text = without_blanks(&line[count..]);
    if text.is_empty() {
        return None;
    }
    Some(Note { step, text })
}

/// Appends the note of a line, unless the line has blanks alone, and returns whether that is so or
/// it is a note.
#[tactic(auto, unfolding(crate::specs::Notes::with_line))]
fn push_line<'a>(notes: &mut Vec<Note<'a>>, line: &'a [u8]) -> Result<bool, AllocError>
    ensures { IfOk result (λ is. with_line (map note_view notes.old.items) line.now
        ≡ (if is then Some (map note_view notes.new.items) else None)) }
{
    let front = without_blanks(line);
    if front.is_empty() {
        return Ok(true);
    }
    match note_of(front) {
        None => Ok(false),
        Some(note) => {
            notes.push(note)?;
            Ok(true)
        }
    }
}

/// Reads the lines of a file of notes.
fn read_lines(alloc: Global, text: &[u8]) -> Result<Vec<Note<'_>>, NotesFault>
    ensures ok { IfOk result
        (λ notes. notes_from 1 [] (lines_of text.now) ≡ Ok (map note_view notes.items)) }
    ensures err { IfErr result (IsFaultIn (notes_from 1 [] (lines_of text.now))) }
{
    let mut notes = Vec::new(alloc);
    let mut rest = text;
    let mut number = 1u64;
    while !rest.is_empty() {
        let (line, behind) = next_line(rest);
        match push_line(&mut notes, line) {
            Err(_) => return Err(NotesFault::OutOfMemory),
            Ok(false) => return Err(NotesFault::NoNote { line: number }),
            Ok(true) => {}
        }
        rest = behind;
        number += 1;
    }
    Ok(notes)
}

/// Reads a file of notes at steps of a run.
///
/// A note is a line: a number of one to seven digits, blanks, and what is noted at that step. A
/// line of blanks says nothing.
///
/// # Errors
///
/// - `NoNote`: the line is none.
/// - `TooLong`: the file has more than 1,048,576 bytes.
/// - `OutOfMemory`: an allocation failed.
///
/// Source: mos65.
#[tactic(auto, unfolding(crate::specs::Notes::notes_in))]
pub fn read_notes(alloc: Global, text: &[u8]) -> Result<Vec<Note<'_>>, NotesFault>
    ensures ok { IfOk result (λ notes. notes_in text.now ≡ Ok (map note_view notes.items)) }
    ensures err { IfErr result (IsFaultOf text.now) }
{
    if text.len() > MOST_NOTES {
        return Err(NotesFault::TooLong);
    }
    read_lines(alloc, text)
}

/// Returns the digits of a number.
fn number_text(number: u64) -> Text
    ensures { result.items ≡ decimal number }
{
    let mut text = Text::new();
    push_decimal(&mut text, number);
    text
}

/// Writes that a line is no note.
fn tell_no_note<E: Write>(file: &str, line: u64, errors: &mut E)
    ensures { AppendsFront (E.contents errors.old) (E.contents errors.new)
        (no_note_line file.now line) }
{
    let number = number_text(line);
    put_named(
        file,
        &[b": NOTES line ", number.as_slice(), NO_NOTE.as_bytes()],
        errors,
    );
}

impl NotesFault {
    /// Writes why a file is no file of notes, and returns the exit status, even if that cannot be
    /// written: 1, or 3 if memory ran out.
    pub fn tell<E: Write>(self, file: &str, errors: &mut E) -> u8
        ensures status { result ≡ notes_status self }
        ensures told { AppendsFront (E.contents errors.old) (E.contents errors.new)
            (notes_line file.now self) }
    {
        match self {
            NotesFault::NoNote { line } => {
                tell_no_note(file, line, errors);
                1
            }
            NotesFault::TooLong => {
                put_named(file, &[NOTES_TOO_LONG.as_bytes()], errors);
                1
            }
            NotesFault::OutOfMemory => refuse(Refusal::OutOfMemory, errors),
        }
    }
}
