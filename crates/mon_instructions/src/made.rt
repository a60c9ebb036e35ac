//! The row of an instruction that is made, with its line of the source.

ghost use Rattle.std.specs.Prelude.{◌≡◌, ◌++◌, OnOk};
ghost use Rattle.std.specs.List.{flat_map};
ghost use Rattle.mon_instructions.specs.Made.{has_bytes_of, if_written, is_written, line_text, line_view};
ghost use Rattle.mon_instructions.specs.Made.{blanked_byte, made_row, row_or_source, source_row, trimmed};
ghost use Rattle.mon_instructions.specs.Made.{with_text};

use crate::instructions::{bytes_at, push_instruction_front, push_open_row};
use arguments::push_shown;
use debugger::Session;
use formatting::{push_blanks, push_count, push_text};
use source_map::{Places, Row};
use std::alloc::AllocError;

/// Returns whether memory has the first bytes of a line, at most three.
pub fn has_bytes_of(session: &Session, row: Row) -> bool
    ensures { result ≡ has_bytes_of session.now.current row }
{
    let count = row.count.min(3) as usize;
    bytes_at(session, row.address)[..count] == row.bytes[..count]
}

/// Returns whether a line is one instruction that memory has as it is written.
fn is_written(session: &Session, row: Row) -> bool
    ensures { result ≡ is_written session.now.current row }
{
    row.is_instruction && row.is_whole_line && has_bytes_of(session, row)
}

/// Returns the number and the text of a line, if its text is known.
fn with_text(places: &Places, row: Row) -> Option<(u32, &[u8])>
    ensures { line_view result ≡ with_text places.now.sources row }
{
    match places.text_of(row.file, row.line) {
        Some(text) => Some((row.line, text)),
        None => None,
    }
}

/// Returns the number and the text of a line, if there is one and memory has it as it is written.
fn if_written<'a>(
    session: &Session,
    places: &'a Places,
    row: Option<Row>,
) -> Option<(u32, &'a [u8])>
    ensures { line_view result ≡ if_written session.now.current places.now.sources row }
{
    match row {
        Some(row) => {
            if is_written(session, row) {
                with_text(places, row)
            } else {
                None
            }
        }
        None => None,
    }
}

/// Returns a text without the blanks in front of it and behind it.
fn trimmed(text: &[u8]) -> &[u8]
    ensures { result.now ≡ trimmed text.now }
{
    text.trim_ascii()
}

/// Appends a byte of a line, a blank in place of a tab.
fn push_blanked(text: &mut Vec<u8>, byte: u8) -> Result<(), AllocError>
    ensures { OnOk result (text.new.items ≡ text.old.items ++ blanked_byte byte) }
{
    text.push(if byte == b'\t' { b' ' } else { byte })?;
    Ok(())
}

/// Appends the bytes of a line.
fn push_line_bytes(text: &mut Vec<u8>, line: &[u8]) -> Result<(), AllocError>
    ensures { OnOk result (text.new.items ≡ text.old.items ++ flat_map blanked_byte line.now) }
{
    for byte in line {
        push_blanked(text, *byte)?;
    }
    Ok(())
}

/// Appends the text of a line without the blanks at its ends, and a blank in place of each tab. It
/// is shown as `arguments::push_shown` shows names, since a source may have any bytes.
///
/// Errors: `AllocError` if an allocation fails.
pub fn push_line_text(text: &mut Vec<u8>, line: &[u8]) -> Result<(), AllocError>
    ensures { OnOk result (text.new.items ≡ text.old.items ++ line_text line.now) }
{
    let mut bytes = Vec::new(*text.allocator());
    push_line_bytes(&mut bytes, trimmed(line))?;
    push_shown(text, bytes.as_slice())
}

/// Appends the row of a line that is an instruction: address, bytes, and the line's number and
/// text.
#[tactic(auto, using(formatting::proofs::Padding::grown), unfolding(crate::specs::Made::source_row))]
fn push_source_row(
    text: &mut Vec<u8>,
    session: &Session,
    address: u16,
    number: u32,
    line: &[u8],
) -> Result<(), AllocError>
    ensures { OnOk result (text.new.items ≡ text.old.items
        ++ source_row session.now.current address number line.now) }
{
    let from = text.len();
    push_instruction_front(text, session, address)?;
    push_count(text, number as u64)?;
    push_text(text, " ")?;
    push_blanks(text, from, 21)?;
    push_line_text(text, line)
}

/// Appends the row of a line, or that of the instruction if there is no line.
fn push_row_or_source(
    text: &mut Vec<u8>,
    session: &Session,
    places: &Places,
    address: u16,
    line: Option<(u32, &[u8])>,
) -> Result<(), AllocError>
    ensures { OnOk result (text.new.items ≡ text.old.items
        ++ row_or_source session.now.current places.now address (line_view line.entry)) }
{
    match line {
        Some((number, line)) => push_source_row(text, session, address, number, line),
        None => push_open_row(text, session, places, address),
    }
}

/// Appends the row of an instruction that is made: address, bytes, and the line of the source as it
/// is written. Where no line begins, the line has other bytes too, or memory no longer has its
/// bytes, it is that of `push_open_row`. The row is not ended.
///
/// Errors: `AllocError` if an allocation fails.
pub fn push_made_row(
    text: &mut Vec<u8>,
    session: &Session,
    places: &Places,
    address: u16,
) -> Result<(), AllocError>
    ensures ok { OnOk result (text.new.items ≡ text.old.items
        ++ made_row session.now.current places.now address) }
{
    let line = if_written(session, places, places.row_at(address));
    push_row_or_source(text, session, places, address, line)
}
