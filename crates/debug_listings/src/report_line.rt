//! What a line of a report says.

ghost use Rattle.std.specs.Prelude.{◌≡◌, ◌==◌, drop, is_some, not, position, take};
ghost use Rattle.std.specs.List.{list_all};
ghost use Rattle.std.specs.Str.{byte};
ghost use Rattle.model.specs.Token.{is_hex_byte};
ghost use Rattle.debug_listings.specs.ReportLines.{are_instruction, bytes_column, ends_file, has_length, is_close};
ghost use Rattle.debug_listings.specs.ReportLines.{line_view, report_bytes, report_bytes_if, report_line, report_row, row_with};
ghost use Rattle.debug_listings.specs.ReportLines.{shown_count, without_blanks};
ghost use Rattle.debug_records.specs.Faults.{seen};
ghost use Rattle.model.specs.OpcodeTable.{row_at};

use crate::line::{address_in, begins, cut, decimal_in, fault_at, hex_in, sign_at};
use debug_records::{DebugFaultKind, LineFault};
use model::Row;
use optable::decode;

/// Where the first byte of a row is loaded, and how many its line has.
#[derive(Clone, Copy)]
pub struct ReportBytes {
    pub start: u16,
    /// Nine if there are more than eight.
    pub count: u8,
    /// Whether they are surely one behind another.
    pub is_close: bool,
}

/// What a line says.
#[derive(Clone, Copy)]
pub enum ReportLine<'a> {
    /// Nothing of lines.
    Nothing,
    /// The file of a name is read from here on.
    Head(&'a [u8]),
    /// A line of a source, with its bytes, if it has some.
    Row {
        line: u32,
        bytes: Option<ReportBytes>,
        /// Whether a file ended in it, and no head says which is read behind it.
        ends_file: bool,
    },
}

/// What a head begins with.
const HEAD_FRONT: &[u8] = b"; ******** Source: ";

/// Returns whether a byte is a hex digit.
fn is_hex_byte(byte: u8) -> bool
    ensures { result ≡ is_hex_byte byte }
{
    byte.is_ascii_hexdigit()
}

/// Returns whether a text has hex digits alone.
fn are_hex_bytes(text: &[u8]) -> bool
    ensures { result ≡ list_all is_hex_byte text.now }
{
    text.iter().all(|byte| is_hex_byte(*byte))
}

/// Returns as many bytes from the front of a text, or all if there are fewer.
fn front(text: &[u8], count: usize) -> &[u8]
    ensures { result.now ≡ take count text.now }
{
    if count < text.len() {
        &text[..count]
    } else {
        text
    }
}

/// Returns a text without as many bytes at its front.
fn behind(text: &[u8], count: usize) -> &[u8]
    ensures { result.now ≡ drop count text.now }
{
    if count < text.len() {
        &text[count..]
    } else {
        &text[text.len()..]
    }
}

/// Returns how many bytes a column has, nine if they are more than eight.
fn shown_count(column: &[u8], text: &[u8]) -> Result<u8, LineFault>
    ensures { shown_count column.now text.now ≡ result }
{
    let size = column.len();
    if size == 19 && begins(behind(column, 16), b"...") && are_hex_bytes(front(column, 16)) {
        Ok(9)
    } else if size <= 16 && 2 <= size && size % 2 == 0 && are_hex_bytes(column) {
        Ok((size / 2) as u8)
    } else {
        Err(fault_at(DebugFaultKind::NoBytes, text))
    }
}

/// Returns whether an instruction has so many bytes.
fn has_length(count: u8, row: Option<Row>) -> bool
    ensures { result ≡ has_length count row }
{
    match row {
        None => false,
        Some(row) => row.len == count,
    }
}

/// Returns whether so many bytes are one instruction, by the first of them.
fn are_instruction(count: u8, first: Option<u32>) -> bool
    ensures { result ≡ are_instruction count first }
{
    match first {
        None => false,
        Some(first) => first <= 255 && has_length(count, decode(first as u8)),
    }
}

/// Returns whether so many bytes of a column are surely one behind another.
fn is_close(count: u8, column: &[u8]) -> bool
    ensures { result ≡ is_close count column.now }
{
    count == 1 || are_instruction(count, hex_in(front(column, 2)))
}

/// Returns the bytes in their column, with which a text begins.
fn bytes_column(text: &[u8]) -> &[u8]
    ensures { result.now ≡ bytes_column text.now }
{
    let (column, _) = cut(b' ', front(text, 19));
    column
}

/// Returns the bytes of a row, whose address comes next.
#[tactic(auto, unfolding(crate::specs::ReportLines::report_bytes))]
fn report_bytes(text: &[u8]) -> Result<ReportBytes, LineFault>
    ensures { report_bytes text.now ≡ result }
{
    let (address, rest) = cut(b' ', text);
    let column = bytes_column(rest);
    let start = address_in(address, text)?;
    let count = shown_count(column, rest)?;
    Ok(ReportBytes {
        start,
        count,
        is_close: is_close(count, column),
    })
}

/// Returns the bytes of a row, if it has an address.
fn report_bytes_if(text: &[u8]) -> Result<Option<ReportBytes>, LineFault>
    ensures { report_bytes_if text.now ≡ result }
{
    if text.is_empty() || begins(text, b" ") {
        Ok(None)
    } else {
        let bytes = report_bytes(text)?;
        Ok(Some(bytes))
    }
}

/// Returns whether a file ended in a line, and no head came before the next one.
fn ends_file(line: &[u8]) -> bool
    ensures { result ≡ ends_file line.now }
{
    sign_at(255, line).is_some()
}

/// Returns where the first sign stands that is no blank.
fn word_at(text: &[u8]) -> Option<usize>
    ensures { result ≡ position (λ b. not (b == byte " ")) text.now }
{
    text.iter().position(|byte| *byte != b' ')
}

/// Returns a text without the blanks at its front.
fn without_blanks(text: &[u8]) -> &[u8]
    ensures { result.now ≡ without_blanks text.now }
{
    match word_at(text) {
        None => &text[text.len()..],
        Some(at) => &text[at..],
    }
}

/// Returns a row, by the number of its line and what stands behind it.
fn row_with<'a>(text: &[u8], number: Option<u32>, rest: &[u8]) -> Result<ReportLine<'a>, LineFault>
    ensures { row_with text.now number rest.now ≡ seen line_view result }
{
    match number {
        None => Err(fault_at(DebugFaultKind::NoNumber, text)),
        Some(line) => {
            let bytes = report_bytes_if(behind(rest, 1))?;
            Ok(ReportLine::Row {
                line,
                bytes,
                ends_file: ends_file(text),
            })
        }
    }
}

/// Returns the row that a text without blanks at its front is.
#[tactic(auto, unfolding(crate::specs::ReportLines::report_row))]
fn report_row<'a>(text: &[u8]) -> Result<ReportLine<'a>, LineFault>
    ensures { report_row text.now ≡ seen line_view result }
{
    let (digits, rest) = cut(b' ', text);
    row_with(text, decimal_in(digits), rest)
}

/// Returns what a line of a report says.
#[tactic(auto, unfolding(crate::specs::ReportLines::report_line))]
pub fn report_line(line: &[u8]) -> Result<ReportLine<'_>, LineFault>
    ensures { report_line line.now ≡ seen line_view result }
{
    if line.is_empty() {
        Ok(ReportLine::Nothing)
    } else if begins(line, HEAD_FRONT) {
        Ok(ReportLine::Head(behind(line, HEAD_FRONT.len())))
    } else {
        report_row(without_blanks(line))
    }
}
