//! Instructions with names.

ghost use Rattle.std.specs.Prelude.{◌≡◌, ◌≤◌, ◌++◌, OnOk, drop, length, take};
ghost use Rattle.std.specs.List.{flat_map, prefix_len};
ghost use Rattle.std.specs.Option.{option_copied};
ghost use Rattle.disasm.specs.Rows.{row_view};
ghost use Rattle.source_map.specs.Lines.{row_at};
ghost use Rattle.mon_instructions.specs.Instructions.{behind_dollar, byte_column, bytes_at, digits_of};
ghost use Rattle.mon_instructions.specs.Instructions.{ends_in_hash, front_columns, front_of, instruction_at};
ghost use Rattle.mon_instructions.specs.Instructions.{instruction_columns, instruction_front, instruction_line};
ghost use Rattle.mon_instructions.specs.Instructions.{instruction_row};
ghost use Rattle.mon_instructions.specs.Instructions.{instruction_text, is_before_address};
ghost use Rattle.mon_instructions.specs.Instructions.{is_hex_digit, is_no_dollar, name_in};
ghost use Rattle.mon_instructions.specs.Instructions.{name_of_number, named_text, next_line, rest_of};
ghost use Rattle.mon_instructions.specs.Instructions.{with_line};

use crate::wording::NEXT;
use debugger::Session;
use disasm::{TextLine, line_in};
use formatting::{push_address, push_blanks, push_byte, push_text};
use mon_line_parts::{number_in, without_first};
use source_map::Places;
use std::alloc::AllocError;

/// Counts the bytes before the first `$`.
fn before_number(text: &[u8]) -> usize
    ensures counted { result ≡ prefix_len is_no_dollar text.now }
    ensures inside { result ≤ length text.now }
{
    text.iter().take_while(|byte| **byte != b'$').count()
}

/// Counts the hex digits at the front.
fn hex_digits(text: &[u8]) -> usize
    ensures counted { result ≡ prefix_len is_hex_digit text.now }
    ensures inside { result ≤ length text.now }
{
    text.iter()
        .take_while(|byte| matches!(**byte, b'0'..=b'9' | b'A'..=b'F'))
        .count()
}

/// Returns a text before its first `$`.
fn front_of(row: &[u8]) -> &[u8]
    ensures { result.now ≡ front_of row.now }
{
    &row[..before_number(row)]
}

/// Returns a text behind its first `$`.
fn behind_dollar(row: &[u8]) -> &[u8]
    ensures { result.now ≡ behind_dollar row.now }
{
    without_first(&row[before_number(row)..])
}

/// Returns the hex digits behind the first `$`.
fn digits_of(row: &[u8]) -> &[u8]
    ensures { result.now ≡ digits_of row.now }
{
    let number = behind_dollar(row);
    &number[..hex_digits(number)]
}

/// Returns what is behind those digits.
fn rest_of(row: &[u8]) -> &[u8]
    ensures { result.now ≡ rest_of row.now }
{
    let number = behind_dollar(row);
    &number[hex_digits(number)..]
}

/// Returns whether a text ends in `#`.
fn ends_in_hash(text: &[u8]) -> bool
    ensures { result ≡ ends_in_hash text.now }
{
    match text.last() {
        Some(byte) => *byte == b'#',
        None => false,
    }
}

/// Returns whether what stands behind a text is an address: no directive begins it, and no `#` ends
/// it.
fn is_before_address(front: &[u8]) -> bool
    ensures { result ≡ is_before_address front.now }
{
    match front {
        [] => true,
        [first, ..] => *first != b'.' && !ends_in_hash(front),
    }
}

/// Returns the name of a number that is an address.
fn name_of_number(places: &Places, number: u32) -> Option<&[u8]>
    ensures { option_copied result ≡ name_of_number places.now.names number }
{
    if number <= 65535 {
        places.names().name_at(number as u16)
    } else {
        None
    }
}

/// Returns the name of the address in the text of an instruction, if it has one.
fn name_in<'a>(places: &'a Places, row: &[u8]) -> Option<&'a [u8]>
    ensures { option_copied result ≡ name_in places.now.names row.now }
{
    if is_before_address(front_of(row)) {
        name_of_number(places, number_in(16, digits_of(row)).unwrap_or(65536))
    } else {
        None
    }
}

/// Appends the text of an instruction, with a name in place of its address if one has it.
#[tactic(auto, unfolding(crate::specs::Instructions::named_text))]
fn push_named(text: &mut Vec<u8>, places: &Places, row: &[u8]) -> Result<(), AllocError>
    ensures { OnOk result (text.new.items ≡ text.old.items
        ++ named_text places.now.names row.now) }
{
    match name_in(places, row) {
        Some(name) => {
            text.extend_from_slice(front_of(row))?;
            text.extend_from_slice(name)?;
            text.extend_from_slice(rest_of(row))
        }
        None => text.extend_from_slice(row),
    }
}

/// Returns the byte at an address and the two behind it.
pub fn bytes_at(session: &Session, address: u16) -> [u8; 3]
    ensures { result ≡ bytes_at session.now.current address }
{
    [
        session.peek(address),
        session.peek(address.wrapping_add(1)),
        session.peek(address.wrapping_add(2)),
    ]
}

/// Returns the row of the instruction at an address.
pub fn row_at(session: &Session, address: u16) -> TextLine
    ensures row { row_view result ≡ instruction_at session.now.current address }
    ensures short { result.text_len ≤ 12 }
    ensures within { result.len ≤ 3 }
{
    line_in(session.profile(), &bytes_at(session, address), address)
}

/// Appends the text of the instruction at an address.
///
/// Errors: `AllocError` if an allocation fails.
pub fn push_instruction(
    text: &mut Vec<u8>,
    session: &Session,
    places: &Places,
    address: u16,
) -> Result<(), AllocError>
    ensures ok { OnOk result (text.new.items ≡ text.old.items
        ++ instruction_text session.now.current places.now.names address) }
{
    let row = row_at(session, address);
    push_named(text, places, &row.text[..row.text_len as usize])
}

/// Appends a byte as two hex digits, and a blank.
pub fn push_byte_column(text: &mut Vec<u8>, byte: u8) -> Result<(), AllocError>
    ensures { OnOk result (text.new.items ≡ text.old.items ++ byte_column byte) }
{
    push_byte(text, byte)?;
    push_text(text, " ")
}

/// Appends bytes as two hex digits, with a blank behind each.
fn push_bytes(text: &mut Vec<u8>, bytes: &[u8]) -> Result<(), AllocError>
    ensures { OnOk result (text.new.items ≡ text.old.items ++ flat_map byte_column bytes.now) }
{
    for byte in bytes {
        push_byte_column(text, *byte)?;
    }
    Ok(())
}

/// Appends an address and `len` bytes from there on, at most three.
#[tactic(auto, using(formatting::proofs::Padding::grown), unfolding(crate::specs::Instructions::front_columns))]
pub fn push_front(
    text: &mut Vec<u8>,
    session: &Session,
    address: u16,
    len: u8,
) -> Result<(), AllocError>
    requires { len ≤ 3 }
    ensures { OnOk result (text.new.items ≡ text.old.items
        ++ front_columns len session.now.current address) }
{
    let from = text.len();
    push_address(text, address)?;
    push_text(text, "  ")?;
    push_bytes(text, &bytes_at(session, address)[..len as usize])?;
    push_blanks(text, from, 16)
}

/// Appends the address and the bytes of the instruction at an address.
pub fn push_instruction_front(
    text: &mut Vec<u8>,
    session: &Session,
    address: u16,
) -> Result<(), AllocError>
    ensures { OnOk result (text.new.items ≡ text.old.items
        ++ instruction_front session.now.current address) }
{
    push_front(text, session, address, row_at(session, address).len)
}

/// Appends the address, the bytes and the text of the instruction at an address.
pub fn push_columns(
    text: &mut Vec<u8>,
    session: &Session,
    places: &Places,
    address: u16,
) -> Result<(), AllocError>
    ensures ok { OnOk result (text.new.items ≡ text.old.items
        ++ instruction_columns session.now.current places.now.names address) }
{
    push_instruction_front(text, session, address)?;
    push_instruction(text, session, places, address)
}

/// Appends the file and the number of a line to the row that begins at `from`.
#[tactic(auto, using(formatting::proofs::Padding::grown), unfolding(crate::specs::Instructions::with_line))]
pub fn push_line(
    text: &mut Vec<u8>,
    from: usize,
    places: &Places,
    address: u16,
) -> Result<(), AllocError>
    requires { from ≤ length text.old.items }
    ensures { OnOk result (text.new.items ≡ take from text.old.items
        ++ with_line places.now.sources (row_at places.now.lines address)
        (drop from text.old.items)) }
{
    if let Some(row) = places.row_at(address) {
        push_blanks(text, from, 34)?;
        push_text(text, "; ")?;
        places.push_site(text, row)?;
    }
    Ok(())
}

/// Appends the row of an instruction: address, bytes, text, and the line of the source if there is
/// one. The row is not ended.
///
/// Errors: `AllocError` if an allocation fails.
#[tactic(auto, using(formatting::proofs::Padding::grown))]
pub fn push_open_row(
    text: &mut Vec<u8>,
    session: &Session,
    places: &Places,
    address: u16,
) -> Result<(), AllocError>
    ensures ok { OnOk result (text.new.items ≡ text.old.items
        ++ instruction_row session.now.current places.now address) }
{
    let from = text.len();
    push_columns(text, session, places, address)?;
    push_line(text, from, places, address)
}

/// Appends the line of an instruction: its row, ended.
///
/// Errors: `AllocError` if an allocation fails.
pub fn push_row(
    text: &mut Vec<u8>,
    session: &Session,
    places: &Places,
    address: u16,
) -> Result<(), AllocError>
    ensures ok { OnOk result (text.new.items ≡ text.old.items
        ++ instruction_line session.now.current places.now address) }
{
    push_open_row(text, session, places, address)?;
    push_text(text, "\n")
}

/// Appends the line that says which instruction comes next.
///
/// Errors: `AllocError` if an allocation fails.
pub fn push_next(text: &mut Vec<u8>, session: &Session, places: &Places) -> Result<(), AllocError>
    ensures ok { OnOk result (text.new.items ≡ text.old.items
        ++ next_line session.now.current places.now.names) }
{
    push_text(text, NEXT)?;
    push_instruction(text, session, places, session.regs().pc)?;
    push_text(text, "\n")
}
