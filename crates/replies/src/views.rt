//! Views of the session: its registers, memory, output, breakpoints and instructions.

ghost use Rattle.std.specs.Prelude.{◌≡◌, ◌<◌, ◌≤◌, ◌∷◌, ◌++◌, [], OnErr, Err, length, slice_index};
ghost use Rattle.std.specs.List.{flat_map};
ghost use Rattle.model.specs.Writers.{Writes};
ghost use Rattle.model.specs.Text.{address_part, breaks_line, memory_rows, output_text};
ghost use Rattle.model.specs.Text.{register_line};
ghost use Rattle.model.specs.Disassembly.{bytes_from, rows_in};
ghost use Rattle.replies.specs.Output.{output_rows};

use crate::fault::ReplyFault;
use crate::output::put;
use crate::texts::{address_text, output_head, output_row_text, register_text, row_end, row_text};
use arrayvec::ArrayVec;
use debugger::Session;
use formatting::Text;
use std::io::Write;

/// Writes the register line.
pub fn put_registers<W: Write>(session: &Session, writer: &mut W) -> Result<(), ReplyFault>
    ensures writes { Writes (W.contents writer.old) (W.contents writer.new)
        (register_line session.now.current) result }
    ensures fault { OnErr result (result ≡ Err ReplyFault.Write) }
{
    put(writer, register_text(session).as_slice())
}

/// Writes the bytes of memory from one address to another, a row at a time.
pub fn put_rows<W: Write>(
    session: &Session,
    first: u16,
    last: u16,
    writer: &mut W,
) -> Result<(), ReplyFault>
    ensures writes { Writes (W.contents writer.old) (W.contents writer.new)
        (memory_rows session.now.current.bus.memory first last) result }
    ensures fault { OnErr result (result ≡ Err ReplyFault.Write) }
{
    for row in 0..last.saturating_sub(first) / 16 + 1 {
        let start = first + 16 * row;
        let text = row_text(session, start, row_end(start, last));
        match put(writer, text.as_slice()) {
            Ok(()) => {}
            Err(fault) => return Err(fault),
        }
    }
    Ok(())
}

/// Writes how many bytes of output there are, and the bytes, a row at a time.
pub fn put_output<W: Write>(session: &Session, writer: &mut W) -> Result<(), ReplyFault>
    ensures writes { Writes (W.contents writer.old) (W.contents writer.new)
        (output_text session.now.current.bus.out) result }
    ensures fault { OnErr result (result ≡ Err ReplyFault.Write) }
{
    match put(writer, output_head(session).as_slice()) {
        Ok(()) => put_output_rows(session, writer),
        Err(fault) => Err(fault),
    }
}

/// Writes the output's bytes, 32 a row.
fn put_output_rows<W: Write>(session: &Session, writer: &mut W) -> Result<(), ReplyFault>
    ensures writes { Writes (W.contents writer.old) (W.contents writer.new)
        (output_rows session.now.current.bus.out) result }
    ensures fault { OnErr result (result ≡ Err ReplyFault.Write) }
{
    for row in 0..session.output_len().div_ceil(32) {
        let text = output_row_text(session, 32 * row);
        match put(writer, text.as_slice()) {
            Ok(()) => {}
            Err(fault) => return Err(fault),
        }
    }
    Ok(())
}

/// Writes the breakpoints in order of setting.
pub fn put_breaks<W: Write>(session: &Session, writer: &mut W) -> Result<(), ReplyFault>
    ensures writes { Writes (W.contents writer.old) (W.contents writer.new)
        (breaks_line session.now.breaks) result }
    ensures fault { OnErr result (result ≡ Err ReplyFault.Write) }
{
    match put(writer, b"BREAKS") {
        Ok(()) => put_break_list(session, writer),
        Err(fault) => Err(fault),
    }
}

/// Writes the rest of the line: the addresses, and the line's end.
fn put_break_list<W: Write>(session: &Session, writer: &mut W) -> Result<(), ReplyFault>
    ensures writes { Writes (W.contents writer.old) (W.contents writer.new)
        (flat_map address_part session.now.breaks ++ 10 ∷ []) result }
    ensures fault { OnErr result (result ≡ Err ReplyFault.Write) }
{
    match put_addresses(session, writer) {
        Ok(()) => put(writer, b"\n"),
        Err(fault) => Err(fault),
    }
}

/// Writes the addresses of the breakpoints, each after a space.
fn put_addresses<W: Write>(session: &Session, writer: &mut W) -> Result<(), ReplyFault>
    ensures writes { Writes (W.contents writer.old) (W.contents writer.new)
        (flat_map address_part session.now.breaks) result }
    ensures fault { OnErr result (result ≡ Err ReplyFault.Write) }
{
    for index in 0..session.break_count() {
        let text = break_text(session, index);
        match put(writer, text.as_slice()) {
            Ok(()) => {}
            Err(fault) => return Err(fault),
        }
    }
    Ok(())
}

/// Returns a breakpoint's address after a space.
fn break_text(session: &Session, index: u32) -> Text
    requires { index < length session.now.breaks }
    ensures { result.items ≡ address_part (slice_index session.now.breaks index) }
{
    match session.break_at(index) {
        Some(address) => address_text(address),
        None => Text::new(),
    }
}

/// Writes at most so many instructions of the session's profile as text, from an address on.
///
/// The rows end after $FFFF.
pub fn put_instructions<W: Write>(
    session: &Session,
    address: u16,
    count: u32,
    writer: &mut W,
) -> Result<(), ReplyFault>
    ensures writes { Writes (W.contents writer.old) (W.contents writer.new) (rows_in
        session.now.current.bus.map.profile session.now.current.bus.memory 65535 address count)
        result }
    ensures fault { OnErr result (result ≡ Err ReplyFault.Write) }
{
    let mut next = address as u32;
    for done in 0..count {
        if next > 65535 {
            return Ok(());
        }
        let place = next as u16;
        let bytes = bytes_at(session, place);
        let row = disasm::row_text_in(session.profile(), bytes.as_slice(), place);
        match put(writer, row.text.as_slice()) {
            Ok(()) => {}
            Err(fault) => return Err(fault),
        }
        next += row.len as u32;
    }
    Ok(())
}

/// Returns the bytes of memory that an instruction at an address can have: three, or those to
/// $FFFF.
fn bytes_at(session: &Session, address: u16) -> ArrayVec<u8, 3>
    ensures bytes { result.items ≡ bytes_from session.now.current.bus.memory address }
    ensures some { 1 ≤ length result.items }
    ensures few { length result.items ≤ 3 }
{
    let mut bytes = ArrayVec::new();
    bytes.push(session.peek(address));
    let more = (65535 - address).min(2);
    for place in 0..more {
        bytes.push(session.peek(address + 1 + place));
    }
    bytes
}
