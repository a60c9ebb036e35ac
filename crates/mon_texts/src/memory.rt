//! Memory and the stack.

ghost use Rattle.std.specs.Prelude.{◌≡◌, ◌+◌, ◌*◌, ◌≤◌, ◌<◌, ◌++◌, OnOk};
ghost use Rattle.std.specs.List.{flat_map};
ghost use Rattle.mon_instructions.specs.Instructions.{byte_column};
ghost use Rattle.mon_texts.specs.Memory.{byte_after_blank, bytes_from, character_text, goes_on};
ghost use Rattle.mon_texts.specs.Memory.{goes_on_at, memory_row, memory_rows, memory_text, next_of};
ghost use Rattle.mon_texts.specs.Memory.{numbered_row, shown_count, stack_line};

use crate::wording::{GOES_ON, MEMORY_PART, STACK_EMPTY};
use debugger::Session;
use formatting::{push_address, push_blanks, push_byte, push_text};
use mon_instructions::{push_byte_column, push_character};
use mon_lines::Stretch;
use std::alloc::AllocError;

/// Appends `count` bytes from an address on, with a blank behind each.
fn push_bytes(
    text: &mut Vec<u8>,
    session: &Session,
    first: u16,
    count: u16,
) -> Result<(), AllocError>
    requires { first + count ≤ 65536 }
    ensures { OnOk result (text.new.items ≡ text.old.items
        ++ flat_map byte_column (bytes_from session.now.current.bus.memory first count)) }
{
    for offset in 0..count {
        push_byte_column(text, session.peek(first + offset))?;
    }
    Ok(())
}

/// Appends `count` bytes from an address on as characters.
fn push_characters(
    text: &mut Vec<u8>,
    session: &Session,
    first: u16,
    count: u16,
) -> Result<(), AllocError>
    requires { first + count ≤ 65536 }
    ensures { OnOk result (text.new.items ≡ text.old.items
        ++ flat_map character_text (bytes_from session.now.current.bus.memory first count)) }
{
    for offset in 0..count {
        push_character(text, session.peek(first + offset))?;
    }
    Ok(())
}

/// Appends a row of memory: an address, `count` bytes, and the characters beside them.
#[tactic(auto, using(formatting::proofs::Padding::grown), unfolding(crate::specs::Memory::memory_row))]
fn push_row(text: &mut Vec<u8>, session: &Session, first: u16, count: u16) -> Result<(), AllocError>
    requires { first + count ≤ 65536 }
    ensures { OnOk result (text.new.items ≡ text.old.items
        ++ memory_row session.now.current.bus.memory first count) }
{
    let from = text.len();
    push_address(text, first)?;
    push_text(text, "  ")?;
    push_bytes(text, session, first, count)?;
    push_blanks(text, from, 55)?;
    push_characters(text, session, first, count)?;
    push_text(text, "\n")
}

/// Appends the row of a number, counted from 0, of the rows that show a stretch of memory.
#[tactic(auto, unfolding(crate::specs::Memory::numbered_row))]
fn push_numbered(
    text: &mut Vec<u8>,
    session: &Session,
    first: u16,
    count: u16,
    row: u16,
) -> Result<(), AllocError>
    requires within { first + count ≤ 65536 }
    requires row { 16 * row < count }
    ensures { OnOk result (text.new.items ≡ text.old.items
        ++ numbered_row session.now.current.bus.memory first count row) }
{
    push_row(text, session, first + 16 * row, (count - 16 * row).min(16))
}

/// Appends `count` bytes from an address on, in rows of 16 bytes.
fn push_rows(
    text: &mut Vec<u8>,
    session: &Session,
    first: u16,
    count: u16,
) -> Result<(), AllocError>
    requires within { first + count ≤ 65536 }
    requires few { count ≤ 256 }
    ensures { OnOk result (text.new.items ≡ text.old.items
        ++ memory_rows session.now.current.bus.memory first count) }
{
    for row in 0..(count + 15) / 16 {
        push_numbered(text, session, first, count, row)?;
    }
    Ok(())
}

/// Returns how many bytes are shown at once.
fn shown_count(stretch: Stretch) -> u16
    ensures count { result ≡ shown_count stretch }
    ensures within { stretch.first + result ≤ 65536 }
    ensures few { result ≤ 256 }
{
    if stretch.last < stretch.first {
        0
    } else {
        (stretch.last - stretch.first).min(255) + 1
    }
}

/// Returns the address where it goes on if there is more memory than is shown.
fn next_of(stretch: Stretch) -> Option<u16>
    ensures { result ≡ next_of stretch }
{
    if stretch.first <= 65279 && stretch.first + 256 <= stretch.last {
        Some(stretch.first + 256)
    } else {
        None
    }
}

/// Appends that it goes on at an address.
fn push_goes_on_at(text: &mut Vec<u8>, next: u16) -> Result<(), AllocError>
    ensures { OnOk result (text.new.items ≡ text.old.items ++ goes_on_at next) }
{
    push_text(text, MEMORY_PART)?;
    push_address(text, next)?;
    push_text(text, GOES_ON)?;
    Ok(())
}

/// Appends how it goes on, if it does.
fn push_goes_on(text: &mut Vec<u8>, next: Option<u16>) -> Result<(), AllocError>
    ensures { OnOk result (text.new.items ≡ text.old.items ++ goes_on next) }
{
    match next {
        Some(next) => push_goes_on_at(text, next),
        None => Ok(()),
    }
}

/// Appends memory from the first to the last address, the first 256 bytes of it, and says how it
/// goes on if there are more.
///
/// Errors: `AllocError` if an allocation fails.
pub fn push_memory(
    text: &mut Vec<u8>,
    session: &Session,
    stretch: Stretch,
) -> Result<(), AllocError>
    ensures ok { OnOk result (text.new.items ≡ text.old.items
        ++ memory_text session.now.current.bus.memory stretch) }
{
    push_rows(text, session, stretch.first, shown_count(stretch))?;
    push_goes_on(text, next_of(stretch))
}

/// Appends a byte after a blank.
fn push_after_blank(text: &mut Vec<u8>, byte: u8) -> Result<(), AllocError>
    ensures { OnOk result (text.new.items ≡ text.old.items ++ byte_after_blank byte) }
{
    text.push(b' ')?;
    push_byte(text, byte)
}

/// Appends `count` bytes from an address on, each after a blank.
fn push_spaced(
    text: &mut Vec<u8>,
    session: &Session,
    first: u16,
    count: u16,
) -> Result<(), AllocError>
    requires { first + count ≤ 65536 }
    ensures { OnOk result (text.new.items ≡ text.old.items
        ++ flat_map byte_after_blank (bytes_from session.now.current.bus.memory first count)) }
{
    for offset in 0..count {
        push_after_blank(text, session.peek(first + offset))?;
    }
    Ok(())
}

/// Appends the bytes on the stack above a stack pointer, the top one first.
#[tactic(auto, unfolding(crate::specs::Memory::stack_line))]
fn push_stack_at(text: &mut Vec<u8>, session: &Session, stack: u8) -> Result<(), AllocError>
    ensures { OnOk result (text.new.items ≡ text.old.items
        ++ stack_line session.now.current.bus.memory stack) }
{
    if stack == 255 {
        return push_text(text, STACK_EMPTY);
    }
    push_text(text, "S=")?;
    push_byte(text, stack)?;
    push_text(text, ":")?;
    push_spaced(text, session, 257 + stack as u16, 255 - stack as u16)?;
    push_text(text, "\n")
}

/// Appends the bytes on the stack, the top one first.
///
/// Errors: `AllocError` if an allocation fails.
pub fn push_stack_line(text: &mut Vec<u8>, session: &Session) -> Result<(), AllocError>
    ensures ok { OnOk result (text.new.items ≡ text.old.items
        ++ stack_line session.now.current.bus.memory session.now.current.regs.s) }
{
    push_stack_at(text, session, session.regs().s)
}
