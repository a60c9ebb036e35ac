//! Instructions and data one after another, where lines of the source begin.

ghost use Rattle.std.specs.Prelude.{◌≡◌, ◌≤◌, ◌++◌, IfOk, OnOk};
ghost use Rattle.std.specs.List.{flat_map};
ghost use Rattle.mon_instructions.specs.Listed.{begins_line, columns_of, data_columns, data_len};
ghost use Rattle.mon_instructions.specs.Listed.{data_text, further_byte, is_cut, listed_len, listed_line};

use crate::instructions::{bytes_at, push_columns, push_front, push_line, row_at};
use crate::made::has_bytes_of;
use crate::wording::{DATA, FURTHER_DATA};
use debugger::Session;
use formatting::{push_byte, push_text};
use source_map::Places;
use std::alloc::AllocError;

/// Returns whether a line begins at an address whose first bytes memory has.
fn begins_line(session: &Session, places: &Places, address: u16) -> bool
    ensures { result ≡ begins_line session.now.current places.now.lines address }
{
    match places.row_at(address) {
        Some(row) => has_bytes_of(session, row),
        None => false,
    }
}

/// Returns whether an instruction of `len` bytes would run into such a line.
fn is_cut(session: &Session, places: &Places, address: u16, len: u8) -> bool
    ensures { result ≡ is_cut len session.now.current places.now.lines address }
{
    (len > 1 && begins_line(session, places, address.wrapping_add(1)))
        || (len > 2 && begins_line(session, places, address.wrapping_add(2)))
}

/// Returns how many bytes a row has that are data, at most three: 0 if it is an instruction.
fn data_len(session: &Session, places: &Places, address: u16) -> u8
    ensures len { result ≡ data_len session.now.current places.now.lines address }
    ensures few { result ≤ 3 }
{
    let left = places.data_left(address);
    if left > 0 {
        left.min(3) as u8
    } else if is_cut(session, places, address, row_at(session, address).len) {
        1
    } else {
        0
    }
}

/// Returns how many bytes a row has.
#[tactic(auto, unfolding(crate::specs::Listed::listed_len))]
fn listed_len(session: &Session, places: &Places, address: u16) -> u8
    ensures { result ≡ listed_len session.now.current places.now.lines address }
{
    let len = data_len(session, places, address);
    if len == 0 {
        row_at(session, address).len
    } else {
        len
    }
}

/// Appends a byte behind another one.
fn push_further(text: &mut Vec<u8>, byte: u8) -> Result<(), AllocError>
    ensures { OnOk result (text.new.items ≡ text.old.items ++ further_byte byte) }
{
    push_text(text, FURTHER_DATA)?;
    push_byte(text, byte)
}

/// Appends bytes behind the first one.
fn push_others(text: &mut Vec<u8>, bytes: &[u8]) -> Result<(), AllocError>
    ensures { OnOk result (text.new.items ≡ text.old.items ++ flat_map further_byte bytes.now) }
{
    for byte in bytes {
        push_further(text, *byte)?;
    }
    Ok(())
}

/// Appends bytes as a source writes them.
fn push_data(text: &mut Vec<u8>, bytes: &[u8]) -> Result<(), AllocError>
    ensures { OnOk result (text.new.items ≡ text.old.items ++ data_text bytes.now) }
{
    match bytes {
        [] => Ok(()),
        [first, others @ ..] => {
            push_text(text, DATA)?;
            push_byte(text, *first)?;
            push_others(text, others)
        }
    }
}

/// Appends an address, and `len` bytes of data from there on.
fn push_data_columns(
    text: &mut Vec<u8>,
    session: &Session,
    address: u16,
    len: u8,
) -> Result<(), AllocError>
    requires { len ≤ 3 }
    ensures { OnOk result (text.new.items ≡ text.old.items
        ++ data_columns len session.now.current address) }
{
    push_front(text, session, address, len)?;
    push_data(text, &bytes_at(session, address)[..len as usize])
}

/// Appends an instruction, or `len` bytes of data.
fn push_columns_of(
    text: &mut Vec<u8>,
    session: &Session,
    places: &Places,
    address: u16,
    len: u8,
) -> Result<(), AllocError>
    requires { len ≤ 3 }
    ensures { OnOk result (text.new.items ≡ text.old.items
        ++ columns_of len session.now.current places.now.names address) }
{
    if len == 0 {
        push_columns(text, session, places, address)
    } else {
        push_data_columns(text, session, address, len)
    }
}

/// Appends the line of an address, and returns how many bytes it has, 1 to 3: the instruction
/// there, or data where a line of the source says so or where the instruction would run into such a
/// line, and the line of the source that begins there.
///
/// Errors: `AllocError` if an allocation fails.
#[tactic(auto, using(formatting::proofs::Padding::grown), unfolding(crate::specs::Listed::listed_line))]
pub fn push_listed(
    text: &mut Vec<u8>,
    session: &Session,
    places: &Places,
    address: u16,
) -> Result<u8, AllocError>
    ensures ok { OnOk result (text.new.items ≡ text.old.items
        ++ listed_line session.now.current places.now address) }
    ensures len { IfOk result
        (λ len. len ≡ listed_len session.now.current places.now.lines address) }
{
    let from = text.len();
    push_columns_of(
        text,
        session,
        places,
        address,
        data_len(session, places, address),
    )?;
    push_line(text, from, places, address)?;
    push_text(text, "\n")?;
    Ok(listed_len(session, places, address))
}
