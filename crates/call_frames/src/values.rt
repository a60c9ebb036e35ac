//! What locals hold, as it is written.

ghost use Rattle.std.specs.Prelude.{◌≡◌, ◌≤◌, ◌++◌, OnOk};
ghost use Rattle.std.specs.List.{flat_map};
ghost use Rattle.call_frames.specs.Values.{byte_behind_blank, bytes_of, bytes_text, half_of};
ghost use Rattle.call_frames.specs.Values.{hex_number, is_number, number_in, number_text};
ghost use Rattle.call_frames.specs.Values.{signed_text, sized_text, value_by, value_text, word_in};

use c_frames::Local;
use debugger::Session;
use formatting::{push_address, push_byte, push_count, push_text};
use std::alloc::AllocError;

/// How many bytes are shown of what is no number.
const SHOWN: u16 = 8;

// What stands between the words of a value.
const FURTHER: &str = " ..";

const OR: &str = " or ";

const VALUE: &str = " = $";

const AS_BYTES: &str = "bytes";

const UNKNOWN_SIZE: &str = "of unknown size";

/// Appends a byte behind a blank.
fn push_behind_blank(text: &mut Vec<u8>, byte: u8) -> Result<(), AllocError>
    ensures { OnOk result (text.new.items ≡ text.old.items ++ byte_behind_blank byte) }
{
    push_text(text, " ")?;
    push_byte(text, byte)
}

/// Appends `count` bytes from an address on, each behind a blank.
fn push_all(
    text: &mut Vec<u8>,
    session: &Session,
    address: u16,
    count: u16,
) -> Result<(), AllocError>
    ensures { OnOk result (text.new.items ≡ text.old.items
        ++ flat_map byte_behind_blank (bytes_of session.now.current.bus.memory address count)) }
{
    let mut at = address;
    for _ in 0..count {
        push_behind_blank(text, session.peek(at))?;
        at = at.wrapping_add(1);
    }
    Ok(())
}

/// Appends the first eight of `size` bytes from an address on, each behind a blank.
///
/// Errors: `AllocError` if an allocation fails.
pub fn push_bytes(
    text: &mut Vec<u8>,
    session: &Session,
    address: u16,
    size: u16,
) -> Result<(), AllocError>
    ensures { OnOk result (text.new.items ≡ text.old.items
        ++ bytes_text session.now.current.bus.memory address size) }
{
    push_all(text, session, address, size.min(SHOWN))?;
    if SHOWN < size {
        return push_text(text, FURTHER);
    }
    Ok(())
}

/// Returns whether what has so many bytes is shown as a number.
pub fn is_number(size: u16) -> bool
    ensures { result ≡ is_number size }
{
    size == 1 || size == 2 || size == 4
}

/// Returns the word at an address, its low byte first.
fn word_in(session: &Session, address: u16) -> u16
    ensures { result ≡ word_in session.now.current.bus.memory address }
{
    session.peek(address) as u16 + 256 * session.peek(address.wrapping_add(1)) as u16
}

/// Returns the number of one, two or four bytes at an address.
fn number_in(session: &Session, address: u16, size: u16) -> u64
    ensures { result ≡ number_in session.now.current.bus.memory address size }
{
    if size == 1 {
        session.peek(address) as u64
    } else if size == 2 {
        word_in(session, address) as u64
    } else {
        let high = word_in(session, address.wrapping_add(2));
        word_in(session, address) as u64 + 65536 * high as u64
    }
}

/// Returns the lowest number of so many bytes that is negative if it is signed.
fn half_of(size: u16) -> u64
    ensures { result ≡ half_of size }
{
    if size == 1 {
        128
    } else if size == 2 {
        32768
    } else {
        2147483648
    }
}

/// Appends a number, and before it the negative one that it is if it is signed.
fn push_signed(text: &mut Vec<u8>, half: u64, number: u64) -> Result<(), AllocError>
    requires { half ≤ 2147483648 }
    ensures { OnOk result (text.new.items ≡ text.old.items ++ signed_text half number) }
{
    if number < half {
        return push_count(text, number);
    }
    push_text(text, "-")?;
    push_count(text, (half + half).saturating_sub(number))?;
    push_text(text, OR)?;
    push_count(text, number)
}

/// Appends the hex digits of the number at an address.
fn push_hex(
    text: &mut Vec<u8>,
    session: &Session,
    address: u16,
    size: u16,
) -> Result<(), AllocError>
    ensures { OnOk result (text.new.items ≡ text.old.items
        ++ hex_number session.now.current.bus.memory address size) }
{
    if size == 1 {
        return push_byte(text, session.peek(address));
    }
    if size == 2 {
        return push_address(text, word_in(session, address));
    }
    push_address(text, word_in(session, address.wrapping_add(2)))?;
    push_address(text, word_in(session, address))
}

/// Appends the number of one, two or four bytes at an address.
fn push_number(
    text: &mut Vec<u8>,
    session: &Session,
    address: u16,
    size: u16,
) -> Result<(), AllocError>
    ensures { OnOk result (text.new.items ≡ text.old.items
        ++ number_text session.now.current.bus.memory address size) }
{
    push_signed(text, half_of(size), number_in(session, address, size))?;
    push_text(text, VALUE)?;
    push_hex(text, session, address, size)
}

/// Appends what stands in so many bytes from an address on.
fn push_sized(
    text: &mut Vec<u8>,
    session: &Session,
    address: u16,
    size: u16,
) -> Result<(), AllocError>
    ensures { OnOk result (text.new.items ≡ text.old.items
        ++ sized_text session.now.current.bus.memory address size) }
{
    if is_number(size) {
        return push_number(text, session, address, size);
    }
    push_text(text, AS_BYTES)?;
    push_bytes(text, session, address, size)
}

/// Appends what a local holds: a number of one, two or four bytes as `88 = $0058`, or as
/// `-31360 or 34176 = $8580` if it can be signed, other bytes as `bytes 41 4E 4E`.
///
/// Errors: `AllocError` if an allocation fails.
pub fn push_value(text: &mut Vec<u8>, session: &Session, local: Local) -> Result<(), AllocError>
    ensures { OnOk result (text.new.items ≡ text.old.items
        ++ value_text session.now.current.bus.memory local) }
{
    match local.size {
        Some(size) => push_sized(text, session, local.address, size),
        None => push_text(text, UNKNOWN_SIZE),
    }
}
