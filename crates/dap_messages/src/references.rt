//! How a client names an address: a reference, `0x` and four hex digits, and an offset. How it
//! names bytes: the reference to the first, and that to the last, with `:` between them.

ghost use Rattle.std.specs.Prelude.{◌≡◌};
ghost use Rattle.dap_messages.specs.References.{address_of, last_in, offset_at, place_at};
ghost use Rattle.dap_messages.specs.References.{range_by, range_in, range_of};
ghost use Rattle.serde_json.specs.View.{view};

use crate::request::ByteRange;
use json_messages::text_at;
use serde_json::Value;

/// Returns the address of a reference, if it is one.
#[tactic(auto, unfolding(crate::specs::References::begins_reference))]
pub fn address_of(reference: &[u8]) -> Option<u16>
    ensures { result ≡ address_of reference.now }
{
    if reference.starts_with(b"0x") {
        commands::address_of(&reference[2..])
    } else {
        None
    }
}

/// Returns the number at a path of a message: 0 if there is none.
pub fn offset_at(message: &Value, path: &str) -> i64
    ensures { result ≡ offset_at path.now (view message.now) }
{
    message.pointer(path).and_then(Value::as_i64).unwrap_or(0)
}

/// Returns the address that a message names, by the paths of its reference and of its offset, if
/// it is within the memory.
pub fn place_at(message: &Value, reference: &str, offset: &str) -> Option<u16>
    ensures { result ≡ place_at reference.now offset.now (view message.now) }
{
    match text_at(message, reference) {
        Some(text) => match address_of(text.as_bytes()) {
            Some(address) => {
                let place = i128::from(address) + i128::from(offset_at(message, offset));
                if place >= 0 && place <= 65535 {
                    Some(place as u16)
                } else {
                    None
                }
            }
            None => None,
        },
        None => None,
    }
}

/// Returns so many bytes from an address on, if there is one at least, and all are within the
/// memory.
pub fn range_of(address: u16, count: u64) -> Option<ByteRange>
    ensures { result ≡ range_of address count }
{
    if count == 0 || count > 65536 - u64::from(address) {
        return None;
    }
    Some(ByteRange {
        first: address,
        last: address + (count - 1) as u16,
    })
}

/// Returns the bytes from an address to another, if both are named and are in order.
fn range_by(first: Option<u16>, last: Option<u16>) -> Option<ByteRange>
    ensures { result ≡ range_by first last }
{
    let first = first?;
    let last = last?;
    if first <= last {
        Some(ByteRange { first, last })
    } else {
        None
    }
}

/// Returns the address that stands behind `:`, if one does.
#[tactic(auto, unfolding(crate::specs::References::begins_last))]
fn last_in(text: &[u8]) -> Option<u16>
    ensures { result ≡ last_in text.now }
{
    if text.starts_with(b":") {
        address_of(&text[1..])
    } else {
        None
    }
}

/// Returns the bytes that an ID of data names, if it names some.
pub fn range_in(id: &[u8]) -> Option<ByteRange>
    ensures { result ≡ range_in id.now }
{
    if id.len() < 7 {
        let first = address_of(id);
        range_by(first, first)
    } else {
        range_by(address_of(&id[..6]), last_in(&id[6..]))
    }
}
