//! Addresses and references as they are shown.

ghost use Rattle.std.specs.Prelude.{◌≡◌, IfOk, string_bytes};
ghost use Rattle.dap_messages.specs.Texts.{address_text, data_id, marked, range_text};
ghost use Rattle.dap_messages.specs.Texts.{reference, two_marked};

use crate::request::ByteRange;
use formatting::{push_address, push_text};
use std::alloc::{AllocError, Global};

/// Returns a mark, and an address in four hex digits.
fn marked(alloc: Global, mark: &str, address: u16) -> Result<String, AllocError>
    ensures { IfOk result (λ text. string_bytes text ≡ marked mark.now address) }
{
    let mut text = Vec::new(alloc);
    push_text(&mut text, mark)?;
    push_address(&mut text, address)?;
    String::from_utf8_lossy(alloc, text.as_slice())
}

/// Returns an address: a `$` and four hex digits.
pub fn address_text(alloc: Global, address: u16) -> Result<String, AllocError>
    ensures { IfOk result (λ text. string_bytes text ≡ address_text address) }
{
    marked(alloc, "$", address)
}

/// Returns a reference to an address: `0x` and four hex digits.
pub fn reference(alloc: Global, address: u16) -> Result<String, AllocError>
    ensures { IfOk result (λ text. string_bytes text ≡ reference address) }
{
    marked(alloc, "0x", address)
}

/// Returns a mark, and two addresses with words between them, each in four hex digits.
fn two_marked(
    alloc: Global,
    mark: &str,
    first: u16,
    between: &str,
    second: u16,
) -> Result<String, AllocError>
    ensures { IfOk result
        (λ text. string_bytes text ≡ two_marked mark.now first between.now second) }
{
    let mut text = Vec::new(alloc);
    push_text(&mut text, mark)?;
    push_address(&mut text, first)?;
    push_text(&mut text, between)?;
    push_address(&mut text, second)?;
    String::from_utf8_lossy(alloc, text.as_slice())
}

/// Returns the addresses of bytes: that of the first, and of the last, if there are more.
pub fn range_text(alloc: Global, range: ByteRange) -> Result<String, AllocError>
    ensures { IfOk result (λ text. string_bytes text ≡ range_text range) }
{
    if range.first == range.last {
        address_text(alloc, range.first)
    } else {
        two_marked(alloc, "$", range.first, "..$", range.last)
    }
}

/// Returns the ID of bytes as data.
pub fn data_id(alloc: Global, range: ByteRange) -> Result<String, AllocError>
    ensures { IfOk result (λ text. string_bytes text ≡ data_id range) }
{
    if range.first == range.last {
        reference(alloc, range.first)
    } else {
        two_marked(alloc, "0x", range.first, ":0x", range.last)
    }
}
