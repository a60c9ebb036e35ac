//! The places of a source's lines as a text.

ghost use Rattle.std.specs.Prelude.{◌≡◌, ◌++◌, ◌≤◌, IfOk, OnOk, length};
ghost use Rattle.word_asm.specs.Texts.{map_row, map_text};
ghost use Rattle.word_asm.specs.Found.{extent_found, extents_found};
ghost use Rattle.source_faults.specs.Views.{found_all, found_view};

use formatting::address_text;
use itoa::Buffer;
use source_faults::Found;
use std::alloc::{AllocError, Global};

/// Returns the address of a line and how many bytes it has.
#[tactic(auto, unfolding(model::specs::Layout::size_of))]
fn extent(found: &Found<'_>) -> (u32, u32)
    ensures { result ≡ extent_found (found_view found.now) }
{
    match found {
        Found::Refused { address, kind: _ } => (*address, 0),
        Found::Plain { address, begins: _ } => (*address, 0),
        Found::Bytes(line) => (line.address, line.count),
    }
}

/// Appends the row of a line with a byte: its address, how many bytes it has, and its number.
fn push_place(out: &mut Vec<u8>, number: u32, address: u32, count: u32) -> Result<(), AllocError>
    ensures { OnOk result (out.new.items ≡ out.old.items ++ map_row number (address, count)) }
{
    if count == 0 {
        return Ok(());
    }
    out.extend_from_slice(&address_text(address))?;
    out.push(b'\t')?;
    out.extend_from_slice(Buffer::new().format(count).as_bytes())?;
    out.push(b'\t')?;
    out.extend_from_slice(Buffer::new().format(number).as_bytes())?;
    out.push(b'\n')?;
    Ok(())
}

/// Returns the places of the lines that have a byte, a row for each, in the order of the lines.
///
/// A row has the address in four hex digits, how many bytes the line has, and its number, counted
/// from 1, with a tab between them.
///
/// Errors: `AllocError` if an allocation fails. Source: mos65.
pub fn map_text(alloc: Global, found: &[Found<'_>]) -> Result<Vec<u8>, AllocError>
    requires { length found.now ≤ 1048576 }
    ensures { IfOk result
        (λ text. text.items ≡ map_text 1 (extents_found (found_all found.now))) }
{
    let mut out = Vec::new(alloc);
    let mut number = 0u32;
    for line in found {
        number += 1;
        let (address, count) = extent(line);
        push_place(&mut out, number, address, count)?;
    }
    Ok(out)
}
