//! Rows of memory, one after the other.

ghost use Rattle.std.specs.Prelude.{◌≡◌, ◌++◌, IfOk, OnOk, length};
ghost use Rattle.model.specs.Disassembly.{rows_in};
ghost use Rattle.model.specs.State.{memory_of};

use crate::row::row_text_in;
use memory_map::{Image, memory_of};
use model::Profile;
use std::alloc::{AllocError, Global};

/// Appends at most so many rows of memory from an address on; none begins past a last address.
#[tactic(auto, using(crate::proofs::RowByRow::behind, crate::proofs::RowByRow::no_row))]
fn push_rows(
    out: &mut Vec<u8>,
    profile: Profile,
    memory: &[u8],
    first: u16,
    last: u16,
    count: u32,
) -> Result<(), AllocError>
    requires { length memory.now ≡ 65536 }
    ensures { OnOk result
        (out.new.items ≡ out.old.items ++ rows_in profile memory.now last first count) }
{
    let mut address = first as usize;
    let mut left = count;
    while left > 0 && address <= last as usize {
        let rest = &memory[address..];
        let row = row_text_in(profile, &rest[..rest.len().min(3)], address as u16);
        out.extend_from_slice(row.text.as_slice())?;
        address += row.len as usize;
        left -= 1;
    }
    Ok(())
}

/// Returns the rows of an image in a profile that begin between two addresses, both included.
///
/// An address where the image has no byte reads as 0.
///
/// Errors: `AllocError` if an allocation fails.
pub fn disassembly(
    alloc: Global,
    profile: Profile,
    image: &Image,
    first: u16,
    last: u16,
) -> Result<Vec<u8>, AllocError>
    ensures { IfOk result
        (λ text. text.items ≡ rows_in profile (memory_of image.now) last first 65536) }
{
    let memory = memory_of(alloc, image)?;
    let mut out = Vec::new(alloc);
    push_rows(&mut out, profile, memory.as_slice(), first, last, 65536)?;
    Ok(out)
}
