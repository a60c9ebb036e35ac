//! The memory that an image fills.
//!
//! `memory_of` is the one call: the bytes of an image, and 0 elsewhere, as a list that the
//! disassembler reads.

ghost use Rattle.std.specs.Prelude.{◌≡◌, IfOk, length};
ghost use Rattle.model.specs.State.{memory_of};

use crate::image::Image;
use std::alloc::{AllocError, Global};

/// Returns the 65,536 bytes of a memory: those of an image, and 0 where it has none.
///
/// Errors: `AllocError` if an allocation fails.
#[tactic(auto, using(crate::proofs::Bytes::memory_size), unfolding(model::specs::State::memory_of))]
pub fn memory_of(alloc: Global, image: &Image) -> Result<Vec<u8>, AllocError>
    ensures items { IfOk result (λ memory. memory.items ≡ memory_of image.now) }
    ensures size { IfOk result (λ memory. length memory.items ≡ 65536) }
{
    let mut memory = Vec::new(alloc);
    for cell in image.cells() {
        memory.push(cell.unwrap_or(0))?;
    }
    Ok(memory)
}
