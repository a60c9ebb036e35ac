//! Whether another text denotes the same image.

ghost use Rattle.std.specs.Prelude.{◌≡◌, ℕ, IfOk, List, Option, false, true};
ghost use Rattle.model.specs.Source.{Denotes};
ghost use Rattle.name_uses.specs.Renaming.{IsChanged};

use assembler::{AsmFaultKind, assemble};
use bus::{Image, MapSpec};
use std::alloc::{AllocError, Global};

/// Whether two images are the same.
fn is_same(image: &Image, other: &Image) -> bool
    ensures same { result ≡ true → image.now ≡ other.now }
    ensures apart { result ≡ false → image.now ≡ other.now → ⊥ }
{
    for address in 0..65536u32 {
        if image.get(address as u16) != other.get(address as u16) {
            return false;
        }
    }
    // For the proof: that every image has 65,536 cells.
    let _ = image.cells();
    let _ = other.cells();
    true
}

/// Returns whether a text denotes an image. The only error is that a request for memory was
/// refused.
fn is_source_of(
    alloc: Global,
    map: &MapSpec,
    text: &[u8],
    image: &Image,
) -> Result<bool, AllocError>
    ensures right { IfOk result (λ same. same ≡ true → Denotes map.now text.now image.now) }
    ensures wrong { IfOk result (λ same. same ≡ false → Denotes map.now text.now image.now → ⊥) }
{
    match assemble(alloc, text, map) {
        Ok(assembly) => Ok(is_same(assembly.image(), image)),
        Err(fault) => match fault.kind {
            AsmFaultKind::OutOfMemory => Err(AllocError),
            _ => Ok(false),
        },
    }
}

/// Returns whether a text denotes the image that a source denotes, or the source denotes none. The
/// only error is that a request for memory was refused.
pub fn keeps_image(
    alloc: Global,
    map: &MapSpec,
    source: &[u8],
    text: &[u8],
) -> Result<bool, AllocError>
    ensures kept { IfOk result (λ kept. kept ≡ true → (image : List (Option ℕ))
        → Denotes map.now source.now image → Denotes map.now text.now image) }
    ensures changed { IfOk result (λ kept. kept ≡ false → IsChanged map.now source.now text.now) }
{
    match assemble(alloc, source, map) {
        Ok(assembly) => is_source_of(alloc, map, text, assembly.image()),
        Err(fault) => match fault.kind {
            AsmFaultKind::OutOfMemory => Err(AllocError),
            _ => Ok(true),
        },
    }
}
