//! Where two images differ.

ghost use Rattle.std.specs.Prelude.{◌≡◌, ◌≢◌, ◌↔◌, ℕ, [], IfOk, not};
ghost use Rattle.std.specs.List.{Contains};
ghost use Rattle.dump_faults.specs.Faults.{same_cell};
ghost use Rattle.model.specs.Image.{cell_at};
ghost use Rattle.word_cmp.specs.Differences.{differences};

use memory_map::Image;
use std::alloc::{AllocError, Global};

/// Returns whether two cells differ.
fn is_different(one: Option<u8>, other: Option<u8>) -> bool
    ensures { result ≡ not (same_cell one other) }
{
    match (one, other) {
        (None, None) => false,
        (Some(one), Some(other)) => one != other,
        _ => true,
    }
}

/// Returns the addresses at which two images differ, in rising order.
///
/// They differ where one has a byte and the other has none, or another byte.
///
/// Errors: `AllocError` if an allocation fails. Source: mos65.
pub fn differences(alloc: Global, one: &Image, other: &Image) -> Result<Vec<u16>, AllocError>
    ensures list { IfOk result (λ d. d.items ≡ differences one.now other.now) }
    // An address is among them exactly if the cells there differ.
    ensures each { IfOk result (λ d. (address : ℕ)
        → Contains d.items address ↔ (cell_at one.now address ≢ cell_at other.now address)) }
    // There is none exactly if the images are equal.
    ensures equal { IfOk result (λ d. (d.items ≡ []) ↔ (one.now ≡ other.now)) }
{
    // For the proof: that every image has 65,536 cells.
    let _ = one.cells();
    let _ = other.cells();
    let mut found = Vec::new(alloc);
    for address in 0..65536u32 {
        let address = address as u16;
        if is_different(one.get(address), other.get(address)) {
            found.push(address)?;
        }
    }
    Ok(found)
}
