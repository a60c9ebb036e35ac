//! Whether a source denotes an image.

ghost use Rattle.std.specs.Prelude.{◌≡◌, IfNone, IfOk, IfSome, true, false};
ghost use Rattle.model.specs.Source.{Denotes};
ghost use Rattle.model.specs.State.{Map, has_port_byte, no_port};
ghost use Rattle.named_source.specs.NamedText.{IsSourceOf};

use assembler::{AsmFaultKind, assemble};
use bus::{Image, MapSpec};
use law_sources::bytes_fill_their_size;
use model::Profile;
use std::alloc::{AllocError, Global};

/// Returns the map of a profile without a port, where every image has its bytes beside the port.
pub fn map_for(profile: Profile) -> Option<MapSpec>
    ensures profile { IfSome result (λ map. map.profile ≡ profile) }
    ensures port { IfSome result (λ map. map.port ≡ no_port) }
    ensures none { IfNone result ⊥ }
{
    let Ok(map) = MapSpec::without_port(None) else {
        return None;
    };
    match profile {
        Profile::N => Some(map),
        Profile::C => Some(map.profile_c()),
    }
}

/// Whether two cells are the same.
fn is_same_cell(cell: Option<u8>, other: Option<u8>) -> bool
    ensures same { result ≡ true → cell ≡ other }
    ensures apart { result ≡ false → cell ≡ other → ⊥ }
{
    match cell {
        None => other.is_none(),
        Some(byte) => match other {
            None => false,
            Some(same) => byte == same,
        },
    }
}

/// Whether two images are the same.
fn is_same(image: &Image, other: &Image) -> bool
    ensures same { result ≡ true → image.now ≡ other.now }
    ensures apart { result ≡ false → image.now ≡ other.now → ⊥ }
{
    for address in 0..65536u32 {
        if !is_same_cell(image.get(address as u16), other.get(address as u16)) {
            return false;
        }
    }
    // For the proof: that every image has 65,536 cells.
    let _ = image.cells();
    let _ = other.cells();
    true
}

/// Returns whether a source denotes an image under a map of a profile at whose port the image has
/// no byte. The only error is that a request for memory was refused.
pub fn is_right(
    alloc: Global,
    profile: Profile,
    source: &[u8],
    image: &Image,
) -> Result<bool, AllocError>
    ensures denotes { IfOk result (λ right. right ≡ true → (bus_map : Map)
        → bus_map.profile ≡ profile → has_port_byte bus_map image.now ≡ false
        → Denotes bus_map source.now image.now) }
    ensures right { IfOk result
        (λ right. right ≡ true → IsSourceOf profile image.now source.now) }
    ensures wrong { IfOk result
        (λ right. right ≡ false → IsSourceOf profile image.now source.now → ⊥) }
{
    // For the proof: that a line has as many bytes as its size says.
    bytes_fill_their_size();
    let Some(map) = map_for(profile) else {
        return Ok(false);
    };
    // For the proof: that it is a map, and that every image has 65,536 cells.
    map.is_map();
    let _ = image.cells();
    match assemble(alloc, source, &map) {
        Ok(assembly) => Ok(is_same(assembly.image(), image)),
        Err(fault) => match fault.kind {
            AsmFaultKind::OutOfMemory => Err(AllocError),
            _ => Ok(false),
        },
    }
}
