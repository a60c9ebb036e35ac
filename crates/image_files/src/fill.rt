//! An image without its fill at the port.

ghost use Rattle.std.specs.Prelude.{◌≡◌, ◌≤◌, IfOk, None, false, if◌then◌else◌};
ghost use Rattle.image_files.specs.Fill.{IsWithoutPort, are_same, fill_at, is_as_first, is_filled};
ghost use Rattle.model.specs.Image.{cell_at};
ghost use Rattle.model.specs.State.{has_port_byte, is_port};

use crate::union::put_cell;
use memory_map::{Image, MapSpec};
use std::alloc::{AllocError, Global};

/// Returns whether two cells have the same byte, or none.
fn are_same(one: Option<u8>, other: Option<u8>) -> bool
    ensures { result ≡ are_same one other }
{
    match (one, other) {
        (None, None) => true,
        (Some(one), Some(other)) => one == other,
        _ => false,
    }
}

/// Returns what an image has at an address, and nothing past its last address.
pub fn cell_at(image: &Image, address: u32) -> Option<u8>
    ensures { result ≡ cell_at image.now address }
{
    match image.cells().get(address as usize) {
        Some(cell) => *cell,
        None => None,
    }
}

/// Returns whether an image has at the port's base what it has so many addresses behind it.
fn is_as_first(map: &MapSpec, image: &Image, offset: u32) -> bool
    requires { offset ≤ 3 }
    ensures { result ≡ is_as_first map.now image.now offset }
{
    let port = map.port();
    are_same(cell_at(image, port), cell_at(image, port + offset))
}

/// Returns whether an image has one byte at all of the port's four addresses.
fn is_filled(map: &MapSpec, image: &Image) -> bool
    ensures { result ≡ is_filled map.now image.now }
{
    map.meets(image)
        && is_as_first(map, image, 1)
        && is_as_first(map, image, 2)
        && is_as_first(map, image, 3)
}

/// Returns the base of the port whose fill is left out of an image, if some is.
pub fn fill_at(omits: bool, map: &MapSpec, image: &Image) -> Option<u32>
    ensures { result ≡ fill_at omits map.now image.now }
{
    if omits && is_filled(map, image) {
        Some(map.port())
    } else {
        None
    }
}

/// Returns what an image has at an address, or nothing at one of the port's.
fn kept_cell(map: &MapSpec, image: &Image, address: u16) -> Option<u8>
    ensures { result ≡ if is_port map.now address then None else cell_at image.now address }
{
    if map.is_port(address) {
        None
    } else {
        image.get(address)
    }
}

/// Returns an image without what it has at the port.
///
/// The only error is that an allocation failed.
pub fn without_port(alloc: Global, map: &MapSpec, image: &Image) -> Result<Image, AllocError>
    ensures without { IfOk result (IsWithoutPort map.now image.now) }
    ensures spared { IfOk result (λ part. has_port_byte map.now part ≡ false) }
{
    let mut part = match Image::new(alloc) {
        Ok(part) => part,
        Err(_) => return Err(AllocError),
    };
    for address in 0..65536u32 {
        put_cell(
            &mut part,
            address as u16,
            kept_cell(map, image, address as u16),
        );
    }
    Ok(part)
}
