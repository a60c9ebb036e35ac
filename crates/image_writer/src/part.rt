//! A part of an image.

ghost use Rattle.std.specs.Prelude.{◌≡◌, ◌≤◌, IfOk};
ghost use Rattle.image_writer.specs.Window.{IsFirst, IsLast, IsPart, filled_with, with_cell};

use memory_map::Image;
use std::alloc::{AllocError, Global};

/// Returns the first address at which an image has a byte, if there is one.
pub fn first_address(image: &Image) -> Option<u16>
    ensures { IsFirst image.now result }
{
    for address in 0..65536u32 {
        if image.get(address as u16).is_some() {
            return Some(address as u16);
        }
    }
    None
}

/// Returns the last address at which an image has a byte, if there is one.
pub fn last_address(image: &Image) -> Option<u16>
    ensures { IsLast image.now result }
{
    let mut last = None;
    for address in 0..65536u32 {
        if image.get(address as u16).is_some() {
            last = Some(address as u16);
        }
    }
    last
}

/// Returns what a cell is, with a byte to fill with in place of none.
fn filled_with(fill: Option<u8>, cell: Option<u8>) -> Option<u8>
    ensures { result ≡ filled_with fill cell }
{
    match cell {
        Some(byte) => Some(byte),
        None => fill,
    }
}

/// Puts what a cell is at an address, if it has a byte.
fn put_cell(part: &mut Image, address: u16, cell: Option<u8>)
    ensures { part.new ≡ with_cell part.old address cell }
{
    if let Some(byte) = cell {
        part.put(address, byte);
    }
}

/// Returns an image with what another has from one address to another, both included, its gaps
/// filled if there is a byte to fill with, and nothing elsewhere.
///
/// The only error is that an allocation failed.
pub fn part_of(
    alloc: Global,
    image: &Image,
    low: u16,
    high: u16,
    fill: Option<u8>,
) -> Result<Image, AllocError>
    requires { low ≤ high }
    ensures { IfOk result (λ part. IsPart low high fill image.now part) }
{
    let mut part = match Image::new(alloc) {
        Ok(part) => part,
        Err(_) => return Err(AllocError),
    };
    for address in low as u32..high as u32 + 1 {
        put_cell(
            &mut part,
            address as u16,
            filled_with(fill, image.get(address as u16)),
        );
    }
    Ok(part)
}
