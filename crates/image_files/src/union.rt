//! The image of two files that make one machine.

ghost use Rattle.std.specs.Prelude.{◌≡◌, IfOk};
ghost use Rattle.image_files.specs.Union.{IsFirstClash, IsUnion, differ, differ_at, joined_cell};
ghost use Rattle.image_writer.specs.Window.{with_cell};

use memory_map::Image;
use std::alloc::{AllocError, Global};

/// Returns whether both images have a byte at an address, and these differ.
fn differ(one: Option<u8>, other: Option<u8>) -> bool
    ensures { result ≡ differ one other }
{
    match one {
        None => false,
        Some(one) => match other {
            None => false,
            Some(other) => one != other,
        },
    }
}

/// Returns whether two images have two bytes for an address.
fn differ_at(one: &Image, other: &Image, address: u16) -> bool
    ensures { result ≡ differ_at one.now other.now address }
{
    differ(one.get(address), other.get(address))
}

/// Returns the lowest address for which two images have two bytes, if there is one.
pub fn first_clash(one: &Image, other: &Image) -> Option<u16>
    ensures { IsFirstClash one.now other.now result }
{
    for address in 0..65536u32 {
        if differ_at(one, other, address as u16) {
            return Some(address as u16);
        }
    }
    None
}

/// Returns what either image has at an address: the first, where both have a byte.
fn joined_cell(one: Option<u8>, other: Option<u8>) -> Option<u8>
    ensures { result ≡ joined_cell one other }
{
    match one {
        None => other,
        Some(byte) => Some(byte),
    }
}

/// Puts what a cell is at an address, if it has a byte.
pub fn put_cell(both: &mut Image, address: u16, cell: Option<u8>)
    ensures { both.new ≡ with_cell both.old address cell }
{
    if let Some(byte) = cell {
        both.put(address, byte);
    }
}

/// Returns the image that has what either of two images has.
///
/// The only error is that an allocation failed.
pub fn union_of(alloc: Global, one: &Image, other: &Image) -> Result<Image, AllocError>
    ensures { IfOk result (λ both. IsUnion one.now other.now both) }
{
    let mut both = match Image::new(alloc) {
        Ok(both) => both,
        Err(_) => return Err(AllocError),
    };
    for address in 0..65536u32 {
        put_cell(
            &mut both,
            address as u16,
            joined_cell(one.get(address as u16), other.get(address as u16)),
        );
    }
    Ok(both)
}
