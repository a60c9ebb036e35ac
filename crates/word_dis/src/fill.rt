//! What is left out of a source: runs of the byte with which an image is padded.

ghost use Rattle.std.specs.Prelude.{◌≡◌, ◌-◌, ◌<◌, ◌≤◌, IfOk, None, Some, false, true};
ghost use Rattle.model.specs.Image.{cell_at};
ghost use Rattle.word_dis.specs.Fill.{AreKept, IsInRun, IsKept, IsRun, bytes_in, bytes_left_out};

use crate::marks::put_cell;
use bus::Image;
use std::alloc::{AllocError, Global};

/// Whether an image has this byte at an address.
fn has_fill(image: &Image, fill: u8, address: u16) -> bool
    ensures yes { result ≡ true → cell_at image.now address ≡ Some fill }
    ensures no { result ≡ false → cell_at image.now address ≡ Some fill → ⊥ }
{
    match image.get(address) {
        Some(byte) => byte == fill,
        None => false,
    }
}

/// Whether the 16 cells from an address on all have the fill byte.
fn is_run(image: &Image, fill: u8, begin: u16) -> bool
    requires { begin ≤ 65520 }
    ensures yes { result ≡ true → IsRun image.now fill begin }
    ensures no { result ≡ false → IsRun image.now fill begin → ⊥ }
{
    for offset in 0..16u16 {
        if !has_fill(image, fill, begin + offset) {
            return false;
        }
    }
    true
}

/// Whether a run of fill bytes begins so many addresses before another.
fn begins_before(image: &Image, fill: u8, address: u16, back: u16) -> bool
    ensures low { result ≡ true → back ≤ address }
    ensures yes { result ≡ true → IsRun image.now fill (address - back) }
    ensures no { result ≡ false → back ≤ address → IsRun image.now fill (address - back) → ⊥ }
{
    // For the proof: that every image has 65,536 cells.
    let _ = image.cells();
    if address < back {
        return false;
    }
    let begin = address - back;
    if 65520 < begin {
        return false;
    }
    is_run(image, fill, begin)
}

/// Whether an address is one of 16 in a row that all have the fill byte.
fn is_in_run(image: &Image, fill: u8, address: u16) -> bool
    ensures yes { result ≡ true → IsInRun image.now fill address }
    ensures no { result ≡ false → IsInRun image.now fill address → ⊥ }
{
    for back in 0..16u16 {
        if begins_before(image, fill, address, back) {
            return true;
        }
    }
    false
}

/// What is kept of an image at an address.
fn kept_cell(image: &Image, fill: u8, address: u16) -> Option<u8>
    ensures { IsKept image.now (Some fill) address result }
{
    if is_in_run(image, fill, address) {
        None
    } else {
        image.get(address)
    }
}

/// An image without its runs of the fill byte. The only error is that an allocation failed.
fn without_runs(alloc: Global, image: &Image, fill: u8) -> Result<Image, AllocError>
    ensures { IfOk result (λ part. AreKept image.now (Some fill) part) }
{
    let Ok(mut part) = Image::new(alloc) else {
        return Err(AllocError);
    };
    // For the proof: that every image has 65,536 cells.
    let _ = part.cells();
    for address in 0..65536u32 {
        let cell = kept_cell(image, fill, address as u16);
        put_cell(&mut part, address as u16, cell);
    }
    Ok(part)
}

/// How many bytes an image has.
fn bytes_in(image: &Image) -> usize
    ensures { result ≡ bytes_in image.now }
{
    image.cells().iter().filter(|cell| cell.is_some()).count()
}

/// What is kept of an image, and how many of its bytes are not.
#[derive(Drop)]
pub struct KeptPart {
    /// What is kept.
    pub part: Image,
    /// How many bytes are left out.
    pub left_out: usize,
}

/// Returns an image without its runs of 16 or more fill bytes, or all of it if there is no fill
/// byte. The only error is that an allocation failed.
pub fn kept(alloc: Global, image: Image, fill: Option<u8>) -> Result<KeptPart, AllocError>
    ensures cells { IfOk result (λ k. AreKept image fill k.part) }
    ensures counted { IfOk result (λ k. k.left_out ≡ bytes_left_out image k.part) }
{
    match fill {
        None => Ok(KeptPart {
            part: image,
            left_out: 0,
        }),
        Some(fill) => {
            let part = without_runs(alloc, &image, fill)?;
            let left_out = bytes_in(&image).saturating_sub(bytes_in(&part));
            Ok(KeptPart { part, left_out })
        }
    }
}
