//! Writing bytes without records.

ghost use Rattle.std.specs.Prelude.{◌≡◌, ◌≤◌, ◌++◌, IfOk, length};
ghost use Rattle.image_reader.specs.Images.{prg_image, raw_image};
ghost use Rattle.image_writer.specs.ImageTexts.{prg_bytes, raw_bytes};
ghost use Rattle.image_writer.specs.Window.{IsReadPart};

use memory_map::Image;
use std::alloc::{AllocError, Global};

/// Appends the bytes of an image from one address to another, both included.
#[tactic(auto, unfolding(crate::specs::ImageTexts::raw_bytes))]
fn push_bytes(
    out: &mut Vec<u8>,
    cells: &[Option<u8>],
    low: u16,
    high: u16,
    fill: u8,
) -> Result<(), AllocError>
    requires order { low ≤ high }
    requires size { length cells.now ≡ 65536 }
    ensures { IfOk result
        (λ _. out.new.items ≡ out.old.items ++ raw_bytes low high fill cells.now) }
{
    let part = &cells[low as usize..high as usize + 1];
    for cell in part {
        out.push(cell.unwrap_or(fill))?;
    }
    Ok(())
}

/// Writes the bytes of an image from one address to another, both included, with a byte in place of
/// none.
///
/// The only error is that an allocation failed.
pub fn write_raw(
    alloc: Global,
    image: &Image,
    low: u16,
    high: u16,
    fill: u8,
) -> Result<Vec<u8>, AllocError>
    requires { low ≤ high }
    // What is written.
    ensures bytes { IfOk result (λ out. out.items ≡ raw_bytes low high fill image.now) }
    // Read from that address on, it is that part of the image, its gaps filled.
    ensures read { IfOk result
        (λ out. IsReadPart low high fill image.now (raw_image low out.items)) }
{
    let mut out = Vec::new(alloc);
    push_bytes(&mut out, image.cells(), low, high, fill)?;
    Ok(out)
}

/// Returns the bytes of a PRG file.
fn prg_bytes(
    alloc: Global,
    cells: &[Option<u8>],
    low: u16,
    high: u16,
    fill: u8,
) -> Result<Vec<u8>, AllocError>
    requires order { low ≤ high }
    requires size { length cells.now ≡ 65536 }
    ensures { IfOk result (λ out. out.items ≡ prg_bytes low high fill cells.now) }
{
    let mut out = Vec::new(alloc);
    out.push((low % 256) as u8)?;
    out.push((low / 256) as u8)?;
    push_bytes(&mut out, cells, low, high, fill)?;
    Ok(out)
}

/// Writes the same behind the first address, the low byte of that first.
///
/// The only error is that an allocation failed.
pub fn write_prg(
    alloc: Global,
    image: &Image,
    low: u16,
    high: u16,
    fill: u8,
) -> Result<Vec<u8>, AllocError>
    requires { low ≤ high }
    // What is written.
    ensures bytes { IfOk result (λ out. out.items ≡ prg_bytes low high fill image.now) }
    // Read again, it is that part of the image, its gaps filled.
    ensures read { IfOk result
        (λ out. IsReadPart low high fill image.now (prg_image out.items)) }
{
    let out = prg_bytes(alloc, image.cells(), low, high, fill)?;
    Ok(out)
}
