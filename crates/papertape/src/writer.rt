//! Writing a tape.

ghost use Rattle.std.specs.Prelude.{◌≡◌, IfOk, IfErr};
ghost use Rattle.model.specs.Tape.{TapeDenotes};
ghost use Rattle.model.specs.TapeFault.{out_of_memory};
ghost use Rattle.model.specs.TapeText.{tape_text};

use crate::piece::Piece;
use crate::record::write_record;
use memory_map::Image;
use model::TapeFault;
use std::alloc::Global;

/// Writes the tape of an image.
///
/// It has a data record for each piece of at most 24 bytes of the image's maximal runs, in rising
/// order, then the end record; CR LF comes after each.
///
/// Errors: `OutOfMemory` at offset 0 if an allocation fails. Source: KIM-1 manual for the form of
/// the records; mos65 for the rest.
pub fn write_tape(alloc: Global, image: &Image) -> Result<Vec<u8>, TapeFault>
    // What is written is the image's text.
    ensures text { IfOk result (λ t. t.items ≡ tape_text image.now) }
    // That text denotes the image.
    ensures denotes { IfOk result (λ t. TapeDenotes t.items image.now) }
    // There is no other error.
    ensures refused { IfErr result (λ f. f ≡ out_of_memory) }
{
    let cells = image.cells();
    let mut out = Vec::new(alloc);
    let mut from = 0u32;
    let mut count = 0u32;
    while let Some(piece) = Piece::next(cells, from) {
        piece.write(&mut out)?;
        from = piece.end();
        count += 1;
    }
    write_record(&mut out, 0, count as u16, &[])?;
    Ok(out)
}
