//! The image of a source in other forms.

ghost use Rattle.std.specs.Prelude.{IfOk, option_map};
ghost use Rattle.word_asm.specs.Images.{AreImages, IsRaw, IsRawOf, IsTextOf};

use image_files::ends_of;
use image_reader::TextForm;
use image_writer::{write_raw, write_text};
use memory_map::Image;
use std::alloc::{AllocError, Global};

/// In which forms the image is asked for beside the tape.
#[derive(Clone, Copy)]
pub struct ImagesAsked {
    /// The byte that gaps are filled with, if bytes alone are asked for.
    pub raw: Option<u8>,
    /// Whether Intel HEX is.
    pub is_hex: bool,
    /// Whether S-records are.
    pub is_srec: bool,
}

/// The image in the forms that are asked for.
#[derive(Drop)]
pub struct ImageTexts {
    /// Bytes alone, from the first byte to the last.
    pub raw: Option<Vec<u8>>,
    /// Intel HEX.
    pub hex: Option<Vec<u8>>,
    /// S-records.
    pub srec: Option<Vec<u8>>,
}

/// Returns bytes alone, from the first byte of an image to the last; none if it has no byte.
#[tactic(auto, using(crate::proofs::Imaged::raw_none, crate::proofs::Imaged::raw_some))]
fn raw_of(alloc: Global, image: &Image, fill: u8) -> Result<Vec<u8>, AllocError>
    ensures { IfOk result (λ out. IsRaw fill image.now out.items) }
{
    match ends_of(image) {
        None => Ok(Vec::new(alloc)),
        Some((low, high)) => {
            let out = write_raw(alloc, image, low, high, fill)?;
            Ok(out)
        }
    }
}

/// Returns bytes alone, if they are asked for.
fn raw_asked(alloc: Global, image: &Image, fill: Option<u8>) -> Result<Option<Vec<u8>>, AllocError>
    ensures { IfOk result (λ out. IsRawOf fill image.now (option_map (λ v. v.items) out)) }
{
    match fill {
        None => Ok(None),
        Some(fill) => {
            let out = raw_of(alloc, image, fill)?;
            Ok(Some(out))
        }
    }
}

/// Returns a text of records, if it is asked for.
fn text_asked(
    alloc: Global,
    form: TextForm,
    is_asked: bool,
    image: &Image,
) -> Result<Option<Vec<u8>>, AllocError>
    ensures { IfOk result
        (λ out. IsTextOf form is_asked image.now (option_map (λ v. v.items) out)) }
{
    if !is_asked {
        return Ok(None);
    }
    let out = write_text(alloc, form, image)?;
    Ok(Some(out))
}

/// Returns an image in the forms that are asked for.
///
/// The only error is that an allocation failed.
pub fn image_texts(
    alloc: Global,
    image: &Image,
    asked: ImagesAsked,
) -> Result<ImageTexts, AllocError>
    ensures { IfOk result (AreImages asked image.now) }
{
    let raw = raw_asked(alloc, image, asked.raw)?;
    let hex = text_asked(alloc, TextForm::Hex, asked.is_hex, image)?;
    let srec = text_asked(alloc, TextForm::SRecord, asked.is_srec, image)?;
    Ok(ImageTexts { raw, hex, srec })
}
