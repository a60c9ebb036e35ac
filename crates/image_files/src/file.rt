//! A file read as an image.

ghost use Rattle.std.specs.Prelude.{IfErr, IfOk};
ghost use Rattle.image_files.specs.Files.{EndsBytes, EndsImage, IsOfFile};

use crate::bytes::image_of_bytes;
use crate::refusal::{ImageRefusal, NoImage};
use arguments::read_given;
use image_reader::Form;
use memory_map::Image;
use std::rt::Files;

/// The most bytes of a file that is read as an image. Source: mos65.
const LONGEST: u64 = 16_777_216;

/// Returns the bytes of an image's file, or of the standard input if the name is `-`.
///
/// Errors: `NoImage` with `TooLong` if the file has more than 16,777,216 bytes; `Refused` if it
/// cannot be read, or if an allocation fails.
pub fn image_bytes<H: Files + AllocGlobal>(rt: &H, path: &str) -> Result<Vec<u8>, ImageRefusal>
    ensures { IfErr result EndsBytes }
{
    match read_given(rt, path, LONGEST + 1) {
        Ok(bytes) if bytes.len() as u64 <= LONGEST => Ok(bytes),
        Ok(_) => Err(ImageRefusal::NoImage(NoImage::TooLong)),
        Err(refusal) => Err(ImageRefusal::Refused(refusal)),
    }
}

/// Returns the image of a file, in the form that is said or in that of its first record.
///
/// Errors: those of `image_bytes` and of `image_of_bytes`.
pub fn image_of_file<H: Files + AllocGlobal>(
    rt: &H,
    path: &str,
    said: Option<Form>,
) -> Result<Image, ImageRefusal>
    // The image is that of some bytes, and a fault one that some bytes have: no clause can say what
    // is in a file.
    ensures found { IfOk result (IsOfFile said) }
    ensures refused { IfErr result (EndsImage said) }
{
    let bytes = image_bytes(rt, path)?;
    image_of_bytes(rt.alloc(), said, &bytes)
}
