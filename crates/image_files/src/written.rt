//! An image written in a form.

ghost use Rattle.std.specs.Prelude.{◌≤◌, IfOk};
ghost use Rattle.image_files.specs.Written.{ReadsAs};

use arguments::FormName;
use image_reader::TextForm;
use image_writer::{write_prg, write_raw, write_text};
use memory_map::Image;
use papertape::write_tape;
use std::alloc::{AllocError, Global};

/// Writes an image in a form. Raw bytes and a PRG file have the bytes from `low` to `high`, with
/// $FF where the image has none.
///
/// Errors: `AllocError` if an allocation fails.
pub fn write_form(
    alloc: Global,
    to: FormName,
    low: u16,
    high: u16,
    image: &Image,
) -> Result<Vec<u8>, AllocError>
    requires { low ≤ high }
    ensures { IfOk result (λ out. ReadsAs to low high image.now out.items) }
{
    match to {
        FormName::Hex => write_text(alloc, TextForm::Hex, image),
        FormName::SRecord => write_text(alloc, TextForm::SRecord, image),
        FormName::Tape => match write_tape(alloc, image) {
            Ok(text) => Ok(text),
            Err(_) => Err(AllocError),
        },
        FormName::Bin => write_raw(alloc, image, low, high, 0xff),
        FormName::Prg => write_prg(alloc, image, low, high, 0xff),
    }
}
