//! The addresses of an image's first byte and of its last.

ghost use Rattle.std.specs.Prelude.{Some};
ghost use Rattle.image_files.specs.Ends.{AreEnds};
ghost use Rattle.image_writer.specs.Window.{IsFirst};

use image_writer::{first_address, last_address};
use memory_map::Image;

/// Returns the addresses of the first byte of an image, which is known, and of the last.
fn ends_from(image: &Image, low: u16) -> Option<(u16, u16)>
    requires { IsFirst image.now (Some low) }
    ensures { AreEnds image.now result }
{
    match last_address(image) {
        None => None,
        Some(high) => Some((low, high)),
    }
}

/// Returns the addresses of the first and of the last byte of an image, if there is one.
pub fn ends_of(image: &Image) -> Option<(u16, u16)>
    ensures { AreEnds image.now result }
{
    match first_address(image) {
        None => None,
        Some(low) => ends_from(image, low),
    }
}
