//! Where a port would meet no byte of an image.

ghost use Rattle.std.specs.Prelude.{◌≡◌, false, is_none, true};
ghost use Rattle.std.specs.List.{prefix_len};
ghost use Rattle.image_files.specs.FreeBase.{IsClear, IsFree, IsFreeBase};

use memory_map::{Image, MapSpec};

/// Returns the lowest address at which an image has a byte: 65536 if it has none.
fn first_byte(image: &Image) -> usize
    ensures { result ≡ prefix_len is_none image.now }
{
    image
        .cells()
        .iter()
        .take_while(|cell| cell.is_none())
        .count()
}

/// Returns whether a port with this base makes a map with the ROM, and meets no byte of the image.
fn is_clear(rom: Option<(u16, u16)>, image: &Image, base: u16) -> bool
    ensures free { result ≡ true → IsClear rom image.now base }
    ensures taken { result ≡ false → IsClear rom image.now base → ⊥ }
{
    match MapSpec::new(rom, base) {
        Ok(map) => !map.meets(image),
        Err(_) => false,
    }
}

/// Returns whether a port can have this base, and the first byte of the image is below it.
fn is_free(rom: Option<(u16, u16)>, image: &Image, first: usize, base: u16) -> bool
    requires { first ≡ prefix_len is_none image.now }
    ensures free { result ≡ true → IsFree rom image.now base }
    ensures taken { result ≡ false → IsFree rom image.now base → ⊥ }
{
    first < base as usize && is_clear(rom, image, base)
}

/// Returns the lowest base at which a port makes a map with the ROM and meets no byte of the image,
/// and which stands above the image's first byte: memory below that may be RAM of its program.
pub fn free_base(rom: Option<(u16, u16)>, image: &Image) -> Option<u16>
    ensures { IsFreeBase rom image.now result }
{
    let first = first_byte(image);
    for base in 0..65536u32 {
        if is_free(rom, image, first, base as u16) {
            return Some(base as u16);
        }
    }
    None
}
