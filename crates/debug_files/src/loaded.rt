//! What stands where in a program that was loaded, by the file of its debug information.

ghost use Rattle.std.specs.Prelude.{◌≡◌, IfErr, IfOk, Some, if◌then◌else◌, slice_index, slice_set};
ghost use Rattle.accesses.specs.Writing.{is_written};
ghost use Rattle.debug_files.specs.Loaded.{ArePlacesOf, HasBytesOf};
ghost use Rattle.debug_files.specs.Loads.{EndsDebug};
ghost use Rattle.model.specs.Image.{empty_image};

use crate::places::{DebugPlaces, load_places};
use accesses::Written;
use arguments::{LoadFault, Refusal};
use debugger::Session;
use memory_map::Image;
use std::alloc::Global;
use std::rt::Files;

/// Makes an image without bytes.
fn no_bytes(alloc: Global) -> Result<Image, Refusal>
    ensures image { IfOk result (λ image. image ≡ empty_image) }
    ensures refused { IfErr result (λ fault. fault ≡ Refusal.OutOfMemory) }
{
    Image::new(alloc).map_err(|_| Refusal::OutOfMemory)
}

/// Puts the byte of a session at an address, if a byte was loaded there.
fn put_byte(image: &mut Image, session: &Session, loaded: &Written, address: u16)
    ensures { image.new ≡ if is_written loaded.now address
        then slice_set image.old address
        (Some (slice_index session.now.current.bus.memory address))
        else image.old }
{
    if loaded.contains(address) {
        image.put(address, session.peek(address));
    }
}

/// Returns the bytes of a session at the addresses where a byte was loaded.
fn bytes_of(alloc: Global, session: &Session, loaded: &Written) -> Result<Image, Refusal>
    ensures image { IfOk result (λ image. HasBytesOf session.now.current loaded.now image) }
    ensures refused { IfErr result (λ fault. fault ≡ Refusal.OutOfMemory) }
{
    let mut image = no_bytes(alloc)?;
    for place in 0..65536u32 {
        put_byte(&mut image, session, loaded, place as u16);
    }
    Ok(image)
}

/// Reads a debug file and the sources that it names, and returns what stands where in a program
/// that was loaded, with the names of the file: by its bytes at the addresses of `loaded`. Relative
/// names of sources begin in `root`, if it is given, otherwise in the folder of the debug file.
///
/// # Errors
///
/// Those of `load_places`.
pub fn load_places_of<H: Files + AllocGlobal>(
    rt: &H,
    file: &str,
    root: Option<&str>,
    session: &Session,
    loaded: &Written,
) -> Result<DebugPlaces, LoadFault>
    ensures places { IfOk result
        (λ debug. ArePlacesOf session.now.current loaded.now debug.places) }
    ensures refused { IfErr result EndsDebug }
{
    let image = bytes_of(rt.alloc(), session, loaded)?;
    let profile = session.profile();
    load_places(rt, file, root, profile, &image)
}
