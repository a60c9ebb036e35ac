//! What stands where in a program, by the file of its debug information.

ghost use Rattle.std.specs.Prelude.{◌≡◌, IfErr, IfOk};
ghost use Rattle.debug_files.specs.Loads.{AreDebugPlaces, EndsDebug};

use crate::changed::Sought;
use crate::faults::load_fault;
use crate::forms::read_info;
use crate::sources::{Sources, of_memory, sources_of};
use arguments::{LoadFault, read_most};
use memory_map::Image;
use model::Profile;
use source_map::Places;
use std::rt::Files;

/// One byte more than the longest debug file.
pub const MOST: u64 = 16_777_217;

/// What stands where in a program by a debug file, and how its sources were found.
#[derive(Drop)]
pub struct DebugPlaces {
    pub places: Places,
    pub sought: Sought,
}

/// Reads a debug file and the sources that it names, and returns what stands where in a program,
/// with its names. The image has the bytes of the program where it runs. Relative names of sources
/// begin in `root`, if it is given, and otherwise in the folder of the debug file.
///
/// # Errors
///
/// `Refused` with `Read` if the debug file cannot be read, or with `OutOfMemory` if an allocation
/// fails; `NoImage` with the first fault of its text.
pub fn load_places<H: Files + AllocGlobal>(
    rt: &H,
    file: &str,
    root: Option<&str>,
    profile: Profile,
    image: &Image,
) -> Result<DebugPlaces, LoadFault>
    ensures places { IfOk result (λ debug.
        AreDebugPlaces (record { profile = profile; image = image.now }) debug.places) }
    ensures refused { IfErr result EndsDebug }
{
    let text = read_most(rt, file, MOST)?;
    let info = match read_info(rt.alloc(), text.as_slice()) {
        Ok(info) => info,
        Err(error) => return Err(load_fault(error)),
    };
    let Sources { files, sought } = sources_of(rt, file, root, info.files.as_slice())?;
    let places = of_memory(Places::of_debug(rt.alloc(), profile, image, &info, files))?;
    Ok(DebugPlaces { places, sought })
}
