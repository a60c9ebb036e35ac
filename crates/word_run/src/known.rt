//! What is known of the names and the lines of a program that runs.

ghost use Rattle.std.specs.Prelude.{◌≡◌, IfErr, IfOk, OnOk, option_map};
ghost use Rattle.debug_files.specs.Loaded.{EndsDebugInfo};
ghost use Rattle.word_run.specs.Known.{AreDebugged, with_names_of};

use arguments::{LoadFault, Refusal};
use assembler::Assembly;
use debug_files::{DebugPlaces, Sought, load_places_of};
use loading::Loaded;
use source_map::Places;
use std::alloc::{AllocError, Global};
use std::rt::Files;

/// What is known of a program: what its source says, if it has one; or what debug information says
/// of it, if there is some.
#[derive(Clone, Copy)]
pub struct Known<'f, 'a, 'd> {
    /// The name of the source's file.
    pub file: &'f str,
    pub assembly: Option<&'a Assembly>,
    pub debug: Option<&'d Places>,
}

/// The places of debug information, if a file of it is named, and how its sources were found.
#[derive(Drop)]
pub struct Debugged {
    pub places: Option<Places>,
    pub sought: Sought,
}

/// Adds the names of an assembly, if there is one.
fn add_names(alloc: Global, places: &mut Places, names: Option<&Assembly>) -> Result<(), AllocError>
    ensures { OnOk result
        (places.new ≡ with_names_of (option_map (λ a. a.now) names.entry) places.old) }
{
    match names {
        None => Ok(()),
        Some(names) => places.add_names(alloc, names),
    }
}

/// Adds the names of an assembly, if there is one.
///
/// Errors: `OutOfMemory` if an allocation fails.
fn with_names(alloc: Global, places: &mut Places, names: Option<&Assembly>) -> Result<(), Refusal>
    ensures added { OnOk result
        (places.new ≡ with_names_of (option_map (λ a. a.now) names.entry) places.old) }
    ensures refused { IfErr result (λ fault. fault ≡ Refusal.OutOfMemory) }
{
    add_names(alloc, places, names).map_err(|_| Refusal::OutOfMemory)
}

/// Reads the debug information of a program that was loaded, if a file of it is named, with the
/// names that were loaded. Relative names of its sources begin in `root`, if it is given, and
/// otherwise in the folder of the file.
///
/// # Errors
///
/// Those of `debug_files::load_places_of`.
#[tactic(auto, using(crate::proofs::WithNames::debugged))]
pub fn load_debug<H: Files + AllocGlobal>(
    rt: &H,
    file: Option<&str>,
    root: Option<&str>,
    loaded: &Loaded,
) -> Result<Debugged, LoadFault>
    ensures places { IfOk result (λ debug. AreDebugged (option_map (λ f. f.now) file.entry)
        loaded.now.session.current loaded.now.written loaded.now.assembly debug.places) }
    ensures refused { IfErr result (EndsDebugInfo (option_map (λ f. f.now) file.entry)) }
{
    let Some(file) = file else {
        return Ok(Debugged {
            places: None,
            sought: Sought::new(rt.alloc()),
        });
    };
    let session = &loaded.session;
    let debug = load_places_of(rt, file, root, session, &loaded.written)?;
    let DebugPlaces { mut places, sought } = debug;
    with_names(rt.alloc(), &mut places, loaded.assembly.as_ref())?;
    Ok(Debugged {
        places: Some(places),
        sought,
    })
}
