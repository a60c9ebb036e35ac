//! How a session begins on what was loaded.

ghost use Rattle.std.specs.Prelude.{◌≡◌, ◌⊎◌, IfErr, IfOk, Option, OnOk, Some, option_map};
ghost use Rattle.source_map.specs.Lines.{PlacesView};
ghost use Rattle.arguments.specs.Asked.{file_view, map_of};
ghost use Rattle.arguments_play.specs.Mon.{mon_view};
ghost use Rattle.loading.specs.declared.loaded.ImageNames.{ImageNames};
ghost use Rattle.word_mon.specs.Starts.{AreNamed, ArePlaces, EndsNamed, EndsStart};
ghost use Rattle.word_mon.specs.Starts.{IsNewState, IsWarningLine, places_in, with_names};
ghost use Rattle.word_mon.specs.declared.starting.StartFault.TheVariants.{OfDebug, OfNames};

use crate::terminal::of_memory;
use arguments::{LoadFault, Refusal};
use arguments_play::MonWords;
use assembler::Assembly;
use debug_files::{DebugPlaces, Sought, load_places_of, tell_changed};
use loading::{ImageNames, Loaded, load_names, tell_warnings};
use mon_files::Known;
use mon_session::MonState;
use source_map::Places;
use std::alloc::{AllocError, Global};
use std::rt::Files;

/// A state of `mon` before its first line, and what is known of the program besides.
#[derive(Drop)]
pub struct Started {
    pub mon: MonState,
    /// The addresses at which the file has a byte, and what a page shows besides.
    pub loaded: Known,
    /// The line that tells how many warnings the source has or that fill was left out, or nothing.
    pub warning_line: Vec<u8>,
}

/// Why a session does not begin on what was loaded.
#[derive(Drop)]
pub enum StartFault {
    /// Memory ran out, or the file of names is not read.
    OfNames(Refusal),
    /// The file of debug information is not read.
    OfDebug(LoadFault),
}

impl From<Refusal> for StartFault {
    ghost from_gives = { λ refusal fault. fault ≡ OfNames refusal };

    fn from(refusal: Refusal) -> StartFault {
        StartFault::OfNames(refusal)
    }
}

impl From<LoadFault> for StartFault {
    ghost from_gives = { λ unloaded fault. fault ≡ OfDebug unloaded };

    fn from(fault: LoadFault) -> StartFault {
        StartFault::OfDebug(fault)
    }
}

/// Returns the places of what was loaded.
fn places_of(alloc: Global, file: &str, assembly: &Option<Assembly>) -> Result<Places, Refusal>
    ensures places { IfOk result (λ p. p ≡ places_in file.now assembly.now) }
    ensures refused { IfErr result (λ fault. fault ≡ Refusal.OutOfMemory) }
{
    match assembly {
        Some(assembly) => of_memory(Places::of_source(alloc, file.as_bytes(), assembly)),
        None => Ok(Places::new(alloc)),
    }
}

/// Adds the names of a file of names.
fn add_all(alloc: Global, places: &mut Places, names: &ImageNames) -> Result<(), AllocError>
    ensures { OnOk result (places.new ≡ with_names (Some names.now) places.old) }
{
    places.add_names(alloc, &names.assembly)?;
    places.add_others(alloc, &names.others)
}

/// Adds the names of a file of names, if one is named, and returns it.
fn add_names<H: Files + AllocGlobal>(
    rt: &H,
    words: &MonWords<'_>,
    places: &mut Places,
) -> Result<Option<ImageNames>, Refusal>
    ensures named { OnOk result ((names : Option ImageNames)
        × AreNamed (mon_view words.now).symbols (file_view words.now.file) names
        × (places.new ≡ with_names names places.old)) }
    ensures refused { IfErr result (λ fault. (fault ≡ Refusal.OutOfMemory)
        ⊎ EndsNamed (mon_view words.now).symbols (file_view words.now.file) fault) }
{
    let Some(path) = words.symbols else {
        return Ok(None);
    };
    let names = load_names(rt, &words.file, path)?;
    of_memory(add_all(rt.alloc(), places, &names))?;
    Ok(Some(names))
}

/// Returns what the source of a file of names gives, if there is such a file.
fn of_source(names: Option<ImageNames>) -> Option<Assembly> {
    match names {
        Some(
            ImageNames {
                assembly,
                others: _,
                lost: _,
            },
        ) => Some(assembly),
        None => None,
    }
}

/// Returns the places of an image by the file of its debug information.
fn debug_places<H: Files + AllocGlobal>(
    rt: &H,
    words: &MonWords<'_>,
    path: &str,
    loaded: &Loaded,
) -> Result<DebugPlaces, StartFault>
    ensures places { IfOk result (λ debug. ArePlaces (Some path.now) words.now.file.file.now
        loaded.now.session loaded.now.assembly loaded.now.written debug.places) }
    ensures refused { IfErr result (EndsStart (mon_view words.now).symbols (Some path.now)
        (file_view words.now.file)) }
{
    let session = &loaded.session;
    Ok(load_places_of(rt, path, words.source_root, session, &loaded.written)?)
}

/// Returns the places of what was loaded: by its debug information, if such a file is named, with
/// how its sources were found.
fn known_places<H: Files + AllocGlobal>(
    rt: &H,
    words: &MonWords<'_>,
    loaded: &Loaded,
) -> Result<DebugPlaces, StartFault>
    ensures places { IfOk result (λ debug. ArePlaces (mon_view words.now).debug_info
        words.now.file.file.now loaded.now.session loaded.now.assembly loaded.now.written
        debug.places) }
    ensures refused { IfErr result (EndsStart (mon_view words.now).symbols
        (mon_view words.now).debug_info (file_view words.now.file)) }
{
    match words.debug_info {
        None => Ok(DebugPlaces {
            places: places_of(rt.alloc(), words.file.file, &loaded.assembly)?,
            sought: Sought::new(rt.alloc()),
        }),
        Some(path) => debug_places(rt, words, path, loaded),
    }
}

/// Returns the line that tells how many warnings a source has, if there is a source and it has
/// some, or that fill at the port was left out, and the one that tells which sources have changed
/// since debug information was made, or are not found; or a beginning of them where no memory is.
fn warning_line_of(
    alloc: Global,
    words: &MonWords<'_>,
    assembly: Option<&Assembly>,
    fill: Option<u32>,
    sought: &Sought,
) -> Vec<u8>
    ensures { IsWarningLine (map_of (file_view words.now.file))
        (option_map (λ a. a.now) assembly.entry) fill (mon_view words.now).debug_info
        result.items }
{
    let mut line: Vec<u8> = Vec::new(alloc);
    tell_warnings(alloc, &words.file, assembly, 0, fill, &mut line);
    tell_changed(words.debug_info, sought, &mut line);
    line
}

/// Returns the state of `mon` for what was loaded, with the names of a file, if one is named, and
/// the line that tells of the warnings of its source.
///
/// # Errors
///
/// `OfDebug` with the fault of `debug_files::load_places_of`; `OfNames` with that of
/// `loading::load_names`, or with `OutOfMemory` if an allocation fails.
pub fn start<H: Files + AllocGlobal>(
    rt: &H,
    words: &MonWords<'_>,
    loaded: Loaded,
) -> Result<Started, StartFault>
    ensures made { IfOk result (λ started. (places : PlacesView)
        × ArePlaces (mon_view words.now).debug_info words.now.file.file.now loaded.session
        loaded.assembly loaded.written places
        × (names : Option ImageNames)
        × AreNamed (mon_view words.now).symbols (file_view words.now.file) names
        × IsNewState loaded.session words.now.history (with_names names places) started.mon) }
    ensures loaded { IfOk result (λ started. started.loaded ≡ loaded.written) }
    ensures warned { IfOk result (λ started. IsWarningLine (map_of (file_view words.now.file))
        loaded.assembly loaded.fill (mon_view words.now).debug_info started.warning_line.items) }
    ensures refused { IfErr result (EndsStart (mon_view words.now).symbols
        (mon_view words.now).debug_info (file_view words.now.file)) }
{
    let known = known_places(rt, words, &loaded)?;
    let DebugPlaces { mut places, sought } = known;
    let source = loaded.assembly.as_ref();
    let warning_line = warning_line_of(rt.alloc(), words, source, loaded.fill, &sought);
    let Loaded {
        session,
        assembly,
        written,
        lost: _,
        fill: _,
    } = loaded;
    let names = add_names(rt, words, &mut places)?;
    let mon = of_memory(MonState::new(rt.alloc(), session, places, words.history))?;
    Ok(Started {
        mon,
        loaded: Known::new(written, assembly, of_source(names)),
        warning_line,
    })
}
