//! How a session begins.

ghost use Rattle.std.specs.Prelude.{◌≡◌, IfOk, OnOk, Some, is_none};
ghost use Rattle.arguments.specs.Asked.{file_view};
ghost use Rattle.arguments_play.specs.Debug.{debug_asked};
ghost use Rattle.dap_session.specs.Begun.{AddsNames, ArePlaces, HasPlaces, IsLaunched, IsNewClient};
ghost use Rattle.dap_session.specs.Begun.{places_in, with_names};
ghost use Rattle.dap_messages.specs.Seen.{launch_view, text_view};
ghost use Rattle.source_map.specs.Lines.{PlacesView};

use crate::fault::{Fault, refused, refused_by};
use crate::files::files_of;
use crate::launching::{file_words, history_of, text_of};
use arguments::{FileWords, LoadFault, Refusal};
use arguments_play::debug_asked;
use assembler::Assembly;
use dap_messages::{Counting, Launch, Listed, Reason, Told};
use dap_views::{FilePath, Source};
use debug_files::{DebugPlaces, load_places_of};
use loading::{ImageNames, Loaded, load_names, load_with_history};
use mon_runs::Session;
use mon_session::MonState;
use source_map::Places;
use std::alloc::{AllocError, Global};
use std::mem;
use std::rt::Files;

/// A session on a program.
#[derive(Drop)]
pub struct Client {
    /// What launched it.
    pub launch: Launch,
    pub mon: MonState,
    /// The files of the source, by number.
    pub files: Vec<FilePath>,
    /// The breakpoints that the client has listed.
    pub listed: Listed,
    /// What the client was told.
    pub told: Told,
}

/// Puts a session in a place that may have one.
pub fn put_client(client: &mut Option<Client>, begun: Client)
    ensures { client.new ≡ Some begun }
{
    drop(mem::replace(client, Some(begun)));
}

/// Returns the files of a session's source, as its client counts lines.
pub fn source_of(files: &Vec<FilePath>, counting: Counting) -> Source<'_>
    ensures files { result.files.now ≡ files.now.items }
    ensures counting { result.counting ≡ counting }
{
    Source {
        files: files.as_slice(),
        counting,
    }
}

/// Returns the places of what was loaded.
fn places_of(alloc: Global, file: &str, assembly: &Option<Assembly>) -> Result<Places, AllocError>
    ensures { IfOk result (λ places. places ≡ places_in file.now assembly.now) }
{
    match assembly {
        Some(assembly) => Places::of_source(alloc, file.as_bytes(), assembly),
        None => Ok(Places::new(alloc)),
    }
}

/// Returns why a file is not loaded: all faults of a source, or a line.
fn unloaded(alloc: Global, fault: LoadFault, file: &str) -> Fault {
    if matches!(&fault, LoadFault::Refused(Refusal::OutOfMemory)) {
        drop(fault);
        return Fault::OutOfMemory;
    }
    let mut text = Vec::new(alloc);
    match fault.push(file, &mut text) {
        Ok(()) => refused_by(alloc, &text),
        Err(_) => Fault::OutOfMemory,
    }
}

/// Adds the names of a file of names.
fn add_all(alloc: Global, places: &mut Places, names: &ImageNames) -> Result<(), AllocError>
    ensures { OnOk result (places.new ≡ with_names names.now places.old) }
{
    places.add_names(alloc, &names.assembly)?;
    places.add_others(alloc, &names.others)
}

/// Adds the names of a file of names, if a launch names one.
fn add_names<H: Files + AllocGlobal>(
    rt: &H,
    launch: &Launch,
    words: &FileWords<'_>,
    places: &mut Places,
) -> Result<(), Fault>
    ensures { OnOk result (AddsNames (text_view launch.now.symbols) (file_view words.now)
        places.old places.new) }
{
    let Some(path) = text_of(&launch.symbols) else {
        return Ok(());
    };
    match load_names(rt, words, path) {
        Ok(names) => {
            let added = add_all(rt.alloc(), places, &names);
            drop(names);
            Ok(added?)
        }
        Err(refusal) => Err(unloaded(rt.alloc(), LoadFault::Refused(refusal), path)),
    }
}

/// Returns the places of what was loaded: by its debug information, if a launch names a file of
/// that.
fn own_places<H: Files + AllocGlobal>(
    rt: &H,
    launch: &Launch,
    words: &FileWords<'_>,
    loaded: &Loaded,
) -> Result<Places, Fault>
    ensures { IfOk result (ArePlaces (text_view launch.now.debug_info) words.now.file.now
        loaded.now.session loaded.now.assembly loaded.now.written) }
{
    let Some(path) = text_of(&launch.debug_info) else {
        return Ok(places_of(rt.alloc(), words.file, &loaded.assembly)?);
    };
    let root = text_of(&launch.source_root);
    match load_places_of(rt, path, root, &loaded.session, &loaded.written) {
        Ok(DebugPlaces { places, sought: _ }) => Ok(places),
        Err(fault) => Err(unloaded(rt.alloc(), fault, path)),
    }
}

/// Returns the places of a program, with the names of a file of names, if a launch names one.
fn known_places<H: Files + AllocGlobal>(
    rt: &H,
    launch: &Launch,
    words: &FileWords<'_>,
    loaded: &Loaded,
) -> Result<Places, Fault>
    ensures { IfOk result (λ known. (own : PlacesView)
        × ArePlaces (text_view launch.now.debug_info) words.now.file.now loaded.now.session
        loaded.now.assembly loaded.now.written own
        × AddsNames (text_view launch.now.symbols) (file_view words.now) own known) }
{
    let mut places = own_places(rt, launch, words, loaded)?;
    match add_names(rt, launch, words, &mut places) {
        Ok(()) => Ok(places),
        Err(fault) => {
            drop(places);
            Err(fault)
        }
    }
}

/// Returns the client of a session for which no request but its launch was served, with what stands
/// where in its program.
fn client_on(
    alloc: Global,
    launch: &Launch,
    session: Session,
    places: Places,
) -> Result<Client, AllocError>
    ensures { IfOk result (IsNewClient (launch_view launch.now) session places) }
{
    let files = files_of(alloc, launch, &places)?;
    let copied = launch.copied(alloc)?;
    let mon = MonState::new(alloc, session, places, history_of(launch))?;
    Ok(Client {
        launch: copied,
        mon,
        files,
        listed: Listed::new(alloc),
        told: Told {
            count: 0,
            reason: Reason::Entry,
            words: String::new(alloc),
            is_over: false,
        },
    })
}

/// Begins a session on what was loaded.
fn begin_on<H: Files + AllocGlobal>(
    rt: &H,
    launch: &Launch,
    words: &FileWords<'_>,
    loaded: Loaded,
) -> Result<Client, Fault>
    ensures { IfOk result (λ client. (known : PlacesView)
        × HasPlaces (launch_view launch.now) (file_view words.now) loaded.session
        loaded.assembly loaded.written known
        × IsNewClient (launch_view launch.now) loaded.session known client) }
{
    let places = known_places(rt, launch, words, &loaded)?;
    let Loaded {
        session,
        assembly: _,
        written: _,
        lost: _,
        fill: _,
    } = loaded;
    Ok(client_on(rt.alloc(), launch, session, places)?)
}

/// Returns whether debug information is named for a source.
fn is_debug_wrong(launch: &Launch, words: &FileWords<'_>) -> bool
    ensures { result ≡ is_none
        (debug_asked (file_view words.now).form (text_view launch.now.debug_info)) }
{
    match debug_asked(words, text_of(&launch.debug_info)) {
        Some(_) => false,
        None => true,
    }
}

/// What is said where debug information is given for a source.
const DEBUG_TAKES: &str = "debugInfo is for an image; a source has its own lines";

/// Begins the session that a launch asks for: loads its file, and the files of names and of debug
/// information, if they are named.
///
/// Errors: `Refused` if the launch names no program, if an option has a value that it cannot have,
/// if debug information is named for a source, or if a file is not loaded, with what `loading` says
/// of it; `OutOfMemory` if an allocation fails.
pub fn begin_session<H: Files + AllocGlobal>(rt: &H, launch: &Launch) -> Result<Client, Fault>
    ensures { IfOk result (IsLaunched (launch_view launch.now)) }
{
    let words = file_words(rt.alloc(), launch)?;
    if is_debug_wrong(launch, &words) {
        return Err(refused(rt.alloc(), DEBUG_TAKES));
    }
    match load_with_history(rt, &words, history_of(launch)) {
        Ok(loaded) => begin_on(rt, launch, &words, loaded),
        Err(fault) => Err(unloaded(rt.alloc(), fault, words.file)),
    }
}
