//! A file loaded into a session.

ghost use Rattle.std.specs.Prelude.{◌≡◌, ◌≢◌, ◌≤◌, ℕ, List, [], Option, Err, IfErr, IfOk, Some, false};
ghost use Rattle.std.specs.Prelude.{None};
ghost use Rattle.std.specs.Prelude.{◌⊎◌, true};
ghost use Rattle.accesses.specs.Writing.{bytes_in};
ghost use Rattle.arguments.specs.Asked.{file_view, map_of};
ghost use Rattle.arguments.specs.declared.load_fault.LoadFault.TheVariants.{Refused};
ghost use Rattle.assembler.specs.Assembly.{IsAssembled, out_of_memory, with_others};
ghost use Rattle.clean_source.specs.Cleaned.{cleaned};
ghost use Rattle.image_files.specs.Files.{IsOfFile};
ghost use Rattle.image_files.specs.Fill.{IsWithoutPort, fill_at};
ghost use Rattle.loading.specs.Loads.{AreImageNames};
ghost use Rattle.loading.specs.Loads.{AreOfFile, EndsAsImage, EndsFile, EndsFileOf};
ghost use Rattle.loading.specs.Loads.{EndsImageFile, EndsLoad, EndsNames};
ghost use Rattle.loading.specs.Loads.{EndsSource};
ghost use Rattle.loading.specs.Loads.{EndsSourceFile, IsBadMap, IsImageOf, IsLoaded, IsSparedFile};
ghost use Rattle.loading.specs.Named.{IsLost};
ghost use Rattle.model.specs.Event.{start};
ghost use Rattle.model.specs.Session.{new_session};
ghost use Rattle.model.specs.Source.{HasFault};
ghost use Rattle.model.specs.State.{has_port_byte, input_waits, is_map};
ghost use Rattle.names_files.specs.NamesFile.{names_file};
ghost use Rattle.names_files.specs.Views.{names_view};
ghost use Rattle.model.specs.declared.bus_fault.BusFault.TheVariants.{BadMap};

use accesses::Written;
use arguments::{
    FileForm, FileWords, LoadFault, ReadFault, Refusal, map_of, read_given_source, read_source,
    shown_name,
};
use assembler::{Assembly, assemble};
use clean_source::clean_source;
use debugger::Session;
use fault_notes::told_faults;
use image_files::{
    ImageRefusal, fill_at, free_base, image_of_file, looks_like_capture, looks_raw, refuse_image,
    said_of, without_port,
};
use image_reader::Form;
use memory_map::{Image, MapSpec};
use model::{AsmFault, AsmFaultKind, Profile};
use names_files::{NamesFile, names_of_file};
use std::alloc::Global;
use std::rt::Files;
use symbols::Symbols;

/// A session on the image of a file, what the file says of names if it is a source, and the
/// addresses at which it has a byte.
#[derive(Drop)]
pub struct Loaded {
    pub session: Session,
    pub assembly: Option<Assembly>,
    pub written: Written,
    /// How many lines of a file of names gave no name.
    pub lost: usize,
    /// The base of the port whose fill was left out of the image.
    pub fill: Option<u32>,
}

/// An image as it is loaded.
#[derive(Drop)]
pub struct Spared {
    pub image: Image,
    /// The base of the port whose fill was left out of it.
    pub fill: Option<u32>,
}

/// Returns the map of the words.
///
/// Errors: `Map` if the port and the ROM do not make a map.
pub fn map_of_words(words: &FileWords<'_>) -> Result<MapSpec, Refusal>
    ensures map { IfOk result (λ map. map ≡ map_of (file_view words.now)) }
    ensures is_map { IfOk result (λ _. is_map words.now.rom words.now.port ≡ true) }
    ensures bad { IfErr result (IsBadMap (map_of (file_view words.now))) }
{
    Ok(map_of(words.profile, words.rom, words.port)?)
}

/// Assembles a source on a map.
///
/// Errors: `Source` with its fault, `OutOfMemory` if an allocation fails.
fn assembled(alloc: Global, source: &[u8], map: &MapSpec) -> Result<Assembly, Refusal>
    ensures assembled { IfOk result (IsAssembled map.now) }
    ensures kept { IfOk result (λ a. a.source ≡ source.now) }
    ensures spared { IfOk result (λ a. has_port_byte map.now a.image ≡ false) }
    ensures refused { IfErr result (EndsSource map.now) }
{
    Ok(assemble(alloc, source, map)?)
}

/// Returns why a source is refused: `Faults` with the text of all its faults under the file's shown
/// name, or `OutOfMemory` if that is the fault or an allocation fails.
#[tactic(auto, using(crate::proofs::Ends::told_ends))]
pub fn faults_of(
    alloc: Global,
    file: &str,
    source: &[u8],
    map: &MapSpec,
    fault: AsmFault,
) -> LoadFault
    requires { (fault ≡ out_of_memory) ⊎ HasFault map.now source.now fault }
    ensures { EndsSourceFile map.now file.now result }
{
    let Ok(name) = shown_name(alloc, file) else {
        return LoadFault::Refused(Refusal::OutOfMemory);
    };
    match told_faults(alloc, name.as_bytes(), source, map, fault) {
        Some(text) => LoadFault::Faults { fault, text },
        None => LoadFault::Refused(Refusal::OutOfMemory),
    }
}

/// Returns why the source of a file is refused, by its first fault: what its bytes look like, if
/// they do not look like a source, and otherwise as `faults_of` says.
#[tactic(auto, using(crate::proofs::Ends::in_file))]
fn refused_source(
    alloc: Global,
    file: &str,
    bytes: &[u8],
    source: &[u8],
    map: &MapSpec,
    fault: AsmFault,
) -> LoadFault
    requires { (fault ≡ out_of_memory) ⊎ HasFault map.now source.now fault }
    ensures { EndsFile FileForm.Source map.now file.now result }
{
    if fault.kind != AsmFaultKind::OutOfMemory {
        match looks_like_capture(alloc, bytes) {
            Ok(true) => return LoadFault::LooksLikeCapture,
            Ok(false) => {
                if looks_raw(bytes) {
                    return LoadFault::LooksLikeRaw;
                }
            }
            Err(_) => return LoadFault::Refused(Refusal::OutOfMemory),
        }
    }
    faults_of(alloc, file, source, map, fault)
}

/// Returns a source as it is read.
///
/// Errors: `OutOfMemory` if an allocation fails.
fn cleaned_source(alloc: Global, bytes: &[u8]) -> Result<Vec<u8>, Refusal>
    ensures cleaned { IfOk result (λ source. source.items ≡ cleaned bytes.now) }
    ensures refused { IfErr result (λ fault. fault ≡ Refusal.OutOfMemory) }
{
    clean_source(alloc, bytes).map_err(|_| Refusal::OutOfMemory)
}

/// Assembles the source of a file on a map, unless it begins with a record of an image. What is
/// assembled is the text that is read in the place of the file's bytes, as `clean_source` says.
///
/// # Errors
///
/// `LooksLikeTape`, `LooksLikeHex` or `LooksLikeSRecords` by that record; for a source with a fault
/// `LooksLikeCapture` if its first `;` begins a right record of a tape, `LooksLikeRaw` if it begins
/// as a raw image; `Faults` with all faults of any other source;
/// `OutOfMemory` if an allocation fails.
#[tactic(auto, using(crate::proofs::Ends::in_file, crate::proofs::Ends::looks_end))]
pub fn assembled_source(
    alloc: Global,
    file: &str,
    bytes: &[u8],
    map: &MapSpec,
) -> Result<Assembly, LoadFault>
    ensures assembled { IfOk result (IsAssembled map.now) }
    ensures kept { IfOk result (λ a. a.source ≡ cleaned bytes.now) }
    ensures spared { IfOk result (λ a. has_port_byte map.now a.image ≡ false) }
    ensures refused { IfErr result (EndsFile FileForm.Source map.now file.now) }
{
    let source = cleaned_source(alloc, bytes)?;
    refuse_image(alloc, &source)?;
    match assemble(alloc, &source, map) {
        Ok(assembly) => Ok(assembly),
        Err(fault) => Err(refused_source(alloc, file, bytes, &source, map, fault)),
    }
}

/// Returns the addresses at which an image has a byte.
///
/// Errors: `OutOfMemory` if an allocation fails.
fn bytes_of(alloc: Global, image: &Image) -> Result<Written, Refusal>
    ensures bytes { IfOk result (λ written. written ≡ bytes_in image.now) }
    ensures refused { IfErr result (λ fault. fault ≡ Refusal.OutOfMemory) }
{
    Written::of_image(alloc, image).map_err(|_| Refusal::OutOfMemory)
}

/// Returns a session that holds at most `history` earlier states, on an image, and the addresses at
/// which the image has a byte.
fn started(
    alloc: Global,
    map: MapSpec,
    image: &Image,
    history: u32,
) -> Result<(Session, Written), Refusal>
    requires history { history ≤ 1048576 }
    requires spared { has_port_byte map image.now ≡ false }
    ensures session { IfOk result (λ p. p.0 ≡ new_session history (start map image.now)) }
    ensures bytes { IfOk result (λ p. p.1 ≡ bytes_in image.now) }
    ensures refused { IfErr result (λ fault. fault ≡ Refusal.OutOfMemory) }
{
    let written = bytes_of(alloc, image)?;
    let session = Session::new(alloc, map, image, history)?;
    Ok((session, written))
}

/// Returns a session that holds at most `history` earlier states, on the image of a source.
fn start_source(
    alloc: Global,
    map: MapSpec,
    assembly: Assembly,
    history: u32,
) -> Result<Loaded, Refusal>
    requires history { history ≤ 1048576 }
    requires spared { has_port_byte map assembly.image ≡ false }
    ensures started { IfOk result
        (λ loaded. loaded.session ≡ new_session history (start map assembly.image)) }
    ensures assembly { IfOk result (λ loaded. loaded.assembly ≡ Some assembly) }
    ensures bytes { IfOk result (λ loaded. loaded.written ≡ bytes_in assembly.image) }
    ensures lost { IfOk result (λ loaded. loaded.lost ≡ 0) }
    ensures whole { IfOk result (λ loaded. loaded.fill ≡ None) }
    ensures refused { IfErr result (λ fault. fault ≡ Refusal.OutOfMemory) }
{
    let (session, written) = started(alloc, map, assembly.image(), history)?;
    Ok(Loaded {
        session,
        assembly: Some(assembly),
        written,
        lost: 0,
        fill: None,
    })
}

/// Returns a session that holds at most `history` earlier states, on the image of a source's file.
fn load_source<H: Files + AllocGlobal>(
    rt: &H,
    words: &FileWords<'_>,
    map: MapSpec,
    history: u32,
) -> Result<Loaded, LoadFault>
    requires { history ≤ 1048576 }
    ensures started { IfOk result (λ loaded. (image : List (Option ℕ))
        × IsImageOf FileForm.Source words.now.omits_fill map loaded.fill image loaded.assembly
        × (loaded.session ≡ new_session history (start map image))
        × (loaded.written ≡ bytes_in image)) }
    ensures lost { IfOk result (λ loaded. loaded.lost ≡ 0) }
    ensures refused { IfErr result (EndsFile FileForm.Source map words.now.file.now) }
{
    let source = read_given_source(rt, words.file)?;
    let assembly = assembled_source(rt.alloc(), words.file, source.as_slice(), &map)?;
    Ok(start_source(rt.alloc(), map, assembly, history)?)
}

/// Returns a session that holds at most `history` earlier states, on an image.
pub fn start_image(
    alloc: Global,
    map: MapSpec,
    spared: &Spared,
    history: u32,
) -> Result<Loaded, Refusal>
    requires history { history ≤ 1048576 }
    requires spared { has_port_byte map spared.now.image ≡ false }
    ensures started { IfOk result
        (λ loaded. loaded.session ≡ new_session history (start map spared.now.image)) }
    ensures assembly { IfOk result (λ loaded. loaded.assembly ≡ None) }
    ensures bytes { IfOk result (λ loaded. loaded.written ≡ bytes_in spared.now.image) }
    ensures lost { IfOk result (λ loaded. loaded.lost ≡ 0) }
    ensures fill { IfOk result (λ loaded. loaded.fill ≡ spared.now.fill) }
    ensures refused { IfErr result (λ fault. fault ≡ Refusal.OutOfMemory) }
{
    let (session, written) = started(alloc, map, &spared.image, history)?;
    Ok(Loaded {
        session,
        assembly: None,
        written,
        lost: 0,
        fill: spared.fill,
    })
}

/// Returns the image of a file that is no source.
pub fn image_in<H: Files + AllocGlobal>(
    rt: &H,
    path: &str,
    said: Option<Form>,
) -> Result<Image, LoadFault>
    ensures found { IfOk result (IsOfFile said) }
    ensures refused { IfErr result (EndsImageFile said) }
{
    image_of_file(rt, path, said).map_err(ImageRefusal::unloaded)
}

/// Returns why an image is not loaded that has bytes at the port of a map.
fn at_port(
    map: &MapSpec,
    rom: Option<(u16, u16)>,
    said: Option<Form>,
    omits: bool,
    image: &Image,
) -> LoadFault
    requires rom { map.now.rom ≡ rom }
    requires file { IsOfFile said image.now }
    requires met { has_port_byte map.now image.now ≡ true }
    requires kept { fill_at omits map.now image.now ≡ None }
    ensures { EndsAsImage said omits map.now result }
{
    LoadFault::AtPort {
        first: map.port(),
        last: map.port() + 3,
        free: free_base(rom, image),
    }
}

/// Returns an image without its fill at the port of a map.
///
/// Errors: `OutOfMemory` if an allocation fails.
pub fn without_fill(
    alloc: Global,
    map: &MapSpec,
    image: &Image,
    base: u32,
) -> Result<Spared, Refusal>
    ensures fill { IfOk result (λ s. s.fill ≡ Some base) }
    ensures without { IfOk result (λ s. IsWithoutPort map.now image.now s.image) }
    ensures spared { IfOk result (λ s. has_port_byte map.now s.image ≡ false) }
    ensures refused { IfErr result (λ fault. fault ≡ Refusal.OutOfMemory) }
{
    match without_port(alloc, map, image) {
        Ok(image) => Ok(Spared {
            image,
            fill: Some(base),
        }),
        Err(_) => Err(Refusal::OutOfMemory),
    }
}

/// Returns the image of a file that is no source, if it has no byte at the port of a map but fill
/// that is left out.
#[tactic(auto, using(crate::proofs::Ends::as_ends, crate::proofs::Spared::file_kept, crate::proofs::Spared::file_left))]
pub fn image_on<H: Files + AllocGlobal>(
    rt: &H,
    path: &str,
    said: Option<Form>,
    map: &MapSpec,
    rom: Option<(u16, u16)>,
    omits: bool,
) -> Result<Spared, LoadFault>
    requires { map.now.rom ≡ rom }
    ensures found { IfOk result (λ s. IsSparedFile said omits map.now s.fill s.image) }
    ensures spared { IfOk result (λ s. has_port_byte map.now s.image ≡ false) }
    ensures refused { IfErr result (EndsAsImage said omits map.now) }
{
    let image = image_in(rt, path, said)?;
    match fill_at(omits, map, &image) {
        Some(base) => Ok(without_fill(rt.alloc(), map, &image, base)?),
        None => {
            if map.meets(&image) {
                return Err(at_port(map, rom, said, omits, &image));
            }
            Ok(Spared { image, fill: None })
        }
    }
}

/// Returns a session that holds at most `history` earlier states, on the image of a file that is no
/// source.
fn load_image<H: Files + AllocGlobal>(
    rt: &H,
    path: &str,
    said: Option<Form>,
    map: MapSpec,
    rom: Option<(u16, u16)>,
    omits: bool,
    history: u32,
) -> Result<Loaded, LoadFault>
    requires history { history ≤ 1048576 }
    requires rom { map.rom ≡ rom }
    ensures started { IfOk result (λ loaded. (image : List (Option ℕ))
        × IsSparedFile said omits map loaded.fill image
        × (loaded.assembly ≡ None)
        × (loaded.session ≡ new_session history (start map image))
        × (loaded.written ≡ bytes_in image)) }
    ensures lost { IfOk result (λ loaded. loaded.lost ≡ 0) }
    ensures refused { IfErr result (EndsAsImage said omits map) }
{
    let spared = image_on(rt, path, said, &map, rom, omits)?;
    Ok(start_image(rt.alloc(), map, &spared, history)?)
}

/// Returns a session that holds at most `history` earlier states, on the image of a file that the
/// words give as one.
fn load_form<H: Files + AllocGlobal>(
    rt: &H,
    words: &FileWords<'_>,
    map: MapSpec,
    history: u32,
) -> Result<Loaded, LoadFault>
    requires history { history ≤ 1048576 }
    requires rom { map.rom ≡ words.now.rom }
    requires form { words.now.form ≢ FileForm.Source }
    ensures started { IfOk result (λ loaded. (image : List (Option ℕ))
        × IsImageOf words.now.form words.now.omits_fill map loaded.fill image loaded.assembly
        × (loaded.session ≡ new_session history (start map image))
        × (loaded.written ≡ bytes_in image)) }
    ensures lost { IfOk result (λ loaded. loaded.lost ≡ 0) }
    ensures refused { IfErr result
        (EndsFileOf words.now.form words.now.omits_fill map words.now.file.now) }
{
    let said = said_of(words.form);
    let omits = words.omits_fill;
    load_image(rt, words.file, said, map, words.rom, omits, history)
}

/// Loads the file of the words: returns a session that starts with its image and holds no earlier
/// state, with the assembly if the file is a source. No input waits in it, and nothing was put out.
///
/// # Errors
///
/// In this order: `Map` if the port and the ROM do not make a map; `Read` if the file cannot be
/// read; `LooksLikeTape`, `LooksLikeHex`, `LooksLikeSRecords`, `LooksLikeCapture` or `LooksLikeRaw`
/// if the file is given as a source and looks like such an image; `Faults` with all faults of a
/// source; `Tape` with the fault of a tape; `NoImage` with why any other file is no image; `AtPort`
/// if an image has a byte at the port, unless that is fill that the words leave out. `OutOfMemory`
/// if an allocation fails.
pub fn load<H: Files + AllocGlobal>(rt: &H, words: &FileWords<'_>) -> Result<Loaded, LoadFault>
    ensures started { IfOk result (λ loaded. (image : List (Option ℕ))
        × IsLoaded (file_view words.now) loaded.fill image loaded.assembly
        × (loaded.session ≡ new_session 0 (start (map_of (file_view words.now)) image))
        × (loaded.written ≡ bytes_in image)) }
    ensures idle { IfOk result (λ loaded. input_waits loaded.session.current.bus ≡ false) }
    ensures silent { IfOk result (λ loaded. loaded.session.current.bus.out ≡ []) }
    ensures bad_map { is_map words.now.rom words.now.port ≡ false
        → result ≡ Err (Refused (Refusal.Map BadMap)) }
    ensures lost { IfOk result (λ loaded. loaded.lost ≡ 0) }
    ensures refused { IfErr result (EndsLoad (file_view words.now)) }
{
    load_with_history(rt, words, 0)
}

/// Loads the file of the words as `load` does, into a session that holds up to `history` earlier
/// states, at most 1,048,576.
///
/// # Errors
///
/// Those of `load`.
pub fn load_with_history<H: Files + AllocGlobal>(
    rt: &H,
    words: &FileWords<'_>,
    history: u32,
) -> Result<Loaded, LoadFault>
    requires { history ≤ 1048576 }
    ensures started { IfOk result (λ loaded. (image : List (Option ℕ))
        × IsLoaded (file_view words.now) loaded.fill image loaded.assembly
        × (loaded.session ≡ new_session history (start (map_of (file_view words.now)) image))
        × (loaded.written ≡ bytes_in image)) }
    ensures bad_map { is_map words.now.rom words.now.port ≡ false
        → result ≡ Err (Refused (Refusal.Map BadMap)) }
    ensures lost { IfOk result (λ loaded. loaded.lost ≡ 0) }
    ensures refused { IfErr result (EndsLoad (file_view words.now)) }
{
    let map = map_of_words(words)?;
    match words.form {
        FileForm::Source => load_source(rt, words, map, history),
        FileForm::Records | FileForm::Raw(_) | FileForm::Prg => {
            load_form(rt, words, map, history)
        }
    }
}

/// The names of a file of names.
#[derive(Drop)]
pub struct ImageNames {
    /// Those that its source gives.
    pub assembly: Assembly,
    /// Those that cannot stand in a source.
    pub others: Symbols,
    /// How many lines gave no name.
    pub lost: usize,
}

/// Returns what a file of names says as a source.
///
/// Errors: `OutOfMemory` if an allocation fails.
fn names_in(alloc: Global, profile: Profile, file: &[u8]) -> Result<NamesFile, Refusal>
    ensures names { IfOk result (λ names. names_view names ≡ names_file profile file.now) }
    ensures refused { IfErr result (λ fault. fault ≡ Refusal.OutOfMemory) }
{
    names_of_file(alloc, profile, file).map_err(|_| Refusal::OutOfMemory)
}

/// Returns the names of a file of names, as `asm --symbols` or another tool writes it: assembles
/// its source on the map of the words, and keeps the names that cannot stand in one. Bytes that
/// the source has are loaded nowhere.
///
/// # Errors
///
/// In this order: `Map`, `Read`, `Source`, as `load` says; `Read` with `NoName` if no line of the
/// file is a name in a form that is known. `OutOfMemory` if an allocation fails.
pub fn load_names<H: Files + AllocGlobal>(
    rt: &H,
    words: &FileWords<'_>,
    path: &str,
) -> Result<ImageNames, Refusal>
    ensures assembled { IfOk result (λ names. IsAssembled (map_of (file_view words.now))
        names.assembly) }
    ensures named { IfOk result (λ names. AreOfFile words.now.profile names.assembly names.others) }
    ensures lost { IfOk result (λ names. IsLost words.now.profile names.lost) }
    ensures refused { IfErr result (EndsNames (file_view words.now)) }
{
    let map = map_of_words(words)?;
    let file = read_source(rt, path)?;
    let names = names_in(rt.alloc(), words.profile, file.as_slice())?;
    if names.is_unknown {
        return Err(Refusal::Read(ReadFault::NoName));
    }
    let NamesFile {
        source,
        others,
        left_out: _,
        lost,
        is_unknown: _,
    } = names;
    let assembly = assembled(rt.alloc(), source.as_slice(), &map)?;
    Ok(ImageNames {
        assembly,
        others,
        lost,
    })
}

/// Returns an assembly with more names.
///
/// Errors: `OutOfMemory` if an allocation fails.
fn with_others(alloc: Global, assembly: Assembly, others: &Symbols) -> Result<Assembly, Refusal>
    ensures all { IfOk result (λ a. a ≡ with_others others.now assembly) }
    ensures refused { IfErr result (λ fault. fault ≡ Refusal.OutOfMemory) }
{
    assembly
        .with_names(alloc, others)
        .map_err(|_| Refusal::OutOfMemory)
}

/// Returns the names of a file of names as `load_names` reads them, all as names of one assembly:
/// those of its source, and behind them those that cannot stand in one; and how many lines gave no
/// name.
///
/// # Errors
///
/// Those of `load_names`.
pub fn load_counted_names<H: Files + AllocGlobal>(
    rt: &H,
    words: &FileWords<'_>,
    path: &str,
) -> Result<(Assembly, usize), Refusal>
    ensures named { IfOk result (λ p. AreImageNames (map_of (file_view words.now)) p.0) }
    ensures lost { IfOk result (λ p. IsLost words.now.profile p.1) }
    ensures refused { IfErr result (EndsNames (file_view words.now)) }
{
    let names = load_names(rt, words, path)?;
    let ImageNames {
        assembly,
        others,
        lost,
    } = names;
    let all = with_others(rt.alloc(), assembly, &others)?;
    Ok((all, lost))
}

/// Returns the names of a file of names as `load_counted_names` does, without the count.
///
/// # Errors
///
/// Those of `load_names`.
pub fn load_image_names<H: Files + AllocGlobal>(
    rt: &H,
    words: &FileWords<'_>,
    path: &str,
) -> Result<Assembly, Refusal>
    ensures named { IfOk result (AreImageNames (map_of (file_view words.now))) }
    ensures refused { IfErr result (EndsNames (file_view words.now)) }
{
    match load_counted_names(rt, words, path) {
        Ok((names, _)) => Ok(names),
        Err(refusal) => Err(refusal),
    }
}
