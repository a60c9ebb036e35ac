//! Several files loaded as one machine.

ghost use Rattle.std.specs.Prelude.{◌≡◌, ◌≤◌, ℕ, List, [], Option, IfErr, IfOk, None, Some};
ghost use Rattle.std.specs.Prelude.{false, option_map, true};
ghost use Rattle.accesses.specs.Writing.{bytes_in};
ghost use Rattle.arguments.specs.Asked.{file_view, map_of};
ghost use Rattle.arguments.specs.FaultLines.{load_text};
ghost use Rattle.arguments.specs.OtherFiles.{others_view};
ghost use Rattle.arguments.specs.Statuses.{status_of_load};
ghost use Rattle.image_files.specs.Files.{IsOfFile};
ghost use Rattle.image_files.specs.Fill.{fill_at};
ghost use Rattle.image_files.specs.Options.{said_of};
ghost use Rattle.image_files.specs.Union.{IsFirstClash};
ghost use Rattle.loading.specs.Loads.{EndsImageFile, EndsLoad, IsLoaded};
ghost use Rattle.loading.specs.Machine.{AreLoaded, EndsFiles, EndsJoining, EndsMachine, EndsSeveral};
ghost use Rattle.loading.specs.Machine.{HasNames, IsClash, IsJoined, IsMachine, IsOneOf};
ghost use Rattle.loading.specs.Machine.{IsSparedJoin, IsWith};
ghost use Rattle.loading.specs.Machine.{clash_place, form_of_other, machine_text, status_of_machine};
ghost use Rattle.loading.specs.Named.{IsLost, IsNamed, MayLose};
ghost use Rattle.model.specs.Event.{start};
ghost use Rattle.model.specs.Session.{new_session};
ghost use Rattle.model.specs.State.{has_port_byte, input_waits, is_map};
ghost use Rattle.model.specs.Writers.{AppendsFront};

use crate::loaded::{
    Loaded, Spared, image_in, load_counted_names, load_with_history, map_of_words, start_image,
    without_fill,
};
use crate::named::{NamedFault, load_named};
use arguments::{
    FileForm, FileWords, LoadFault, OtherFiles, Refusal, form_beside, name_of, refuse_file,
};
use formatting::{Text, push_bytes, push_hex_address};
use image_files::{fill_at, first_clash, free_base, said_of, union_of};
use memory_map::{Image, MapSpec};
use std::alloc::Global;
use std::io::Write;
use std::rt::Files;

/// What is wrong of a file that has another byte at an address than those before it.
const CLASH: &str = "has another byte than a file before it";

/// Why one of several files is not loaded. A map and memory are of no file.
#[derive(Drop)]
pub struct FileFault<'a> {
    /// The file of which it is.
    pub file: &'a str,
    pub fault: LoadFault,
}

/// Why nothing is loaded where several files may be named.
#[derive(Drop)]
pub enum MachineFault<'a> {
    /// One file is named, and is not loaded, or not with the names of another.
    Alone(NamedFault),
    /// Several files are named, and this one is not loaded.
    OfFile(FileFault<'a>),
    /// Several files are named, and the file of their names is not read.
    OfNames(Refusal),
}

/// The image of some files, and the first of them that has a byte at the port.
#[derive(Drop)]
struct Joined<'a> {
    image: Image,
    at_port: Option<&'a str>,
}

impl FileFault<'_> {
    /// Writes why nothing was loaded, with the name of the file that it is of, and returns the exit
    /// status, even if that cannot be written.
    pub fn tell<E: Write>(self, errors: &mut E) -> u8
        ensures status { result ≡ status_of_load self.entry.fault }
        ensures told { AppendsFront (E.contents errors.old) (E.contents errors.new)
            (load_text self.entry.fault self.entry.file.now) }
    {
        let FileFault { file, fault } = self;
        fault.tell(file, errors)
    }
}

impl MachineFault<'_> {
    /// Writes why nothing was loaded, with the name of the file that it is of, and returns the exit
    /// status, even if that cannot be written.
    pub fn tell<E: Write>(self, file: &str, symbols: Option<&str>, errors: &mut E) -> u8
        ensures status { result ≡ status_of_machine self.entry }
        ensures told { AppendsFront (E.contents errors.old) (E.contents errors.new)
            (machine_text self.entry file.now (option_map (λ s. s.now) symbols.entry)) }
    {
        match self {
            MachineFault::Alone(fault) => fault.tell(file, symbols, errors),
            MachineFault::OfFile(fault) => fault.tell(errors),
            MachineFault::OfNames(refusal) => {
                let names = symbols.unwrap_or("");
                refuse_file(refusal, names, errors)
            }
        }
    }
}

/// Returns the image of another file than the first.
fn other_image<H: Files + AllocGlobal>(rt: &H, word: &str) -> Result<Image, LoadFault>
    ensures found { IfOk result (IsOfFile (form_of_other word.now)) }
    ensures refused { IfErr result (EndsImageFile (form_of_other word.now)) }
{
    let said = said_of(form_beside(word, FileForm::Records));
    match image_in(rt, name_of(word), said) {
        Ok(image) => Ok(image),
        Err(fault) => Err(fault),
    }
}

/// Returns where the images of two files have two bytes.
fn clash_place(address: u16) -> Text
    ensures { result.items ≡ clash_place address }
{
    let mut text = Text::new();
    push_bytes(&mut text, b"IMAGE address ");
    push_hex_address(&mut text, address);
    push_bytes(&mut text, b" ");
    text
}

/// Returns why images are not joined of which the second has another byte at an address.
fn clash(one: &Image, other: &Image, address: u16) -> LoadFault
    requires { IsFirstClash one.now other.now (Some address) }
    ensures { IsClash result }
{
    LoadFault::NoImage {
        place: clash_place(address),
        what: CLASH,
        number: None,
        note: "",
    }
}

/// Returns what two images have. The only error is that memory ran out.
fn union_with(alloc: Global, word: &str, one: &Image, other: &Image) -> Result<Image, LoadFault>
    requires file { IsOfFile (form_of_other word.now) other.now }
    requires agrees { IsFirstClash one.now other.now None }
    ensures joined { IfOk result (IsWith (Some word.now) one.now) }
    ensures refused { IfErr result EndsJoining }
{
    match union_of(alloc, one, other) {
        Ok(both) => Ok(both),
        Err(_) => Err(LoadFault::Refused(Refusal::OutOfMemory)),
    }
}

/// Returns what two images have, unless they have two bytes for an address.
#[tactic(auto, using(crate::proofs::Joins::clash_ends))]
fn joined_with(alloc: Global, word: &str, one: &Image, other: &Image) -> Result<Image, LoadFault>
    requires { IsOfFile (form_of_other word.now) other.now }
    ensures joined { IfOk result (IsWith (Some word.now) one.now) }
    ensures refused { IfErr result EndsJoining }
{
    match first_clash(one, other) {
        None => union_with(alloc, word, one, other),
        Some(address) => Err(clash(one, other, address)),
    }
}

/// Returns the first of some files that has a byte at the port, where another one follows.
fn first_at_port<'a>(
    map: &MapSpec,
    at_port: Option<&'a str>,
    image: &Image,
    file: &'a str,
) -> Option<&'a str> {
    match at_port {
        Some(file) => Some(file),
        None => { if map.meets(image) { Some(file) } else { None } }
    }
}

/// Returns some images with that of another file.
#[tactic(auto, using(crate::proofs::Joins::other_ends))]
fn with_file<'a, H: Files + AllocGlobal>(
    rt: &H,
    map: &MapSpec,
    joined: Joined<'a>,
    word: &'a str,
) -> Result<Joined<'a>, FileFault<'a>>
    ensures joined { IfOk result
        (λ all. IsWith (Some word.entry.now) joined.entry.image all.image) }
    ensures refused { IfErr result (λ why. EndsJoining why.fault) }
{
    let file = name_of(word);
    let other = match other_image(rt, word) {
        Ok(other) => other,
        Err(fault) => return Err(FileFault { file, fault }),
    };
    let at_port = first_at_port(map, joined.at_port, &other, file);
    match joined_with(rt.alloc(), word, &joined.image, &other) {
        Ok(image) => Ok(Joined { image, at_port }),
        Err(fault) => Err(FileFault { file, fault }),
    }
}

/// Returns some images with that of another file, if there is one.
#[tactic(auto, using(crate::proofs::Joins::none_with, crate::proofs::Joins::some_with))]
fn with_other<'a, H: Files + AllocGlobal>(
    rt: &H,
    map: &MapSpec,
    joined: Joined<'a>,
    word: Option<&'a str>,
) -> Result<Joined<'a>, FileFault<'a>>
    ensures joined { IfOk result (λ all. IsWith (option_map (λ w. w.now) word.entry)
        joined.entry.image all.image) }
    ensures refused { IfErr result (λ why. EndsJoining why.fault) }
{
    match word {
        None => Ok(joined),
        Some(word) => with_file(rt, map, joined, word),
    }
}

/// Returns the image of the first file.
fn first_joined<'a, H: Files + AllocGlobal>(
    rt: &H,
    map: &MapSpec,
    words: &FileWords<'a>,
) -> Result<Joined<'a>, FileFault<'a>>
    ensures first { IfOk result (λ all. IsOfFile (said_of words.now.form) all.image) }
    ensures refused { IfErr result (λ why. EndsJoining why.fault) }
{
    let file = words.file;
    match image_in(rt, file, said_of(words.form)) {
        Ok(image) => {
            let at_port = first_at_port(map, None, &image, file);
            Ok(Joined { image, at_port })
        }
        Err(fault) => Err(FileFault { file, fault }),
    }
}

/// Returns the image of all files.
fn joined_image<'a, H: Files + AllocGlobal>(
    rt: &H,
    map: &MapSpec,
    words: &FileWords<'a>,
    others: OtherFiles<'a>,
) -> Result<Joined<'a>, FileFault<'a>>
    ensures joined { IfOk result
        (λ all. IsJoined (file_view words.now) (others_view others.entry) all.image) }
    ensures refused { IfErr result (λ why. EndsJoining why.fault) }
{
    let first = first_joined(rt, map, words)?;
    let two = with_other(rt, map, first, others.second)?;
    let three = with_other(rt, map, two, others.third)?;
    let all = with_other(rt, map, three, others.fourth)?;
    Ok(all)
}

/// Returns why an image of several files is not loaded that has bytes at the port of a map.
fn at_port(map: &MapSpec, words: &FileWords<'_>, others: OtherFiles<'_>, image: &Image) -> LoadFault
    requires map { map.now ≡ map_of (file_view words.now) }
    requires joined { IsJoined (file_view words.now) (others_view others) image.now }
    requires met { has_port_byte map.now image.now ≡ true }
    requires kept { fill_at words.now.omits_fill map.now image.now ≡ None }
    ensures { EndsSeveral (file_view words.now) (others_view others.entry) result }
{
    LoadFault::AtPort {
        first: map.port(),
        last: map.port() + 3,
        free: free_base(words.rom, image),
    }
}

/// Returns the image of all files without its fill at the port of the map. The only error is that
/// memory ran out.
#[tactic(auto, using(crate::proofs::Spared::join_left))]
fn joined_without<'a>(
    alloc: Global,
    map: &MapSpec,
    words: &FileWords<'a>,
    others: OtherFiles<'a>,
    image: &Image,
    base: u32,
) -> Result<Spared, FileFault<'a>>
    requires map { map.now ≡ map_of (file_view words.now) }
    requires joined { IsJoined (file_view words.now) (others_view others) image.now }
    requires filled { Some base ≡ fill_at words.now.omits_fill map.now image.now }
    ensures joined { IfOk result
        (λ s. IsSparedJoin (file_view words.now) (others_view others.entry) s.fill s.image) }
    ensures spared { IfOk result (λ s. has_port_byte map.now s.image ≡ false) }
    ensures refused { IfErr result
        (λ why. EndsSeveral (file_view words.now) (others_view others.entry) why.fault) }
{
    match without_fill(alloc, map, image, base) {
        Ok(spared) => Ok(spared),
        Err(refusal) => Err(of_words(words, refusal)),
    }
}

/// Returns the image of all files, if it has no byte at the port of the map but fill that is left
/// out.
#[tactic(auto, using(crate::proofs::Joins::joining_ends, crate::proofs::Spared::join_kept))]
fn image_on<'a, H: Files + AllocGlobal>(
    rt: &H,
    map: &MapSpec,
    words: &FileWords<'a>,
    others: OtherFiles<'a>,
) -> Result<Spared, FileFault<'a>>
    requires { map.now ≡ map_of (file_view words.now) }
    ensures joined { IfOk result
        (λ s. IsSparedJoin (file_view words.now) (others_view others.entry) s.fill s.image) }
    ensures spared { IfOk result (λ s. has_port_byte map.now s.image ≡ false) }
    ensures refused { IfErr result
        (λ why. EndsSeveral (file_view words.now) (others_view others.entry) why.fault) }
{
    let joined = match joined_image(rt, map, words, others) {
        Ok(joined) => joined,
        Err(why) => return Err(why),
    };
    if let Some(base) = fill_at(words.omits_fill, map, &joined.image) {
        return joined_without(rt.alloc(), map, words, others, &joined.image, base);
    }
    if map.meets(&joined.image) {
        let file = joined.at_port.unwrap_or(words.file);
        let fault = at_port(map, words, others, &joined.image);
        return Err(FileFault { file, fault });
    }
    let Joined { image, at_port: _ } = joined;
    Ok(Spared { image, fill: None })
}

/// Returns what is told of a refusal that is of no file.
fn of_words<'a>(words: &FileWords<'a>, refusal: Refusal) -> FileFault<'a>
    ensures { result.fault ≡ LoadFault.Refused refusal }
{
    FileFault {
        file: words.file,
        fault: LoadFault::Refused(refusal),
    }
}

/// Loads several files.
#[tactic(auto, using(crate::proofs::Joins::map_ends))]
fn load_joined<'a, H: Files + AllocGlobal>(
    rt: &H,
    words: &FileWords<'a>,
    others: OtherFiles<'a>,
    history: u32,
) -> Result<(Loaded, Image), FileFault<'a>>
    requires history { history ≤ 1048576 }
    ensures is_map { IfOk result (λ _. is_map words.now.rom words.now.port ≡ true) }
    ensures joined { IfOk result (λ made. IsSparedJoin (file_view words.now)
        (others_view others.entry) made.0.fill made.1) }
    ensures assembly { IfOk result (λ made. made.0.assembly ≡ None) }
    ensures session { IfOk result (λ made. made.0.session
        ≡ new_session history (start (map_of (file_view words.now)) made.1)) }
    ensures bytes { IfOk result (λ made. made.0.written ≡ bytes_in made.1) }
    ensures lost { IfOk result (λ made. made.0.lost ≡ 0) }
    ensures bad_map { is_map words.now.rom words.now.port ≡ false
        → IfErr result (λ why. status_of_load why.fault ≡ 2) × IfOk result (λ _. ⊥) }
    ensures refused { IfErr result
        (λ why. EndsSeveral (file_view words.now) (others_view others.entry) why.fault) }
{
    let map = match map_of_words(words) {
        Ok(map) => map,
        Err(refusal) => return Err(of_words(words, refusal)),
    };
    let spared = match image_on(rt, &map, words, others) {
        Ok(spared) => spared,
        Err(why) => return Err(why),
    };
    match start_image(rt.alloc(), map, &spared, history) {
        Ok(loaded) => {
            let Spared { image, fill: _ } = spared;
            Ok((loaded, image))
        }
        Err(refusal) => Err(of_words(words, refusal)),
    }
}

/// Loads several files, and the names of another one.
fn several_named<'a, H: Files + AllocGlobal>(
    rt: &H,
    words: &FileWords<'a>,
    others: OtherFiles<'a>,
    path: &str,
) -> Result<Loaded, MachineFault<'a>>
    ensures started { IfOk result (λ loaded. (image : List (Option ℕ))
        × (is_map words.now.rom words.now.port ≡ true)
        × IsSparedJoin (file_view words.now) (others_view others.entry) loaded.fill image
        × HasNames (file_view words.now) (Some path.now) image loaded.assembly
        × (loaded.session ≡ new_session 0 (start (map_of (file_view words.now)) image))
        × (loaded.written ≡ bytes_in image)) }
    ensures lost { IfOk result (λ loaded. IsLost words.now.profile loaded.lost) }
    ensures bad_map { is_map words.now.rom words.now.port ≡ false
        → IfErr result (λ fault. status_of_machine fault ≡ 2) × IfOk result (λ _. ⊥) }
    ensures refused { IfErr result (EndsMachine (file_view words.now) (others_view others.entry)
        (Some path.now)) }
{
    let (loaded, image) = match load_joined(rt, words, others, 0) {
        Ok(made) => made,
        Err(why) => return Err(MachineFault::OfFile(why)),
    };
    match load_counted_names(rt, words, path) {
        Ok((names, lost)) => {
            let assembly = Some(names.with_image(rt.alloc(), image));
            Ok(Loaded {
                assembly,
                lost,
                ..loaded
            })
        }
        Err(refusal) => Err(MachineFault::OfNames(refusal)),
    }
}

/// Loads several files without names, into a session that holds up to `history` earlier states.
fn several_alone<'a, H: Files + AllocGlobal>(
    rt: &H,
    words: &FileWords<'a>,
    others: OtherFiles<'a>,
    history: u32,
) -> Result<Loaded, FileFault<'a>>
    requires history { history ≤ 1048576 }
    ensures started { IfOk result (λ loaded. (image : List (Option ℕ))
        × (is_map words.now.rom words.now.port ≡ true)
        × IsSparedJoin (file_view words.now) (others_view others.entry) loaded.fill image
        × HasNames (file_view words.now) None image loaded.assembly
        × (loaded.session ≡ new_session history (start (map_of (file_view words.now)) image))
        × (loaded.written ≡ bytes_in image)) }
    ensures lost { IfOk result (λ loaded. loaded.lost ≡ 0) }
    ensures bad_map { is_map words.now.rom words.now.port ≡ false
        → IfErr result (λ why. status_of_load why.fault ≡ 2) × IfOk result (λ _. ⊥) }
    ensures refused { IfErr result
        (λ why. EndsSeveral (file_view words.now) (others_view others.entry) why.fault) }
{
    match load_joined(rt, words, others, history) {
        Ok((loaded, _)) => Ok(loaded),
        Err(why) => Err(why),
    }
}

/// Loads several files, and the names of another one, if one is named.
fn load_several<'a, H: Files + AllocGlobal>(
    rt: &H,
    words: &FileWords<'a>,
    others: OtherFiles<'a>,
    symbols: Option<&str>,
) -> Result<Loaded, MachineFault<'a>>
    ensures started { IfOk result (λ loaded. (image : List (Option ℕ))
        × (is_map words.now.rom words.now.port ≡ true)
        × IsSparedJoin (file_view words.now) (others_view others.entry) loaded.fill image
        × HasNames (file_view words.now) (option_map (λ s. s.now) symbols.entry) image
        loaded.assembly
        × (loaded.session ≡ new_session 0 (start (map_of (file_view words.now)) image))
        × (loaded.written ≡ bytes_in image)) }
    ensures lost { IfOk result (λ loaded. MayLose words.now.profile
        (option_map (λ s. s.now) symbols.entry) loaded.lost) }
    ensures bad_map { is_map words.now.rom words.now.port ≡ false
        → IfErr result (λ fault. status_of_machine fault ≡ 2) × IfOk result (λ _. ⊥) }
    ensures refused { IfErr result (EndsMachine (file_view words.now) (others_view others.entry)
        (option_map (λ s. s.now) symbols.entry)) }
{
    let Some(path) = symbols else {
        return match several_alone(rt, words, others, 0) {
            Ok(loaded) => Ok(loaded),
            Err(why) => Err(MachineFault::OfFile(why)),
        };
    };
    several_named(rt, words, others, path)
}

/// Loads one file as `load_named` does.
fn load_alone<'a, H: Files + AllocGlobal>(
    rt: &H,
    words: &FileWords<'a>,
    others: OtherFiles<'a>,
    symbols: Option<&str>,
) -> Result<Loaded, MachineFault<'a>>
    ensures started { IfOk result (λ loaded. (image : List (Option ℕ))
        × IsNamed (file_view words.now) (option_map (λ s. s.now) symbols.entry) loaded.fill image
        loaded.assembly
        × (loaded.session ≡ new_session 0 (start (map_of (file_view words.now)) image))
        × (loaded.written ≡ bytes_in image)) }
    ensures lost { IfOk result (λ loaded. MayLose words.now.profile
        (option_map (λ s. s.now) symbols.entry) loaded.lost) }
    ensures bad_map { is_map words.now.rom words.now.port ≡ false
        → IfErr result (λ fault. status_of_machine fault ≡ 2) × IfOk result (λ _. ⊥) }
    ensures refused { IfErr result (EndsMachine (file_view words.now) (others_view others.entry)
        (option_map (λ s. s.now) symbols.entry)) }
{
    match load_named(rt, words, symbols) {
        Ok(loaded) => Ok(loaded),
        Err(fault) => Err(MachineFault::Alone(fault)),
    }
}

/// Loads the file of the words as `load_named` does, if no other file is named. Several files are
/// images, each in its own form, and make one machine: what each has, at its addresses.
///
/// # Errors
///
/// Of one file, `Alone` with the fault of `load_named`. Of several, in this order: `OfFile` if the
/// port and the ROM do not make a map; file by file, `OfFile` if it is no image or cannot be read,
/// or has another byte at an address than a file before it, with the lowest such address; `OfFile`
/// with `AtPort` if one has a byte at the port, unless that is fill that the words leave out;
/// `OfNames` with the fault of `load_image_names`.
/// `OutOfMemory` if an allocation fails.
pub fn load_machine<'a, H: Files + AllocGlobal>(
    rt: &H,
    words: &FileWords<'a>,
    others: OtherFiles<'a>,
    symbols: Option<&str>,
) -> Result<Loaded, MachineFault<'a>>
    ensures started { IfOk result (λ loaded. (image : List (Option ℕ))
        × IsMachine (file_view words.now) (others_view others.entry)
        (option_map (λ s. s.now) symbols.entry) loaded.fill image loaded.assembly
        × (loaded.session ≡ new_session 0 (start (map_of (file_view words.now)) image))
        × (loaded.written ≡ bytes_in image)) }
    ensures idle { IfOk result (λ loaded. input_waits loaded.session.current.bus ≡ false) }
    ensures silent { IfOk result (λ loaded. loaded.session.current.bus.out ≡ []) }
    ensures lost { IfOk result (λ loaded. MayLose words.now.profile
        (option_map (λ s. s.now) symbols.entry) loaded.lost) }
    ensures bad_map { is_map words.now.rom words.now.port ≡ false
        → IfErr result (λ fault. status_of_machine fault ≡ 2) × IfOk result (λ _. ⊥) }
    ensures refused { IfErr result (EndsMachine (file_view words.now) (others_view others.entry)
        (option_map (λ s. s.now) symbols.entry)) }
{
    match others.second {
        None => load_alone(rt, words, others, symbols),
        Some(_) => load_several(rt, words, others, symbols),
    }
}

/// Loads the file of the words, into a session that holds up to `history` earlier states.
fn alone_with_history<'a, H: Files + AllocGlobal>(
    rt: &H,
    words: &FileWords<'a>,
    history: u32,
) -> Result<Loaded, FileFault<'a>>
    requires { history ≤ 1048576 }
    ensures started { IfOk result (λ loaded. (image : List (Option ℕ))
        × IsLoaded (file_view words.now) loaded.fill image loaded.assembly
        × (loaded.session ≡ new_session history (start (map_of (file_view words.now)) image))
        × (loaded.written ≡ bytes_in image)) }
    ensures bad_map { is_map words.now.rom words.now.port ≡ false
        → IfErr result (λ why. status_of_load why.fault ≡ 2) × IfOk result (λ _. ⊥) }
    ensures named { IfErr result (λ why. why.file.now ≡ words.now.file.now) }
    ensures refused { IfErr result (λ why. EndsLoad (file_view words.now) why.fault) }
{
    match load_with_history(rt, words, history) {
        Ok(loaded) => Ok(loaded),
        Err(fault) => Err(FileFault {
            file: words.file,
            fault,
        }),
    }
}

/// Loads the file of the words as `load_with_history` does, or several files as `load_machine`
/// does, into a session that holds up to `history` earlier states, at most 1,048,576.
///
/// # Errors
///
/// Those of `load` for one file, and of `load_machine` for several, with the file.
pub fn load_files<'a, H: Files + AllocGlobal>(
    rt: &H,
    words: &FileWords<'a>,
    others: OtherFiles<'a>,
    history: u32,
) -> Result<Loaded, FileFault<'a>>
    requires { history ≤ 1048576 }
    ensures started { IfOk result (λ loaded. (image : List (Option ℕ))
        × AreLoaded (file_view words.now) (others_view others.entry) loaded.fill image
        loaded.assembly
        × (loaded.session ≡ new_session history (start (map_of (file_view words.now)) image))
        × (loaded.written ≡ bytes_in image)) }
    ensures bad_map { is_map words.now.rom words.now.port ≡ false
        → IfErr result (λ why. status_of_load why.fault ≡ 2) × IfOk result (λ _. ⊥) }
    ensures named { IfErr result (λ why. IsOneOf (others_view others.entry).second
        (file_view words.now) why.file.now) }
    ensures refused { IfErr result
        (λ why. EndsFiles (file_view words.now) (others_view others.entry) why.fault) }
{
    match others.second {
        None => alone_with_history(rt, words, history),
        Some(_) => several_alone(rt, words, others, history),
    }
}
