//! A file loaded with the names of another.

ghost use Rattle.std.specs.Prelude.{◌≡◌, ◌≢◌, ℕ, List, [], Option, Err, IfErr, IfOk, None, Some};
ghost use Rattle.std.specs.Prelude.{false};
ghost use Rattle.std.specs.Prelude.{option_map};
ghost use Rattle.accesses.specs.Writing.{bytes_in};
ghost use Rattle.arguments.specs.Asked.{file_view, map_of};
ghost use Rattle.arguments.specs.declared.load_fault.LoadFault.TheVariants.{Refused};
ghost use Rattle.loading.specs.Loads.{EndsLoad, IsLoaded};
ghost use Rattle.loading.specs.Named.{EndsNamed, IsLost, IsNamed, MayLose, named_text};
ghost use Rattle.loading.specs.Named.{status_of_named};
ghost use Rattle.loading.specs.declared.named.NamedFault.TheVariants.{OfFile};
ghost use Rattle.model.specs.Event.{start};
ghost use Rattle.model.specs.Session.{new_session};
ghost use Rattle.model.specs.State.{input_waits, is_map};
ghost use Rattle.model.specs.Writers.{AppendsFront};
ghost use Rattle.model.specs.declared.bus_fault.BusFault.TheVariants.{BadMap};

use crate::loaded::{
    Loaded, Spared, image_on, load, load_counted_names, map_of_words, start_image,
};
use arguments::{FileForm, FileWords, LoadFault, Refusal, put_all, refuse_file};
use image_files::said_of;
use memory_map::Image;
use std::io::Write;
use std::rt::Files;

/// What is said where a file of names is given for a source.
const HAS_NAMES: &str =
    "mos65: WORDS: --symbols is for an image, of raw bytes as FILE@HHHH; a source has its own names\n";

/// Why nothing is loaded where a file of names may be named.
#[derive(Drop)]
pub enum NamedFault {
    /// The file is a source, which has its own names.
    HasSource,
    /// The file is not loaded.
    OfFile(LoadFault),
    /// The file of names is not read.
    OfNames(Refusal),
}

impl From<LoadFault> for NamedFault {
    ghost from_gives = { λ fault named. named ≡ OfFile fault };

    fn from(fault: LoadFault) -> NamedFault {
        NamedFault::OfFile(fault)
    }
}

impl NamedFault {
    /// Writes why nothing was loaded, and returns the exit status, even if that cannot be written.
    /// It is 2 where names are given for a source, and otherwise that of the file, or of the file
    /// of names.
    pub fn tell<E: Write>(self, file: &str, symbols: Option<&str>, errors: &mut E) -> u8
        ensures status { result ≡ status_of_named self }
        ensures told { AppendsFront (E.contents errors.old) (E.contents errors.new)
            (named_text self file.now (option_map (λ s. s.now) symbols.entry)) }
    {
        let names = symbols.unwrap_or("");
        match self {
            NamedFault::OfFile(fault) => fault.tell(file, errors),
            NamedFault::OfNames(refusal) => refuse_file(refusal, names, errors),
            NamedFault::HasSource => {
                put_all(&[HAS_NAMES.as_bytes()], errors);
                2
            }
        }
    }
}

/// Loads the image of a file that is no source.
fn load_image<H: Files + AllocGlobal>(
    rt: &H,
    words: &FileWords<'_>,
) -> Result<(Loaded, Image), LoadFault>
    requires form { words.now.form ≢ FileForm.Source }
    ensures loaded { IfOk result (λ made. IsLoaded (file_view words.now) made.0.fill made.1 None
        × (made.0.assembly ≡ None)
        × (made.0.session ≡ new_session 0 (start (map_of (file_view words.now)) made.1))
        × (made.0.written ≡ bytes_in made.1)) }
    ensures bad_map { is_map words.now.rom words.now.port ≡ false
        → result ≡ Err (Refused (Refusal.Map BadMap)) }
    ensures refused { IfErr result (EndsLoad (file_view words.now)) }
{
    let map = map_of_words(words)?;
    let said = said_of(words.form);
    let spared = image_on(rt, words.file, said, &map, words.rom, words.omits_fill)?;
    let loaded = start_image(rt.alloc(), map, &spared, 0)?;
    let Spared { image, fill: _ } = spared;
    Ok((loaded, image))
}

/// Loads the image of a file that is no source, with the names of another file.
fn load_with_names<H: Files + AllocGlobal>(
    rt: &H,
    words: &FileWords<'_>,
    path: &str,
) -> Result<Loaded, NamedFault>
    requires form { words.now.form ≢ FileForm.Source }
    ensures started { IfOk result (λ loaded. (image : List (Option ℕ))
        × IsNamed (file_view words.now) (Some path.now) loaded.fill image loaded.assembly
        × (loaded.session ≡ new_session 0 (start (map_of (file_view words.now)) image))
        × (loaded.written ≡ bytes_in image)) }
    ensures lost { IfOk result (λ loaded. IsLost words.now.profile loaded.lost) }
    ensures bad_map { is_map words.now.rom words.now.port ≡ false
        → result ≡ Err (OfFile (Refused (Refusal.Map BadMap))) }
    ensures refused { IfErr result (EndsNamed (file_view words.now) (Some path.now)) }
{
    let (loaded, image) = load_image(rt, words)?;
    match load_counted_names(rt, words, path) {
        Ok((names, lost)) => {
            let assembly = Some(names.with_image(rt.alloc(), image));
            Ok(Loaded {
                assembly,
                lost,
                ..loaded
            })
        }
        Err(refusal) => Err(NamedFault::OfNames(refusal)),
    }
}

/// Loads the file of the words as `load` does, and gives an image the names of a file, if one is
/// named: a session at the start of the image, with an assembly that has these names and no line.
///
/// # Errors
///
/// In this order: `HasSource` if a file of names is named and the file is a source; `OfFile` with
/// the fault of `load`; `OfNames` with that of `load_image_names`.
pub fn load_named<H: Files + AllocGlobal>(
    rt: &H,
    words: &FileWords<'_>,
    symbols: Option<&str>,
) -> Result<Loaded, NamedFault>
    ensures started { IfOk result (λ loaded. (image : List (Option ℕ))
        × IsNamed (file_view words.now) (option_map (λ s. s.now) symbols.entry) loaded.fill image
        loaded.assembly
        × (loaded.session ≡ new_session 0 (start (map_of (file_view words.now)) image))
        × (loaded.written ≡ bytes_in image)) }
    ensures idle { IfOk result (λ loaded. input_waits loaded.session.current.bus ≡ false) }
    ensures silent { IfOk result (λ loaded. loaded.session.current.bus.out ≡ []) }
    ensures lost { IfOk result (λ loaded. MayLose words.now.profile
        (option_map (λ s. s.now) symbols.entry) loaded.lost) }
    ensures bad_map { is_map words.now.rom words.now.port ≡ false
        → IfErr result (λ fault. status_of_named fault ≡ 2) × IfOk result (λ loaded. ⊥) }
    ensures refused { IfErr result (EndsNamed (file_view words.now)
        (option_map (λ s. s.now) symbols.entry)) }
{
    let Some(path) = symbols else {
        return Ok(load(rt, words)?);
    };
    if words.form == FileForm::Source {
        return Err(NamedFault::HasSource);
    }
    load_with_names(rt, words, path)
}
