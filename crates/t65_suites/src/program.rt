//! What rows are run on: a source that is assembled, or an image that is loaded.

ghost use Rattle.std.specs.Prelude.{◌≡◌, ◌≢◌, [], IfErr, IfOk, false, option_map, true};
ghost use Rattle.arguments.specs.Asked.{file_view, map_of};
ghost use Rattle.arguments.specs.declared.load_fault.LoadFault.TheVariants.{Refused};
ghost use Rattle.assembler.specs.Assembly.{IsAssembled};
ghost use Rattle.image_files.specs.Files.{IsOfFile};
ghost use Rattle.image_files.specs.Options.{said_of};
ghost use Rattle.loading.specs.Loads.{EndsAsImage, EndsAsSource, EndsImageFile};
ghost use Rattle.model.specs.State.{has_port_byte, is_map};
ghost use Rattle.t65_suites.specs.Programs.{AreNames, EndsProgram, IsProgram};

use arguments::{FileForm, FileWords, LoadFault, Refusal, read_source};
use assembler::{Assembly, assemble};
use image_files::{free_base, image_of_file, said_of};
use loading::{NamedFault, assembled_source, load_image_names};
use memory_map::{Image, MapSpec};
use std::alloc::Global;
use std::rt::Files;

/// Returns the source of a file, assembled.
///
/// Errors: `Read` if the file cannot be read; those of `assembled_source`.
fn assembled_file<H: Files + AllocGlobal>(
    rt: &H,
    path: &str,
    map: &MapSpec,
) -> Result<Assembly, LoadFault>
    ensures assembled { IfOk result (IsAssembled map.now) }
    ensures spared { IfOk result (λ a. has_port_byte map.now a.image ≡ false) }
    ensures refused { IfErr result (EndsAsSource map.now path.now) }
{
    let source = read_source(rt, path)?;
    assembled_source(rt.alloc(), path, &source, map)
}

/// Returns the image of a file that is no source.
fn image_in<H: Files + AllocGlobal>(rt: &H, words: &FileWords<'_>) -> Result<Image, LoadFault>
    ensures found { IfOk result (IsOfFile (said_of words.now.form)) }
    ensures refused { IfErr result (EndsImageFile (said_of words.now.form)) }
{
    match image_of_file(rt, words.file, said_of(words.form)) {
        Ok(image) => Ok(image),
        Err(why) => Err(why.unloaded()),
    }
}

/// Returns why an image is not loaded that has bytes at the port of a map.
fn at_port(words: &FileWords<'_>, map: &MapSpec, image: &Image) -> LoadFault
    requires map { map.now ≡ map_of (file_view words.now) }
    requires file { IsOfFile (said_of words.now.form) image.now }
    requires met { has_port_byte map.now image.now ≡ true }
    ensures { EndsAsImage (said_of words.now.form) false map.now result }
{
    LoadFault::AtPort {
        first: map.port(),
        last: map.port() + 3,
        free: free_base(words.rom, image),
    }
}

/// Returns the image of a file that is no source, if it has no byte at the port of a map.
#[tactic(auto, using(loading::proofs::Ends::as_ends))]
fn image_on<H: Files + AllocGlobal>(
    rt: &H,
    words: &FileWords<'_>,
    map: &MapSpec,
) -> Result<Image, LoadFault>
    requires { map.now ≡ map_of (file_view words.now) }
    ensures found { IfOk result (IsOfFile (said_of words.now.form)) }
    ensures spared { IfOk result (λ image. has_port_byte map.now image ≡ false) }
    ensures refused { IfErr result (EndsAsImage (said_of words.now.form) false map.now) }
{
    let image = image_in(rt, words)?;
    if map.meets(&image) {
        Err(at_port(words, map, &image))
    } else {
        Ok(image)
    }
}

/// Returns an assembly without a name: that of a source without a line.
///
/// Errors: `OutOfMemory` if an allocation fails.
#[tactic(auto, using(crate::proofs::Programs::no_line))]
fn no_names(alloc: Global, map: &MapSpec) -> Result<Assembly, LoadFault>
    ensures names { IfOk result (λ a. a.names ≡ []) }
    ensures refused { IfErr result (λ fault. fault ≡ Refused Refusal.OutOfMemory) }
{
    match assemble(alloc, b"", map) {
        Ok(assembly) => Ok(assembly),
        Err(_) => Err(LoadFault::Refused(Refusal::OutOfMemory)),
    }
}

/// Returns the names that an image is given: those of a file, if one is named, or none.
///
/// Errors: `OfNames` with the fault of `load_image_names`; `OfFile` with `OutOfMemory` if an
/// allocation fails.
#[tactic(auto, using(crate::proofs::Programs::names_refused))]
fn names_for<H: Files + AllocGlobal>(
    rt: &H,
    words: &FileWords<'_>,
    symbols: Option<&str>,
    map: &MapSpec,
) -> Result<Assembly, NamedFault>
    requires is_map { is_map words.now.rom words.now.port ≡ true }
    ensures names { IfOk result (AreNames (map_of (file_view words.now))
        (option_map (λ s. s.now) symbols.entry)) }
    ensures refused { IfErr result (EndsProgram (file_view words.now)
        (option_map (λ s. s.now) symbols.entry)) }
{
    match symbols {
        None => match no_names(rt.alloc(), map) {
            Ok(names) => Ok(names),
            Err(fault) => Err(NamedFault::OfFile(fault)),
        },
        Some(path) => match load_image_names(rt, words, path) {
            Ok(names) => Ok(names),
            Err(refusal) => Err(NamedFault::OfNames(refusal)),
        },
    }
}

/// Loads an image, with the names of a file if one is named.
#[tactic(auto, using(crate::proofs::Programs::image_refused))]
fn image_program<H: Files + AllocGlobal>(
    rt: &H,
    words: &FileWords<'_>,
    symbols: Option<&str>,
    map: &MapSpec,
) -> Result<Assembly, NamedFault>
    requires map { map.now ≡ map_of (file_view words.now) }
    requires is_map { is_map words.now.rom words.now.port ≡ true }
    requires form { words.now.form ≢ FileForm.Source }
    ensures program { IfOk result (IsProgram (file_view words.now)
        (option_map (λ s. s.now) symbols.entry)) }
    ensures refused { IfErr result (EndsProgram (file_view words.now)
        (option_map (λ s. s.now) symbols.entry)) }
{
    let image = match image_on(rt, words, map) {
        Ok(image) => image,
        Err(fault) => return Err(NamedFault::OfFile(fault)),
    };
    match names_for(rt, words, symbols, map) {
        Ok(names) => Ok(names.with_image(rt.alloc(), image)),
        Err(fault) => Err(fault),
    }
}

/// Assembles a source.
#[tactic(auto, using(crate::proofs::Programs::of_source, crate::proofs::Programs::source_refused))]
fn source_program<H: Files + AllocGlobal>(
    rt: &H,
    words: &FileWords<'_>,
    map: &MapSpec,
) -> Result<Assembly, NamedFault>
    requires map { map.now ≡ map_of (file_view words.now) }
    requires is_map { is_map words.now.rom words.now.port ≡ true }
    requires form { words.now.form ≡ FileForm.Source }
    ensures program { IfOk result (IsProgram (file_view words.now) None) }
    ensures refused { IfErr result (EndsProgram (file_view words.now) None) }
{
    match assembled_file(rt, words.file, map) {
        Ok(assembly) => Ok(assembly),
        Err(fault) => Err(NamedFault::OfFile(fault)),
    }
}

/// Loads the file of the words on their map: assembles a source, or gives an image the names of a
/// file, if one is named.
///
/// # Errors
///
/// - `HasSource`: a file of names is named, and the file is a source.
/// - `OfFile`: the file cannot be read; a source looks like an image, or has faults; an image is
///   none in its form, or has bytes at the port; an allocation failed.
/// - `OfNames`: the file of names cannot be read, or has a fault; an allocation failed.
pub fn program_of<H: Files + AllocGlobal>(
    rt: &H,
    words: &FileWords<'_>,
    symbols: Option<&str>,
    map: &MapSpec,
) -> Result<Assembly, NamedFault>
    requires map { map.now ≡ map_of (file_view words.now) }
    requires is_map { is_map words.now.rom words.now.port ≡ true }
    ensures program { IfOk result (IsProgram (file_view words.now)
        (option_map (λ s. s.now) symbols.entry)) }
    ensures refused { IfErr result (EndsProgram (file_view words.now)
        (option_map (λ s. s.now) symbols.entry)) }
{
    if words.form == FileForm::Source {
        match symbols {
            None => source_program(rt, words, map),
            Some(_) => Err(NamedFault::HasSource),
        }
    } else {
        image_program(rt, words, symbols, map)
    }
}
