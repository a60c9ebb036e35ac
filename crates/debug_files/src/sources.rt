//! The sources that a debug file names.

ghost use Rattle.std.specs.Prelude.{◌≡◌, ◌∷◌, ◌++◌, [], IfErr, IfOk, Ok, OnOk, length, map};
ghost use Rattle.std.specs.Prelude.{option_map};
ghost use Rattle.debug_files.specs.Changed.{IsFound, sought_view, text_by};
ghost use Rattle.debug_files.specs.Loads.{named, names_in};
ghost use Rattle.debug_records.specs.Views.{file_view};
ghost use Rattle.source_map.specs.Lines.{source_view};

use crate::changed::{Sought, SourceState, has_size, state_of};
use crate::paths::{slashed, source_path};
use arguments::{Refusal, read_most};
use debug_records::File;
use source_map::SourceFile;
use std::alloc::{AllocError, Global};
use std::rt::Files;

/// The most bytes of a source that is shown.
const LONGEST: u64 = 16_777_216;

/// Returns what an allocation gives as what a file does.
pub fn of_memory<T>(made: Result<T, AllocError>) -> Result<T, Refusal>
    ensures made { IfOk result (λ value. made ≡ Ok value) }
    ensures refused { IfErr result (λ fault. fault ≡ Refusal.OutOfMemory) }
{
    made.map_err(|_| Refusal::OutOfMemory)
}

/// Sources with their texts, and how they were found.
#[derive(Drop)]
pub struct Sources {
    pub files: Vec<SourceFile>,
    pub sought: Sought,
}

/// Returns the bytes of the name of a folder, if there is one.
pub fn root_bytes(root: Option<&str>) -> Option<&[u8]>
    ensures { option_map (λ r. r.now) result ≡ option_map (λ r. r.now) root.entry }
{
    match root {
        Some(root) => Some(root.as_bytes()),
        None => None,
    }
}

/// Returns the bytes of a source, or none if it cannot be read.
///
/// Errors: `OutOfMemory` if an allocation fails.
fn bytes_of<H: Files + AllocGlobal>(
    rt: &H,
    file: &str,
    root: Option<&str>,
    name: &[u8],
) -> Result<Option<Vec<u8>>, Refusal>
    ensures { IfErr result (λ fault. fault ≡ Refusal.OutOfMemory) }
{
    let path = of_memory(source_path(rt.alloc(), file.as_bytes(), root_bytes(root), name))?;
    let Ok(path) = String::from_utf8(path) else {
        return Ok(None);
    };
    match read_most(rt, path.as_str(), LONGEST) {
        Ok(text) => Ok(Some(text)),
        Err(Refusal::OutOfMemory) => Err(Refusal::OutOfMemory),
        Err(_) => Ok(None),
    }
}

/// Returns how many bytes there are, if there are some at all.
fn count_of(text: &Option<Vec<u8>>) -> Option<usize>
    ensures { result ≡ option_map length (option_map (λ t. t.items) text.now) }
{
    match text {
        Some(text) => Some(text.len()),
        None => None,
    }
}

/// Returns how a source is found that a debug file names, with the size of which it tells.
///
/// # Errors
///
/// `OutOfMemory` if an allocation fails.
pub fn source_state<H: Files + AllocGlobal>(
    rt: &H,
    file: &str,
    root: Option<&str>,
    name: &[u8],
    size: Option<u32>,
) -> Result<SourceState, Refusal>
    ensures { IfErr result (λ fault. fault ≡ Refusal.OutOfMemory) }
{
    let text = bytes_of(rt, file, root, name)?;
    Ok(state_of(count_of(&text), size))
}

/// Returns the text that is shown of a source, by what was read of it: none if it has changed.
fn shown_text(alloc: Global, read: Option<Vec<u8>>, size: Option<u32>) -> Vec<u8>
    ensures { result.items ≡ text_by (option_map (λ t. t.items) read) size }
{
    match read {
        Some(text) => {
            if has_size(text.len(), size) {
                text
            } else {
                Vec::new(alloc)
            }
        }
        None => Vec::new(alloc),
    }
}

/// Returns the text of a source, and notes how it was found: none if it cannot be read, or has
/// changed.
///
/// Errors: `OutOfMemory` if an allocation fails.
fn text_of<H: Files + AllocGlobal>(
    rt: &H,
    file: &str,
    root: Option<&str>,
    source: File<'_>,
    sought: &mut Sought,
) -> Result<Vec<u8>, Refusal>
    // What can be read, no clause can say.
    ensures found { IfOk result (λ text. IsFound source.entry.name.now source.entry.size
        (sought_view sought.old) (sought_view sought.new) text.items) }
    ensures refused { IfErr result (λ fault. fault ≡ Refusal.OutOfMemory) }
{
    let read = bytes_of(rt, file, root, source.name)?;
    let state = state_of(count_of(&read), source.size);
    of_memory(sought.note(source.name, state))?;
    Ok(shown_text(rt.alloc(), read, source.size))
}

/// Returns a source with its text, by its name with `/` for `\`: no name and no text if there is no
/// file of the number.
///
/// Errors: `OutOfMemory` if an allocation fails.
fn source_of<H: Files + AllocGlobal>(
    rt: &H,
    file: &str,
    root: Option<&str>,
    source: Option<File<'_>>,
    sought: &mut Sought,
) -> Result<SourceFile, Refusal>
    ensures named { IfOk result
        (λ made. (source_view made).name ≡ named (option_map file_view source.entry)) }
    ensures refused { IfErr result (λ fault. fault ≡ Refusal.OutOfMemory) }
{
    match source {
        None => of_memory(SourceFile::of_text(rt.alloc(), b"", b"")),
        Some(source) => {
            let name = of_memory(slashed(rt.alloc(), source.name))?;
            let named = File {
                name: name.as_slice(),
                size: source.size,
            };
            let text = text_of(rt, file, root, named, sought)?;
            of_memory(SourceFile::of_text(rt.alloc(), name.as_slice(), text.as_slice()))
        }
    }
}

/// Returns the sources that a debug file names, by their numbers, each with its text, as far as it
/// can be read and has the size of which the file tells.
///
/// Errors: `OutOfMemory` if an allocation fails.
pub fn sources_of<H: Files + AllocGlobal>(
    rt: &H,
    file: &str,
    root: Option<&str>,
    files: &[Option<File<'_>>],
) -> Result<Sources, Refusal>
    ensures named { IfOk result (λ sources. names_in (map source_view sources.files.items)
        ≡ map named (map (option_map file_view) files.now)) }
    ensures refused { IfErr result (λ fault. fault ≡ Refusal.OutOfMemory) }
{
    let mut sources = Vec::new(rt.alloc());
    let mut sought = Sought::new(rt.alloc());
    for source in files {
        let made = source_of(rt, file, root, *source, &mut sought)?;
        of_memory(pushed(&mut sources, made))?;
    }
    Ok(Sources {
        files: sources,
        sought,
    })
}

/// Appends a source.
fn pushed(sources: &mut Vec<SourceFile>, source: SourceFile) -> Result<(), AllocError>
    ensures { OnOk result (sources.new.items ≡ sources.old.items ++ source ∷ []) }
{
    sources.push(source)?;
    Ok(())
}
