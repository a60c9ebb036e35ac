//! A file that is to be written is none of the sources that debug information names.

ghost use Rattle.std.specs.List.{list_any};
ghost use Rattle.std.specs.Prelude.{◌≡◌, ◌<◌, IfErr, IfOk, IfSome, None, false, length, map};
ghost use Rattle.std.specs.Prelude.{option_map, true};
ghost use Rattle.std.specs.Str.{bytes_eq};
ghost use Rattle.arguments.specs.Files.{EndsWriting};
ghost use Rattle.debug_files.specs.Written.{IsPathOf, Names, NamesPath, Spares, SparesPath};
ghost use Rattle.debug_files.specs.Written.{has_source, is_among, is_source, lies_at, names_at};
ghost use Rattle.debug_files.specs.Written.{replaces_source};
ghost use Rattle.debug_records.specs.Views.{file_view};
ghost use Rattle.source_map.specs.Lines.{source_view};

use crate::forms::read_info;
use crate::paths::source_path;
use crate::places::MOST;
use crate::sources::{of_memory, root_bytes};
use arguments::{Refusal, WriteFault, is_one_output, read_most};
use debug_records::{DebugError, File};
use source_map::{Places, SourceFile};
use std::rt::Files;

/// Returns whether a file has a path, or another name of the file of that path.
///
/// Errors: `OutOfMemory` if an allocation fails.
fn is_at<H: Files + AllocGlobal>(rt: &H, path: &[u8], out: &str) -> Result<bool, Refusal>
    // Which other names are one file, no clause can say.
    ensures apart { IfOk result (λ is. is ≡ false → bytes_eq path.now out.now ≡ false) }
    ensures memory { IfErr result (λ refusal. refusal ≡ Refusal.OutOfMemory) }
{
    if path == out.as_bytes() {
        return Ok(true);
    }
    match str::from_utf8(path) {
        Ok(path) => is_one_output(rt, path, out),
        Err(_) => Ok(false),
    }
}

/// Returns whether a file is a source that a debug file names.
///
/// Errors: `OutOfMemory` if an allocation fails.
fn is_of<H: Files + AllocGlobal>(
    rt: &H,
    file: &str,
    root: Option<&str>,
    source: &SourceFile,
    out: &str,
) -> Result<bool, Refusal>
    ensures apart { IfOk result (λ is. is ≡ false
        → lies_at file.now (option_map (λ r. r.now) root.entry) out.now (source_view source.now)
        ≡ false) }
    ensures memory { IfErr result (λ refusal. refusal ≡ Refusal.OutOfMemory) }
{
    let name = source.name.as_slice();
    let path = of_memory(source_path(rt.alloc(), file.as_bytes(), root_bytes(root), name))?;
    is_at(rt, path.as_slice(), out)
}

/// Returns whether a file is one of the sources that a debug file names.
///
/// Errors: `OutOfMemory` if an allocation fails.
fn is_among<H: Files + AllocGlobal>(
    rt: &H,
    file: &str,
    root: Option<&str>,
    sources: &[SourceFile],
    out: &str,
) -> Result<bool, Refusal>
    ensures apart { IfOk result (λ is. is ≡ false
        → is_among file.now (option_map (λ r. r.now) root.entry)
        (map source_view sources.now) out.now ≡ false) }
    ensures among { IfOk result (λ is. is ≡ true → 0 < length sources.now) }
    ensures memory { IfErr result (λ refusal. refusal ≡ Refusal.OutOfMemory) }
{
    for source in sources {
        if is_of(rt, file, root, source, out)? {
            return Ok(true);
        }
    }
    Ok(false)
}

/// Returns whether a file is, or would be, one of the sources that debug information names, if
/// there is some: a debug file, where relative names begin if not in its folder, and what stands
/// where by it.
///
/// # Errors
///
/// `OutOfMemory` if an allocation fails.
pub fn is_source<H: Files + AllocGlobal>(
    rt: &H,
    file: Option<&str>,
    root: Option<&str>,
    places: Option<&Places>,
    out: &str,
) -> Result<bool, Refusal>
    // No source has this path.
    ensures apart { IfOk result (λ is. is ≡ false → is_source (option_map (λ f. f.now) file.entry)
        (option_map (λ r. r.now) root.entry) (option_map (λ p. p.now) places.entry) out.now
        ≡ false) }
    // Without a source it is none.
    ensures among { IfOk result (λ is. is ≡ true → has_source (option_map (λ f. f.now) file.entry)
        (option_map (λ p. p.now) places.entry) ≡ true) }
    ensures memory { IfErr result (λ refusal. refusal ≡ Refusal.OutOfMemory) }
{
    match file {
        None => Ok(false),
        Some(file) => match places {
            None => Ok(false),
            Some(places) => is_among(rt, file, root, places.sources(), out),
        },
    }
}

/// Checks that a file that is to be written, if there is one, is none of the sources that debug
/// information names. Nothing is opened.
///
/// # Errors
///
/// `WriteFile` with `SameFile` if it is one of them; `OutOfMemory` if an allocation fails.
pub fn check_sources<H: Files + AllocGlobal>(
    rt: &H,
    file: Option<&str>,
    root: Option<&str>,
    places: Option<&Places>,
    out: Option<&str>,
) -> Result<(), Refusal>
    ensures apart { IfOk result (λ _. replaces_source (option_map (λ f. f.now) file.entry)
        (option_map (λ r. r.now) root.entry) (option_map (λ p. p.now) places.entry)
        (option_map (λ o. o.now) out.entry) ≡ false) }
    ensures refused { IfErr result EndsWriting }
{
    let Some(out) = out else {
        return Ok(());
    };
    match is_source(rt, file, root, places, out) {
        Ok(false) => Ok(()),
        Ok(true) => Err(Refusal::WriteFile(WriteFault::SameFile)),
        Err(refusal) => Err(refusal),
    }
}

/// Returns the path of a source that a debug file names, if there is a source and a file is, or
/// would be, the one of that path.
///
/// Errors: `OutOfMemory` if an allocation fails.
fn path_replaced<H: Files + AllocGlobal>(
    rt: &H,
    file: &str,
    root: Option<&str>,
    source: Option<File<'_>>,
    out: &str,
) -> Result<Option<Vec<u8>>, Refusal>
    ensures spared { IfOk result (λ found. found ≡ None
        → names_at file.now (option_map (λ r. r.now) root.entry) out.now
        (option_map file_view source.entry) ≡ false) }
    ensures named { IfOk result (λ found. IfSome found
        (λ path. names_at file.now (option_map (λ r. r.now) root.entry) path.items
        (option_map file_view source.entry) ≡ true)) }
    ensures found { IfOk result (λ found. IfSome found
        (λ path. IsPathOf file.now (option_map (λ r. r.now) root.entry) path.items)) }
    ensures memory { IfErr result (λ refusal. refusal ≡ Refusal.OutOfMemory) }
{
    let Some(source) = source else {
        return Ok(None);
    };
    let name = source.name;
    let path = of_memory(source_path(rt.alloc(), file.as_bytes(), root_bytes(root), name))?;
    if is_at(rt, path.as_slice(), out)? {
        Ok(Some(path))
    } else {
        Ok(None)
    }
}

/// Returns the path of the first source that a debug file names and a file is, or would be.
///
/// Errors: `OutOfMemory` if an allocation fails.
fn first_replaced<H: Files + AllocGlobal>(
    rt: &H,
    file: &str,
    root: Option<&str>,
    files: &[Option<File<'_>>],
    out: &str,
) -> Result<Option<Vec<u8>>, Refusal>
    ensures spared { IfOk result (λ found. found ≡ None
        → list_any (names_at file.now (option_map (λ r. r.now) root.entry) out.now)
        (map (option_map file_view) files.now) ≡ false) }
    ensures named { IfOk result (λ found. IfSome found
        (λ path. list_any (names_at file.now (option_map (λ r. r.now) root.entry) path.items)
        (map (option_map file_view) files.now) ≡ true)) }
    ensures found { IfOk result (λ found. IfSome found
        (λ path. IsPathOf file.now (option_map (λ r. r.now) root.entry) path.items)) }
    ensures memory { IfErr result (λ refusal. refusal ≡ Refusal.OutOfMemory) }
{
    for source in files {
        match path_replaced(rt, file, root, *source, out)? {
            Some(path) => return Ok(Some(path)),
            None => {}
        }
    }
    Ok(None)
}

/// Returns the path of the first source that the text of a debug file names and a file is, or would
/// be; none if the text has a fault.
///
/// Errors: `OutOfMemory` if an allocation fails.
fn replaced_by_text<H: Files + AllocGlobal>(
    rt: &H,
    file: &str,
    root: Option<&str>,
    text: &[u8],
    out: &str,
) -> Result<Option<Vec<u8>>, Refusal>
    ensures spared { IfOk result (λ found. found ≡ None
        → Spares file.now (option_map (λ r. r.now) root.entry) out.now text.now) }
    ensures named { IfOk result (λ found. IfSome found
        (λ path. Names file.now (option_map (λ r. r.now) root.entry) path.items text.now)) }
    ensures found { IfOk result (λ found. IfSome found
        (λ path. IsPathOf file.now (option_map (λ r. r.now) root.entry) path.items)) }
    ensures memory { IfErr result (λ refusal. refusal ≡ Refusal.OutOfMemory) }
{
    match read_info(rt.alloc(), text) {
        Ok(info) => first_replaced(rt, file, root, info.files.as_slice(), out),
        Err(DebugError::OutOfMemory) => Err(Refusal::OutOfMemory),
        Err(DebugError::Fault(_)) => Ok(None),
    }
}

/// Reads a debug file, and returns the path of the first source that it names and a file is, or
/// would be; none if the debug file is not read.
///
/// # Errors
///
/// `OutOfMemory` if an allocation fails.
pub fn replaced_source<H: Files + AllocGlobal>(
    rt: &H,
    file: &str,
    root: Option<&str>,
    out: &str,
) -> Result<Option<Vec<u8>>, Refusal>
    // What is in the debug file, no clause can say.
    ensures spared { IfOk result (λ found. found ≡ None
        → SparesPath file.now (option_map (λ r. r.now) root.entry) out.now) }
    ensures named { IfOk result (λ found. IfSome found (λ path.
        NamesPath file.now (option_map (λ r. r.now) root.entry) path.items)) }
    ensures found { IfOk result (λ found. IfSome found
        (λ path. IsPathOf file.now (option_map (λ r. r.now) root.entry) path.items)) }
    ensures memory { IfErr result (λ refusal. refusal ≡ Refusal.OutOfMemory) }
{
    match read_most(rt, file, MOST) {
        Ok(text) => replaced_by_text(rt, file, root, text.as_slice(), out),
        Err(Refusal::OutOfMemory) => Err(Refusal::OutOfMemory),
        Err(_) => Ok(None),
    }
}
