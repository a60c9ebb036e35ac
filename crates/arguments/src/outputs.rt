//! What holds of files before one is opened to be written.

ghost use Rattle.std.specs.List.{list_any};
ghost use Rattle.std.specs.Prelude.{◌≡◌, IfErr, IfOk, false, map};
ghost use Rattle.arguments.specs.Files.{EndsWriting};
ghost use Rattle.arguments.specs.Outputs.{clash, is_among, is_named, may_replace, named};
ghost use Rattle.arguments.specs.declared.write_fault.WriteFault.TheVariants.{LooksLikeTape};
ghost use Rattle.papertape.specs.Hint.{BeginsTape};

use crate::file_refusal::FileRefusal;
use crate::files::{read_most, write_file};
use crate::new_file::{NewFile, begin_file};
use crate::refusal::Refusal;
use crate::same_file::is_one_output;
use crate::write_fault::WriteFault;
use papertape::looks_like_tape;
use std::fs;
use std::rt::Files;

/// Returns whether a name is one file with a name among others.
///
/// Errors: `OutOfMemory` if an allocation fails.
fn is_one_among<H: Files + AllocGlobal>(
    rt: &H,
    name: &str,
    others: &[Option<&str>],
) -> Result<bool, Refusal>
    ensures apart { IfOk result (λ is_one. is_one ≡ false
        → list_any (is_named name.now) (map named others.now) ≡ false) }
    ensures memory { IfErr result (λ refusal. refusal ≡ Refusal.OutOfMemory) }
{
    for other in others {
        if let Some(other) = other {
            if is_one_output(rt, other, name)? {
                return Ok(true);
            }
        }
    }
    Ok(false)
}

/// Checks that a file that is to be written is none of these.
///
/// Errors, with its name: `WriteFile` with `SameFile`, and `OutOfMemory` if an allocation fails.
fn check_output_among<'a, H: Files + AllocGlobal>(
    rt: &H,
    file: &'a str,
    others: &[Option<&str>],
) -> Result<(), FileRefusal<'a>>
    ensures apart { IfOk result
        (λ _. list_any (is_named file.now) (map named others.now) ≡ false) }
    ensures refused { IfErr result (λ why. EndsWriting why.refusal) }
{
    match is_one_among(rt, file, others) {
        Ok(false) => Ok(()),
        Ok(true) => Err(FileRefusal {
            file,
            refusal: Refusal::WriteFile(WriteFault::SameFile),
        }),
        Err(refusal) => Err(FileRefusal { file, refusal }),
    }
}

/// Checks that a file, where there is one, is neither one that is read nor one that is written
/// before it.
fn check_behind<'a, H: Files + AllocGlobal>(
    rt: &H,
    file: Option<&'a str>,
    read: &[Option<&'a str>],
    before: &[Option<&'a str>],
) -> Result<(), FileRefusal<'a>>
    ensures apart { IfOk result (λ _. (is_among (map named read.now) (named file.entry) ≡ false)
        × (is_among (map named before.now) (named file.entry) ≡ false)) }
    ensures refused { IfErr result (λ why. EndsWriting why.refusal) }
{
    match file {
        None => Ok(()),
        Some(name) => {
            check_output_among(rt, name, read)?;
            check_output_among(rt, name, before)?;
            Ok(())
        }
    }
}

/// Checks that no file that is to be written is one that is read, or another that is to be written.
/// Nothing is opened.
///
/// Errors, with the name of the first such file: `WriteFile` with `SameFile`, and `OutOfMemory` if
/// an allocation fails.
pub fn check_outputs<'a, H: Files + AllocGlobal>(
    rt: &H,
    read: &[Option<&'a str>],
    written: &[Option<&'a str>],
) -> Result<(), FileRefusal<'a>>
    ensures apart { IfOk result
        (λ _. clash (map named read.now) (map named written.now) ≡ false) }
    ensures refused { IfErr result (λ why. EndsWriting why.refusal) }
{
    for at in 0..written.len() {
        check_behind(rt, written[at], read, &written[..at])?;
    }
    Ok(())
}

/// Begins a file that is written bit by bit, unless it is one that is read.
///
/// Errors: `WriteFile` with `SameFile` if it is one of them, where nothing is opened; those of
/// `begin_file`.
pub fn create<'a, H: Files + AllocGlobal>(
    rt: &H,
    path: &'a str,
    read: &[Option<&'a str>],
) -> Result<NewFile<'a, H::File>, Refusal>
    ensures { IfErr result EndsWriting }
{
    check_outputs(rt, read, &[Some(path)])?;
    begin_file(rt, path)
}

/// Writes a text to a file of that name, as `write_file` does, unless it is a file that is read.
///
/// Errors: `WriteFile` with `SameFile` if it is one of them, where nothing is opened; those of
/// `write_file`.
pub fn write_output<H: Files + AllocGlobal>(
    rt: &H,
    path: &str,
    read: &[Option<&str>],
    text: &[u8],
) -> Result<(), Refusal>
    ensures { IfErr result EndsWriting }
{
    check_outputs(rt, read, &[Some(path)])?;
    write_file(rt, path, text)
}

/// Returns whether a file of that name is there and keeps its bytes.
fn is_kept<H: Files>(rt: &H, path: &str) -> bool {
    match fs::metadata(rt, path) {
        Ok(file) => file.is_file(),
        Err(_) => false,
    }
}

/// Returns the first of some files that is there and keeps its bytes, if there is one.
fn first_kept<'a, H: Files>(rt: &H, written: &[Option<&'a str>]) -> Option<&'a str> {
    for file in written {
        if let Some(file) = *file {
            if is_kept(rt, file) {
                return Some(file);
            }
        }
    }
    None
}

/// Checks that a source that looks like a tape would replace no file: as a source it would be
/// comments, and its own tape would have no byte.
///
/// Errors, with the name of the first file that is there: `WriteFile` with `LooksLikeTape`, and
/// `OutOfMemory` if an allocation fails.
pub fn check_source<'a, H: Files + AllocGlobal>(
    rt: &H,
    source: &[u8],
    written: &[Option<&'a str>],
) -> Result<(), FileRefusal<'a>>
    ensures refused { IfErr result (λ why. EndsWriting why.refusal) }
    ensures tape { IfErr result
        (λ why. why.refusal ≡ Refusal.WriteFile LooksLikeTape → BeginsTape source.now) }
{
    let Some(file) = first_kept(rt, written) else {
        return Ok(());
    };
    match looks_like_tape(rt.alloc(), source) {
        Ok(false) => Ok(()),
        Ok(true) => Err(FileRefusal {
            file,
            refusal: Refusal::WriteFile(WriteFault::LooksLikeTape),
        }),
        Err(_) => Err(FileRefusal {
            file,
            refusal: Refusal::OutOfMemory,
        }),
    }
}

/// Returns whether a file may be replaced that begins with these bytes.
fn may_replace(front: &[u8], bytes: &[u8]) -> bool
    ensures { result ≡ may_replace front.now bytes.now }
{
    bytes.is_empty() || bytes == front
}

/// Checks that a file of that name, if it is there and keeps its bytes, has none or begins as what
/// would replace it.
///
/// Errors: `WriteFile` with `OtherFile` if it begins otherwise or cannot be read, and `OutOfMemory`
/// if an allocation fails.
pub fn check_replaced<H: Files + AllocGlobal>(
    rt: &H,
    path: &str,
    front: &[u8],
) -> Result<(), Refusal>
    ensures { IfErr result EndsWriting }
{
    if !is_kept(rt, path) {
        return Ok(());
    }
    match read_most(rt, path, front.len() as u64) {
        Ok(bytes) => {
            if may_replace(front, &bytes) {
                Ok(())
            } else {
                Err(Refusal::WriteFile(WriteFault::OtherFile))
            }
        }
        Err(Refusal::OutOfMemory) => Err(Refusal::OutOfMemory),
        Err(_) => Err(Refusal::WriteFile(WriteFault::OtherFile)),
    }
}
