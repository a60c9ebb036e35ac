//! Whether two names are one file.

ghost use Rattle.std.specs.Prelude.{◌≡◌, IfErr, IfOk, false};
ghost use Rattle.std.specs.Str.{bytes_eq};

use crate::refusal::Refusal;
use std::alloc::{AllocError, Global};
use std::fs::Metadata;
use std::io::ErrorKind;
use std::os::unix::fs::MetadataExt;
use std::path::{Path, PathBuf};
use std::rt::Files;
use std::{fs, io};

/// Returns whether two files that are there are one.
fn are_one(first: &Metadata, second: &Metadata) -> bool {
    first.dev() == second.dev() && first.ino() == second.ino()
}

/// Returns whether the system has one file under both names. Only what keeps its bytes counts, so
/// no terminal and no pipe.
fn is_kept_once<H: Files>(rt: &H, first: &str, second: &str) -> bool {
    match (fs::metadata(rt, first), fs::metadata(rt, second)) {
        (Ok(first), Ok(second)) => first.is_file() && are_one(&first, &second),
        _ => false,
    }
}

/// Returns whether two names are one file: they are equal, or the system has one file under both.
///
/// A word that writes a file asks this of each file that it read. Source: mos65.
pub fn is_one_file<H: Files>(rt: &H, first: &str, second: &str) -> bool
    // Which other names are one file, no clause can say.
    ensures { result ≡ false → bytes_eq first.now second.now ≡ false }
{
    first == second || is_kept_once(rt, first, second)
}

/// Returns the folder of a path.
fn folder_of(path: &str) -> &str {
    match Path::new(path).parent() {
        Some(folder) if !folder.as_str().is_empty() => folder.as_str(),
        _ => ".",
    }
}

/// Returns the path that a link names, which begins at the folder of the link.
fn linked(alloc: Global, path: &str, target: &PathBuf) -> Result<PathBuf, AllocError> {
    Path::new(folder_of(path)).join(alloc, target.as_str())
}

/// How many links are followed at most, as Linux does it. Source: path_resolution(7).
const MOST_LINKS: u8 = 40;

/// Returns the path that is reached from a path by links: itself, if it is none. Of links that name
/// each other it is one of them.
fn followed<H: Files + AllocGlobal>(rt: &H, path: &str) -> io::Result<PathBuf> {
    let mut reached = PathBuf::from_str(rt.alloc(), path)?;
    for _ in 0..MOST_LINKS {
        match fs::read_link(rt, &reached) {
            Ok(target) => {
                let next = linked(rt.alloc(), reached.as_str(), &target)?;
                reached = next;
            }
            Err(error) => match error.kind() {
                ErrorKind::OutOfMemory => return Err(error),
                _ => return Ok(reached),
            },
        }
    }
    Ok(reached)
}

/// Returns whether two paths have one last part, in one folder.
fn is_one_place<H: Files>(rt: &H, first: &str, second: &str) -> bool {
    if Path::new(first).file_name() != Path::new(second).file_name() {
        return false;
    }
    match (
        fs::metadata(rt, folder_of(first)),
        fs::metadata(rt, folder_of(second)),
    ) {
        (Ok(first), Ok(second)) => are_one(&first, &second),
        _ => false,
    }
}

/// Returns whether two names would be one file, where no file is there under one of them.
fn is_made_once<H: Files + AllocGlobal>(rt: &H, first: &str, second: &str) -> io::Result<bool> {
    if fs::metadata(rt, first).is_ok() || fs::metadata(rt, second).is_ok() {
        return Ok(false);
    }
    let first = followed(rt, first)?;
    let second = followed(rt, second)?;
    Ok(is_one_place(rt, first.as_str(), second.as_str()))
}

/// Returns whether two names are one file, or would be one if they were written.
///
/// Errors: `OutOfMemory` if an allocation fails.
pub fn is_one_output<H: Files + AllocGlobal>(
    rt: &H,
    first: &str,
    second: &str,
) -> Result<bool, Refusal>
    // Which other names are one file, no clause can say.
    ensures apart { IfOk result (λ is_one. is_one ≡ false
        → bytes_eq first.now second.now ≡ false) }
    ensures memory { IfErr result (λ refusal. refusal ≡ Refusal.OutOfMemory) }
{
    if is_one_file(rt, first, second) {
        return Ok(true);
    }
    match is_made_once(rt, first, second) {
        Ok(is_one) => Ok(is_one),
        Err(_) => Err(Refusal::OutOfMemory),
    }
}
