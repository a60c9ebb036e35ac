//! The words of a program by its debug file.

ghost use Rattle.std.specs.Prelude.{◌≡◌, IfOk, map, string_bytes};
ghost use Rattle.arguments.specs.Words.{texts};
ghost use Rattle.debug_images.specs.Words.{IsWithParts, IsWords, with_parts};
ghost use Rattle.debug_images.specs.Parts.{part_view};

use crate::fault::ImageFault;
use crate::parts::{Part, end_of, first_unplaced, parts_of};
use crate::words::{part_words, path_of, push_words, shown};
use arguments::{LoadFault, read_most};
use debug_files::load_fault;
use debug_records::{Segment, read_debug_info};
use std::alloc::{AllocError, Global};
use std::rt::Files;

/// One byte more than the longest debug file.
const MOST: u64 = 16_777_217;

/// Returns the files of a program and its debug file as words, and the other words behind them.
fn with_parts(
    alloc: Global,
    file: &str,
    parts: &[Part<'_>],
    rest: &[&str],
) -> Result<Vec<String>, ImageFault>
    ensures { IfOk result (λ words. map string_bytes words.items
        ≡ with_parts file.now (map part_view parts.now) (texts rest.entry.now)) }
{
    let mut words = part_words(alloc, file, parts)?;
    push_words(alloc, &mut words, &["--debug-info", file])?;
    push_words(alloc, &mut words, rest)?;
    Ok(words)
}

/// Returns whether a file has fewer bytes than its segments. One that cannot be read has not.
fn is_short<H: Files + AllocGlobal>(
    rt: &H,
    file: &str,
    name: &[u8],
    end: u64,
) -> Result<bool, AllocError> {
    let path = path_of(rt.alloc(), file, name)?;
    let Ok(path) = String::from_utf8(path) else {
        return Ok(false);
    };
    match read_most(rt, path.as_str(), end) {
        Ok(bytes) => Ok((bytes.len() as u64) < end),
        Err(_) => Ok(false),
    }
}

/// Returns the first file that has fewer bytes than its segments.
fn first_short<'a, H: Files + AllocGlobal>(
    rt: &H,
    file: &str,
    parts: &[Part<'a>],
    segments: &[Option<Segment<'_>>],
) -> Result<Option<&'a [u8]>, AllocError> {
    for part in parts {
        if is_short(rt, file, part.file, end_of(part.file, segments))? {
            return Ok(Some(part.file));
        }
    }
    Ok(None)
}

/// Returns words with the files of a program, by the text of its debug file.
fn words_by<H: Files + AllocGlobal>(
    rt: &H,
    file: &str,
    text: &[u8],
    rest: &[&str],
) -> Result<Vec<String>, ImageFault>
    ensures { IfOk result (λ words. IsWords file.now text.now (texts rest.entry.now)
        (map string_bytes words.items)) }
{
    let info = match read_debug_info(rt.alloc(), text) {
        Ok(info) => info,
        Err(error) => return Err(ImageFault::Unread(load_fault(error))),
    };
    let segments = info.segments.as_slice();
    let parts = parts_of(rt.alloc(), segments)?;
    if parts.is_empty() {
        return Err(ImageFault::NoFile);
    }
    if let Some(name) = first_unplaced(parts.as_slice()) {
        return Err(ImageFault::NoPlace(shown(rt.alloc(), name)?));
    }
    if let Some(name) = first_short(rt, file, parts.as_slice(), segments)? {
        return Err(ImageFault::Short(shown(rt.alloc(), name)?));
    }
    with_parts(rt.alloc(), file, parts.as_slice(), rest)
}

/// Reads a debug file, and returns the files of its program as words, itself as debug information,
/// and the other words behind them, `rest`.
///
/// # Errors
///
/// `Unread` if the debug file is not read, or with the first fault of its text; `NoFile` if no
/// segment has bytes in a file; `NoPlace` with the first file whose segments do not agree on where
/// it stands; `Short` with the first file that has fewer bytes than its segments; `NoText` with the
/// first file whose path is no UTF-8; `OutOfMemory` if an allocation fails.
pub fn image_words<H: Files + AllocGlobal>(
    rt: &H,
    file: &str,
    rest: &[&str],
) -> Result<Vec<String>, ImageFault>
    ensures { IfOk result (λ made. IsWithParts file.now (texts rest.entry.now)
        (map string_bytes made.items)) }
{
    match read_most(rt, file, MOST) {
        Ok(text) => words_by(rt, file, text.as_slice(), rest),
        Err(refusal) => Err(ImageFault::Unread(LoadFault::Refused(refusal))),
    }
}
