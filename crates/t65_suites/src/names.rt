//! Files by their names.

ghost use Rattle.std.specs.Prelude.{◌≡◌, ◌≤◌, ◌⊎◌, ◌++◌, IfErr, IfOk, length, string_bytes};
ghost use Rattle.std.specs.Prelude.{vec_len};
ghost use Rattle.std.specs.Str.{IsUtf8};
ghost use Rattle.t65_suites.specs.Ends.{EndsAnyTest};
ghost use Rattle.t65_suites.specs.Paths.{folder_for, source_path};
ghost use Rattle.t65_suites.specs.Suites.{suite_view};
ghost use Rattle.t65_suites.specs.Prepared.{path_of};

use crate::fault::TestFault;
use crate::suites::Suite;
use arguments::{ReadFault, Refusal, read_most};
use clean_source::unmarked;
use debug_files::{begins_at_root, folder_of};
use std::alloc::{AllocError, Global};
use std::rt::Files;

/// The most bytes of a file of rows. Source: mos65.
const LARGEST: u64 = 1_048_576;

/// Returns a text without the byte-order marks at its start.
///
/// Errors: `OutOfMemory` if an allocation fails.
fn without_mark(alloc: Global, text: &[u8]) -> Result<Vec<u8>, TestFault>
    ensures shorter { IfOk result (λ rest. vec_len rest ≤ length text.now) }
    ensures refused { IfErr result EndsAnyTest }
{
    match Vec::from_slice(alloc, unmarked(text)) {
        Ok(rest) => Ok(rest),
        Err(_) => Err(TestFault::Refused(Refusal::OutOfMemory)),
    }
}

/// Returns the bytes of a file of rows, without a byte-order mark at its start.
///
/// Errors: `TooLarge` if it has more than 1,048,576; `Read` if it cannot be read; `OutOfMemory` if
/// an allocation fails.
pub fn read_rows_text<H: Files + AllocGlobal>(rt: &H, path: &str) -> Result<Vec<u8>, TestFault>
    ensures small { IfOk result (λ text. vec_len text ≤ 1048576) }
    ensures refused { IfErr result EndsAnyTest }
{
    let text = read_most(rt, path, LARGEST + 1)?;
    if text.len() > LARGEST as usize {
        return Err(TestFault::TooLarge);
    }
    without_mark(rt.alloc(), &text)
}

/// Returns the folder in which a name is looked for, with the `/`: that of the file of rows, unless
/// the name begins with `/`.
fn folder_for<'a>(file: &'a [u8], name: &[u8]) -> &'a [u8]
    ensures { result.now ≡ folder_for file.now name.now }
{
    if begins_at_root(name) {
        return &file[..0];
    }
    folder_of(file)
}

/// Returns two texts, one after the other.
fn joined(alloc: Global, front: &[u8], back: &[u8]) -> Result<Vec<u8>, AllocError>
    ensures { IfOk result (λ text. text.items ≡ front.now ++ back.now) }
{
    let mut text = Vec::new(alloc);
    text.extend_from_slice(front)?;
    text.extend_from_slice(back)?;
    Ok(text)
}

/// Returns the path of a file that a file of rows names: from the folder of that file, if it does
/// not begin with `/`.
///
/// Errors: `Read` if the name is no text of UTF-8; `OutOfMemory`.
fn source_path(alloc: Global, file: &str, name: &[u8]) -> Result<String, TestFault>
    ensures path { IfOk result (λ path. string_bytes path ≡ source_path file.now name.now) }
    ensures fault { IfErr result (λ fault. (fault ≡ TestFault.Refused Refusal.OutOfMemory)
        ⊎ ((fault ≡ TestFault.Refused (Refusal.Read ReadFault.Other))
        × ¬ IsUtf8 (source_path file.now name.now))) }
    ensures refused { IfErr result EndsAnyTest }
{
    let folder = folder_for(file.as_bytes(), name);
    match joined(alloc, folder, name) {
        Ok(path) => String::from_utf8(path).map_err(|_| TestFault::Refused(Refusal::Read(
            ReadFault::Other,
        ))),
        Err(_) => Err(TestFault::Refused(Refusal::OutOfMemory)),
    }
}

/// Returns the path of the file that a suite's rows are run on: the one that the words name, or
/// that the file of rows does by this name.
///
/// Errors: those of `source_path`.
pub fn path_of(alloc: Global, suite: Suite<'_>, name: &[u8]) -> Result<String, TestFault>
    ensures path { IfOk result
        (λ path. string_bytes path ≡ path_of (suite_view suite.entry) name.now) }
    ensures refused { IfErr result EndsAnyTest }
{
    match suite.source {
        None => source_path(alloc, suite.rows, name),
        Some(source) => copied(alloc, source),
    }
}

/// Returns a text that is there already, as one of its own.
///
/// Errors: `AllocError` if an allocation fails.
pub fn text_of(alloc: Global, text: &str) -> Result<String, AllocError>
    ensures { IfOk result (λ copy. string_bytes copy ≡ text.now) }
{
    let mut copy = String::new(alloc);
    copy.push_str(text)?;
    Ok(copy)
}

/// Returns a text that is there already, as one of its own.
///
/// Errors: `OutOfMemory` if an allocation fails.
pub fn copied(alloc: Global, text: &str) -> Result<String, TestFault>
    ensures copied { IfOk result (λ copy. string_bytes copy ≡ text.now) }
    ensures refused { IfErr result (λ fault. fault ≡ TestFault.Refused Refusal.OutOfMemory) }
{
    match text_of(alloc, text) {
        Ok(copy) => Ok(copy),
        Err(_) => Err(TestFault::Refused(Refusal::OutOfMemory)),
    }
}
