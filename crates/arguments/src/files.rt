//! Files that are read and written.

ghost use Rattle.std.specs.Prelude.{IfErr};
ghost use Rattle.arguments.specs.Files.{EndsReading, EndsWriting};

use crate::new_file::{begin_file, check_path};
use crate::refusal::Refusal;
use std::fs::File;
use std::io;
use std::io::{Read, Write};
use std::rt::Files;

/// One byte more than the longest source, so that a longer file is rejected for its size without
/// being read to its end.
const MOST_OF_SOURCE: u64 = 1_048_577;

/// The file that the system has for the standard input.
const STANDARD_INPUT: &str = "/dev/stdin";

/// Reads the first bytes of a file.
fn first_bytes<H: Files + AllocGlobal>(rt: &H, path: &str, most: u64) -> io::Result<Vec<u8>> {
    let mut bytes = Vec::new(rt.alloc());
    File::open(rt, path)?.take(most).read_to_end(&mut bytes)?;
    Ok(bytes)
}

/// Returns the bytes of a file, or the first of them if it has more than `most`.
///
/// Errors: `OutOfMemory` if an allocation fails, `Read` if the file cannot be read.
pub fn read_most<H: Files + AllocGlobal>(rt: &H, path: &str, most: u64) -> Result<Vec<u8>, Refusal>
    ensures { IfErr result EndsReading }
{
    first_bytes(rt, path, most).map_err(|error| Refusal::unreadable(&error))
}

/// Returns the bytes of a source's file, or the first of them if it is too long for a source.
///
/// Errors: `OutOfMemory` if an allocation fails, `Read` if the file cannot be read.
pub fn read_source<H: Files + AllocGlobal>(rt: &H, path: &str) -> Result<Vec<u8>, Refusal>
    ensures { IfErr result EndsReading }
{
    read_most(rt, path, MOST_OF_SOURCE)
}

/// Returns the path of a file that a word names: `-` is the standard input.
fn path_of(file: &str) -> &str {
    if file == "-" { STANDARD_INPUT } else { file }
}

/// Returns the bytes of a file as `read_most` does; those of the standard input if the name is `-`.
///
/// The standard input is opened anew by the name that the system has for it: of a pipe or a
/// terminal all bytes are then read, and of a file that stands for it those from its beginning on.
///
/// Errors: `OutOfMemory` if an allocation fails, `Read` if the file cannot be read.
pub fn read_given<H: Files + AllocGlobal>(rt: &H, file: &str, most: u64) -> Result<Vec<u8>, Refusal>
    ensures { IfErr result EndsReading }
{
    read_most(rt, path_of(file), most)
}

/// Returns the bytes of a source's file as `read_source` does; those of the standard input if the
/// name is `-`.
///
/// Errors: `OutOfMemory` if an allocation fails, `Read` if the file cannot be read.
pub fn read_given_source<H: Files + AllocGlobal>(rt: &H, file: &str) -> Result<Vec<u8>, Refusal>
    ensures { IfErr result EndsReading }
{
    read_given(rt, file, MOST_OF_SOURCE)
}

/// Writes a text to a file of that name. A file that is there is replaced, and only by the whole
/// text, unless it is written in place (`NewFile`).
///
/// Errors: `OutOfMemory` if an allocation fails, `WriteFile` if the file cannot be written. A file
/// of one name is then as it was.
pub fn write_file<H: Files + AllocGlobal>(rt: &H, path: &str, text: &[u8]) -> Result<(), Refusal>
    ensures { IfErr result EndsWriting }
{
    let mut file = begin_file(rt, path)?;
    match file.write_all(text) {
        Ok(()) => file.end(rt),
        Err(_) => Err(file.abandon(rt)),
    }
}

/// Checks that a file of that name can be written, and leaves the file that is there as it was.
///
/// Errors: `OutOfMemory` if an allocation fails, `WriteFile` if the file cannot be written.
pub fn check_output<H: Files + AllocGlobal>(rt: &H, path: &str) -> Result<(), Refusal>
    ensures { IfErr result EndsWriting }
{
    check_path(rt, path).map_err(|error| Refusal::unwritable_file(&error))
}
