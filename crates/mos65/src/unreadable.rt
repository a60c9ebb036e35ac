//! The word of the process that is not UTF-8, as it is told.
//!
//! No clause can say what the system hands over, so tests show it.

use arguments::push_shown;
use std::alloc::{AllocError, Global};
use std::env::FillError;
use std::rt::Env;

/// How many bytes a word has at most that is looked at. Source: PATH_MAX of Linux.
const MOST_OF_WORD: usize = 4096;

/// Returns what a word is called by its number: 0 is that of the program's own name.
fn name_of(alloc: Global, number: usize) -> Result<String, AllocError> {
    match number {
        0 => String::from_str(alloc, "the program's own name"),
        _ => format!(in alloc; "word {number}"),
    }
}

/// Returns the line that says that a word is not UTF-8.
fn line_of(alloc: Global, number: usize, word: &[u8]) -> Result<Vec<u8>, AllocError> {
    let mut line = Vec::new(alloc);
    let name = name_of(alloc, number)?;
    line.extend_from_slice(b"mos65: ")?;
    line.extend_from_slice(name.as_bytes())?;
    line.extend_from_slice(b" is not UTF-8, as each word has to be: ")?;
    push_shown(&mut line, word)?;
    line.push(b'\n')?;
    Ok(line)
}

/// Returns the line that names the first word of the process that is not UTF-8, or `None` if each
/// is, of those that have no more bytes than a path.
///
/// Errors: `AllocError` if an allocation fails.
pub fn unreadable_line<H: Env + AllocGlobal>(rt: &H) -> Result<Option<Vec<u8>>, AllocError> {
    let mut room = [0u8; MOST_OF_WORD];
    for number in 0..usize::MAX {
        match rt.arg(number, &mut room) {
            Ok(count) => {
                let word = &room[..count];
                if str::from_utf8(word).is_err() {
                    return Ok(Some(line_of(rt.alloc(), number, word)?));
                }
            }
            Err(FillError::TooLong) => {}
            Err(FillError::NotPresent) => return Ok(None),
        }
    }
    Ok(None)
}
