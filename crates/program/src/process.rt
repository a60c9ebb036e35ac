//! The words that the process was started with.

ghost use Rattle.std.specs.Prelude.{◌≡◌, IfOk, map, string_bytes};
ghost use Rattle.arguments.specs.Words.{texts};

use std::alloc::{AllocError, Global};
use std::rt::Env;
use std::{env, io};

/// Returns the words of the process, its own name left out.
///
/// No clause can say what the system hands over, so tests show it.
///
/// # Errors
///
/// `OutOfMemory` if an allocation fails, `InvalidData` if a word is no UTF-8.
pub fn process_words<H: Env + AllocGlobal>(rt: &H) -> io::Result<Vec<String>> {
    let mut words = Vec::new(rt.alloc());
    for word in env::args(rt)?.skip(1) {
        words.push(word)?;
    }
    Ok(words)
}

/// Returns words as slices of their texts.
///
/// The only error is that an allocation failed.
pub fn words_of<'a>(alloc: Global, words: &'a [String]) -> Result<Vec<&'a str>, AllocError>
    ensures { IfOk result (λ all. texts all.items ≡ map string_bytes words.entry.now) }
{
    let mut all = Vec::new(alloc);
    for word in words {
        all.push(word.as_str())?;
    }
    Ok(all)
}
