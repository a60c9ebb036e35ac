//! The words of `debug` with `--strict`.

ghost use Rattle.std.specs.Prelude.{◌≡◌, IfOk};
ghost use Rattle.arguments.specs.Words.{texts};
ghost use Rattle.word_debug.specs.Strict.{is_strict, plain_words};

use std::alloc::{AllocError, Global};

/// Returns whether `--strict` is among the words after `debug`, before a word `--`.
pub fn is_strict(words: &[&str]) -> bool
    ensures { result ≡ is_strict (texts words.entry.now) }
{
    for word in words {
        if *word == "--" {
            return false;
        }
        if *word == "--strict" {
            return true;
        }
    }
    false
}

/// Returns `debug` and the words after it, but for `--strict` before a word `--`.
pub fn plain_words<'a>(alloc: Global, words: &[&'a str]) -> Result<Vec<&'a str>, AllocError>
    ensures { IfOk result (λ plain. texts plain.items ≡ plain_words (texts words.entry.now)) }
{
    let mut plain = Vec::new(alloc);
    plain.push("debug")?;
    let mut are_options = true;
    for word in words {
        if *word == "--" {
            are_options = false;
        }
        if !are_options || *word != "--strict" {
            plain.push(*word)?;
        }
    }
    Ok(plain)
}
