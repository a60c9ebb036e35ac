//! Words with the files of a program.

ghost use Rattle.std.specs.Prelude.{◌≡◌, ◌∷◌, ◌++◌, [], IfOk, OnOk, map, string_bytes};
ghost use Rattle.arguments.specs.Shown.{shown_bytes};
ghost use Rattle.arguments.specs.Words.{texts};
ghost use Rattle.debug_images.specs.Parts.{part_view};
ghost use Rattle.debug_images.specs.Words.{name_in, names_program, part_word, part_word_if};
ghost use Rattle.debug_images.specs.Words.{part_words, path_of};

use crate::fault::ImageFault;
use crate::parts::{Part, address_of};
use arguments::push_shown;
use debug_files::folder_of;
use formatting::push_address;
use std::alloc::{AllocError, Global};

/// Returns whether the name of a file is that of a debug file.
pub fn names_program(word: &str) -> bool
    ensures { result ≡ names_program word.now }
{
    word.as_bytes().ends_with(b".dbg")
}

/// Returns the name of a file as it is shown.
pub fn shown(alloc: Global, name: &[u8]) -> Result<Vec<u8>, AllocError>
    ensures { IfOk result (λ text. text.items ≡ shown_bytes name.now) }
{
    let mut text = Vec::new(alloc);
    push_shown(&mut text, name)?;
    Ok(text)
}

/// Returns the name of a file without its folder.
fn name_in(path: &[u8]) -> &[u8]
    ensures { result.now ≡ name_in path.now }
{
    &path[folder_of(path).len()..]
}

/// Returns the path of a file beside the debug file.
pub fn path_of(alloc: Global, file: &str, name: &[u8]) -> Result<Vec<u8>, AllocError>
    ensures { IfOk result (λ path. path.items ≡ path_of file.now name.now) }
{
    let mut path = Vec::new(alloc);
    path.extend_from_slice(folder_of(file.as_bytes()))?;
    path.extend_from_slice(name_in(name))?;
    Ok(path)
}

/// Returns a file beside the debug file, with the address of its first byte.
fn part_word(alloc: Global, file: &str, name: &[u8], base: u16) -> Result<Vec<u8>, AllocError>
    ensures { IfOk result (λ word. word.items ≡ part_word file.now name.now base) }
{
    let mut word = path_of(alloc, file, name)?;
    word.push(b'@')?;
    push_address(&mut word, base)?;
    Ok(word)
}

/// Appends a path with the address of the first byte, unless it is no UTF-8: the name is then told.
fn push_path(
    alloc: Global,
    words: &mut Vec<String>,
    path: Vec<u8>,
    name: &[u8],
) -> Result<(), ImageFault>
    ensures { OnOk result (map string_bytes words.new.items
        ≡ map string_bytes words.old.items ++ path.items ∷ []) }
{
    let Ok(word) = String::from_utf8(path) else {
        return Err(ImageFault::NoText(shown(alloc, name)?));
    };
    words.push(word)?;
    Ok(())
}

/// Appends a word.
fn push_text(alloc: Global, words: &mut Vec<String>, text: &str) -> Result<(), AllocError>
    ensures { OnOk result (map string_bytes words.new.items
        ≡ map string_bytes words.old.items ++ text.now ∷ []) }
{
    words.push(String::from_str(alloc, text)?)?;
    Ok(())
}

/// Appends the word of a file, if it is known where it stands.
fn push_part(
    alloc: Global,
    words: &mut Vec<String>,
    file: &str,
    name: &[u8],
    base: Option<u16>,
) -> Result<(), ImageFault>
    ensures { OnOk result (map string_bytes words.new.items
        ≡ map string_bytes words.old.items ++ part_word_if file.now name.now base) }
{
    match base {
        None => Ok(()),
        Some(base) => {
            let word = part_word(alloc, file, name, base)?;
            push_path(alloc, words, word, name)
        }
    }
}

/// Returns the words of files. The only errors are that an allocation failed, or that a path is no
/// UTF-8.
pub fn part_words(alloc: Global, file: &str, parts: &[Part<'_>]) -> Result<Vec<String>, ImageFault>
    ensures { IfOk result (λ words. map string_bytes words.items
        ≡ part_words file.now (map part_view parts.now)) }
{
    let mut words = Vec::new(alloc);
    for part in parts {
        push_part(alloc, &mut words, file, part.file, address_of(part.base))?;
    }
    Ok(words)
}

/// Appends words.
pub fn push_words(alloc: Global, words: &mut Vec<String>, more: &[&str]) -> Result<(), AllocError>
    ensures { OnOk result (map string_bytes words.new.items
        ≡ map string_bytes words.old.items ++ texts more.entry.now) }
{
    for word in more {
        push_text(alloc, words, word)?;
    }
    Ok(())
}
