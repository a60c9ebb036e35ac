//! The files of a program's source.

ghost use Rattle.std.specs.Prelude.{◌≡◌, IfOk, map, slice_get};
ghost use Rattle.std.specs.Option.{option_copied};
ghost use Rattle.model.specs.TextLines.{lines_of};
ghost use Rattle.source_map.specs.Lines.{file_name, items_of, source_view, text_of, texts_at};

use crate::texts::lines_of;
use std::alloc::{AllocError, Global};

/// A file of a program's source: its name, and the texts of its lines, each without its end.
#[derive(Drop)]
pub struct SourceFile {
    pub name: Vec<u8>,
    pub texts: Vec<Vec<u8>>,
}

impl SourceFile {
    /// Makes a file that has a name and a text.
    ///
    /// Errors: `AllocError` if an allocation fails.
    pub fn of_text(alloc: Global, name: &[u8], text: &[u8]) -> Result<SourceFile, AllocError>
        ensures { IfOk result (λ file. source_view file
            ≡ record { name = name.now; texts = lines_of text.now }) }
    {
        Ok(SourceFile {
            name: Vec::from_slice(alloc, name)?,
            texts: lines_of(alloc, text)?,
        })
    }
}

/// Returns the name of the file of a number: no byte if there is none.
pub fn file_name(sources: &[SourceFile], file: u32) -> &[u8]
    ensures { result.now ≡ file_name (map source_view sources.now) file }
{
    match sources.get(file as usize) {
        Some(source) => source.name.as_slice(),
        None => &[],
    }
}

/// Returns the text of an index.
fn text_at(texts: &[Vec<u8>], index: usize) -> Option<&[u8]>
    ensures { option_copied result ≡ slice_get (items_of texts.now) index }
{
    match texts.get(index) {
        Some(text) => Some(text.as_slice()),
        None => None,
    }
}

/// Returns the text of a line, counted from 1.
fn line_text(texts: &[Vec<u8>], line: u32) -> Option<&[u8]>
    ensures { option_copied result ≡ text_of (items_of texts.now) line }
{
    if line == 0 {
        return None;
    }
    text_at(texts, line as usize - 1)
}

/// Returns the text of a line of a file: none if there is no such file.
pub fn text_of(sources: &[SourceFile], file: u32, line: u32) -> Option<&[u8]>
    ensures { option_copied result
        ≡ text_of (texts_at (map source_view sources.now) file) line }
{
    match sources.get(file as usize) {
        Some(source) => line_text(source.texts.as_slice(), line),
        None => None,
    }
}
