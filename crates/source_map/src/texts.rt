//! The texts of the lines of a source: from its assembly, or from the text of a file.

ghost use Rattle.std.specs.Prelude.{◌≡◌, ◌∷◌, ◌++◌, [], IfOk, OnOk, map, slice_get};
ghost use Rattle.std.specs.Option.{option_to_list};
ghost use Rattle.assembler.specs.Assembly.{source_lines};
ghost use Rattle.model.specs.TextLines.{lines_of};
ghost use Rattle.source_map.specs.Lines.{items_of, texts_of};

use assembler::Assembly;
use line_parts::next_line;
use std::alloc::{AllocError, Global};

/// Appends a text.
fn push_text(alloc: Global, texts: &mut Vec<Vec<u8>>, text: &[u8]) -> Result<(), AllocError>
    ensures { OnOk result
        (items_of texts.new.items ≡ items_of texts.old.items ++ text.now ∷ []) }
{
    let text = Vec::from_slice(alloc, text)?;
    texts.push(text)?;
    Ok(())
}

/// Appends the text of the line of an index, if there is such a line.
fn push_text_at(
    alloc: Global,
    texts: &mut Vec<Vec<u8>>,
    assembly: &Assembly,
    index: usize,
) -> Result<(), AllocError>
    ensures { OnOk result (items_of texts.new.items ≡ items_of texts.old.items
        ++ texts_of (option_to_list (slice_get (source_lines assembly.now) index))) }
{
    match assembly.line(index) {
        Some(line) => push_text(alloc, texts, line.text),
        None => Ok(()),
    }
}

/// Returns the texts of all lines that were read, in their order.
pub fn texts_of(alloc: Global, assembly: &Assembly) -> Result<Vec<Vec<u8>>, AllocError>
    ensures { IfOk result
        (λ texts. items_of texts.items ≡ texts_of (source_lines assembly.now)) }
{
    let mut texts = Vec::new(alloc);
    for index in 0..assembly.line_count() {
        push_text_at(alloc, &mut texts, assembly, index)?;
    }
    Ok(texts)
}

/// Returns the texts of the lines of a text, each without its end.
pub fn lines_of(alloc: Global, text: &[u8]) -> Result<Vec<Vec<u8>>, AllocError>
    ensures { IfOk result (λ texts. items_of texts.items ≡ lines_of text.now) }
{
    let mut texts = Vec::new(alloc);
    let mut rest = text;
    while !rest.is_empty() {
        let (line, behind) = next_line(rest);
        push_text(alloc, &mut texts, line)?;
        rest = behind;
    }
    Ok(texts)
}
