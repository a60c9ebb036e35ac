//! The blocks of all warnings.

ghost use Rattle.std.specs.Prelude.{◌≡◌, ◌++◌, IfOk, OnOk, map};
ghost use Rattle.std.specs.Option.{option_map};
ghost use Rattle.warning_notes.specs.Blocks.{IsWarnedText, kind_name, title_of, warning_blocks};
ghost use Rattle.source_notes.specs.Blocks.{AreBlocks, block_of};
ghost use Rattle.source_notes.specs.Lines.{name_view, names_of, texts_of};

use crate::note::note_of;
use crate::wording::{
    AFTER_END, FALLS_OFF, HANDLER_RETURNS, LETTER_CASE, LONG_FORM, NO_BYTES, NO_VECTOR,
    ONE_WARNING, PLAIN_NUMBER, POINTER_WRAP, REGISTER_NAME, SQUARE_BRACKETS, UNUSED_NAME,
    VECTOR_TO_DATA, WARNING, WARNINGS,
};
use formatting::push_text;
use source_notes::{
    Name, Note, every_line, first_told, line_of, line_or_none, names_of, phrase, push_block,
    push_total,
};
use std::alloc::{AllocError, Global};
use warnings::{Warning, WarningKind};

/// Returns the name of a kind of warning, as `check` writes it.
pub fn kind_name(kind: WarningKind) -> &'static str
    ensures { result.now ≡ kind_name kind }
{
    match kind {
        WarningKind::PlainNumber => PLAIN_NUMBER,
        WarningKind::UnusedName => UNUSED_NAME,
        WarningKind::LongForm => LONG_FORM,
        WarningKind::LetterCase => LETTER_CASE,
        WarningKind::NoBytes => NO_BYTES,
        WarningKind::AfterEnd => AFTER_END,
        WarningKind::NoVector => NO_VECTOR,
        WarningKind::FallsOff => FALLS_OFF,
        WarningKind::PointerWrap(_) => POINTER_WRAP,
        WarningKind::RegisterName => REGISTER_NAME,
        WarningKind::SquareBrackets => SQUARE_BRACKETS,
        WarningKind::VectorToData(_, _) => VECTOR_TO_DATA,
        WarningKind::HandlerReturns(_) => HANDLER_RETURNS,
    }
}

/// Returns the title of a block.
fn title_of(alloc: Global, kind: WarningKind) -> Result<Vec<u8>, AllocError>
    ensures { IfOk result (λ title. title.items ≡ title_of kind) }
{
    let mut title = phrase(alloc, WARNING)?;
    push_text(&mut title, kind_name(kind))?;
    push_text(&mut title, ": ")?;
    Ok(title)
}

/// Appends the block of a warning: where it is and what may be meant, and the line with a mark.
fn push_warning(
    alloc: Global,
    text: &mut Vec<u8>,
    file: &[u8],
    warning: Warning,
    line: Option<&[u8]>,
    note: &Note,
) -> Result<(), AllocError>
    ensures { OnOk result (text.new.items ≡ text.old.items
        ++ block_of file.now warning.line (title_of warning.kind)
        (option_map (λ line. line.now) line.entry) note.now) }
{
    let title = title_of(alloc, warning.kind)?;
    push_block(alloc, text, file, warning.line, &title, line, note)
}

/// Returns the blocks of warnings of a source whose lines are these and begin with these names.
fn line_blocks(
    alloc: Global,
    file: &[u8],
    lines: &[&[u8]],
    names: &[Name<'_>],
    warnings: &[Warning],
) -> Result<Vec<u8>, AllocError>
    requires { map name_view names.now ≡ names_of (texts_of lines.now) }
    ensures { IfOk result (λ text. AreBlocks (warning_blocks (names_of (texts_of lines.now)))
        file.now (texts_of lines.now) warnings.now text.items) }
{
    let mut text = Vec::new(alloc);
    for warning in warnings {
        let line = line_of(lines, warning.line);
        let shown = line_or_none(line);
        let note = note_of(alloc, names, warning.kind, warning.line, shown)?;
        push_warning(alloc, &mut text, file, *warning, line, &note)?;
    }
    Ok(text)
}

/// Returns the text of warnings of a source: for each of the first 50
/// `FILE:LINE:COLUMN: warning: KIND: ` and what a person needs, the line and a mark under what is
/// meant; then how many warnings there are. Without a warning the text is empty.
///
/// Columns are counted in bytes from 1; a tab is one.
///
/// Errors: `AllocError` if an allocation fails. Source: mos65.
pub fn warnings_text(
    alloc: Global,
    file: &[u8],
    source: &[u8],
    warnings: &[Warning],
) -> Result<Vec<u8>, AllocError>
    // A block for each of the first 50 warnings, with its line's number, its kind, its words and
    // the source's own line with a mark under what is meant.
    ensures told { IfOk result
        (λ text. IsWarnedText file.now source.now warnings.now text.items) }
{
    if warnings.is_empty() {
        return Ok(Vec::new(alloc));
    }
    let lines = every_line(alloc, source)?;
    let names = names_of(alloc, &lines)?;
    let mut text = line_blocks(alloc, file, &lines, &names, first_told(warnings))?;
    push_total(&mut text, warnings.len(), ONE_WARNING, WARNINGS)?;
    Ok(text)
}
