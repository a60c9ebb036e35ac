//! The lines that are shown for bytes: from an assembly, or from places.

ghost use Rattle.std.specs.Prelude.{◌≡◌, ◌++◌, [], IfOk, OnOk, map, slice_get};
ghost use Rattle.std.specs.Option.{option_to_list, unwrap_or};
ghost use Rattle.arguments.specs.Shown.{shown_bytes};
ghost use Rattle.source_map.specs.Lines.{text_of, texts_at};
ghost use Rattle.assembler.specs.Assembly.{source_lines};
ghost use Rattle.assembler.specs.Lines.{line_view};
ghost use Rattle.trace_rows.specs.SourceLines.{continues, line_by, line_of, lines_by, lines_in};
ghost use Rattle.trace_rows.specs.SourceLines.{lines_of, listed};

use arguments::push_shown;
use assembler::Assembly;
use source_map::{Places, Row};
use std::alloc::{AllocError, Global};

/// A line of a source that is shown for bytes.
#[derive(Drop)]
pub struct SourceLine {
    /// The name of its file as it is shown, where it is: not in a source of one file.
    pub file: Vec<u8>,
    /// Its number, counted from 1.
    pub number: u32,
    /// The address of its first byte.
    pub address: u16,
    /// How many bytes it has, at most 3: a line of data may have more.
    pub len: u16,
    /// Whether it is an instruction, and no directive.
    pub is_instruction: bool,
    /// Whether these are further bytes of the line before it.
    pub continues: bool,
    /// The line as written.
    pub text: Vec<u8>,
}

/// Appends a line, if it has bytes.
fn push_line(
    alloc: Global,
    lines: &mut Vec<SourceLine>,
    line: assembler::SourceLine<'_>,
) -> Result<(), AllocError>
    ensures { OnOk result (map listed lines.new.items
        ≡ map listed lines.old.items ++ line_of (line_view line.entry)) }
{
    if line.count > 0 && line.address <= 65535 {
        let text = Vec::from_slice(alloc, line.text)?;
        lines.push(SourceLine {
            file: Vec::new(alloc),
            number: line.number,
            address: line.address as u16,
            len: line.count.min(3) as u16,
            is_instruction: line.is_instruction,
            continues: false,
            text,
        })?;
    }
    Ok(())
}

/// Appends the line of an index, if there is one and it has bytes.
#[tactic(auto, unfolding(crate::specs::SourceLines::lines_of))]
fn push_line_at(
    alloc: Global,
    lines: &mut Vec<SourceLine>,
    assembly: &Assembly,
    index: usize,
) -> Result<(), AllocError>
    ensures { OnOk result (map listed lines.new.items ≡ map listed lines.old.items
        ++ lines_of (option_to_list (slice_get (source_lines assembly.now) index))) }
{
    match assembly.line(index) {
        Some(line) => push_line(alloc, lines, line),
        None => Ok(()),
    }
}

/// Returns the lines of an assembled source that have bytes.
///
/// Errors: `AllocError` if an allocation fails.
pub fn lines_of(alloc: Global, assembly: &Assembly) -> Result<Vec<SourceLine>, AllocError>
    ensures { IfOk result (λ lines. map listed lines.items ≡ lines_in assembly.now) }
{
    let mut lines = Vec::new(alloc);
    for index in 0..assembly.line_count() {
        push_line_at(alloc, &mut lines, assembly, index)?;
    }
    Ok(lines)
}

/// Returns the text of the line of a row: no byte where its file has none.
fn text_of_row(places: &Places, row: Row) -> &[u8]
    ensures { result.now
        ≡ unwrap_or (text_of (texts_at places.now.sources row.file) row.line) [] }
{
    match places.text_of(row.file, row.line) {
        Some(text) => text,
        None => &[],
    }
}

/// Returns whether a row has further bytes of the line that is shown for the row before it.
fn continues(before: Option<Row>, row: Row) -> bool
    ensures { result ≡ continues before row }
{
    match before {
        None => false,
        Some(before) => before.file == row.file && before.line == row.line && !row.begins_line,
    }
}

/// Returns the name of a file as it is shown.
fn shown_file(alloc: Global, name: &[u8]) -> Result<Vec<u8>, AllocError>
    ensures { IfOk result (λ shown. shown.items ≡ shown_bytes name.now) }
{
    let mut shown = Vec::new(alloc);
    push_shown(&mut shown, name)?;
    Ok(shown)
}

/// Returns the line that is shown for the bytes of a row, behind another row.
fn line_of_row(
    alloc: Global,
    places: &Places,
    before: Option<Row>,
    row: Row,
) -> Result<SourceLine, AllocError>
    ensures { IfOk result (λ line. listed line ≡ line_by places.now.sources before row) }
{
    Ok(SourceLine {
        file: shown_file(alloc, places.file_name(row.file))?,
        number: row.line,
        address: row.address,
        len: row.count.min(3) as u16,
        is_instruction: row.is_instruction,
        continues: continues(before, row),
        text: Vec::from_slice(alloc, text_of_row(places, row))?,
    })
}

/// Returns the lines that are shown for the bytes of all rows.
///
/// Errors: `AllocError` if an allocation fails.
#[tactic(auto, unfolding(crate::specs::SourceLines::lines_behind))]
pub fn lines_by(alloc: Global, places: &Places) -> Result<Vec<SourceLine>, AllocError>
    ensures { IfOk result (λ lines. map listed lines.items ≡ lines_by places.now) }
{
    let mut lines = Vec::new(alloc);
    let mut before: Option<Row> = None;
    for row in places.rows() {
        let line = line_of_row(alloc, places, before, *row)?;
        lines.push(line)?;
        before = Some(*row);
    }
    Ok(lines)
}
