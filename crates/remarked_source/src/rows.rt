//! The lines of a source with what stands beside them.

ghost use Rattle.std.specs.Prelude.{◌≡◌, ◌++◌, IfOk, OnOk, unwrap_or};
ghost use Rattle.assembler.specs.Lines.{line_view};
ghost use Rattle.assembler.specs.Assembly.{source_lines};
ghost use Rattle.formatting.specs.Padding.{padded};
ghost use Rattle.model.specs.Image.{cell_at};
ghost use Rattle.remarked_source.specs.Rows.{behind, byte_column, byte_columns, front_of, is_label};
ghost use Rattle.remarked_source.specs.Rows.{more_bytes, placed, reach_of, row_of, rows_from, rows_of};
ghost use Rattle.remarked_source.specs.Views.{beside_view};

use crate::beside::{Beside, push_blocks, push_notes};
use assembler::{Assembly, SourceLine};
use formatting::{address_text, push_blanks, push_byte};
use source_writer::stretch::cell_at;
use std::alloc::{AllocError, Global};

/// Returns whether a line is a label alone.
pub fn is_label(line: &[u8]) -> bool
    ensures { result ≡ is_label line.now }
{
    match line {
        [.., last] => *last == b':',
        [] => false,
    }
}

/// How many addresses a line stands for.
fn reach_of(line: SourceLine<'_>) -> u64
    ensures { result ≡ reach_of (line_view line.entry) }
{
    if line.count == 0 {
        if is_label(line.text) { 1 } else { 0 }
    } else {
        line.count as u64
    }
}

/// Appends a text, and blanks up to column 40.
#[tactic(auto, using(formatting::proofs::Padding::grown))]
fn push_padded(out: &mut Vec<u8>, text: &[u8]) -> Result<(), AllocError>
    ensures { OnOk result (out.new.items ≡ out.old.items ++ padded 40 text.now) }
{
    let from = out.len();
    out.extend_from_slice(text)?;
    push_blanks(out, from, 40)
}

/// Returns the byte at an address, or 0 where there is none.
pub fn byte_at(cells: &[Option<u8>], address: usize) -> u8
    ensures { result ≡ unwrap_or (cell_at cells.now address) 0 }
{
    match cell_at(cells, address) {
        Some(byte) => byte,
        None => 0,
    }
}

/// Appends the byte at an address, behind a blank.
fn push_column(out: &mut Vec<u8>, cells: &[Option<u8>], address: usize) -> Result<(), AllocError>
    ensures { OnOk result (out.new.items ≡ out.old.items ++ byte_column cells.now address) }
{
    out.push(b' ')?;
    push_byte(out, byte_at(cells, address))
}

/// Appends so many bytes from an address on.
#[tactic(auto, using(crate::proofs::Columns::columns_end))]
fn push_columns(
    out: &mut Vec<u8>,
    cells: &[Option<u8>],
    count: u8,
    address: u32,
) -> Result<(), AllocError>
    ensures { OnOk result
        (out.new.items ≡ out.old.items ++ byte_columns cells.now count address) }
{
    for offset in 0..count {
        push_column(out, cells, address as usize + offset as usize)?;
    }
    Ok(())
}

/// What stands for the bytes after the first eight.
fn more_bytes(count: u32) -> &'static [u8]
    ensures { result.now ≡ more_bytes count }
{
    if 8 < count { b" .." } else { b"" }
}

/// Appends a line that has bytes, with its address and the first of them.
fn push_placed(
    out: &mut Vec<u8>,
    cells: &[Option<u8>],
    line: SourceLine<'_>,
) -> Result<(), AllocError>
    ensures { OnOk result
        (out.new.items ≡ out.old.items ++ placed cells.now (line_view line.entry)) }
{
    push_padded(out, line.text)?;
    out.extend_from_slice(b" ; ")?;
    out.extend_from_slice(&address_text(line.address))?;
    out.extend_from_slice(b" ")?;
    push_columns(out, cells, line.count.min(8) as u8, line.address)?;
    out.extend_from_slice(more_bytes(line.count))
}

/// Appends a line, with where it is if that is asked for.
fn push_front(
    out: &mut Vec<u8>,
    addresses: bool,
    cells: &[Option<u8>],
    line: SourceLine<'_>,
) -> Result<(), AllocError>
    ensures { OnOk result (out.new.items
        ≡ out.old.items ++ front_of addresses cells.now (line_view line.entry)) }
{
    if addresses && 0 < line.count {
        push_placed(out, cells, line)
    } else {
        out.extend_from_slice(line.text)
    }
}

/// Appends a line with what stands beside it, and its end.
fn push_row(
    out: &mut Vec<u8>,
    beside: Beside<'_>,
    cells: &[Option<u8>],
    line: SourceLine<'_>,
) -> Result<(), AllocError>
    ensures { OnOk result (out.new.items
        ≡ out.old.items ++ row_of (beside_view beside.entry) cells.now (line_view line.entry)) }
{
    let low = line.address as u64;
    let high = low + line.count as u64;
    push_front(out, beside.addresses, cells, line)?;
    push_notes(out, beside.texts, low, high, beside.remarks)?;
    out.extend_from_slice(b"\n")
}

/// The first address whose comments were not written, after a line.
fn behind(from: u64, line: SourceLine<'_>) -> u64
    ensures { result ≡ behind from (line_view line.entry) }
{
    let reach = reach_of(line);
    if reach == 0 {
        from
    } else {
        line.address as u64 + reach
    }
}

/// Appends the comments before a line, and the line.
fn push_rows_of(
    out: &mut Vec<u8>,
    beside: Beside<'_>,
    cells: &[Option<u8>],
    from: u64,
    line: SourceLine<'_>,
) -> Result<(), AllocError>
    ensures { OnOk result (out.new.items ≡ out.old.items
        ++ rows_of (beside_view beside.entry) cells.now from (line_view line.entry)) }
{
    let low = from.max(line.address as u64);
    let high = line.address as u64 + reach_of(line);
    push_blocks(out, beside.texts, low, high, beside.remarks)?;
    push_row(out, beside, cells, line)
}

/// Returns the lines of an assembly, with what stands beside them. The only error is that a request
/// for memory was refused.
#[tactic(auto, using(crate::proofs::Lines::lines_end))]
pub fn rows(
    alloc: Global,
    beside: Beside<'_>,
    cells: &[Option<u8>],
    assembly: &Assembly,
) -> Result<Vec<u8>, AllocError>
    ensures { IfOk result (λ text. text.items
        ≡ rows_from (beside_view beside.entry) cells.now 0 (source_lines assembly.now)) }
{
    let mut out = Vec::new(alloc);
    let mut from = 0u64;
    for index in 0..assembly.line_count() {
        if let Some(line) = assembly.line(index) {
            push_rows_of(&mut out, beside, cells, from, line)?;
            from = behind(from, line);
        }
    }
    Ok(out)
}
