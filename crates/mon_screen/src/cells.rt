//! Rows of cells, made of the lines of texts.

ghost use Rattle.std.specs.Prelude.{◌≡◌, ◌≤◌, ◌++◌, OnOk, length, take};
ghost use Rattle.std.specs.List.{flat_map, prefix_len};
ghost use Rattle.mon_screen.specs.Cells.{behind_line, behind_lines, beside, block, cell, cells};
ghost use Rattle.mon_screen.specs.Cells.{ended, ending, first_line, is_no_lf, last_lines};
ghost use Rattle.mon_screen.specs.Cells.{line_count, row, titled, written};

use crate::wording::ROW_END;
use formatting::{push_blanks, push_text};
use mon_line_parts::without_first;
use std::alloc::AllocError;

/// Counts the bytes before the first LF.
fn line_len(text: &[u8]) -> usize
    ensures counted { result ≡ prefix_len is_no_lf text.now }
    ensures inside { result ≤ length text.now }
{
    text.iter().take_while(|byte| **byte != b'\n').count()
}

/// Returns the first line of a text, without its LF.
fn first_line(text: &[u8]) -> &[u8]
    ensures { result.now ≡ first_line text.now }
{
    &text[..line_len(text)]
}

/// Returns what is behind the first LF of a text.
fn behind_line(text: &[u8]) -> &[u8]
    ensures { result.now ≡ behind_line text.now }
{
    without_first(&text[line_len(text)..])
}

/// Returns what is behind the first `count` lines of a text.
pub fn behind_lines(text: &[u8], count: usize) -> &[u8]
    ensures { result.now ≡ behind_lines count text.now }
{
    let mut rest = text;
    for _ in 0..count {
        rest = behind_line(rest);
    }
    rest
}

/// Returns 1 for LF, and otherwise 0.
fn ending(byte: u8) -> usize
    ensures value { result ≡ ending byte }
    ensures few { result ≤ 1 }
{
    if byte == b'\n' { 1 } else { 0 }
}

/// Counts the lines that have ended in a text.
pub fn line_count(text: &[u8]) -> usize
    ensures { result ≡ line_count text.now }
{
    let mut count = 0;
    for byte in text {
        count += ending(*byte);
    }
    count
}

/// Returns the last `count` lines of a text whose last line has ended, or all if there are no more.
fn last_lines(text: &[u8], count: u8) -> &[u8]
    ensures { result.now ≡ last_lines count text.now }
{
    behind_lines(text, line_count(text).saturating_sub(count as usize))
}

/// Appends the cell of a byte.
fn push_cell(text: &mut Vec<u8>, byte: u8) -> Result<(), AllocError>
    ensures { OnOk result (text.new.items ≡ text.old.items ++ cell byte) }
{
    let shown = match byte {
        b'\t' => b' ',
        b' '..=b'~' => byte,
        _ => b'.',
    };
    text.push(shown)?;
    Ok(())
}

/// Appends the cells of some bytes.
fn push_each(text: &mut Vec<u8>, bytes: &[u8]) -> Result<(), AllocError>
    ensures { OnOk result (text.new.items ≡ text.old.items ++ flat_map cell bytes.now) }
{
    for byte in bytes {
        push_cell(text, *byte)?;
    }
    Ok(())
}

/// Returns the first `count` bytes of a line, or all if there are no more.
fn front(line: &[u8], count: usize) -> &[u8]
    ensures { result.now ≡ take count line.now }
{
    if count < line.len() {
        &line[..count]
    } else {
        line
    }
}

/// Appends the cells of a line in a column of `width` cells, the last of which stays blank.
#[tactic(auto, using(formatting::proofs::Padding::grown), unfolding(crate::specs::Cells::cells))]
fn push_cells(text: &mut Vec<u8>, line: &[u8], width: u8) -> Result<(), AllocError>
    ensures { OnOk result (text.new.items ≡ text.old.items ++ cells width line.now) }
{
    let from = text.len();
    push_each(text, front(line, (width as usize).saturating_sub(1)))?;
    push_blanks(text, from, width)
}

/// Appends a row with the first lines of two texts beside each other, ended.
fn push_row(
    text: &mut Vec<u8>,
    left: u8,
    right: u8,
    one: &[u8],
    other: &[u8],
) -> Result<(), AllocError>
    ensures { OnOk result (text.new.items ≡ text.old.items
        ++ ended (row left right one.now other.now)) }
{
    push_cells(text, first_line(one), left)?;
    push_cells(text, first_line(other), right)?;
    push_text(text, ROW_END)
}

/// Appends `count` rows with the lines of two texts beside each other, in columns of `left` and
/// `right` cells.
pub fn push_beside(
    text: &mut Vec<u8>,
    count: u8,
    left: u8,
    right: u8,
    one: &[u8],
    other: &[u8],
) -> Result<(), AllocError>
    ensures { OnOk result (text.new.items ≡ text.old.items
        ++ written (beside count left right one.now other.now)) }
{
    let mut first = one;
    let mut second = other;
    for _ in 0..count {
        push_row(text, left, right, first, second)?;
        first = behind_line(first);
        second = behind_line(second);
    }
    Ok(())
}

/// Appends `count` rows with the lines of a text.
pub fn push_block(
    text: &mut Vec<u8>,
    count: u8,
    columns: u8,
    lines: &[u8],
) -> Result<(), AllocError>
    ensures { OnOk result (text.new.items ≡ text.old.items
        ++ written (block count columns lines.now)) }
{
    push_beside(text, count, columns, 0, lines, b"")
}

/// Appends a row of words.
fn push_title(text: &mut Vec<u8>, columns: u8, title: &str) -> Result<(), AllocError>
    ensures { OnOk result (text.new.items ≡ text.old.items
        ++ written (block 1 columns title.now)) }
{
    push_block(text, 1, columns, title.as_bytes())
}

/// Appends `count` rows with the last lines of a text.
fn push_last(text: &mut Vec<u8>, count: u8, columns: u8, lines: &[u8]) -> Result<(), AllocError>
    ensures { OnOk result (text.new.items ≡ text.old.items
        ++ written (block count columns (last_lines count lines.now))) }
{
    push_block(text, count, columns, last_lines(lines, count))
}

/// Appends a row of words, and below it `count` rows with the last lines of a text.
pub fn push_titled(
    text: &mut Vec<u8>,
    count: u8,
    columns: u8,
    title: &str,
    lines: &[u8],
) -> Result<(), AllocError>
    ensures { OnOk result (text.new.items ≡ text.old.items
        ++ written (titled count columns title.now lines.now)) }
{
    push_title(text, columns, title)?;
    push_last(text, count, columns, lines)?;
    Ok(())
}
