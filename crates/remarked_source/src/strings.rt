//! Strings with the numbers that end them on their lines.

ghost use Rattle.std.specs.Prelude.{◌≡◌, ◌≤◌, ◌++◌, IfOk, None, OnOk, drop, take};
ghost use Rattle.std.specs.Option.{option_map};
ghost use Rattle.assembler.specs.Assembly.{source_lines};
ghost use Rattle.assembler.specs.Lines.{line_view};
ghost use Rattle.source_forms.specs.Rows.{is_kind, mark_at};
ghost use Rattle.remarked_source.specs.Strings.{behind_line, count_joined, is_letters, is_numbers};
ghost use Rattle.remarked_source.specs.Strings.{joined_from, joined_line, joined_numbers, last_end};
ghost use Rattle.remarked_source.specs.Strings.{text_count};

use assembler::{Assembly, SourceLine};
use source_forms::Mark;
use std::alloc::{AllocError, Global};

/// Whether a line has letters.
fn is_letters(line: &[u8]) -> bool
    ensures { result ≡ is_letters line.now }
{
    line.starts_with(b".BYTE \"")
}

/// Whether a line has numbers, and nothing behind them.
fn is_numbers(line: SourceLine<'_>) -> bool
    ensures { result ≡ is_numbers (line_view line.entry) }
{
    line.text.starts_with(b".BYTE $") && line.text.len() as u64 == 5 + 4 * line.count as u64
}

/// Returns whether a mark is that of text.
pub fn is_text_mark(mark: Mark) -> bool
    ensures { result ≡ is_kind Mark.Text mark }
{
    match mark {
        Mark::Text => true,
        Mark::Code | Mark::Data | Mark::Address | Mark::Return => false,
    }
}

/// Whether an address is marked as text.
fn is_text(marks: &[Mark], address: usize) -> bool
    ensures { result ≡ is_kind Mark.Text (mark_at marks.now address) }
{
    match marks.get(address) {
        Some(mark) => is_text_mark(*mark),
        None => false,
    }
}

/// How many addresses from one on are marked as text, at most so many.
fn text_count(marks: &[Mark], most: u8, address: u32) -> u8
    ensures exact { result ≡ text_count marks.now most address }
    ensures few { result ≤ most }
{
    let mut count = 0u8;
    while count < most {
        if !is_text(marks, address as usize + count as usize) {
            return count;
        }
        count += 1;
    }
    count
}

/// How many numbers of a line go behind the letters of the line before it.
fn count_joined(marks: &[Mark], before: SourceLine<'_>, line: SourceLine<'_>) -> u8
    ensures { result
        ≡ count_joined marks.now (line_view before.entry) (line_view line.entry) }
{
    let end = before.address as u64 + before.count as u64;
    if is_letters(before.text) && is_numbers(line) && end == line.address as u64 {
        let most = if line.count < 8 { line.count as u8 } else { 8 };
        text_count(marks, most, line.address)
    } else {
        0
    }
}

/// The end of a text behind so many bytes.
#[tactic(auto, using(crate::proofs::Cuts::behind_cut))]
fn behind(text: &[u8], count: usize) -> &[u8]
    ensures { result.now ≡ drop count text.now }
{
    &text[count.min(text.len())..]
}

/// So many first bytes of a text.
#[tactic(auto, using(crate::proofs::Cuts::front_cut))]
fn front(text: &[u8], count: usize) -> &[u8]
    ensures { result.now ≡ take count text.now }
{
    &text[..count.min(text.len())]
}

/// Appends numbers behind letters, and the rest of their line on one of its own.
fn push_numbers(out: &mut Vec<u8>, count: u8, line: SourceLine<'_>) -> Result<(), AllocError>
    ensures { OnOk result (out.new.items
        ≡ out.old.items ++ joined_numbers count (line_view line.entry)) }
{
    let numbers = behind(line.text, 6);
    out.push(b',')?;
    if count as u32 == line.count {
        return out.extend_from_slice(numbers);
    }
    let digits = 4 * count as usize;
    out.extend_from_slice(front(numbers, digits.saturating_sub(1)))?;
    out.extend_from_slice(b"\n.BYTE ")?;
    out.extend_from_slice(behind(numbers, digits))
}

/// Appends a line behind the one before it.
fn push_behind(out: &mut Vec<u8>, count: u8, line: SourceLine<'_>) -> Result<(), AllocError>
    ensures { OnOk result (out.new.items
        ≡ out.old.items ++ behind_line count (line_view line.entry)) }
{
    if count == 0 {
        out.push(b'\n')?;
        out.extend_from_slice(line.text)
    } else {
        push_numbers(out, count, line)
    }
}

/// Appends a line behind the one before it, if there is one.
fn push_joined(
    out: &mut Vec<u8>,
    marks: &[Mark],
    before: Option<SourceLine<'_>>,
    line: SourceLine<'_>,
) -> Result<(), AllocError>
    ensures { OnOk result (out.new.items ≡ out.old.items
        ++ joined_line marks.now (option_map line_view before.entry) (line_view line.entry)) }
{
    match before {
        None => out.extend_from_slice(line.text),
        Some(before) => push_behind(out, count_joined(marks, before, line), line),
    }
}

/// Appends the end of the last line, if there is one.
fn push_last_end(out: &mut Vec<u8>, before: Option<SourceLine<'_>>) -> Result<(), AllocError>
    ensures { OnOk result (out.new.items
        ≡ out.old.items ++ last_end (option_map line_view before.entry)) }
{
    if before.is_some() {
        out.push(b'\n')?;
    }
    Ok(())
}

/// Returns the lines of an assembly, with the numbers that end a string on its line. The only error
/// is that a request for memory was refused.
pub fn joined(alloc: Global, marks: &[Mark], assembly: &Assembly) -> Result<Vec<u8>, AllocError>
    ensures { IfOk result (λ text. text.items
        ≡ joined_from marks.now None (source_lines assembly.now)) }
{
    let mut out = Vec::new(alloc);
    let mut before = None;
    for index in 0..assembly.line_count() {
        if let Some(line) = assembly.line(index) {
            push_joined(&mut out, marks, before, line)?;
            before = Some(line);
        }
    }
    push_last_end(&mut out, before)?;
    Ok(out)
}
