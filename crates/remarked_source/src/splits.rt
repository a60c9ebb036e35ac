//! Tables in two halves, with labels in the place of their numbers.

ghost use Rattle.std.specs.Prelude.{◌≡◌, ◌<◌, ◌≤◌, ◌++◌, IfOk, IfSome, None, OnOk, find, true};
ghost use Rattle.std.specs.Option.{option_map};
ghost use Rattle.assembler.specs.Assembly.{source_lines};
ghost use Rattle.assembler.specs.Lines.{line_view};
ghost use Rattle.source_forms.specs.Pieces.{label_text};
ghost use Rattle.remarked_source.specs.Splits.{byte_line, byte_lines, covers, entry_at, entry_in};
ghost use Rattle.remarked_source.specs.Splits.{entry_of, half_front, half_line, has_entry};
ghost use Rattle.remarked_source.specs.Splits.{is_label_at, is_labelled, is_table, label_name, leads};
ghost use Rattle.remarked_source.specs.Splits.{leads_by, leads_in, line_text, made_label, name_at};
ghost use Rattle.remarked_source.specs.Splits.{needs_label, number_line, place_of, signed};
ghost use Rattle.remarked_source.specs.Splits.{split_from, split_row};
ghost use Rattle.remarked_source.specs.Splits.{target_at, target_of};

use crate::beside::lies_in;
use crate::rows::{byte_at, is_label};
use assembler::{Assembly, SourceLine};
use formatting::{push_address, push_byte, push_count};
use marks_files::Split;
use source_writer::stretch::cell_at;
use std::alloc::{AllocError, Global};

/// Half of a word of a table: whether it is the high one, the address to which the word leads, and
/// how much more that is than the word.
#[derive(Clone, Copy)]
pub struct Entry {
    pub is_high: bool,
    pub target: u16,
    pub more: u16,
}

/// The tables, the bytes, and the lines in which they stand.
#[derive(Clone, Copy)]
pub struct Tables<'a> {
    pub cells: &'a [Option<u8>],
    pub splits: &'a [Split],
    pub assembly: &'a Assembly,
}

/// The address to which a word leads, where both its bytes are there.
fn target_of(low: Option<u8>, high: Option<u8>, more: u16) -> Option<u16>
    ensures { result ≡ target_of low high more }
{
    match (low, high) {
        (Some(low), Some(high)) => {
            let word = low as u32 + 256 * high as u32 + more as u32;
            Some((word % 65536) as u16)
        }
        _ => None,
    }
}

/// Returns the address to which a word of a table leads, if both its bytes are there.
pub fn target_at(cells: &[Option<u8>], split: Split, index: u16) -> Option<u16>
    ensures { result ≡ target_at cells.now split index }
{
    let low = cell_at(cells, split.low as usize + index as usize);
    let high = cell_at(cells, split.high as usize + index as usize);
    target_of(low, high, split.more)
}

/// Whether a word leads to an address at one or above it, and below another.
fn leads_in(low: u64, high: u64, target: Option<u16>) -> bool
    ensures { result ≡ leads_in low high target }
{
    match target {
        Some(target) => lies_in(low, high, target as u64),
        None => false,
    }
}

/// Whether one of the words of a table does.
fn leads_by(cells: &[Option<u8>], split: Split, low: u64, high: u64) -> bool
    ensures { result ≡ leads_by cells.now split split.count low high }
{
    let mut left = split.count;
    while left > 0 {
        left -= 1;
        if leads_in(low, high, target_at(cells, split, left)) {
            return true;
        }
    }
    false
}

/// Whether a word of one of some tables does.
fn leads(cells: &[Option<u8>], splits: &[Split], low: u64, high: u64) -> bool
    ensures { result ≡ leads cells.now splits.now low high }
{
    for split in splits {
        if leads_by(cells, *split, low, high) {
            return true;
        }
    }
    false
}

/// Half of a word, if there is one.
fn entry_of(is_high: bool, more: u16, target: Option<u16>) -> Option<Entry>
    ensures { result ≡ entry_of is_high more target }
{
    match target {
        Some(target) => Some(Entry {
            is_high,
            target,
            more,
        }),
        None => None,
    }
}

/// Which half of which word of a table stands at an address.
fn entry_in(cells: &[Option<u8>], split: Split, address: u64) -> Option<Entry>
    ensures { result ≡ entry_in cells.now split address }
{
    let count = split.count as u64;
    let (low, high) = (split.low as u64, split.high as u64);
    if lies_in(low, low + count, address) {
        let index = (address - low) as u16;
        return entry_of(false, split.more, target_at(cells, split, index));
    }
    if lies_in(high, high + count, address) {
        let index = (address - high) as u16;
        return entry_of(true, split.more, target_at(cells, split, index));
    }
    None
}

/// The same of the first of some tables that has it.
fn entry_at(cells: &[Option<u8>], splits: &[Split], address: u64) -> Option<Entry>
    ensures { result ≡ entry_at cells.now splits.now address }
{
    for split in splits {
        let entry = entry_in(cells, *split, address);
        if entry.is_some() {
            return entry;
        }
    }
    None
}

/// Whether a line has the byte of an address.
fn covers(address: u16, line: SourceLine<'_>) -> bool
    ensures { result ≡ covers address (line_view line.entry) }
{
    let low = line.address as u64;
    lies_in(low, low + line.count as u64, address as u64)
}

/// Whether a line is a label alone that stands at an address.
fn is_label_at(address: u32, line: SourceLine<'_>) -> bool
    ensures { result ≡ is_label_at address (line_view line.entry) }
{
    is_label(line.text) && line.address == address
}

/// The first line that has the byte of an address.
#[tactic(auto, using(crate::proofs::Finding::none_left))]
fn line_of(assembly: &Assembly, address: u16) -> Option<SourceLine<'_>>
    ensures found { option_map line_view result
        ≡ find (covers address) (source_lines assembly.now) }
    ensures within { IfSome result (λ line. line.address ≤ address) }
{
    for index in 0..assembly.line_count() {
        let Some(line) = assembly.line(index) else {
            return None;
        };
        if covers(address, line) {
            return Some(line);
        }
    }
    None
}

/// The first label that stands at an address.
#[tactic(auto, using(crate::proofs::Finding::none_left))]
fn label_at(assembly: &Assembly, address: u32) -> Option<SourceLine<'_>>
    ensures { option_map line_view result
        ≡ find (is_label_at address) (source_lines assembly.now) }
{
    for index in 0..assembly.line_count() {
        let Some(line) = assembly.line(index) else {
            return None;
        };
        if is_label_at(address, line) {
            return Some(line);
        }
    }
    None
}

/// Appends the label that is made of an address.
fn push_made(out: &mut Vec<u8>, address: u16) -> Result<(), AllocError>
    ensures { OnOk result (out.new.items ≡ out.old.items ++ label_text address) }
{
    out.extend_from_slice(b"L_")?;
    push_address(out, address)
}

/// The name of a label.
fn label_name<'a>(line: SourceLine<'a>) -> &'a [u8]
    ensures { result.now ≡ label_name (line_view line.entry) }
{
    &line.text[..line.text.len().saturating_sub(1)]
}

/// Appends the name of the first label at an address; where none is, one is made of the address.
fn push_name(out: &mut Vec<u8>, assembly: &Assembly, address: u16) -> Result<(), AllocError>
    ensures { OnOk result (out.new.items
        ≡ out.old.items ++ name_at (source_lines assembly.now) address) }
{
    match label_at(assembly, address as u32) {
        Some(line) => out.extend_from_slice(label_name(line)),
        None => push_made(out, address),
    }
}

/// Appends a number behind a sign, if it is not 0.
fn push_signed(out: &mut Vec<u8>, sign: u8, number: u16) -> Result<(), AllocError>
    ensures { OnOk result (out.new.items ≡ out.old.items ++ signed sign number) }
{
    if number != 0 {
        out.push(sign)?;
        push_count(out, number as u64)?;
    }
    Ok(())
}

/// Appends a byte of an image as a number, on a line.
fn push_number(out: &mut Vec<u8>, cells: &[Option<u8>], address: u64) -> Result<(), AllocError>
    ensures { OnOk result (out.new.items ≡ out.old.items ++ number_line cells.now address) }
{
    out.extend_from_slice(b".BYTE $")?;
    push_byte(out, byte_at(cells, address as usize))?;
    out.extend_from_slice(b"\n")
}

/// What stands before an address, of which this is a half.
fn half_front(is_high: bool) -> &'static [u8]
    ensures { result.now ≡ half_front is_high }
{
    if is_high { b".BYTE >" } else { b".BYTE <" }
}

/// Appends an address by the label of its line.
fn push_place(
    out: &mut Vec<u8>,
    assembly: &Assembly,
    address: u16,
    line: SourceLine<'_>,
) -> Result<(), AllocError>
    requires { line.address ≤ address }
    ensures { OnOk result (out.new.items ≡ out.old.items
        ++ place_of (source_lines assembly.now) address (line_view line.entry)) }
{
    let begin = line.address as u16;
    push_name(out, assembly, begin)?;
    push_signed(out, b'+', address - begin)
}

/// Appends half of an address on a line, or its number where no line has the address.
fn push_half(
    out: &mut Vec<u8>,
    tables: Tables<'_>,
    address: u64,
    entry: Entry,
) -> Result<(), AllocError>
    ensures { OnOk result (out.new.items ≡ out.old.items
        ++ half_line tables.entry.cells.now (source_lines tables.entry.assembly.now) address entry
        (find (covers entry.target) (source_lines tables.entry.assembly.now))) }
{
    match line_of(tables.assembly, entry.target) {
        Some(line) => {
            out.extend_from_slice(half_front(entry.is_high))?;
            push_place(out, tables.assembly, entry.target, line)?;
            push_signed(out, b'-', entry.more)?;
            out.extend_from_slice(b"\n")
        }
        None => push_number(out, tables.cells, address),
    }
}

/// Appends the line of a byte.
fn push_byte_line(out: &mut Vec<u8>, tables: Tables<'_>, address: u64) -> Result<(), AllocError>
    ensures { OnOk result (out.new.items ≡ out.old.items ++ byte_line tables.entry.cells.now
        (source_lines tables.entry.assembly.now) address
        (entry_at tables.entry.cells.now tables.entry.splits.now address)) }
{
    match entry_at(tables.cells, tables.splits, address) {
        Some(entry) => push_half(out, tables, address, entry),
        None => push_number(out, tables.cells, address),
    }
}

/// Appends a line for each byte of a line.
#[tactic(auto, using(crate::proofs::SplitTables::bytes_end))]
fn push_byte_lines(
    out: &mut Vec<u8>,
    tables: Tables<'_>,
    line: SourceLine<'_>,
) -> Result<(), AllocError>
    ensures { OnOk result (out.new.items ≡ out.old.items ++ byte_lines tables.entry.cells.now
        tables.entry.splits.now (source_lines tables.entry.assembly.now) line.entry.count
        line.entry.address) }
{
    for offset in 0..line.count {
        push_byte_line(out, tables, line.address as u64 + offset as u64)?;
    }
    Ok(())
}

/// Whether one of so many addresses from one on is in a table.
#[tactic(auto, using(crate::proofs::SplitTables::no_entry))]
fn has_entry(cells: &[Option<u8>], splits: &[Split], count: u32, address: u32) -> bool
    ensures { result ≡ has_entry cells.now splits.now count address }
{
    for offset in 0..count {
        if entry_at(cells, splits, address as u64 + offset as u64).is_some() {
            return true;
        }
    }
    false
}

/// Whether a line has numbers of which some are in a table.
fn is_table(tables: Tables<'_>, line: SourceLine<'_>) -> bool
    ensures { result ≡ is_table tables.entry.cells.now tables.entry.splits.now
        (line_view line.entry) }
{
    line.text.starts_with(b".BYTE $")
        && has_entry(tables.cells, tables.splits, line.count, line.address)
}

/// Whether a label stands right before a line.
fn is_labelled(before: Option<SourceLine<'_>>, line: SourceLine<'_>) -> bool
    ensures { result
        ≡ is_labelled (option_map line_view before.entry) (line_view line.entry) }
{
    match before {
        Some(before) => is_label_at(line.address, before),
        None => false,
    }
}

/// Whether a line needs a label: a word leads to it, and it has none.
fn needs_label(tables: Tables<'_>, before: Option<SourceLine<'_>>, line: SourceLine<'_>) -> bool
    ensures exact { result ≡ needs_label tables.entry.cells.now tables.entry.splits.now
        (option_map line_view before.entry) (line_view line.entry) }
    ensures within { result ≡ true → line.entry.address < 65536 }
{
    let low = line.address as u64;
    line.address < 65536
        && leads(tables.cells, tables.splits, low, low + line.count as u64)
        && !is_labelled(before, line)
}

/// Appends the label of a line that needs one.
fn push_made_label(
    out: &mut Vec<u8>,
    tables: Tables<'_>,
    before: Option<SourceLine<'_>>,
    line: SourceLine<'_>,
) -> Result<(), AllocError>
    ensures { OnOk result (out.new.items ≡ out.old.items ++ made_label tables.entry.cells.now
        tables.entry.splits.now (option_map line_view before.entry) (line_view line.entry)) }
{
    if needs_label(tables, before, line) {
        push_made(out, line.address as u16)?;
        out.extend_from_slice(b":\n")?;
    }
    Ok(())
}

/// Appends a line, or the lines of its bytes.
fn push_line_text(
    out: &mut Vec<u8>,
    tables: Tables<'_>,
    line: SourceLine<'_>,
) -> Result<(), AllocError>
    ensures { OnOk result (out.new.items ≡ out.old.items ++ line_text tables.entry.cells.now
        tables.entry.splits.now (source_lines tables.entry.assembly.now) (line_view line.entry)) }
{
    if is_table(tables, line) {
        push_byte_lines(out, tables, line)
    } else {
        out.extend_from_slice(line.text)?;
        out.extend_from_slice(b"\n")
    }
}

/// Appends a line with its label.
fn push_split_row(
    out: &mut Vec<u8>,
    tables: Tables<'_>,
    before: Option<SourceLine<'_>>,
    line: SourceLine<'_>,
) -> Result<(), AllocError>
    ensures { OnOk result (out.new.items ≡ out.old.items ++ split_row tables.entry.cells.now
        tables.entry.splits.now (source_lines tables.entry.assembly.now)
        (option_map line_view before.entry) (line_view line.entry)) }
{
    push_made_label(out, tables, before, line)?;
    push_line_text(out, tables, line)
}

/// Returns the lines of an assembly with labels in the place of numbers of tables. The only error
/// is that a request for memory was refused.
#[tactic(auto, using(crate::proofs::SplitTables::lines_end))]
pub fn with_halves(alloc: Global, tables: Tables<'_>) -> Result<Vec<u8>, AllocError>
    ensures { IfOk result (λ text. text.items ≡ split_from tables.entry.cells.now
        tables.entry.splits.now (source_lines tables.entry.assembly.now) None
        (source_lines tables.entry.assembly.now)) }
{
    let mut out = Vec::new(alloc);
    let mut before = None;
    for index in 0..tables.assembly.line_count() {
        if let Some(line) = tables.assembly.line(index) {
            push_split_row(&mut out, tables, before, line)?;
            before = Some(line);
        }
    }
    Ok(out)
}
