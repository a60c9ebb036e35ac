//! Counts visits and cycles for each label and each line, and for what belongs to none.

ghost use Rattle.std.specs.Prelude.{◌≡◌, ◌++◌, IfOk, OnOk, codes, if◌then◌else◌, slice_index_or};
ghost use Rattle.trace_rows.specs.Counts.{columns_text, count_of_line, counts_below, entries_row};
ghost use Rattle.trace_rows.specs.Counts.{nothing_counted};
ghost use Rattle.trace_rows.specs.Counts.{add_cycles, address_row, is_elsewhere, is_shown};
ghost use Rattle.trace_rows.specs.Counts.{is_unreached, label_row, label_rows, line_row, line_text};
ghost use Rattle.trace_rows.specs.Counts.{number_text};
ghost use Rattle.trace_rows.specs.Counts.{with_counts, with_elsewhere, with_head};
ghost use Rattle.trace_rows.specs.Counts.{cycles_with, whole_count};
ghost use Rattle.trace_rows.specs.Counts.{with_labels, with_lines, with_sums};
ghost use Rattle.trace_rows.specs.Counts.{with_unreached};

use crate::lines::SourceLine;
use crate::sites::{Label, Sites};
use crate::words::push_padded;
use accesses::{Count, Tally};
use formatting::{push_address, push_count};
use std::alloc::{AllocError, Global};

/// The columns of visits.
const VISITS: u8 = 8;
/// The columns of cycles, with two blanks before them.
const CYCLES: u8 = 12;
/// The columns of a line's number.
const NUMBER: u8 = 4;

/// Appends a table's head, behind an empty line if it is not the first.
#[tactic(auto, unfolding(crate::specs::Counts::with_head))]
fn push_head(text: &mut Vec<u8>, what: &[u8]) -> Result<(), AllocError>
    ensures { OnOk result (text.new.items ≡ with_head what.now text.old.items) }
{
    if !text.is_empty() {
        text.push(b'\n')?;
    }
    text.extend_from_slice(b"  visits      cycles  ")?;
    text.extend_from_slice(what)?;
    text.push(b'\n')?;
    Ok(())
}

/// Appends visits and cycles in their columns, and two blanks.
#[tactic(auto, unfolding(crate::specs::Counts::columns_text))]
fn push_columns(text: &mut Vec<u8>, count: Count) -> Result<(), AllocError>
    ensures { OnOk result (text.new.items ≡ text.old.items ++ columns_text count) }
{
    push_padded(text, count.visits, VISITS)?;
    push_padded(text, count.cycles, CYCLES)?;
    text.extend_from_slice(b"  ")
}

/// Returns the visits of an address and the cycles of so many addresses from it on.
#[tactic(auto, unfolding(crate::specs::Counts::cycles_from))]
fn count_of_line(tally: &Tally, line: &SourceLine) -> Count
    ensures { result ≡ count_of_line tally.now line.now }
{
    let mut count = tally.at(line.address);
    for offset in 1..line.len {
        let more = tally.at(line.address.wrapping_add(offset));
        count.cycles = count.cycles.saturating_add(more.cycles);
    }
    count
}

/// Returns the visits of each label, and no cycles yet.
#[tactic(auto, unfolding(crate::specs::Counts::counts_below))]
fn visits_of_labels(alloc: Global, sites: &Sites, tally: &Tally) -> Result<Vec<Count>, AllocError>
    ensures { IfOk result (λ counts. counts.items ≡ counts_below sites.now tally.now 0) }
{
    let mut counts = Vec::new(alloc);
    for label in sites.labels() {
        let visits = tally.at(label.address).visits;
        counts.push(Count { visits, cycles: 0 })?;
    }
    Ok(counts)
}

/// Adds the cycles of an address to the label that it belongs to.
fn add_cycles(counts: &mut Vec<Count>, index: Option<usize>, cycles: u64)
    ensures { counts.new.items ≡ add_cycles counts.old.items index cycles }
{
    if let Some(index) = index {
        if let Some(count) = counts.get_mut(index) {
            count.cycles = count.cycles.saturating_add(cycles);
        }
    }
}

/// Returns the visits of each label, and the cycles of all addresses that belong to it.
fn counts_of_labels(alloc: Global, sites: &Sites, tally: &Tally) -> Result<Vec<Count>, AllocError>
    ensures { IfOk result (λ counts. counts.items ≡ counts_below sites.now tally.now 65536) }
{
    let mut counts = visits_of_labels(alloc, sites, tally)?;
    for place in 0..65536u32 {
        let address = place as u16;
        let cycles = tally.at(address).cycles;
        add_cycles(&mut counts, sites.label_index(address), cycles);
    }
    Ok(counts)
}

/// Returns whether a label is shown: if it was reached, or stands at an instruction.
fn is_shown(sites: &Sites, label: &Label, count: Count) -> bool
    ensures { result ≡ is_shown sites.now label.now count }
{
    let is_code = match sites.line_at(label.address) {
        None => false,
        Some(line) => line.is_instruction,
    };
    is_code || count.visits > 0 || count.cycles > 0
}

/// Appends the row of a label, if the label is shown.
#[tactic(auto, unfolding(crate::specs::Counts::label_row))]
fn push_label(
    text: &mut Vec<u8>,
    sites: &Sites,
    label: &Label,
    count: Count,
) -> Result<(), AllocError>
    ensures { OnOk result (text.new.items ≡ text.old.items ++ label_row sites.now label.now count) }
{
    if is_shown(sites, label, count) {
        push_columns(text, count)?;
        text.extend_from_slice(label.text.as_slice())?;
        text.push(b'\n')?;
    }
    Ok(())
}

/// Appends the table of labels: those that were reached, and those of instructions.
fn push_labels(
    text: &mut Vec<u8>,
    alloc: Global,
    sites: &Sites,
    tally: &Tally,
) -> Result<(), AllocError>
    ensures { OnOk result (text.new.items ≡ with_labels sites.now tally.now text.old.items) }
{
    push_head(text, b"label")?;
    let counts = counts_of_labels(alloc, sites, tally)?;
    push_label_rows(text, sites, counts.as_slice())
}

/// Returns the count at an index, or that of nothing.
fn count_in(counts: &[Count], index: usize) -> Count
    ensures { result ≡ slice_index_or counts.now index nothing_counted }
{
    match counts.get(index) {
        None => Count {
            visits: 0,
            cycles: 0,
        },
        Some(count) => *count,
    }
}

/// Appends the rows of the labels, by the counts of each.
fn push_label_rows(text: &mut Vec<u8>, sites: &Sites, counts: &[Count]) -> Result<(), AllocError>
    ensures { OnOk result (text.new.items ≡ text.old.items
        ++ label_rows sites.now counts.now 0 sites.now.labels.items) }
{
    let mut index = 0;
    for label in sites.labels() {
        push_label(text, sites, label, count_in(counts, index))?;
        index += 1;
    }
    Ok(())
}

/// Appends a line's number, after the name of its file if that is shown.
fn push_number(text: &mut Vec<u8>, file: &[u8], number: u32) -> Result<(), AllocError>
    ensures { OnOk result (text.new.items ≡ text.old.items ++ number_text file.now number) }
{
    if file.is_empty() {
        push_padded(text, number as u64, NUMBER)
    } else {
        text.extend_from_slice(file)?;
        text.extend_from_slice(b":")?;
        push_count(text, number as u64)
    }
}

/// Appends a line's number and text.
#[tactic(auto, unfolding(crate::specs::Counts::line_text))]
fn push_line(text: &mut Vec<u8>, line: &SourceLine) -> Result<(), AllocError>
    ensures { OnOk result (text.new.items ≡ text.old.items ++ line_text line.now) }
{
    push_number(text, line.file.as_slice(), line.number)?;
    text.extend_from_slice(b": ")?;
    text.extend_from_slice(line.text.as_slice())?;
    text.push(b'\n')?;
    Ok(())
}

/// Returns cycles, and those of the lines that come next, as far as they continue one line.
#[tactic(auto, unfolding(crate::specs::Counts::cycles_with))]
fn cycles_with(tally: &Tally, first: u64, lines: &[SourceLine]) -> u64
    ensures { result ≡ cycles_with tally.now first lines.now }
{
    let mut cycles = first;
    for line in lines {
        if !line.continues {
            return cycles;
        }
        cycles = cycles.saturating_add(count_of_line(tally, line).cycles);
    }
    cycles
}

/// Returns the visits of a line's first byte, and the cycles of the whole line, by the lines behind
/// it.
fn whole_count(tally: &Tally, line: &SourceLine, behind: &[SourceLine]) -> Count
    ensures { result ≡ whole_count tally.now line.now behind.now }
{
    let count = count_of_line(tally, line);
    Count {
        visits: count.visits,
        cycles: cycles_with(tally, count.cycles, behind),
    }
}

/// Appends the row of a line, if the line begins there and was reached.
fn push_reached(
    text: &mut Vec<u8>,
    tally: &Tally,
    line: &SourceLine,
    behind: &[SourceLine],
) -> Result<(), AllocError>
    ensures { OnOk result
        (text.new.items ≡ text.old.items ++ line_row tally.now line.now behind.now) }
{
    if line.continues {
        return Ok(());
    }
    let count = whole_count(tally, line, behind);
    if count.visits > 0 || count.cycles > 0 {
        push_columns(text, count)?;
        push_line(text, line)?;
    }
    Ok(())
}

/// Appends the table of lines that were reached.
#[tactic(auto, unfolding(crate::specs::Counts::line_rows))]
fn push_lines(text: &mut Vec<u8>, sites: &Sites, tally: &Tally) -> Result<(), AllocError>
    ensures { OnOk result (text.new.items ≡ with_lines sites.now tally.now text.old.items) }
{
    push_head(text, b"line")?;
    let mut lines = sites.lines();
    while let [line, behind @ ..] = lines {
        push_reached(text, tally, line, behind)?;
        lines = behind;
    }
    Ok(())
}

/// Returns whether a line is an instruction that was never reached.
fn is_unreached(tally: &Tally, line: &SourceLine) -> bool
    ensures { result ≡ is_unreached tally.now line.now }
{
    line.is_instruction && !line.continues && tally.at(line.address).visits == 0
}

/// Appends what stands before the first instruction that was never reached.
fn push_unreached_title(text: &mut Vec<u8>, is_first: bool) -> Result<(), AllocError>
    ensures { OnOk result (text.new.items ≡ if is_first
        then text.old.items ++ codes "\nnever reached\n" else text.old.items) }
{
    if is_first {
        text.extend_from_slice(b"\nnever reached\n")?;
    }
    Ok(())
}

/// Appends the instructions that were never reached.
fn push_unreached(text: &mut Vec<u8>, sites: &Sites, tally: &Tally) -> Result<(), AllocError>
    ensures { OnOk result (text.new.items ≡ with_unreached sites.now tally.now text.old.items) }
{
    let mut is_first = true;
    for line in sites.lines() {
        if !is_unreached(tally, line) {
            continue;
        }
        push_unreached_title(text, is_first)?;
        push_line(text, line)?;
        is_first = false;
    }
    Ok(())
}

/// Returns whether an address was reached where the source has no instruction.
fn is_elsewhere(sites: &Sites, tally: &Tally, address: u16) -> bool
    ensures { result ≡ is_elsewhere sites.now tally.now address }
{
    tally.at(address).visits > 0 && sites.line_at(address).is_none()
}

/// Appends the row of an address.
#[tactic(auto, unfolding(crate::specs::Counts::address_row))]
fn push_address_row(text: &mut Vec<u8>, tally: &Tally, address: u16) -> Result<(), AllocError>
    ensures { OnOk result (text.new.items ≡ text.old.items ++ address_row tally.now address) }
{
    push_columns(text, tally.at(address))?;
    push_address(text, address)?;
    text.push(b'\n')?;
    Ok(())
}

/// Appends the head of the table of addresses, before its first row.
fn push_elsewhere_head(text: &mut Vec<u8>, is_first: bool) -> Result<(), AllocError>
    ensures { OnOk result (text.new.items ≡ if is_first
        then with_head (codes "address") text.old.items else text.old.items) }
{
    if is_first {
        push_head(text, b"address")?;
    }
    Ok(())
}

/// Appends the addresses that were reached where the source has no instruction.
fn push_elsewhere(text: &mut Vec<u8>, sites: &Sites, tally: &Tally) -> Result<(), AllocError>
    ensures { OnOk result (text.new.items ≡ with_elsewhere sites.now tally.now text.old.items) }
{
    let mut is_first = true;
    for place in 0..65536u32 {
        let address = place as u16;
        if !is_elsewhere(sites, tally, address) {
            continue;
        }
        push_elsewhere_head(text, is_first)?;
        push_address_row(text, tally, address)?;
        is_first = false;
    }
    Ok(())
}

/// Appends the row of the interrupt entries, if there were any.
fn push_entries(text: &mut Vec<u8>, entries: Count) -> Result<(), AllocError>
    ensures { OnOk result (text.new.items ≡ text.old.items ++ entries_row entries) }
{
    if entries.visits > 0 {
        push_columns(text, entries)?;
        text.extend_from_slice(b"interrupts\n")?;
    }
    Ok(())
}

/// Appends the sums of all rows, and of the interrupt entries if there were any.
#[tactic(auto, unfolding(crate::specs::Counts::with_sums))]
fn push_sums(text: &mut Vec<u8>, entries: Count, all: Count) -> Result<(), AllocError>
    ensures { OnOk result (text.new.items ≡ with_sums entries all text.old.items) }
{
    push_head(text, b"in all")?;
    push_entries(text, entries)?;
    push_columns(text, all)?;
    text.extend_from_slice(b"steps\n")
}

/// Appends what was counted: the labels, the lines that were reached, other addresses that were
/// reached, the instructions of the source that were not, and the sums.
///
/// A label's visits are those of its address, its cycles those of all addresses that belong to it.
/// Interrupt entries are counted by themselves.
///
/// Errors: `AllocError` if an allocation fails.
#[tactic(auto, unfolding(crate::specs::Counts::with_counts))]
pub fn push_counts(
    text: &mut Vec<u8>,
    alloc: Global,
    sites: &Sites,
    tally: &Tally,
    entries: Count,
    all: Count,
) -> Result<(), AllocError>
    ensures { OnOk result (text.new.items
        ≡ with_counts sites.now tally.now entries all text.old.items) }
{
    if !sites.labels().is_empty() {
        push_labels(text, alloc, sites, tally)?;
    }
    if !sites.lines().is_empty() {
        push_lines(text, sites, tally)?;
    }
    push_elsewhere(text, sites, tally)?;
    push_unreached(text, sites, tally)?;
    push_sums(text, entries, all)
}
