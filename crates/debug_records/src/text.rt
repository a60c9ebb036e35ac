//! A debug file from its first line to its last.

ghost use Rattle.std.specs.Prelude.{◌≡◌, ◌≤◌, ◌<◌, ◌^◌, length, nat_lt};
ghost use Rattle.model.specs.TextLines.{lines_of};
ghost use Rattle.debug_records.specs.Faults.{GivesInfo};
ghost use Rattle.debug_records.specs.Info.{spanned, use_size};
ghost use Rattle.debug_records.specs.Reading.{debug_info, finished, in_line, lines_read};
ghost use Rattle.debug_records.specs.Reading.{most_spanned, nothing_read, place_of, with_text};
ghost use Rattle.debug_records.specs.Views.{info_view, reading_view};
ghost use Rattle.debug_records.specs.declared.fault.DebugError.TheVariants.{Fault};

use crate::fault::{DebugError, DebugFault, DebugFaultKind, LineError, Place, fault_in};
use crate::info::{DebugInfo, Use, record_at};
use crate::reading::{Reading, nothing_read, push_text};
use crate::reference::first_missing;
use line_parts::next_line;
use std::alloc::Global;

/// The most bytes of a file: 16 MiB.
const MOST_BYTES: usize = 16_777_216;

/// The most bytes of the spans of all lines.
const MOST_SPANNED: u64 = 16_777_216;

/// Takes a line, and tells a fault with its place in the file.
fn push_numbered<'a>(
    alloc: Global,
    reading: &mut Reading<'a>,
    number: u32,
    line: &'a [u8],
) -> Result<(), DebugError>
    requires { length line.now < 2 ^ 32 }
    ensures { GivesInfo (λ _. reading_view reading.new) result
        (in_line (place_of number line.now)
        (with_text number line.now (reading_view reading.old))) }
{
    match push_text(alloc, reading, number, line) {
        Ok(()) => Ok(()),
        Err(LineError::Memory) => Err(DebugError::OutOfMemory),
        Err(LineError::Fault(fault)) => {
            let place = Place {
                line: number,
                length: line.len(),
            };
            Err(DebugError::Fault(fault_in(place, fault)))
        }
    }
}

/// Reads the lines of a file.
fn read_lines<'a>(alloc: Global, text: &'a [u8]) -> Result<Reading<'a>, DebugError>
    requires { length text.now ≤ 2 ^ 24 }
    ensures { GivesInfo reading_view result (lines_read 1 (lines_of text.now) nothing_read) }
{
    let mut reading = nothing_read(alloc);
    let mut rest = text;
    let mut number = 1u32;
    while !rest.is_empty() {
        let (line, behind) = next_line(rest);
        match push_numbered(alloc, &mut reading, number, line) {
            Ok(()) => {}
            Err(why) => return Err(why),
        }
        rest = behind;
        number += 1;
    }
    Ok(reading)
}

/// Returns a fault of the whole file.
fn fault_at_start(kind: DebugFaultKind) -> DebugError
    ensures { result ≡ Fault (record { line = 1; column = 1; kind = kind }) }
{
    DebugError::Fault(DebugFault {
        line: 1,
        column: 1,
        kind,
    })
}

/// Returns how many bytes the span of a use has.
fn use_size(info: &DebugInfo<'_>, used: Use) -> u64
    ensures size { result ≡ use_size (info_view info.now) used }
    ensures small { result < 2 ^ 32 }
{
    match record_at(&info.spans, used.span) {
        None => 0,
        Some(span) => span.size as u64,
    }
}

/// Returns whether the spans of all lines have too many bytes: each line that is shown is looked
/// for at each byte of its spans.
fn has_long_spans(info: &DebugInfo<'_>) -> bool
    ensures { result ≡ nat_lt most_spanned (spanned (info_view info.now)) }
{
    let mut total = 0u64;
    for used in info.uses.as_slice() {
        total += use_size(info, *used);
        if MOST_SPANNED < total {
            return true;
        }
    }
    false
}

/// Returns what all lines say, if there was a version, each reference is one to a record, and the
/// spans of lines have no more bytes than they may.
#[tactic(auto, unfolding(crate::specs::Reading::finished))]
fn finish<'a>(reading: Reading<'a>) -> Result<DebugInfo<'a>, DebugError>
    ensures { GivesInfo info_view result (finished (reading_view reading.entry)) }
{
    if !reading.is_versioned {
        return Err(fault_at_start(DebugFaultKind::NoVersion));
    }
    let Reading {
        is_versioned: _,
        info,
        references,
    } = reading;
    match first_missing(&info, references.as_slice()) {
        None if has_long_spans(&info) => Err(fault_at_start(DebugFaultKind::LongSpans)),
        None => Ok(info),
        Some(reference) => Err(DebugError::Fault(DebugFault {
            line: reference.line,
            column: reference.column,
            kind: DebugFaultKind::NoRecord,
        })),
    }
}

/// Reads a debug file of ld65, version 2.
///
/// The files, segments, symbols, spans, lines, modules, scopes and names of C are read, in any
/// order. Other records and fields are skipped. The names in the result are those of the text.
///
/// # Errors
///
/// `Fault` is the first fault of a line; if there is none, the first reference to a record that is
/// not there; if there is none, spans of lines with more than 16,777,216 bytes together. Refused is
/// a file of more than 16 MiB, 4,096 files, or 262,144 records of another word, or spans of lines.
/// `OutOfMemory` comes where an allocation failed.
#[tactic(auto, unfolding(crate::specs::Reading::debug_info))]
pub fn read_debug_info<'a>(alloc: Global, text: &'a [u8]) -> Result<DebugInfo<'a>, DebugError>
    ensures { GivesInfo info_view result (debug_info text.now) }
{
    if MOST_BYTES < text.len() {
        return Err(fault_at_start(DebugFaultKind::TooLarge));
    }
    let reading = read_lines(alloc, text)?;
    finish(reading)
}
