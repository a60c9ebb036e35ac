//! A listing or a report from its first line to its last.

ghost use Rattle.std.specs.Prelude.{◌≡◌, ◌≤◌, ◌<◌, ◌^◌, IfOk, None, length};
ghost use Rattle.model.specs.TextLines.{lines_of};
ghost use Rattle.debug_listings.specs.Reading.{nothing_read, reading_view};
ghost use Rattle.debug_listings.specs.Texts.{ended, finished, flushed_last, in_memory, is_listing, is_report};
ghost use Rattle.debug_listings.specs.Texts.{lines_read, listing_info, memory, report_info, text_info, with_text};
ghost use Rattle.debug_listings.specs.Report.{settled};
ghost use Rattle.debug_records.specs.Faults.{Gives, GivesInfo};
ghost use Rattle.debug_records.specs.Reading.{in_line, place_of};
ghost use Rattle.debug_records.specs.Views.{info_view, segment_view};
ghost use Rattle.debug_records.specs.declared.fault.DebugError.TheVariants.{Fault};

use crate::line::{begins, said_by};
use crate::listing::{take_columns, take_said};
use crate::reading::{Form, Reading, flush, nothing_read};
use crate::report::{settle, take_report_line};
use crate::report_line::report_line;
use debug_records::{
    DebugError, DebugFault, DebugFaultKind, DebugInfo, LineError, Place, Segment, fault_in,
};
use line_parts::next_line;
use std::alloc::{AllocError, Global};

/// The most bytes: 16 MiB.
const MOST_BYTES: usize = 16_777_216;

/// Returns whether a text begins as a listing of 64tass does, behind an empty line.
pub fn is_listing(text: &[u8]) -> bool
    ensures { result ≡ is_listing text.now }
{
    begins(text, b"\n; 64tass ") || begins(text, b"\r\n; 64tass ")
}

/// Returns whether a text begins as a report of ACME does, behind an empty line.
pub fn is_report(text: &[u8]) -> bool
    ensures { result ≡ is_report text.now }
{
    begins(text, b"\n; ******** Source: ") || begins(text, b"\r\n; ******** Source: ")
}

/// Takes a line, by the form of the text.
#[tactic(auto, unfolding(crate::specs::Texts::with_text))]
fn take_text<'a>(reading: &mut Reading<'a>, line: &'a [u8]) -> Result<(), LineError>
    ensures { Gives (λ _. reading_view reading.new) result
        (with_text line.now (reading_view reading.old)) }
{
    match reading.form {
        Form::Listing(None) => take_columns(reading, line),
        Form::Listing(Some(columns)) => {
            let said = said_by(columns.has_run, line)?;
            take_said(reading, line, said)
        }
        Form::Report(is_late) => {
            let shown = report_line(line)?;
            take_report_line(reading, line, is_late, shown)
        }
    }
}

/// Takes a line, and tells a fault with its place in the text.
fn take_numbered<'a>(
    reading: &mut Reading<'a>,
    number: u32,
    line: &'a [u8],
) -> Result<(), DebugError>
    requires { length line.now < 2 ^ 32 }
    ensures { GivesInfo (λ _. reading_view reading.new) result
        (in_line (place_of number line.now) (with_text line.now (reading_view reading.old))) }
{
    match take_text(reading, line) {
        Ok(()) => Ok(()),
        Err(LineError::Memory) => Err(DebugError::OutOfMemory),
        Err(LineError::Fault(fault)) => {
            let place = Place {
                line: number,
                length: line.len(),
            };
            Err(DebugError::Fault(fault_in(place, fault)))
        }
    }
}

/// Reads the lines of a text.
fn read_lines<'a>(alloc: Global, form: Form, text: &'a [u8]) -> Result<Reading<'a>, DebugError>
    requires { length text.now ≤ 2 ^ 24 }
    ensures { GivesInfo reading_view result
        (lines_read 1 (lines_of text.now) (nothing_read form)) }
{
    let mut reading = nothing_read(alloc, form);
    let mut rest = text;
    let mut number = 1u32;
    while !rest.is_empty() {
        let (line, behind) = next_line(rest);
        match take_numbered(&mut reading, number, line) {
            Ok(()) => {}
            Err(why) => return Err(why),
        }
        rest = behind;
        number += 1;
    }
    Ok(reading)
}

/// Returns a fault of the whole text.
fn fault_at_start(kind: DebugFaultKind) -> DebugError
    ensures { result ≡ Fault (record { line = 1; column = 1; kind = kind }) }
{
    DebugError::Fault(DebugFault {
        line: 1,
        column: 1,
        kind,
    })
}

/// Appends the row of the last bytes, behind the last line.
fn flush_last(reading: &mut Reading<'_>) -> Result<(), DebugError>
    ensures { GivesInfo (λ _. reading_view reading.new) result
        (flushed_last (reading_view reading.old)) }
{
    match flush(reading, b"") {
        Ok(()) => Ok(()),
        Err(LineError::Memory) => Err(DebugError::OutOfMemory),
        Err(LineError::Fault(fault)) => {
            let place = Place { line: 1, length: 0 };
            Err(DebugError::Fault(fault_in(place, fault)))
        }
    }
}

/// Returns the segment of all of memory.
fn memory<'a>() -> Segment<'a>
    ensures { segment_view result ≡ memory }
{
    Segment {
        name: b"",
        start: 0,
        size: 65536,
        is_read_only: true,
        output: None,
    }
}

/// Returns records whose segment is all of memory.
fn in_memory<'a>(alloc: Global, info: DebugInfo<'a>) -> Result<DebugInfo<'a>, AllocError>
    ensures { IfOk result (λ made. info_view made ≡ in_memory (info_view info.entry)) }
{
    let mut segments = Vec::new(alloc);
    segments.push(Some(memory()))?;
    Ok(DebugInfo { segments, ..info })
}

/// Returns the records that were read, with the row of the last bytes.
fn end<'a>(alloc: Global, reading: Reading<'a>) -> Result<DebugInfo<'a>, DebugError>
    ensures { GivesInfo info_view result (ended (reading_view reading.entry)) }
{
    let mut reading = reading;
    flush_last(&mut reading)?;
    let Reading {
        form: _,
        file: _,
        last: _,
        info,
    } = reading;
    match in_memory(alloc, info) {
        Ok(info) => Ok(info),
        Err(_) => Err(DebugError::OutOfMemory),
    }
}

/// Returns what all lines of a report say.
fn end_report<'a>(alloc: Global, reading: Reading<'a>) -> Result<DebugInfo<'a>, DebugError>
    ensures { GivesInfo info_view result
        (ended (settled None (reading_view reading.entry))) }
{
    let mut reading = reading;
    settle(&mut reading, None);
    end(alloc, reading)
}

/// Returns what all lines say, if the columns of a listing were named.
#[tactic(auto, unfolding(crate::specs::Texts::finished))]
fn finish<'a>(alloc: Global, reading: Reading<'a>) -> Result<DebugInfo<'a>, DebugError>
    ensures { GivesInfo info_view result (finished (reading_view reading.entry)) }
{
    match reading.form {
        Form::Listing(None) => Err(fault_at_start(DebugFaultKind::NoColumns)),
        Form::Listing(Some(_)) => end(alloc, reading),
        Form::Report(_) => end_report(alloc, reading),
    }
}

/// Reads a text of a form.
#[tactic(auto, unfolding(crate::specs::Texts::text_info))]
fn read_text<'a>(alloc: Global, form: Form, text: &'a [u8]) -> Result<DebugInfo<'a>, DebugError>
    ensures { GivesInfo info_view result (text_info form text.now) }
{
    if MOST_BYTES < text.len() {
        return Err(fault_at_start(DebugFaultKind::TooLarge));
    }
    let reading = read_lines(alloc, form, text)?;
    finish(alloc, reading)
}

/// Reads a listing of 64tass, with numbers of lines.
///
/// The names in the result are those of the text. A listing says nothing of the sizes of sources,
/// and gives no names of addresses.
///
/// # Errors
///
/// `Fault` is the first fault of a line. A listing of more than 16 MiB, 4,096 files, or 262,144
/// rows is refused. `OutOfMemory` comes where an allocation failed.
pub fn read_listing<'a>(alloc: Global, text: &'a [u8]) -> Result<DebugInfo<'a>, DebugError>
    ensures { GivesInfo info_view result (listing_info text.now) }
{
    read_text(alloc, Form::Listing(None), text)
}

/// Reads a report of ACME.
///
/// As of a listing, but bytes have rows where they are loaded. A line has a row for those of its
/// bytes of which the report shows that they are the line's, and where they are.
///
/// # Errors
///
/// Those of `read_listing`.
pub fn read_report<'a>(alloc: Global, text: &'a [u8]) -> Result<DebugInfo<'a>, DebugError>
    ensures { GivesInfo info_view result (report_info text.now) }
{
    read_text(alloc, Form::Report(false), text)
}
