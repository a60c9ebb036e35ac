//! What a report of ACME adds to what was read.

ghost use Rattle.std.specs.Prelude.{◌≡◌, map, position};
ghost use Rattle.std.specs.Option.{option_map};
ghost use Rattle.debug_listings.specs.Reading.{reading_view};
ghost use Rattle.debug_listings.specs.Report.{begins_behind, begun_in, behind_line, is_late, is_named};
ghost use Rattle.debug_listings.specs.Report.{known, number_of, settled, with_report_line, with_shown};
ghost use Rattle.debug_listings.specs.Report.{with_shown_if, with_source};
ghost use Rattle.debug_listings.specs.ReportLines.{line_view};
ghost use Rattle.debug_records.specs.Faults.{Gives};
ghost use Rattle.debug_records.specs.Views.{file_view};

use crate::line::fault_at;
use crate::reading::{Form, MOST_FILES, Reading, Span, flush, take_file};
use crate::report_line::{ReportBytes, ReportLine};
use debug_records::{DebugFaultKind, File, LineError};

/// Returns whether a file has a name.
fn is_named(name: &[u8], file: Option<File<'_>>) -> bool
    ensures { result ≡ is_named name.now (option_map file_view file.entry) }
{
    match file {
        None => false,
        Some(file) => file.name == name,
    }
}

/// Returns where the file of a name is held.
fn held_at(name: &[u8], files: &[Option<File<'_>>]) -> Option<usize>
    ensures { result ≡ position (λ file. is_named name.now (option_map file_view file)) files.now }
{
    files.iter().position(|file| is_named(name, *file))
}

/// Returns where the file of a name stands.
fn place_of(name: &[u8], files: &[Option<File<'_>>]) -> Option<usize>
    ensures { result ≡ position (is_named name.now) (map (option_map file_view) files.now) }
{
    held_at(name, files)
}

/// Returns the number of the file of a name, which is the next one if there is none.
fn number_of(name: &[u8], files: &[Option<File<'_>>]) -> usize
    ensures { result ≡ number_of name.now (map (option_map file_view) files.now) }
{
    match place_of(name, files) {
        None => files.len(),
        Some(at) => at,
    }
}

/// Takes the head of a file.
fn take_source<'a>(reading: &mut Reading<'a>, line: &[u8], name: &'a [u8]) -> Result<(), LineError>
    ensures { Gives (λ _. reading_view reading.new) result
        (with_source line.now name.now (reading_view reading.old)) }
{
    let number = number_of(name, reading.info.files.as_slice());
    if MOST_FILES as usize <= number {
        return Err(LineError::Fault(fault_at(DebugFaultKind::TooMany, line)));
    }
    let is_late = !reading.info.files.is_empty();
    reading.form = Form::Report(is_late);
    take_file(reading, line, number as u32, name)
}

/// Returns whether an address is the one behind some bytes.
fn begins_behind(span: Span, next: Option<u16>) -> bool
    ensures { result ≡ begins_behind span next }
{
    match next {
        None => false,
        Some(next) => span.start as u64 + span.size as u64 == next as u64,
    }
}

/// Returns bytes as far as it is known where they are: all, or the first one.
fn known(span: Span, next: Option<u16>) -> Span
    ensures { result ≡ known next span }
{
    if span.is_close || begins_behind(span, next) {
        span
    } else {
        Span { size: 1, ..span }
    }
}

/// Keeps of the bytes that were read last those of which it is known where they are.
pub fn settle(reading: &mut Reading<'_>, next: Option<u16>)
    ensures { reading_view reading.new ≡ settled next (reading_view reading.old) }
{
    reading.last = match reading.last {
        None => None,
        Some(span) => Some(known(span, next)),
    };
}

/// Returns the bytes of a line, if they are its own.
fn begun_in(file: Option<u32>, is_late: bool, line: u32, bytes: ReportBytes) -> Option<Span>
    ensures { result ≡ begun_in file is_late line bytes }
{
    let file = file?;
    if is_late {
        return None;
    }
    Some(Span {
        file,
        line,
        start: bytes.start,
        size: bytes.count as u32,
        is_data: false,
        is_close: bytes.is_close,
    })
}

/// Takes the bytes of a row.
fn take_shown(
    reading: &mut Reading<'_>,
    line: &[u8],
    is_late: bool,
    number: u32,
    bytes: ReportBytes,
) -> Result<(), LineError>
    ensures { Gives (λ _. reading_view reading.new) result
        (with_shown line.now is_late number bytes (reading_view reading.old)) }
{
    settle(reading, Some(bytes.start));
    flush(reading, line)?;
    reading.last = begun_in(reading.file, is_late, number, bytes);
    Ok(())
}

/// Takes the bytes of a row, if it has some.
fn take_shown_if(
    reading: &mut Reading<'_>,
    line: &[u8],
    is_late: bool,
    number: u32,
    bytes: Option<ReportBytes>,
) -> Result<(), LineError>
    ensures { Gives (λ _. reading_view reading.new) result
        (with_shown_if line.now is_late number bytes (reading_view reading.old)) }
{
    match bytes {
        None => Ok(()),
        Some(bytes) => take_shown(reading, line, is_late, number, bytes),
    }
}

/// Forgets which file is read if it ended.
fn pass_line(reading: &mut Reading<'_>, ends_file: bool)
    ensures { reading_view reading.new ≡ behind_line ends_file (reading_view reading.old) }
{
    reading.form = Form::Report(false);
    if ends_file {
        reading.file = None;
    }
}

/// Takes what a line says.
pub fn take_report_line<'a>(
    reading: &mut Reading<'a>,
    line: &[u8],
    is_late: bool,
    shown: ReportLine<'a>,
) -> Result<(), LineError>
    ensures { Gives (λ _. reading_view reading.new) result
        (with_report_line line.now is_late (line_view shown.entry) (reading_view reading.old)) }
{
    match shown {
        ReportLine::Nothing => Ok(()),
        ReportLine::Head(name) => take_source(reading, line, name),
        ReportLine::Row {
            line: number,
            bytes,
            ends_file,
        } => {
            pass_line(reading, ends_file);
            take_shown_if(reading, line, is_late, number, bytes)
        }
    }
}
