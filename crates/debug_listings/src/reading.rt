//! What was read of a listing or a report so far.

ghost use Rattle.std.specs.Prelude.{◌≡◌, OnOk, length};
ghost use Rattle.debug_listings.specs.Reading.{flushed, nothing_read, reading_view, with_file, with_row};
ghost use Rattle.debug_records.specs.Faults.{Gives};
ghost use Rattle.debug_records.specs.Info.{put_at};
ghost use Rattle.debug_records.specs.Views.{info_view};

use crate::line::fault_at;
use debug_records::{
    DebugFaultKind, DebugInfo, File, Line, LineError, LineKind, Span as DebugSpan, Use, grow,
    no_info,
};
use std::alloc::{AllocError, Global};

/// The most files.
pub const MOST_FILES: u32 = 4096;

/// The most rows.
const MOST_ROWS: usize = 262_144;

/// Bytes of a line, from `start` on.
#[derive(Clone, Copy)]
pub struct Span {
    pub file: u32,
    pub line: u32,
    pub start: u16,
    pub size: u32,
    pub is_data: bool,
    /// Whether they are surely one behind another.
    pub is_close: bool,
}

/// The columns of a listing.
#[derive(Clone, Copy)]
pub struct Columns {
    /// Whether there is one of the addresses where bytes run.
    pub has_run: bool,
    /// How many bytes of data the first row of a line has, where others follow; and each of these
    /// has 16.
    pub first: u8,
}

/// The form of a text, and what its lines said of it so far.
#[derive(Clone, Copy)]
pub enum Form {
    /// A listing of 64tass: its columns, if they were named.
    Listing(Option<Columns>),
    /// A report of ACME: whether bytes of a line that is not shown may come with the next one.
    Report(bool),
}

/// What was read so far: the form; the file that is read, if it is known; the bytes that were read
/// last; and the records of the lines before them.
#[derive(Drop)]
pub struct Reading<'a> {
    pub form: Form,
    pub file: Option<u32>,
    pub last: Option<Span>,
    pub info: DebugInfo<'a>,
}

/// Returns what was read of no line.
pub fn nothing_read<'a>(alloc: Global, form: Form) -> Reading<'a>
    ensures { reading_view result ≡ nothing_read form }
{
    Reading {
        form,
        file: None,
        last: None,
        info: no_info(alloc),
    }
}

/// Appends the row of some bytes: a line, a span, and the use of one by the other.
fn push_row(info: &mut DebugInfo<'_>, number: u32, row: Span) -> Result<(), AllocError>
    requires { number ≡ length (info_view info.old).uses }
    ensures { OnOk result (info_view info.new ≡ with_row row (info_view info.old)) }
{
    info.spans.push(Some(DebugSpan {
        segment: 0,
        start: row.start as u32,
        size: row.size,
        is_data: row.is_data,
    }))?;
    info.lines.push(Some(Line {
        file: row.file,
        line: row.line,
        kind: LineKind::Assembler,
        depth: 0,
    }))?;
    info.uses.push(Use {
        line: number,
        span: number,
    })?;
    Ok(())
}

/// Appends the row of the bytes that were read last, if there are some.
pub fn flush(reading: &mut Reading<'_>, line: &[u8]) -> Result<(), LineError>
    ensures { Gives (λ _. reading_view reading.new) result
        (flushed line.now (reading_view reading.old)) }
{
    let Some(row) = reading.last else {
        return Ok(());
    };
    let count = reading.info.uses.len();
    if MOST_ROWS <= count {
        return Err(LineError::Fault(fault_at(DebugFaultKind::TooMany, line)));
    }
    push_row(&mut reading.info, count as u32, row)?;
    reading.last = None;
    Ok(())
}

/// Puts a record at its number.
fn put<T: Copy>(table: &mut Vec<Option<T>>, number: u32, item: T) -> Result<(), AllocError>
    ensures { OnOk result (table.new.items ≡ put_at table.old.items number item) }
{
    let at = number as usize;
    grow(table, at + 1)?;
    table[at] = Some(item);
    Ok(())
}

/// Takes the name of the file of a number, which is read from here on.
pub fn take_file<'a>(
    reading: &mut Reading<'a>,
    line: &[u8],
    number: u32,
    name: &'a [u8],
) -> Result<(), LineError>
    ensures { Gives (λ _. reading_view reading.new) result
        (with_file line.now number name.now (reading_view reading.old)) }
{
    if MOST_FILES <= number {
        return Err(LineError::Fault(fault_at(DebugFaultKind::TooMany, line)));
    }
    put(&mut reading.info.files, number, File { name, size: None })?;
    reading.file = Some(number);
    Ok(())
}
