//! Which bytes came from which line.

ghost use Rattle.std.specs.Prelude.{◌≡◌, ◌++◌, IfOk, None, OnOk, false, map, option_map};
ghost use Rattle.std.specs.Option.{option_to_list};
ghost use Rattle.debug_records.specs.Rows.{best_of, better, clear_rows, covers, has_no_code, is_better, is_clear};
ghost use Rattle.debug_records.specs.Rows.{is_narrower, is_parameter, is_shared, meets, passes, rank, row_of};
ghost use Rattle.debug_records.specs.Rows.{row_with, rows_at, rows_of, shown_at, size_of, with_row};
ghost use Rattle.debug_records.specs.Views.{info_view, segment_view};

use crate::info::{DebugInfo, Use, is_ambiguous, record_at};
use crate::record::{Line, LineKind, Segment, Span};
use crate::row::{Row, Wanted};
use std::alloc::{AllocError, Global};

/// Returns whether a line is the text of a macro's parameter.
fn is_parameter(kind: LineKind) -> bool
    ensures { result ≡ is_parameter kind }
{
    match kind {
        LineKind::Assembler | LineKind::C | LineKind::Macro => false,
        LineKind::Parameter => true,
    }
}

/// Returns whether a segment has no code: it can be written, and no file has its bytes.
fn has_no_code(segment: Segment<'_>) -> bool
    ensures { result ≡ has_no_code (segment_view segment.entry) }
{
    !segment.is_read_only && segment.output.is_none()
}

/// Returns the row of a span of a line, unless it is the text of a parameter.
fn row_with(line: Line, span: Span, segment: Segment<'_>) -> Option<Row>
    ensures { result ≡ row_with line span (segment_view segment.entry) }
{
    if is_parameter(line.kind) {
        return None;
    }
    let start = segment.start as u64 + span.start as u64;
    Some(Row {
        file: line.file,
        line: line.line,
        kind: line.kind,
        depth: line.depth,
        start,
        end: start + span.size as u64,
        has_code: !has_no_code(segment),
        is_data: span.is_data || has_no_code(segment),
    })
}

/// Returns the row of a span of a line.
#[tactic(auto, unfolding(crate::specs::Rows::row_of))]
fn row_of(info: &DebugInfo<'_>, used: Use) -> Option<Row>
    ensures { result ≡ row_of (info_view info.now) used }
{
    let line = record_at(&info.lines, used.line)?;
    let span = record_at(&info.spans, used.span)?;
    let segment = record_at(&info.segments, span.segment)?;
    row_with(line, span, segment)
}

/// Appends a row, if there is one.
fn push_some(rows: &mut Vec<Row>, row: Option<Row>) -> Result<(), AllocError>
    ensures { OnOk result (rows.new.items ≡ rows.old.items ++ option_to_list row) }
{
    if let Some(row) = row {
        rows.push(row)?;
    }
    Ok(())
}

/// Returns a row for each span of each line, in the order of the file. The only error is that an
/// allocation failed.
pub fn rows_of(alloc: Global, info: &DebugInfo<'_>) -> Result<Vec<Row>, AllocError>
    ensures { IfOk result (λ rows. rows.items ≡ rows_of (info_view info.now)) }
{
    let mut rows = Vec::new(alloc);
    for used in info.uses.as_slice() {
        push_some(&mut rows, row_of(info, *used))?;
    }
    Ok(rows)
}

/// Returns whether a row and a segment have an address together: of a row with code, a segment that
/// has code too.
fn meets(row: Row, segment: Option<Segment<'_>>) -> bool
    ensures { result ≡ meets row (option_map segment_view segment.entry) }
{
    match segment {
        None => false,
        Some(segment) => {
            let start = segment.start as u64;
            !(row.has_code && has_no_code(segment))
                && segment.size > 0
                && row.start < start + segment.size as u64
                && start < row.end
        }
    }
}

/// Returns whether a row has an address together with two segments.
fn is_shared(row: Row, segments: &[Option<Segment<'_>>]) -> bool
    ensures { result ≡ is_shared row false (map (option_map segment_view) segments.now) }
{
    let mut is_found = false;
    for segment in segments {
        if meets(row, *segment) {
            if is_found {
                return true;
            }
            is_found = true;
        }
    }
    false
}

/// Returns whether a row is told apart from others: its file is one, and its bytes are those of one
/// segment.
fn is_clear(info: &DebugInfo<'_>, row: Row) -> bool
    ensures { result ≡ is_clear (info_view info.now) row }
{
    !is_ambiguous(info, row.file) && !is_shared(row, info.segments.as_slice())
}

/// Returns the rows that are told apart from others. The only error is that an allocation failed.
pub fn clear_rows(alloc: Global, info: &DebugInfo<'_>, rows: &[Row]) -> Result<Vec<Row>, AllocError>
    ensures { IfOk result (λ clear. clear.items ≡ clear_rows (info_view info.now) rows.now) }
{
    let mut clear = Vec::new(alloc);
    for row in rows {
        if is_clear(info, *row) {
            clear.push(*row)?;
        }
    }
    Ok(clear)
}

/// Returns whether a row has the byte at an address.
fn covers(address: u64, row: Row) -> bool
    ensures { result ≡ covers address row }
{
    row.start <= address && address < row.end
}

/// Returns the rows that have the byte at an address. The only error is that an allocation failed.
pub fn rows_at(alloc: Global, rows: &[Row], address: u64) -> Result<Vec<Row>, AllocError>
    ensures { IfOk result (λ found. found.items ≡ rows_at rows.now address) }
{
    let mut found = Vec::new(alloc);
    for row in rows {
        if covers(address, *row) {
            found.push(*row)?;
        }
    }
    Ok(found)
}

/// Returns how many bytes a row has.
pub fn size_of(row: Row) -> u64
    ensures { result ≡ size_of row }
{
    row.end.saturating_sub(row.start)
}

/// Returns which kinds of lines are shown before others: the lower number first.
fn rank(kind: LineKind) -> u8
    ensures { result ≡ rank kind }
{
    match kind {
        LineKind::C => 0,
        LineKind::Assembler => 1,
        LineKind::Macro => 2,
        LineKind::Parameter => 3,
    }
}

/// Returns whether a row has fewer bytes than another, or as many and stands deeper.
fn is_narrower(row: Row, other: Row) -> bool
    ensures { result ≡ is_narrower row other }
{
    size_of(row) < size_of(other) || size_of(row) == size_of(other) && other.depth < row.depth
}

/// Returns whether a row comes before another one.
fn is_better(wanted: Wanted, row: Row, other: Row) -> bool
    ensures { result ≡ is_better wanted row other }
{
    match wanted {
        Wanted::Shown => {
            rank(row.kind) < rank(other.kind)
                || rank(row.kind) == rank(other.kind) && is_narrower(row, other)
        }
        Wanted::Begun => is_narrower(row, other),
    }
}

/// Returns the better one of two rows, and the first if neither is.
pub fn better(wanted: Wanted, best: Option<Row>, row: Row) -> Row
    ensures { result ≡ better wanted best row }
{
    match best {
        None => row,
        Some(best) => {
            if is_better(wanted, row, best) {
                row
            } else {
                best
            }
        }
    }
}

/// Returns whether a row is among those that are looked for at an address.
fn passes(wanted: Wanted, address: u64, row: Row) -> bool
    ensures { result ≡ passes wanted address row }
{
    match wanted {
        Wanted::Shown => covers(address, row),
        Wanted::Begun => covers(address, row) && row.start == address,
    }
}

/// Returns the best row of an address so far, with one more.
fn with_row(wanted: Wanted, address: u64, best: Option<Row>, row: Row) -> Option<Row>
    ensures { result ≡ with_row wanted address best row }
{
    if passes(wanted, address, row) {
        Some(better(wanted, best, row))
    } else {
        best
    }
}

/// Returns the best row of an address.
fn best_of(wanted: Wanted, rows: &[Row], address: u64) -> Option<Row>
    ensures { result ≡ best_of wanted address None rows.now }
{
    let mut best = None;
    for row in rows {
        best = with_row(wanted, address, best, *row);
    }
    best
}

/// Returns the row that is shown for an address: the narrowest row of C; otherwise the line that
/// the author wrote; otherwise the narrowest of all.
pub fn shown_at(rows: &[Row], address: u64) -> Option<Row>
    ensures { result ≡ shown_at rows.now address }
{
    best_of(Wanted::Shown, rows, address)
}
