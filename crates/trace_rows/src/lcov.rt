//! How often the lines of a source were run, as lcov reads it.
#![tactic(auto)]

ghost use Rattle.std.specs.Prelude.{◌≡◌, ◌++◌, IfOk, None, OnOk, codes, map};
ghost use Rattle.std.specs.List.{flat_map};
ghost use Rattle.trace_rows.specs.Records.{begins_in, is_below, line_behind, line_text};
ghost use Rattle.trace_rows.specs.Records.{lines_from};
ghost use Rattle.trace_rows.specs.Records.{lines_text, name_byte, record_text, record_with};
ghost use Rattle.trace_rows.specs.Records.{records_text, row_text, run_text, visits_from};
ghost use Rattle.trace_rows.specs.Records.{with_begun, with_visits};

use accesses::Tally;
use assembler::Assembly;
use formatting::{push_count, push_text};
use source_map::{Places, Row, rows_of};
use std::alloc::{AllocError, Global};

/// Appends a line, and how often it was run.
fn push_run(text: &mut Vec<u8>, line: u64, visits: u64) -> Result<(), AllocError>
    ensures { OnOk result (text.new.items ≡ text.old.items ++ run_text line visits) }
{
    push_text(text, "DA:")?;
    push_count(text, line)?;
    push_text(text, ",")?;
    push_count(text, visits)?;
    push_text(text, "\n")
}

/// Appends the row of a line.
#[tactic(auto, unfolding(crate::specs::Records::row_text))]
fn push_row(text: &mut Vec<u8>, tally: &Tally, row: &Row) -> Result<(), AllocError>
    ensures { OnOk result (text.new.items ≡ text.old.items ++ row_text tally.now row.now) }
{
    push_run(text, row.line as u64, tally.at(row.address).visits)
}

/// Appends the row of a line, if that is an instruction.
fn push_line(text: &mut Vec<u8>, tally: &Tally, row: &Row) -> Result<(), AllocError>
    ensures { OnOk result (text.new.items ≡ text.old.items ++ line_text tally.now row.now) }
{
    if row.is_instruction {
        push_row(text, tally, row)
    } else {
        Ok(())
    }
}

/// Appends the rows of lines.
fn push_lines(text: &mut Vec<u8>, tally: &Tally, rows: &[Row]) -> Result<(), AllocError>
    ensures { OnOk result
        (text.new.items ≡ text.old.items ++ flat_map (line_text tally.now) rows.now) }
{
    for row in rows {
        push_line(text, tally, row)?;
    }
    Ok(())
}

/// Returns a byte of a file's name as the record shows it.
fn name_byte(byte: u8) -> u8
    ensures { result ≡ name_byte byte }
{
    if byte < 32 || byte == 127 { b'?' } else { byte }
}

/// Appends the name of a file.
fn push_name(text: &mut Vec<u8>, name: &[u8]) -> Result<(), AllocError>
    ensures { OnOk result (text.new.items ≡ text.old.items ++ map name_byte name.now) }
{
    for byte in name {
        text.push(name_byte(*byte))?;
    }
    Ok(())
}

/// Appends what a record begins with: the name of its file.
fn push_front(text: &mut Vec<u8>, file: &[u8]) -> Result<(), AllocError>
    ensures { OnOk result (text.new.items
        ≡ text.old.items ++ (codes "SF:" ++ map name_byte file.now ++ codes "\n")) }
{
    push_text(text, "SF:")?;
    push_name(text, file)?;
    push_text(text, "\n")
}

/// What a record ends with.
const END: &str = "end_of_record\n";

/// Appends the record of a source: the name of its file, and for each line that is an instruction
/// how often a step began there. A control byte of the name is shown as `?`, so that the name has
/// one line.
///
/// Errors: `AllocError` if an allocation fails.
#[tactic(auto, unfolding(crate::specs::Records::record_text))]
pub fn push_record(
    text: &mut Vec<u8>,
    alloc: Global,
    file: &[u8],
    assembly: &Assembly,
    tally: &Tally,
) -> Result<(), AllocError>
    ensures { OnOk result (text.new.items
        ≡ text.old.items ++ record_text file.now assembly.now tally.now) }
{
    let rows = rows_of(alloc, assembly)?;
    push_front(text, file)?;
    push_lines(text, tally, &rows)?;
    push_text(text, END)
}

/// Returns whether a row is an instruction of a file, and a line begins there.
fn begins_in(file: u64, row: &Row) -> bool
    ensures { result ≡ begins_in file row.now }
{
    row.file as u64 == file && row.begins_line && row.is_instruction
}

/// Returns whether a line is below the best so far.
fn is_below(line: u64, best: Option<u64>) -> bool
    ensures { result ≡ is_below line best }
{
    match best {
        None => true,
        Some(best) => line < best,
    }
}

/// Returns the line of a row that begins one, if that is behind a line, and below the best so far.
fn with_begun(file: u64, line: u64, best: Option<u64>, row: &Row) -> Option<u64>
    ensures { result ≡ with_begun file line best row.now }
{
    let begun = row.line as u64;
    if begins_in(file, row) && line < begun && is_below(begun, best) {
        Some(begun)
    } else {
        best
    }
}

/// Returns the lowest line of a file behind a line, of those that begin in rows.
#[tactic(auto, unfolding(crate::specs::Records::line_behind))]
fn line_behind(file: u64, line: u64, rows: &[Row]) -> Option<u64>
    ensures { result ≡ line_behind file line None rows.now }
{
    let mut best = None;
    for row in rows {
        best = with_begun(file, line, best, row);
    }
    best
}

/// Returns the lines of a file that begin in rows, in their order.
#[tactic(auto, unfolding(crate::specs::Records::lines_from))]
fn lines_of_file(alloc: Global, rows: &[Row], file: u64) -> Result<Vec<u64>, AllocError>
    ensures { IfOk result (λ lines. lines.items ≡ lines_from rows.now file 0 rows.now) }
{
    let mut lines = Vec::new(alloc);
    let mut line = 0u64;
    let mut left = rows;
    while let [_, behind @ ..] = left {
        let Some(next) = line_behind(file, line, rows) else {
            return Ok(lines);
        };
        lines.push(next)?;
        line = next;
        left = behind;
    }
    Ok(lines)
}

/// Returns how often a line was run, or the most so far, by one more row.
fn with_visits(tally: &Tally, file: u64, line: u64, most: u64, row: &Row) -> u64
    ensures { result ≡ with_visits tally.now file line most row.now }
{
    if begins_in(file, row) && row.line as u64 == line {
        most.max(tally.at(row.address).visits)
    } else {
        most
    }
}

/// Returns how often a line of a file was run.
#[tactic(auto, unfolding(crate::specs::Records::visits_from))]
fn visits_of(tally: &Tally, file: u64, line: u64, rows: &[Row]) -> u64
    ensures { result ≡ visits_from tally.now file line 0 rows.now }
{
    let mut most = 0u64;
    for row in rows {
        most = with_visits(tally, file, line, most, row);
    }
    most
}

/// Appends the rows of lines of a file.
fn push_runs(
    text: &mut Vec<u8>,
    tally: &Tally,
    rows: &[Row],
    file: u64,
    lines: &[u64],
) -> Result<(), AllocError>
    ensures { OnOk result (text.new.items
        ≡ text.old.items ++ lines_text tally.now rows.now file lines.now) }
{
    for line in lines {
        push_run(text, *line, visits_of(tally, file, *line, rows))?;
    }
    Ok(())
}

/// Appends the record of a file in which some lines begin, if there is a line.
fn push_record_with(
    text: &mut Vec<u8>,
    tally: &Tally,
    rows: &[Row],
    file: u64,
    name: &[u8],
    lines: &[u64],
) -> Result<(), AllocError>
    ensures { OnOk result (text.new.items
        ≡ text.old.items ++ record_with tally.now rows.now file name.now lines.now) }
{
    if lines.is_empty() {
        return Ok(());
    }
    push_front(text, name)?;
    push_runs(text, tally, rows, file, lines)?;
    push_text(text, END)
}

/// Appends the record of a file, if a line of it begins in rows.
fn push_file(
    text: &mut Vec<u8>,
    alloc: Global,
    tally: &Tally,
    rows: &[Row],
    file: u64,
    name: &[u8],
) -> Result<(), AllocError>
    ensures { OnOk result (text.new.items ≡ text.old.items
        ++ record_with tally.now rows.now file name.now (lines_from rows.now file 0 rows.now)) }
{
    let lines = lines_of_file(alloc, rows, file)?;
    push_record_with(text, tally, rows, file, name, lines.as_slice())
}

/// Appends the records of the files of which lines are shown for a program, by its places: each has
/// the file's name as its debug information says it, and for each line that begins there with an
/// instruction how often it was run. A line that begins at several places was run as often as the
/// busiest of them.
///
/// Errors: `AllocError` if an allocation fails.
#[tactic(auto, unfolding(crate::specs::Records::records_from))]
pub fn push_records(
    text: &mut Vec<u8>,
    alloc: Global,
    places: &Places,
    tally: &Tally,
) -> Result<(), AllocError>
    ensures { OnOk result (text.new.items
        ≡ text.old.items ++ records_text places.now tally.now) }
{
    let rows = places.rows();
    let sources = places.sources();
    for (file, source) in sources.iter().enumerate() {
        push_file(
            text,
            alloc,
            tally,
            rows,
            file as u64,
            source.name.as_slice(),
        )?;
    }
    Ok(())
}
