//! All lines of a test file.

ghost use Rattle.std.specs.Prelude.{◌≡◌, ◌≢◌, ◌<◌, ◌+◌, ◌-◌, ◌++◌, ◌∷◌, [], length, IfErr, IfOk, map};
ghost use Rattle.model.specs.TextLines.{lines_of};
ghost use Rattle.t65_reader.specs.CPrograms.{program_view};
ghost use Rattle.t65_reader.specs.RowText.{Rows, asking_view, fault_before, fault_in, is_around};
ghost use Rattle.t65_reader.specs.RowText.{line_before};
ghost use Rattle.t65_reader.specs.RowText.{line_of, line_view, points_in, points_of};
ghost use Rattle.t65_reader.specs.RowText.{rows_after, rows_from};

use crate::c_program::CProgram;
use crate::line::{is_around, points_in, read_row, worth_of};
use crate::row::{Asking, Faulty, Line};
use assembler::Assembly;
use line_parts::next_line;
use std::alloc::Global;
use t65_values::{RowFault, RowFaultKind, TextFault};

/// The fault of a line, with its column.
pub fn fault_of(number: u32, line: &[u8], fault: RowFault) -> TextFault
    ensures { result ≡ fault_in number line.now fault }
{
    TextFault {
        line: number,
        column: line.len().saturating_sub(fault.left) + 1,
        kind: fault.kind,
    }
}

/// Appends what a line asks for.
fn push_one(lines: &mut Vec<Line>, number: u32, line: Line) -> Result<(), TextFault>
    ensures ok { IfOk result (λ _. map line_view lines.new.items
        ≡ map line_view lines.old.items ++ line_view line ∷ []) }
    ensures err { IfErr result (λ fault. fault.kind ≡ RowFaultKind.OutOfMemory) }
{
    lines.push(line).map_err(|_| memory_fault(number))
}

/// Appends a row that cannot be read; refuses the text where it would be run before or after each
/// row.
fn push_faulty(lines: &mut Vec<Line>, line: &[u8], fault: TextFault) -> Result<(), TextFault>
    ensures ok { IfOk result (λ _. (behind : Rows) → rows_after (map line_view lines.old.items)
        (fault_before (is_around line.now) (points_in line.now) fault behind)
        ≡ rows_after (map line_view lines.new.items) behind) }
    ensures err { IfErr result (λ told. told.kind ≢ RowFaultKind.OutOfMemory → (behind : Rows)
        → fault_before (is_around line.now) (points_in line.now) fault behind ≡ Err told) }
{
    if is_around(line) {
        return Err(fault);
    }
    let points = points_in(line);
    push_one(lines, fault.line, Line::Faulty(Faulty { fault, points }))?;
    Ok(())
}

/// Reads a line, and appends what it asks for, if it does for something.
fn push_line(
    alloc: Global,
    names: &Assembly,
    program: &CProgram,
    asking: Asking<'_>,
    lines: &mut Vec<Line>,
    number: u32,
    line: &[u8],
) -> Result<(), TextFault>
    ensures ok { IfOk result (λ _. (behind : Rows) → rows_after (map line_view lines.old.items)
        (line_before number line.now
        (line_of (asking_view asking.entry) names.now.names (program_view program.now) line.now)
        behind)
        ≡ rows_after (map line_view lines.new.items) behind) }
    ensures err { IfErr result (λ fault. fault.kind ≢ RowFaultKind.OutOfMemory → (behind : Rows)
        → line_before number line.now
        (line_of (asking_view asking.entry) names.now.names (program_view program.now) line.now)
        behind ≡ Err fault) }
{
    match read_row(alloc, names, program, asking, line) {
        Ok(Some(row)) => {
            push_one(lines, number, Line::Row((number, row)))?;
            Ok(())
        }
        Ok(None) => Ok(()),
        Err(fault) => match fault.kind {
            RowFaultKind::OutOfMemory => Err(memory_fault(number)),
            _ => push_faulty(lines, line, fault_of(number, line, fault)),
        },
    }
}

/// Reads the rows of a text under the names of a source, as they are asked for, also those that
/// cannot be read. The first line of the text has the number `first`.
///
/// # Errors
///
/// The fault, as `read_row` tells it, of the first line that has one and says what is run before or
/// after each row. `OutOfMemory` comes where a request for memory was refused, and in place of no
/// other fault of an earlier line.
pub fn read_rows(
    alloc: Global,
    names: &Assembly,
    program: &CProgram,
    first: u32,
    asking: Asking<'_>,
    text: &[u8],
) -> Result<Vec<Line>, TextFault>
    requires { first + length text.now < 4294967296 }
    ensures ok { IfOk result
        (λ lines. rows_from (asking_view asking.entry) names.now.names
        (program_view program.now) first (lines_of text.now)
        ≡ Ok (map line_view lines.items)) }
    ensures err { IfErr result (λ fault. fault.kind ≢ RowFaultKind.OutOfMemory
        → rows_from (asking_view asking.entry) names.now.names
        (program_view program.now) first (lines_of text.now)
        ≡ Err fault) }
{
    let mut lines = Vec::new(alloc);
    let mut rest = text;
    let mut number = first;
    while rest.len() > 0 {
        let (line, behind) = next_line(rest);
        push_line(alloc, names, program, asking, &mut lines, number, line)?;
        rest = behind;
        number += 1;
    }
    Ok(lines)
}

/// Returns how many points the rows of a text are worth together, whether they can be read or not;
/// those of a routine alone, unless `only` is empty.
pub fn points_of(only: &[u8], text: &[u8]) -> u64
    requires { length text.now < 4294967296 }
    ensures { result ≡ points_of only.now (lines_of text.now) }
{
    let mut points = 0u64;
    let mut rest = text;
    while rest.len() > 0 {
        let (line, behind) = next_line(rest);
        points += worth_of(only, line) as u64;
        rest = behind;
    }
    points
}

fn memory_fault(line: u32) -> TextFault
    ensures { result.kind ≡ RowFaultKind.OutOfMemory }
{
    TextFault {
        line,
        column: 1,
        kind: RowFaultKind::OutOfMemory,
    }
}
