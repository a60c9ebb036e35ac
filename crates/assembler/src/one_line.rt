//! One line alone.

ghost use Rattle.std.specs.Prelude.{◌≡◌, ◌+◌, ◌-◌, ◌<◌, ◌≤◌, ◌^◌, IfOk, OnOk, length, take, drop};
ghost use Rattle.std.specs.Prelude.{replicate, map};
ghost use Rattle.line_parts.specs.LineViews.{Gives, line_view, statement_view};
ghost use Rattle.line_parts.specs.LineFaults.{AnswersSource};
ghost use Rattle.assembler.specs.OneLine.{line_alone};
ghost use Rattle.line_parts.specs.Contents.{content_by};
ghost use Rattle.line_parts.specs.FewBytes.{IsSmallLine};
ghost use Rattle.model.specs.Layout.{size_of};
ghost use Rattle.model.specs.OneLineAssembly.{bytes_alone, may_stand_alone, one_line};
ghost use Rattle.law_sources.specs.Judging.{on_line};

use asm_line::read_line;
use emission::bytes_alone;
use layout::{Placement, place_line};
use line_parts::{LineError, Statement, fault_on_line};
use model::{AsmFault, AsmFaultKind, Profile};
use std::alloc::Global;
use symbols::Symbols;

/// The bytes of one line: the first `count` of `bytes`, and 0 after them.
#[derive(Clone, Copy, Debug, PartialEq, Eq)]
pub struct Line {
    pub bytes: [u8; 3],
    pub count: u8,
}

/// Returns a line of at most three bytes.
fn line_of(written: &[u8]) -> Line
    requires { length written.now ≤ 3 }
    ensures bytes { take result.count result.bytes ≡ written.now }
    ensures rest { drop result.count result.bytes ≡ replicate (3 - result.count) 0 }
    ensures few { result.count ≤ 3 }
{
    let mut bytes = [0u8; 3];
    let count = written.len();
    bytes[..count].copy_from_slice(written);
    Line {
        bytes,
        count: count as u8,
    }
}

/// Returns whether a statement may be alone.
fn may_stand_alone(statement: &Statement<'_>) -> bool
    ensures { result ≡ may_stand_alone (statement_view statement.now) }
{
    match statement {
        Statement::Bytes(_)
        | Statement::Words(_)
        | Statement::WordsHighFirst(_)
        | Statement::Instruction(..) => true,
        Statement::Nothing | Statement::Origin(_) | Statement::Reserve(_) | Statement::Finish => {
            false
        }
    }
}

/// Returns the bytes of a statement alone at an address, or its value fault.
fn encode_alone(
    alloc: Global,
    address: u32,
    placement: Placement,
    statement: &Statement<'_>,
) -> Result<Line, LineError>
    requires near { address < 2 ^ 31 - 510 }
    requires short { placement.count ≤ 3 }
    requires sized { placement.count ≡ size_of
        (content_by placement.code (statement_view statement.now)) }
    ensures bytes { Gives (λ l. take l.count l.bytes) result (bytes_alone
        (record {
          address = address;
          content = content_by placement.code
              (statement_view statement.now);
        })) }
    ensures rest { IfOk result (λ l. drop l.count l.bytes ≡ replicate (3 - l.count) 0) }
    ensures few { IfOk result (λ l. l.count ≤ 3) }
{
    let bytes = bytes_alone(alloc, address, placement.code, placement.count, statement)?;
    Ok(line_of(&bytes))
}

/// Returns the bytes of a line that was read, alone at an address, or its fault.
fn line_alone(
    alloc: Global,
    profile: Profile,
    address: u32,
    line: &line_parts::Line<'_>,
) -> Result<Line, LineError>
    requires near { address < 2 ^ 31 - 510 }
    requires small { IsSmallLine (line_view line.now) }
    ensures bytes { Gives (λ l. take l.count l.bytes) result
        (line_alone profile address (line_view line.now)) }
    ensures rest { IfOk result (λ l. drop l.count l.bytes ≡ replicate (3 - l.count) 0) }
    ensures few { IfOk result (λ l. l.count ≤ 3) }
{
    let mut symbols = Symbols::new(alloc);
    let placed = place_line(alloc, profile, &mut symbols, address, line);
    drop(symbols);
    let placement = placed?;
    match line {
        line_parts::Line::Labelled(None, statement) => {
            if may_stand_alone(statement) && placement.count <= 3 {
                encode_alone(alloc, address, placement, statement)
            } else {
                Err(LineError::Kind(AsmFaultKind::NotOneLine))
            }
        }
        line_parts::Line::Labelled(Some(_), _) | line_parts::Line::Definition(..) => {
            Err(LineError::Kind(AsmFaultKind::NotOneLine))
        }
    }
}

/// Returns the bytes of a line alone at an address, or its fault.
#[tactic(auto, unfolding(model::specs::OneLineAssembly::one_line))]
fn assemble_alone(
    alloc: Global,
    profile: Profile,
    address: u32,
    text: &[u8],
) -> Result<Line, LineError>
    requires { address < 2 ^ 31 - 510 }
    ensures bytes { Gives (λ l. take l.count l.bytes) result (one_line profile address text.now) }
    ensures rest { IfOk result (λ l. drop l.count l.bytes ≡ replicate (3 - l.count) 0) }
    ensures few { IfOk result (λ l. l.count ≤ 3) }
{
    let line = read_line(alloc, profile, text)?;
    let made = line_alone(alloc, profile, address, &line);
    drop(line);
    made
}

/// Assembles a text at an address in a profile, as one line of a source without names.
///
/// Returns its 1 to 3 bytes. The text is a line without its end: an LF or a CR in it is `NotAscii`,
/// and more than 255 bytes are `LineTooLong`.
///
/// Errors: those of `assemble`, with line 1, but for three. `NotOneLine` comes after all faults of
/// the layout and before those of values, if the text has a label, a definition, no statement,
/// `*=`, `.RES` or `.END`, or more than 3 bytes. `Overlap` and `PortAddress` never come.
/// `OutOfMemory` with line 0 if an allocation fails. Source: mos65.
pub fn assemble_line_in(
    alloc: Global,
    profile: Profile,
    address: u16,
    text: &[u8],
) -> Result<Line, AsmFault>
    // The bytes or the fault are what the text denotes there, unless memory runs out.
    ensures exact { AnswersSource (λ l. take l.count l.bytes) result
        (on_line 1 (one_line profile address text.now)) }
    ensures rest { IfOk result (λ l. drop l.count l.bytes ≡ replicate (3 - l.count) 0) }
    ensures few { IfOk result (λ l. l.count ≤ 3) }
{
    match assemble_alone(alloc, profile, address as u32, text) {
        Ok(line) => Ok(line),
        Err(error) => Err(fault_on_line(1, error)),
    }
}

/// Assembles a text as one line in profile N, as `assemble_line_in` does.
pub fn assemble_line(alloc: Global, address: u16, text: &[u8]) -> Result<Line, AsmFault>
    // The bytes or the fault are what the text denotes there, unless memory runs out.
    ensures exact { AnswersSource (λ l. take l.count l.bytes) result
        (on_line 1 (one_line Profile.N address text.now)) }
    ensures rest { IfOk result (λ l. drop l.count l.bytes ≡ replicate (3 - l.count) 0) }
    ensures few { IfOk result (λ l. l.count ≤ 3) }
{
    assemble_line_in(alloc, Profile::N, address, text)
}
