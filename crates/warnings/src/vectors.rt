//! Where the vectors of a source lead.

ghost use Rattle.std.specs.Prelude.{◌≡◌, ◌++◌, ◌<◌, ◌≤◌, ◌^◌, OnOk, length, map, slice_get};
ghost use Rattle.std.specs.Option.{option_map};
ghost use Rattle.line_parts.specs.Contents.{map_option};
ghost use Rattle.line_parts.specs.LineViews.{line_view, statement_view};
ghost use Rattle.line_parts.specs.TermViews.{term_view};
ghost use Rattle.model.specs.Names.{number_in};
ghost use Rattle.warnings.specs.Vectors.{address_of, as_address, begun, behind, comes_to_return};
ghost use Rattle.warnings.specs.Vectors.{course_of, gone};
ghost use Rattle.warnings.specs.Vectors.{course_of_line, course_of_register, course_of_statement};
ghost use Rattle.warnings.specs.Vectors.{data_at, data_in, has_byte_at, if_data, is_handled};
ghost use Rattle.warnings.specs.Vectors.{is_returned, target_at, target_of, through, value_of_word, walked};
ghost use Rattle.warnings.specs.Vectors.{walked_on, words_of_line, words_of_statement};
ghost use Rattle.warnings.specs.Views.{placed_view, placed_views};
ghost use Rattle.warnings.specs.Warnings.{data_warnings, led_warnings, target_warnings};
ghost use Rattle.warnings.specs.Warnings.{vector_warnings, vectors_warnings};

use crate::all_lines::push_if;
use crate::flow::{has_instruction, is_entry_line};
use crate::kinds::{Vector, Warning, WarningKind};
use crate::placed_line::PlacedLine;
use crate::written_numbers::value_at;
use line_parts::{Expr, Line, Statement};
use model::{ExprFault, Operation, RegisterOp};
use optable::operation;
use std::alloc::AllocError;
use symbols::Symbols;

/// What an instruction does with the stack and with control.
#[derive(Clone, Copy)]
pub enum Course {
    /// It is RTS.
    Returns,
    /// It pushes a byte.
    Pushes,
    /// It pulls a byte.
    Pulls,
    /// It leaves both alone.
    Passes,
    /// What follows is not known from it.
    Leaves,
}

/// Where control is that came to an address.
#[derive(Clone, Copy)]
pub enum Walk {
    /// No line has begun at this address.
    Seeking(u32),
    /// It comes to this address, and so many bytes were pushed more than pulled.
    Going(u32, u8),
    /// It came to RTS.
    Returned,
    /// Where it goes is not known.
    Left,
}

/// Returns where a vector stands.
fn address_of(vector: Vector) -> u32
    ensures { result ≡ address_of vector }
{
    match vector {
        Vector::Nmi => 65530,
        Vector::Reset => 65532,
        Vector::Irq => 65534,
    }
}

/// Returns whether a vector is that of an interrupt.
fn is_handled(vector: Vector) -> bool
    ensures { result ≡ is_handled vector }
{
    match vector {
        Vector::Nmi | Vector::Irq => true,
        Vector::Reset => false,
    }
}

/// Returns the values of `.WORD`.
fn words_of_statement<'t, 'a>(statement: &'t Statement<'a>) -> &'t [Expr<'a>]
    ensures { map term_view result.now ≡ words_of_statement (statement_view statement.now) }
{
    match statement {
        Statement::Words(values) => values.as_slice(),
        _ => &[],
    }
}

/// Returns the values of `.WORD` on a line.
fn words_of_line<'t, 'a>(line: &'t Option<Line<'a>>) -> &'t [Expr<'a>]
    ensures { map term_view result.now ≡ words_of_line (map_option line_view line.now) }
{
    match line {
        Some(Line::Labelled(_, statement)) => words_of_statement(statement),
        Some(Line::Definition(_, _)) | None => &[],
    }
}

/// Returns a value, if it is no negative number.
fn as_address(value: Result<i32, ExprFault>) -> Option<u32>
    ensures { result ≡ as_address value }
{
    match value {
        Ok(number) => {
            if number >= 0 {
                Some(number as u32)
            } else {
                None
            }
        }
        Err(_) => None,
    }
}

/// Returns the value of an index.
fn word_at<'t, 'a>(values: &'t [Expr<'a>], index: usize) -> Option<&'t Expr<'a>>
    ensures { option_map (λ e. term_view e.now) result
        ≡ slice_get (map term_view values.now) index }
{
    values.get(index)
}

/// Returns the value of an index among those of `.WORD` on a line.
fn word_on_line<'t, 'a>(line: &'t Option<Line<'a>>, index: usize) -> Option<&'t Expr<'a>>
    ensures { option_map (λ e. term_view e.now) result
        ≡ slice_get (words_of_line (map_option line_view line.now)) index }
{
    word_at(words_of_line(line), index)
}

/// Returns the number of a value on a line at an address, if it has one that is not negative.
#[tactic(auto, unfolding(crate::specs::Vectors::value_of_word))]
fn value_of_word(names: &Symbols, address: u32, value: Option<&Expr<'_>>) -> Option<u32>
    requires { address < 2 ^ 31 }
    ensures { result ≡ value_of_word (number_in names.now) address
        (option_map (λ e. term_view e.now) value.entry) }
{
    match value {
        Some(value) => as_address(value_at(value, names, address)),
        None => None,
    }
}

/// Returns the number of the value of `.WORD` on a line whose two bytes stand at an address.
fn target_at(names: &Symbols, at: u32, line: &PlacedLine<'_>) -> Option<u32>
    ensures { result ≡ target_at (number_in names.now) at (placed_view line.now) }
{
    if line.address <= at && (at - line.address) % 2 == 0 {
        let index = (at - line.address) / 2;
        let value = word_on_line(&line.line, index as usize);
        value_of_word(names, line.address, value)
    } else {
        None
    }
}

/// Returns where a vector leads, if its two bytes are a value of `.WORD` on this line.
#[tactic(auto, unfolding(crate::specs::Vectors::target_of))]
fn target_of(names: &Symbols, vector: Vector, line: &PlacedLine<'_>) -> Option<u32>
    ensures { result ≡ target_of (number_in names.now) vector (placed_view line.now) }
{
    target_at(names, address_of(vector), line)
}

/// Returns whether a line has a byte at an address.
fn has_byte_at(address: u32, line: &PlacedLine<'_>) -> bool
    ensures { result ≡ has_byte_at address (placed_view line.now) }
{
    line.address <= address && address < line.address + line.count
}

/// Returns the number of a line, if it is data.
fn if_data(number: u32, line: &Option<Line<'_>>) -> Option<u32>
    ensures { result ≡ if_data number (map_option line_view line.now) }
{
    if is_entry_line(line) {
        None
    } else {
        Some(number)
    }
}

/// Returns the number of the line of data that has the byte at an address.
fn data_at(address: u32, lines: &[PlacedLine<'_>]) -> Option<u32>
    requires { length lines.now ≤ 1048576 }
    ensures { result ≡ data_at address 1 (placed_views lines.now) }
{
    let mut number = 0u32;
    for one in lines {
        number += 1;
        if has_byte_at(address, one) {
            return if_data(number, &one.line);
        }
    }
    None
}

/// Returns the number of the line of data that has the byte at an address, in a source that has an
/// instruction.
fn data_in(address: u32, lines: &[PlacedLine<'_>]) -> Option<u32>
    requires { length lines.now ≤ 1048576 }
    ensures { result ≡ data_in address (placed_views lines.now) }
{
    if has_instruction(lines) {
        data_at(address, lines)
    } else {
        None
    }
}

/// Returns what a change of registers does with the stack.
fn course_of_register(op: RegisterOp) -> Course
    ensures { result ≡ course_of_register op }
{
    match op {
        RegisterOp::Txs | RegisterOp::Tsx => Course::Leaves,
        _ => Course::Passes,
    }
}

/// Returns what an operation does with the stack and with control.
fn course_of(operation: Operation) -> Course
    ensures { result ≡ course_of operation }
{
    match operation {
        Operation::Read(_) | Operation::Store(_) | Operation::Modify(_) => Course::Passes,
        Operation::Register(op) => course_of_register(op),
        Operation::PushA | Operation::PushX => Course::Pushes,
        Operation::PushY | Operation::PushStatus => Course::Pushes,
        Operation::PullA | Operation::PullX => Course::Pulls,
        Operation::PullY | Operation::PullStatus => Course::Pulls,
        Operation::Return => Course::Returns,
        _ => Course::Leaves,
    }
}

/// Returns what a statement does with the stack and with control.
fn course_of_statement(statement: &Statement<'_>) -> Course
    ensures { result ≡ course_of_statement (statement_view statement.now) }
{
    match statement {
        Statement::Instruction(mnemonic, _) => course_of(operation(*mnemonic)),
        _ => Course::Leaves,
    }
}

/// Returns what a line does with the stack and with control.
fn course_of_line(line: &Option<Line<'_>>) -> Course
    ensures { result ≡ course_of_line (map_option line_view line.now) }
{
    match line {
        Some(Line::Labelled(_, statement)) => course_of_statement(statement),
        Some(Line::Definition(_, _)) | None => Course::Leaves,
    }
}

/// Returns where control is behind a line from which it comes to this address.
fn behind(course: Course, next: u32, pushed: u8) -> Walk
    ensures { result ≡ behind course next pushed }
{
    match course {
        Course::Returns => {
            if pushed == 0 {
                Walk::Returned
            } else {
                Walk::Left
            }
        }
        Course::Pushes => {
            if pushed < 255 {
                Walk::Going(next, pushed + 1)
            } else {
                Walk::Left
            }
        }
        Course::Pulls => {
            if pushed == 0 {
                Walk::Left
            } else {
                Walk::Going(next, pushed - 1)
            }
        }
        Course::Passes => Walk::Going(next, pushed),
        Course::Leaves => Walk::Left,
    }
}

/// Returns where control is behind a line to which it comes.
fn through(pushed: u8, line: &PlacedLine<'_>) -> Walk
    ensures { result ≡ through pushed (placed_view line.now) }
{
    behind(
        course_of_line(&line.line),
        line.address + line.count,
        pushed,
    )
}

/// Returns where control is behind a line, if none has begun at an address before it.
fn begun(address: u32, line: &PlacedLine<'_>) -> Walk
    ensures { result ≡ begun address (placed_view line.now) }
{
    if line.count > 0 && line.address == address {
        through(0, line)
    } else {
        Walk::Seeking(address)
    }
}

/// Returns where control is behind a line before which it comes to an address.
fn gone(next: u32, pushed: u8, line: &PlacedLine<'_>) -> Walk
    ensures { result ≡ gone next pushed (placed_view line.now) }
{
    if line.count > 0 {
        if line.address == next {
            through(pushed, line)
        } else {
            Walk::Left
        }
    } else {
        Walk::Going(next, pushed)
    }
}

/// Returns where control is behind a line more.
fn walked_on(walk: Walk, line: &PlacedLine<'_>) -> Walk
    ensures { result ≡ walked_on walk (placed_view line.now) }
{
    match walk {
        Walk::Seeking(address) => begun(address, line),
        Walk::Going(next, pushed) => gone(next, pushed, line),
        Walk::Returned => Walk::Returned,
        Walk::Left => Walk::Left,
    }
}

/// Returns where control is behind lines.
fn walked(walk: Walk, lines: &[PlacedLine<'_>]) -> Walk
    ensures { result ≡ walked walk (placed_views lines.now) }
{
    let mut so_far = walk;
    for one in lines {
        so_far = walked_on(so_far, one);
    }
    so_far
}

/// Returns whether control came to RTS.
fn is_returned(walk: Walk) -> bool
    ensures { result ≡ is_returned walk }
{
    matches!(walk, Walk::Returned)
}

/// Returns whether control that comes to an address comes on straight to RTS, with as many bytes
/// pulled as pushed.
fn comes_to_return(address: u32, lines: &[PlacedLine<'_>]) -> bool
    ensures { result ≡ comes_to_return address (placed_views lines.now) }
{
    is_returned(walked(Walk::Seeking(address), lines))
}

/// Appends the warning of a vector that leads to data, if it does.
fn push_data(
    warnings: &mut Vec<Warning>,
    number: u32,
    vector: Vector,
    found: Option<u32>,
) -> Result<(), AllocError>
    ensures { OnOk result (warnings.new.items
        ≡ warnings.old.items ++ data_warnings number vector found) }
{
    match found {
        None => Ok(()),
        Some(line) => {
            let kind = WarningKind::VectorToData(vector, line);
            push_if(warnings, true, number, kind)
        }
    }
}

/// Appends the warnings of a vector by where it leads.
fn push_led(
    warnings: &mut Vec<Warning>,
    lines: &[PlacedLine<'_>],
    number: u32,
    vector: Vector,
    target: u32,
) -> Result<(), AllocError>
    requires { length lines.now ≤ 1048576 }
    ensures { OnOk result (warnings.new.items ≡ warnings.old.items
        ++ led_warnings (placed_views lines.now) number vector target) }
{
    let returns = is_handled(vector) && comes_to_return(target, lines);
    push_data(warnings, number, vector, data_in(target, lines))?;
    push_if(
        warnings,
        returns,
        number,
        WarningKind::HandlerReturns(vector),
    )
}

/// Appends the warnings of a vector, if it is known where it leads.
fn push_target(
    warnings: &mut Vec<Warning>,
    lines: &[PlacedLine<'_>],
    number: u32,
    vector: Vector,
    target: Option<u32>,
) -> Result<(), AllocError>
    requires { length lines.now ≤ 1048576 }
    ensures { OnOk result (warnings.new.items ≡ warnings.old.items
        ++ target_warnings (placed_views lines.now) number vector target) }
{
    match target {
        None => Ok(()),
        Some(target) => push_led(warnings, lines, number, vector, target),
    }
}

/// Appends the warnings of a vector, if a line has it.
fn push_vector(
    warnings: &mut Vec<Warning>,
    names: &Symbols,
    lines: &[PlacedLine<'_>],
    number: u32,
    line: &PlacedLine<'_>,
    vector: Vector,
) -> Result<(), AllocError>
    requires { length lines.now ≤ 1048576 }
    ensures { OnOk result (warnings.new.items ≡ warnings.old.items
        ++ vector_warnings (number_in names.now) (placed_views lines.now) number
        (placed_view line.now) vector) }
{
    let target = target_of(names, vector, line);
    push_target(warnings, lines, number, vector, target)
}

/// Appends the warnings of the vectors that a line has, among all lines.
#[tactic(auto, unfolding(crate::specs::Warnings::vectors_warnings))]
pub fn push_vectors(
    warnings: &mut Vec<Warning>,
    names: &Symbols,
    lines: &[PlacedLine<'_>],
    number: u32,
    line: &PlacedLine<'_>,
) -> Result<(), AllocError>
    requires { length lines.now ≤ 1048576 }
    ensures { OnOk result (warnings.new.items ≡ warnings.old.items
        ++ vectors_warnings (number_in names.now) (placed_views lines.now) number
        (placed_view line.now)) }
{
    push_vector(warnings, names, lines, number, line, Vector::Nmi)?;
    push_vector(warnings, names, lines, number, line, Vector::Reset)?;
    push_vector(warnings, names, lines, number, line, Vector::Irq)
}
