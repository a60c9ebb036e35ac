//! Where control goes from an instruction, and where a reset begins.

ghost use Rattle.std.specs.Prelude.{◌≡◌, ◌<◌, ◌^◌, map};
ghost use Rattle.std.specs.List.{list_any};
ghost use Rattle.line_parts.specs.Contents.{map_option};
ghost use Rattle.line_parts.specs.LineViews.{item_view, line_view, operand_view, statement_view};
ghost use Rattle.model.specs.Names.{number_in};
ghost use Rattle.warnings.specs.Flow.{falls_off, is_entry_line, is_entry_statement};
ghost use Rattle.warnings.specs.Flow.{is_instruction, is_instruction_line, is_instruction_statement};
ghost use Rattle.warnings.specs.Flow.{is_of_n, is_one_value, is_straight, is_straight_line};
ghost use Rattle.warnings.specs.Flow.{is_straight_statement, is_vector, is_vectorless, meets, meets_line};
ghost use Rattle.warnings.specs.Flow.{page_ended, page_of_line, page_of_operand, page_of_statement};
ghost use Rattle.warnings.specs.Flow.{wrapped_page};
ghost use Rattle.warnings.specs.Views.{placed_view, placed_views};

use crate::placed_line::PlacedLine;
use crate::written_numbers::value_at;
use line_parts::{Item, Line, Operand, Statement};
use model::{ExprFault, Operation, Profile};
use optable::operation;
use symbols::Symbols;

/// Whether control always comes from an operation to the next address.
fn is_straight(operation: Operation) -> bool
    ensures { result ≡ is_straight operation }
{
    match operation {
        Operation::Branch(_) | Operation::Jump | Operation::Call => false,
        Operation::Return | Operation::ReturnInterrupt | Operation::Break => false,
        _ => true,
    }
}

/// Whether a statement is an instruction from which control comes to the next address.
fn is_straight_statement(statement: &Statement<'_>) -> bool
    ensures { result ≡ is_straight_statement (statement_view statement.now) }
{
    match statement {
        Statement::Instruction(mnemonic, _) => is_straight(operation(*mnemonic)),
        _ => false,
    }
}

/// Whether a line is an instruction from which control comes to the next address.
fn is_straight_line(line: &Option<Line<'_>>) -> bool
    ensures { result ≡ is_straight_line (map_option line_view line.now) }
{
    match line {
        Some(Line::Labelled(_, statement)) => is_straight_statement(statement),
        Some(Line::Definition(_, _)) | None => false,
    }
}

/// Whether items are one value.
fn is_one_value(items: &[Item<'_>]) -> bool
    ensures { result ≡ is_one_value (map item_view items.now) }
{
    matches!(items, [Item::Value(_)])
}

/// Whether control may come to a statement.
fn is_entry_statement(statement: &Statement<'_>) -> bool
    ensures { result ≡ is_entry_statement (statement_view statement.now) }
{
    match statement {
        Statement::Instruction(_, _) => true,
        Statement::Bytes(items) => is_one_value(items),
        _ => false,
    }
}

/// Returns whether control may come to a line.
pub fn is_entry_line(line: &Option<Line<'_>>) -> bool
    ensures { result ≡ is_entry_line (map_option line_view line.now) }
{
    match line {
        Some(Line::Labelled(_, statement)) => is_entry_statement(statement),
        Some(Line::Definition(_, _)) | None => false,
    }
}

/// Whether a line is at an address, and control may come to it.
fn meets_line(next: u32, line: &PlacedLine<'_>) -> bool
    ensures { result ≡ meets_line next (placed_view line.now) }
{
    line.address == next && is_entry_line(&line.line)
}

/// Whether the first of some lines that has bytes is at an address, and control may come to it.
fn meets(next: u32, lines: &[PlacedLine<'_>]) -> bool
    ensures { result ≡ meets next (placed_views lines.now) }
{
    for one in lines {
        if one.count > 0 {
            return meets_line(next, one);
        }
    }
    false
}

/// Returns whether control comes from a line to the address after it, where the lines after it have
/// nothing that it may come to.
pub fn falls_off(line: &PlacedLine<'_>, behind: &[PlacedLine<'_>]) -> bool
    ensures { result ≡ falls_off (placed_view line.now) (placed_views behind.now) }
{
    is_straight_line(&line.line) && !meets(line.address + line.count, behind)
}

/// Returns the page at whose end a value is, as an address.
fn page_ended(value: Result<i32, ExprFault>) -> Option<u8>
    ensures { result ≡ page_ended value }
{
    match value {
        Ok(number) => {
            if number >= 0 && number % 256 == 255 {
                Some((number as u32 / 256 % 256) as u8)
            } else {
                None
            }
        }
        Err(_) => None,
    }
}

/// Returns the page at whose end the pointer of an operand stands.
fn page_of_operand(names: &Symbols, address: u32, operand: &Operand<'_>) -> Option<u8>
    requires { address < 2 ^ 31 }
    ensures { result ≡ page_of_operand (number_in names.now) address (operand_view operand.now) }
{
    match operand {
        Operand::Pointer(value) => page_ended(value_at(value, names, address)),
        _ => None,
    }
}

/// Returns the page at whose end the pointer of a statement stands.
fn page_of_statement(names: &Symbols, address: u32, statement: &Statement<'_>) -> Option<u8>
    requires { address < 2 ^ 31 }
    ensures { result
        ≡ page_of_statement (number_in names.now) address (statement_view statement.now) }
{
    match statement {
        Statement::Instruction(_, operand) => page_of_operand(names, address, operand),
        _ => None,
    }
}

/// Returns the page at whose end the pointer of a line stands.
fn page_of_line(names: &Symbols, address: u32, line: &Option<Line<'_>>) -> Option<u8>
    requires { address < 2 ^ 31 }
    ensures { result ≡ page_of_line (number_in names.now) address (map_option line_view line.now) }
{
    match line {
        Some(Line::Labelled(_, statement)) => page_of_statement(names, address, statement),
        Some(Line::Definition(_, _)) | None => None,
    }
}

/// Whether a profile is N.
fn is_of_n(profile: Profile) -> bool
    ensures { result ≡ is_of_n profile }
{
    matches!(profile, Profile::N)
}

/// Returns the page at whose end the pointer stands through which a line jumps, in profile N.
pub fn wrapped_page(profile: Profile, names: &Symbols, line: &PlacedLine<'_>) -> Option<u8>
    ensures { result ≡ wrapped_page profile (number_in names.now) (placed_view line.now) }
{
    if is_of_n(profile) {
        page_of_line(names, line.address, &line.line)
    } else {
        None
    }
}

/// Whether a statement is an instruction.
fn is_instruction_statement(statement: &Statement<'_>) -> bool
    ensures { result ≡ is_instruction_statement (statement_view statement.now) }
{
    match statement {
        Statement::Instruction(_, _) => true,
        _ => false,
    }
}

/// Whether a line is an instruction.
fn is_instruction(line: &PlacedLine<'_>) -> bool
    ensures { result ≡ is_instruction (placed_view line.now) }
{
    match &line.line {
        Some(Line::Labelled(_, statement)) => is_instruction_statement(statement),
        Some(Line::Definition(_, _)) | None => false,
    }
}

/// Whether a line has a byte of the reset vector, at $FFFC or $FFFD.
fn is_vector(line: &PlacedLine<'_>) -> bool
    ensures { result ≡ is_vector (placed_view line.now) }
{
    line.count > 0 && (line.address <= 65533 && line.address + line.count > 65532)
}

/// Returns whether one of some lines is an instruction.
pub fn has_instruction(lines: &[PlacedLine<'_>]) -> bool
    ensures { result ≡ list_any is_instruction (placed_views lines.now) }
{
    for one in lines {
        if is_instruction(one) {
            return true;
        }
    }
    false
}

/// Whether one of some lines has a byte of the reset vector.
fn has_vector(lines: &[PlacedLine<'_>]) -> bool
    ensures { result ≡ list_any is_vector (placed_views lines.now) }
{
    for one in lines {
        if is_vector(one) {
            return true;
        }
    }
    false
}

/// Returns whether lines have an instruction, and none a byte of the reset vector.
pub fn is_vectorless(lines: &[PlacedLine<'_>]) -> bool
    ensures { result ≡ is_vectorless (placed_views lines.now) }
{
    has_instruction(lines) && !has_vector(lines)
}
