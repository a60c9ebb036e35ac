//! A plain number as an operand.

ghost use Rattle.std.specs.Prelude.{◌≡◌};
ghost use Rattle.line_parts.specs.Contents.{map_option};
ghost use Rattle.line_parts.specs.LineViews.{line_view, operand_view, statement_view};
ghost use Rattle.line_parts.specs.TermViews.{term_view};
ghost use Rattle.warnings.specs.Reaches.{covers, is_load, is_plain, is_plain_for, is_plain_line};
ghost use Rattle.warnings.specs.Reaches.{is_plain_operand, is_plain_statement, is_plain_term};
ghost use Rattle.warnings.specs.Reaches.{is_unwritten, is_written, number_alone};
ghost use Rattle.warnings.specs.Views.{placed_view};

use crate::placed_line::PlacedLine;
use crate::written_numbers::Reach;
use line_parts::{Expr, Line, Operand, Statement};
use model::{Index, Mode, Operation, Profile, ReadOp};
use optable::{encode_in, operation};

/// Whether a number is one of a reach's addresses.
fn covers(number: i32, reach: Reach) -> bool
    ensures { result ≡ covers number reach }
{
    number >= 0 && reach.least <= number as u32 && (number as u32) < reach.next
}

/// Whether a number is an address that is written.
fn is_written(number: i32, reaches: &[Reach]) -> bool
    ensures { result ≡ is_written number reaches.now }
{
    for reach in reaches {
        if covers(number, *reach) {
            return true;
        }
    }
    false
}

/// The number that stands alone as an expression.
fn number_alone(term: &Expr<'_>) -> Option<i32>
    ensures { result ≡ number_alone (term_view term.now) }
{
    match term {
        Expr::Literal(number) => *number,
        _ => None,
    }
}

/// Whether there is a number that is no address which is written.
fn is_unwritten(number: Option<i32>, reaches: &[Reach]) -> bool
    ensures { result ≡ is_unwritten number reaches.now }
{
    match number {
        Some(number) => !is_written(number, reaches),
        None => false,
    }
}

/// Whether an expression with this index is a number alone that nothing writes.
fn is_plain_term(index: Index, term: &Expr<'_>, reaches: &[Reach]) -> bool
    ensures { result ≡ is_plain_term index (term_view term.now) reaches.now }
{
    match index {
        Index::Unindexed => is_unwritten(number_alone(term), reaches),
        Index::X | Index::Y => false,
    }
}

/// Whether an operand is a number alone that nothing writes.
fn is_plain_operand(operand: &Operand<'_>, reaches: &[Reach]) -> bool
    ensures { result ≡ is_plain_operand (operand_view operand.now) reaches.now }
{
    match operand {
        Operand::Direct {
            marked: _,
            value,
            index,
        } => is_plain_term(*index, value, reaches),
        _ => false,
    }
}

/// Where a screen puts a random byte, $FE, and the last key, $FF (Easy6502).
const INPUTS: Reach = Reach {
    least: 254,
    next: 256,
};

/// Whether an operation loads a register.
fn is_load(operation: Operation) -> bool
    ensures { result ≡ is_load operation }
{
    matches!(
        operation,
        Operation::Read(ReadOp::Lda | ReadOp::Ldx | ReadOp::Ldy)
    )
}

/// Whether an operand is a number alone that nothing writes, nor a screen, if it is loaded.
fn is_plain_for(operation: Operation, operand: &Operand<'_>, reaches: &[Reach]) -> bool
    ensures { result ≡ is_plain_for operation (operand_view operand.now) reaches.now }
{
    is_plain_operand(operand, reaches)
        && (!is_load(operation) || is_plain_operand(operand, &[INPUTS]))
}

/// Whether a statement has such an operand and takes a number after `#` too.
fn is_plain_statement(profile: Profile, statement: &Statement<'_>, reaches: &[Reach]) -> bool
    ensures { result ≡ is_plain_statement profile (statement_view statement.now) reaches.now }
{
    match statement {
        Statement::Instruction(mnemonic, operand) => {
            encode_in(profile, *mnemonic, Mode::Imm).is_some()
                && is_plain_for(operation(*mnemonic), operand, reaches)
        }
        _ => false,
    }
}

/// Whether a line has such a statement.
fn is_plain_line(profile: Profile, line: &Option<Line<'_>>, reaches: &[Reach]) -> bool
    ensures { result ≡ is_plain_line profile (map_option line_view line.now) reaches.now }
{
    match line {
        Some(Line::Labelled(_, statement)) => is_plain_statement(profile, statement, reaches),
        Some(Line::Definition(_, _)) | None => false,
    }
}

/// Returns whether a line is an instruction of two bytes whose operand is a number alone, an
/// address that is none of these, and which takes the number itself too, after `#`. A load from $FE
/// or $FF, where a screen puts a random byte and the last key, is none.
pub fn is_plain(profile: Profile, line: &PlacedLine<'_>, reaches: &[Reach]) -> bool
    ensures { result ≡ is_plain profile (placed_view line.now) reaches.now }
{
    line.count == 2 && is_plain_line(profile, &line.line, reaches)
}
