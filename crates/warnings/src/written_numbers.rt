//! What the lines of a source write of the zero page.

ghost use Rattle.std.specs.Prelude.{◌≡◌, ◌++◌, ◌<◌, ◌^◌, [], IfOk, OnOk, pos};
ghost use Rattle.line_parts.specs.Contents.{map_option};
ghost use Rattle.line_parts.specs.LineViews.{line_view, operand_view, statement_view};
ghost use Rattle.line_parts.specs.TermViews.{term_view};
ghost use Rattle.model.specs.Names.{number_in};
ghost use Rattle.model.specs.Value.{eval_of};
ghost use Rattle.warnings.specs.Reaches.{is_write, reach_at, reach_of_bytes, reach_of_line};
ghost use Rattle.warnings.specs.Reaches.{reach_of_operand, reach_of_statement, reaches};
ghost use Rattle.warnings.specs.Reaches.{with_reach};
ghost use Rattle.warnings.specs.Views.{placed_view, placed_views};

use crate::placed_line::PlacedLine;
use line_parts::{Expr, Line, Operand, Statement};
use model::{ExprFault, Index, Operation};
use optable::operation;
use std::alloc::{AllocError, Global};
use symbols::{Symbols, eval};

/// Addresses from the least one on, up to the one before the next.
#[derive(Clone, Copy, Debug, PartialEq, Eq)]
pub struct Reach {
    pub least: u32,
    pub next: u32,
}

/// What the bytes of a line reach.
fn reach_of_bytes(line: &PlacedLine<'_>) -> Option<Reach>
    ensures { result ≡ reach_of_bytes (placed_view line.now).address (placed_view line.now).size }
{
    if line.count == 0 || line.address > 255 {
        None
    } else {
        Some(Reach {
            least: line.address,
            next: line.address + line.count,
        })
    }
}

/// What an operand with a value reaches.
fn reach_at(index: Index, value: Result<i32, ExprFault>) -> Option<Reach>
    ensures { result ≡ reach_at index value }
{
    match value {
        Ok(number) => {
            if (number >= 0) & (number <= 255) {
                Some(match index {
                    Index::Unindexed => Reach {
                        least: number as u32,
                        next: number as u32 + 1,
                    },
                    Index::X | Index::Y => Reach {
                        least: 0,
                        next: 256,
                    },
                })
            } else {
                None
            }
        }
        Err(_) => None,
    }
}

/// Returns the value of an expression on a line at an address, or its first fault.
pub fn value_at(value: &Expr<'_>, names: &Symbols, address: u32) -> Result<i32, ExprFault>
    requires { address < 2 ^ 31 }
    ensures { result ≡ eval_of (number_in names.now) (pos address) (term_view value.now) }
{
    eval(value, names, address as i32)
}

/// What an operand reaches that is written to.
fn reach_of_operand(names: &Symbols, address: u32, operand: &Operand<'_>) -> Option<Reach>
    requires { address < 2 ^ 31 }
    ensures { result ≡ reach_of_operand (number_in names.now) address (operand_view operand.now) }
{
    match operand {
        Operand::Direct {
            marked: _,
            value,
            index,
        } => reach_at(*index, value_at(value, names, address)),
        Operand::Absent | Operand::Accumulator | Operand::Immediate(_) => None,
        Operand::Pointer(_) | Operand::PointerByX(_) | Operand::PointerByY(_) => None,
    }
}

/// Whether an operation writes to its operand.
fn is_write(operation: Operation) -> bool
    ensures { result ≡ is_write operation }
{
    matches!(operation, Operation::Store(_) | Operation::Modify(_))
}

/// What a statement reaches that is an instruction which writes.
fn reach_of_statement(names: &Symbols, address: u32, statement: &Statement<'_>) -> Option<Reach>
    requires { address < 2 ^ 31 }
    ensures { result
        ≡ reach_of_statement (number_in names.now) address (statement_view statement.now) }
{
    match statement {
        Statement::Instruction(mnemonic, operand) => {
            if is_write(operation(*mnemonic)) {
                reach_of_operand(names, address, operand)
            } else {
                None
            }
        }
        _ => None,
    }
}

/// What a line reaches that is an instruction which writes.
fn reach_of_line(names: &Symbols, address: u32, line: &Option<Line<'_>>) -> Option<Reach>
    requires { address < 2 ^ 31 }
    ensures { result
        ≡ reach_of_line (number_in names.now) address (map_option line_view line.now) }
{
    match line {
        Some(Line::Labelled(_, statement)) => reach_of_statement(names, address, statement),
        Some(Line::Definition(_, _)) | None => None,
    }
}

/// Appends a reach, if there is one.
fn push_reach(reaches: &mut Vec<Reach>, reach: Option<Reach>) -> Result<(), AllocError>
    ensures { OnOk result (reaches.new.items ≡ reaches.old.items ++ with_reach reach []) }
{
    match reach {
        Some(reach) => {
            reaches.push(reach)?;
            Ok(())
        }
        None => Ok(()),
    }
}

/// Returns what lines write of the zero page, under the numbers of all names: their bytes, and
/// instructions that write to an operand. Pointers are not followed.
///
/// The only error is that a request for memory was refused.
pub fn reaches(
    alloc: Global,
    names: &Symbols,
    lines: &[PlacedLine<'_>],
) -> Result<Vec<Reach>, AllocError>
    ensures { IfOk result
        (λ found. found.items ≡ reaches (number_in names.now) (placed_views lines.now)) }
{
    let mut found = Vec::new(alloc);
    for one in lines {
        push_reach(&mut found, reach_of_bytes(one))?;
        push_reach(&mut found, reach_of_line(names, one.address, &one.line))?;
    }
    Ok(found)
}
