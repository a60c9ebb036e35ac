//! The values of a line's expressions.

ghost use Rattle.std.specs.Prelude.{◌<◌, ◌^◌};

use line_parts::{Expr, Item, KeptLine, Statement, term_of};
use model::Mode;
use symbols::{Symbols, eval};

/// The least and the most that a value may be.
#[derive(Clone, Copy)]
pub struct Range {
    pub least: i32,
    pub most: i32,
}

/// A value that is outside its range.
#[derive(Clone, Copy)]
pub struct Outside {
    pub value: i32,
    pub range: Range,
}

/// The value of an expression where it is outside a range.
fn value_outside(value: &Expr<'_>, names: &Symbols, here: u32, range: Range) -> Option<Outside>
    requires { here < 2 ^ 31 }
{
    match eval(value, names, here as i32) {
        Ok(value) => {
            if value < range.least || value > range.most {
                Some(Outside { value, range })
            } else {
                None
            }
        }
        Err(_) => None,
    }
}

/// The first item whose value is no byte.
fn item_outside(items: &[Item<'_>], names: &Symbols, here: u32) -> Option<Outside>
    requires { here < 2 ^ 31 }
{
    for item in items {
        if let Item::Value(value) = item {
            let range = Range {
                least: -128,
                most: 255,
            };
            if let Some(found) = value_outside(value, names, here, range) {
                return Some(found);
            }
        }
    }
    None
}

/// The first of some values that does not fit two bytes.
fn word_outside(values: &[Expr<'_>], names: &Symbols, here: u32) -> Option<Outside>
    requires { here < 2 ^ 31 }
{
    for value in values {
        let range = Range {
            least: -32768,
            most: 65535,
        };
        if let Some(found) = value_outside(value, names, here, range) {
            return Some(found);
        }
    }
    None
}

/// What an operand may be in a mode.
fn range_of(mode: Mode) -> Range {
    match mode {
        Mode::Imm => Range {
            least: -128,
            most: 255,
        },
        Mode::Zp | Mode::ZpX | Mode::ZpY | Mode::IndX | Mode::IndY | Mode::IndZ => Range {
            least: 0,
            most: 255,
        },
        _ => Range {
            least: 0,
            most: 65535,
        },
    }
}

/// Returns the first value of a line that is outside its range.
pub fn first_outside(line: &KeptLine<'_>, names: &Symbols) -> Option<Outside> {
    match &line.statement {
        Statement::Bytes(items) => item_outside(items, names, line.address),
        Statement::Words(values) | Statement::WordsHighFirst(values) => {
            word_outside(values, names, line.address)
        }
        Statement::Instruction(_, operand) => match (line.code, term_of(operand)) {
            (Some(code), Some(value)) => value_outside(
                value,
                names,
                line.address,
                range_of(code.mode),
            ),
            _ => None,
        },
        _ => None,
    }
}

/// Returns how many bytes a branch misses its target by, and whether the target is ahead.
pub fn branch_miss(line: &KeptLine<'_>, names: &Symbols) -> Option<(u32, bool)> {
    let Statement::Instruction(_, operand) = &line.statement else {
        return None;
    };
    let target = eval(term_of(operand)?, names, line.address as i32).ok()?;
    let next = line.address as i64 + 2;
    let distance = (target as i64 - next).rem_euclid(65536) as u32;
    if distance <= 127 || distance >= 65408 {
        None
    } else if distance < 32768 {
        Some((distance - 127, true))
    } else {
        Some((65408 - distance, false))
    }
}
