//! The parts of tokens and expressions, and the faults of both.

ghost use Rattle.std.specs.Prelude.{Some, ◌≡◌};
ghost use Rattle.model.specs.FaultNames.{expression_fault_name, expression_fault_number};
ghost use Rattle.model.specs.FaultNames.{line_fault_name, line_fault_number};
ghost use Rattle.model.specs.FaultTexts.{line_fault_text, expression_fault_text};

use std::alloc::{AllocError, AllocFailed};
use std::fmt;
use thiserror::Error;

/// What a token is. Source: mos65.
#[derive(Clone, Copy, Debug, PartialEq, Eq)]
pub enum TokenKind {
    /// A letter, then letters, digits or `_`: at most 31 bytes.
    Word,
    /// A `.`, then letters.
    Directive,
    /// Decimal digits, or `$` and hex digits, or `%` and binary digits.
    Number,
    /// One byte between two `'`.
    Char,
    /// One or more bytes between two `"`.
    Str,
    /// One of `: * = , # ! ( ) [ ] < > + - / & | ^`.
    Symbol,
}

/// The operators between two operands. Source: mos65.
#[derive(Clone, Copy, Debug, PartialEq, Eq)]
pub enum Operator {
    /// `+`
    Add,
    /// `-`
    Subtract,
    /// `*`
    Multiply,
    /// `/`, rounded toward zero
    Divide,
    /// `&`
    And,
    /// `|`
    Or,
    /// `^`
    ExclusiveOr,
}

/// Why a line has no tokens, or tokens have no expression. Source: mos65.
#[derive(Clone, Copy, Debug, PartialEq, Eq, Error)]
pub enum LineFault {
    /// The bytes are not a list of tokens, or no beginning of the tokens is an expression.
    Syntax,
    /// An allocation failed.
    OutOfMemory,
}

impl fmt::Display for LineFault {
    ghost output = { λ fault. Some (line_fault_text fault) };

    /// Writes the name and the number, as the program prints them.
    fn fmt<W: fmt::Write>(&self, f: &mut fmt::Formatter<W>) -> fmt::Result {
        write!(f, "{} {}", self.name(), self.number())
    }
}

impl LineFault {
    /// Returns the fault's number.
    pub fn number(&self) -> u8
        ensures { result ≡ line_fault_number self.now }
    {
        self.entry().0
    }

    /// Returns the fault's name.
    pub fn name(&self) -> &'static str
        ensures { result.now ≡ line_fault_name self.now }
    {
        self.entry().1
    }

    /// The fault's line in the table of numbers and names.
    fn entry(&self) -> (u8, &'static str)
        ensures number { result.0 ≡ line_fault_number self.now }
        ensures name { result.1.now ≡ line_fault_name self.now }
    {
        match self {
            LineFault::Syntax => (1, "Syntax"),
            LineFault::OutOfMemory => (2, "OutOfMemory"),
        }
    }
}

impl From<AllocError> for LineFault {
    ghost use Rattle.std.specs.Prelude.{◌≡◌};
    ghost use Rattle.model.specs.declared.expression.LineFault.TheVariants.{OutOfMemory};

    ghost from_gives = { λ _ f. f ≡ OutOfMemory };

    fn from(_error: AllocError) -> LineFault {
        LineFault::OutOfMemory
    }
}

impl<T: Drop> From<AllocFailed<T>> for LineFault {
    ghost use Rattle.std.specs.Prelude.{◌≡◌};
    ghost use Rattle.model.specs.declared.expression.LineFault.TheVariants.{OutOfMemory};

    ghost from_gives = { λ _ f. f ≡ OutOfMemory };

    fn from(_refused: AllocFailed<T>) -> LineFault {
        LineFault::OutOfMemory
    }
}

/// Why an expression has no value. Source: mos65.
#[derive(Clone, Copy, Debug, PartialEq, Eq, Error)]
pub enum ExprFault {
    /// A name in it has no number. This fault comes before the others.
    UnknownName,
    /// A literal or a result is outside -2^31..2^31-1, or an operand of `& | ^` is outside
    /// 0..65535.
    Range,
    /// A division by zero.
    DivideByZero,
}

impl fmt::Display for ExprFault {
    ghost output = { λ fault. Some (expression_fault_text fault) };

    /// Writes the name and the number, as the program prints them.
    fn fmt<W: fmt::Write>(&self, f: &mut fmt::Formatter<W>) -> fmt::Result {
        write!(f, "{} {}", self.name(), self.number())
    }
}

impl ExprFault {
    /// Returns the fault's number.
    pub fn number(&self) -> u8
        ensures { result ≡ expression_fault_number self.now }
    {
        self.entry().0
    }

    /// Returns the fault's name.
    pub fn name(&self) -> &'static str
        ensures { result.now ≡ expression_fault_name self.now }
    {
        self.entry().1
    }

    /// The fault's line in the table of numbers and names.
    fn entry(&self) -> (u8, &'static str)
        ensures number { result.0 ≡ expression_fault_number self.now }
        ensures name { result.1.now ≡ expression_fault_name self.now }
    {
        match self {
            ExprFault::UnknownName => (1, "UnknownName"),
            ExprFault::Range => (2, "Range"),
            ExprFault::DivideByZero => (3, "DivideByZero"),
        }
    }
}
