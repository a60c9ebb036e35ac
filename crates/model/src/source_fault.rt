//! Why a source is rejected.

ghost use Rattle.std.specs.Prelude.{Some, ◌≡◌};
ghost use Rattle.model.specs.FaultNames.{source_fault_name, source_fault_number};
ghost use Rattle.model.specs.FaultTexts.{source_fault_text};

use std::fmt;
use thiserror::Error;

/// What is wrong with a line of a source. Source: mos65.
///
/// Kinds 1 to 13 are faults of layout: of a line's text, its names, its address and its size. The
/// others are faults of values and bytes.
#[derive(Clone, Copy, Debug, PartialEq, Eq, Error)]
pub enum AsmFaultKind {
    /// The source has more than 1,048,576 bytes; the line is 0.
    TooLarge,
    /// The line has more than 255 bytes without its end.
    LineTooLong,
    /// The line has a byte that is neither $20..$7E nor a tab.
    NotAscii,
    /// The line is not in the grammar.
    Syntax,
    /// A mnemonic, A, X or Y, in any letter case, is used as a name.
    ReservedName,
    /// The name has an earlier definition.
    DuplicateName,
    /// The value is needed here, and no line up to this one defines the name.
    UnknownHere,
    /// The instruction has no form for the operand.
    NoSuchForm,
    /// The 8,193rd definition.
    TooManyNames,
    /// The address to go on from is outside 0..65535, or `.RES` goes below 0 or past address 65535.
    OriginRange,
    /// A literal or a result is out of range in an expression that places, defines or sizes.
    ExprRange,
    /// A division by zero in an expression that places, defines or sizes.
    DivideByZero,
    /// The text is more or less than one instruction or data line. Comes from one-line assembly
    /// alone.
    NotOneLine,
    /// No line defines the name.
    UndefinedName,
    /// A value for one byte is out of its range.
    ByteRange,
    /// A value for two bytes is out of its range.
    WordRange,
    /// A branch's target is farther than -128..127 from the next instruction.
    BranchRange,
    /// The line has a byte past address 65535.
    PastEnd,
    /// The line has a byte where an earlier line has one.
    Overlap,
    /// The line has a byte at a port address.
    PortAddress,
    /// A literal or a result is out of range in an expression that neither places, defines nor
    /// sizes.
    ValueExprRange,
    /// A division by zero in an expression that neither places, defines nor sizes.
    ValueDivideByZero,
    /// An allocation failed; the line is 0.
    OutOfMemory,
}

impl fmt::Display for AsmFaultKind {
    ghost output = { λ fault. Some (source_fault_text fault) };

    /// Writes the name and the number, as the program prints them.
    fn fmt<W: fmt::Write>(&self, f: &mut fmt::Formatter<W>) -> fmt::Result {
        write!(f, "{} {}", self.name(), self.number())
    }
}

impl AsmFaultKind {
    /// Returns the fault's number.
    pub fn number(&self) -> u8
        ensures { result ≡ source_fault_number self.now }
    {
        self.entry().0
    }

    /// Returns the fault's name. Two kinds have the name `ExprRange`, and two `DivideByZero`.
    pub fn name(&self) -> &'static str
        ensures { result.now ≡ source_fault_name self.now }
    {
        self.entry().1
    }

    /// The fault's line in the table of numbers and names.
    fn entry(&self) -> (u8, &'static str)
        ensures number { result.0 ≡ source_fault_number self.now }
        ensures name { result.1.now ≡ source_fault_name self.now }
    {
        match self {
            AsmFaultKind::TooLarge => (1, "TooLarge"),
            AsmFaultKind::LineTooLong => (2, "LineTooLong"),
            AsmFaultKind::NotAscii => (3, "NotAscii"),
            AsmFaultKind::Syntax => (4, "Syntax"),
            AsmFaultKind::ReservedName => (5, "ReservedName"),
            AsmFaultKind::DuplicateName => (6, "DuplicateName"),
            AsmFaultKind::UnknownHere => (7, "UnknownHere"),
            AsmFaultKind::NoSuchForm => (8, "NoSuchForm"),
            AsmFaultKind::TooManyNames => (9, "TooManyNames"),
            AsmFaultKind::OriginRange => (10, "OriginRange"),
            AsmFaultKind::ExprRange => (11, "ExprRange"),
            AsmFaultKind::DivideByZero => (12, "DivideByZero"),
            AsmFaultKind::NotOneLine => (13, "NotOneLine"),
            AsmFaultKind::UndefinedName => (20, "UndefinedName"),
            AsmFaultKind::ByteRange => (21, "ByteRange"),
            AsmFaultKind::WordRange => (22, "WordRange"),
            AsmFaultKind::BranchRange => (23, "BranchRange"),
            AsmFaultKind::PastEnd => (24, "PastEnd"),
            AsmFaultKind::Overlap => (25, "Overlap"),
            AsmFaultKind::PortAddress => (26, "PortAddress"),
            AsmFaultKind::ValueExprRange => (27, "ExprRange"),
            AsmFaultKind::ValueDivideByZero => (28, "DivideByZero"),
            AsmFaultKind::OutOfMemory => (99, "OutOfMemory"),
        }
    }
}

/// Why a source is rejected, and on which line.
#[derive(Clone, Copy, Debug, PartialEq, Eq, Error)]
#[error("line {line} {kind}")]
pub struct AsmFault {
    /// The line, counted from 1; 0 for the source as a whole.
    pub line: u32,
    pub kind: AsmFaultKind,
}
