//! Why a line is no row.

ghost use Rattle.std.specs.Prelude.{◌≡◌, Some};
ghost use Rattle.t65_values.specs.FaultWords.{example_words, fault_words};

use crate::wording;
use std::fmt;

/// How the digits of a bare number are read.
#[derive(Clone, Copy)]
pub enum Base {
    Hex,
    Decimal,
}

/// Why a line is no row.
#[derive(Clone, Copy)]
pub enum RowFaultKind {
    /// Something else has to stand there.
    Syntax,
    /// A number has to stand there.
    NoNumber(Base),
    /// A name or an address has to stand there.
    NoAddress,
    /// `=` has to stand there.
    NoEquals,
    /// `:` has to stand there.
    NoColon,
    /// `]` has to stand there.
    NoBracket,
    /// A string has no second `"`.
    OpenString,
    /// `call` or `interrupt` has to stand there.
    NoCall,
    /// The line ends, and has no `->`.
    NoArrow,
    /// A place has to stand there: a register, a flag, memory, input, output or the cycles.
    NoPlace,
    /// What a place is compared by has to stand there.
    NoRelation,
    /// Before `->` a place is given a value, and not compared with one.
    NotGiven,
    /// A range has to stand there.
    NoRange,
    /// Where random numbers begin has to stand there.
    NoSeed,
    /// When an interrupt comes has to stand there.
    NoTime,
    /// A number has more than four hex digits, or more than seven decimal ones.
    LongNumber(Base),
    /// The source does not define the name.
    UndefinedName,
    /// The number of the name or the address is outside 0..65535.
    AddressRange,
    /// The last value of a range is below its first.
    EmptyRange,
    /// No function of C has the name.
    NoFunction,
    /// It is not known how the function takes its parameters.
    UnknownParameters,
    /// It is not said where the C stack begins.
    NoStack,
    /// A name of cc65's runtime is not known.
    NoRuntimeName,
    /// The function has another number of parameters.
    ParameterCount,
    /// A text is given for a parameter of another size than an address.
    TextSize,
    /// A result has a number of digits that no result of C has, or too many parts.
    ResultSize,
    /// The C stack has no room for the parameters and the texts.
    StackRoom,
    /// A row of a file names a second source.
    SecondSource,
    /// The first line that is not blank names no source.
    NoSource,
    /// A request for memory was refused.
    OutOfMemory,
}

impl RowFaultKind {
    /// Returns the words of the fault.
    fn words(&self) -> &'static str
        ensures { result.now ≡ fault_words self.now }
    {
        match self {
            RowFaultKind::Syntax => wording::SYNTAX,
            RowFaultKind::NoNumber(Base::Hex) => wording::NO_HEX,
            RowFaultKind::NoNumber(Base::Decimal) => wording::NO_DECIMAL,
            RowFaultKind::NoAddress => wording::NO_ADDRESS,
            RowFaultKind::NoEquals => wording::NO_EQUALS,
            RowFaultKind::NoColon => wording::NO_COLON,
            RowFaultKind::NoBracket => wording::NO_BRACKET,
            RowFaultKind::OpenString => wording::OPEN_STRING,
            RowFaultKind::NoCall => wording::NO_CALL,
            RowFaultKind::NoArrow => wording::NO_ARROW,
            RowFaultKind::NoPlace => wording::NO_PLACE,
            RowFaultKind::NoRelation => wording::NO_RELATION,
            RowFaultKind::NotGiven => wording::NOT_GIVEN,
            RowFaultKind::NoRange => wording::NO_RANGE,
            RowFaultKind::NoSeed => wording::NO_SEED,
            RowFaultKind::NoTime => wording::NO_TIME,
            RowFaultKind::LongNumber(Base::Hex) => wording::LONG_HEX,
            RowFaultKind::LongNumber(Base::Decimal) => wording::LONG_DECIMAL,
            RowFaultKind::UndefinedName => wording::UNDEFINED_NAME,
            RowFaultKind::AddressRange => wording::ADDRESS_RANGE,
            RowFaultKind::EmptyRange => wording::EMPTY_RANGE,
            RowFaultKind::NoFunction => wording::NO_FUNCTION,
            RowFaultKind::UnknownParameters => wording::UNKNOWN_PARAMETERS,
            RowFaultKind::NoStack => wording::NO_STACK,
            RowFaultKind::NoRuntimeName => wording::NO_RUNTIME_NAME,
            RowFaultKind::ParameterCount => wording::PARAMETER_COUNT,
            RowFaultKind::TextSize => wording::TEXT_SIZE,
            RowFaultKind::ResultSize => wording::RESULT_SIZE,
            RowFaultKind::StackRoom => wording::STACK_ROOM,
            RowFaultKind::SecondSource => wording::SECOND_SOURCE,
            RowFaultKind::NoSource => wording::NO_SOURCE,
            RowFaultKind::OutOfMemory => wording::OUT_OF_MEMORY,
        }
    }

    /// Returns an example of what has to stand there, for the faults that a first file has; no byte
    /// for the others.
    pub fn example(&self) -> &'static str
        ensures { result.now ≡ example_words self.now }
    {
        match self {
            RowFaultKind::Syntax
            | RowFaultKind::NoCall
            | RowFaultKind::NoArrow
            | RowFaultKind::NoPlace
            | RowFaultKind::NoRelation => wording::ROW_EXAMPLE,
            RowFaultKind::NoRange | RowFaultKind::NoSeed => wording::RANDOM_EXAMPLE,
            RowFaultKind::NoTime => wording::TIME_EXAMPLE,
            RowFaultKind::NoSource => wording::SOURCE_EXAMPLE,
            RowFaultKind::NoStack => wording::STACK_EXAMPLE,
            RowFaultKind::NoNumber(_)
            | RowFaultKind::NoAddress
            | RowFaultKind::NoEquals
            | RowFaultKind::NoColon
            | RowFaultKind::NoBracket
            | RowFaultKind::OpenString
            | RowFaultKind::NotGiven
            | RowFaultKind::LongNumber(_)
            | RowFaultKind::UndefinedName
            | RowFaultKind::AddressRange
            | RowFaultKind::EmptyRange
            | RowFaultKind::NoFunction
            | RowFaultKind::UnknownParameters
            | RowFaultKind::NoRuntimeName
            | RowFaultKind::ParameterCount
            | RowFaultKind::TextSize
            | RowFaultKind::ResultSize
            | RowFaultKind::StackRoom
            | RowFaultKind::SecondSource
            | RowFaultKind::OutOfMemory => wording::NO_EXAMPLE,
        }
    }
}

impl fmt::Display for RowFaultKind {
    ghost output = { λ kind. Some (fault_words kind) };

    fn fmt<W: fmt::Write>(&self, f: &mut fmt::Formatter<W>) -> fmt::Result {
        let text = self.words();
        write!(f, "{text}")
    }
}

/// Why a line is no row, and how many of its bytes are left where that is seen.
#[derive(Clone, Copy)]
pub struct RowFault {
    pub left: usize,
    pub kind: RowFaultKind,
}

/// The fault of a text: its line and its column, both counted from 1.
#[derive(Clone, Copy)]
pub struct TextFault {
    pub line: u32,
    pub column: usize,
    pub kind: RowFaultKind,
}
