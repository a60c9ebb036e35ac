//! What is wrong with a debug file or a listing, and where.

ghost use Rattle.std.specs.Prelude.{◌≡◌, ◌<◌, ◌^◌};
ghost use Rattle.debug_records.specs.Faults.{column_of, fault_in};

use std::alloc::{AllocError, AllocFailed};

/// What is wrong with a debug file, or with a listing. Source: mos65.
#[derive(Clone, Copy, Debug, PartialEq, Eq)]
pub enum DebugFaultKind {
    /// No tab stands behind the word of a line.
    NoTab,
    /// No field `NAME=VALUE` stands here.
    NoField,
    /// The `"` of a text has no second one.
    OpenText,
    /// A name stands in its line already.
    NameTwice,
    /// A value is no number, or one above 4,294,967,295.
    NoNumber,
    /// A value is no text between two `"`.
    NoText,
    /// No line has this type.
    NoKind,
    /// A record lacks a field that it must have.
    Missing,
    /// The first line is no `version`.
    NoVersion,
    /// The major version is not 2.
    OtherVersion,
    /// Another record of the word has this number.
    IdTwice,
    /// There are too many records of the word, or too many spans of lines.
    TooMany,
    /// There is no record with the number that is referred to.
    NoRecord,
    /// The file has more than 16 MiB.
    TooLarge,
    /// The spans of all lines have more than 16,777,216 bytes.
    LongSpans,
    /// The file is neither a debug file nor a listing.
    NoForm,
    /// The listing has no numbers of lines.
    NoNumbers,
    /// A row of a listing has no number of a line.
    NoLineNumber,
    /// The listing has no columns, or others.
    NoColumns,
    /// A line of a listing names no file.
    NoHead,
    /// The bytes of a row are no pairs of hex digits.
    NoBytes,
}

/// What is wrong with a line, and how many bytes of it are left where the fault stands.
#[derive(Clone, Copy)]
pub struct LineFault {
    pub kind: DebugFaultKind,
    pub left: usize,
}

/// Why a line was not read.
#[derive(Clone, Copy)]
pub enum LineError {
    Fault(LineFault),
    Memory,
}

/// The first fault of a debug file, with its line and column, both from 1 on.
#[derive(Clone, Copy, Debug, PartialEq, Eq)]
pub struct DebugFault {
    pub line: u32,
    pub column: usize,
    pub kind: DebugFaultKind,
}

/// Why a debug file was not read.
#[derive(Clone, Copy, Debug, PartialEq, Eq)]
pub enum DebugError {
    /// It has this fault.
    Fault(DebugFault),
    /// An allocation failed.
    OutOfMemory,
}

/// The number of a line, and how many bytes it has.
#[derive(Clone, Copy)]
pub struct Place {
    pub line: u32,
    pub length: usize,
}

impl From<AllocError> for LineError {
    ghost use Rattle.debug_records.specs.declared.fault.LineError.TheVariants.{Memory};

    ghost from_gives = { λ _ e. e ≡ Memory };

    fn from(_error: AllocError) -> LineError {
        LineError::Memory
    }
}

impl<T: Drop> From<AllocFailed<T>> for LineError {
    ghost use Rattle.debug_records.specs.declared.fault.LineError.TheVariants.{Memory};

    ghost from_gives = { λ _ e. e ≡ Memory };

    fn from(_refused: AllocFailed<T>) -> LineError {
        LineError::Memory
    }
}

impl From<LineFault> for LineError {
    ghost use Rattle.debug_records.specs.declared.fault.LineError.TheVariants.{Fault};

    ghost from_gives = { λ fault e. e ≡ Fault fault };

    fn from(fault: LineFault) -> LineError {
        LineError::Fault(fault)
    }
}

/// Returns the column of what stands before so many bytes of a line that has so many.
pub fn column_of(length: usize, left: usize) -> usize
    requires { length < 2 ^ 32 }
    ensures { result ≡ column_of length left }
{
    length.saturating_sub(left) + 1
}

/// Returns the fault of a line, by its number and its length.
pub fn fault_in(place: Place, fault: LineFault) -> DebugFault
    requires { place.length < 2 ^ 32 }
    ensures { result ≡ fault_in place fault }
{
    DebugFault {
        line: place.line,
        column: column_of(place.length, fault.left),
        kind: fault.kind,
    }
}
