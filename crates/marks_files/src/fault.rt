//! Why a file of marks is refused.

ghost use Rattle.std.specs.Prelude.{◌≡◌};
ghost use Rattle.marks_files.specs.declared.fault.MarksError.TheVariants.{Memory};

use std::alloc::AllocError;

/// What is wrong with a line of a file of marks. Source: mos65.
#[derive(Clone, Copy, Debug, PartialEq, Eq)]
pub enum MarksFaultKind {
    /// No mark has this word.
    UnknownMark,
    /// The value is no range, as 0200-02FF.
    BadRange,
    /// The value is no address, as 0200.
    BadAddress,
    /// The value is no routine, as 0200=z or 0200=12.
    BadRoutine,
    /// The name cannot stand in a source.
    BadName,
    /// The name was given to another address before.
    DuplicateName,
    /// The comment is empty, has more than 120 bytes, or one that a source cannot have.
    BadText,
    /// Something stands behind the mark that is no comment.
    JunkBehind,
    /// Another mark, or an option, says something else of this address.
    Disagrees,
    /// The count is none from 1 on, or the tables go past address 65535.
    BadCount,
}

impl MarksFaultKind {
    ghost use Rattle.marks_files.specs.MarksFault.{marks_fault_name, marks_fault_number};

    /// Returns the kind's number, 1 to 10. Source: mos65.
    pub fn number(&self) -> u8
        ensures { result ≡ marks_fault_number self.now }
    {
        self.entry().0
    }

    /// Returns the kind's name, as the program prints it. Source: mos65.
    pub fn name(&self) -> &'static str
        ensures { result.now ≡ marks_fault_name self.now }
    {
        self.entry().1
    }

    /// The fault's line in the table of numbers and names.
    fn entry(&self) -> (u8, &'static str)
        ensures number { result.0 ≡ marks_fault_number self.now }
        ensures name { result.1.now ≡ marks_fault_name self.now }
    {
        match self {
            MarksFaultKind::UnknownMark => (1, "UnknownMark"),
            MarksFaultKind::BadRange => (2, "BadRange"),
            MarksFaultKind::BadAddress => (3, "BadAddress"),
            MarksFaultKind::BadRoutine => (4, "BadRoutine"),
            MarksFaultKind::BadName => (5, "BadName"),
            MarksFaultKind::DuplicateName => (6, "DuplicateName"),
            MarksFaultKind::BadText => (7, "BadText"),
            MarksFaultKind::JunkBehind => (8, "JunkBehind"),
            MarksFaultKind::Disagrees => (9, "Disagrees"),
            MarksFaultKind::BadCount => (10, "BadCount"),
        }
    }
}

/// The first fault of a file of marks, with its line and its column, both counted from 1.
#[derive(Clone, Copy, Debug, PartialEq, Eq)]
pub struct MarksFault {
    pub line: usize,
    pub column: usize,
    pub kind: MarksFaultKind,
}

/// Why no marks are read.
#[derive(Clone, Copy, Debug, PartialEq, Eq)]
pub enum MarksError {
    /// The file has this fault.
    Fault(MarksFault),
    /// Memory ran out.
    Memory,
}

impl From<AllocError> for MarksError {
    ghost from_gives = { λ error why. why ≡ Memory };

    fn from(_error: AllocError) -> MarksError {
        MarksError::Memory
    }
}

/// Returns a fault in its place.
pub fn fault_at(line: usize, column: usize, kind: MarksFaultKind) -> MarksFault
    ensures { result ≡ record { line = line; column = column; kind = kind } }
{
    MarksFault { line, column, kind }
}
