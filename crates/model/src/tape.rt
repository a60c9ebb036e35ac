//! Why a text is not a tape.

use std::alloc::AllocError;
use std::fmt;
use thiserror::Error;

/// What is wrong with a text that is read as a tape. Source: mos65.
#[derive(Clone, Copy, Debug, PartialEq, Eq, Error)]
pub enum TapeFaultKind {
    /// The text ends before any record begins.
    NoRecord,
    /// A byte in a record is not a hex digit.
    BadHex,
    /// All digits of a record are there, and its sum differs from its checksum.
    BadChecksum,
    /// A data record would put a byte past address 65535.
    PastEnd,
    /// The text ends in a record, or after data records without an end record.
    Truncated,
    /// The number in the end record differs from the number of data records.
    BadCount,
    /// A byte that is not skipped comes after the end record.
    JunkAfterEnd,
    /// A byte that is neither `;` nor skipped comes where a record may begin.
    JunkBetween,
    /// An allocation failed.
    OutOfMemory,
    /// A tape that is read in pieces goes on after 4,294,967,295 bytes.
    TooLong,
}

impl fmt::Display for TapeFaultKind {
    ghost use Rattle.std.specs.Prelude.{Some};
    ghost use Rattle.model.specs.FaultTexts.{tape_fault_text};

    ghost output = { λ fault. Some (tape_fault_text fault) };

    /// Writes the name and the number, as the program prints them.
    fn fmt<W: fmt::Write>(&self, f: &mut fmt::Formatter<W>) -> fmt::Result {
        write!(f, "{} {}", self.name(), self.number())
    }
}

impl TapeFaultKind {
    ghost use Rattle.std.specs.Prelude.{◌≡◌};
    ghost use Rattle.model.specs.TapeFault.{tape_fault_name, tape_fault_number};

    /// Returns the kind's number, 1 to 10. Source: mos65.
    pub fn number(&self) -> u8
        ensures { result ≡ tape_fault_number self.now }
    {
        self.entry().0
    }

    /// Returns the kind's name, as the program prints it. Source: mos65.
    pub fn name(&self) -> &'static str
        ensures { result.now ≡ tape_fault_name self.now }
    {
        self.entry().1
    }

    /// The fault's line in the table of numbers and names.
    fn entry(&self) -> (u8, &'static str)
        ensures number { result.0 ≡ tape_fault_number self.now }
        ensures name { result.1.now ≡ tape_fault_name self.now }
    {
        match self {
            TapeFaultKind::NoRecord => (1, "NoRecord"),
            TapeFaultKind::BadHex => (2, "BadHex"),
            TapeFaultKind::BadChecksum => (3, "BadChecksum"),
            TapeFaultKind::PastEnd => (4, "PastEnd"),
            TapeFaultKind::Truncated => (5, "Truncated"),
            TapeFaultKind::BadCount => (6, "BadCount"),
            TapeFaultKind::JunkAfterEnd => (7, "JunkAfterEnd"),
            TapeFaultKind::JunkBetween => (8, "JunkBetween"),
            TapeFaultKind::OutOfMemory => (9, "OutOfMemory"),
            TapeFaultKind::TooLong => (10, "TooLong"),
        }
    }
}

/// The first fault of a text, and its offset.
#[derive(Clone, Copy, Debug, PartialEq, Eq, Error)]
#[error("byte {offset} {kind}")]
pub struct TapeFault {
    /// In bytes from the text's beginning; 0 if an allocation failed.
    pub offset: u64,
    pub kind: TapeFaultKind,
}

/// The fault that is returned if an allocation fails.
pub const TAPE_OUT_OF_MEMORY: TapeFault = TapeFault {
    offset: 0,
    kind: TapeFaultKind::OutOfMemory,
};

impl From<AllocError> for TapeFault {
    ghost use Rattle.std.specs.Prelude.{◌≡◌};
    ghost use Rattle.model.specs.TapeFault.{out_of_memory};

    ghost from_gives = { λ _ f. f ≡ out_of_memory };

    fn from(_error: AllocError) -> TapeFault {
        TAPE_OUT_OF_MEMORY
    }
}
