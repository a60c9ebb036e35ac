//! Why a text or some bytes are no image.

ghost use Rattle.std.specs.Prelude.{◌≡◌};
ghost use Rattle.image_reader.specs.declared.fault.ImageFault.TheVariants.{OutOfMemory, Record};
ghost use Rattle.image_reader.specs.declared.fault.ImageReadFault.TheVariants.{Image};

use model::TapeFault;
use std::alloc::AllocError;

/// What is wrong with a text of Intel HEX or of S-records. Source: mos65.
#[derive(Clone, Copy, Debug, PartialEq, Eq)]
pub enum RecordFaultKind {
    /// A line does not begin with the mark of a record: `:`, or `S`.
    NoMark,
    /// A byte of a record is not a hex digit.
    BadHex,
    /// A line ends before all digits of its record.
    ShortRecord,
    /// A line goes on after all digits of its record.
    LongRecord,
    /// The checksum of a record is not that of its bytes.
    BadChecksum,
    /// No record has this type.
    UnknownType,
    /// A record has another number of bytes than its type.
    BadLength,
    /// A record has a byte past address 65535.
    PastEnd,
    /// The number in a count record differs from the number of data records.
    BadCount,
    /// The text ends without an end record.
    NoEnd,
}

impl RecordFaultKind {
    ghost use Rattle.image_reader.specs.RecordFault.{record_fault_name, record_fault_number};

    /// Returns the kind's number, 1 to 10. Source: mos65.
    pub fn number(&self) -> u8
        ensures { result ≡ record_fault_number self.now }
    {
        self.entry().0
    }

    /// Returns the kind's name, as the program prints it. Source: mos65.
    pub fn name(&self) -> &'static str
        ensures { result.now ≡ record_fault_name self.now }
    {
        self.entry().1
    }

    /// The fault's line in the table of numbers and names.
    fn entry(&self) -> (u8, &'static str)
        ensures number { result.0 ≡ record_fault_number self.now }
        ensures name { result.1.now ≡ record_fault_name self.now }
    {
        match self {
            RecordFaultKind::NoMark => (1, "NoMark"),
            RecordFaultKind::BadHex => (2, "BadHex"),
            RecordFaultKind::ShortRecord => (3, "ShortRecord"),
            RecordFaultKind::LongRecord => (4, "LongRecord"),
            RecordFaultKind::BadChecksum => (5, "BadChecksum"),
            RecordFaultKind::UnknownType => (6, "UnknownType"),
            RecordFaultKind::BadLength => (7, "BadLength"),
            RecordFaultKind::PastEnd => (8, "PastEnd"),
            RecordFaultKind::BadCount => (9, "BadCount"),
            RecordFaultKind::NoEnd => (10, "NoEnd"),
        }
    }
}

/// What is wrong with a line, and in which column, from 1 on.
#[derive(Clone, Copy)]
pub struct LineFault {
    pub kind: RecordFaultKind,
    pub column: u32,
}

/// The first fault of a text, with its line and column, both from 1 on.
///
/// A line past 4,294,967,295 has that number.
#[derive(Clone, Copy, Debug, PartialEq, Eq)]
pub struct RecordFault {
    pub line: u32,
    pub column: u32,
    pub kind: RecordFaultKind,
}

/// Why some bytes are no image in a form.
#[derive(Clone, Copy, Debug, PartialEq, Eq)]
pub enum ImageFault {
    /// The text of Intel HEX or of S-records has this fault.
    Record(RecordFault),
    /// The tape has this fault.
    Tape(TapeFault),
    /// Raw bytes, or those of a PRG file, go on past address 65535.
    PastEnd,
    /// A PRG file has fewer than the two bytes of its address.
    NoAddress,
    /// An allocation failed.
    OutOfMemory,
}

/// Why no image was read from a reader.
#[derive(Clone, Copy, Debug, PartialEq, Eq)]
pub enum ImageReadFault {
    /// What was read is no image, or memory ran out.
    Image(ImageFault),
    /// A read failed.
    Read,
}

impl From<AllocError> for ImageReadFault {
    ghost from_gives = { λ _ f. f ≡ Image OutOfMemory };

    fn from(_error: AllocError) -> ImageReadFault {
        ImageReadFault::Image(ImageFault::OutOfMemory)
    }
}

impl From<RecordFault> for ImageReadFault {
    ghost from_gives = { λ fault f. f ≡ Image (Record fault) };

    fn from(fault: RecordFault) -> ImageReadFault {
        ImageReadFault::Image(ImageFault::Record(fault))
    }
}
