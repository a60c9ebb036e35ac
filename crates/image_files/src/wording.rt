//! Words of messages. Definitions in `specs` name them.

pub const LOOKS_EMPTY: &str = "has no record";

pub const LOOKS_RAW: &str =
    "begins with no record: it looks like a raw image (FILE@HHHH, --bin HHHH) or a PRG file (--prg)";

pub const LOOKS_PLAIN: &str =
    "begins with no record: it looks like a text; of a source, asm makes a tape";

pub const LOOKS_CAPTURED: &str =
    "looks like a capture of a KIM-1's terminal: mend makes a tape of it, or says why not";

pub const TOO_LONG: &str = "has more than 16777216 bytes";

pub const PAST_END: &str = "has bytes past address FFFF";

pub const NO_ADDRESS: &str = "has fewer than the two bytes of its address";

/// What begins with a record is not read as raw bytes.
pub const IS_TAPE: &str = "begins with a record of a tape: leave --bin, --prg and @HHHH out";

pub const IS_HEX: &str = "begins with a record of Intel HEX: leave --bin, --prg and @HHHH out";

pub const IS_S_RECORDS: &str = "begins with an S-record: leave --bin, --prg and @HHHH out";

/// What a fault of a text of records means, after its number.
pub const NO_RECORD_BEGINS: &str = ": no record begins there";

pub const NO_HEX_DIGIT: &str = ": no hex digit stands there";

pub const LINE_ENDS: &str = ": the line ends within its record";

pub const LINE_GOES_ON: &str =
    ": the line goes on behind its record, as one that ends with CR alone";

pub const OTHER_SUM: &str = ": the bytes have another sum (info says which)";

pub const NO_TYPE: &str = ": no record has this type";

pub const OTHER_LENGTH: &str = ": a record of this type has another number of bytes";

pub const PAST_LAST: &str = ": a byte stands past address FFFF";

pub const OTHER_COUNT: &str = ": it counts another number of data records";

pub const END_MISSES: &str = ": the end record is missing";
