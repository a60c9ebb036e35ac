//! The words that say what a fault of a tape means. `specs/Meanings.antt` says which comes when.

pub const NO_RECORD: &str = "there is no record";

pub const SUM_IS_WRONG: &str = "the record's sum is wrong";

pub const RECORD_SUMS_TO: &str = "the record's bytes sum to ";

pub const END_RECORD_SUMS_TO: &str = "end record: its bytes sum to ";

pub const ITS_CHECKSUM_IS: &str = ", and its checksum is ";

pub const COUNT_TWICE: &str =
    "end record: the sum is the record count twice, as srec_cat writes it";

pub const PAST_END: &str = "the record goes past address FFFF";

pub const END_RECORD_COUNTS: &str = "end record: it counts ";

pub const COUNTS_ANOTHER: &str = "end record: it counts another number of records";

pub const BYTE: &str = "byte";

pub const BYTES: &str = "bytes";

pub const RECORD: &str = "record";

pub const RECORDS: &str = "records";

pub const AND_THERE: &str = ", and there ";

pub const IS: &str = "is";

pub const ARE: &str = "are";

pub const LINE_END_WITHIN: &str = "a line end or a NUL stands within a record";

pub const IS_NO_HEX_DIGIT: &str = " stands within a record, and is no hex digit";

pub const ENDS_WITHIN_RECORD: &str = "the tape ends within a record";

pub const END_RECORD_IS_MISSING: &str = "end record: it is missing";

pub const AFTER_END_RECORD: &str = " comes after the end record";

pub const IS_NO_SEMICOLON: &str = " stands where a record may begin, and is no `;`";

pub const OUT_OF_MEMORY: &str = "out of memory";

pub const TOO_LONG: &str = "the file is too long";
