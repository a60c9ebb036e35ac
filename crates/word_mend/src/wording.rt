//! The words that say what was mended. `specs/Reported.antt` says which comes when.

pub const NOTHING_WAS_WRONG: &str = "nothing was wrong\n";

pub const LINE_END_WITHIN: &str = "line end or NUL within a record\n";

pub const LINE_ENDS_WITHIN: &str = "line ends or NULs within records\n";

pub const END_RECORD_WAS_MISSING: &str = "end record: it was missing\n";

pub const SUM_WAS_WRONG: &str = "end record: its sum was wrong\n";

pub const END_RECORD_COUNTED: &str = "end record: it counted ";

pub const LINE: &str = "line ";

pub const THE_CHECKSUM_WAS: &str = ": the checksum was ";

pub const AND_IS_NOW: &str = ", and is now ";

pub const LEFT_OUT: &str = "left out: ";

pub const BEFORE_RECORD: &str = " of text before the first record, in line ";

pub const BEHIND_END_RECORD: &str = " of text behind the end record, in line ";
