//! The words of the rows. `specs/Rows.antt` says where each stands.

pub const LINKER: &str = "debug   ld65, ";

pub const LISTING: &str = "debug   64tass, ";

pub const REPORT: &str = "debug   ACME, ";

pub const BYTE: &str = "byte";

pub const BYTES: &str = "bytes";

pub const LINE: &str = "line";

pub const LINES: &str = "lines";

pub const FILE_ROW: &str = "file    ";

pub const SAME: &str = ", found";

pub const CHANGED: &str = ", found with another size";

pub const MISSING: &str = ", not found";

pub const TWICE: &str = "; two files have this name, no line of them is shown";

pub const SEGMENT_ROW: &str = "segment ";

pub const HIDDEN_ROW: &str = "hidden  ";

pub const NONE_SHOWN: &str = "  no line is shown; segments";
