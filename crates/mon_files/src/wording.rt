//! The words of what is said of a file, behind its name.

/// What is said in place of a name.
pub const NOT_UTF8: &str = "a name that is no UTF-8";

pub const NOT_WRITTEN: &str = " cannot be written";

pub const OWN_FILE: &str = " is a file of this session; save under another name\n";

pub const BYTE_IS_SAVED: &str = " byte is saved\n";

pub const BYTES_ARE_SAVED: &str = " bytes are saved\n";

/// What is said of the bytes that a form without addresses has between those of memory.
pub const BYTE_FILLS_GAP: &str = " byte FF fills a gap\n";

pub const BYTES_FILL_GAPS: &str = " bytes FF fill gaps\n";

pub const NONE_HELD: &str = " is not written: no step was made yet, or its history is gone\n";

pub const EVENT: &str = " event, ";

pub const EVENTS: &str = " events, ";

pub const BYTE: &str = " byte\n";

pub const BYTES: &str = " bytes\n";

/// What a page says of its end.
pub const HERE: &str = "here the page was written";
