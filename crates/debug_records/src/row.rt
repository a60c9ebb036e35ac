//! A row: which bytes a line has.

use crate::record::LineKind;

/// The bytes of a line, or some of them: those from `start` on and before `end`.
#[derive(Clone, Copy, Debug, PartialEq, Eq)]
pub struct Row {
    /// The number of the file.
    pub file: u32,
    /// The number of the line in its file.
    pub line: u32,
    pub kind: LineKind,
    /// How deep in macros and loops the line stands.
    pub depth: u32,
    pub start: u64,
    pub end: u64,
    /// Whether its segment may have code: it is read only, or its bytes are in a file.
    pub has_code: bool,
    /// Whether the bytes are data, as far as the file says so.
    pub is_data: bool,
}

/// Which of the rows that have a byte is looked for.
#[derive(Clone, Copy)]
pub enum Wanted {
    /// The one that is shown.
    Shown,
    /// The narrowest one that begins there.
    Begun,
}
