//! Records of a debug file.

/// A source, with its size when it was assembled, as far as that is told.
#[derive(Clone, Copy)]
pub struct File<'a> {
    pub name: &'a [u8],
    pub size: Option<u32>,
}

/// A file that the linker wrote, and a place in it.
#[derive(Clone, Copy)]
pub struct Output<'a> {
    pub name: &'a [u8],
    pub offset: u32,
}

/// A segment: its name, where it runs, whether it is read only, and its bytes in a file of ld65.
#[derive(Clone, Copy)]
pub struct Segment<'a> {
    pub name: &'a [u8],
    pub start: u32,
    pub size: u32,
    pub is_read_only: bool,
    pub output: Option<Output<'a>>,
}

/// A name, its value if its module defines it, and whether it is a label.
#[derive(Clone, Copy)]
pub struct Symbol<'a> {
    pub name: &'a [u8],
    pub value: Option<u32>,
    pub is_label: bool,
}

/// Bytes of a segment, from its start on. They are data if they have a type.
#[derive(Clone, Copy)]
pub struct Span {
    pub segment: u32,
    pub start: u32,
    pub size: u32,
    pub is_data: bool,
}

/// What a line is a line of.
#[derive(Clone, Copy, Debug, PartialEq, Eq)]
pub enum LineKind {
    /// A source of the assembler.
    Assembler,
    /// A source in C.
    C,
    /// The body of a macro.
    Macro,
    /// The text of a parameter of a macro.
    Parameter,
}

/// A line of a file; `depth` says how deep in macros and loops it stands.
#[derive(Clone, Copy)]
pub struct Line {
    pub file: u32,
    pub line: u32,
    pub kind: LineKind,
    pub depth: u32,
}

/// A scope: its name, how many bytes it has, and its symbol, where it has these.
#[derive(Clone, Copy)]
pub struct Scope<'a> {
    pub name: &'a [u8],
    pub size: Option<u32>,
    pub symbol: Option<u32>,
}

/// Where a name of C is kept.
#[derive(Clone, Copy, Debug, PartialEq, Eq)]
pub enum Storage {
    /// On the software stack, at an offset of its function's frame.
    Auto,
    /// In the bank of registers.
    Register,
    /// At an address that its module alone knows.
    Static,
    /// At an address that other modules know.
    External,
}

/// A name of C: its scope, where it is kept, at which offset, and its symbol, if it has one.
#[derive(Clone, Copy)]
pub struct CSymbol<'a> {
    pub name: &'a [u8],
    pub scope: u32,
    pub storage: Storage,
    /// 0 if none is told.
    pub offset: i32,
    pub symbol: Option<u32>,
}
