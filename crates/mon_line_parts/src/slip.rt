//! What is missing or wrong in a line.

/// What is missing in a line.
#[derive(Clone, Copy)]
pub enum Lack {
    HexDigits,
    BinaryDigits,
    Address,
    Value,
    Number,
    /// A number after a plus.
    Addend,
    /// A number after a minus.
    Subtrahend,
    /// A byte of text.
    Text,
    /// The sign of a test.
    Comparison,
    /// How often the tests of a break have to hold.
    Times,
    /// The points between two addresses.
    Points,
    /// A last address that is not below the first.
    LastAddress,
    Register,
    /// The level of the interrupt line.
    Level,
    Instruction,
    /// The name of a file.
    File,
}

/// What is wrong in a line that asks for nothing that can be done.
#[derive(Clone, Copy)]
pub enum Flaw<'a> {
    /// No word begins so.
    Unknown(&'a [u8]),
    /// More than one word begins so.
    Several(&'a [u8]),
    /// Something is missing.
    Missing(Lack),
    /// This cannot be read there.
    Unreadable(&'a [u8]),
    /// This is left over.
    Behind(&'a [u8]),
    /// The program has no such name.
    NoName(&'a [u8]),
    /// A number is not between these two.
    Range { least: u32, most: u32 },
    /// No line of the source from this one on has bytes.
    NoBytes(u32),
    /// This is the name of a file, and not that of the source.
    OtherSource(&'a [u8]),
    /// No line of a source is known.
    NoSource,
    /// There are more than fit.
    Many,
    /// The line has more than 255 bytes.
    Long,
}
