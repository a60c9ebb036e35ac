//! A warning.

/// A vector: two bytes with the address at which an interrupt or a reset begins.
#[derive(Clone, Copy, Debug, PartialEq, Eq)]
pub enum Vector {
    /// At $FFFA.
    Nmi,
    /// At $FFFC.
    Reset,
    /// At $FFFE.
    Irq,
}

/// What may be meant otherwise.
#[derive(Clone, Copy, Debug, PartialEq, Eq)]
pub enum WarningKind {
    /// An operand is a number alone, an address that nothing writes.
    PlainNumber,
    /// No expression uses a name.
    UnusedName,
    /// A name that is defined later made an instruction one byte longer.
    LongForm,
    /// A name differs from an earlier one only in letter case.
    LetterCase,
    /// A source has names, but neither an instruction nor a byte.
    NoBytes,
    /// `.END` cuts off an instruction or bytes.
    AfterEnd,
    /// A source has an instruction, and no byte of the reset vector.
    NoVector,
    /// Control comes from an instruction to a place where none begins.
    FallsOff,
    /// A jump goes through a pointer at the end of this page, in profile N.
    PointerWrap(u8),
    /// A name is that of a register in `mon`.
    RegisterName,
    /// The whole address of an operand stands in square brackets, where a pointer could.
    SquareBrackets,
    /// A vector leads to data, on this line.
    VectorToData(Vector, u32),
    /// A vector leads to a handler that ends in RTS.
    HandlerReturns(Vector),
}

/// A warning, with the number of its line, counted from 1.
#[derive(Clone, Copy, Debug, PartialEq, Eq)]
pub struct Warning {
    pub line: u32,
    pub kind: WarningKind,
}
