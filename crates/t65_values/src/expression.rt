//! What a value is made of, as plain types.

/// What joins two numbers; each result is taken modulo 2^32.
#[derive(Clone, Copy)]
pub enum Operation {
    Add,
    Subtract,
    Multiply,
    /// The quotient without its rest; by 0 it is 0.
    Divide,
    /// The rest of a quotient; by 0 it is 0.
    Remainder,
    And,
    Or,
    ExclusiveOr,
}

/// A number, the value of one of a row's ranges, what is in memory, or a random byte.
#[derive(Clone, Copy)]
pub enum Atom {
    Number(u32),
    First,
    Second,
    Third,
    Fourth,
    /// The byte of memory at an address.
    Byte(u16),
    /// The two bytes of memory from an address on, the low one first.
    Word(u16),
    /// The random byte of a place.
    Random(u16),
}

/// An operation and its right side.
#[derive(Clone, Copy)]
pub struct Operator {
    pub operation: Operation,
    pub right: Atom,
}

/// A value of up to three parts, joined from left to right.
#[derive(Clone, Copy)]
pub struct Value {
    pub first: Atom,
    pub second: Option<Operator>,
    pub third: Option<Operator>,
}
