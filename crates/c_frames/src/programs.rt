//! A program that cc65 made.

use crate::routines::Routine;

/// A function of C: the address of its first byte, and how many bytes it has.
#[derive(Clone, Copy)]
pub struct Function {
    pub start: u16,
    pub size: u16,
}

/// A program as it was loaded.
#[derive(Clone, Copy)]
pub struct Program<'a> {
    /// The bytes from address 0 on.
    pub memory: &'a [u8],
    /// The routines of cc65's runtime that are known.
    pub routines: &'a [Routine],
    pub functions: &'a [Function],
    /// The address of the software stack pointer in the zero page.
    pub pointer: u8,
}
