//! What an instruction is encoded by.

use model::Mode;

/// An instruction's opcode, and the mode of its operand.
#[derive(Clone, Copy)]
pub struct Code {
    pub opcode: u8,
    pub mode: Mode,
}
