//! What a byte of an image is taken for.

/// What a byte is marked as: part of an instruction, a number, a letter of a text, half of an
/// address, or half of the address before one to which RTS goes.
#[derive(Clone, Copy, Debug, PartialEq, Eq, Drop)]
pub enum Mark {
    Code,
    Data,
    Text,
    Address,
    Return,
}
