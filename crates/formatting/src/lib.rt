//! Digits, columns and texts: what replies, tapes, listings and the disassembler have in common.
//!
//! `hex_digits` is the one place where hex digits are made, and `digit_values` the one where they
//! are read. `columns` has an address in four columns and bytes in eight. `text` puts together the
//! lines of replies without memory, `growing` appends to a text that grows. That the digits are
//! right is computed in `proofs/Digits.antt`, for sixteen places of a table.
#![tactic(auto)]

pub use columns::{address_text, byte_columns};
pub use digit_values::{decimal_value, hex_value};
pub use growing::{push_address, push_blanks, push_byte, push_count, push_text};
pub use hex_digits::{digits_of, digits_of_address};
pub use text::{Text, push_bytes, push_decimal, push_hex_address, push_hex_byte, push_status};

mod columns;
mod digit_values;
mod growing;
mod hex_digits;
mod text;
