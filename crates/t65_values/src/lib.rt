//! What stands at the front of a text of a test file: words, signs, numbers, addresses, values, and
//! the characters of a string.
//!
//! A call that reads one of these returns it with the text after it. The definitions are
//! `specs/ValueText.antt` and `specs/StringText.antt`; a fault's words are in
//! `specs/FaultWords.antt`, and `specs/Visible.antt` says how bytes of a file are told.
#![tactic(auto)]

mod characters;
mod expression;
mod fault;
mod scan;
mod value;
mod visible;
mod wording;

pub use assembler::Assembly;
pub use characters::character_of;
pub use expression::{Atom, Operation, Operator, Value};
pub use fault::{Base, RowFault, RowFaultKind, TextFault};
pub use lexer::is_next;
pub use scan::{
    address_of, after, after_sign, after_word, ends, fault_at, hex_of, is_text, number_of,
    skip_blanks, wide_number, word_of,
};
pub use value::{Letters, letter_in, value_of};
pub use visible::{characters_of, push_visible, push_visible_text};
