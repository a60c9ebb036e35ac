//! Tokens of source lines.
//!
//! `tokens_into` cuts a line, and `first_stray` finds where a line is no longer made of tokens.
//! `byte_class` and `front` have the classes of bytes and what a text begins with.
//! `proofs/Steps.antt` follows their loops token by token.
#![tactic(auto)]

mod byte_class;
mod front;
mod lexer;
mod stray;
mod token_law;

pub use byte_class::{is_blank_byte, may_be_in_word, string_run, word_run};
pub use front::{blank_run, field_length, first_field, is_next, without_blanks, word_at};
pub use lexer::{all_may_stand, tokens, tokens_into};
pub use stray::first_stray;
pub use token_law::tokens_are_slices;
