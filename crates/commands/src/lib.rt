//! Command lines and the texts of replies: what a line asks for, and how numbers are printed.
//!
//! Nothing here allocates.
#![tactic(auto)]

pub use command_line::parse;
pub use numbers::{address_of, byte_of, decimal_of, digits};

mod command_line;
mod numbers;
mod words;
