//! A line of a source: from its text to what it says.
//!
//! `read_line_with` is the one reader, for the assembler's lines and, as `read_line`, for one line
//! alone. The definition is `SourceLine.antt` of `model`; `specs` here only says how the
//! definitions see parts that are borrowed from the line.
#![tactic(auto)]

mod expressions;
mod law;
mod operand;
mod reserved;
mod text;
mod token_tests;

pub use law::{each_line_is_read, each_read_line_is_a_line};
pub use line_parts::{Expr, Item, Line, LineError, Operand, Statement, Token};
pub use model::{AsmFaultKind, Index, Mnemonic, Profile};
pub use text::{read_line, read_line_with};
pub use token_tests::is_symbol;
