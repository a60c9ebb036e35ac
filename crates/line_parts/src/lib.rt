//! The parts of a source's lines, borrowed from its text.
//!
//! They are the lines themselves with the place of each, tokens, expressions, operands, statements,
//! and what is kept of a line that denotes bytes. `next_line` cuts a line from the text, `located`
//! makes a fault of an error and a line number, and `term_of` looks at an operand's expression.
#![tactic(auto)]

mod code;
mod fault;
mod kept_line;
mod line;
mod refusal;
mod span;
mod statement;
mod token;
mod tree;

pub use code::Code;
pub use fault::LineError;
pub use kept_line::KeptLine;
pub use line::next_line;
pub use refusal::{OUT_OF_MEMORY, fault_on_line};
pub use span::Span;
pub use statement::{Item, Line, Operand, Statement, term_of};
pub use token::Token;
pub use tree::Expr;
