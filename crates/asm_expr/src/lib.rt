//! Tokens and expressions of source lines: the calls of `lexer`, `parser` and `symbols` in one
//! place.
//!
//! `tokens_into` cuts a line, `parse_expr` finds the longest expression at the front of some
//! tokens, `eval` returns its value.
#![tactic(auto)]

pub use lexer::{all_may_stand, tokens, tokens_are_slices, tokens_into};
pub use line_parts::{Expr, Token};
pub use model::{ExprFault, LineFault, Operator, TokenKind};
pub use parser::{expressions_are_longest, one_expression, parse_expr, symbol};
pub use symbols::{Names, eval};
