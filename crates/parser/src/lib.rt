//! Expressions from the tokens of source lines.
//!
//! `parse_expr` finds the longest expression at the front of some tokens. `proofs/Derived.antt` and
//! `proofs/Grammar.antt` show in both directions that what is found is the grammar's;
//! `proofs/Longest.antt` shows that it is the longest.
#![tactic(auto)]

mod atom;
mod law;
mod parse;

pub use atom::symbol;
pub use law::{expressions_are_longest, one_expression};
pub use parse::parse_expr;
