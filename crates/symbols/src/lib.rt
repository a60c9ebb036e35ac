//! The names of a source with their numbers, and the values of expressions.
//!
//! `Symbols` is the list of definitions so far, in their order, found by hash; a lookup finds the
//! first one. The hash map is the kit's. `eval` has an expression's value, or its first fault.
#![tactic(auto)]

mod symbols;
mod value;

pub use symbols::Symbols;
pub use value::{Names, eval};
