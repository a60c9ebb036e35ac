//! Expressions as trees.

use model::Operator;

/// An expression, whose names are slices of its line.
///
/// A tree is as deep as its sums have operators and brackets.
#[derive(Drop)]
pub enum Expr<'a> {
    /// A literal's number, or `None` if it is above 2^31 - 1.
    Literal(Option<i32>),
    /// A name, in its own letter case.
    Name(&'a [u8]),
    /// `*`, the line's address.
    Here,
    /// `-` before an expression.
    Negated(Box<Expr<'a>>),
    /// An operator between two expressions.
    Binary(Operator, Box<Expr<'a>>, Box<Expr<'a>>),
    /// `<` before a whole expression: its low byte.
    Low(Box<Expr<'a>>),
    /// `>` before a whole expression: its high byte.
    High(Box<Expr<'a>>),
}
