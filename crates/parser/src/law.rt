//! Laws of expressions.

ghost use Rattle.model.specs.Expression.{OneExpression};
ghost use Rattle.model.specs.Reading.{ReadsLongest};

/// States that `parse_expr` reads the longest beginning that is an expression by the grammar.
///
/// If it reads nothing, no beginning is one. A law for proofs: the call does nothing.
pub fn expressions_are_longest()
    ensures { ReadsLongest }
{}

/// States that no tokens are two expressions by the grammar.
///
/// A law for proofs: the call does nothing.
pub fn one_expression()
    ensures { OneExpression }
{}
