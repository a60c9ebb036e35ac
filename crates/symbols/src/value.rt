//! The value of an expression.

ghost use Rattle.std.specs.Prelude.{◌≡◌, ℕ, pos, IfOk, IfErr, Err};
ghost use Rattle.model.specs.Value.{operation_value, bitwise, in_range_or_fault, eval_of, knows, value_of};
ghost use Rattle.line_parts.specs.TermViews.{term_view};

use line_parts::Expr;
use model::{ExprFault, Operator};

/// The numbers of names.
pub trait Names {
    ghost use Rattle.std.specs.Prelude.{◌≡◌, List, Option, ℕ, ℤ};

    ghost number_of: { Self → List ℕ → Option ℤ };

    /// Returns the number of a name, or `None` if it has none.
    fn value(&self, name: &[u8]) -> Option<i32>
        ensures { result ≡ number_of self.now name.now };
}

/// Returns a result if it is in -2^31..2^31-1.
fn in_range_or_fault(number: i64) -> Result<i32, ExprFault>
    ensures { result ≡ in_range_or_fault number }
{
    if number < -2147483648 || number > 2147483647 {
        return Err(ExprFault::Range);
    }
    Ok(number as i32)
}

/// Returns both operands of `&`, `|` or `^` if they are in 0..65535.
fn bit_operands(left: i32, right: i32) -> Result<(u16, u16), ExprFault>
    ensures words { IfOk result (λ p. (left ≡ pos p.0) × (right ≡ pos p.1)) }
    ensures fault { IfErr result (λ f. (combine : ℕ → ℕ → ℕ) → bitwise combine left right ≡ Err f) }
{
    if left < 0 || left > 65535 || right < 0 || right > 65535 {
        return Err(ExprFault::Range);
    }
    Ok((left as u16, right as u16))
}

/// Applies an operator to two numbers.
fn apply(operator: Operator, left: i32, right: i32) -> Result<i32, ExprFault>
    ensures { result ≡ operation_value operator left right }
{
    let a = left as i64;
    let b = right as i64;
    match operator {
        Operator::Add => in_range_or_fault(a + b),
        Operator::Subtract => in_range_or_fault(a - b),
        Operator::Multiply => in_range_or_fault(a * b),
        Operator::Divide => {
            if b == 0 {
                return Err(ExprFault::DivideByZero);
            }
            in_range_or_fault(a / b)
        }
        Operator::And => {
            let (a, b) = bit_operands(left, right)?;
            Ok((a & b) as i32)
        }
        Operator::Or => {
            let (a, b) = bit_operands(left, right)?;
            Ok((a | b) as i32)
        }
        Operator::ExclusiveOr => {
            let (a, b) = bit_operands(left, right)?;
            Ok((a ^ b) as i32)
        }
    }
}

/// Returns whether each name in an expression has a number.
fn knows<N: Names>(expr: &Expr<'_>, names: &N) -> bool
    ensures { result ≡ knows (N.number_of names.now) (term_view expr.now) }
{
    match expr {
        Expr::Literal(_) => true,
        Expr::Name(name) => names.value(name).is_some(),
        Expr::Here => true,
        Expr::Negated(inner) => knows(inner, names),
        Expr::Binary(_, left, right) => knows(left, names) && knows(right, names),
        Expr::Low(inner) => knows(inner, names),
        Expr::High(inner) => knows(inner, names),
    }
}

/// Returns the value, or the first fault from left to right.
fn value<N: Names>(expr: &Expr<'_>, names: &N, here: i32) -> Result<i32, ExprFault>
    ensures { result ≡ value_of (N.number_of names.now) here (term_view expr.now) }
{
    match expr {
        Expr::Literal(None) => Err(ExprFault::Range),
        Expr::Literal(Some(number)) => Ok(*number),
        Expr::Name(name) => names.value(name).ok_or(ExprFault::UnknownName),
        Expr::Here => Ok(here),
        Expr::Negated(inner) => {
            let number = value(inner, names, here)?;
            in_range_or_fault(-(number as i64))
        }
        Expr::Binary(operator, left, right) => {
            let a = value(left, names, here)?;
            let b = value(right, names, here)?;
            apply(*operator, a, b)
        }
        Expr::Low(inner) => {
            let number = value(inner, names, here)?;
            Ok(number.rem_euclid(256))
        }
        Expr::High(inner) => {
            let number = value(inner, names, here)?;
            Ok(number.div_euclid(256).rem_euclid(256))
        }
    }
}

/// Returns the value of an expression on a line at the address `here`, or its first fault.
///
/// Faults are found from left to right; an operator's own fault comes after those of both its
/// operands.
///
/// Errors: `UnknownName`, before all others, if a name in it has no number; `Range` if a literal or
/// a result is outside -2^31..2^31-1, or an operand of `&`, `|` or `^` outside 0..65535;
/// `DivideByZero` if the right operand of `/` is 0. Source: mos65.
#[tactic(auto, unfolding(model::specs::Value::eval_of))]
pub fn eval<N: Names>(expr: &Expr<'_>, names: &N, here: i32) -> Result<i32, ExprFault>
    ensures { result ≡ eval_of (N.number_of names.now) here (term_view expr.now) }
{
    if !knows(expr, names) {
        return Err(ExprFault::UnknownName);
    }
    value(expr, names, here)
}
