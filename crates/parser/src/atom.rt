//! Single tokens as parts of an expression.

ghost use Rattle.std.specs.Prelude.{◌≡◌, ℕ, ◌≤◌};
ghost use Rattle.std.specs.Option.{option_map};
ghost use Rattle.model.specs.Digits.{digit_value};
ghost use Rattle.model.specs.Expression.{atom_of, in_range, number_after, number_of_text};
ghost use Rattle.model.specs.Expression.{operator_of, symbol_of};
ghost use Rattle.line_parts.specs.Lexemes.{lexeme_of};
ghost use Rattle.line_parts.specs.TermViews.{term_view};

use line_parts::{Expr, Token};
use model::{Operator, TokenKind};

/// Returns the byte of a token that is a symbol.
pub fn symbol(token: &Token<'_>) -> Option<u8>
    ensures { result ≡ symbol_of (lexeme_of token.now) }
{
    match token.kind {
        TokenKind::Symbol => token.text.first().copied(),
        TokenKind::Word
        | TokenKind::Directive
        | TokenKind::Number
        | TokenKind::Char
        | TokenKind::Str => None,
    }
}

/// Returns the operator that a token is, if it is one.
pub(crate) fn operator(token: &Token<'_>) -> Option<Operator>
    ensures { result ≡ operator_of (lexeme_of token.now) }
{
    match symbol(token) {
        Some(b'+') => Some(Operator::Add),
        Some(b'-') => Some(Operator::Subtract),
        Some(b'*') => Some(Operator::Multiply),
        Some(b'/') => Some(Operator::Divide),
        Some(b'&') => Some(Operator::And),
        Some(b'|') => Some(Operator::Or),
        Some(b'^') => Some(Operator::ExclusiveOr),
        _ => None,
    }
}

/// Returns the value of a digit, in either letter case; 0 for any other byte.
fn digit(byte: u8) -> u8
    ensures { result ≡ digit_value byte }
{
    match byte {
        b'A'..=b'F' => byte - 55,
        b'a'..=b'f' => byte - 87,
        b'0'..=b'9' => byte - 48,
        _ => 0,
    }
}

/// Returns the number that digits write, if it is at most 2^31 - 1.
#[tactic(auto, using(crate::proofs::Literals::capped_end))]
fn number_in(base: u8, digits: &[u8]) -> Option<i32>
    requires { 1 ≤ base }
    ensures { result ≡ in_range (number_after base 0 digits.now) }
{
    let mut number: u64 = 0;
    for byte in digits {
        let more = number * base as u64 + digit(*byte) as u64;
        number = more.min(2147483648);
    }
    if number > 2147483647 {
        return None;
    }
    Some(number as i32)
}

/// Returns the number that a number's text writes, if it is at most 2^31 - 1.
fn number(text: &[u8]) -> Option<i32>
    ensures { result ≡ in_range (number_of_text text.now) }
{
    match text.split_first() {
        None => Some(0),
        Some((b'$', digits)) => number_in(16, digits),
        Some((b'%', digits)) => number_in(2, digits),
        Some(_) => number_in(10, text),
    }
}

/// Returns the expression that a token is by itself, if it is one.
pub(crate) fn atom<'a>(token: &Token<'a>) -> Option<Expr<'a>>
    ensures { option_map term_view result ≡ atom_of (lexeme_of token.now) }
{
    match token.kind {
        TokenKind::Word => Some(Expr::Name(token.text)),
        TokenKind::Number => Some(Expr::Literal(number(token.text))),
        TokenKind::Char => match token.text.get(1) {
            Some(byte) => Some(Expr::Literal(Some(*byte as i32))),
            None => None,
        },
        TokenKind::Symbol => match token.text.first() {
            Some(b'*') => Some(Expr::Here),
            _ => None,
        },
        TokenKind::Directive | TokenKind::Str => None,
    }
}
