//! Operands.

ghost use Rattle.std.specs.Prelude.{◌≡◌};
ghost use Rattle.std.specs.Option.{option_and_then, option_map};
ghost use Rattle.model.specs.Expression.{Term};
ghost use Rattle.model.specs.SourceLine.{direct_after, direct_operand, operand_of, pointer_after};
ghost use Rattle.model.specs.Reading.{expression_of};
ghost use Rattle.line_parts.specs.Lexemes.{lexemes};
ghost use Rattle.line_parts.specs.TermViews.{term_view};
ghost use Rattle.asm_line.specs.Pointers.{pointer_by};
ghost use Rattle.line_parts.specs.LineViews.{Reads, operand_view};

use crate::expressions::{expression, whole_expression};
use crate::token_tests::{is_symbol, is_word};
use line_parts::{Expr, Operand, Token};
use model::{Index, LineFault};
use std::alloc::Global;

/// An operand of one expression, by the tokens after it: none, `,X` or `,Y`.
fn direct_after<'a>(marked: bool, value: Expr<'a>, behind: &[Token<'a>]) -> Option<Operand<'a>>
    ensures { option_map operand_view result
        ≡ direct_after marked (term_view value.entry) (lexemes behind.now) }
{
    let index = match behind {
        [] => Index::Unindexed,
        [comma, word] if is_symbol(comma, b',') & is_word(word, b"X") => Index::X,
        [comma, word] if is_symbol(comma, b',') & is_word(word, b"Y") => Index::Y,
        _ => return None,
    };
    Some(Operand::Direct {
        marked,
        value,
        index,
    })
}

/// How the tokens after the expression of a round bracket close it: `)`, `,X)` or `),Y`.
fn closing(behind: &[Token<'_>]) -> Option<Index>
    ensures { (value : Term)
        → option_map (pointer_by value) result ≡ pointer_after value (lexemes behind.now) }
{
    match behind {
        [close] if is_symbol(close, b')') => Some(Index::Unindexed),
        [comma, word, close]
            if is_symbol(comma, b',') & is_word(word, b"X") & is_symbol(close, b')') => {
            Some(Index::X)
        }
        [close, comma, word]
            if is_symbol(close, b')') & is_symbol(comma, b',') & is_word(word, b"Y") => {
            Some(Index::Y)
        }
        _ => None,
    }
}

/// An operand of one expression, which may be indexed.
fn direct<'a>(alloc: Global, marked: bool, tokens: &[Token<'a>]) -> Result<Operand<'a>, LineFault>
    ensures { Reads operand_view result (direct_operand marked (lexemes tokens.now)) }
{
    let (value, behind) = expression(alloc, tokens)?;
    direct_after(marked, value, behind).ok_or(LineFault::Syntax)
}

/// The operand after a `(`.
fn pointer<'a>(alloc: Global, tokens: &[Token<'a>]) -> Result<Operand<'a>, LineFault>
    ensures { Reads operand_view result
        (option_and_then (λ p. pointer_after p.0 p.1) (expression_of (lexemes tokens.now))) }
{
    let (value, behind) = expression(alloc, tokens)?;
    match closing(behind) {
        Some(Index::Unindexed) => Ok(Operand::Pointer(value)),
        Some(Index::X) => Ok(Operand::PointerByX(value)),
        Some(Index::Y) => Ok(Operand::PointerByY(value)),
        None => Err(LineFault::Syntax),
    }
}

/// Returns the operand that the tokens after a mnemonic are.
#[tactic(auto, unfolding(model::specs::SourceLine::operand_of))]
pub fn operand<'a>(alloc: Global, tokens: &[Token<'a>]) -> Result<Operand<'a>, LineFault>
    ensures { Reads operand_view result (operand_of (lexemes tokens.now)) }
{
    let Some((first, rest)) = tokens.split_first() else {
        return Ok(Operand::Absent);
    };
    if rest.is_empty() & is_word(first, b"A") {
        return Ok(Operand::Accumulator);
    }
    if is_symbol(first, b'#') {
        return Ok(Operand::Immediate(whole_expression(alloc, rest)?));
    }
    if is_symbol(first, b'(') {
        return pointer(alloc, rest);
    }
    if is_symbol(first, b'!') {
        return direct(alloc, true, rest);
    }
    direct(alloc, false, tokens)
}
