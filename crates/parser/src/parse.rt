//! Expressions from tokens.

ghost use Rattle.std.specs.Prelude.{◌≡◌, ◌≤◌, IfErr, IfOk, None, Some, drop, length};
ghost use Rattle.std.specs.Option.{option_map};
ghost use Rattle.model.specs.Expression.{binary, high, low};
ghost use Rattle.model.specs.Reading.{closed_by, expression_of, inner_at, more_with, next_with};
ghost use Rattle.model.specs.Reading.{primary_with, sum_with, unary_with, whole_with};
ghost use Rattle.model.specs.declared.expression.LineFault.TheVariants.{Syntax};
ghost use Rattle.line_parts.specs.Lexemes.{lexemes};
ghost use Rattle.line_parts.specs.TermViews.{read_view, next_view, term_view};

use crate::atom::{atom, operator, symbol};
use line_parts::{Expr, Token};
use model::{LineFault, Operator};
use std::alloc::{AllocError, Global};

/// Returns what is inside a bracket, if the next token closes it.
fn closed<'a, 't>(inner: Expr<'a>, tokens: &'t [Token<'a>]) -> Option<(Expr<'a>, &'t [Token<'a>])>
    ensures { read_view result ≡ closed_by (term_view inner.entry) (lexemes tokens.now) }
{
    let (first, rest) = tokens.split_first()?;
    if symbol(first) == Some(b']') {
        return Some((inner, rest));
    }
    None
}

/// A token that is an expression by itself, or a sum in brackets.
#[cycle(parse)]
#[tactic(auto, using(crate::proofs::ParserTurn::inner_below))]
fn primary<'a, 't>(
    alloc: Global,
    tokens: &'t [Token<'a>],
    depth: u8,
) -> Result<Option<(Expr<'a>, &'t [Token<'a>])>, AllocError>
    ensures { IfOk result (λ r. read_view r ≡ primary_with (inner_at depth) (lexemes tokens.now)) }
{
    let Some((first, rest)) = tokens.split_first() else {
        return Ok(None);
    };
    if symbol(first) == Some(b'[') {
        if depth == 0 {
            return Ok(None);
        }
        let Some((inner, rest)) = sum(alloc, rest, depth - 1)? else {
            return Ok(None);
        };
        return Ok(closed(inner, rest));
    }
    match atom(first) {
        None => Ok(None),
        Some(expr) => Ok(Some((expr, rest))),
    }
}

/// A primary, maybe after a minus.
#[cycle(parse)]
fn unary<'a, 't>(
    alloc: Global,
    tokens: &'t [Token<'a>],
    depth: u8,
) -> Result<Option<(Expr<'a>, &'t [Token<'a>])>, AllocError>
    ensures { IfOk result (λ r. read_view r ≡ unary_with (inner_at depth) (lexemes tokens.now)) }
{
    let Some((first, rest)) = tokens.split_first() else {
        return Ok(None);
    };
    if symbol(first) == Some(b'-') {
        let Some((inner, rest)) = primary(alloc, rest, depth)? else {
            return Ok(None);
        };
        return Ok(Some((Expr::Negated(Box::new(alloc, inner)?), rest)));
    }
    primary(alloc, tokens, depth)
}

/// A unary and as many operators with right sides as follow it.
#[cycle(parse)]
#[tactic(auto, using(crate::proofs::ParserTurn::more_step, crate::proofs::ParserTurn::no_more))]
fn sum<'a, 't>(
    alloc: Global,
    tokens: &'t [Token<'a>],
    depth: u8,
) -> Result<Option<(Expr<'a>, &'t [Token<'a>])>, AllocError>
    ensures { IfOk result (λ r. read_view r ≡ sum_with (inner_at depth) (lexemes tokens.now)) }
{
    let Some((first, rest)) = unary(alloc, tokens, depth)? else {
        return Ok(None);
    };
    let mut left = first;
    let mut rest = rest;
    for _ in 0..rest.len() {
        let Some((op, right, after)) = next(alloc, rest, depth)? else {
            return Ok(Some((left, rest)));
        };
        left = join(alloc, op, left, right)?;
        rest = after;
    }
    Ok(Some((left, rest)))
}

/// An operator between two expressions.
fn join<'a>(
    alloc: Global,
    op: Operator,
    left: Expr<'a>,
    right: Expr<'a>,
) -> Result<Expr<'a>, AllocError>
    ensures { IfOk result (λ e. term_view e
        ≡ binary op (term_view left.entry) (term_view right.entry)) }
{
    Ok(Expr::Binary(op, Box::new(alloc, left)?, Box::new(alloc, right)?))
}

/// An operator and its right side.
#[cycle(parse)]
fn next<'a, 't>(
    alloc: Global,
    tokens: &'t [Token<'a>],
    depth: u8,
) -> Result<Option<(Operator, Expr<'a>, &'t [Token<'a>])>, AllocError>
    ensures { IfOk result (λ r. next_view r ≡ next_with (inner_at depth) (lexemes tokens.now)) }
{
    let Some((token, behind)) = tokens.split_first() else {
        return Ok(None);
    };
    let Some(op) = operator(token) else {
        return Ok(None);
    };
    let Some((right, after)) = unary(alloc, behind, depth)? else {
        return Ok(None);
    };
    Ok(Some((op, right, after)))
}

/// A sum after a `<`.
fn low<'a, 't>(
    alloc: Global,
    tokens: &'t [Token<'a>],
) -> Result<Option<(Expr<'a>, &'t [Token<'a>])>, AllocError>
    ensures { IfOk result (λ r. read_view r
        ≡ option_map (λ p. (low p.0, p.1)) (sum_with (inner_at 8) (lexemes tokens.now))) }
{
    let Some((inner, rest)) = sum(alloc, tokens, 8)? else {
        return Ok(None);
    };
    Ok(Some((Expr::Low(Box::new(alloc, inner)?), rest)))
}

/// A sum after a `>`.
fn high<'a, 't>(
    alloc: Global,
    tokens: &'t [Token<'a>],
) -> Result<Option<(Expr<'a>, &'t [Token<'a>])>, AllocError>
    ensures { IfOk result (λ r. read_view r
        ≡ option_map (λ p. (high p.0, p.1)) (sum_with (inner_at 8) (lexemes tokens.now))) }
{
    let Some((inner, rest)) = sum(alloc, tokens, 8)? else {
        return Ok(None);
    };
    Ok(Some((Expr::High(Box::new(alloc, inner)?), rest)))
}

/// A sum, or one byte of it after `<` or `>`.
#[tactic(auto, unfolding(model::specs::Reading::expression_of))]
fn whole<'a, 't>(
    alloc: Global,
    tokens: &'t [Token<'a>],
) -> Result<Option<(Expr<'a>, &'t [Token<'a>])>, AllocError>
    ensures { IfOk result (λ r. read_view r ≡ expression_of (lexemes tokens.now)) }
{
    let Some((first, rest)) = tokens.split_first() else {
        return Ok(None);
    };
    match symbol(first) {
        Some(b'<') => low(alloc, rest),
        Some(b'>') => high(alloc, rest),
        _ => sum(alloc, tokens, 8),
    }
}

/// Returns the longest beginning of some tokens that is an expression, and its number of tokens.
///
/// Errors: `Syntax` if no beginning is an expression; `OutOfMemory` if an allocation fails. Source:
/// mos65.
#[tactic(auto, using(crate::proofs::Whole::rest_within, crate::proofs::Whole::rest_dropped))]
pub fn parse_expr<'a>(alloc: Global, tokens: &[Token<'a>]) -> Result<(Expr<'a>, usize), LineFault>
    // What is read, and the tokens left after it.
    ensures found { IfOk result
        (λ p. expression_of (lexemes tokens.now)
        ≡ Some (term_view p.0, drop p.1 (lexemes tokens.now))) }
    ensures within { IfOk result (λ p. p.1 ≤ length tokens.now) }
    // No beginning is an expression.
    ensures syntax { IfErr result (λ f. f ≡ Syntax → expression_of (lexemes tokens.now) ≡ None) }
{
    match whole(alloc, tokens) {
        Err(_) => Err(LineFault::OutOfMemory),
        Ok(None) => Err(LineFault::Syntax),
        Ok(Some((expr, rest))) => Ok((expr, tokens.len() - rest.len())),
    }
}
