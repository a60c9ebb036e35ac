//! Expressions and items among the tokens of a line.

ghost use Rattle.std.specs.Prelude.{◌≡◌, ◌<◌, ◌≤◌, ◌-◌, IfOk, IfErr, List, None, Option, Some};
ghost use Rattle.std.specs.Prelude.{drop};
ghost use Rattle.std.specs.Prelude.{length, map, take, true};
ghost use Rattle.model.specs.Expression.{Term};
ghost use Rattle.model.specs.SourceLine.{Item as ItemView, item_of, list_within, whole_expression};
ghost use Rattle.model.specs.Token.{Lexeme};
ghost use Rattle.model.specs.Reading.{expression_of};
ghost use Rattle.line_parts.specs.Lexemes.{lexemes};
ghost use Rattle.line_parts.specs.TermViews.{term_view};
ghost use Rattle.asm_line.specs.Lists.{goes_on};
ghost use Rattle.line_parts.specs.LineViews.{Reads, term_view_after, item_view};
ghost use Rattle.model.specs.declared.expression.LineFault.TheVariants.{Syntax};

use crate::token_tests::is_symbol;
use line_parts::{Expr, Item, Token};
use model::{LineFault, TokenKind};
use parser::parse_expr;
use std::alloc::Global;

/// Returns the longest expression at the front of some tokens, and the tokens after it.
pub fn expression<'a, 't>(
    alloc: Global,
    tokens: &'t [Token<'a>],
) -> Result<(Expr<'a>, &'t [Token<'a>]), LineFault>
    ensures { Reads term_view_after result (expression_of (lexemes tokens.now)) }
{
    let (value, taken) = parse_expr(alloc, tokens)?;
    Ok((value, &tokens[taken..]))
}

/// Returns the expression that is made of all these tokens.
#[tactic(auto, unfolding(model::specs::SourceLine::whole_expression))]
pub fn whole_expression<'a>(alloc: Global, tokens: &[Token<'a>]) -> Result<Expr<'a>, LineFault>
    ensures { Reads term_view result (whole_expression (lexemes tokens.now)) }
{
    let (value, behind) = expression(alloc, tokens)?;
    if behind.is_empty() {
        return Ok(value);
    }
    Err(LineFault::Syntax)
}

/// Returns whether a comma comes next, and so one more expression; false if no token is left.
fn goes_on(tokens: &[Token<'_>]) -> Result<bool, LineFault>
    ensures read { Reads (λ more. more) result (goes_on (lexemes tokens.now)) }
    ensures some { IfOk result (λ more. more ≡ true → 0 < length tokens.now) }
{
    match tokens {
        [] => Ok(false),
        [comma, ..] if is_symbol(comma, b',') => Ok(true),
        _ => Err(LineFault::Syntax),
    }
}

/// Returns the bytes of a text without the first and the last.
fn inside(text: &[u8]) -> &[u8]
    ensures { result.now ≡ take (length text.now - 2) (drop 1 text.now) }
{
    match text {
        [_, inside @ .., _] => inside,
        _ => &text[..0],
    }
}

/// What stands between the commas of a list.
pub trait Element<'a>: Sized + Drop {
    /// What clauses see of an element.
    ghost View: { Type 0 };

    ghost view_as: { Self → View };
    /// The element with which tokens begin, and the tokens after it.
    ghost element_of: { List Lexeme → Option (View × List Lexeme) };

    /// Returns the element with which some tokens begin, and its number of tokens.
    fn read(alloc: Global, tokens: &[Token<'a>]) -> Result<(Self, usize), LineFault>
        ensures found { IfOk result (λ p. element_of (lexemes tokens.now)
            ≡ Some (view_as p.0, drop p.1 (lexemes tokens.now))) }
        ensures within { IfOk result (λ p. p.1 ≤ length tokens.now) }
        ensures syntax { IfErr result (λ f. f ≡ Syntax → element_of (lexemes tokens.now) ≡ None) };
}

impl<'a> Element<'a> for Expr<'a> {
    ghost View = { Term };

    ghost view_as = { term_view };

    ghost element_of = { expression_of };

    fn read(alloc: Global, tokens: &[Token<'a>]) -> Result<(Expr<'a>, usize), LineFault> {
        parse_expr(alloc, tokens)
    }
}

impl<'a> Element<'a> for Item<'a> {
    ghost View = { ItemView };

    ghost view_as = { item_view };

    ghost element_of = { item_of };

    fn read(alloc: Global, tokens: &[Token<'a>]) -> Result<(Item<'a>, usize), LineFault> {
        let Some(first) = tokens.first() else {
            return Err(LineFault::Syntax);
        };
        match first.kind {
            TokenKind::Str => Ok((Item::Text(inside(first.text)), 1)),
            TokenKind::Word
            | TokenKind::Directive
            | TokenKind::Number
            | TokenKind::Char
            | TokenKind::Symbol => {
                let (value, taken) = parse_expr(alloc, tokens)?;
                Ok((Item::Value(value), taken))
            }
        }
    }
}

/// Returns the elements, separated by commas, that some tokens are.
pub fn list<'a, T: Element<'a>>(alloc: Global, tokens: &[Token<'a>]) -> Result<Vec<T>, LineFault>
    ensures { Reads (λ found. map T.view_as found.items) result
        (list_within T.element_of (length tokens.now) (lexemes tokens.now)) }
{
    let mut found = Vec::new(alloc);
    let mut at = 0;
    for _ in 0..tokens.len() {
        let (value, taken) = T::read(alloc, &tokens[at..])?;
        found.push(value)?;
        at += taken;
        if !goes_on(&tokens[at..])? {
            return Ok(found);
        }
        at += 1;
    }
    Err(LineFault::Syntax)
}
