//! What is said of numbers and directives.

ghost use Rattle.std.specs.Prelude.{◌≡◌, ◌∷◌, ◌++◌, [], IfOk, OnOk};
ghost use Rattle.std.specs.Option.{option_map};
ghost use Rattle.warnings.specs.Reaches.{number_alone};
ghost use Rattle.line_parts.specs.Lexemes.{lexeme_of};
ghost use Rattle.line_parts.specs.TermViews.{term_view};
ghost use Rattle.lsp_answers.specs.Literals.{bit, bits, byte_words, character_words};
ghost use Rattle.lsp_answers.specs.Literals.{directive_words, literal_words};
ghost use Rattle.lsp_answers.specs.Literals.{number_read, number_words, word_words};
ghost use Rattle.model.specs.Reading.{expression_of};

use crate::written::{BYTE_EFFECT, DBYTE_EFFECT, END_EFFECT, RES_EFFECT, WORD_EFFECT};
use formatting::{push_address, push_byte, push_count, push_text};
use line_parts::{Expr, Token};
use model::LineFault;
use parser::parse_expr;
use source_notes::push_signed;
use std::alloc::{AllocError, Global};

/// Returns the lowest bit of a number as a digit.
fn bit(number: u8) -> u8
    ensures { result ≡ bit number }
{
    if number % 2 == 0 { b'0' } else { b'1' }
}

/// Returns the bits of a byte as digits.
fn bits(byte: u8) -> [u8; 8]
    ensures { result ≡ bits byte }
{
    [
        bit(byte / 128),
        bit(byte / 64),
        bit(byte / 32),
        bit(byte / 16),
        bit(byte / 8),
        bit(byte / 4),
        bit(byte / 2),
        bit(byte),
    ]
}

/// Appends the character that a byte is, if it can be printed.
fn push_character(words: &mut Vec<u8>, byte: u8) -> Result<(), AllocError>
    ensures { OnOk result (words.new.items ≡ words.old.items ++ character_words byte) }
{
    if byte >= b' ' && byte <= b'~' {
        push_text(words, " = '")?;
        words.push(byte)?;
        push_text(words, "'")
    } else {
        Ok(())
    }
}

/// Appends what is said of a byte.
#[tactic(auto, unfolding(crate::specs::Literals::byte_words))]
fn push_byte_words(words: &mut Vec<u8>, byte: u8) -> Result<(), AllocError>
    ensures { OnOk result (words.new.items ≡ words.old.items ++ byte_words byte) }
{
    push_text(words, "$")?;
    push_byte(words, byte)?;
    push_text(words, " = ")?;
    push_count(words, byte as u64)?;
    push_text(words, " = %")?;
    words.extend_from_slice(&bits(byte))?;
    push_character(words, byte)
}

/// Appends what is said of two bytes.
#[tactic(auto, unfolding(crate::specs::Literals::word_words))]
fn push_word_words(words: &mut Vec<u8>, number: u16) -> Result<(), AllocError>
    ensures { OnOk result (words.new.items ≡ words.old.items ++ word_words number) }
{
    push_text(words, "$")?;
    push_address(words, number)?;
    push_text(words, " = ")?;
    push_count(words, number as u64)?;
    push_text(words, " = %")?;
    words.extend_from_slice(&bits((number / 256) as u8))?;
    words.extend_from_slice(&bits((number % 256) as u8))
}

/// Appends what is said of a number.
fn push_number(words: &mut Vec<u8>, number: i32) -> Result<(), AllocError>
    ensures { OnOk result (words.new.items ≡ words.old.items ++ number_words number) }
{
    if number >= 0 && number < 256 {
        push_byte_words(words, number as u8)
    } else if number >= 0 && number < 65536 {
        push_word_words(words, number as u16)
    } else {
        push_signed(words, number)
    }
}

/// Returns the number of a literal, if it has one.
fn number_in(expr: &Expr<'_>) -> Option<i32>
    ensures { result ≡ number_alone (term_view expr.now) }
{
    match expr {
        Expr::Literal(number) => *number,
        Expr::Name(_)
        | Expr::Here
        | Expr::Negated(_)
        | Expr::Binary(_, _, _)
        | Expr::Low(_)
        | Expr::High(_) => None,
    }
}

/// Returns the number that is read in a token, if it is a literal with a number.
fn number_of(alloc: Global, token: Token<'_>) -> Result<Option<i32>, AllocError>
    ensures { IfOk result
        (λ number. number ≡ number_read (expression_of (lexeme_of token.entry ∷ []))) }
{
    match parse_expr(alloc, &[token]) {
        Ok((expr, _)) => Ok(number_in(&expr)),
        Err(LineFault::OutOfMemory) => Err(AllocError),
        Err(LineFault::Syntax) => Ok(None),
    }
}

/// Returns what is said of a token that is a number or a character: of another one nothing, and of
/// one above 2^31 - 1. The only error is that a request for memory was refused.
pub fn literal_words(alloc: Global, token: Token<'_>) -> Result<Option<Vec<u8>>, AllocError>
    ensures { IfOk result (λ words. option_map (λ w. w.items) words
        ≡ literal_words (lexeme_of token.entry)) }
{
    match number_of(alloc, token)? {
        Some(number) => {
            let mut words = Vec::new(alloc);
            push_number(&mut words, number)?;
            Ok(Some(words))
        }
        None => Ok(None),
    }
}

/// Returns what a directive does, by its name in either letter case.
pub fn directive_words(name: &[u8]) -> Option<&'static str>
    ensures { option_map (λ words. words.now) result ≡ directive_words name.now }
{
    if name.eq_ignore_ascii_case(b".BYTE") {
        return Some(BYTE_EFFECT);
    }
    if name.eq_ignore_ascii_case(b".WORD") {
        return Some(WORD_EFFECT);
    }
    if name.eq_ignore_ascii_case(b".DBYTE") {
        return Some(DBYTE_EFFECT);
    }
    if name.eq_ignore_ascii_case(b".RES") {
        return Some(RES_EFFECT);
    }
    if name.eq_ignore_ascii_case(b".END") {
        return Some(END_EFFECT);
    }
    None
}
