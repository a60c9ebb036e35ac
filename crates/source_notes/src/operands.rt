//! The tokens of a line's operation.

ghost use Rattle.std.specs.Prelude.{◌≡◌};
ghost use Rattle.source_notes.specs.Operands.{after_label, is_symbol, meant_by, operand_of};
ghost use Rattle.source_notes.specs.Operands.{operand_place};

use crate::note::Note;
use crate::runs::blank_run;
use line_parts::Token;
use model::TokenKind;

/// Returns whether a token is this symbol.
pub fn is_symbol(token: &Token<'_>, symbol: u8) -> bool
    ensures { result ≡ is_symbol token.now symbol }
{
    match (token.kind, token.text) {
        (TokenKind::Symbol, [byte]) => *byte == symbol,
        _ => false,
    }
}

/// Returns the tokens after a label, all where there is none.
pub fn after_label<'t, 'a>(tokens: &'t [Token<'a>]) -> &'t [Token<'a>]
    ensures { result.now ≡ after_label tokens.now }
{
    match tokens {
        [_, colon, rest @ ..] if is_symbol(colon, b':') => rest,
        _ => tokens,
    }
}

/// Returns the tokens after the first one of an operation, or after the `=` of a definition.
pub fn operand_of<'t, 'a>(tokens: &'t [Token<'a>]) -> &'t [Token<'a>]
    ensures { result.now ≡ operand_of tokens.now }
{
    match after_label(tokens) {
        [_, equals, value @ ..] if is_symbol(equals, b'=') => value,
        [_, operand @ ..] => operand,
        [] => &[],
    }
}

/// Returns a note about some tokens of a line, or about its first byte after the blanks if there
/// are none.
fn about(line: &[u8], tokens: &[Token<'_>], words: Vec<u8>) -> Note
    ensures { let place = meant_by line.now tokens.now in
        result ≡ record { start = place.0; width = place.1; words = words; right = None } }
{
    match (tokens.first(), tokens.last()) {
        (Some(first), Some(last)) => {
            let end = last.start.saturating_add(last.text.len());
            Note::new(first.start, end.saturating_sub(first.start), words)
        }
        _ => Note::new(blank_run(line), 1, words),
    }
}

/// Returns a note about the operand of a line, or about all of it where it has none.
pub fn about_operand(line: &[u8], tokens: &[Token<'_>], words: Vec<u8>) -> Note
    ensures { let place = operand_place line.now tokens.now in
        result ≡ record { start = place.0; width = place.1; words = words; right = None } }
{
    let operand = operand_of(tokens);
    if operand.is_empty() {
        about(line, after_label(tokens), words)
    } else {
        about(line, operand, words)
    }
}
