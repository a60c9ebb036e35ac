//! Tests of single tokens.

ghost use Rattle.std.specs.Prelude.{◌≡◌};
ghost use Rattle.std.specs.Str.{bytes_eq, str_to_ascii_uppercase};
ghost use Rattle.model.specs.Reading.{is_symbol};
ghost use Rattle.model.specs.SourceLine.{is_word};
ghost use Rattle.line_parts.specs.Lexemes.{lexeme_of};

use line_parts::Token;
use model::TokenKind;
use parser::symbol;

/// Returns whether a text is these capitals, in either letter case.
pub fn is_in_capitals(text: &[u8], capitals: &[u8]) -> bool
    ensures { result ≡ bytes_eq (str_to_ascii_uppercase text.now) capitals.now }
{
    if text.len() != capitals.len() {
        return false;
    }
    for (i, byte) in text.iter().enumerate() {
        if byte.to_ascii_uppercase() != capitals[i] {
            return false;
        }
    }
    true
}

/// Returns whether a token is this word, in either letter case.
pub fn is_word(token: &Token<'_>, capitals: &[u8]) -> bool
    ensures { result ≡ is_word capitals.now (lexeme_of token.now) }
{
    match token.kind {
        TokenKind::Word => is_in_capitals(token.text, capitals),
        TokenKind::Directive
        | TokenKind::Number
        | TokenKind::Char
        | TokenKind::Str
        | TokenKind::Symbol => false,
    }
}

/// Returns whether a token is this symbol.
pub fn is_symbol(token: &Token<'_>, byte: u8) -> bool
    ensures { result ≡ is_symbol byte (lexeme_of token.now) }
{
    match symbol(token) {
        Some(symbol) => symbol == byte,
        None => false,
    }
}
