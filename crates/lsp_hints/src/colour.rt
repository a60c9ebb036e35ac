//! The colours of tokens.

ghost use Rattle.std.specs.Prelude.{◌≡◌};
ghost use Rattle.line_parts.specs.Lexemes.{lexeme_of};
ghost use Rattle.lsp_hints.specs.Colours.{colour_of, modifiers_of, type_of};

use line_parts::Token;
use model::{Profile, TokenKind};
use name_uses::is_reserved;

/// What a part of a line is painted as.
#[derive(Clone, Copy)]
pub enum Colour {
    /// A mnemonic, A, X or Y.
    Reserved,
    /// A directive.
    Directive,
    /// A name that its line defines.
    Defined,
    /// Another name.
    Named,
    /// A number.
    Number,
    /// A character or a string.
    Quoted,
    /// A comment.
    Comment,
}

impl Colour {
    /// Returns the number of its type in the legend, and its modifiers, a bit for each there.
    pub fn numbers(self) -> (usize, usize)
        ensures { result ≡ (type_of self, modifiers_of self) }
    {
        match self {
            Colour::Reserved => (0, 0),
            Colour::Directive => (1, 0),
            Colour::Defined => (2, 1),
            Colour::Named => (2, 0),
            Colour::Number => (3, 0),
            Colour::Quoted => (4, 0),
            Colour::Comment => (5, 0),
        }
    }
}

/// Returns the colour of a token, which its line defines, or not. A symbol has none.
pub fn colour_of(profile: Profile, defines: bool, token: &Token<'_>) -> Option<Colour>
    ensures { result ≡ colour_of profile defines (lexeme_of token.now) }
{
    match token.kind {
        TokenKind::Word if is_reserved(profile, token.text) => Some(Colour::Reserved),
        TokenKind::Word if defines => Some(Colour::Defined),
        TokenKind::Word => Some(Colour::Named),
        TokenKind::Directive => Some(Colour::Directive),
        TokenKind::Number => Some(Colour::Number),
        TokenKind::Char | TokenKind::Str => Some(Colour::Quoted),
        TokenKind::Symbol => None,
    }
}
