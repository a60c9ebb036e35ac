//! Words that are names.

ghost use Rattle.std.specs.Prelude.{◌≡◌, IfOk};
ghost use Rattle.line_parts.specs.Lexemes.{lexeme_of};
ghost use Rattle.model.specs.SourceLine.{is_reserved};
ghost use Rattle.name_uses.specs.Uses.{is_name, is_name_token};
ghost use Rattle.name_uses.specs.Registers.{is_register};

use lexer::tokens;
use line_parts::Token;
use model::{LineFault, Profile, TokenKind};
use optable::mnemonic_in;
use std::alloc::{AllocError, Global};

/// Returns whether a text is A, X or Y, in either letter case.
fn is_register(text: &[u8]) -> bool
    ensures { result ≡ is_register text.now }
{
    match text {
        [byte] => {
            let capital = byte.to_ascii_uppercase();
            capital == b'A' || capital == b'X' || capital == b'Y'
        }
        _ => false,
    }
}

/// Returns whether a word is a mnemonic of a profile, A, X or Y, in either letter case.
#[tactic(auto, using(crate::proofs::Reserved::reserved_by))]
pub fn is_reserved(profile: Profile, text: &[u8]) -> bool
    ensures { result ≡ is_reserved profile text.now }
{
    mnemonic_in(profile, text).is_some() || is_register(text)
}

/// Returns whether a token is a name: a word that is not reserved.
pub fn is_name_token(profile: Profile, token: &Token<'_>) -> bool
    ensures { result ≡ is_name_token profile (lexeme_of token.now) }
{
    match token.kind {
        TokenKind::Word => !is_reserved(profile, token.text),
        TokenKind::Directive
        | TokenKind::Number
        | TokenKind::Char
        | TokenKind::Str
        | TokenKind::Symbol => false,
    }
}

/// Returns whether a text is a name: one word of at most 31 bytes that begins with a letter and is
/// not reserved in the profile. The only error is that a request for memory was refused. Source:
/// mos65.
#[tactic(auto, unfolding(crate::specs::Uses::is_name))]
pub fn is_name(alloc: Global, profile: Profile, text: &[u8]) -> Result<bool, AllocError>
    ensures { IfOk result (λ named. named ≡ is_name profile text.now) }
{
    match tokens(alloc, text) {
        Ok(found) => match found.as_slice() {
            [token] => Ok(is_name_token(profile, token) && token.text == text),
            _ => Ok(false),
        },
        Err(LineFault::OutOfMemory) => Err(AllocError),
        Err(LineFault::Syntax) => Ok(false),
    }
}
