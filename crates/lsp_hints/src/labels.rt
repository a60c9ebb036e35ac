//! Lines with a label.

ghost use Rattle.std.specs.Prelude.{◌≡◌, IfOk};
ghost use Rattle.line_parts.specs.Lexemes.{lexemes};
ghost use Rattle.lsp_hints.specs.Folds.{is_label, is_label_line};

use lexer::tokens_into;
use line_parts::Token;
use model::{LineFault, Profile};
use name_uses::is_name_token;
use source_notes::is_symbol;
use std::alloc::AllocError;

/// Returns whether tokens begin with a label.
fn is_label(profile: Profile, tokens: &[Token<'_>]) -> bool
    ensures { result ≡ is_label profile (lexemes tokens.now) }
{
    match tokens {
        [name, mark, ..] => is_name_token(profile, name) && is_symbol(mark, b':'),
        _ => false,
    }
}

/// Returns whether a line begins with a label.
pub fn is_label_line<'a>(
    room: &mut Vec<Token<'a>>,
    profile: Profile,
    line: &'a [u8],
) -> Result<bool, AllocError>
    ensures { IfOk result (λ labelled. labelled ≡ is_label_line profile line.now) }
{
    match tokens_into(room, line) {
        Ok(()) => Ok(is_label(profile, room)),
        Err(LineFault::OutOfMemory) => Err(AllocError),
        Err(LineFault::Syntax) => Ok(false),
    }
}
