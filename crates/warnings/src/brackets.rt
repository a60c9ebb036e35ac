//! Operands in square brackets.

ghost use Rattle.std.specs.Prelude.{◌≡◌, ◌<◌, ◌^◌, IfOk, option_map};
ghost use Rattle.line_parts.specs.Contents.{map_option};
ghost use Rattle.line_parts.specs.Lexemes.{lexeme_of, lexemes};
ghost use Rattle.line_parts.specs.LineViews.{line_view, operand_view, statement_view};
ghost use Rattle.warnings.specs.Brackets.{after_label, behind_brackets, depth_behind, ends_address};
ghost use Rattle.warnings.specs.Brackets.{is_bracketed, is_direct, is_in_brackets};
ghost use Rattle.warnings.specs.Brackets.{line_may_mean_pointer, may_mean_pointer};
ghost use Rattle.warnings.specs.Brackets.{operand_tokens, takes_pointer};
ghost use Rattle.warnings.specs.Views.{tokens_view};

use asm_line::is_symbol;
use lexer::tokens_into;
use line_parts::{Line, Operand, Statement, Token};
use model::{LineFault, Mnemonic, Mode, Profile};
use optable::encode_in;
use std::alloc::AllocError;

/// Whether a mnemonic has a form with a pointer.
fn takes_pointer(profile: Profile, mnemonic: Mnemonic) -> bool
    ensures { result ≡ takes_pointer profile mnemonic }
{
    encode_in(profile, mnemonic, Mode::IndY).is_some()
        || encode_in(profile, mnemonic, Mode::Ind).is_some()
}

/// Whether an operand is an address.
fn is_direct(operand: &Operand<'_>) -> bool
    ensures { result ≡ is_direct (operand_view operand.now) }
{
    matches!(operand, Operand::Direct { .. })
}

/// Whether a statement is an instruction with an address, and could have a pointer there.
fn may_mean_pointer(profile: Profile, statement: &Statement<'_>) -> bool
    ensures { result ≡ may_mean_pointer profile (statement_view statement.now) }
{
    match statement {
        Statement::Instruction(mnemonic, operand) => {
            is_direct(operand) && takes_pointer(profile, *mnemonic)
        }
        _ => false,
    }
}

/// Whether a line is an instruction with an address, and could have a pointer there.
fn line_may_mean_pointer(profile: Profile, line: &Option<Line<'_>>) -> bool
    ensures { result ≡ line_may_mean_pointer profile (map_option line_view line.now) }
{
    match line {
        Some(Line::Labelled(_, statement)) => may_mean_pointer(profile, statement),
        Some(Line::Definition(_, _)) | None => false,
    }
}

/// The tokens after a label and its `:`, all where there is none.
fn after_label<'t, 'a>(tokens: &'t [Token<'a>]) -> &'t [Token<'a>]
    ensures { lexemes result.now ≡ after_label (lexemes tokens.now) }
{
    match tokens {
        [_, colon, rest @ ..] if is_symbol(colon, b':') => rest,
        _ => tokens,
    }
}

/// The tokens after the mnemonic.
fn operand_tokens<'t, 'a>(tokens: &'t [Token<'a>]) -> &'t [Token<'a>]
    ensures { lexemes result.now ≡ operand_tokens (lexemes tokens.now) }
{
    match after_label(tokens) {
        [_, operand @ ..] => operand,
        [] => &[],
    }
}

/// How many brackets are still to be closed behind a token.
fn depth_behind(depth: usize, token: &Token<'_>) -> usize
    requires some { 0 < depth }
    requires few { depth < 2 ^ 63 }
    ensures { result ≡ depth_behind depth (lexeme_of token.now) }
{
    if is_symbol(token, b'[') {
        depth + 1
    } else if is_symbol(token, b']') {
        depth - 1
    } else {
        depth
    }
}

/// The tokens behind the one that closes a bracket which is open before these tokens, if there is
/// one.
fn behind_bracket<'t, 'a>(tokens: &'t [Token<'a>]) -> Option<&'t [Token<'a>]>
    ensures { option_map tokens_view result ≡ behind_brackets 1 (lexemes tokens.now) }
{
    let mut depth = 1;
    for (at, token) in tokens.iter().enumerate() {
        depth = depth_behind(depth, token);
        if depth == 0 {
            return Some(&tokens[at + 1..]);
        }
    }
    None
}

/// Whether an address ends where these tokens are left.
fn ends_address(behind: Option<&[Token<'_>]>) -> bool
    ensures { result ≡ ends_address (option_map tokens_view behind.entry) }
{
    match behind {
        None => false,
        Some([]) => true,
        Some([first, ..]) => is_symbol(first, b','),
    }
}

/// Whether the whole address of an operand stands in one pair of brackets.
fn is_in_brackets(operand: &[Token<'_>]) -> bool
    ensures { result ≡ is_in_brackets (lexemes operand.now) }
{
    match operand {
        [first, rest @ ..] => is_symbol(first, b'[') && ends_address(behind_bracket(rest)),
        [] => false,
    }
}

/// Returns whether the whole address of a line's instruction stands in brackets, where a pointer
/// could. If so, the line's tokens are put into `room` in place of its contents.
///
/// The only error is that an allocation failed.
pub fn is_bracketed<'a>(
    profile: Profile,
    room: &mut Vec<Token<'a>>,
    text: &'a [u8],
    line: &Option<Line<'_>>,
) -> Result<bool, AllocError>
    ensures { IfOk result
        (λ told. told ≡ is_bracketed profile text.now (map_option line_view line.now)) }
{
    if !line_may_mean_pointer(profile, line) {
        return Ok(false);
    }
    match tokens_into(room, text) {
        Ok(()) => Ok(is_in_brackets(operand_tokens(room))),
        Err(LineFault::Syntax) => Ok(false),
        Err(LineFault::OutOfMemory) => Err(AllocError),
    }
}
