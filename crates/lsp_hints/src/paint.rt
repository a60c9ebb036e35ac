//! Where the colours stand.

ghost use Rattle.std.specs.Prelude.{◌≡◌, ◌≤◌, ◌++◌, OnOk, Some, length};
ghost use Rattle.line_parts.specs.Lexemes.{lexeme_of, lexemes};
ghost use Rattle.lsp_hints.specs.Painted.{asked_paints, comment_paints, is_asked, line_paints};
ghost use Rattle.lsp_hints.specs.Painted.{paints_by, paints_of, starts_definition, token_paints};
ghost use Rattle.model.specs.Token.{tokens_of};
ghost use Rattle.source_notes.specs.Lines.{texts_of};

use crate::colour::{Colour, colour_of};
use crate::hints::is_between;
use crate::operation::blanks_after;
use lexer::{tokens_are_slices, tokens_into};
use line_parts::Token;
use model::{LineFault, Profile};
use source_notes::is_symbol;
use std::alloc::{AllocError, Global};

/// A part of a line with its colour.
#[derive(Clone, Copy)]
pub struct Paint {
    /// Its line, counted from 0.
    pub line: usize,
    /// Where in the line it starts, counted from 0.
    pub start: usize,
    /// How many bytes it has.
    pub width: usize,
    pub colour: Colour,
}

/// Returns whether a line of these tokens defines the name that it begins with.
fn starts_definition(tokens: &[Token<'_>]) -> bool
    ensures { result ≡ starts_definition (lexemes tokens.now) }
{
    match tokens {
        [_, mark, ..] => is_symbol(mark, b':') || is_symbol(mark, b'='),
        _ => false,
    }
}

/// Appends a token of a line with its colour, if it has one.
fn push_token(
    paints: &mut Vec<Paint>,
    profile: Profile,
    line: usize,
    defines: bool,
    token: &Token<'_>,
) -> Result<(), AllocError>
    ensures { OnOk result (paints.new.items
        ≡ paints.old.items ++ token_paints profile line defines (lexeme_of token.now)) }
{
    match colour_of(profile, defines, token) {
        Some(colour) => paints.extend_from_slice(&[Paint {
            line,
            start: token.start,
            width: token.text.len(),
            colour,
        }]),
        None => Ok(()),
    }
}

/// Appends the comment of a line behind the end of its last token, if it has one.
fn push_comment(
    paints: &mut Vec<Paint>,
    line: usize,
    text: &[u8],
    end: usize,
) -> Result<(), AllocError>
    requires { end ≤ length text.now }
    ensures { OnOk result
        (paints.new.items ≡ paints.old.items ++ comment_paints line text.now end) }
{
    let start = blanks_after(text, end);
    if start < text.len() {
        paints.extend_from_slice(&[Paint {
            line,
            start,
            width: text.len() - start,
            colour: Colour::Comment,
        }])
    } else {
        Ok(())
    }
}

/// Appends the tokens of a line with their colours, and its comment.
fn push_parts(
    paints: &mut Vec<Paint>,
    profile: Profile,
    line: usize,
    text: &[u8],
    tokens: &[Token<'_>],
) -> Result<(), AllocError>
    requires { tokens_of text.now ≡ Some (lexemes tokens.now) }
    ensures { OnOk result (paints.new.items
        ≡ paints.old.items ++ paints_by profile line text.now (Some (lexemes tokens.now))) }
{
    tokens_are_slices();
    let mut defines = starts_definition(tokens);
    let mut end = 0;
    for token in tokens {
        push_token(paints, profile, line, defines, token)?;
        defines = false;
        end = token.start + token.text.len();
    }
    push_comment(paints, line, text, end)
}

/// Appends what is painted of a line.
#[tactic(auto, unfolding(crate::specs::Painted::line_paints))]
fn push_line<'a>(
    paints: &mut Vec<Paint>,
    room: &mut Vec<Token<'a>>,
    profile: Profile,
    line: usize,
    text: &'a [u8],
) -> Result<(), AllocError>
    ensures { OnOk result (paints.new.items
        ≡ paints.old.items ++ line_paints profile line text.now) }
{
    match tokens_into(room, text) {
        Ok(()) => push_parts(paints, profile, line, text, room),
        Err(LineFault::OutOfMemory) => Err(AllocError),
        Err(LineFault::Syntax) => Ok(()),
    }
}

/// Returns whether a line, counted from 0, is asked for: each is, or those between two lines.
fn is_asked(between: Option<(u64, u64)>, line: usize) -> bool
    ensures { result ≡ is_asked between line }
{
    match between {
        Some(between) => is_between(between, line as u64),
        None => true,
    }
}

/// Appends what is painted of a line that is asked for.
fn push_asked<'a>(
    paints: &mut Vec<Paint>,
    room: &mut Vec<Token<'a>>,
    profile: Profile,
    between: Option<(u64, u64)>,
    line: usize,
    text: &'a [u8],
) -> Result<(), AllocError>
    ensures { OnOk result (paints.new.items
        ≡ paints.old.items ++ asked_paints profile between line text.now) }
{
    if is_asked(between, line) {
        push_line(paints, room, profile, line, text)
    } else {
        Ok(())
    }
}

/// Appends what is painted of the lines of a source that are asked for. The only error is that a
/// request for memory was refused.
pub fn push_lines(
    alloc: Global,
    paints: &mut Vec<Paint>,
    profile: Profile,
    between: Option<(u64, u64)>,
    lines: &[&[u8]],
) -> Result<(), AllocError>
    ensures { OnOk result (paints.new.items
        ≡ paints.old.items ++ paints_of profile between (texts_of lines.now)) }
{
    let mut room = Vec::new(alloc);
    for (index, line) in lines.iter().enumerate() {
        push_asked(paints, &mut room, profile, between, index, line)?;
    }
    Ok(())
}
