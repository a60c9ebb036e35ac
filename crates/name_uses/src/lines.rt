//! The names of lines.

ghost use Rattle.std.specs.Prelude.{◌≡◌, ◌≤◌, ◌++◌, IfOk, OnOk, length};
ghost use Rattle.assembler.specs.FoundLines.{ends_line};
ghost use Rattle.line_parts.specs.Lexemes.{lexemes};
ghost use Rattle.line_parts.specs.LineViews.{line_view};
ghost use Rattle.model.specs.Source.{is_end};
ghost use Rattle.model.specs.SourceLine.{read_line};
ghost use Rattle.name_uses.specs.Uses.{defines_first, line_uses, uses_in, uses_of};
ghost use Rattle.name_uses.specs.Views.{use_views};

use crate::name_use::NameUse;
use crate::words::is_name_token;
use asm_line::read_line_with;
use lexer::tokens_into;
use line_parts::{Line, LineError, Statement, Token, next_line};
use model::{LineFault, Profile};
use std::alloc::{AllocError, Global};

/// Returns whether a line defines the name with which it begins, and whether it is the last one
/// that is read.
fn defines_and_ends(line: &Line<'_>) -> (bool, bool)
    ensures defines { result.0 ≡ defines_first (line_view line.now) }
    ensures end { result.1 ≡ ends_line (line_view line.now) }
{
    match line {
        Line::Labelled(label, Statement::Finish) => (label.is_some(), true),
        Line::Labelled(label, _) => (label.is_some(), false),
        Line::Definition(_, _) => (true, false),
    }
}

/// Drops a line, and returns whether it defines the name with which it begins, and whether it is
/// the last one that is read.
pub fn taken_from(line: Line<'_>) -> (bool, bool)
    ensures defines { result.0 ≡ defines_first (line_view line.entry) }
    ensures end { result.1 ≡ ends_line (line_view line.entry) }
{
    let found = defines_and_ends(&line);
    drop(line);
    found
}

/// Appends the names among the tokens of a line of this number. The first one is defined there, or
/// none is.
fn push_tokens<'a>(
    uses: &mut Vec<NameUse<'a>>,
    profile: Profile,
    number: u32,
    defines: bool,
    tokens: &[Token<'a>],
) -> Result<(), AllocError>
    ensures { OnOk result (use_views uses.new.items
        ≡ use_views uses.old.items ++ uses_in profile number defines (lexemes tokens.now)) }
{
    let mut defined = defines;
    for token in tokens {
        if is_name_token(profile, token) {
            uses.push(NameUse {
                line: number,
                start: token.start,
                text: token.text,
                defines: defined,
            })?;
            defined = false;
        }
    }
    Ok(())
}

/// Appends the names of a line of this number, and returns whether it is the last one that is read.
#[tactic(auto, unfolding(crate::specs::Uses::line_uses))]
fn push_line<'a>(
    alloc: Global,
    uses: &mut Vec<NameUse<'a>>,
    room: &mut Vec<Token<'a>>,
    profile: Profile,
    number: u32,
    text: &'a [u8],
) -> Result<bool, AllocError>
    ensures uses { OnOk result (use_views uses.new.items
        ≡ use_views uses.old.items ++ line_uses profile number text.now) }
    ensures end { IfOk result (λ ended. ended ≡ is_end (read_line profile text.now)) }
{
    let (defines, ended) = match read_line_with(alloc, profile, room, text) {
        Ok(line) => taken_from(line),
        Err(LineError::Kind(_)) => return Ok(false),
        Err(LineError::Memory) => return Err(AllocError),
    };
    match tokens_into(room, text) {
        Ok(()) => push_tokens(uses, profile, number, defines, room)?,
        Err(LineFault::OutOfMemory) => return Err(AllocError),
        Err(LineFault::Syntax) => {}
    }
    Ok(ended)
}

/// Returns the names of a source in a profile where they stand, in their order: in each line that
/// is read and has no fault of its text, the words that are no reserved words. A line that has such
/// a fault has none, and no line behind `.END` has.
///
/// The only error is that a request for memory was refused. Source: mos65.
pub fn name_uses<'a>(
    alloc: Global,
    profile: Profile,
    source: &'a [u8],
) -> Result<Vec<NameUse<'a>>, AllocError>
    requires { length source.now ≤ 1048576 }
    ensures { IfOk result (λ uses. use_views uses.items ≡ uses_of profile source.now) }
{
    let mut uses = Vec::new(alloc);
    let mut room = Vec::new(alloc);
    let mut rest = source;
    let mut number = 1;
    while !rest.is_empty() {
        let (text, behind) = next_line(rest);
        let ended = push_line(alloc, &mut uses, &mut room, profile, number, text)?;
        if ended {
            return Ok(uses);
        }
        rest = behind;
        number += 1;
    }
    Ok(uses)
}
