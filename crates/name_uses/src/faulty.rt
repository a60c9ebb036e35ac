//! Words in lines whose text has a fault.

ghost use Rattle.std.specs.Prelude.{◌≡◌, ◌≤◌, IfOk, false, length};
ghost use Rattle.model.specs.AllFaults.{word_at};
ghost use Rattle.model.specs.Source.{is_end};
ghost use Rattle.model.specs.SourceLine.{read_line};
ghost use Rattle.name_uses.specs.Faulty.{faulty_line, has_either, has_word, is_faulty};

use crate::lines::taken_from;
use asm_line::read_line_with;
use lexer::{may_be_in_word, word_at};
use line_parts::{LineError, Token, next_line};
use model::Profile;
use std::alloc::{AllocError, Global};

/// Returns whether a word stands in a line.
fn has_word(word: &[u8], line: &[u8]) -> bool
    ensures { result ≡ has_word word.now false line.now }
{
    let mut behind = false;
    for index in 0..line.len() {
        if !behind && word_at(&line[index..]) == word {
            return true;
        }
        behind = may_be_in_word(line[index]);
    }
    false
}

/// Returns whether one of two words stands in a line.
fn has_either(word: &[u8], other: &[u8], line: &[u8]) -> bool
    ensures { result ≡ has_either word.now other.now line.now }
{
    has_word(word, line) || has_word(other, line)
}

/// Returns whether the text of a line has a fault and one of two words stands there, and whether
/// the line is the last one that is read.
fn is_faulty<'a>(
    alloc: Global,
    room: &mut Vec<Token<'a>>,
    profile: Profile,
    word: &[u8],
    other: &[u8],
    text: &'a [u8],
) -> Result<(bool, bool), AllocError>
    ensures faulty { IfOk result
        (λ p. p.0 ≡ is_faulty profile word.now other.now text.now) }
    ensures end { IfOk result (λ p. p.1 ≡ is_end (read_line profile text.now)) }
{
    match read_line_with(alloc, profile, room, text) {
        Ok(line) => Ok((false, taken_from(line).1)),
        Err(LineError::Kind(_)) => Ok((has_either(word, other, text), false)),
        Err(LineError::Memory) => Err(AllocError),
    }
}

/// Returns the number of the first line of a source whose text has a fault and in which one of two
/// words stands, counted from 1, if there is one. A word stands where these letters, digits and `_`
/// do with none next to them: in such a line that may be in a comment or in a string too. No line
/// behind `.END` counts.
///
/// The only error is that a request for memory was refused. Source: mos65.
pub fn faulty_line(
    alloc: Global,
    profile: Profile,
    source: &[u8],
    word: &[u8],
    other: &[u8],
) -> Result<Option<u32>, AllocError>
    requires { length source.now ≤ 1048576 }
    ensures { IfOk result
        (λ number. number ≡ faulty_line profile source.now word.now other.now) }
{
    let mut room = Vec::new(alloc);
    let mut rest = source;
    let mut number = 1;
    while !rest.is_empty() {
        let (text, behind) = next_line(rest);
        let (faulty, ended) = is_faulty(alloc, &mut room, profile, word, other, text)?;
        if faulty {
            return Ok(Some(number));
        }
        if ended {
            return Ok(None);
        }
        rest = behind;
        number += 1;
    }
    Ok(None)
}
