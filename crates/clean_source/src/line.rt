//! A line with its comment cleaned.

ghost use Rattle.std.specs.Prelude.{◌≡◌, ◌++◌, [], IfOk, OnOk, map, take};
ghost use Rattle.line_parts.specs.Lexemes.{lexemes};
ghost use Rattle.clean_source.specs.Cleaned.{cleaned_line, end_of, is_clean_before_comment};
ghost use Rattle.clean_source.specs.Cleaned.{is_clean_to, seen_byte, shown_byte, shown_from};
ghost use Rattle.clean_source.specs.Cleaned.{with_byte};

use lexer::{all_may_stand, tokens};
use line_parts::Token;
use model::LineFault;
use std::alloc::{AllocError, Global};

/// Returns a byte of a line, or `?` for one that may not be in a source.
fn seen_byte(byte: u8) -> u8
    ensures { result ≡ seen_byte byte }
{
    match byte {
        b' '..=b'~' | b'\t' => byte,
        _ => b'?',
    }
}

/// Returns a line with `?` for each byte that may not be in a source.
fn seen(alloc: Global, line: &[u8]) -> Result<Vec<u8>, AllocError>
    ensures { IfOk result (λ seen. seen.items ≡ map seen_byte line.now) }
{
    let mut seen = Vec::new(alloc);
    for byte in line {
        seen.push(seen_byte(*byte))?;
    }
    Ok(seen)
}

/// Returns so many bytes at the front of a line, or all of them if it has no more.
#[tactic(auto, using(std::proofs::lemmas::List::take_min))]
fn front_of(line: &[u8], count: usize) -> &[u8]
    ensures { result.now ≡ take count line.now }
{
    &line[..count.min(line.len())]
}

/// Returns whether the bytes of a line up to the end of the last of some tokens may all be in a
/// source.
fn is_clean_to_last(line: &[u8], tokens: &[Token<'_>]) -> bool
    ensures { result ≡ is_clean_to line.now (end_of (lexemes tokens.now)) }
{
    match tokens.last() {
        Some(last) => { all_may_stand(front_of(line, last.start.saturating_add(last.text.len()))) }
        None => true,
    }
}

/// Returns whether each byte of a line that may not be in a source stands in its comment.
///
/// Errors: `AllocError` if an allocation fails.
fn is_clean_before_comment(alloc: Global, line: &[u8]) -> Result<bool, AllocError>
    ensures { IfOk result (λ is_clean. is_clean ≡ is_clean_before_comment line.now) }
{
    let seen = seen(alloc, line)?;
    match tokens(alloc, &seen) {
        Ok(found) => Ok(is_clean_to_last(line, &found)),
        Err(LineFault::Syntax) => Ok(false),
        Err(LineFault::OutOfMemory) => Err(AllocError),
    }
}

/// Returns what is read in the place of a byte that stands behind another one.
fn shown_byte(before: u8, byte: u8) -> Option<u8>
    ensures { result ≡ shown_byte before byte }
{
    match byte {
        b' '..=b'~' | b'\t' => Some(byte),
        128..=191 if before < 240 => None,
        _ => Some(b'?'),
    }
}

/// Appends what is read in the place of a byte that stands behind another one.
///
/// Errors: `AllocError` if an allocation fails.
fn push_byte(text: &mut Vec<u8>, before: u8, byte: u8) -> Result<(), AllocError>
    ensures { OnOk result
        (text.new.items ≡ text.old.items ++ with_byte (shown_byte before byte) []) }
{
    match shown_byte(before, byte) {
        Some(shown) => {
            text.push(shown)?;
            Ok(())
        }
        None => Ok(()),
    }
}

/// Appends a line with `?` for each character that may not be in a source.
///
/// Errors: `AllocError` if an allocation fails.
fn push_shown(text: &mut Vec<u8>, line: &[u8]) -> Result<(), AllocError>
    ensures { OnOk result (text.new.items ≡ text.old.items ++ shown_from 0 line.now) }
{
    let mut before = 0;
    for byte in line {
        push_byte(text, before, *byte)?;
        before = *byte;
    }
    Ok(())
}

/// Appends a line, cleaned.
///
/// Errors: `AllocError` if an allocation fails.
#[tactic(auto, using(crate::proofs::Plain::plain_line), unfolding(crate::specs::Cleaned::cleaned_line))]
pub fn push_line(alloc: Global, text: &mut Vec<u8>, line: &[u8]) -> Result<(), AllocError>
    ensures { OnOk result (text.new.items ≡ text.old.items ++ cleaned_line line.now) }
{
    if all_may_stand(line) {
        return text.extend_from_slice(line);
    }
    if is_clean_before_comment(alloc, line)? {
        push_shown(text, line)
    } else {
        text.extend_from_slice(line)
    }
}
