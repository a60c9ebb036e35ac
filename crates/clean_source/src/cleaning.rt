//! A text with each of its lines cleaned.

ghost use Rattle.std.specs.Prelude.{◌≡◌, ◌<◌, ◌++◌, ◌∷◌, [], IfOk, IfSome, None, length, position};
ghost use Rattle.clean_source.specs.Cleaned.{cleaned, cleaned_from, cleaned_line, end_byte};
ghost use Rattle.clean_source.specs.Cleaned.{ends_line};

use crate::line::push_line;
use crate::mark::unmarked;
use std::alloc::{AllocError, Global};

/// The most bytes that a source has (mos65).
const SOURCE_SIZE: usize = 1_048_576;

/// Returns where the first line of a text ends: the index of its first LF or CR.
fn line_end(text: &[u8]) -> Option<usize>
    ensures { result ≡ position ends_line text.now }
{
    text.iter().position(|byte| matches!(*byte, b'\n' | b'\r'))
}

/// Returns how a line ends that ended with this byte, before these.
fn end_byte(byte: u8, behind: &[u8]) -> u8
    ensures { result ≡ end_byte byte behind.now }
{
    match (byte, behind) {
        (b'\r', [b'\n', ..]) => b'\r',
        _ => b'\n',
    }
}

/// Returns the first line of a text, how it ends, and what stands behind it; nothing if no line of
/// the text ends.
fn first_line(text: &[u8]) -> Option<(&[u8], u8, &[u8])>
    ensures cut { IfSome result (λ first. cleaned_from [] text.now
        ≡ cleaned_line first.0.now ++ first.1 ∷ cleaned_from [] first.2.now) }
    ensures shorter { IfSome result (λ first. length first.2.now < length text.now) }
    ensures uncut { result ≡ None → cleaned_from [] text.now ≡ cleaned_line text.now }
{
    match line_end(text) {
        Some(at) => {
            let behind = &text[at + 1..];
            Some((&text[..at], end_byte(text[at], behind), behind))
        }
        None => None,
    }
}

/// Returns a text with each of its lines cleaned.
#[tactic(auto, using(crate::proofs::Segments::line_more))]
fn cleaned_lines(alloc: Global, text: &[u8]) -> Result<Vec<u8>, AllocError>
    ensures { IfOk result (λ made. made.items ≡ cleaned_from [] text.now) }
{
    let mut made = Vec::new(alloc);
    let mut rest = text;
    while let Some((line, end, behind)) = first_line(rest) {
        push_line(alloc, &mut made, line)?;
        made.push(end)?;
        rest = behind;
    }
    push_line(alloc, &mut made, rest)?;
    Ok(made)
}

/// Returns the text that is read in the place of a source.
///
/// Errors: `AllocError` if an allocation fails.
#[tactic(auto, unfolding(crate::specs::Cleaned::cleaned))]
fn cleaned_text(alloc: Global, source: &[u8]) -> Result<Vec<u8>, AllocError>
    ensures { IfOk result (λ text. text.items ≡ cleaned source.now) }
{
    if source.len() > SOURCE_SIZE {
        return Vec::from_slice(alloc, source);
    }
    cleaned_lines(alloc, unmarked(source))
}

/// Returns the text that is read in the place of a source as people save it: without a byte-order
/// mark at its start, with an LF for a CR that stands alone, and with `?` for each character of a
/// comment that may not be in a source.
///
/// A source by the grammar is returned as it is, and so is one of more than 1,048,576 bytes. The
/// only error is that an allocation failed. Source: mos65.
#[tactic(auto, using(crate::proofs::Texts::is_clean))]
pub fn clean_source(alloc: Global, source: &[u8]) -> Result<Vec<u8>, AllocError>
    // What is read is what the definition says.
    ensures cleaned { IfOk result (λ text. text.items ≡ cleaned source.now) }
    // It is clean itself.
    ensures clean { IfOk result (λ text. cleaned text.items ≡ text.items) }
{
    let text = cleaned_text(alloc, source)?;
    Ok(text)
}
