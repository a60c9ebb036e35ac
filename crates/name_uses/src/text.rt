//! A text with another word at some places.

ghost use Rattle.std.specs.Prelude.{◌≡◌, ◌++◌, ◌≤◌, IfOk, OnOk, drop, length};
ghost use Rattle.name_uses.specs.Views.{use_views};
ghost use Rattle.name_uses.specs.Renaming.{left_at, piece_at, replaced, rest_at};

use crate::name_use::NameUse;
use std::alloc::{AllocError, Global};

/// A place in a text: a line, counted from 1, and a column, counted from 0.
#[derive(Clone, Copy)]
struct LineColumn {
    line: u32,
    column: usize,
}

/// Appends what stands in place of a byte: nothing where so many bytes still belong to the use
/// before, the word where the first of some uses begins, and otherwise the byte. Returns how many
/// bytes behind it are left out, and how many uses were met.
fn push_piece(
    text: &mut Vec<u8>,
    word: &[u8],
    place: LineColumn,
    left: usize,
    uses: &[NameUse<'_>],
    byte: u8,
) -> Result<(usize, usize), AllocError>
    ensures text { OnOk result (text.new.items ≡ text.old.items
        ++ piece_at word.now place.line place.column left (use_views uses.now) byte) }
    ensures left { IfOk result
        (λ p. p.0 ≡ left_at place.line place.column left (use_views uses.now)) }
    ensures rest { IfOk result (λ p. drop p.1 (use_views uses.now)
        ≡ rest_at place.line place.column left (use_views uses.now)) }
    ensures within { IfOk result (λ p. p.1 ≤ length uses.now) }
{
    if left > 0 {
        return Ok((left - 1, 0));
    }
    match uses {
        [first, ..] if first.line == place.line && first.start == place.column => {
            text.extend_from_slice(word)?;
            Ok((first.text.len().saturating_sub(1), 1))
        }
        _ => {
            text.push(byte)?;
            Ok((0, 0))
        }
    }
}

/// Returns a text with a word in place of each of some uses of a name. The only error is that a
/// request for memory was refused.
pub fn replaced(
    alloc: Global,
    source: &[u8],
    uses: &[NameUse<'_>],
    word: &[u8],
) -> Result<Vec<u8>, AllocError>
    requires { length source.now ≤ 1048576 }
    ensures { IfOk result
        (λ text. text.items ≡ replaced word.now (use_views uses.now) 1 0 0 source.now) }
{
    let mut text = Vec::new(alloc);
    let mut next = 0usize;
    let mut place = LineColumn { line: 1, column: 0 };
    let mut left = 0usize;
    for byte in source {
        let (more, met) = push_piece(&mut text, word, place, left, &uses[next..], *byte)?;
        left = more;
        next += met;
        if *byte == b'\n' {
            place.line += 1;
            place.column = 0;
        } else {
            place.column += 1;
        }
    }
    Ok(text)
}
