//! The block of a fault or a warning, and the total after the blocks.

ghost use Rattle.std.specs.Prelude.{◌≡◌, ◌++◌, OnOk, take};
ghost use Rattle.std.specs.Option.{option_map};
ghost use Rattle.source_notes.specs.Blocks.{block_of, column_of, total_of};

use crate::note::Note;
use crate::shown::{after_head, push_place};
use crate::wording::AND_MORE;
use formatting::{push_count, push_text};
use std::alloc::{AllocError, Global};

/// The most blocks that are written of a source.
const MOST_TOLD: usize = 50;

/// Returns the column of the first byte that a note means, counted from 1.
fn column_of(note: &Note) -> u32
    ensures { result ≡ column_of note.now }
{
    (note.start % 65536) as u32 + 1
}

/// Appends a block about a line of a file: `FILE:LINE:COLUMN: `, a title, the note's words, and the
/// line's text with a mark, if there is such a line.
///
/// Errors: `AllocError` if an allocation fails.
pub fn push_block(
    alloc: Global,
    text: &mut Vec<u8>,
    file: &[u8],
    number: u32,
    title: &[u8],
    line: Option<&[u8]>,
    note: &Note,
) -> Result<(), AllocError>
    ensures { OnOk result (text.new.items ≡ text.old.items ++ block_of file.now number title.now
        (option_map (λ line. line.now) line.entry) note.now) }
{
    let rest = after_head(alloc, line, note)?;
    push_place(text, file, number, column_of(note))?;
    text.extend_from_slice(title)?;
    text.extend_from_slice(&rest)
}

/// Returns the first 50 of some faults or warnings: those that get a block.
#[tactic(auto, using(std::proofs::lemmas::List::take_min))]
pub fn first_told<T>(all: &[T]) -> &[T]
    ensures { result.now ≡ take 50 all.now }
{
    &all[..MOST_TOLD.min(all.len())]
}

/// Appends how many faults or warnings there are, with the word for one or for any other count, and
/// before it a line that says so where there are more than 50.
///
/// Errors: `AllocError` if an allocation fails.
pub fn push_total(text: &mut Vec<u8>, count: usize, one: &str, many: &str) -> Result<(), AllocError>
    ensures { OnOk result (text.new.items
        ≡ text.old.items ++ total_of one.now many.now count) }
{
    if count > MOST_TOLD {
        push_text(text, AND_MORE)?;
    }
    push_count(text, count as u64)?;
    if count == 1 {
        push_text(text, one)
    } else {
        push_text(text, many)
    }
}
