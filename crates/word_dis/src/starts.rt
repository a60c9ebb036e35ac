//! Where control comes in.

ghost use Rattle.std.specs.Prelude.{◌≡◌, ◌≤◌, ◌++◌, IfOk, OnOk, option_map};
ghost use Rattle.word_dis.specs.Views.{source_view};
ghost use Rattle.word_dis.specs.Written.{entries, firsts, half_targets, is_followed, split_targets};
ghost use Rattle.word_dis.specs.Written.{starts_of, target_list, targets, word_at, words_between};

use crate::asked::SourceWords;
use bus::Image;
use image_files::cell_at;
use marks_files::Split;
use reached::vectors;
use remarked_source::target_at;
use std::alloc::{AllocError, Global};

/// Returns whether control is followed.
pub fn is_followed(words: &SourceWords<'_>) -> bool
    ensures { result ≡ is_followed (source_view words.now) }
{
    words.only.is_some() || words.said.follows || words.said.routines.len() > 0
}

/// Appends the vectors, or the addresses in place of them.
fn push_entries(
    starts: &mut Vec<u16>,
    part: &Image,
    only: &Option<Vec<u16>>,
) -> Result<(), AllocError>
    ensures { OnOk result (starts.new.items
        ≡ starts.old.items ++ entries part.now (option_map (λ v. v.items) only.now)) }
{
    match only {
        None => starts.extend_from_slice(vectors(part).as_slice()),
        Some(only) => starts.extend_from_slice(only.as_slice()),
    }
}

/// Appends the word at an address, and so much more, where both its bytes are there.
fn push_word(starts: &mut Vec<u16>, part: &Image, more: u16, address: u32) -> Result<(), AllocError>
    requires { address ≤ 131072 }
    ensures { OnOk result
        (starts.new.items ≡ starts.old.items ++ word_at part.now more address) }
{
    match (cell_at(part, address), cell_at(part, address + 1)) {
        (Some(low), Some(high)) => {
            let word = low as u32 + 256 * high as u32 + more as u32;
            starts.push((word % 65536) as u16)?;
            Ok(())
        }
        _ => Ok(()),
    }
}

/// Appends the words of a range, and so much more.
#[tactic(auto, using(crate::proofs::StartsFound::ended, crate::proofs::StartsFound::none))]
fn push_words(
    starts: &mut Vec<u16>,
    part: &Image,
    more: u16,
    range: (u16, u16),
) -> Result<(), AllocError>
    ensures { OnOk result (starts.new.items
        ≡ starts.old.items ++ words_between part.now more 32768 range.0 range.1) }
{
    let last = range.1 as u32;
    let mut at = range.0 as u32;
    let mut left = 32768u32;
    while left > 0 {
        if last <= at {
            return Ok(());
        }
        push_word(starts, part, more, at)?;
        at += 2;
        left -= 1;
    }
    Ok(())
}

/// Appends the words of ranges, and so much more.
fn push_targets(
    starts: &mut Vec<u16>,
    part: &Image,
    more: u16,
    ranges: &[(u16, u16)],
) -> Result<(), AllocError>
    ensures { OnOk result
        (starts.new.items ≡ starts.old.items ++ targets part.now more ranges.now) }
{
    for range in ranges {
        push_words(starts, part, more, *range)?;
    }
    Ok(())
}

/// Appends an address, if there is one.
fn push_target(starts: &mut Vec<u16>, target: Option<u16>) -> Result<(), AllocError>
    ensures { OnOk result (starts.new.items ≡ starts.old.items ++ target_list target) }
{
    match target {
        Some(target) => {
            starts.push(target)?;
            Ok(())
        }
        None => Ok(()),
    }
}

/// Appends the addresses to which the words of a table in two halves lead.
#[tactic(auto, using(crate::proofs::StartsFound::no_halves))]
fn push_halves(starts: &mut Vec<u16>, part: &Image, split: Split) -> Result<(), AllocError>
    ensures { OnOk result (starts.new.items
        ≡ starts.old.items ++ half_targets part.now split split.count) }
{
    for index in 0..split.count {
        push_target(starts, target_at(part.cells(), split, index))?;
    }
    Ok(())
}

/// Appends those of all such tables.
fn push_splits(starts: &mut Vec<u16>, part: &Image, splits: &[Split]) -> Result<(), AllocError>
    ensures { OnOk result
        (starts.new.items ≡ starts.old.items ++ split_targets part.now splits.now) }
{
    for split in splits {
        push_halves(starts, part, *split)?;
    }
    Ok(())
}

/// Appends the first addresses of ranges.
fn push_firsts(starts: &mut Vec<u16>, ranges: &[(u16, u16)]) -> Result<(), AllocError>
    ensures { OnOk result (starts.new.items ≡ starts.old.items ++ firsts ranges.now) }
{
    for range in ranges {
        starts.push(range.0)?;
    }
    Ok(())
}

/// Returns where control comes in: at the vectors, or the addresses in place of them; at more
/// addresses; where words lead that are marked as addresses, or stand in two halves; and at ranges
/// of instructions. The only error is that a request for memory was refused.
pub fn starts_of(
    alloc: Global,
    part: &Image,
    words: &SourceWords<'_>,
) -> Result<Vec<u16>, AllocError>
    ensures { IfOk result (λ starts. starts.items
        ≡ starts_of part.now (source_view words.now)) }
{
    let mut starts = Vec::new(alloc);
    push_entries(&mut starts, part, &words.only)?;
    starts.extend_from_slice(words.said.entries.as_slice())?;
    push_targets(&mut starts, part, 0, words.said.addresses.as_slice())?;
    push_targets(&mut starts, part, 1, words.said.returns.as_slice())?;
    push_splits(&mut starts, part, words.said.splits.as_slice())?;
    push_firsts(&mut starts, words.said.instructions.as_slice())?;
    Ok(starts)
}
