//! Ranges of addresses.

ghost use Rattle.std.specs.Prelude.{◌≡◌, IfOk, map, option_map};
ghost use Rattle.arguments.specs.Words.{all_values};
ghost use Rattle.clap.specs.Words.{found_of};
ghost use Rattle.marks_files.specs.Values.{range_of};
ghost use Rattle.word_dis.specs.Asked.{all_of, all_ranges_asked, ranges_asked};
ghost use Rattle.word_dis.specs.Views.{ranges_view};

use clap::ArgMatches;
use marks_files::range;
use std::alloc::{AllocError, Global};

/// Ranges of what is no code, each with its first and its last address.
#[derive(Drop)]
pub struct RangeWords {
    /// The ranges of numbers.
    pub numbers: Vec<(u16, u16)>,
    /// The ranges of letters.
    pub letters: Vec<(u16, u16)>,
    /// The ranges of words, each an address.
    pub addresses: Vec<(u16, u16)>,
    /// The ranges of words, each the address before one to which RTS goes.
    pub returns: Vec<(u16, u16)>,
}

/// The ranges that words write, or `None` where one is wrong.
fn ranges(alloc: Global, words: &[&str]) -> Result<Option<Vec<(u16, u16)>>, AllocError>
    ensures { IfOk result (λ r. option_map (λ v. v.items) r
        ≡ all_of range_of (map (λ w. w.now) words.now)) }
{
    let mut ranges = Vec::new(alloc);
    for word in words {
        match range(word.as_bytes()) {
            Some(range) => ranges.push(range)?,
            None => return Ok(None),
        }
    }
    Ok(Some(ranges))
}

/// The ranges that an option asks for, none where it is not there, or `None` where one is wrong.
fn ranges_asked(
    alloc: Global,
    words: Option<&[&str]>,
) -> Result<Option<Vec<(u16, u16)>>, AllocError>
    ensures { IfOk result (λ r. option_map (λ v. v.items) r
        ≡ ranges_asked (option_map (λ s. map (λ w. w.now) s.now) words.entry)) }
{
    match words {
        None => Ok(Some(Vec::new(alloc))),
        Some(words) => ranges(alloc, words),
    }
}

/// Returns the ranges that the values ask for, or `None` where one is wrong. The only error is that
/// a request for memory was refused.
pub fn all_ranges_asked(
    alloc: Global,
    matches: &ArgMatches<'_>,
) -> Result<Option<RangeWords>, AllocError>
    ensures { IfOk result (λ r. option_map ranges_view r
        ≡ all_ranges_asked (all_values (found_of matches.now))) }
{
    let Some(numbers) = ranges_asked(alloc, matches.get_strs("data"))? else {
        return Ok(None);
    };
    let Some(letters) = ranges_asked(alloc, matches.get_strs("text"))? else {
        return Ok(None);
    };
    let Some(addresses) = ranges_asked(alloc, matches.get_strs("words"))? else {
        return Ok(None);
    };
    let Some(returns) = ranges_asked(alloc, matches.get_strs("rts-words"))? else {
        return Ok(None);
    };
    Ok(Some(RangeWords {
        numbers,
        letters,
        addresses,
        returns,
    }))
}
