//! What the words ask for.
ghost use Rattle.std.specs.Prelude.{◌≡◌, IfErr, IfOk, None, Some, option_map, true};
ghost use Rattle.arguments.specs.Words.{Fits, IsRefusalOf, all_values, texts};
ghost use Rattle.clap.specs.Words.{first_value, found_of};
ghost use Rattle.marks_files.specs.Views.{marks_view};
ghost use Rattle.word_dis.specs.Asked.{bounds_asked, listed, said_of, source_asked};
ghost use Rattle.word_dis.specs.Asked.{source_of_values};
ghost use Rattle.word_dis.specs.CommandLine.{dis, words_asked};
ghost use Rattle.word_dis.specs.Views.{following_view, ranges_view, source_view};

use crate::command::dis_source_command;
use crate::following::{FollowWords, following_asked};
use crate::ranges::{RangeWords, all_ranges_asked};
use arguments::{WordsFault, is_given, matched, name_of, profile_asked, wrong_value};
use clap::ArgMatches;
use image_files::{fill_asked, form_said};
use image_reader::Form;
use marks_files::{Marks, addresses};
use model::Profile;
use std::alloc::{AllocError, Global};
use symbols::Symbols;

/// What the words of `dis TAPE [LO HI] --source` and its options ask for.
#[derive(Drop)]
pub struct SourceWords<'a> {
    /// The file to read.
    pub tape: &'a str,
    /// Its form, if one is said.
    pub form: Option<Form>,
    /// The first address to write.
    pub first: u16,
    /// The last address to write.
    pub last: u16,
    /// What is said of the image.
    pub said: Marks,
    /// Where control comes in in place of the vectors, if that is said.
    pub only: Option<Vec<u16>>,
    /// Whether the source has labels.
    pub labels: bool,
    /// Whether each line has its address and its bytes beside it.
    pub addresses: bool,
    /// The file with names for addresses, if there is one.
    pub symbols: Option<&'a str>,
    /// The file of marks, if there is one.
    pub marks: Option<&'a str>,
    /// The processor whose instructions are written.
    pub profile: Profile,
    /// The byte whose runs are left out, if one is said.
    pub fill: Option<u8>,
}

/// The addresses that LO and HI ask for, all where neither is there, or `None` where they are
/// wrong.
fn bounds_asked(low: Option<&str>, high: Option<&str>) -> Option<(u16, u16)>
    ensures { result
        ≡ bounds_asked (option_map (λ w. w.now) low.entry) (option_map (λ w. w.now) high.entry) }
{
    match low {
        None => match high {
            None => Some((0, 0xffff)),
            Some(_) => None,
        },
        Some(low) => match high {
            None => None,
            Some(high) => addresses(low.as_bytes(), high.as_bytes()),
        },
    }
}

/// The addresses of a list that may be missing.
fn listed(alloc: Global, more: Option<Vec<u16>>) -> Vec<u16>
    ensures { result.items ≡ listed (option_map (λ v. v.items) more) }
{
    match more {
        Some(addresses) => addresses,
        None => Vec::new(alloc),
    }
}

/// What the ranges and the addresses of the words say, and the addresses in place of the vectors.
fn said_of(alloc: Global, ranges: RangeWords, following: FollowWords) -> (Marks, Option<Vec<u16>>)
    ensures said { marks_view result.0 ≡ said_of (ranges_view ranges) (following_view following) }
    ensures only { option_map (λ v. v.items) result.1 ≡ (following_view following).only }
{
    let RangeWords {
        numbers,
        letters,
        addresses,
        returns,
    } = ranges;
    let FollowWords {
        only,
        more,
        routines,
    } = following;
    let said = Marks {
        numbers,
        letters,
        addresses,
        returns,
        instructions: Vec::new(alloc),
        splits: Vec::new(alloc),
        follows: more.is_some(),
        entries: listed(alloc, more),
        routines,
        names: Symbols::new(alloc),
        definitions: Vec::new(alloc),
        remarks: Vec::new(alloc),
        texts: Vec::new(alloc),
    };
    (said, only)
}

/// Values of the words, each one that its name can have.
#[derive(Clone, Copy)]
struct Values<'a> {
    tape: &'a str,
    form: Option<Form>,
    bounds: (u16, u16),
    profile: Profile,
    fill: Option<u8>,
}

/// What is asked for where each value is one that its name can have.
fn words_of<'a>(
    alloc: Global,
    matches: &ArgMatches<'a>,
    values: Values<'a>,
    ranges: RangeWords,
    following: FollowWords,
) -> SourceWords<'a>
    ensures { Some (source_view result) ≡ source_of_values true (Some values.entry.tape.now)
        (Some values.entry.form) (Some values.entry.bounds) (Some (ranges_view ranges))
        (Some (following_view following)) (Some values.entry.profile) (Some values.entry.fill)
        (first_value (found_of matches.now)) }
{
    let (said, only) = said_of(alloc, ranges, following);
    SourceWords {
        tape: values.tape,
        form: values.form,
        first: values.bounds.0,
        last: values.bounds.1,
        said,
        only,
        labels: is_given(matches, "labels"),
        addresses: is_given(matches, "addresses"),
        symbols: matches.get_str("symbols"),
        marks: matches.get_str("marks"),
        profile: values.profile,
        fill: values.fill,
    }
}

/// What the values that were found ask for, or `None` where one is wrong.
fn source_words<'a>(
    alloc: Global,
    matches: &ArgMatches<'a>,
) -> Result<Option<SourceWords<'a>>, AllocError>
    ensures { IfOk result (λ r. option_map source_view r
        ≡ source_asked (first_value (found_of matches.now)) (all_values (found_of matches.now))) }
{
    if !is_given(matches, "source") {
        return Ok(None);
    }
    let Some(word) = matches.get_str("TAPE") else {
        return Ok(None);
    };
    let Some(form) = form_said(Some(word), matches) else {
        return Ok(None);
    };
    let Some(bounds) = bounds_asked(matches.get_str("LO"), matches.get_str("HI")) else {
        return Ok(None);
    };
    let Some(ranges) = all_ranges_asked(alloc, matches)? else {
        return Ok(None);
    };
    let Some(following) = following_asked(alloc, matches)? else {
        return Ok(None);
    };
    let Some(profile) = profile_asked(matches.get_str("profile")) else {
        return Ok(None);
    };
    let Some(fill) = fill_asked(matches.get_str("fill")) else {
        return Ok(None);
    };
    let values = Values {
        tape: name_of(word),
        form,
        bounds,
        profile,
        fill,
    };
    Ok(Some(words_of(alloc, matches, values, ranges, following)))
}

/// Returns a sentence that says which of the values that were found is wrong.
fn wrong_word(matches: &ArgMatches<'_>) -> &'static str {
    if !is_given(matches, "source") {
        "this option goes with --source, which writes a source for asm"
    } else if bounds_asked(matches.get_str("LO"), matches.get_str("HI")).is_none() {
        "LO and HI take four hex digits each, the lower first"
    } else if fill_asked(matches.get_str("fill")).is_none() {
        "--fill takes two hex digits"
    } else {
        let lists = "ranges are 0200-02FF, addresses 0200, routines 0200=z, =n, =h or 0200=12";
        wrong_value(matches).unwrap_or(lists)
    }
}

/// Reads the words after `dis`.
///
/// # Errors
///
/// - `Help` if they ask for help, and `Usage` if they do not fit the command line, with `clap`'s
///   text.
/// - `Wrong`: they fit, and a value is wrong: an address, a range, a routine or a fill byte that is
///   none, LO without HI, or a first address above the last; or `--source` is not among them.
/// - `OutOfMemory`: an allocation failed.
pub fn read_source_words<'a>(
    alloc: Global,
    words: &'a [&'a str],
) -> Result<SourceWords<'a>, WordsFault>
    ensures asked { IfOk result (λ w. words_asked (texts words.entry.now) ≡ Some (source_view w)) }
    ensures fits { IfOk result (λ w. Fits dis (texts words.entry.now)) }
    ensures refused { IfErr result
        (IsRefusalOf dis (texts words.entry.now) (words_asked (texts words.entry.now) ≡ None)) }
{
    let matches = matched(dis_source_command(alloc)?, words)?;
    match source_words(alloc, &matches) {
        Ok(Some(words)) => Ok(words),
        Ok(None) => Err(WordsFault::Wrong(wrong_word(&matches))),
        Err(_) => Err(WordsFault::OutOfMemory),
    }
}
