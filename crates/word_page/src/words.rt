//! What the words of `page` ask for.

ghost use Rattle.std.specs.Prelude.{◌≡◌, IsOkUnless, IfErr, IfOk, None, Some, false};
ghost use Rattle.std.specs.Prelude.{option_map};
ghost use Rattle.arguments.specs.Words.{Fits, IsRefusalOf, texts};
ghost use Rattle.clap.specs.Words.{first_value, found_of};
ghost use Rattle.word_page.specs.Asked.{PageAsked, words_in, is_read, is_taken, names_file};
ghost use Rattle.word_page.specs.Asked.{opening_asked, opening_view, page_asked, page_steps};
ghost use Rattle.word_page.specs.Asked.{page_view};
ghost use Rattle.word_page.specs.Asked.{screen_asked, step_asked};
ghost use Rattle.word_page.specs.CommandLine.{page};

use crate::command::page_command;
use crate::wording::{AT_TAKES, ONE_IMAGE, ONE_NAME, SCREEN_TAKES};
use arguments::{
    FileWords, WordsFault, file_words, is_given, matched, names_image, steps_asked, wrong_value,
};
use arguments_play::{DEBUG_TAKES, debug_asked};
use clap::ArgMatches;
use commands::{address_of, decimal_of};
use std::alloc::Global;

/// What a page shows when it is opened, as the words of `page` ask for it.
#[derive(Clone, Copy, Debug, PartialEq, Eq)]
pub struct OpeningWords<'a> {
    /// The number of steps that were made, if one is said.
    pub step: Option<u32>,
    /// The first address of a screen, if one is said.
    pub screen: Option<u16>,
    /// The file of notes, if one is named.
    pub notes: Option<&'a str>,
}

/// What the words of `page` ask for.
#[derive(Clone, Copy, Debug, PartialEq, Eq)]
pub struct PageWords<'a> {
    /// The file to run, and its map.
    pub file: FileWords<'a>,
    /// The page to write. Its name is that of no file that is read.
    pub out: &'a str,
    /// The file of names, if one is named.
    pub symbols: Option<&'a str>,
    /// The file of debug information, if one is named.
    pub debug_info: Option<&'a str>,
    /// Where relative names of its sources begin, if that is said.
    pub source_root: Option<&'a str>,
    /// The file with the input, if one is named.
    pub input: Option<&'a str>,
    /// The place that ends the run, if one is named.
    pub until: Option<&'a str>,
    /// The most steps that are made.
    pub steps: u64,
    /// The title of the page, if one is said.
    pub title: Option<&'a str>,
    /// What the page shows when it is opened.
    pub opening: OpeningWords<'a>,
    /// Whether a run goes on where nothing stands that could be run.
    pub is_free: bool,
}

/// Returns how many steps the word after `--steps` asks for at most, or `None` if it is wrong:
/// 100,000 where no word says it.
fn page_steps(word: Option<&str>) -> Option<u64>
    ensures { result ≡ page_steps (option_map (λ w. w.now) word.entry) }
{
    match word {
        None => Some(100_000),
        Some(_) => steps_asked(word),
    }
}

/// Returns the step that the word after `--at` says, if there is one, or `None` if it is wrong.
fn step_asked(word: Option<&str>) -> Option<Option<u32>>
    ensures { result ≡ step_asked (option_map (λ w. w.now) word.entry) }
{
    match word {
        None => Some(None),
        Some(word) => match decimal_of(word.as_bytes()) {
            None => None,
            Some(step) => Some(Some(step)),
        },
    }
}

/// Returns the address that the word after `--screen` says, if there is one, or `None` if it is
/// wrong.
fn screen_asked(word: Option<&str>) -> Option<Option<u16>>
    ensures { result ≡ screen_asked (option_map (λ w. w.now) word.entry) }
{
    match word {
        None => Some(None),
        Some(word) => match address_of(word.as_bytes()) {
            None => None,
            Some(address) => Some(Some(address)),
        },
    }
}

/// Returns what the matched values ask for of a page when it is opened, or `None` if one is wrong.
fn opening_asked<'a>(matches: &ArgMatches<'a>) -> Option<OpeningWords<'a>>
    ensures { option_map opening_view result ≡ opening_asked (first_value (found_of matches.now)) }
{
    let step = step_asked(matches.get_str("at"))?;
    let screen = screen_asked(matches.get_str("screen"))?;
    let notes = matches.get_str("notes");
    Some(OpeningWords {
        step,
        screen,
        notes,
    })
}

/// Returns whether a file that may be named has a name.
fn names_file(word: Option<&str>, name: &str) -> bool
    ensures { result ≡ names_file (option_map (λ w. w.now) word.entry) name.now }
{
    match word {
        None => false,
        Some(word) => word == name,
    }
}

/// Returns whether the name of the page is that of a file that is read.
fn is_read(
    file: &str,
    symbols: Option<&str>,
    debug: Option<&str>,
    input: Option<&str>,
    notes: Option<&str>,
    out: &str,
) -> bool
    ensures { result ≡ is_read file.now (option_map (λ w. w.now) symbols.entry)
        (option_map (λ w. w.now) debug.entry) (option_map (λ w. w.now) input.entry)
        (option_map (λ w. w.now) notes.entry) out.now }
{
    file == out
        || names_file(symbols, out)
        || names_file(debug, out)
        || names_file(input, out)
        || names_file(notes, out)
}

/// Returns whether the name of the page is that of a file that is read, or that of an image.
fn is_taken(
    file: &str,
    symbols: Option<&str>,
    debug: Option<&str>,
    input: Option<&str>,
    notes: Option<&str>,
    out: &str,
) -> bool
    ensures { result ≡ is_taken file.now (option_map (λ w. w.now) symbols.entry)
        (option_map (λ w. w.now) debug.entry) (option_map (λ w. w.now) input.entry)
        (option_map (λ w. w.now) notes.entry) out.now }
{
    names_image(out) || is_read(file, symbols, debug, input, notes, out)
}

/// Returns the words of the matched values, or `None` if one is wrong.
fn words_in<'a>(matches: &ArgMatches<'a>) -> Option<PageWords<'a>>
    ensures { option_map page_view result ≡ page_asked (first_value (found_of matches.now)) }
{
    let Some(file) = file_words(matches) else {
        return None;
    };
    let out = matches.get_str("OUT")?;
    let symbols = matches.get_str("symbols");
    let debug_info = debug_asked(&file, matches.get_str("debug-info"))?;
    let input = matches.get_str("input");
    let steps = page_steps(matches.get_str("steps"))?;
    let opening = opening_asked(matches)?;
    if is_taken(file.file, symbols, debug_info, input, opening.notes, out) {
        return None;
    }
    Some(PageWords {
        file,
        out,
        symbols,
        debug_info,
        source_root: matches.get_str("source-root"),
        input,
        until: matches.get_str("until"),
        steps,
        title: matches.get_str("title"),
        opening,
        is_free: is_given(matches, "free"),
    })
}

/// Returns whether debug information is named for a source.
fn is_debug_wrong(matches: &ArgMatches<'_>) -> bool {
    match file_words(matches) {
        None => false,
        Some(file) => debug_asked(&file, matches.get_str("debug-info")).is_none(),
    }
}

/// Returns a sentence that says what is wrong with the values that were found.
fn wrong_words(matches: &ArgMatches<'_>) -> &'static str {
    if let Some(which) = wrong_value(matches) {
        which
    } else if step_asked(matches.get_str("at")).is_none() {
        AT_TAKES
    } else if screen_asked(matches.get_str("screen")).is_none() {
        SCREEN_TAKES
    } else if is_debug_wrong(matches) {
        DEBUG_TAKES
    } else if matches.get_str("OUT").is_some_and(|out| names_image(out)) {
        ONE_IMAGE
    } else {
        ONE_NAME
    }
}

/// Reads the words of `page`, its own name left out.
///
/// # Errors
///
/// - `Help`: the words ask for help. The text is `clap`'s.
/// - `Usage`: a word is missing or unknown, or there are too many. The text is `clap`'s.
/// - `Wrong`: an option has a value that it cannot have, or the page has the name of an image or of
///   a file that is read.
/// - `OutOfMemory`: an allocation failed.
pub fn read_page_words<'a>(alloc: Global, words: &'a [&'a str]) -> Result<PageWords<'a>, WordsFault>
    ensures asked { IfOk result (λ w. words_in (texts words.entry.now) ≡ Some (page_view w)) }
    ensures fits { IfOk result (λ _. Fits page (texts words.entry.now)) }
    ensures served { (a : PageAsked) → Fits page (texts words.entry.now)
        → words_in (texts words.entry.now) ≡ Some a → IsOkUnless result WordsFault.OutOfMemory }
    ensures refused { IfErr result (IsRefusalOf page (texts words.entry.now)
        (words_in (texts words.entry.now) ≡ None)) }
{
    let matches = matched(page_command(alloc)?, words)?;
    match words_in(&matches) {
        Some(words) => Ok(words),
        None => Err(WordsFault::Wrong(wrong_words(&matches))),
    }
}
