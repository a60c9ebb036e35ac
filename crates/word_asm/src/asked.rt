//! What the words ask for.

ghost use Rattle.std.specs.Prelude.{◌≡◌, IfErr, IfOk, None, Some, map, option_map};
ghost use Rattle.arguments.specs.Words.{Fits, IsRefusalOf, texts};
ghost use Rattle.program.specs.Views.{asm_view};
ghost use Rattle.word_asm.specs.Asked.{files_asked, fill_of, format_asked, has_twice, images_asked};
ghost use Rattle.word_asm.specs.Asked.{is_again, is_among, is_lone, names_of};
ghost use Rattle.word_asm.specs.CommandLine.{asm, words_asked};
ghost use Rattle.word_asm.specs.Views.{files_view, images_view};
ghost use Rattle.clap.specs.Words.{first_value, found_of};

use crate::command::asm_files_command;
use crate::format::SymbolsFormat;
use arguments::{WordsFault, is_given, matched, wrong_value};
use clap::ArgMatches;
use image_files::fill_asked;
use program::{AsmWords, asm_words};
use std::alloc::Global;

/// The files to write the image to in other forms than a tape.
#[derive(Clone, Copy)]
pub struct ImageNames<'a> {
    /// The file for bytes alone, if one is asked for.
    pub raw: Option<&'a str>,
    /// The file for Intel HEX, if one is asked for.
    pub hex: Option<&'a str>,
    /// The file for S-records, if one is asked for.
    pub srec: Option<&'a str>,
    /// The byte that the gaps of bytes alone are filled with.
    pub fill: u8,
}

/// What the words of `asm` with further files ask for.
///
/// No two of the files have the same name.
#[derive(Clone, Copy)]
pub struct FilesWords<'a> {
    /// What `asm` does.
    pub asm: AsmWords<'a>,
    /// The file to write the names to, if one is asked for.
    pub symbols: Option<&'a str>,
    /// How they are written.
    pub format: SymbolsFormat,
    /// The file to write the places of the lines to, if one is asked for.
    pub map: Option<&'a str>,
    /// The files to write the image to.
    pub images: ImageNames<'a>,
    /// Whether the source is cleaned before it is assembled.
    pub cleans: bool,
}

/// Returns the format that the word after `--symbols-format` asks for, or `None` if it is wrong.
fn format_asked(word: Option<&str>) -> Option<SymbolsFormat>
    ensures { result ≡ format_asked (option_map (λ w. w.now) word.entry) }
{
    match word {
        None => Some(SymbolsFormat::Plain),
        Some(word) => {
            if word == "plain" {
                Some(SymbolsFormat::Plain)
            } else if word == "vice" {
                Some(SymbolsFormat::Vice)
            } else {
                None
            }
        }
    }
}

/// Returns the byte that gaps are filled with, by the word after `--fill`: $FF without it.
fn fill_of(fill: Option<Option<u8>>) -> Option<u8>
    ensures { result ≡ fill_of fill }
{
    match fill {
        None => None,
        Some(None) => Some(0xff),
        Some(Some(fill)) => Some(fill),
    }
}

/// Returns the files of the image that the values ask for, or `None` if the byte of gaps is wrong.
fn images_asked<'a>(matches: &ArgMatches<'a>) -> Option<ImageNames<'a>>
    ensures { option_map images_view result ≡ images_asked (first_value (found_of matches.now)) }
{
    let fill = fill_of(fill_asked(matches.get_str("fill")))?;
    Some(ImageNames {
        raw: matches.get_str("bin"),
        hex: matches.get_str("hex"),
        srec: matches.get_str("srec"),
        fill,
    })
}

/// Returns whether one of the files has a name.
fn is_among(name: &str, files: &[Option<&str>]) -> bool
    ensures { result ≡ is_among name.now (map (option_map (λ s. s.now)) files.now) }
{
    for file in files {
        if let Some(file) = file {
            if *file == name {
                return true;
            }
        }
    }
    false
}

/// Returns whether a file has the name of one of the others.
fn is_again(file: Option<&str>, files: &[Option<&str>]) -> bool
    ensures { result ≡ is_again (option_map (λ s. s.now) file.entry)
        (map (option_map (λ s. s.now)) files.now) }
{
    match file {
        None => false,
        Some(file) => is_among(file, files),
    }
}

/// Returns whether two of the files have one name.
fn has_twice(files: &[Option<&str>]) -> bool
    ensures { result ≡ has_twice (map (option_map (λ s. s.now)) files.now) }
{
    let mut rest = files;
    for seen in 0..files.len() {
        match rest {
            [] => return false,
            [file, others @ ..] => {
                if is_again(*file, others) {
                    return true;
                }
                rest = others;
            }
        }
    }
    false
}

/// Returns whether an option is there without the one that it is about.
fn is_lone(option: Option<&str>, about: Option<&str>) -> bool
    ensures { result ≡ is_lone (option_map (λ s. s.now) option.entry)
        (option_map (λ s. s.now) about.entry) }
{
    option.is_some() && !about.is_some()
}

/// Returns whether two of the files of the words have one name.
fn overlaps(words: &FilesWords<'_>) -> bool
    ensures { result ≡ has_twice (names_of (asm_view words.now.asm)
        (option_map (λ s. s.now) words.now.symbols) (option_map (λ s. s.now) words.now.map)
        (images_view words.now.images)) }
{
    has_twice(&[
        Some(words.asm.source),
        Some(words.asm.tape),
        words.asm.listing,
        words.symbols,
        words.map,
        words.images.raw,
        words.images.hex,
        words.images.srec,
    ])
}

/// Returns what the values that were found ask for, or `None` if one is wrong.
fn files_words<'a>(matches: &ArgMatches<'a>) -> Option<FilesWords<'a>>
    ensures { option_map files_view result ≡ files_asked (first_value (found_of matches.now)) }
{
    let Some(asm) = asm_words(matches) else {
        return None;
    };
    let symbols = matches.get_str("symbols");
    let map = matches.get_str("map");
    let named = matches.get_str("symbols-format");
    let Some(images) = images_asked(matches) else {
        return None;
    };
    let format = format_asked(named)?;
    let words = FilesWords {
        asm,
        symbols,
        format,
        map,
        images,
        cleans: is_given(matches, "utf8"),
    };
    let is_alone = is_lone(named, symbols) || is_lone(matches.get_str("fill"), images.raw);
    if is_alone || overlaps(&words) {
        None
    } else {
        Some(words)
    }
}

/// Returns a sentence that says which of the values that were found is wrong.
fn wrong_word(matches: &ArgMatches<'_>) -> &'static str {
    let format = matches.get_str("symbols-format");
    if format_asked(format).is_none() {
        "--symbols-format takes plain or vice"
    } else if format.is_some() && matches.get_str("symbols").is_none() {
        "--symbols-format needs --symbols"
    } else if fill_asked(matches.get_str("fill")).is_none() {
        "--fill takes two hex digits"
    } else if is_lone(matches.get_str("fill"), matches.get_str("bin")) {
        "--fill needs --bin"
    } else if asm_words(matches).is_some() {
        "two of the files have one name"
    } else {
        wrong_value(matches).unwrap_or("two of the files have one name")
    }
}

/// Reads the words after `asm`.
///
/// # Errors
///
/// - `Help` if they ask for help, and `Usage` if they do not fit the command line, with `clap`'s
///   text.
/// - `Wrong`: they fit, and a value is wrong: one of those of `asm`, a format that is neither
///   `plain` nor `vice` or has no file, a byte to fill with that is none or has no file, or two
///   files with one name.
/// - `OutOfMemory`: an allocation failed.
pub fn read_files_words<'a>(
    alloc: Global,
    words: &'a [&'a str],
) -> Result<FilesWords<'a>, WordsFault>
    ensures asked { IfOk result (λ w. words_asked (texts words.entry.now) ≡ Some (files_view w)) }
    ensures fits { IfOk result (λ w. Fits asm (texts words.entry.now)) }
    ensures refused { IfErr result
        (IsRefusalOf asm (texts words.entry.now) (words_asked (texts words.entry.now) ≡ None)) }
{
    let matches = matched(asm_files_command(alloc)?, words)?;
    match files_words(&matches) {
        Some(words) => Ok(words),
        None => Err(WordsFault::Wrong(wrong_word(&matches))),
    }
}
