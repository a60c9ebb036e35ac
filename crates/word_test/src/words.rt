//! The words of `test`.

ghost use Rattle.std.specs.Prelude.{◌≡◌, ◌||◌, IfErr, IfOk, None, Some, false, map};
ghost use Rattle.std.specs.Prelude.{option_map};
ghost use Rattle.std.specs.List.{list_any};
ghost use Rattle.arguments.specs.Words.{Fits, IsRefusalOf, all_values, texts};
ghost use Rattle.clap.specs.Words.{app_of, first_value, found_of, kind_of};
ghost use Rattle.clap.specs.declared.builder.command.Command.TheViews.{out-Command};
ghost use Rattle.word_test.specs.Asked.{are_named, are_one, clash, has_name, limit_asked, only_asked};
ghost use Rattle.word_test.specs.Asked.{reading_as, reading_asked, replaces, seed_asked};
ghost use Rattle.word_test.specs.Asked.{sources_asked, takes_names, telling_asked, telling_in};
ghost use Rattle.word_test.specs.Asked.{test_asked, test_of};
ghost use Rattle.word_test.specs.CommandLine.{test, test_files, with_files, with_rows};
ghost use Rattle.word_test.specs.CommandLine.{with_telling, with_told};
ghost use Rattle.word_test.specs.CommandLine.{words_asked};
ghost use Rattle.word_test.specs.Views.{test_view};
ghost use Rattle.t65_suites.specs.Suites.{reading_view};

use arguments::{
    FileForm, WordsFault, begin, file_list, flag, form_said_by, is_given, list, matched, option,
    steps_asked,
};
use clap::error::ErrorKind;
use clap::{ArgMatches, Command, Error};
use image_files::with_image_options;
use std::alloc::{AllocError, Global};
use t65_reader::MOST_STEPS;
use t65_reports::Telling;
use t65_suites::Reading;

/// What the words of `test` ask for.
#[derive(Drop)]
pub struct TestWords<'a> {
    /// The files of rows, one at least.
    pub files: Vec<&'a str>,
    /// The files that each file of rows is run on; where there is none, each file's own is.
    pub sources: Vec<&'a str>,
    /// How these are read.
    pub reading: Reading<'a>,
    /// The file to write the report for JUnit to, if one is asked for; its name is that of none of
    /// the files that are read.
    pub junit: Option<&'a str>,
    /// The file to write which lines were run to, if that is asked for; its name is that of none of
    /// these.
    pub coverage: Option<&'a str>,
    /// The most steps of a call.
    pub steps: u32,
    /// What is written of tests.
    pub telling: Telling,
}

/// What the help of `test` shows below its options.
const STATUSES: &str = "Exit status: 0 all rows pass, 1 a row fails, or a file cannot be tested,
2 bad words, 3 out of memory, 4 I/O failed

Examples:
  mos65 test crc8.t65
  mos65 test crc8.t65 --source students/*/crc8.a65 --steps 10000 --csv
  mos65 test crc8.t65 --source crc8.bin --bin 0200 --symbols crc8.sym";

/// Returns a command with the files.
fn files_command<'a>(alloc: Global) -> Result<Command<'a>, Error>
    ensures shape { IfOk result (λ c. app_of c ≡ test_files) }
    ensures local { IfOk result (λ c. (out-Command c).has_globals ≡ false) }
    ensures memory { IfErr result (λ e. kind_of e ≡ ErrorKind.OutOfMemory) }
{
    let about = "Tests routines by rows: what is given to a call, and what it has to leave";
    let rows = "Files of rows, each of which names its source";
    let source = "Sources that the rows are run on, each, in place of the one that a file names";
    let command = begin(alloc, "test", "mos65 test", about, STATUSES)?
        .arg(file_list(alloc, "FILE", rows))?
        .arg(list(alloc, "source", "FILE", 1, source))?;
    Ok(command)
}

/// Returns a command with the options added of the files that tell of an image.
fn with_told<'a>(alloc: Global, command: Command<'a>) -> Result<Command<'a>, Error>
    ensures shape { IfOk result (λ c. app_of c ≡ with_told (app_of command.entry)) }
    ensures local { IfOk result (λ c. (out-Command command.entry).has_globals ≡ false
        → (out-Command c).has_globals ≡ false) }
    ensures memory { IfErr result (λ e. kind_of e ≡ ErrorKind.OutOfMemory) }
{
    let symbols = "A file of names for an image, as asm --symbols writes it [default: none]";
    let debug =
        "A file of debug information for an image, as ld65 --dbgfile writes it [default: none]";
    let root = "The folder in which names of sources begin [default: that of the debug file]";
    let command = command
        .arg(option(alloc, "symbols", "FILE", symbols))?
        .arg(option(alloc, "debug-info", "FILE", debug))?
        .arg(option(alloc, "source-root", "FOLDER", root))?;
    Ok(command)
}

/// Returns a command with the options added of files that are written, and of the steps of a call.
fn with_files<'a>(alloc: Global, command: Command<'a>) -> Result<Command<'a>, Error>
    ensures shape { IfOk result (λ c. app_of c ≡ with_files (app_of command.entry)) }
    ensures local { IfOk result (λ c. (out-Command command.entry).has_globals ≡ false
        → (out-Command c).has_globals ≡ false) }
    ensures memory { IfErr result (λ e. kind_of e ≡ ErrorKind.OutOfMemory) }
{
    let junit = "The file to write a report for JUnit to [default: none]";
    let coverage = "The file to write for lcov: how often each line was run [default: none]";
    let steps = "The most steps of a call [default: 10000000]";
    let command = command
        .arg(option(alloc, "junit", "FILE", junit))?
        .arg(option(alloc, "coverage", "FILE", coverage))?
        .arg(option(alloc, "steps", "N", steps))?;
    Ok(command)
}

/// Returns a command with the options added of which rows are run, and where random numbers begin.
fn with_rows<'a>(alloc: Global, command: Command<'a>) -> Result<Command<'a>, Error>
    ensures shape { IfOk result (λ c. app_of c ≡ with_rows (app_of command.entry)) }
    ensures local { IfOk result (λ c. (out-Command command.entry).has_globals ≡ false
        → (out-Command c).has_globals ≡ false) }
    ensures memory { IfErr result (λ e. kind_of e ≡ ErrorKind.OutOfMemory) }
{
    let seed = "The seed of all rows for random values [default: the one of each row]";
    let only = "Runs the rows alone that call this routine, by its name in the row [default: all]";
    let command = command
        .arg(option(alloc, "seed", "N", seed))?
        .arg(option(alloc, "only", "NAME", only))?;
    Ok(command)
}

/// Returns a command with the flags added of what is written of tests.
fn with_telling<'a>(alloc: Global, command: Command<'a>) -> Result<Command<'a>, Error>
    ensures shape { IfOk result (λ c. app_of c ≡ with_telling (app_of command.entry)) }
    ensures local { IfOk result (λ c. (out-Command command.entry).has_globals ≡ false
        → (out-Command c).has_globals ≡ false) }
    ensures memory { IfErr result (λ e. kind_of e ≡ ErrorKind.OutOfMemory) }
{
    let summary = "Prints a line after each file: rows that pass and fail, and points";
    let quiet = "Prints the rows that fail, without why, and such a line after each file";
    let csv = "Prints a line of CSV for each file: source, rows, passed, failed, points, of points";
    let command = command
        .arg(flag(alloc, "summary", summary))?
        .arg(flag(alloc, "quiet", quiet))?
        .arg(flag(alloc, "csv", csv))?;
    Ok(command)
}

/// Returns the command line of `test`. The only error is that an allocation failed.
pub fn test_command<'a>(alloc: Global) -> Result<Command<'a>, Error>
    ensures shape { IfOk result (λ c. app_of c ≡ test) }
    ensures local { IfOk result (λ c. (out-Command c).has_globals ≡ false) }
    ensures memory { IfErr result (λ e. kind_of e ≡ ErrorKind.OutOfMemory) }
{
    let raw = "What rows are run on is a raw image, from this address on, four hex digits";
    let prg = "What rows are run on is a PRG file: its address in two bytes, and bytes from it on";
    let command = with_image_options(alloc, files_command(alloc)?, raw, prg)?;
    let command = with_files(alloc, with_told(alloc, command)?)?;
    with_telling(alloc, with_rows(alloc, command)?)
}

/// Returns whether a name is among those of files.
fn is_among(files: &[&str], name: &str) -> bool
    ensures { result ≡ list_any (has_name name.now) (map (λ f. f.now) files.now) }
{
    for file in files {
        if *file == name {
            return true;
        }
    }
    false
}

/// Returns whether the report has the name of one of some files.
fn replaces(report: Option<&str>, files: &[&str]) -> bool
    ensures { result
        ≡ replaces (option_map (λ f. f.now) report.entry) (map (λ f. f.now) files.now) }
{
    match report {
        None => false,
        Some(report) => is_among(files, report),
    }
}

/// Returns whether there are two files, and they have one name.
fn are_one(file: Option<&str>, other: Option<&str>) -> bool
    ensures { result ≡ are_one (option_map (λ f. f.now) file.entry)
        (option_map (λ f. f.now) other.entry) }
{
    match (file, other) {
        (Some(file), Some(other)) => file == other,
        _ => false,
    }
}

/// Returns whether a report has the name of a file that is read, or of the other report.
fn clash(
    junit: Option<&str>,
    coverage: Option<&str>,
    symbols: Option<&str>,
    debug: Option<&str>,
    sources: &[&str],
    files: &[&str],
) -> bool
    ensures { result ≡ clash (option_map (λ f. f.now) junit.entry)
        (option_map (λ f. f.now) coverage.entry) (option_map (λ f. f.now) symbols.entry)
        (option_map (λ f. f.now) debug.entry)
        (map (λ f. f.now) sources.now) (map (λ f. f.now) files.now) }
{
    replaces(junit, files)
        || replaces(junit, sources)
        || are_one(junit, symbols)
        || are_one(junit, debug)
        || replaces(coverage, files)
        || replaces(coverage, sources)
        || are_one(coverage, symbols)
        || are_one(coverage, debug)
        || are_one(junit, coverage)
}

/// Returns how many steps the word after `--steps` asks for at most, or `None` if it is wrong.
fn limit_asked(word: Option<&str>) -> Option<u32>
    ensures { result ≡ limit_asked (option_map (λ w. w.now) word.entry) }
{
    match word {
        None => Some(MOST_STEPS),
        Some(word) => match steps_asked(Some(word)) {
            Some(steps) if steps <= u32::MAX as u64 => Some(steps as u32),
            _ => None,
        },
    }
}

/// Returns the sources that an option asks for.
fn sources_asked<'a, 'b>(sources: Option<&'b [&'a str]>) -> &'b [&'a str]
    ensures { map (λ f. f.now) result.now
        ≡ sources_asked (option_map (λ s. map (λ f. f.now) s.now) sources.entry) }
{
    match sources {
        None => &[],
        Some(sources) => sources,
    }
}

/// Returns where random numbers begin, if a word says it; `None` if the word is wrong.
fn seed_asked(word: Option<&str>) -> Option<Option<u32>>
    ensures { result ≡ seed_asked (option_map (λ w. w.now) word.entry) }
{
    match word {
        None => Some(None),
        Some(word) => match steps_asked(Some(word)) {
            Some(seed) if seed <= u32::MAX as u64 => Some(Some(seed as u32)),
            _ => None,
        },
    }
}

/// Returns the routine whose rows alone are run; no byte where no word names one.
fn only_asked<'a>(word: Option<&'a str>) -> &'a str
    ensures { result.now ≡ only_asked (option_map (λ w. w.now) word.entry) }
{
    match word {
        None => "",
        Some(word) => word,
    }
}

/// Returns whether names can be given to what is read in a form: to an image, and not to a source.
fn takes_names(form: FileForm) -> bool
    ensures { result ≡ takes_names form }
{
    match form {
        FileForm::Source => false,
        FileForm::Records | FileForm::Raw(_) | FileForm::Prg => true,
    }
}

/// Returns whether a file of names is named, or one of debug information.
fn are_named(symbols: Option<&str>, debug: Option<&str>) -> bool
    ensures { result ≡ are_named (option_map (λ f. f.now) symbols.entry)
        (option_map (λ f. f.now) debug.entry) }
{
    match (symbols, debug) {
        (None, None) => false,
        _ => true,
    }
}

/// Returns how files are read in a form, with the files that tell of an image, if such are named,
/// and which rows are run; `None` if the seed is wrong, or a source is given names or lines.
fn reading_as<'a>(
    form: FileForm,
    symbols: Option<&'a str>,
    debug: Option<&'a str>,
    root: Option<&'a str>,
    seed: Option<Option<u32>>,
    only: Option<&'a str>,
) -> Option<Reading<'a>>
    ensures { option_map reading_view result
        ≡ reading_as form (option_map (λ f. f.now) symbols.entry)
        (option_map (λ f. f.now) debug.entry) seed
        (only_asked (option_map (λ w. w.now) only.entry)) }
{
    let Some(seed) = seed else {
        return None;
    };
    if are_named(symbols, debug) && !takes_names(form) {
        return None;
    }
    Some(Reading {
        form,
        symbols,
        debug,
        root,
        seed,
        only: only_asked(only),
    })
}

/// Returns how files are read, and which rows are run, or `None` if a value is wrong or a source is
/// given names.
fn reading_asked<'a>(matches: &ArgMatches<'a>) -> Option<Reading<'a>>
    ensures { option_map reading_view result
        ≡ reading_asked (first_value (found_of matches.now)) }
{
    match form_said_by(matches) {
        None => None,
        Some(form) => reading_as(
            form,
            matches.get_str("symbols"),
            matches.get_str("debug-info"),
            matches.get_str("source-root"),
            seed_asked(matches.get_str("seed")),
            matches.get_str("only"),
        ),
    }
}

/// Returns what is written of tests, by which flags are said; `None` if one is said with CSV.
fn telling_asked(summary: bool, quiet: bool, csv: bool) -> Option<Telling>
    ensures { result ≡ telling_asked summary quiet csv }
{
    if csv {
        if summary || quiet {
            None
        } else {
            Some(Telling::Csv)
        }
    } else if quiet {
        Some(Telling::Quiet)
    } else if summary {
        Some(Telling::Summed)
    } else {
        Some(Telling::Tap)
    }
}

/// Returns what is written of tests, or `None` if a flag is said with CSV.
fn telling_in(matches: &ArgMatches<'_>) -> Option<Telling>
    ensures { result ≡ telling_in (first_value (found_of matches.now)) }
{
    telling_asked(
        is_given(matches, "summary"),
        is_given(matches, "quiet"),
        is_given(matches, "csv"),
    )
}

/// Returns what files and options ask for, or `None` if there is no file, a value is wrong, or a
/// report would replace a file.
fn test_of<'a>(
    alloc: Global,
    junit: Option<&'a str>,
    coverage: Option<&'a str>,
    steps: Option<u32>,
    reading: Option<Reading<'a>>,
    telling: Option<Telling>,
    sources: &[&'a str],
    files: &[&'a str],
) -> Result<Option<TestWords<'a>>, AllocError>
    ensures { IfOk result (λ w. option_map test_view w
        ≡ test_of (option_map (λ f. f.now) junit.entry) (option_map (λ f. f.now) coverage.entry)
        steps (option_map reading_view reading.entry) telling
        (map (λ f. f.now) sources.now) (map (λ f. f.now) files.now)) }
{
    let Some(steps) = steps else {
        return Ok(None);
    };
    let Some(reading) = reading else {
        return Ok(None);
    };
    let Some(telling) = telling else {
        return Ok(None);
    };
    if files.is_empty()
        || clash(
            junit,
            coverage,
            reading.symbols,
            reading.debug,
            sources,
            files,
        )
    {
        return Ok(None);
    }
    Ok(Some(TestWords {
        files: Vec::from_slice(alloc, files)?,
        sources: Vec::from_slice(alloc, sources)?,
        reading,
        junit,
        coverage,
        steps,
        telling,
    }))
}

/// Returns the words of the matched values, or `None` if no file is among them, one is
/// wrong, or a report would replace a file.
fn words_in<'a>(
    alloc: Global,
    matches: &ArgMatches<'a>,
) -> Result<Option<TestWords<'a>>, AllocError>
    ensures { IfOk result (λ w. option_map test_view w
        ≡ test_asked (first_value (found_of matches.now)) (all_values (found_of matches.now))) }
{
    match matches.get_strs("FILE") {
        None => Ok(None),
        Some(files) => test_of(
            alloc,
            matches.get_str("junit"),
            matches.get_str("coverage"),
            limit_asked(matches.get_str("steps")),
            reading_asked(matches),
            telling_in(matches),
            sources_asked(matches.get_strs("source")),
            files,
        ),
    }
}

/// Returns the values of an option that were found.
fn given<'a, 'b>(matches: &'b ArgMatches<'a>, name: &str) -> &'b [&'a str] {
    sources_asked(matches.get_strs(name))
}

/// Returns a sentence that says which file a report would replace.
fn clashing_words(matches: &ArgMatches<'_>) -> &'static str {
    let junit = matches.get_str("junit");
    let symbols = matches.get_str("symbols");
    let debug = matches.get_str("debug-info");
    if are_one(junit, matches.get_str("coverage")) {
        "--junit and --coverage name one file"
    } else if clash(
        junit,
        None,
        symbols,
        debug,
        given(matches, "source"),
        given(matches, "FILE"),
    ) {
        "--junit names a file that is read"
    } else {
        "--coverage names a file that is read"
    }
}

/// Returns a sentence that says why the values that were found ask for nothing.
fn wrong_words(matches: &ArgMatches<'_>) -> &'static str {
    if limit_asked(matches.get_str("steps")).is_none() {
        "--steps takes a decimal number up to 4294967295"
    } else if form_said_by(matches).is_none() {
        "--bin takes four hex digits; only one of --image, --bin and --prg can be said"
    } else if seed_asked(matches.get_str("seed")).is_none() {
        "--seed takes a decimal number up to 4294967295"
    } else if reading_asked(matches).is_none() {
        "--symbols and --debug-info are for an image; a source has its own names and lines"
    } else if telling_in(matches).is_none() {
        "--csv has no rows and no line that sums up: leave --summary and --quiet out"
    } else {
        clashing_words(matches)
    }
}

/// Reads the words of `test`, its own name left out.
///
/// # Errors
///
/// - `Help` if they ask for help, and `Usage` if they do not fit the command line, with `clap`'s
///   text.
/// - `Wrong` if they name no file, a number of steps or a seed is wrong, more than one form of an
///   image is said, an address is wrong, a file of names or of debug information is named and no
///   form of an image is said, CSV is asked for with another flag of what is written, or a report
///   has the name of a file that is read or of the other report.
/// - `OutOfMemory` if an allocation failed.
pub fn read_words<'a>(alloc: Global, words: &'a [&'a str]) -> Result<TestWords<'a>, WordsFault>
    ensures asked { IfOk result
        (λ w. words_asked (texts words.entry.now) ≡ Some (test_view w)) }
    ensures taken { IfOk result (λ w. Fits test (texts words.entry.now)) }
    ensures refused { IfErr result (IsRefusalOf test (texts words.entry.now)
        (words_asked (texts words.entry.now) ≡ None)) }
{
    let matches = matched(test_command(alloc)?, words)?;
    match words_in(alloc, &matches) {
        Ok(Some(words)) => Ok(words),
        Ok(None) => Err(WordsFault::Wrong(wrong_words(&matches))),
        Err(_) => Err(WordsFault::OutOfMemory),
    }
}
