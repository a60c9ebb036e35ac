//! The words of `run`.

ghost use Rattle.std.specs.Prelude.{◌≡◌, IsOkUnless, IfErr, IfOk, None, Some, false, option_map};
ghost use Rattle.arguments.specs.Words.{Fits, IsRefusalOf, texts};
ghost use Rattle.arguments_play.specs.Run.{RunAsked, words_in, run, run_asked, run_view, status_asked};
ghost use Rattle.clap.specs.Words.{app_of, first_value, found_of, kind_of};
ghost use Rattle.clap.specs.declared.builder.command.Command.TheViews.{out-Command};

use crate::debug::{DEBUG_HELP, DEBUG_TAKES, ROOT_HELP, debug_asked};
use arguments::{
    FileWords, OtherFiles, WordsFault, begin, file_words, flag, is_given, matched, option,
    other_files, steps_asked, with_files_options, wrong_value,
};
use clap::error::ErrorKind;
use clap::{ArgMatches, Command, Error};
use std::alloc::Global;

/// What the words of `run` ask for.
#[derive(Clone, Copy, Debug, PartialEq, Eq)]
pub struct RunWords<'a> {
    /// The file to run, and its map.
    pub file: FileWords<'a>,
    /// More files of the same machine.
    pub others: OtherFiles<'a>,
    /// The file of names, if one is named.
    pub symbols: Option<&'a str>,
    /// A file of debug information, if one is named.
    pub debug_info: Option<&'a str>,
    /// Where relative names of its sources begin, if that is given.
    pub source_root: Option<&'a str>,
    /// The place that ends the run, if one is named.
    pub until: Option<&'a str>,
    /// The most steps that are made.
    pub steps: u64,
    /// Whether the exit status is the value of A.
    pub is_status_of_a: bool,
    /// Whether cycles and steps are told at the end.
    pub tells_cycles: bool,
    /// Whether a run goes on where nothing stands that could be run.
    pub is_free: bool,
}

/// What the help of `run` shows below its options.
const STATUSES: &str = "Exit status: 0 the run came to its end (with --status A the value of A),
10 the limit of steps, 11 a fault of the program, 12 the console is full,
13 nothing stands where the program runs,
1 bad source or tape, 2 bad words or map, 3 out of memory, 4 I/O failed

Example:
  mos65 run guess.a65
  mos65 run lo.bin@8000 hi.bin@C000";

/// Returns the command line of `run`.
///
/// The only error is that an allocation failed.
pub fn run_command<'a>(alloc: Global) -> Result<Command<'a>, Error>
    ensures shape { IfOk result (λ c. app_of c ≡ run) }
    ensures local { IfOk result (λ c. (out-Command c).has_globals ≡ false) }
    ensures memory { IfErr result (λ e. kind_of e ≡ ErrorKind.OutOfMemory) }
{
    let about = "Runs a program: its console is the terminal";
    let symbols = "A file of names for an image, as asm --symbols writes it [default: none]";
    let until = "Where the run ends: a name, an address, or FILE:LINE [default: none]";
    let steps = "The most steps to make [default: no limit]";
    let status = "A: the exit status is the value of A [default: 0]";
    let cycles = "Prints cycles and steps at the end, on the error stream";
    let free = "Runs on where nothing was written, and at a BRK without a vector";
    let command = begin(alloc, "run", "mos65 run", about, STATUSES)?;
    let command = with_files_options(alloc, command)?
        .arg(option(alloc, "symbols", "FILE", symbols))?
        .arg(option(alloc, "debug-info", "FILE", DEBUG_HELP))?
        .arg(option(alloc, "source-root", "FOLDER", ROOT_HELP))?
        .arg(option(alloc, "until", "WHERE", until))?
        .arg(option(alloc, "steps", "N", steps))?
        .arg(option(alloc, "status", "A", status))?
        .arg(flag(alloc, "cycles", cycles))?
        .arg(flag(alloc, "free", free))?;
    Ok(command)
}

/// Returns whether the word after `--status` asks for the value of A, or `None` if it is wrong.
fn status_asked(word: Option<&str>) -> Option<bool>
    ensures { result ≡ status_asked (option_map (λ w. w.now) word.entry) }
{
    match word {
        None => Some(false),
        Some(word) => { if word == "A" { Some(true) } else { None } }
    }
}

/// Returns what is wrong where no value of the file is.
fn wrong_besides(matches: &ArgMatches<'_>) -> &'static str {
    if status_asked(matches.get_str("status")).is_none() {
        "--status takes A"
    } else {
        DEBUG_TAKES
    }
}

/// Returns the words of the matched values, or `None` if one is wrong.
fn words_in<'a>(matches: &ArgMatches<'a>) -> Option<RunWords<'a>>
    ensures { option_map run_view result ≡ run_asked (first_value (found_of matches.now)) }
{
    let Some(file) = file_words(matches) else {
        return None;
    };
    let debug_info = debug_asked(&file, matches.get_str("debug-info"))?;
    Some(RunWords {
        file,
        others: other_files(matches),
        symbols: matches.get_str("symbols"),
        debug_info,
        source_root: matches.get_str("source-root"),
        until: matches.get_str("until"),
        steps: steps_asked(matches.get_str("steps"))?,
        is_status_of_a: status_asked(matches.get_str("status"))?,
        tells_cycles: is_given(matches, "cycles"),
        is_free: is_given(matches, "free"),
    })
}

/// Reads the words of `run`, its own name left out.
///
/// # Errors
///
/// - `Help`: the words ask for help. The text is `clap`'s.
/// - `Usage`: a word is missing or unknown, or there are too many. The text is `clap`'s.
/// - `Wrong`: an option has a value that it cannot have.
/// - `OutOfMemory`: an allocation failed.
pub fn read_run_words<'a>(alloc: Global, words: &'a [&'a str]) -> Result<RunWords<'a>, WordsFault>
    ensures asked { IfOk result (λ w. words_in (texts words.entry.now) ≡ Some (run_view w)) }
    ensures fits { IfOk result (λ _. Fits run (texts words.entry.now)) }
    ensures served { (a : RunAsked) → Fits run (texts words.entry.now)
        → words_in (texts words.entry.now) ≡ Some a → IsOkUnless result WordsFault.OutOfMemory }
    ensures refused { IfErr result (IsRefusalOf run (texts words.entry.now)
        (words_in (texts words.entry.now) ≡ None)) }
{
    let matches = matched(run_command(alloc)?, words)?;
    match words_in(&matches) {
        Some(words) => Ok(words),
        None => Err(WordsFault::Wrong(wrong_value(&matches).unwrap_or(wrong_besides(&matches)))),
    }
}
