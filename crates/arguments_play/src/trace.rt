//! The words of `trace`.

ghost use Rattle.std.specs.Prelude.{◌≡◌, IsOkUnless, IfErr, IfOk, None, Some, false, option_map};
ghost use Rattle.arguments.specs.Words.{Fits, IsRefusalOf, texts};
ghost use Rattle.arguments_play.specs.Trace.{TraceAsked, words_in, trace, trace_asked, trace_view};
ghost use Rattle.clap.specs.Words.{app_of, first_value, found_of, kind_of};
ghost use Rattle.clap.specs.declared.builder.command.Command.TheViews.{out-Command};

use crate::debug::{DEBUG_HELP, DEBUG_TAKES, ROOT_HELP, debug_asked};
use arguments::{
    FileWords, OtherFiles, WordsFault, begin, file_words, flag, is_given, matched, option,
    other_files, steps_asked, with_files_options, wrong_value,
};
use clap::error::ErrorKind;
use clap::{ArgMatches, Command, Error};
use std::alloc::Global;

/// What the words of `trace` ask for.
#[derive(Clone, Copy, Debug, PartialEq, Eq)]
pub struct TraceWords<'a> {
    /// The file to run, and its map.
    pub file: FileWords<'a>,
    /// More files of the same machine.
    pub others: OtherFiles<'a>,
    /// The file of names, if one is named.
    pub symbols: Option<&'a str>,
    /// A file of debug information, if one is named.
    pub debug_info: Option<&'a str>,
    /// Where relative names of its sources begin, if that is given.
    pub source_root: Option<&'a str>,
    /// The place where the trace begins, if one is named.
    pub from: Option<&'a str>,
    /// The place where the trace ends, if one is named.
    pub to: Option<&'a str>,
    /// The most steps that are made from the beginning of the trace on.
    pub steps: u64,
    /// Whether a row shows what its step stored.
    pub shows_stores: bool,
    /// Whether visits and cycles are shown in place of rows.
    pub counts: bool,
    /// The file that gets how often each line was run, if one is named. Visits and cycles are shown
    /// then.
    pub lcov: Option<&'a str>,
    /// Whether reads of memory that was never written are shown in place of rows.
    pub finds_unwritten: bool,
    /// Whether a run goes on where nothing stands that could be run.
    pub is_free: bool,
}

/// What the help of `trace` shows below its options.
const STATUSES: &str = "The program's own output goes to the error stream.
Exit status: 0 the program came to its end, 10 the limit of steps,
11 a fault of the program, 12 the console is full,
13 nothing stands where the program runs,
1 bad source or tape, 2 bad words or map, 3 out of memory, 4 I/O failed

Examples:
  mos65 trace sort.a65 --from sort --steps 20 --stores
  mos65 trace sort.a65 --count
  mos65 trace sort.a65 --lcov sort.info";

/// Returns the command line of `trace`.
///
/// The only error is that an allocation failed.
pub fn trace_command<'a>(alloc: Global) -> Result<Command<'a>, Error>
    ensures shape { IfOk result (λ c. app_of c ≡ trace) }
    ensures local { IfOk result (λ c. (out-Command c).has_globals ≡ false) }
    ensures memory { IfErr result (λ e. kind_of e ≡ ErrorKind.OutOfMemory) }
{
    let about = "Shows what a program does, a row for each step";
    let symbols = "A file of names for an image, as asm --symbols writes it [default: none]";
    let from = "Where the trace begins: a name, an address, or FILE:LINE [default: the start]";
    let to = "Where the trace ends, likewise [default: where the program ends]";
    let steps = "The most steps from where the trace begins [default: no limit]";
    let stores = "Shows what each step stored, and where";
    let count = "Shows no rows, but the visits and cycles of labels and lines";
    let lcov = "As --count, and the file to write for lcov: how often each line was run";
    let unwritten = "Shows no rows, but reads of memory that nobody ever wrote";
    let free = "Runs on where nothing was written, and at a BRK without a vector";
    let command = begin(alloc, "trace", "mos65 trace", about, STATUSES)?;
    let command = with_files_options(alloc, command)?
        .arg(option(alloc, "symbols", "FILE", symbols))?
        .arg(option(alloc, "debug-info", "FILE", DEBUG_HELP))?
        .arg(option(alloc, "source-root", "FOLDER", ROOT_HELP))?
        .arg(option(alloc, "from", "WHERE", from))?
        .arg(option(alloc, "to", "WHERE", to))?
        .arg(option(alloc, "steps", "N", steps))?
        .arg(flag(alloc, "stores", stores))?
        .arg(flag(alloc, "count", count))?
        .arg(option(alloc, "lcov", "FILE", lcov))?
        .arg(flag(alloc, "unwritten", unwritten))?
        .arg(flag(alloc, "free", free))?;
    Ok(command)
}

/// Returns the words of the matched values, or `None` if one is wrong.
fn words_in<'a>(matches: &ArgMatches<'a>) -> Option<TraceWords<'a>>
    ensures { option_map trace_view result ≡ trace_asked (first_value (found_of matches.now)) }
{
    let Some(file) = file_words(matches) else {
        return None;
    };
    let debug_info = debug_asked(&file, matches.get_str("debug-info"))?;
    Some(TraceWords {
        file,
        others: other_files(matches),
        symbols: matches.get_str("symbols"),
        debug_info,
        source_root: matches.get_str("source-root"),
        from: matches.get_str("from"),
        to: matches.get_str("to"),
        steps: steps_asked(matches.get_str("steps"))?,
        shows_stores: is_given(matches, "stores"),
        counts: is_given(matches, "count") || matches.get_str("lcov").is_some(),
        lcov: matches.get_str("lcov"),
        finds_unwritten: is_given(matches, "unwritten"),
        is_free: is_given(matches, "free"),
    })
}

/// Reads the words of `trace`, its own name left out.
///
/// # Errors
///
/// - `Help`: the words ask for help. The text is `clap`'s.
/// - `Usage`: a word is missing or unknown, or there are too many. The text is `clap`'s.
/// - `Wrong`: an option has a value that it cannot have.
/// - `OutOfMemory`: an allocation failed.
pub fn read_trace_words<'a>(
    alloc: Global,
    words: &'a [&'a str],
) -> Result<TraceWords<'a>, WordsFault>
    ensures asked { IfOk result (λ w. words_in (texts words.entry.now) ≡ Some (trace_view w)) }
    ensures fits { IfOk result (λ _. Fits trace (texts words.entry.now)) }
    ensures served { (a : TraceAsked) → Fits trace (texts words.entry.now)
        → words_in (texts words.entry.now) ≡ Some a → IsOkUnless result WordsFault.OutOfMemory }
    ensures refused { IfErr result (IsRefusalOf trace (texts words.entry.now)
        (words_in (texts words.entry.now) ≡ None)) }
{
    let matches = matched(trace_command(alloc)?, words)?;
    match words_in(&matches) {
        Some(words) => Ok(words),
        None => Err(WordsFault::Wrong(wrong_value(&matches).unwrap_or(DEBUG_TAKES))),
    }
}
