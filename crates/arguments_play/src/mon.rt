//! The words of `mon`.

ghost use Rattle.std.specs.Prelude.{◌≡◌, IsOkUnless, IfErr, IfOk, None, Some, false, option_map};
ghost use Rattle.arguments.specs.Words.{Fits, IsRefusalOf, texts};
ghost use Rattle.arguments_play.specs.Mon.{MonAsked, mon, mon_asked, mon_view, words_in};
ghost use Rattle.clap.specs.Words.{app_of, first_value, found_of, kind_of};
ghost use Rattle.clap.specs.declared.builder.command.Command.TheViews.{out-Command};

use crate::debug::{DEBUG_HELP, DEBUG_TAKES, ROOT_HELP, debug_asked};
use crate::mon_words::MonWords;
use crate::size::{SIZE_TAKES, size_asked};
use arguments::{
    WordsFault, begin, file_words, flag, history_asked, is_given, matched, option, other_files,
    with_files_options, wrong_value,
};
use clap::error::ErrorKind;
use clap::{ArgMatches, Command, Error};
use std::alloc::Global;

/// What the help of `mon` shows below its options.
const STATUSES: &str = "Lines come from standard input; the line help lists what they ask for.

Exit status: 0 the input has ended, or quit,
1 bad source or tape, 2 bad words or map, 3 out of memory, 4 I/O failed

Example:
  mos65 mon count.a65";

/// Returns the command line of `mon`.
///
/// The only error is that an allocation failed.
pub fn mon_command<'a>(alloc: Global) -> Result<Command<'a>, Error>
    ensures shape { IfOk result (λ c. app_of c ≡ mon) }
    ensures local { IfOk result (λ c. (out-Command c).has_globals ≡ false) }
    ensures memory { IfErr result (λ e. kind_of e ≡ ErrorKind.OutOfMemory) }
{
    let about = "Steps through a program with a person at a terminal";
    let history = "How many events can be undone, at most 1048576 [default: 65536]";
    let symbols = "A file of names, as asm --symbols writes it [default: none]";
    let prompt = "Writes a prompt where standard input is no terminal, too";
    let screen = "Draws a screen after each line, if standard input is a terminal";
    let size = "The size of the screen [default: COLUMNS and LINES, or 80x24]";
    let command = begin(alloc, "mon", "mos65 mon", about, STATUSES)?;
    let command = with_files_options(alloc, command)?
        .arg(option(alloc, "history", "N", history))?
        .arg(option(alloc, "symbols", "FILE", symbols))?
        .arg(option(alloc, "debug-info", "FILE", DEBUG_HELP))?
        .arg(option(alloc, "source-root", "FOLDER", ROOT_HELP))?
        .arg(flag(alloc, "prompt", prompt))?
        .arg(flag(alloc, "screen", screen))?
        .arg(option(alloc, "size", "COLUMNSxROWS", size))?;
    Ok(command)
}

/// Returns what is wrong where no value of the file is.
fn wrong_besides(matches: &ArgMatches<'_>) -> &'static str {
    if size_asked(matches.get_str("size")).is_none() {
        SIZE_TAKES
    } else {
        DEBUG_TAKES
    }
}

/// Returns the words of the matched values, or `None` if one is wrong.
fn words_in<'a>(matches: &ArgMatches<'a>) -> Option<MonWords<'a>>
    ensures { option_map mon_view result ≡ mon_asked (first_value (found_of matches.now)) }
{
    let Some(file) = file_words(matches) else {
        return None;
    };
    let history = history_asked(matches.get_str("history"))?;
    let debug_info = debug_asked(&file, matches.get_str("debug-info"))?;
    Some(MonWords {
        file,
        others: other_files(matches),
        history,
        symbols: matches.get_str("symbols"),
        debug_info,
        source_root: matches.get_str("source-root"),
        prompts: is_given(matches, "prompt"),
        has_screen: is_given(matches, "screen"),
        size: size_asked(matches.get_str("size"))?,
    })
}

/// Reads the words of `mon`, its own name left out.
///
/// # Errors
///
/// - `Help`: the words ask for help. The text is `clap`'s.
/// - `Usage`: a word is missing or unknown, or there are too many. The text is `clap`'s.
/// - `Wrong`: an option has a value that it cannot have.
/// - `OutOfMemory`: an allocation failed.
pub fn read_mon_words<'a>(alloc: Global, words: &'a [&'a str]) -> Result<MonWords<'a>, WordsFault>
    ensures asked { IfOk result (λ w. words_in (texts words.entry.now) ≡ Some (mon_view w)) }
    ensures fits { IfOk result (λ _. Fits mon (texts words.entry.now)) }
    ensures served { (a : MonAsked) → Fits mon (texts words.entry.now)
        → words_in (texts words.entry.now) ≡ Some a → IsOkUnless result WordsFault.OutOfMemory }
    ensures refused { IfErr result (IsRefusalOf mon (texts words.entry.now)
        (words_in (texts words.entry.now) ≡ None)) }
{
    let matches = matched(mon_command(alloc)?, words)?;
    match words_in(&matches) {
        Some(words) => Ok(words),
        None => Err(WordsFault::Wrong(wrong_value(&matches).unwrap_or(wrong_besides(&matches)))),
    }
}
