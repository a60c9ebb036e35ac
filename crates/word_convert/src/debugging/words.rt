//! From words to what they ask for.

ghost use Rattle.std.specs.Prelude.{◌≡◌, IfErr, IfOk, None, Some, option_map};
ghost use Rattle.arguments.specs.Words.{Fits, IsRefusalOf, texts};
ghost use Rattle.clap.specs.Words.{first_value, found_of};
ghost use Rattle.word_convert.specs.DebugAsked.{debug_by, debug_view};
ghost use Rattle.word_convert.specs.DebugCommandLine.{debug, words_asked};

use crate::debugging::asked::DebugImageWords;
use crate::debugging::command::debug_image_command;
use arguments::{
    HISTORY_TAKES, WordsFault, debug_history_asked, matched, name_of, port_asked, profile_asked,
    rom_asked, value_fault,
};
use clap::ArgMatches;
use image_files::form_said;
use std::alloc::Global;

/// Returns what the values that were found ask for, or `None` where one is wrong.
fn debug_words<'a>(matches: &ArgMatches<'a>) -> Option<DebugImageWords<'a>>
    ensures { option_map debug_view result ≡ debug_by (first_value (found_of matches.now)) }
{
    let word = matches.get_str("FILE")?;
    let form = form_said(Some(word), matches)?;
    let history = debug_history_asked(matches.get_str("history"))?;
    let port = port_asked(matches.get_str("port"))?;
    let rom = rom_asked(matches.get_str("rom"))?;
    let profile = profile_asked(matches.get_str("profile"))?;
    Some(DebugImageWords {
        file: name_of(word),
        form,
        history,
        port,
        rom,
        profile,
    })
}

/// Reads the words after `debug`.
///
/// # Errors
///
/// - `Help` if they ask for help, and `Usage` if they do not fit the command line, with `clap`'s
///   text.
/// - `Wrong`: they fit, and a value is wrong.
/// - `OutOfMemory`: an allocation failed.
pub fn read_debug_words<'a>(
    alloc: Global,
    words: &'a [&'a str],
) -> Result<DebugImageWords<'a>, WordsFault>
    ensures asked { IfOk result (λ w. words_asked (texts words.entry.now) ≡ Some (debug_view w)) }
    ensures taken { IfOk result (λ w. Fits debug (texts words.entry.now)) }
    ensures refused { IfErr result
        (IsRefusalOf debug (texts words.entry.now) (words_asked (texts words.entry.now) ≡ None)) }
{
    let matches = matched(debug_image_command(alloc)?, words)?;
    match debug_words(&matches) {
        Some(words) => Ok(words),
        None if debug_history_asked(matches.get_str("history")).is_none() => {
            Err(WordsFault::Wrong(HISTORY_TAKES))
        }
        None => Err(value_fault(&matches)),
    }
}
