//! Words, matched with a command line.

ghost use Rattle.std.specs.Prelude.{◌≡◌, IsOkUnless, IfErr, IfOk, true};
ghost use Rattle.arguments.specs.Asked.{is_flag, says_image};
ghost use Rattle.arguments.specs.Words.{Fits, IsMisfit, texts, value_in};
ghost use Rattle.clap.specs.Words.{app_of, first_value, found_of, is_simple, is_simple_and_free};
ghost use Rattle.clap.specs.Words.{matches_of, rows_of, subcommand_of, subcommand_rows_of};

use crate::fault::WordsFault;
use clap::{ArgMatches, Command};

/// Returns whether a flag is among the words.
pub fn is_given(matches: &ArgMatches<'_>, name: &str) -> bool
    ensures { result ≡ is_flag (first_value (found_of matches.now) name.now) }
{
    match matches.get_str(name) {
        Some(value) => value == "true",
        None => false,
    }
}

/// Returns whether `--image` is among the words, or `--tape`, its other name.
pub fn says_image(matches: &ArgMatches<'_>) -> bool
    ensures { result ≡ says_image (first_value (found_of matches.now)) }
{
    is_given(matches, "image") || is_given(matches, "tape")
}

/// Lets go of what was found.
pub fn let_go(matches: ArgMatches<'_>) {
    drop(matches);
}

/// Matches words with a command line, and returns what was found.
///
/// # Errors
///
/// - `Help`: the words ask for help. The text is `clap`'s.
/// - `Usage`: a word is missing or unknown, or there are too many. The text is `clap`'s.
/// - `OutOfMemory`: an allocation failed.
pub fn matched<'a>(command: Command<'a>, words: &'a [&'a str]) -> Result<ArgMatches<'a>, WordsFault>
    requires simple { is_simple (app_of command) ≡ true }
    requires free { is_simple_and_free (app_of command) ≡ true }
    ensures fits { IfOk result (λ _. Fits (app_of command.entry)
        (texts words.entry.now)) }
    // The first value of each name, all that was found, and a subcommand, are what `clap`'s
    // definition finds.
    ensures values { IfOk result (λ m. first_value (found_of m)
        ≡ value_in (app_of command.entry) (texts words.entry.now)) }
    ensures rows { IfOk result (λ m. rows_of (found_of m)
        ≡ matches_of (app_of command.entry) (texts words.entry.now)) }
    ensures subcommand { IfOk result (λ m. subcommand_rows_of m
        ≡ subcommand_of (app_of command.entry) (texts words.entry.now)) }
    ensures served { Fits (app_of command.entry) (texts words.entry.now)
        → IsOkUnless result WordsFault.OutOfMemory }
    ensures refused { IfErr result (IsMisfit (app_of command.entry)
        (texts words.entry.now)) }
{
    let matches = command.try_get_matches_from(words)?;
    Ok(matches)
}
