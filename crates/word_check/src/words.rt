//! The words of `check`.

ghost use Rattle.std.specs.Prelude.{◌≡◌, IfErr, IfOk, None, Some, false, option_map};
ghost use Rattle.arguments.specs.Words.{Fits, IsRefusalOf, all_values, texts};
ghost use Rattle.word_check.specs.CommandLine.{check, check_asked, check_by, check_of, check_view};
ghost use Rattle.clap.specs.Words.{app_of, first_value, found_of, kind_of};
ghost use Rattle.clap.specs.declared.builder.command.Command.TheViews.{out-Command};

use arguments::{
    WordsFault, begin, file_list, flag, is_given, matched, port, port_asked, profile,
    profile_asked, value_fault,
};
use clap::error::ErrorKind;
use clap::{ArgMatches, Command, Error};
use memory_map::Port;
use model::Profile;
use std::alloc::{AllocError, Global};

/// What the words of `check SOURCE .. [--strict] [--port HHHH] [--profile N|C]` ask for.
#[derive(Drop)]
pub struct CheckWords<'a> {
    /// The files to read, one at least.
    pub sources: Vec<&'a str>,
    /// The first of the port's four addresses, or no port.
    pub port: Port,
    /// The processor whose instructions the sources are written in.
    pub profile: Profile,
    /// Whether a warning counts as a fault does for the exit status.
    pub strict: bool,
}

/// What the help of `check` shows below its options.
const STATUSES: &str = "Exit status: 0 no fault, 1 a fault (with --strict also a warning), \
    2 words or map wrong, 3 memory, 4 reading or writing; of several files the highest

Example:
  mos65 check hello.a65";

/// Returns the command line of `check`. The only error is that an allocation failed.
pub fn check_command<'a>(alloc: Global) -> Result<Command<'a>, Error>
    ensures shape { IfOk result (λ c. app_of c ≡ check) }
    ensures local { IfOk result (λ c. (out-Command c).has_globals ≡ false) }
    ensures memory { IfErr result (λ e. kind_of e ≡ ErrorKind.OutOfMemory) }
{
    let about = "Tells all faults of each source, or its warnings if it has no fault";
    let command = begin(alloc, "check", "mos65 check", about, STATUSES)?
        .arg(file_list(alloc, "SOURCE", "The sources to check"))?
        .arg(flag(alloc, "strict", "End with 1 if there is a warning"))?
        .arg(port(alloc))?
        .arg(profile(alloc))?;
    Ok(command)
}

/// Returns what files and values ask for, or `None` if there is no file or a value is wrong.
fn words_of<'a>(
    alloc: Global,
    sources: &[&'a str],
    port: Option<Port>,
    profile: Option<Profile>,
    strict: bool,
) -> Result<Option<CheckWords<'a>>, AllocError>
    ensures { IfOk result (λ w. option_map check_view w
        ≡ check_of (texts sources.now) port profile strict) }
{
    let (Some(port), Some(profile)) = (port, profile) else {
        return Ok(None);
    };
    if sources.is_empty() {
        return Ok(None);
    }
    Ok(Some(CheckWords {
        sources: Vec::from_slice(alloc, sources)?,
        port,
        profile,
        strict,
    }))
}

/// Returns the words of the matched values, or `None` if there is no file or a value is
/// wrong.
fn words_in<'a>(
    alloc: Global,
    matches: &ArgMatches<'a>,
) -> Result<Option<CheckWords<'a>>, AllocError>
    ensures { IfOk result (λ w. option_map check_view w
        ≡ check_by (first_value (found_of matches.now)) (all_values (found_of matches.now))) }
{
    match matches.get_strs("SOURCE") {
        None => Ok(None),
        Some(sources) => words_of(
            alloc,
            sources,
            port_asked(matches.get_str("port")),
            profile_asked(matches.get_str("profile")),
            is_given(matches, "strict"),
        ),
    }
}

/// Reads the words of `check`, its own name left out.
///
/// # Errors
///
/// Those of `matched`; `Wrong` if a value is none that its option can have; `OutOfMemory` if an
/// allocation fails.
pub fn read_words<'a>(alloc: Global, words: &'a [&'a str]) -> Result<CheckWords<'a>, WordsFault>
    ensures asked { IfOk result (λ w. check_asked (texts words.entry.now) ≡ Some (check_view w)) }
    ensures fits { IfOk result (λ w. Fits check (texts words.entry.now)) }
    ensures refused { IfErr result
        (IsRefusalOf check (texts words.entry.now) (check_asked (texts words.entry.now) ≡ None)) }
{
    let matches = matched(check_command(alloc)?, words)?;
    match words_in(alloc, &matches) {
        Ok(Some(words)) => Ok(words),
        Ok(None) => Err(value_fault(&matches)),
        Err(_) => Err(WordsFault::OutOfMemory),
    }
}
