//! The words of `dap`.

ghost use Rattle.std.specs.Prelude.{◌≡◌, IfErr, IfOk, None, Some, false, option_map};
ghost use Rattle.arguments.specs.Words.{Fits, IsRefusalOf, texts};
ghost use Rattle.clap.specs.Words.{app_of, kind_of};
ghost use Rattle.clap.specs.declared.builder.command.Command.TheViews.{out-Command};
ghost use Rattle.word_dap.specs.CommandLine.{dap_app, seen_in};

use arguments::{WordsFault, begin, let_go, matched, option};
use clap::error::ErrorKind;
use clap::{Command, Error};
use std::alloc::Global;

/// What the help of `dap` shows below its options.
const STATUSES: &str =
    "An editor starts it; it speaks the Debug Adapter Protocol on standard input and
output. What is debugged, and how, is asked for by launch: program (a source),
stopOnEntry, steps, history, symbols, port, rom, profile, tape, bin, prg.
With --seen a run goes on until the client sends something, as pause.

Exit status: 0 after disconnect, 2 words wrong, 3 memory, 4 reading or writing

Example:
  tee -- seen.tmp | mos65 dap --seen seen.tmp";

/// Returns the command line of `dap`. The only error is that an allocation failed.
pub fn dap_command<'a>(alloc: Global) -> Result<Command<'a>, Error>
    ensures shape { IfOk result (λ c. app_of c ≡ dap_app) }
    ensures local { IfOk result (λ c. (out-Command c).has_globals ≡ false) }
    ensures memory { IfErr result (λ e. kind_of e ≡ ErrorKind.OutOfMemory) }
{
    let about = "Serves an editor as a debugger that steps backwards";
    let seen = "The file that what the client sends is copied to [default: none]";
    let command = begin(alloc, "dap", "mos65 dap", about, STATUSES)?.arg(option(
        alloc, "seen", "FILE", seen,
    ))?;
    Ok(command)
}

/// Reads the words of `dap`, its own name left out, and returns the name of the file that what the
/// client sends is copied to, if one is named.
///
/// # Errors
///
/// Those of `matched`.
pub fn read_words<'a>(alloc: Global, words: &'a [&'a str]) -> Result<Option<&'a str>, WordsFault>
    ensures asked { IfOk result
        (λ seen. option_map (λ s. s.now) seen ≡ seen_in (texts words.entry.now)) }
    ensures fits { IfOk result (λ _. Fits dap_app (texts words.entry.now)) }
    ensures refused { IfErr result (IsRefusalOf dap_app (texts words.entry.now) ⊥) }
{
    let matches = matched(dap_command(alloc)?, words)?;
    let seen = matches.get_str("seen");
    let_go(matches);
    Ok(seen)
}
