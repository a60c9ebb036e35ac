//! The words of `lsp`.

ghost use Rattle.std.specs.Prelude.{◌≡◌, IfErr, IfOk, None, Some, false};
ghost use Rattle.arguments.specs.Words.{Fits, IsRefusalOf, texts};
ghost use Rattle.clap.specs.Words.{app_of, kind_of};
ghost use Rattle.clap.specs.declared.builder.command.Command.TheViews.{out-Command};
ghost use Rattle.word_lsp.specs.CommandLine.{lsp_app, lsp_asked, lsp_view};

use arguments::{
    WordsFault, begin, let_go, matched, port, port_asked, profile, profile_asked, value_fault,
};
use clap::error::ErrorKind;
use clap::{Command, Error};
use memory_map::Port;
use model::Profile;
use std::alloc::Global;

/// What the words of `lsp [--port HHHH] [--profile N|C]` ask for.
#[derive(Drop)]
pub struct LspWords {
    /// The first of the port's four addresses, or no port.
    pub port: Port,
    /// The processor whose instructions the sources are written in.
    pub profile: Profile,
}

/// What the help of `lsp` shows below its options.
const STATUSES: &str =
    "An editor starts it; it speaks the Language Server Protocol on standard input
and output.

Exit status: 0 after shutdown and exit, 1 after exit alone, 2 words or map wrong,
3 memory, 4 reading or writing

Example:
  mos65 lsp";

/// Returns the command line of `lsp`. The only error is that an allocation failed.
pub fn lsp_command<'a>(alloc: Global) -> Result<Command<'a>, Error>
    ensures shape { IfOk result (λ c. app_of c ≡ lsp_app) }
    ensures local { IfOk result (λ c. (out-Command c).has_globals ≡ false) }
    ensures memory { IfErr result (λ e. kind_of e ≡ ErrorKind.OutOfMemory) }
{
    let about = "Serves an editor: faults while typing, meanings, names";
    let command = begin(alloc, "lsp", "mos65 lsp", about, STATUSES)?
        .arg(port(alloc))?
        .arg(profile(alloc))?;
    Ok(command)
}

/// Reads the words of `lsp`, its own name left out.
///
/// # Errors
///
/// Those of `matched`; `Wrong` if a value is none that its option can have; `OutOfMemory` if an
/// allocation fails.
pub fn read_words(alloc: Global, words: &[&str]) -> Result<LspWords, WordsFault>
    ensures asked { IfOk result (λ w. lsp_asked (texts words.entry.now) ≡ Some (lsp_view w)) }
    ensures fits { IfOk result (λ w. Fits lsp_app (texts words.entry.now)) }
    ensures refused { IfErr result
        (IsRefusalOf lsp_app (texts words.entry.now) (lsp_asked (texts words.entry.now) ≡ None)) }
{
    let matches = matched(lsp_command(alloc)?, words)?;
    let port = port_asked(matches.get_str("port"));
    let profile = profile_asked(matches.get_str("profile"));
    match (port, profile) {
        (Some(port), Some(profile)) => {
            let_go(matches);
            Ok(LspWords { port, profile })
        }
        _ => {
            let fault = value_fault(&matches);
            let_go(matches);
            Err(fault)
        }
    }
}
