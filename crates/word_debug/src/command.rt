//! The command line as `clap` is told of it.

ghost use Rattle.std.specs.Prelude.{◌≡◌, IfErr, IfOk, false};
ghost use Rattle.clap.specs.Words.{app_of, kind_of};
ghost use Rattle.clap.specs.declared.builder.command.Command.TheViews.{out-Command};
ghost use Rattle.word_debug.specs.CommandLine.{strict};

use arguments::flag;
use clap::error::ErrorKind;
use clap::{Command, Error};
use program::debug_command;
use std::alloc::Global;

/// Returns the command line of `debug` with `--strict`.
///
/// The only error is that an allocation failed.
pub fn strict_debug_command<'a>(alloc: Global) -> Result<Command<'a>, Error>
    ensures shape { IfOk result (λ c. app_of c ≡ strict) }
    ensures local { IfOk result (λ c. (out-Command c).has_globals ≡ false) }
    ensures memory { IfErr result (λ e. kind_of e ≡ ErrorKind.OutOfMemory) }
{
    let help = "Ends with status 5 if a reply tells of a fault";
    let command = debug_command(alloc)?.arg(flag(alloc, "strict", help))?;
    Ok(command)
}
