//! The command line as `clap` is told of it.

ghost use Rattle.std.specs.Prelude.{◌≡◌, IfErr, IfOk, false};
ghost use Rattle.clap.specs.Words.{app_of, kind_of};
ghost use Rattle.clap.specs.declared.builder.command.Command.TheViews.{out-Command};
ghost use Rattle.word_convert.specs.DebugCommandLine.{debug, debug_part, with_map};

use arguments::{begin, file, option, port, profile, rom};
use clap::error::ErrorKind;
use clap::{Command, Error};
use image_files::with_image_options;
use std::alloc::Global;

/// What the help shows below the options.
const EXAMPLE: &str = "Example:
  mos65 debug rom.bin --bin F000 --port none";

/// The file and the history.
fn part_command<'a>(alloc: Global) -> Result<Command<'a>, Error>
    ensures shape { IfOk result (λ c. app_of c ≡ debug_part) }
    ensures local { IfOk result (λ c. (out-Command c).has_globals ≡ false) }
    ensures memory { IfErr result (λ e. kind_of e ≡ ErrorKind.OutOfMemory) }
{
    let about = "Debugs an image: commands on standard input, replies on standard output";
    let history = "How many events can be undone, at most 65536 [default: 1024]";
    let command = begin(alloc, "debug", "mos65 debug", about, EXAMPLE)?
        .arg(file(alloc, "FILE", "The image to load"))?
        .arg(option(alloc, "history", "N", history))?;
    Ok(command)
}

/// The options of the machine, added.
fn with_map<'a>(alloc: Global, command: Command<'a>) -> Result<Command<'a>, Error>
    ensures shape { IfOk result (λ c. app_of c ≡ with_map (app_of command.entry)) }
    ensures local { IfOk result (λ c. (out-Command command.entry).has_globals ≡ false
        → (out-Command c).has_globals ≡ false) }
    ensures memory { IfErr result (λ e. kind_of e ≡ ErrorKind.OutOfMemory) }
{
    let command = command
        .arg(port(alloc))?
        .arg(rom(alloc))?
        .arg(profile(alloc))?;
    Ok(command)
}

/// Returns the command line of `debug` with an image.
///
/// The only error is that an allocation failed.
pub fn debug_image_command<'a>(alloc: Global) -> Result<Command<'a>, Error>
    ensures shape { IfOk result (λ c. app_of c ≡ debug) }
    ensures local { IfOk result (λ c. (out-Command c).has_globals ≡ false) }
    ensures memory { IfErr result (λ e. kind_of e ≡ ErrorKind.OutOfMemory) }
{
    let raw = "FILE has bytes alone, from this address on, four hex digits, as FILE@HHHH";
    let prg = "FILE is a PRG file: its address in two bytes, and bytes from it on";
    let command = with_map(alloc, part_command(alloc)?)?;
    with_image_options(alloc, command, raw, prg)
}
