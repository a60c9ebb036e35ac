//! The command line as `clap` is told of it.

ghost use Rattle.std.specs.Prelude.{◌≡◌, IfErr, IfOk, false};
ghost use Rattle.clap.specs.Words.{app_of, kind_of};
ghost use Rattle.clap.specs.declared.builder.command.Command.TheViews.{out-Command};
ghost use Rattle.word_convert.specs.ListingCommandLine.{dis, dis_part};

use arguments::{begin, file, profile};
use clap::error::ErrorKind;
use clap::{Command, Error};
use image_files::with_image_options;
use std::alloc::Global;

/// What the help shows below the options.
const EXAMPLE: &str = "Example:
  mos65 dis rom.bin F000 F0FF --bin F000";

/// The file, and the part of it.
fn part_command<'a>(alloc: Global) -> Result<Command<'a>, Error>
    ensures shape { IfOk result (λ c. app_of c ≡ dis_part) }
    ensures local { IfOk result (λ c. (out-Command c).has_globals ≡ false) }
    ensures memory { IfErr result (λ e. kind_of e ≡ ErrorKind.OutOfMemory) }
{
    let about = "Lists what an image has between two addresses as instructions";
    let command = begin(alloc, "dis", "mos65 dis", about, EXAMPLE)?
        .arg(file(alloc, "FILE", "The image to read"))?
        .arg(file(alloc, "LO", "The first address, four hex digits"))?
        .arg(file(alloc, "HI", "The last address, four hex digits"))?;
    Ok(command)
}

/// Returns the command line of `dis` with an image.
///
/// The only error is that an allocation failed.
pub fn dis_image_command<'a>(alloc: Global) -> Result<Command<'a>, Error>
    ensures shape { IfOk result (λ c. app_of c ≡ dis) }
    ensures local { IfOk result (λ c. (out-Command c).has_globals ≡ false) }
    ensures memory { IfErr result (λ e. kind_of e ≡ ErrorKind.OutOfMemory) }
{
    let raw = "FILE has bytes alone, from this address on, four hex digits, as FILE@HHHH";
    let prg = "FILE is a PRG file: its address in two bytes, and bytes from it on";
    let command = part_command(alloc)?.arg(profile(alloc))?;
    with_image_options(alloc, command, raw, prg)
}
