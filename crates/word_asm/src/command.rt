//! The command line as `clap` is told of it.

ghost use Rattle.std.specs.Prelude.{◌≡◌, IfErr, IfOk, false};
ghost use Rattle.word_asm.specs.CommandLine.{asm};
ghost use Rattle.clap.specs.Words.{app_of, kind_of};
ghost use Rattle.clap.specs.declared.builder.command.Command.TheViews.{out-Command};

use arguments::{begin, file, flag, option, port, profile};
use clap::error::ErrorKind;
use clap::{Command, Error};
use std::alloc::Global;

/// What the help of `asm` with its further files shows below its options.
const EXAMPLE: &str = "Examples:
  mos65 asm hello.a65 hello.tape --symbols hello.sym --map hello.map
  mos65 asm rom.a65 rom.tape --bin rom.bin --fill 00";

/// Returns the command line of `asm` with its options and those for further files.
///
/// The only error is that an allocation failed.
pub fn asm_files_command<'a>(alloc: Global) -> Result<Command<'a>, Error>
    ensures shape { IfOk result (λ c. app_of c ≡ asm) }
    ensures local { IfOk result (λ c. (out-Command c).has_globals ≡ false) }
    ensures memory { IfErr result (λ e. kind_of e ≡ ErrorKind.OutOfMemory) }
{
    let about = "Assembles a source, and writes its tape and files for other programs";
    let listing = "The file to write lines, addresses, bytes and names to [default: none]";
    let symbols = "The file to write names and their numbers to [default: none]";
    let format = "How names are written: NAME = $0200, or al C:0200 .NAME [default: plain]";
    let map = "The file to write address, length and number of each line to [default: none]";
    let raw = "The file to write bytes alone to, from the first to the last [default: none]";
    let hex = "The file to write Intel HEX to [default: none]";
    let srec = "The file to write S-records to [default: none]";
    let fill = "The byte of the gaps in the file of --bin, two hex digits [default: FF]";
    let utf8 = "Take any letters in comments, and a byte-order mark at the start";
    let command = begin(alloc, "asm", "mos65 asm", about, EXAMPLE)?
        .arg(file(alloc, "SOURCE", "The source to assemble"))?
        .arg(file(alloc, "TAPE", "The file to write the tape to"))?
        .arg(option(alloc, "listing", "FILE", listing))?
        .arg(option(alloc, "symbols", "FILE", symbols))?
        .arg(option(alloc, "symbols-format", "plain|vice", format))?
        .arg(option(alloc, "map", "FILE", map))?
        .arg(port(alloc))?
        .arg(profile(alloc))?
        .arg(option(alloc, "bin", "FILE", raw))?
        .arg(option(alloc, "hex", "FILE", hex))?
        .arg(option(alloc, "srec", "FILE", srec))?
        .arg(option(alloc, "fill", "HH", fill))?
        .arg(flag(alloc, "utf8", utf8))?;
    Ok(command)
}
