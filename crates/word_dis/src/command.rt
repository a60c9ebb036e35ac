//! The command line as `clap` is told of it.

ghost use Rattle.std.specs.Prelude.{◌≡◌, IfErr, IfOk, false};
ghost use Rattle.arguments.specs.CommandLine.{word_rule};
ghost use Rattle.clap.specs.Words.{app_of, kind_of, rule_of};
ghost use Rattle.clap.specs.declared.builder.command.Command.TheViews.{out-Command};
ghost use Rattle.word_dis.specs.CommandLine.{dis, dis_part, with_following, with_marks};
ghost use Rattle.word_dis.specs.CommandLine.{with_ranges};

use arguments::{begin, file, flag, list, option, profile};
use clap::error::ErrorKind;
use clap::{Arg, ArgAction, Command, Error};
use image_files::with_image_options;
use std::alloc::Global;

/// Returns a word that may be left out.
fn bound<'a>(alloc: Global, name: &'a str, help: &'a str) -> Arg<'a>
    ensures rule { rule_of result ≡ word_rule name.entry.now }
    ensures local { result.global ≡ false }
{
    Arg::new(alloc, name)
        .required(false)
        .action(ArgAction::Set)
        .help(help)
}

/// What the help of `dis --source` shows below its options.
const EXAMPLE: &str = "Examples:
  mos65 dis hello.tape 0200 020F
  mos65 dis hello.tape --source --text 0210-021C > hello.a65
  mos65 dis rom.tape --source --follow --words F013-F01A --inline F053=z > rom.a65
  mos65 dis rom.tape --source --marks rom.marks --addresses > rom.a65";

/// The tape, the part of it, and the flags.
fn part_command<'a>(alloc: Global) -> Result<Command<'a>, Error>
    ensures shape { IfOk result (λ c. app_of c ≡ dis_part) }
    ensures local { IfOk result (λ c. (out-Command c).has_globals ≡ false) }
    ensures memory { IfErr result (λ e. kind_of e ≡ ErrorKind.OutOfMemory) }
{
    let first = "The first address; with --source [default: 0000]";
    let last = "The last address; with --source [default: FFFF]";
    let source = "Writes a source for `asm`, and no listing";
    let about = "Lists what a tape has, or writes it as a source for `asm`";
    let tape = "The tape to read; with --source also Intel HEX or S-records";
    let command = begin(alloc, "dis", "mos65 dis", about, EXAMPLE)?
        .arg(file(alloc, "TAPE", tape))?
        .arg(bound(alloc, "LO", first))?
        .arg(bound(alloc, "HI", last))?
        .arg(flag(alloc, "source", source))?
        .arg(flag(alloc, "labels", "Labels where the tape refers to itself"))?;
    Ok(command)
}

/// The ranges of what is no code, added.
fn with_ranges<'a>(alloc: Global, command: Command<'a>) -> Result<Command<'a>, Error>
    ensures shape { IfOk result (λ c. app_of c ≡ with_ranges (app_of command.entry)) }
    ensures local { IfOk result (λ c. (out-Command command.entry).has_globals ≡ false
        → (out-Command c).has_globals ≡ false) }
    ensures memory { IfErr result (λ e. kind_of e ≡ ErrorKind.OutOfMemory) }
{
    let data = "Addresses of numbers [default: none]";
    let text = "Addresses of letters [default: none]";
    let words = "Addresses of words, each an address; there are labels then";
    let returns = "Addresses of words, each an address less 1, for RTS; there are labels then";
    let command = command
        .arg(list(alloc, "data", "LO-HI", 1, data))?
        .arg(list(alloc, "text", "LO-HI", 1, text))?
        .arg(list(alloc, "words", "LO-HI", 1, words))?
        .arg(list(alloc, "rts-words", "LO-HI", 1, returns))?;
    Ok(command)
}

/// Where control comes in, added.
fn with_following<'a>(alloc: Global, command: Command<'a>) -> Result<Command<'a>, Error>
    ensures shape { IfOk result (λ c. app_of c ≡ with_following (app_of command.entry)) }
    ensures local { IfOk result (λ c. (out-Command command.entry).has_globals ≡ false
        → (out-Command c).has_globals ≡ false) }
    ensures memory { IfErr result (λ e. kind_of e ≡ ErrorKind.OutOfMemory) }
{
    let follow = "Code is what control reaches from the vectors and from here; the rest is data";
    let only = "The same from here alone, and not from the vectors";
    let inline = "A routine whose calls are followed by data: a string that ends in 0 (z), one \
        that begins with its length (n), one that ends with bit 7 (h), or N bytes";
    let command = command
        .arg(list(alloc, "follow", "ADDRESS", 0, follow))?
        .arg(list(alloc, "follow-only", "ADDRESS", 1, only))?
        .arg(list(alloc, "inline", "ADDRESS=KIND", 1, inline))?;
    Ok(command)
}

/// What else is said of the image, and what stands beside the lines, added.
fn with_marks<'a>(alloc: Global, command: Command<'a>) -> Result<Command<'a>, Error>
    ensures shape { IfOk result (λ c. app_of c ≡ with_marks (app_of command.entry)) }
    ensures local { IfOk result (λ c. (out-Command command.entry).has_globals ≡ false
        → (out-Command c).has_globals ≡ false) }
    ensures memory { IfErr result (λ e. kind_of e ≡ ErrorKind.OutOfMemory) }
{
    let marks = "A file of marks: ranges, routines, labels and comments, one a line";
    let addresses = "Comments with the address and the bytes of each line";
    let command = command
        .arg(option(alloc, "marks", "FILE", marks))?
        .arg(flag(alloc, "addresses", addresses))?;
    Ok(command)
}

/// Returns the command line of `dis` with `--source`. The only error is that an allocation failed.
pub fn dis_source_command<'a>(alloc: Global) -> Result<Command<'a>, Error>
    ensures shape { IfOk result (λ c. app_of c ≡ dis) }
    ensures local { IfOk result (λ c. (out-Command c).has_globals ≡ false) }
    ensures memory { IfErr result (λ e. kind_of e ≡ ErrorKind.OutOfMemory) }
{
    let symbols = "Labels, and names for addresses: lines NAME = $HHHH, as asm --symbols writes";
    let fill = "Leaves out runs of 16 or more of this byte, two hex digits; with --source";
    let raw = "TAPE has bytes alone, from this address on, as TAPE@HHHH; with --source";
    let prg = "TAPE is a PRG file; with --source";
    let command = with_ranges(alloc, part_command(alloc)?)?;
    let command = with_following(alloc, command)?;
    let command = with_marks(alloc, command)?
        .arg(option(alloc, "symbols", "FILE", symbols))?
        .arg(option(alloc, "fill", "HH", fill))?
        .arg(profile(alloc))?;
    let command = with_image_options(alloc, command, raw, prg)?;
    Ok(command)
}
