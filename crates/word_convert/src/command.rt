//! The command line of `convert`, as `clap` is told of it.

ghost use Rattle.std.specs.Prelude.{◌≡◌, IfErr, IfOk, false};
ghost use Rattle.arguments.specs.CommandLine.{word_rule};
ghost use Rattle.clap.specs.Words.{app_of, kind_of, rule_of};
ghost use Rattle.clap.specs.declared.builder.command.Command.TheViews.{out-Command};
ghost use Rattle.word_convert.specs.CommandLine.{convert};

use arguments::{begin, file, flag, option};
use clap::error::ErrorKind;
use clap::{Arg, ArgAction, Command, Error};
use std::alloc::Global;

/// What the help of `convert` shows below its options.
const STATUSES: &str =
    "Two images are written as one: convert lo.bin@8000 hi.bin@C000 all.hex. Where both have a byte for
an address, the bytes have to be the same.

Forms: bin (bytes alone), hex (Intel HEX), srec (S-records), tape, prg.
IN tells its form by its first record or its name (FILE@HHHH, .prg), OUT by its ending (.bin .rom
.hex .ihx .ihex .srec .mot .s19 .s28 .s37 .tape .pt .ptp .prg). LO and HI: the first and the last
address to write, as F000 FFFF.

Exit status: 0 done, 1 IN is no image, 2 bad words, 3 out of memory, 4 reading or writing failed

Examples:
  mos65 convert rom.hex rom.bin F000 FFFF --fill FF
  mos65 convert patched.tape rom.bin F000 FFFF --sum8 FFF9";

/// Returns a word that may be there.
fn word<'a>(alloc: Global, name: &'a str, help: &'a str) -> Arg<'a>
    ensures rule { rule_of result ≡ word_rule name.entry.now }
    ensures local { result.global ≡ false }
{
    Arg::new(alloc, name).action(ArgAction::Set).help(help)
}

/// Returns the command line of `convert`. The only error is that an allocation failed.
pub fn convert_command<'a>(alloc: Global) -> Result<Command<'a>, Error>
    ensures shape { IfOk result (λ c. app_of c ≡ convert) }
    ensures local { IfOk result (λ c. (out-Command c).has_globals ≡ false) }
    ensures memory { IfErr result (λ e. kind_of e ≡ ErrorKind.OutOfMemory) }
{
    let about = "Writes an image in another form: raw bytes, Intel HEX, S-records, a tape, PRG";
    let from = "The form of IN: bin, hex, srec, tape or prg [default: by its first record]";
    let bin = "IN has bytes alone, from this address on, four hex digits, as IN@HHHH";
    let to = "The form of OUT: bin, hex, srec, tape or prg [default: by its ending]";
    let fill = "The byte that gaps are filled with, two hex digits [default: FF in bin and prg]";
    let sum = "Put a byte at this address such that all bytes of OUT sum to 0, modulo 256";
    let command = begin(alloc, "convert", "mos65 convert", about, STATUSES)?
        .arg(file(alloc, "IN", "The image to read"))?
        .arg(file(
            alloc,
            "OUT",
            "The file to write; or, with a third word, another image to read",
        ))?
        .arg(word(
            alloc,
            "LO",
            "The first address to write, with HI; or OUT, with two images to read",
        ))?
        .arg(word(
            alloc,
            "HI",
            "The last address to write, with LO [default: that of the last byte]",
        ))?
        .arg(option(alloc, "from", "FORM", from))?
        .arg(option(alloc, "bin", "HHHH", bin))?
        .arg(option(alloc, "to", "FORM", to))?
        .arg(option(alloc, "fill", "HH", fill))?
        .arg(option(alloc, "sum8", "HHHH", sum))?
        .arg(flag(alloc, "prg", "IN is a PRG file, as with --from prg"))?
        .arg(flag(alloc, "image", "IN is an image; as without it"))?
        .arg(flag(alloc, "tape", "The same as --image"))?;
    Ok(command)
}
