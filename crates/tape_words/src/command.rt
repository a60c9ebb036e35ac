//! The command lines of the words, as `clap` is told of them.

ghost use Rattle.std.specs.Prelude.{◌≡◌, IfErr, IfOk, false};
ghost use Rattle.clap.specs.Words.{app_of, kind_of};
ghost use Rattle.clap.specs.declared.builder.command.Command.TheViews.{out-Command};
ghost use Rattle.tape_words.specs.CommandLines.{cmp, cmp_part, info, mend};

use arguments::{begin, file, flag, port, profile};
use clap::error::ErrorKind;
use clap::{Command, Error};
use image_files::with_image_options;
use std::alloc::Global;

/// The exit statuses of `info` and `mend`, in their help.
const STATUSES: &str =
    "Exit status: 0 right, 1 a fault, 2 words or map wrong, 3 memory, 4 reading or writing";

/// The help of the options that say the form of an image.
const RAW: &str = "An image has bytes alone, from this address on, four hex digits";

const PRG: &str = "An image is a PRG file: its address in two bytes, and bytes from it on";

/// Returns the command line of `info`. The only error is that an allocation failed.
pub fn info_command<'a>(alloc: Global) -> Result<Command<'a>, Error>
    ensures shape { IfOk result (λ c. app_of c ≡ info) }
    ensures local { IfOk result (λ c. (out-Command c).has_globals ≡ false) }
    ensures memory { IfErr result (λ e. kind_of e ≡ ErrorKind.OutOfMemory) }
{
    let about = "Tells what is on a tape or in another image, or what is wrong with it";
    let tape = "The image to read: a tape, Intel HEX, S-records, FILE@HHHH or FILE.prg";
    let command = begin(alloc, "info", "mos65 info", about, STATUSES)?
        .arg(file(alloc, "TAPE", tape))?
        .arg(port(alloc))?
        .arg(profile(alloc))?;
    with_image_options(alloc, command, RAW, PRG)
}

/// The files that `cmp` reads, and its flag.
fn cmp_part<'a>(alloc: Global) -> Result<Command<'a>, Error>
    ensures shape { IfOk result (λ c. app_of c ≡ cmp_part) }
    ensures local { IfOk result (λ c. (out-Command c).has_globals ≡ false) }
    ensures memory { IfErr result (λ e. kind_of e ≡ ErrorKind.OutOfMemory) }
{
    let about = "Tells in which bytes two images differ, with the instructions there";
    let statuses =
        "Exit status: 0 the same, 1 they differ, 2 words or an image wrong, 3 memory, 4 reading or writing";
    let align = "Finds what was put in and taken out, where the rest has moved";
    let command = begin(alloc, "cmp", "mos65 cmp", about, statuses)?
        .arg(file(
            alloc,
            "TAPE",
            "The first image: a tape, Intel HEX, S-records, FILE@HHHH",
        ))?
        .arg(file(alloc, "OTHER", "The image to compare it with"))?
        .arg(flag(alloc, "align", align))?;
    Ok(command)
}

/// Returns the command line of `cmp`. The only error is that an allocation failed.
pub fn cmp_command<'a>(alloc: Global) -> Result<Command<'a>, Error>
    ensures shape { IfOk result (λ c. app_of c ≡ cmp) }
    ensures local { IfOk result (λ c. (out-Command c).has_globals ≡ false) }
    ensures memory { IfErr result (λ e. kind_of e ≡ ErrorKind.OutOfMemory) }
{
    let command = cmp_part(alloc)?.arg(profile(alloc))?;
    with_image_options(alloc, command, RAW, PRG)
}

/// Returns the command line of `mend`. The only error is that an allocation failed.
pub fn mend_command<'a>(alloc: Global) -> Result<Command<'a>, Error>
    ensures shape { IfOk result (λ c. app_of c ≡ mend) }
    ensures local { IfOk result (λ c. (out-Command c).has_globals ≡ false) }
    ensures memory { IfErr result (λ e. kind_of e ≡ ErrorKind.OutOfMemory) }
{
    let about = "Mends a tape, Intel HEX or S-records; makes a tape of what a KIM-1 showed";
    let command = begin(alloc, "mend", "mos65 mend", about, STATUSES)?
        .arg(file(alloc, "TAPE", "The file to mend"))?
        .arg(file(alloc, "OUT", "The file to write"))?;
    Ok(command)
}
