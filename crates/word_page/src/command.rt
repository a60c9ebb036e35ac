//! The command line of `page`, as `clap` is told of it.

ghost use Rattle.std.specs.Prelude.{◌≡◌, IfErr, IfOk, false};
ghost use Rattle.clap.specs.Words.{app_of, kind_of};
ghost use Rattle.clap.specs.declared.builder.command.Command.TheViews.{out-Command};
ghost use Rattle.word_page.specs.CommandLine.{page};

use arguments::{begin, file, flag, option, with_file_options};
use arguments_play::{DEBUG_HELP, ROOT_HELP};
use clap::error::ErrorKind;
use clap::{Command, Error};
use std::alloc::Global;

/// What the help of `page` shows below its options.
const STATUSES: &str = "OUT is one file for a browser: keys, clicks and a slider go through the run.

Exit status: 0 the run came to its end, 10 the limit of steps, 11 a fault of the program,
12 the console is full, 13 nothing stands where the program runs: the page was written;
1 bad source, tape, names, notes or debug file, 2 bad words or map, 3 out of memory, 4 I/O failed

Example:
  mos65 page guess.a65 guess.html --input answers.txt";

/// Returns the command line of `page`.
///
/// The only error is that an allocation failed.
pub fn page_command<'a>(alloc: Global) -> Result<Command<'a>, Error>
    ensures shape { IfOk result (λ c. app_of c ≡ page) }
    ensures local { IfOk result (λ c. (out-Command c).has_globals ≡ false) }
    ensures memory { IfErr result (λ e. kind_of e ≡ ErrorKind.OutOfMemory) }
{
    let about = "Writes a run as a page that can be looked at, forwards and back";
    let out = "The page to write, as run.html";
    let symbols = "A file of names, as asm --symbols writes it [default: none]";
    let input = "The file with what is typed [default: no input]";
    let until = "Where the run ends: a name, an address, or FILE:LINE [default: none]";
    let steps = "The most steps that the page has [default: 100000]";
    let title = "The title of the page [default: the name of FILE]";
    let at = "The step at which the page is opened, N [default: 0]";
    let screen = "The first address of a screen of 32 by 32 bytes, shown first [default: none]";
    let notes = "A file of notes, a line for each: a step and a text [default: none]";
    let free = "Runs on where nothing was written, and at a BRK without a vector";
    let command = begin(alloc, "page", "mos65 page", about, STATUSES)?;
    let command = with_file_options(alloc, command)?
        .arg(file(alloc, "OUT", out))?
        .arg(option(alloc, "symbols", "FILE", symbols))?
        .arg(option(alloc, "debug-info", "FILE", DEBUG_HELP))?
        .arg(option(alloc, "source-root", "FOLDER", ROOT_HELP))?
        .arg(option(alloc, "input", "FILE", input))?
        .arg(option(alloc, "until", "WHERE", until))?
        .arg(option(alloc, "steps", "N", steps))?
        .arg(option(alloc, "title", "TEXT", title))?
        .arg(option(alloc, "at", "N", at))?
        .arg(option(alloc, "screen", "HHHH", screen))?
        .arg(option(alloc, "notes", "FILE", notes))?
        .arg(flag(alloc, "free", free))?;
    Ok(command)
}
