//! The command line as it is described to `clap`.
ghost use Rattle.std.specs.Prelude.{◌≡◌, IfErr, IfOk, false};
ghost use Rattle.clap.specs.Words.{app_of, kind_of};
ghost use Rattle.clap.specs.declared.builder.command.Command.TheViews.{out-Command};
ghost use Rattle.program.specs.CommandLine.{asm, debug, dis, mos65};

use arguments::{file, option, port, profile, rom, tape};
use clap::error::ErrorKind;
use clap::{Command, Error};
use std::alloc::Global;

/// What the help of `asm` shows below its options.
const ASM_OPTIONS: &str = "Further options, if the whole program is built:
  --symbols FILE [--symbols-format plain|vice]   writes names and their numbers
  --map FILE                                     writes where each line stands

Example:
  mos65 asm hello.a65 hello.tape --listing hello.lst";

/// Returns the command line of `asm`. The only error is that an allocation failed.
pub fn asm_command<'a>(alloc: Global) -> Result<Command<'a>, Error>
    ensures shape { IfOk result (λ c. app_of c ≡ asm) }
    ensures local { IfOk result (λ c. (out-Command c).has_globals ≡ false) }
    ensures memory { IfErr result (λ e. kind_of e ≡ ErrorKind.OutOfMemory) }
{
    let listing = "The file to write lines, addresses, bytes and names to [default: none]";
    let command = Command::new(alloc, "asm")
        .about("Assembles a source, and writes its tape")
        .after_help(ASM_OPTIONS)
        .arg(file(alloc, "SOURCE", "The source to assemble"))?
        .arg(file(alloc, "TAPE", "The file to write the tape to"))?
        .arg(option(alloc, "listing", "FILE", listing))?
        .arg(port(alloc))?
        .arg(profile(alloc))?;
    Ok(command)
}

/// What the help of `dis` shows below its options.
const DIS_OPTIONS: &str = "Further options, if the whole program is built:
  --source    writes a source that asm takes; mos65 dis --source --help shows its options

Example:
  mos65 dis hello.tape 0200 020F";

/// Returns the command line of `dis`. The only error is that an allocation failed.
pub fn dis_command<'a>(alloc: Global) -> Result<Command<'a>, Error>
    ensures shape { IfOk result (λ c. app_of c ≡ dis) }
    ensures local { IfOk result (λ c. (out-Command c).has_globals ≡ false) }
    ensures memory { IfErr result (λ e. kind_of e ≡ ErrorKind.OutOfMemory) }
{
    let command = Command::new(alloc, "dis")
        .about("Lists what a tape has between two addresses as instructions")
        .after_help(DIS_OPTIONS)
        .arg(file(alloc, "TAPE", "The tape to read"))?
        .arg(file(alloc, "LO", "The first address, four hex digits"))?
        .arg(file(alloc, "HI", "The last address, four hex digits"))?
        .arg(profile(alloc))?;
    Ok(command)
}

/// What the help of `debug` shows below its options.
const COMMANDS: &str = "Commands:
  regs  mem LO HI  dis A N  out  breaks      look
  step  run N  back N                        go on, and undo N events
  break A  unbreak A  watch A  unwatch A     stop runs
  set R V  patch A HH ..  asm A TEXT         change registers (A X Y S P PC) and memory
  in HH ..  reset  irq 0  irq 1  nmi         input and signals
  quit

With --strict the status is 5 where a reply began with ? or !, or a run ended in a fault.

Example:
  mos65 debug hello.a65 --history 4096 --rom 8000-8FFF";

/// Returns the command line of `debug`. The only error is that an allocation failed.
pub fn debug_command<'a>(alloc: Global) -> Result<Command<'a>, Error>
    ensures shape { IfOk result (λ c. app_of c ≡ debug) }
    ensures local { IfOk result (λ c. (out-Command c).has_globals ≡ false) }
    ensures memory { IfErr result (λ e. kind_of e ≡ ErrorKind.OutOfMemory) }
{
    let history = "How many events can be undone, at most 65536 [default: 1024]";
    let command = Command::new(alloc, "debug")
        .about("Debugs a source: commands on standard input, replies on standard output")
        .after_help(COMMANDS)
        .arg(file(alloc, "FILE", "The source to assemble and load"))?
        .arg(tape(alloc))?
        .arg(option(alloc, "history", "N", history))?
        .arg(port(alloc))?
        .arg(rom(alloc))?
        .arg(profile(alloc))?;
    Ok(command)
}

/// What the program's help shows below its words.
const STATUSES: &str = "Other words, served by the whole program:
  check SOURCE         tells all faults of a source, each with what a person needs
  run SOURCE           runs a program: its console is the terminal
  trace SOURCE         a row for each step, or how often each line was reached
  page SOURCE OUT      writes a run as a page for a browser, with its way back
  mon SOURCE           a monitor for people: names, breaks, steps and the way back
  test FILE.t65        tests routines by rows: a call, and what it has to leave
  info TAPE            tells what a tape or another image holds
  cmp TAPE OTHER       tells where two images differ
  mend TAPE OUT        mends a tape, Intel HEX or S-records
  convert IN OUT       writes an image in another form
  lsp                  tells an editor faults, meanings and names while typing
  dap                  steps through a program in an editor

Exit status: 0 done, 1 bad source or tape, 2 bad words or map, 3 out of memory, 4 I/O failed";

/// Returns the program's command line.
///
/// # Errors
///
/// Only if an allocation fails.
pub fn command<'a>(alloc: Global) -> Result<Command<'a>, Error>
    ensures shape { IfOk result (λ c. app_of c ≡ mos65) }
    ensures memory { IfErr result (λ e. kind_of e ≡ ErrorKind.OutOfMemory) }
{
    let program = Command::new(alloc, "mos65")
        .about("A development system for the MOS 6502")
        .after_help(STATUSES)
        .no_binary_name(true)
        .subcommand_required(true)
        .bin_name("mos65")?
        .subcommand(asm_command(alloc)?)?
        .subcommand(dis_command(alloc)?)?
        .subcommand(debug_command(alloc)?)?;
    Ok(program)
}
