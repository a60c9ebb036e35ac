//! The whole command line of the program: every word with its options, help and the version.

ghost use Rattle.std.specs.Prelude.{◌≡◌, ◌≤◌};

use arguments::{WordsFault, flag, option, refused_words};
use arguments_play::{mon_command, run_command, trace_command};
use clap::error::ErrorKind;
use clap::{Command, Error};
use std::alloc::Global;
use std::io::Write;
use tape_words::{cmp_command, info_command, mend_command};
use word_asm::asm_files_command;
use word_check::check_command;
use word_convert::convert_command;
use word_dap::dap_command;
use word_debug::strict_debug_command;
use word_dis::dis_source_command;
use word_lsp::lsp_command;
use word_page::page_command;
use word_test::test_command;

/// The version of the program, as the file VERSION has it. A release has its commit in place of the
/// words in brackets (`tools/release`).
const VERSION: &str = "0.1.0 (not a release build)";

/// What the program's help shows below its words.
const STATUSES: &str =
    "Exit status: 0 done, 1 bad source or tape (check: a fault, cmp: a difference, test: a failed row),
2 bad words or map, 3 out of memory, 4 reading or writing failed,
5 debug --strict: a reply told of a fault,
10 run, trace, page: the limit of steps, 11 a fault of the program, 12 the console is full,
13 run, trace, page: nothing stands where the program runs

mos65 help WORD shows the options of a word, and an example";

/// Returns a command line with a word added. The only error is that an allocation failed.
fn with<'a>(command: Command<'a>, word: Result<Command<'a>, Error>) -> Result<Command<'a>, Error> {
    let command = command.subcommand(word?)?;
    Ok(command)
}

/// What the help of `--image` says.
const IMAGE: &str = "FILE tells its form by its first record: a tape, Intel HEX or S-records";

/// Returns the command line of `dis` with all its options. The only error is that an allocation
/// failed.
fn dis_command<'a>(alloc: Global) -> Result<Command<'a>, Error> {
    let command = dis_source_command(alloc)?;
    Ok(command)
}

/// Returns the command line of `debug` with all its options. The only error is that an allocation
/// failed.
fn debug_command<'a>(alloc: Global) -> Result<Command<'a>, Error> {
    let raw = "FILE has bytes alone, from this address on, four hex digits";
    let prg = "FILE is a PRG file: its address in two bytes, and bytes from it on";
    let command = strict_debug_command(alloc)?
        .arg(flag(alloc, "image", IMAGE))?
        .arg(option(alloc, "bin", "HHHH", raw))?
        .arg(flag(alloc, "prg", prg))?;
    Ok(command)
}

/// Adds the words that read a source or a tape and write another file.
fn with_files<'a>(alloc: Global, command: Command<'a>) -> Result<Command<'a>, Error> {
    let command = with(command, asm_files_command(alloc))?;
    let command = with(command, dis_command(alloc))?;
    let command = with(command, check_command(alloc))?;
    let command = with(command, info_command(alloc))?;
    let command = with(command, cmp_command(alloc))?;
    let command = with(command, mend_command(alloc))?;
    with(command, convert_command(alloc))
}

/// Adds the words that run a program.
fn with_runs<'a>(alloc: Global, command: Command<'a>) -> Result<Command<'a>, Error> {
    let command = with(command, run_command(alloc))?;
    let command = with(command, mon_command(alloc))?;
    let command = with(command, trace_command(alloc))?;
    let command = with(command, page_command(alloc))?;
    let command = with(command, test_command(alloc))?;
    with(command, debug_command(alloc))
}

/// Adds the words that serve an editor.
fn with_editors<'a>(alloc: Global, command: Command<'a>) -> Result<Command<'a>, Error> {
    let command = with(command, lsp_command(alloc))?;
    with(command, dap_command(alloc))
}

/// Returns the whole command line. The only error is that an allocation failed.
pub fn command_line<'a>(alloc: Global) -> Result<Command<'a>, Error> {
    let command = Command::new(alloc, "mos65")
        .about("A development system for the MOS 6502")
        .version(VERSION)
        .after_help(STATUSES)
        .no_binary_name(true)
        .subcommand_required(true)
        .bin_name("mos65")?;
    with_editors(alloc, with_runs(alloc, with_files(alloc, command)?)?)
}

/// Returns why words are refused that no word of the program serves. Help and the version are
/// refusals here too.
fn fault_of(error: Error) -> WordsFault {
    match error.kind() {
        ErrorKind::DisplayVersion => WordsFault::Help(error),
        _ => WordsFault::from(error),
    }
}

/// Returns why words are refused, by the whole command line.
fn refused_by(alloc: Global, words: &[&str]) -> WordsFault {
    let command = match command_line(alloc) {
        Ok(command) => command,
        Err(error) => return fault_of(error),
    };
    match command.try_get_matches_from(words) {
        Ok(_) => WordsFault::Value,
        Err(error) => fault_of(error),
    }
}

/// Serves words that ask for help or for the version, and words that are none of the program's.
///
/// Returns the exit status: 0 for help that was written, 2 for wrong words, 3 if memory ran out, 4
/// if the help could not be written.
pub fn tell_whole<O: Write, E: Write>(
    alloc: Global,
    words: &[&str],
    output: &mut O,
    errors: &mut E,
) -> u8
    ensures status { result ≤ 4 }
    ensures untouched { 1 ≤ result → result ≤ 3 → output.new ≡ output.old }
    ensures quiet { result ≤ 1 → errors.new ≡ errors.old }
{
    refused_words(refused_by(alloc, words), output, errors)
}
