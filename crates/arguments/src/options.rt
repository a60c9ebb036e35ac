//! Words and options, as `clap` is told of them.

ghost use Rattle.std.specs.Prelude.{◌≡◌, IfErr, IfOk, codes, false};
ghost use Rattle.arguments.specs.CommandLine.{file_rule, files_rule, flag_rule, list_rule};
ghost use Rattle.arguments.specs.CommandLine.{option_rule, unnamed};
ghost use Rattle.clap.specs.Words.{app_of, kind_of, rule_of};
ghost use Rattle.clap.specs.declared.builder.command.Command.TheViews.{out-Command};

use clap::error::ErrorKind;
use clap::{Arg, ArgAction, Command, Error};
use std::alloc::Global;

/// Begins the command line of a word, whose own name is not among the words that are matched.
///
/// `shown` is the name that help shows, as `mos65 run`. The only error is that an allocation
/// failed.
pub fn begin<'a>(
    alloc: Global,
    name: &'a str,
    shown: &'a str,
    about: &'a str,
    after_help: &'a str,
) -> Result<Command<'a>, Error>
    ensures shape { IfOk result (λ c. app_of c ≡ unnamed name.entry.now) }
    ensures local { IfOk result (λ c. (out-Command c).has_globals ≡ false) }
    ensures memory { IfErr result (λ e. kind_of e ≡ ErrorKind.OutOfMemory) }
{
    let command = Command::new(alloc, name)
        .about(about)
        .after_help(after_help)
        .no_binary_name(true)
        .bin_name(shown)?;
    Ok(command)
}

/// Returns a word that has to be there.
pub fn file<'a>(alloc: Global, name: &'a str, help: &'a str) -> Arg<'a>
    ensures rule { rule_of result ≡ file_rule name.entry.now }
    ensures local { result.global ≡ false }
{
    Arg::new(alloc, name)
        .required(true)
        .action(ArgAction::Set)
        .help(help)
}

/// Returns words that name files, one at least.
pub fn file_list<'a>(alloc: Global, name: &'a str, help: &'a str) -> Arg<'a>
    ensures rule { rule_of result ≡ files_rule name.entry.now }
    ensures local { result.global ≡ false }
{
    Arg::new(alloc, name)
        .required(true)
        .action(ArgAction::Append)
        .num_args(1..)
        .help(help)
}

/// Returns an option that takes no value.
pub fn flag<'a>(alloc: Global, name: &'a str, help: &'a str) -> Arg<'a>
    ensures rule { rule_of result ≡ flag_rule name.entry.now }
    ensures local { result.global ≡ false }
{
    Arg::new(alloc, name)
        .long(name)
        .action(ArgAction::SetTrue)
        .help(help)
}

/// Returns an option with one value, which help calls `value`.
pub fn option<'a>(alloc: Global, name: &'a str, value: &'a str, help: &'a str) -> Arg<'a>
    ensures rule { rule_of result ≡ option_rule name.entry.now }
    ensures local { result.global ≡ false }
{
    Arg::new(alloc, name)
        .long(name)
        .value_name(value)
        .action(ArgAction::Set)
        .help(help)
}

/// Returns an option with several values, `least` at least each time, which can be said more than
/// once. Help calls a value `value`.
pub fn list<'a>(
    alloc: Global,
    name: &'a str,
    value: &'a str,
    least: usize,
    help: &'a str,
) -> Arg<'a>
    ensures rule { rule_of result ≡ list_rule least name.entry.now }
    ensures local { result.global ≡ false }
{
    Arg::new(alloc, name)
        .long(name)
        .value_name(value)
        .action(ArgAction::Append)
        .num_args(least..)
        .help(help)
}

/// Returns the option that says where the port is.
pub fn port<'a>(alloc: Global) -> Arg<'a>
    ensures rule { rule_of result ≡ option_rule (codes "port") }
    ensures local { result.global ≡ false }
{
    let help = "The first of the port's four addresses, four hex digits, or none [default: F000]";
    option(alloc, "port", "HHHH", help)
}

/// Returns the option that chooses the processor.
pub fn profile<'a>(alloc: Global) -> Arg<'a>
    ensures rule { rule_of result ≡ option_rule (codes "profile") }
    ensures local { result.global ≡ false }
{
    let help = "The processor, N or C: C has 19 opcodes more [default: N]";
    option(alloc, "profile", "N|C", help)
}

/// Returns the option that says which addresses the program cannot write.
pub fn rom<'a>(alloc: Global) -> Arg<'a>
    ensures rule { rule_of result ≡ option_rule (codes "rom") }
    ensures local { result.global ≡ false }
{
    let help = "The addresses that the program cannot write [default: none]";
    option(alloc, "rom", "LO-HI", help)
}

/// Returns the option that says that the file is a tape.
pub fn tape<'a>(alloc: Global) -> Arg<'a>
    ensures rule { rule_of result ≡ flag_rule (codes "tape") }
    ensures local { result.global ≡ false }
{
    flag(alloc, "tape", "FILE is a tape, not a source")
}
