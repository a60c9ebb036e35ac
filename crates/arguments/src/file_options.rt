//! The words that name a file and its map.

ghost use Rattle.std.specs.Prelude.{◌≡◌, IfErr, IfOk, false, option_map};
ghost use Rattle.arguments.specs.Asked.{file_asked, file_view};
ghost use Rattle.arguments.specs.CommandLine.{with_file};
ghost use Rattle.clap.specs.Words.{App, Rule, app_of, first_value, found_of, kind_of, rule_of};
ghost use Rattle.clap.specs.Words.{with_rule};
ghost use Rattle.clap.specs.declared.builder.command.Command.TheViews.{out-Command};

use crate::file_names::{form_for, name_of};
use crate::matching::{is_given, says_image};
use crate::options::{file, flag, option, port, profile, rom};
use crate::value::{form_asked, port_asked, profile_asked, rom_asked};
use clap::error::ErrorKind;
use clap::{Arg, ArgMatches, Command, Error};
use memory_map::Port;
use model::Profile;
use std::alloc::{AllocError, Global};

/// How a file is read.
#[derive(Clone, Copy, Debug, PartialEq, Eq)]
pub enum FileForm {
    /// A source, which is assembled.
    Source,
    /// An image whose form its first record tells: a tape, Intel HEX or S-records.
    Records,
    /// Bytes alone, from this address on.
    Raw(u16),
    /// The address in two bytes, the low one first, and then bytes from it on.
    Prg,
}

/// A file, and the map that it is loaded on.
#[derive(Clone, Copy, Debug, PartialEq, Eq)]
pub struct FileWords<'a> {
    /// The file to load.
    pub file: &'a str,
    /// How it is read.
    pub form: FileForm,
    /// The first of the port's four addresses, or no port.
    pub port: Port,
    /// The first and the last address of the ROM, if there is one.
    pub rom: Option<(u16, u16)>,
    /// The processor.
    pub profile: Profile,
    /// Whether an image is loaded without four bytes of one value at the port.
    pub omits_fill: bool,
}

/// Returns a command with an argument added, if no allocation failed before.
pub fn with<'a>(
    command: Result<Command<'a>, AllocError>,
    arg: Arg<'a>,
) -> Result<Command<'a>, AllocError>
    requires { arg.global ≡ false }
    ensures shape { (app : App) (rule : Rule) → rule_of arg.entry ≡ rule
        → IfOk command.entry (λ c. app_of c ≡ app)
        → IfOk result (λ c. app_of c ≡ with_rule app rule) }
    ensures local { IfOk command.entry (λ c. (out-Command c).has_globals ≡ false)
        → IfOk result (λ c. (out-Command c).has_globals ≡ false) }
{
    match command {
        Ok(command) => command.arg(arg),
        Err(error) => Err(error),
    }
}

/// Returns a command with the words of a file and its map added.
///
/// The only error is that an allocation failed.
pub fn with_file_options<'a>(alloc: Global, command: Command<'a>) -> Result<Command<'a>, Error>
    ensures shape { IfOk result (λ c. app_of c ≡ with_file (app_of command.entry)) }
    ensures local { IfOk result (λ c. (out-Command command.entry).has_globals ≡ false
        → (out-Command c).has_globals ≡ false) }
    ensures memory { IfErr result (λ e. kind_of e ≡ ErrorKind.OutOfMemory) }
{
    let records = "FILE is an image: a tape, Intel HEX, S-records or what its name tells";
    let raw = "FILE is a raw image, from this address on, four hex digits, as FILE@HHHH";
    let prg = "FILE is a PRG file: its address in two bytes, and bytes from it on";
    let command = with(
        Ok(command),
        file(alloc, "FILE", "The source to assemble and load"),
    );
    let command = with(command, flag(alloc, "tape", "The same as --image"));
    let command = with(command, port(alloc));
    let command = with(command, rom(alloc));
    let command = with(command, profile(alloc));
    let command = with(command, option(alloc, "bin", "HHHH", raw));
    let command = with(command, flag(alloc, "prg", prg));
    Ok(with(command, flag(alloc, "image", records))?)
}

/// Returns the file and the map that the values ask for, or `None` if one is wrong.
pub fn file_words<'a>(matches: &ArgMatches<'a>) -> Option<FileWords<'a>>
    ensures { option_map file_view result ≡ file_asked (first_value (found_of matches.now)) }
{
    let word = matches.get_str("FILE")?;
    let said = form_asked(
        says_image(matches),
        matches.get_str("bin"),
        is_given(matches, "prg"),
    )?;
    let form = form_for(word, said)?;
    let given = matches.get_str("port");
    let port = port_asked(given)?;
    let rom = rom_asked(matches.get_str("rom"))?;
    let profile = profile_asked(matches.get_str("profile"))?;
    Some(FileWords {
        file: name_of(word),
        form,
        port,
        rom,
        profile,
        omits_fill: given.is_some(),
    })
}
