//! From words to what they ask for.
ghost use Rattle.std.specs.Prelude.{◌≡◌, ◌⊎◌, Err, None, Some, IsOkUnless, IfErr, IfOk};
ghost use Rattle.std.specs.Prelude.{option_map};
ghost use Rattle.arguments.specs.Words.{texts};
ghost use Rattle.clap.specs.Words.{first_value, found_of, subcommand_rows_of};
ghost use Rattle.program.specs.Asked.{Asked, words_in, asked_of, asm_asked, debug_asked, dis_asked};
ghost use Rattle.program.specs.Asked.{overwrites};
ghost use Rattle.program.specs.Refused.{IsRightRefusal, IsTaken};
ghost use Rattle.program.specs.Views.{asm_view, debug_view, dis_view, view};

use crate::asked::{AsmWords, DebugWords, DisWords, Words};
use crate::command::command;
use arguments::{
    WordsFault, address_asked, debug_history_asked, is_given, matched, port_asked, profile_asked,
    rom_asked,
};
use clap::ArgMatches;
use std::alloc::Global;

/// Returns whether a file to write has the name of the source, or of the other file to write.
///
/// Names are compared as they are written.
fn overwrites(source: &str, tape: &str, listing: Option<&str>) -> bool
    ensures { result ≡ overwrites source.now tape.now (option_map (λ s. s.now) listing.entry) }
{
    match listing {
        None => tape == source,
        Some(listing) => tape == source || listing == source || listing == tape,
    }
}

/// Returns what the values that were found ask for, or `None` if an option cannot have its value.
pub fn asm_words<'a>(matches: &ArgMatches<'a>) -> Option<AsmWords<'a>>
    ensures { option_map asm_view result ≡ asm_asked (first_value (found_of matches.now)) }
{
    let source = matches.get_str("SOURCE")?;
    let tape = matches.get_str("TAPE")?;
    let listing = matches.get_str("listing");
    let port = port_asked(matches.get_str("port"))?;
    let profile = profile_asked(matches.get_str("profile"))?;
    if overwrites(source, tape, listing) {
        return None;
    }
    Some(AsmWords {
        source,
        tape,
        listing,
        port,
        profile,
    })
}

/// Returns what the values that were found ask for.
///
/// Returns `None` if a word cannot have its value, or the first address is above the last.
fn dis_words<'a>(matches: &ArgMatches<'a>) -> Option<DisWords<'a>>
    ensures { option_map dis_view result ≡ dis_asked (first_value (found_of matches.now)) }
{
    let tape = matches.get_str("TAPE")?;
    let first = address_asked(matches.get_str("LO"))?;
    let last = address_asked(matches.get_str("HI"))?;
    let profile = profile_asked(matches.get_str("profile"))?;
    if first > last {
        return None;
    }
    Some(DisWords {
        tape,
        first,
        last,
        profile,
    })
}

/// Returns what the values that were found ask for, or `None` if an option cannot have its value.
fn debug_words<'a>(matches: &ArgMatches<'a>) -> Option<DebugWords<'a>>
    ensures { option_map debug_view result ≡ debug_asked (first_value (found_of matches.now)) }
{
    let file = matches.get_str("FILE")?;
    let history = debug_history_asked(matches.get_str("history"))?;
    let port = port_asked(matches.get_str("port"))?;
    let rom = rom_asked(matches.get_str("rom"))?;
    let profile = profile_asked(matches.get_str("profile"))?;
    Some(DebugWords {
        file,
        is_tape: is_given(matches, "tape"),
        history,
        port,
        rom,
        profile,
    })
}

/// Returns what the subcommand that was found asks for, or `None` if a value is wrong.
fn words_in<'a>(matches: &ArgMatches<'a>) -> Option<Words<'a>>
    ensures { option_map view result ≡ asked_of (subcommand_rows_of matches.now) }
{
    match matches.subcommand()? {
        ("asm", found) => match asm_words(found) {
            Some(words) => Some(Words::Asm(words)),
            None => None,
        },
        ("dis", found) => Some(Words::Dis(dis_words(found)?)),
        ("debug", found) => match debug_words(found) {
            Some(words) => Some(Words::Debug(words)),
            None => None,
        },
        _ => None,
    }
}

/// Reads the program's words, without its own name: returns what they ask for.
///
/// An option that no word names has its default: port `F000`, history 1,024, profile `N`, no ROM.
///
/// # Errors
///
/// - `Help`: the words ask for help. The text is `clap`'s.
/// - `Usage`: a word is missing or unknown, or there are too many. The text is `clap`'s.
/// - `Value`: `clap` takes the words, and a value is wrong: `--port` has neither four hex digits
///   nor `none`, `--history` anything but one to five decimal digits of a number up to 65,536,
///   `--rom` anything but two such addresses with `-` between them, `--profile` anything but `N` or
///   `C`; LO or HI of `dis` is anything but such an address, or LO is above HI; two files of `asm`
///   have one name.
/// - `OutOfMemory`: an allocation failed.
pub fn read_words<'a>(alloc: Global, words: &'a [&'a str]) -> Result<Words<'a>, WordsFault>
    ensures asked { IfOk result (λ w. words_in (texts words.entry.now) ≡ Some (view w)) }
    ensures taken { IfOk result (λ w. IsTaken (texts words.entry.now)) }
    ensures served { (a : Asked) → IsTaken (texts words.entry.now) → words_in
        (texts words.entry.now) ≡ Some a → IsOkUnless result WordsFault.OutOfMemory }
    ensures wrong { IsTaken (texts words.entry.now)
        → words_in (texts words.entry.now) ≡ None
        → (result ≡ Err WordsFault.Value) ⊎ (result ≡ Err WordsFault.OutOfMemory) }
    ensures refused { IfErr result (IsRightRefusal (texts words.entry.now)) }
{
    let matches = matched(command(alloc)?, words)?;
    match words_in(&matches) {
        Some(words) => Ok(words),
        None => Err(WordsFault::Value),
    }
}
