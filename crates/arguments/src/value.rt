//! The values of options.

ghost use Rattle.std.specs.Prelude.{◌≡◌, ◌≤◌, IfSome, length, option_and_then, option_map};
ghost use Rattle.arguments.specs.Values.{debug_history_asked, form_asked, history_asked, history_of};
ghost use Rattle.arguments.specs.Values.{number_of, raw_form};
ghost use Rattle.arguments.specs.Values.{port_asked, port_of, profile_asked, profile_of, range_of};
ghost use Rattle.arguments.specs.Values.{rom_asked, steps_asked};
ghost use Rattle.arguments.specs.Asked.{form_by, form_in};
ghost use Rattle.arguments.specs.WrongValues.{IsOfValue, is_told, wrong_form, wrong_value};
ghost use Rattle.clap.specs.Words.{first_value, found_of};
ghost use Rattle.model.specs.Commands.{address_of};
ghost use Rattle.model.specs.Digits.{decimal_number};

use crate::fault::WordsFault;
use crate::file_names::form_for;
use crate::file_options::FileForm;
use crate::matching::{is_given, says_image};
use crate::wording::{
    FORM_TAKES, MON_HISTORY_TAKES, NAME_TELLS, PORT_TAKES, PROFILE_TAKES, ROM_TAKES, STEPS_TAKES,
};
use clap::ArgMatches;
use commands::{address_of, digits};
use formatting::decimal_value;
use memory_map::{DEFAULT_PORT, Port};
use model::Profile;

/// Returns the number of events to hold, of one to five decimal digits and at most 65,536.
///
/// Returns `None` for any other word.
fn history(word: &[u8]) -> Option<u32>
    ensures { result ≡ history_of word.now }
{
    if word.is_empty() || word.len() > 5 {
        return None;
    }
    match digits(word) {
        Some(number) if number <= 65536 => Some(number),
        _ => None,
    }
}

/// Returns the two addresses of `LO-HI`, each of exactly four hex digits; otherwise `None`.
fn range(word: &[u8]) -> Option<(u16, u16)>
    ensures { result ≡ range_of word.now }
{
    if word.len() != 9 || word[4] != b'-' {
        return None;
    }
    match (address_of(&word[..4]), address_of(&word[5..])) {
        (Some(low), Some(high)) => Some((low, high)),
        _ => None,
    }
}

/// Returns the profile that a letter names, or `None` for any other word.
fn profile(word: &[u8]) -> Option<Profile>
    ensures { result ≡ profile_of word.now }
{
    if word.len() != 1 {
        return None;
    }
    match word[0] {
        b'N' => Some(Profile::N),
        b'C' => Some(Profile::C),
        _ => None,
    }
}

/// Returns how many events the word after `--history` of `debug` asks for, or `None` if it is
/// wrong.
///
/// Without the word, 1,024 are held.
pub fn debug_history_asked(word: Option<&str>) -> Option<u32>
    ensures { result ≡ debug_history_asked (option_map (λ w. w.now) word.entry) }
{
    match word {
        None => Some(1024),
        Some(word) => history(word.as_bytes()),
    }
}

/// Returns the port that a word writes, or `None` if it writes none.
fn port(word: &[u8]) -> Option<Port>
    ensures { result ≡ port_of word.now }
{
    if word == b"none".as_slice() {
        return Some(Port::none());
    }
    address_of(word).map(Port::based)
}

/// Returns the port that the word after `--port` asks for, or `None` if it is wrong.
pub fn port_asked(word: Option<&str>) -> Option<Port>
    ensures { result ≡ port_asked (option_map (λ w. w.now) word.entry) }
{
    match word {
        None => Some(Port::based(DEFAULT_PORT)),
        Some(word) => port(word.as_bytes()),
    }
}

/// Returns the profile that the word after `--profile` asks for, or `None` if it is wrong.
pub fn profile_asked(word: Option<&str>) -> Option<Profile>
    ensures { result ≡ profile_asked (option_map (λ w. w.now) word.entry) }
{
    match word {
        None => Some(Profile::N),
        Some(word) => profile(word.as_bytes()),
    }
}

/// Returns the ROM that the word after `--rom` asks for, if any, or `None` if the word is wrong.
pub fn rom_asked(word: Option<&str>) -> Option<Option<(u16, u16)>>
    ensures { result ≡ rom_asked (option_map (λ w. w.now) word.entry) }
{
    match word {
        None => Some(None),
        Some(word) => match range(word.as_bytes()) {
            None => None,
            Some(rom) => Some(Some(rom)),
        },
    }
}

/// Returns the address that a word writes, or `None` if there is no word, or it writes none.
pub fn address_asked(word: Option<&str>) -> Option<u16>
    ensures { result ≡ option_and_then address_of (option_map (λ w. w.now) word.entry) }
{
    match word {
        None => None,
        Some(word) => address_of(word.as_bytes()),
    }
}

/// Returns the form of raw bytes from an address on, if there is an address.
fn raw_form(address: Option<u16>) -> Option<FileForm>
    ensures { result ≡ raw_form address }
{
    match address {
        None => None,
        Some(address) => Some(FileForm::Raw(address)),
    }
}

/// Returns how options say that a file is read, by at most one of `--image`, `--bin HHHH` and
/// `--prg`: as a source without them. Returns `None` for two of them, or if the word after `--bin`
/// is no address.
pub fn form_asked(is_tape: bool, raw: Option<&str>, is_prg: bool) -> Option<FileForm>
    ensures { result ≡ form_asked is_tape (option_map (λ w. w.now) raw.entry) is_prg }
{
    match (is_tape, raw, is_prg) {
        (false, None, false) => Some(FileForm::Source),
        (true, None, false) => Some(FileForm::Records),
        (false, Some(_), false) => raw_form(address_asked(raw)),
        (false, None, true) => Some(FileForm::Prg),
        _ => None,
    }
}

/// Returns the number that at most eighteen decimal digits write, or `None` if a byte is no digit.
fn decimal_number(word: &[u8]) -> Option<u64>
    requires { length word.now ≤ 18 }
    ensures { result ≡ decimal_number word.now }
{
    let mut value = 0u64;
    for byte in word {
        let digit = decimal_value(*byte)?;
        value = value * 10 + digit as u64;
    }
    Some(value)
}

/// Returns a number of one to eighteen decimal digits, or `None` for any other word.
fn number_of(word: &[u8]) -> Option<u64>
    ensures { result ≡ number_of word.now }
{
    if word.is_empty() || word.len() > 18 {
        return None;
    }
    decimal_number(word)
}

/// Returns how many steps the word after `--steps` asks for at most, or `None` if it is wrong.
///
/// Without the word, no number of steps ends a run.
pub fn steps_asked(word: Option<&str>) -> Option<u64>
    ensures { result ≡ steps_asked (option_map (λ w. w.now) word.entry) }
{
    match word {
        None => Some(u64::MAX),
        Some(word) => number_of(word.as_bytes()),
    }
}

/// Returns how many events the word after `--history` of `mon` asks for, at most 1,048,576, or
/// `None` if it is wrong.
///
/// Without the word, 65,536 are held.
pub fn history_asked(word: Option<&str>) -> Option<u32>
    ensures asked { result ≡ history_asked (option_map (λ w. w.now) word.entry) }
    ensures within { IfSome result (λ history. history ≤ 1048576) }
{
    match word {
        None => Some(65536),
        Some(word) => match number_of(word.as_bytes()) {
            Some(number) if number <= 1048576 => Some(number as u32),
            _ => None,
        },
    }
}

/// Returns the form that options say, or `None` if they say two, or a wrong address.
pub fn form_said_by(matches: &ArgMatches<'_>) -> Option<FileForm>
    ensures { result ≡ form_by (first_value (found_of matches.now)) }
{
    form_asked(
        says_image(matches),
        matches.get_str("bin"),
        is_given(matches, "prg"),
    )
}

/// Returns how a file is read, by its word and by what options say.
pub fn form_in(word: Option<&str>, said: Option<FileForm>) -> Option<FileForm>
    ensures { result ≡ form_in (option_map (λ w. w.now) word.entry) said }
{
    match word {
        None => None,
        Some(word) => match said {
            None => None,
            Some(said) => form_for(word, said),
        },
    }
}

/// Returns whether a file's word tells another form than options say.
fn is_told(word: Option<&str>, said: Option<FileForm>) -> bool
    ensures { result ≡ is_told (option_map (λ w. w.now) word.entry) said }
{
    match word {
        None => false,
        Some(word) => form_in(Some(word), said).is_none(),
    }
}

/// Returns a sentence that says what is wrong of the form that options say of the file of either
/// word, if something is.
#[tactic(auto, unfolding(crate::specs::WrongValues::wrong_form))]
fn wrong_form(
    file: Option<&str>,
    tape: Option<&str>,
    said: Option<FileForm>,
) -> Option<&'static str>
    ensures { option_map (λ s. s.now) result ≡ wrong_form (option_map (λ w. w.now) file.entry)
        (option_map (λ w. w.now) tape.entry) said }
{
    if said.is_none() {
        Some(FORM_TAKES)
    } else if is_told(file, said) {
        Some(NAME_TELLS)
    } else if is_told(tape, said) {
        Some(NAME_TELLS)
    } else {
        None
    }
}

/// Returns a sentence that says which of the values that were found is wrong, or `None` where it is
/// none of an option that several words have.
pub fn wrong_value(matches: &ArgMatches<'_>) -> Option<&'static str>
    ensures { option_map (λ s. s.now) result ≡ wrong_value (first_value (found_of matches.now)) }
{
    if port_asked(matches.get_str("port")).is_none() {
        Some(PORT_TAKES)
    } else if rom_asked(matches.get_str("rom")).is_none() {
        Some(ROM_TAKES)
    } else if profile_asked(matches.get_str("profile")).is_none() {
        Some(PROFILE_TAKES)
    } else if history_asked(matches.get_str("history")).is_none() {
        Some(MON_HISTORY_TAKES)
    } else if steps_asked(matches.get_str("steps")).is_none() {
        Some(STEPS_TAKES)
    } else {
        wrong_form(
            matches.get_str("FILE"),
            matches.get_str("TAPE"),
            form_said_by(matches),
        )
    }
}

/// Returns the fault of words one of whose values is wrong: with the sentence of `wrong_value`, if
/// there is one.
pub fn value_fault(matches: &ArgMatches<'_>) -> WordsFault
    ensures { IsOfValue (wrong_value (first_value (found_of matches.now))) result }
{
    match wrong_value(matches) {
        Some(which) => WordsFault::Wrong(which),
        None => WordsFault::Value,
    }
}
