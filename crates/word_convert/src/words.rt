//! What the words of `convert` ask for.

ghost use Rattle.std.specs.Prelude.{◌≡◌, ◌≤◌, IfErr, IfOk, None, Some, option_map};
ghost use Rattle.arguments.specs.Values.{both};
ghost use Rattle.arguments.specs.Words.{Fits, IsRefusalOf, texts};
ghost use Rattle.clap.specs.Words.{first_value, found_of};
ghost use Rattle.word_convert.specs.Asked.{asked_of, both_asked, convert_asked, convert_by};
ghost use Rattle.word_convert.specs.Asked.{convert_view, is_other, one_file, other_view};
ghost use Rattle.word_convert.specs.Asked.{third_word, two_files, two_of};
ghost use Rattle.word_convert.specs.Asked.{from_asked, from_beside, from_name, from_named, in_order};
ghost use Rattle.word_convert.specs.Asked.{if_address, range_asked, raw_at, sum_asked, to_asked};
ghost use Rattle.word_convert.specs.CommandLine.{convert};

use crate::command::convert_command;
use crate::names::form_named;
use crate::wording::{
    BIN_ALONE, BIN_TAKES, FILL_TAKES, FROM_ONE, FROM_TAKES, IN_TELLS, ONE_NAME, RANGE_TAKES,
    SUM_TAKES, TO_TAKES,
};
use arguments::{
    FileForm, FormName, WordsFault, address_asked, address_at, form_for, form_of_ending, is_given,
    matched, name_of,
};
use clap::ArgMatches;
use image_files::{fill_asked, form_said, forms_said};
use image_reader::{Form, TextForm};
use std::alloc::Global;

/// Another file to read.
#[derive(Clone, Copy)]
pub struct OtherFile<'a> {
    /// Its name.
    pub file: &'a str,
    /// Its form, if it is said.
    pub form: Option<Form>,
}

/// What the words of `convert` ask for.
#[derive(Clone, Copy)]
pub struct ConvertWords<'a> {
    /// The file to read.
    pub input: &'a str,
    /// The other file to read, if there is one; its bytes are written too.
    pub other: Option<OtherFile<'a>>,
    /// The file to write; its name is that of no file to read.
    pub out: &'a str,
    /// The form of the file to read, if it is said.
    pub from: Option<Form>,
    /// The form to write.
    pub to: FormName,
    /// The first and the last address to write, if they are said.
    pub range: Option<(u16, u16)>,
    /// The byte that gaps are filled with, if one is said.
    pub fill: Option<u8>,
    /// The address of the byte that makes the sum of all bytes 0, if one is said.
    pub sum: Option<u16>,
}

/// Returns the form to write, by the word after `--to` and the name of the file.
fn to_asked(word: Option<&str>, out: &str) -> Option<FormName>
    ensures { result ≡ to_asked (option_map (λ w. w.now) word.entry) out.now }
{
    match word {
        None => form_of_ending(out.as_bytes()),
        Some(word) => form_named(word),
    }
}

/// Returns the form of the file to read where it is said by its name alone. Raw bytes need an
/// address.
fn from_name(name: Option<FormName>) -> Option<Option<Form>>
    ensures { result ≡ from_name name }
{
    match name {
        None => None,
        Some(FormName::Bin) => None,
        Some(FormName::Hex) => Some(Some(Form::Text(TextForm::Hex))),
        Some(FormName::SRecord) => Some(Some(Form::Text(TextForm::SRecord))),
        Some(FormName::Tape) => Some(Some(Form::Tape)),
        Some(FormName::Prg) => Some(Some(Form::Prg)),
    }
}

/// Returns the form of raw bytes from an address on, if there is an address.
fn raw_at(address: Option<u16>) -> Option<Option<Form>>
    ensures { result ≡ raw_at address }
{
    match address {
        None => None,
        Some(address) => Some(Some(Form::Raw(address))),
    }
}

/// Returns the form of the file to read, by the words after `--from` and `--bin`, and by `--prg`.
fn from_named(name: &str, address: Option<&str>, is_prg: bool) -> Option<Option<Form>>
    ensures { result ≡ from_named name.now (option_map (λ w. w.now) address.entry) is_prg }
{
    if is_prg {
        return None;
    }
    match address {
        None => from_name(form_named(name)),
        Some(address) => {
            if name == "bin" {
                raw_at(address_asked(Some(address)))
            } else {
                None
            }
        }
    }
}

/// Returns the form of the file to read that options name, unless it has its address behind its
/// name.
fn from_beside(
    at: Option<u16>,
    name: &str,
    address: Option<&str>,
    is_prg: bool,
) -> Option<Option<Form>>
    ensures { result ≡ from_beside at name.now (option_map (λ w. w.now) address.entry) is_prg }
{
    match at {
        None => from_named(name, address, is_prg),
        Some(_) => None,
    }
}

/// Returns the form of the file to read: the one that the word after `--from` names, or that of the
/// file's word and of the other options.
fn from_asked(input: &str, name: Option<&str>, matches: &ArgMatches<'_>) -> Option<Option<Form>>
    ensures { result ≡ from_asked input.now (option_map (λ w. w.now) name.entry)
        (first_value (found_of matches.now)) }
{
    match name {
        None => form_said(Some(input), matches),
        Some(name) => from_beside(
            address_at(input.as_bytes()),
            name,
            matches.get_str("bin"),
            is_given(matches, "prg"),
        ),
    }
}

/// Returns two addresses of which the first is not above the second.
fn in_order(low: Option<u16>, high: Option<u16>) -> Option<Option<(u16, u16)>>
    ensures { result ≡ in_order (both low high) }
{
    match low {
        None => None,
        Some(low) => match high {
            None => None,
            Some(high) => {
                if low <= high {
                    Some(Some((low, high)))
                } else {
                    None
                }
            }
        },
    }
}

/// Returns the first and the last address to write, by their words.
fn range_asked(low: Option<&str>, high: Option<&str>) -> Option<Option<(u16, u16)>>
    ensures { result ≡ range_asked (option_map (λ w. w.now) low.entry)
        (option_map (λ w. w.now) high.entry) }
{
    match (low, high) {
        (None, None) => Some(None),
        (None, Some(_)) => None,
        (Some(_), None) => None,
        (Some(_), Some(_)) => in_order(address_asked(low), address_asked(high)),
    }
}

/// Returns an address that a word writes.
fn if_address(address: Option<u16>) -> Option<Option<u16>>
    ensures { result ≡ if_address address }
{
    match address {
        None => None,
        Some(address) => Some(Some(address)),
    }
}

/// Returns the address of the byte that makes the sum 0, by the word after `--sum8`.
fn sum_asked(word: Option<&str>) -> Option<Option<u16>>
    ensures { result ≡ sum_asked (option_map (λ w. w.now) word.entry) }
{
    match word {
        None => Some(None),
        Some(_) => if_address(address_asked(word)),
    }
}

/// Returns whether the other file to read has a name, if there is one.
fn is_other(other: Option<OtherFile<'_>>, name: &str) -> bool
    ensures { result ≡ is_other (option_map other_view other.entry) name.now }
{
    match other {
        None => false,
        Some(other) => other.file == name,
    }
}

/// Returns what the words ask for, if each is right and OUT has a name of its own.
fn asked_of<'a>(
    input: &'a str,
    other: Option<OtherFile<'a>>,
    out: &'a str,
    from: Option<Option<Form>>,
    to: Option<FormName>,
    range: Option<Option<(u16, u16)>>,
    fill: Option<Option<u8>>,
    sum: Option<Option<u16>>,
) -> Option<ConvertWords<'a>>
    ensures { option_map convert_view result ≡ asked_of input.entry.now
        (option_map other_view other.entry) out.entry.now from to range fill sum }
{
    let from = from?;
    let to = to?;
    let range = range?;
    let fill = fill?;
    let sum = sum?;
    if input == out {
        return None;
    }
    if is_other(other, out) {
        return None;
    }
    Some(ConvertWords {
        input,
        other,
        out,
        from,
        to,
        range,
        fill,
        sum,
    })
}

/// Returns what `IN OUT [LO HI]` and options ask for, or `None` where a value is wrong.
fn one_file<'a>(input: &'a str, out: &'a str, matches: &ArgMatches<'a>) -> Option<ConvertWords<'a>>
    ensures { option_map convert_view result
        ≡ one_file input.entry.now out.entry.now (first_value (found_of matches.now)) }
{
    asked_of(
        name_of(input),
        None,
        out,
        from_asked(input, matches.get_str("from"), matches),
        to_asked(matches.get_str("to"), out),
        range_asked(matches.get_str("LO"), matches.get_str("HI")),
        fill_asked(matches.get_str("fill")),
        sum_asked(matches.get_str("sum8")),
    )
}

/// Returns the forms of two files to read, or `None` where options say a wrong one. `--from` names
/// that of one file, and is none of these.
fn both_asked(
    input: &str,
    other: &str,
    name: Option<&str>,
    matches: &ArgMatches<'_>,
) -> Option<(Option<Form>, Option<Form>)>
    ensures { result ≡ both_asked input.now other.now (option_map (λ w. w.now) name.entry)
        (first_value (found_of matches.now)) }
{
    match name {
        None => forms_said(Some(input), Some(other), matches),
        Some(_) => None,
    }
}

/// Returns what `IN OTHER OUT` asks for, by the forms of both.
fn two_of<'a>(
    input: &'a str,
    other: &'a str,
    out: &'a str,
    forms: Option<(Option<Form>, Option<Form>)>,
    to: Option<FormName>,
    fill: Option<Option<u8>>,
    sum: Option<Option<u16>>,
) -> Option<ConvertWords<'a>>
    ensures { option_map convert_view result
        ≡ two_of input.entry.now other.entry.now out.entry.now forms to fill sum }
{
    let Some((form, other_form)) = forms else {
        return None;
    };
    let second = OtherFile {
        file: name_of(other),
        form: other_form,
    };
    asked_of(
        name_of(input),
        Some(second),
        out,
        Some(form),
        to,
        Some(None),
        fill,
        sum,
    )
}

/// Returns what `IN OTHER OUT` and options ask for, or `None` where a value is wrong.
fn two_files<'a>(
    input: &'a str,
    other: &'a str,
    out: &'a str,
    matches: &ArgMatches<'a>,
) -> Option<ConvertWords<'a>>
    ensures { option_map convert_view result ≡ two_files input.entry.now other.entry.now
        out.entry.now (first_value (found_of matches.now)) }
{
    two_of(
        input,
        other,
        out,
        both_asked(input, other, matches.get_str("from"), matches),
        to_asked(matches.get_str("to"), out),
        fill_asked(matches.get_str("fill")),
        sum_asked(matches.get_str("sum8")),
    )
}

/// Returns the third of three words where it is OUT, and no address.
fn third_word<'a>(low: Option<&'a str>, high: Option<&'a str>) -> Option<&'a str>
    ensures { option_map (λ w. w.now) result
        ≡ third_word (option_map (λ w. w.now) low.entry) (option_map (λ w. w.now) high.entry) }
{
    match low {
        None => None,
        Some(word) => match high {
            None => match address_asked(Some(word)) {
                None => Some(word),
                Some(_) => None,
            },
            Some(_) => None,
        },
    }
}

/// Returns what the values that were found ask for, or `None` where one is wrong.
fn convert_words<'a>(matches: &ArgMatches<'a>) -> Option<ConvertWords<'a>>
    ensures { option_map convert_view result ≡ convert_by (first_value (found_of matches.now)) }
{
    let input = matches.get_str("IN")?;
    let second = matches.get_str("OUT")?;
    match third_word(matches.get_str("LO"), matches.get_str("HI")) {
        None => one_file(input, second, matches),
        Some(out) => two_files(input, second, out, matches),
    }
}

/// Returns a sentence that says what is wrong of the words that say the form of the file to read.
fn wrong_form(word: &str, matches: &ArgMatches<'_>) -> &'static str {
    let address = matches.get_str("bin");
    if address.is_some() && address_asked(address).is_none() {
        return BIN_TAKES;
    }
    match matches.get_str("from") {
        None => match form_for(word, FileForm::Raw(0)) {
            None => IN_TELLS,
            Some(_) => BIN_ALONE,
        },
        Some(_) => match address {
            None => FROM_TAKES,
            Some(_) => BIN_ALONE,
        },
    }
}

/// Returns a sentence that says which of the values that were found is wrong, where the words name
/// two files to read.
fn wrong_of_two(matches: &ArgMatches<'_>, out: &str) -> &'static str {
    let address = matches.get_str("bin");
    if matches.get_str("from").is_some() {
        FROM_ONE
    } else if address.is_some() && address_asked(address).is_none() {
        BIN_TAKES
    } else if forms_said(matches.get_str("IN"), matches.get_str("OUT"), matches).is_none() {
        IN_TELLS
    } else if to_asked(matches.get_str("to"), out).is_none() {
        TO_TAKES
    } else if fill_asked(matches.get_str("fill")).is_none() {
        FILL_TAKES
    } else if sum_asked(matches.get_str("sum8")).is_none() {
        SUM_TAKES
    } else {
        ONE_NAME
    }
}

/// Returns a sentence that says which of the values that were found is wrong.
fn wrong_value(matches: &ArgMatches<'_>) -> &'static str {
    if let Some(out) = third_word(matches.get_str("LO"), matches.get_str("HI")) {
        return wrong_of_two(matches, out);
    }
    let word = matches.get_str("IN").unwrap_or("");
    if from_asked(word, matches.get_str("from"), matches).is_none() {
        return wrong_form(word, matches);
    }
    if to_asked(matches.get_str("to"), matches.get_str("OUT").unwrap_or("")).is_none() {
        return TO_TAKES;
    }
    if range_asked(matches.get_str("LO"), matches.get_str("HI")).is_none() {
        return RANGE_TAKES;
    }
    if fill_asked(matches.get_str("fill")).is_none() {
        return FILL_TAKES;
    }
    if sum_asked(matches.get_str("sum8")).is_none() {
        return SUM_TAKES;
    }
    ONE_NAME
}

/// Reads the words after `convert`.
///
/// Errors: `Help` and `Usage` with `clap`'s text; `Wrong` if a word has a wrong value, if no form
/// to write is said and the ending of OUT tells none, or if both files have one name;
/// `OutOfMemory` if an allocation fails.
pub fn read_convert_words<'a>(
    alloc: Global,
    words: &'a [&'a str],
) -> Result<ConvertWords<'a>, WordsFault>
    ensures asked { IfOk result
        (λ w. convert_asked (texts words.entry.now) ≡ Some (convert_view w)) }
    ensures taken { IfOk result (λ w. Fits convert (texts words.entry.now)) }
    ensures refused { IfErr result (IsRefusalOf convert (texts words.entry.now)
        (convert_asked (texts words.entry.now) ≡ None)) }
{
    let matches = matched(convert_command(alloc)?, words)?;
    match convert_words(&matches) {
        Some(words) => Ok(words),
        None => Err(WordsFault::Wrong(wrong_value(&matches))),
    }
}
