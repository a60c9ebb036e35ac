//! The options that say in which form a file is.

ghost use Rattle.std.specs.Prelude.{◌≡◌, IfErr, IfOk, false, option_map};
ghost use Rattle.image_files.specs.Options.{fill_asked, form_said, forms_said, forms_with, said_of};
ghost use Rattle.image_files.specs.Options.{with_image};
ghost use Rattle.clap.specs.Words.{app_of, first_value, found_of, kind_of};
ghost use Rattle.clap.specs.declared.builder.command.Command.TheViews.{out-Command};
ghost use Rattle.model.specs.Commands.{byte_of};

use arguments::{FileForm, flag, form_beside, form_in, form_said_by, option, takes_either};
use clap::error::ErrorKind;
use clap::{ArgMatches, Command, Error};
use commands::byte_of;
use image_reader::Form;
use std::alloc::Global;

/// What the help of `--image` says.
const IMAGE: &str = "An image tells its form by its first record or its name";

/// Returns a command with the options added that say the form of an image: `--bin HHHH` and
/// `--prg`, whose help `raw` and `prg` are; and `--image`, whose other name is `--tape`.
///
/// The only error is that an allocation failed.
pub fn with_image_options<'a>(
    alloc: Global,
    command: Command<'a>,
    raw: &'a str,
    prg: &'a str,
) -> Result<Command<'a>, Error>
    ensures shape { IfOk result (λ c. app_of c ≡ with_image (app_of command.entry)) }
    ensures local { IfOk result (λ c. (out-Command command.entry).has_globals ≡ false
        → (out-Command c).has_globals ≡ false) }
    ensures memory { IfErr result (λ e. kind_of e ≡ ErrorKind.OutOfMemory) }
{
    let command = command
        .arg(option(alloc, "bin", "HHHH", raw))?
        .arg(flag(alloc, "prg", prg))?
        .arg(flag(alloc, "image", IMAGE))?
        .arg(flag(alloc, "tape", "The same as --image"))?;
    Ok(command)
}

/// Returns the form that is said of an image; `None` where its first record tells it.
pub fn said_of(form: FileForm) -> Option<Form>
    ensures { result ≡ said_of form }
{
    match form {
        FileForm::Source | FileForm::Records => None,
        FileForm::Raw(address) => Some(Form::Raw(address)),
        FileForm::Prg => Some(Form::Prg),
    }
}

/// Returns the form of the image that a word names, if the word or options say one. Returns `None`
/// where they say two, or where the word after `--bin` is no address.
pub fn form_said(word: Option<&str>, matches: &ArgMatches<'_>) -> Option<Option<Form>>
    ensures { result
        ≡ form_said (option_map (λ w. w.now) word.entry) (first_value (found_of matches.now)) }
{
    match form_in(word, form_said_by(matches)) {
        None => None,
        Some(form) => Some(said_of(form)),
    }
}

/// Returns the forms of the images of two words: each its own, or the one that options say. Returns
/// `None` where neither takes what these say, or where they say two, or a wrong address.
fn forms_with(
    one: &str,
    other: &str,
    said: Option<FileForm>,
) -> Option<(Option<Form>, Option<Form>)>
    ensures { result ≡ forms_with one.now other.now said }
{
    match said {
        None => None,
        Some(said) => {
            if takes_either(one, other, said) {
                Some((
                    said_of(form_beside(one, said)),
                    said_of(form_beside(other, said)),
                ))
            } else {
                None
            }
        }
    }
}

/// Returns the forms of the images of two words, if there are two words, as `forms_with` does.
pub fn forms_said(
    one: Option<&str>,
    other: Option<&str>,
    matches: &ArgMatches<'_>,
) -> Option<(Option<Form>, Option<Form>)>
    ensures { result ≡ forms_said (option_map (λ w. w.now) one.entry)
        (option_map (λ w. w.now) other.entry) (first_value (found_of matches.now)) }
{
    match one {
        None => None,
        Some(one) => match other {
            None => None,
            Some(other) => forms_with(one, other, form_said_by(matches)),
        },
    }
}

/// Returns the byte that gaps are filled with, by the word after `--fill`.
pub fn fill_asked(word: Option<&str>) -> Option<Option<u8>>
    ensures { result ≡ fill_asked (option_map (λ w. w.now) word.entry) }
{
    match word {
        None => Some(None),
        Some(word) => match byte_of(word.as_bytes()) {
            None => None,
            Some(byte) => Some(Some(byte)),
        },
    }
}
