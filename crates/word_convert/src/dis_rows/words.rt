//! What the words ask for.

ghost use Rattle.std.specs.Prelude.{◌≡◌, IfErr, IfOk, None, Some, option_map};
ghost use Rattle.arguments.specs.Words.{Fits, IsRefusalOf, texts};
ghost use Rattle.clap.specs.Words.{first_value, found_of};
ghost use Rattle.word_convert.specs.ListingAsked.{dis_by, dis_view};
ghost use Rattle.word_convert.specs.ListingCommandLine.{dis, words_asked};

use crate::dis_rows::command::dis_image_command;
use arguments::{WordsFault, address_asked, matched, name_of, profile_asked, wrong_value};
use clap::ArgMatches;
use image_files::form_said;
use image_reader::Form;
use model::Profile;
use std::alloc::Global;

/// What the words of `dis FILE LO HI` with an image ask for.
#[derive(Clone, Copy)]
pub struct DisImageWords<'a> {
    /// The file to read.
    pub file: &'a str,
    /// Its form, if one is said.
    pub form: Option<Form>,
    /// The first address to list.
    pub first: u16,
    /// The last address to list.
    pub last: u16,
    /// The processor whose instructions are listed.
    pub profile: Profile,
}

/// Returns what the values that were found ask for, or `None` where one is wrong.
fn dis_words<'a>(matches: &ArgMatches<'a>) -> Option<DisImageWords<'a>>
    ensures { option_map dis_view result ≡ dis_by (first_value (found_of matches.now)) }
{
    let word = matches.get_str("FILE")?;
    let words = DisImageWords {
        file: name_of(word),
        form: form_said(Some(word), matches)?,
        first: address_asked(matches.get_str("LO"))?,
        last: address_asked(matches.get_str("HI"))?,
        profile: profile_asked(matches.get_str("profile"))?,
    };
    if words.first <= words.last {
        Some(words)
    } else {
        None
    }
}

/// Reads the words after `dis`.
///
/// # Errors
///
/// - `Help` if they ask for help, and `Usage` if they do not fit the command line, with `clap`'s
///   text.
/// - `Wrong`: they fit, and a value is wrong, or the first address is above the last.
/// - `OutOfMemory`: an allocation failed.
pub fn read_dis_words<'a>(
    alloc: Global,
    words: &'a [&'a str],
) -> Result<DisImageWords<'a>, WordsFault>
    ensures asked { IfOk result (λ w. words_asked (texts words.entry.now) ≡ Some (dis_view w)) }
    ensures taken { IfOk result (λ w. Fits dis (texts words.entry.now)) }
    ensures refused { IfErr result
        (IsRefusalOf dis (texts words.entry.now) (words_asked (texts words.entry.now) ≡ None)) }
{
    let matches = matched(dis_image_command(alloc)?, words)?;
    match dis_words(&matches) {
        Some(words) => Ok(words),
        None => {
            let bounds = "LO and HI take four hex digits each, the lower first";
            Err(WordsFault::Wrong(wrong_value(&matches).unwrap_or(bounds)))
        }
    }
}
