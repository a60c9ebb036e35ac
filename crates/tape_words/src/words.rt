//! What the words ask for.

ghost use Rattle.std.specs.Prelude.{◌≡◌, IfErr, IfOk, None, Some, option_map};
ghost use Rattle.arguments.specs.Words.{Fits, IsRefusalOf, texts};
ghost use Rattle.clap.specs.Words.{first_value, found_of};
ghost use Rattle.tape_words.specs.Asked.{cmp_asked, cmp_by, cmp_view, info_asked, info_by};
ghost use Rattle.tape_words.specs.Asked.{info_view, mend_asked, mend_by, mend_view};
ghost use Rattle.tape_words.specs.CommandLines.{cmp, info, mend};

use crate::command::{cmp_command, info_command, mend_command};
use arguments::{WordsFault, is_given, matched, name_of, port_asked, profile_asked, value_fault};
use clap::ArgMatches;
use image_files::{form_said, forms_said};
use image_reader::Form;
use memory_map::Port;
use model::Profile;
use std::alloc::Global;

/// What the words of `info TAPE` and its options ask for.
#[derive(Clone, Copy)]
pub struct InfoWords<'a> {
    /// The file to read.
    pub tape: &'a str,
    /// Its form, if one is said.
    pub form: Option<Form>,
    /// The first of the port's four addresses, or no port.
    pub port: Port,
    /// The processor whose instructions are shown.
    pub profile: Profile,
}

/// What the words of `cmp TAPE OTHER` and its options ask for.
#[derive(Clone, Copy)]
pub struct CmpWords<'a> {
    /// The first file to read.
    pub tape: &'a str,
    /// The file to compare it with.
    pub other: &'a str,
    /// The form of the first, if one is said.
    pub form: Option<Form>,
    /// The form of the other, if one is said.
    pub other_form: Option<Form>,
    /// Whether the rows are those of an alignment.
    pub align: bool,
    /// The processor whose instructions are shown.
    pub profile: Profile,
}

/// What the words of `mend TAPE OUT` ask for.
#[derive(Clone, Copy)]
pub struct MendWords<'a> {
    /// The file to read.
    pub tape: &'a str,
    /// The file to write; its name is another.
    pub out: &'a str,
}

/// Returns what the values that were found ask for, or `None` where one is wrong.
fn info_words<'a>(matches: &ArgMatches<'a>) -> Option<InfoWords<'a>>
    ensures { option_map info_view result ≡ info_by (first_value (found_of matches.now)) }
{
    let word = matches.get_str("TAPE")?;
    Some(InfoWords {
        tape: name_of(word),
        form: form_said(Some(word), matches)?,
        port: port_asked(matches.get_str("port"))?,
        profile: profile_asked(matches.get_str("profile"))?,
    })
}

/// Returns what the values that were found ask for, or `None` where one is wrong.
fn cmp_words<'a>(matches: &ArgMatches<'a>) -> Option<CmpWords<'a>>
    ensures { option_map cmp_view result ≡ cmp_by (first_value (found_of matches.now)) }
{
    let word = matches.get_str("TAPE")?;
    let other = matches.get_str("OTHER")?;
    let forms = forms_said(Some(word), Some(other), matches)?;
    Some(CmpWords {
        tape: name_of(word),
        other: name_of(other),
        form: forms.0,
        other_form: forms.1,
        align: is_given(matches, "align"),
        profile: profile_asked(matches.get_str("profile"))?,
    })
}

/// Returns what the values that were found ask for, or `None` where both files have one name.
fn mend_words<'a>(matches: &ArgMatches<'a>) -> Option<MendWords<'a>>
    ensures { option_map mend_view result ≡ mend_by (first_value (found_of matches.now)) }
{
    let tape = matches.get_str("TAPE")?;
    let out = matches.get_str("OUT")?;
    if tape == out {
        return None;
    }
    Some(MendWords { tape, out })
}

/// Reads the words after `info`.
///
/// Errors: `Help` and `Usage` with `clap`'s text; `Wrong` if an option has a wrong value;
/// `OutOfMemory` if an allocation fails.
pub fn read_info_words<'a>(alloc: Global, words: &'a [&'a str]) -> Result<InfoWords<'a>, WordsFault>
    ensures asked { IfOk result
        (λ w. info_asked (texts words.entry.now) ≡ Some (info_view w)) }
    ensures taken { IfOk result (λ w. Fits info (texts words.entry.now)) }
    ensures refused { IfErr result (IsRefusalOf info (texts words.entry.now)
        (info_asked (texts words.entry.now) ≡ None)) }
{
    let matches = matched(info_command(alloc)?, words)?;
    match info_words(&matches) {
        Some(words) => Ok(words),
        None => Err(value_fault(&matches)),
    }
}

/// Reads the words after `cmp`.
///
/// Errors: as those of `read_info_words`.
pub fn read_cmp_words<'a>(alloc: Global, words: &'a [&'a str]) -> Result<CmpWords<'a>, WordsFault>
    ensures asked { IfOk result
        (λ w. cmp_asked (texts words.entry.now) ≡ Some (cmp_view w)) }
    ensures taken { IfOk result (λ w. Fits cmp (texts words.entry.now)) }
    ensures refused { IfErr result (IsRefusalOf cmp (texts words.entry.now)
        (cmp_asked (texts words.entry.now) ≡ None)) }
{
    let matches = matched(cmp_command(alloc)?, words)?;
    match cmp_words(&matches) {
        Some(words) => Ok(words),
        None => Err(value_fault(&matches)),
    }
}

/// Reads the words after `mend`.
///
/// Errors: as those of `read_info_words`; `Wrong` if both files have one name.
pub fn read_mend_words<'a>(alloc: Global, words: &'a [&'a str]) -> Result<MendWords<'a>, WordsFault>
    ensures asked { IfOk result
        (λ w. mend_asked (texts words.entry.now) ≡ Some (mend_view w)) }
    ensures taken { IfOk result (λ w. Fits mend (texts words.entry.now)) }
    ensures refused { IfErr result (IsRefusalOf mend (texts words.entry.now)
        (mend_asked (texts words.entry.now) ≡ None)) }
{
    let matches = matched(mend_command(alloc)?, words)?;
    match mend_words(&matches) {
        Some(words) => Ok(words),
        None => Err(WordsFault::Wrong("TAPE and OUT have one name")),
    }
}
