//! What a word that runs a program needs besides the run: a place that a word names, and what a
//! stream that failed means.

ghost use Rattle.std.specs.Prelude.{◌≡◌, OnErr, OnOk, option_map};
ghost use Rattle.loading.specs.Place.{names_of};
ghost use Rattle.model.specs.Writers.{AppendsFront};
ghost use Rattle.word_run.specs.Places.{place_asked};
ghost use Rattle.word_run.specs.Statuses.{refusal_of};
ghost use Rattle.word_run.specs.Told.{line_fault, unplaced_line, unplaced_word, why_unplaced};

use crate::places::place_known;
use crate::wording::{NO_FILE, NO_LINE, NO_PLACE};
use arguments::{ReadFault, Refusal, put_named};
use console::PlayFault;
use loading::Loaded;
use mon_line_parts::{line_number, own_line};
use source_map::Places;
use std::io::Write;

/// Returns why a word that is written as a line is no place, as a line ends.
fn line_fault(places: &Places, line: Option<(u32, u32)>) -> &'static str
    ensures { result.now ≡ line_fault places.now line }
{
    match line {
        None => NO_FILE,
        Some((file, line)) => match places.address_from(file, line) {
            Some(_) => NO_PLACE,
            None => NO_LINE,
        },
    }
}

/// Returns why a word is no place, as a line ends.
fn why_unplaced(debug: Option<&Places>, word: &[u8]) -> &'static str
    ensures { result.now ≡ why_unplaced (option_map (λ p. p.now) debug.entry) word.now }
{
    match debug {
        None => NO_PLACE,
        Some(places) => {
            if line_number(word).is_some() {
                line_fault(places, own_line(places, word))
            } else {
                NO_PLACE
            }
        }
    }
}

/// Writes that a word stands for no place, and why. The word is shown as the name of a file is.
fn tell_unplaced<E: Write>(debug: Option<&Places>, word: &str, errors: &mut E)
    ensures { AppendsFront (E.contents errors.old) (E.contents errors.new)
        (unplaced_word (option_map (λ p. p.now) debug.entry) word.now) }
{
    let why = why_unplaced(debug, word.as_bytes());
    put_named(word, &[why.as_bytes()], errors);
}

/// Returns the address of the place that a word names, or `None` if there is no word.
///
/// # Errors
///
/// The exit status 2, if the word is neither a name nor an address, nor a line of the debug
/// information. A line on `errors` says so; that it cannot be written changes nothing.
pub fn place_named<E: Write>(
    loaded: &Loaded,
    debug: Option<&Places>,
    word: Option<&str>,
    errors: &mut E,
) -> Result<Option<u16>, u8>
    ensures place { result ≡ place_asked (names_of loaded.now.assembly)
        (option_map (λ p. p.now) debug.entry) (option_map (λ w. w.now) word.entry) }
    ensures quiet { OnOk result (errors.new ≡ errors.old) }
    ensures told { OnErr result (AppendsFront (E.contents errors.old) (E.contents errors.new)
        (unplaced_line (option_map (λ p. p.now) debug.entry)
        (option_map (λ w. w.now) word.entry))) }
{
    match word {
        None => Ok(None),
        Some(word) => match place_known(loaded.assembly.as_ref(), debug, word.as_bytes()) {
            Some(address) => Ok(Some(address)),
            None => {
                tell_unplaced(debug, word, errors);
                Err(2)
            }
        },
    }
}

/// Returns what the failure of a stream means for the program.
pub fn refusal_of(fault: PlayFault) -> Refusal
    ensures { result ≡ refusal_of fault }
{
    match fault {
        PlayFault::Read => Refusal::Read(ReadFault::Other),
        PlayFault::Write => Refusal::Write,
    }
}
