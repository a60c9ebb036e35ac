//! Places that a word names, by a source, a file of names, or debug information.

ghost use Rattle.std.specs.Prelude.{◌≡◌, option_map};
ghost use Rattle.loading.specs.Place.{names_of};
ghost use Rattle.word_run.specs.Places.{debug_name, known_name, line_place, place_known};

use assembler::Assembly;
use loading::{address_in, front_of, moved, place_by};
use mon_line_parts::{after_line, own_line};
use source_map::Places;

/// Returns the address of a name of debug information, if there is some.
fn debug_name(debug: Option<&Places>, name: &[u8]) -> Option<u16>
    ensures { result ≡ debug_name (option_map (λ p. p.now) debug.entry) name.now }
{
    debug?.names().address_of(name)
}

/// Returns the address of a name: of a source or a file of names, or else of debug information.
fn known_name(assembly: Option<&Assembly>, debug: Option<&Places>, name: &[u8]) -> Option<u16>
    ensures { result ≡ known_name (names_of (option_map (λ a. a.now) assembly.entry))
        (option_map (λ p. p.now) debug.entry) name.now }
{
    match address_in(assembly, name) {
        Some(address) => Some(address),
        None => debug_name(debug, name),
    }
}

/// Returns the address of the line of debug information that a word names, or of the next one with
/// bytes, if it names one. A number may be added or subtracted.
fn line_place(debug: Option<&Places>, word: &[u8]) -> Option<u16>
    ensures { result ≡ line_place (option_map (λ p. p.now) debug.entry) word.now }
{
    let places = debug?;
    let (file, line) = own_line(places, word)?;
    moved(places.address_from(file, line), after_line(word))
}

/// Returns the address of the place that a word names: a name, an address or a sum, or else a line
/// of debug information.
pub fn place_known(assembly: Option<&Assembly>, debug: Option<&Places>, word: &[u8]) -> Option<u16>
    ensures { result ≡ place_known (names_of (option_map (λ a. a.now) assembly.entry))
        (option_map (λ p. p.now) debug.entry) word.now }
{
    let named = known_name(assembly, debug, front_of(word));
    match place_by(named, word) {
        Some(address) => Some(address),
        None => line_place(debug, word),
    }
}
