//! Places with functions of C and lines.

ghost use Rattle.std.specs.Prelude.{◌≡◌, ◌++◌, OnOk};
ghost use Rattle.mon_calls.specs.Spots.{code_text, from_line, is_in_function, line_text, name_text};
ghost use Rattle.mon_calls.specs.Spots.{spot_line, spot_text};

use arguments::push_shown;
use call_frames::function_at;
use debugger::Session;
use formatting::{push_address, push_text};
use mon_instructions::{push_instruction, push_place};
use source_map::Places;
use std::alloc::AllocError;

/// Appends an address with the function of C there, otherwise with the name that stands there or
/// nearest below it.
fn push_name(text: &mut Vec<u8>, places: &Places, address: u16) -> Result<(), AllocError>
    ensures { OnOk result (text.new.items ≡ text.old.items ++ name_text places.now address) }
{
    match function_at(places, address) {
        Some(function) => {
            push_address(text, address)?;
            push_text(text, " ")?;
            push_shown(text, function.name.as_slice())
        }
        None => push_place(text, places, address),
    }
}

/// Appends the line that begins at an address, in a program by debug information.
fn push_line(text: &mut Vec<u8>, places: &Places, address: u16) -> Result<(), AllocError>
    ensures { OnOk result (text.new.items ≡ text.old.items ++ line_text places.now address) }
{
    if places.is_whole() {
        return Ok(());
    }
    places.push_line_at(text, address)
}

/// Appends a place with the line that begins there.
fn push_spot(text: &mut Vec<u8>, places: &Places, address: u16) -> Result<(), AllocError>
    ensures { OnOk result (text.new.items ≡ text.old.items ++ spot_text places.now address) }
{
    push_name(text, places, address)?;
    push_line(text, places, address)
}

/// Appends words and a place, ended.
pub fn push_spot_line(
    text: &mut Vec<u8>,
    places: &Places,
    words: &str,
    address: u16,
) -> Result<(), AllocError>
    ensures { OnOk result
        (text.new.items ≡ text.old.items ++ spot_line words.now places.now address) }
{
    push_text(text, words)?;
    push_spot(text, places, address)?;
    push_text(text, "\n")
}

/// Returns whether a function of C has the byte at an address.
fn is_in_function(places: &Places, address: u16) -> bool
    ensures { result ≡ is_in_function places.now address }
{
    function_at(places, address).is_some()
}

/// Appends the instruction at an address, if it is not within a function of C.
fn push_code(
    text: &mut Vec<u8>,
    session: &Session,
    places: &Places,
    address: u16,
) -> Result<(), AllocError>
    ensures { OnOk result (text.new.items ≡ text.old.items
        ++ code_text session.now.current places.now address) }
{
    if is_in_function(places, address) {
        return Ok(());
    }
    push_text(text, ": ")?;
    push_instruction(text, session, places, address)
}

/// Appends words, a place, and the instruction there if it is not within a function of C.
pub fn push_from(
    text: &mut Vec<u8>,
    session: &Session,
    places: &Places,
    words: &str,
    address: u16,
) -> Result<(), AllocError>
    ensures { OnOk result (text.new.items ≡ text.old.items
        ++ from_line words.now session.now.current places.now address) }
{
    push_text(text, words)?;
    push_spot(text, places, address)?;
    push_code(text, session, places, address)?;
    push_text(text, "\n")
}
