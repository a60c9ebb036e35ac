//! Names that have a second address.

ghost use Rattle.std.specs.Prelude.{◌≡◌, ◌++◌, OnOk, map};
ghost use Rattle.std.specs.Option.{option_copied};
ghost use Rattle.std.specs.Str.{bytes_eq};
ghost use Rattle.mon_settings.specs.StopTexts.{again_line, again_of, again_text, is_again};
ghost use Rattle.source_map.specs.Names.{first_text, named};

use crate::wording::SECOND_ADDRESS;
use formatting::{digits_of_address, push_text};
use source_map::{Name, Places};
use std::alloc::AllocError;

fn is_text(one: &[u8], other: &[u8]) -> bool
    ensures { result ≡ bytes_eq one.now other.now }
{
    one == other
}

/// Returns whether a name is a text with a colon and its own address behind it, as `loop:E150`.
fn is_again(text: &[u8], name: &Name) -> bool
    ensures { result ≡ is_again text.now (named name.now) }
{
    let bytes = name.text.as_slice();
    if bytes.len() <= text.len() {
        return false;
    }
    bytes[text.len()] == b':'
        && &bytes[..text.len()] == text
        && is_text(&bytes[text.len() + 1..], &digits_of_address(name.address))
}

/// Returns the first name that is a text with an address behind it.
fn first_again<'a>(names: &'a [Name], text: &[u8]) -> Option<&'a [u8]>
    ensures { option_copied result ≡ first_text (is_again text.now) (map named names.entry.now) }
{
    for name in names {
        if is_again(text, name) {
            return Some(name.text.as_slice());
        }
    }
    None
}

/// Returns the name of a second address, if there is a name and it has one.
fn again_of<'a>(names: &'a [Name], name: Option<&[u8]>) -> Option<&'a [u8]>
    ensures { option_copied result
        ≡ again_of (map named names.entry.now) (option_copied name.entry) }
{
    match name {
        None => None,
        Some(text) => first_again(names, text),
    }
}

/// Appends the name of a second address, if there is one.
fn push_again(text: &mut Vec<u8>, other: Option<&[u8]>) -> Result<(), AllocError>
    ensures { OnOk result
        (text.new.items ≡ text.old.items ++ again_line (option_copied other.entry)) }
{
    if let Some(name) = other {
        push_text(text, SECOND_ADDRESS)?;
        text.extend_from_slice(name)?;
        push_text(text, "\n")?;
    }
    Ok(())
}

/// Appends that the name of an address has a second one, if it has.
///
/// Errors: `AllocError` if an allocation fails.
#[tactic(auto, unfolding(crate::specs::StopTexts::again_text))]
pub fn push_second(text: &mut Vec<u8>, places: &Places, address: u16) -> Result<(), AllocError>
    ensures { OnOk result
        (text.new.items ≡ text.old.items ++ again_text places.now.names address) }
{
    let names = places.names();
    let other = again_of(names.all(), names.name_at(address));
    push_again(text, other)
}
