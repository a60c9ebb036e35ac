//! Places and characters in a text.

ghost use Rattle.std.specs.Prelude.{◌≡◌, ◌∷◌, ◌++◌, [], OnErr, OnOk, None, Some};
ghost use Rattle.source_map.specs.Names.{name_at};
ghost use Rattle.mon_instructions.specs.Places.{name_or, name_text, place_text};
ghost use Rattle.mon_instructions.specs.Characters.{shown_character};

use formatting::{push_address, push_count};
use source_map::Places;
use std::alloc::AllocError;

/// Appends a name after a blank, and how far above it an address is.
fn push_near(text: &mut Vec<u8>, name: &[u8], distance: u16) -> Result<(), AllocError>
    ensures { OnOk result (text.new.items ≡ text.old.items
        ++ name_or (Some (name.now, distance)) None) }
{
    text.push(b' ')?;
    text.extend_from_slice(name)?;
    if distance > 0 {
        text.push(b'+')?;
        push_count(text, distance as u64)?;
    }
    Ok(())
}

/// Appends the name of an address after a blank, if it has one.
fn push_name(text: &mut Vec<u8>, places: &Places, address: u16) -> Result<(), AllocError>
    ensures { OnOk result (text.new.items ≡ text.old.items
        ++ name_text (name_at places.now.names address)) }
{
    if let Some(name) = places.names().name_at(address) {
        text.push(b' ')?;
        text.extend_from_slice(name)?;
    }
    Ok(())
}

/// Appends an address, and the name that stands there or nearest below it, if one is near.
///
/// Errors: `AllocError` if an allocation fails.
#[tactic(auto, unfolding(crate::specs::Places::place_text))]
pub fn push_place(text: &mut Vec<u8>, places: &Places, address: u16) -> Result<(), AllocError>
    ensures ok { OnOk result (text.new.items ≡ text.old.items
        ++ place_text places.now.names address) }
{
    push_address(text, address)?;
    match places.names().name_near(address) {
        Some((name, distance)) => push_near(text, name, distance),
        None => push_name(text, places, address),
    }
}

/// Appends a byte as a character, or a point in its place.
pub fn push_character(text: &mut Vec<u8>, byte: u8) -> Result<(), AllocError>
    ensures ok { OnOk result (text.new.items ≡ text.old.items ++ shown_character byte ∷ []) }
    ensures err { OnErr result (text.new.items ≡ text.old.items) }
{
    let shown = match byte {
        b' '..=b'~' => byte,
        _ => b'.',
    };
    text.push(shown)?;
    Ok(())
}
