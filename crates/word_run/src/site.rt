//! What is known of an address.

ghost use Rattle.std.specs.Prelude.{◌≡◌, ◌++◌, IfOk, None, OnOk, option_map};
ghost use Rattle.word_run.specs.Known.{known_by, known_view};
ghost use Rattle.word_run.specs.Told.{IsSite, distance_text, name_words, site_text};
ghost use Rattle.source_map.specs.Names.{near_view};

use crate::known::Known;
use assembler::Assembly;
use formatting::{push_count, push_text};
use source_map::Places;
use std::alloc::{AllocError, Global};

/// Appends how far behind a name an address is.
fn push_distance(text: &mut Vec<u8>, distance: u16) -> Result<(), AllocError>
    ensures { OnOk result (text.new.items ≡ text.old.items ++ distance_text distance) }
{
    if distance == 0 {
        return Ok(());
    }
    push_text(text, "+")?;
    push_count(text, distance as u64)
}

/// Appends a name and how far behind it an address is, if there is one.
fn push_name(text: &mut Vec<u8>, near: Option<(&[u8], u16)>) -> Result<(), AllocError>
    ensures { OnOk result
        (text.new.items ≡ text.old.items ++ name_words (near_view near.entry)) }
{
    let Some((name, distance)) = near else {
        return Ok(());
    };
    push_text(text, " ")?;
    text.extend_from_slice(name)?;
    push_distance(text, distance)
}

/// Returns what places say of an address: the nearest name, and the line that begins there.
///
/// Errors: `AllocError` if an allocation fails.
fn site_text(alloc: Global, places: &Places, address: u16) -> Result<Vec<u8>, AllocError>
    ensures { IfOk result (λ site. site.items ≡ site_text places.now address) }
{
    let mut text = Vec::new(alloc);
    push_name(&mut text, places.names().name_near(address))?;
    places.push_line_at(&mut text, address)?;
    Ok(text)
}

/// Returns what a source says of an address: nothing without a source.
///
/// Errors: `AllocError` if an allocation fails.
#[tactic(auto, using(crate::proofs::Sites::no_site, crate::proofs::Sites::source_site))]
fn source_text(
    alloc: Global,
    file: &str,
    assembly: Option<&Assembly>,
    address: u16,
) -> Result<Vec<u8>, AllocError>
    ensures { IfOk result (λ site. IsSite
        (known_by file.now (option_map (λ a. a.now) assembly.entry) None) address site.items) }
{
    let Some(assembly) = assembly else {
        return Ok(Vec::new(alloc));
    };
    let places = Places::of_source(alloc, file.as_bytes(), assembly)?;
    let site = site_text(alloc, &places, address)?;
    Ok(site)
}

/// Returns what is known of an address: by debug information, or otherwise by a source.
///
/// Errors: `AllocError` if an allocation fails.
#[tactic(auto, using(crate::proofs::Sites::debug_site, crate::proofs::Sites::none_site))]
fn known_text(alloc: Global, known: Known<'_, '_, '_>, address: u16) -> Result<Vec<u8>, AllocError>
    ensures { IfOk result (λ site. IsSite (known_view known.entry) address site.items) }
{
    let site = match known.debug {
        Some(places) => site_text(alloc, places, address)?,
        None => source_text(alloc, known.file, known.assembly, address)?,
    };
    Ok(site)
}

/// Returns what is said of an address: nothing where nothing is known, nor where memory runs out.
#[tactic(auto, using(crate::proofs::Sites::no_site))]
pub fn site_of(alloc: Global, known: Known<'_, '_, '_>, address: u16) -> Vec<u8>
    ensures { IsSite (known_view known.entry) address result.items }
{
    match known_text(alloc, known, address) {
        Ok(site) => site,
        Err(_) => Vec::new(alloc),
    }
}
