//! The source with comments, joined strings or labels in tables, or that without.

ghost use Rattle.std.specs.Prelude.{◌≡◌, IfOk, false, length, nat_lt};
ghost use Rattle.model.specs.Source.{Denotes};
ghost use Rattle.model.specs.State.{Map, has_port_byte};
ghost use Rattle.remarked_source.specs.RemarkedText.{AreJoined, AreJoinedText, AreSplit};
ghost use Rattle.remarked_source.specs.RemarkedText.{AreSplitText, IsRemarked, IsRemarkedText, is_beside};
ghost use Rattle.remarked_source.specs.RemarkedText.{has_text};
ghost use Rattle.remarked_source.specs.Views.{beside_view};

use crate::beside::Beside;
use crate::rows::rows;
use crate::splits::{Tables, with_halves};
use crate::strings::{is_text_mark, joined};
use assembler::assemble;
use bus::Image;
use marks_files::Split;
use model::Profile;
use named_source::{is_right, map_for};
use source_forms::Mark;
use std::alloc::{AllocError, Global};

/// The source with comments, or that without, of one that has some.
fn with_comments(
    alloc: Global,
    profile: Profile,
    image: &Image,
    beside: Beside<'_>,
    plain: Vec<u8>,
) -> Result<Vec<u8>, AllocError>
    ensures text { IfOk result (λ text. IsRemarked profile image.now (beside_view beside.entry)
        plain.items text.items) }
    ensures denotes { IfOk result (λ text. ((bus_map : Map) → bus_map.profile ≡ profile
        → has_port_byte bus_map image.now ≡ false → Denotes bus_map plain.items image.now)
        → (bus_map : Map) → bus_map.profile ≡ profile → has_port_byte bus_map image.now ≡ false
        → Denotes bus_map text.items image.now) }
{
    let Some(map) = map_for(profile) else {
        return Err(AllocError);
    };
    let Ok(assembly) = assemble(alloc, plain.as_slice(), &map) else {
        return Err(AllocError);
    };
    let text = rows(alloc, beside, image.cells(), &assembly)?;
    if is_right(alloc, profile, text.as_slice(), image)? {
        Ok(text)
    } else {
        Ok(plain)
    }
}

/// Whether something may stand beside the lines.
fn is_beside(beside: Beside<'_>) -> bool
    ensures { result ≡ is_beside (beside_view beside.entry) }
{
    beside.addresses || beside.remarks.len() > 0
}

/// Writes a source of an image with comments beside its lines: with `addresses` its address and its
/// first eight bytes beside each line that has some; and what is said of addresses, before the line
/// or behind it. If the source with them is no source of the image, as where it is longer than a
/// source may be, it is written without them.
///
/// If the source denotes the image under each map of the profile at whose port the image has no
/// byte, so does what is written, whatever the comments are. The only error is that a request for
/// memory was refused: a source of the image has no fault. Source: mos65.
pub fn remarked_text(
    alloc: Global,
    profile: Profile,
    image: &Image,
    beside: Beside<'_>,
    plain: Vec<u8>,
) -> Result<Vec<u8>, AllocError>
    ensures text { IfOk result (λ text. IsRemarkedText profile image.now
        (beside_view beside.entry) plain.items text.items) }
    ensures denotes { IfOk result (λ text. ((bus_map : Map) → bus_map.profile ≡ profile
        → has_port_byte bus_map image.now ≡ false → Denotes bus_map plain.items image.now)
        → (bus_map : Map) → bus_map.profile ≡ profile → has_port_byte bus_map image.now ≡ false
        → Denotes bus_map text.items image.now) }
{
    if is_beside(beside) {
        with_comments(alloc, profile, image, beside, plain)
    } else {
        Ok(plain)
    }
}

/// The source with the numbers that end its strings on their lines, or as it was.
fn with_joined(
    alloc: Global,
    profile: Profile,
    image: &Image,
    marks: &[Mark],
    plain: Vec<u8>,
) -> Result<Vec<u8>, AllocError>
    ensures text { IfOk result (λ text. AreJoined profile image.now marks.now plain.items
        text.items) }
    ensures denotes { IfOk result (λ text. ((bus_map : Map) → bus_map.profile ≡ profile
        → has_port_byte bus_map image.now ≡ false → Denotes bus_map plain.items image.now)
        → (bus_map : Map) → bus_map.profile ≡ profile → has_port_byte bus_map image.now ≡ false
        → Denotes bus_map text.items image.now) }
{
    let Some(map) = map_for(profile) else {
        return Err(AllocError);
    };
    let Ok(assembly) = assemble(alloc, plain.as_slice(), &map) else {
        return Err(AllocError);
    };
    let text = joined(alloc, marks, &assembly)?;
    if is_right(alloc, profile, text.as_slice(), image)? {
        Ok(text)
    } else {
        Ok(plain)
    }
}

/// Whether an address is marked as text.
fn has_text(marks: &[Mark]) -> bool
    ensures { result ≡ has_text marks.now }
{
    marks.iter().any(|mark| is_text_mark(*mark))
}

/// Writes a source of an image with the numbers that end its strings on their lines, as
/// `.BYTE "HI",$0D,$00`: of what stands behind letters those that are marked as text. If the source
/// with them is no source of the image, as where a line gets too long, it is written as it was.
///
/// If the source denotes the image under each map of the profile at whose port the image has no
/// byte, so does what is written. The only error is that a request for memory was refused: a source
/// of the image has no fault. Source: mos65.
pub fn joined_text(
    alloc: Global,
    profile: Profile,
    image: &Image,
    marks: &[Mark],
    plain: Vec<u8>,
) -> Result<Vec<u8>, AllocError>
    ensures text { IfOk result (λ text. AreJoinedText profile image.now marks.now plain.items
        text.items) }
    ensures denotes { IfOk result (λ text. ((bus_map : Map) → bus_map.profile ≡ profile
        → has_port_byte bus_map image.now ≡ false → Denotes bus_map plain.items image.now)
        → (bus_map : Map) → bus_map.profile ≡ profile → has_port_byte bus_map image.now ≡ false
        → Denotes bus_map text.items image.now) }
{
    if has_text(marks) {
        with_joined(alloc, profile, image, marks, plain)
    } else {
        Ok(plain)
    }
}

/// The source with labels in its tables in two halves, or as it was.
fn with_labels(
    alloc: Global,
    profile: Profile,
    image: &Image,
    splits: &[Split],
    plain: Vec<u8>,
) -> Result<Vec<u8>, AllocError>
    ensures text { IfOk result (λ text. AreSplit profile image.now splits.now plain.items
        text.items) }
    ensures denotes { IfOk result (λ text. ((bus_map : Map) → bus_map.profile ≡ profile
        → has_port_byte bus_map image.now ≡ false → Denotes bus_map plain.items image.now)
        → (bus_map : Map) → bus_map.profile ≡ profile → has_port_byte bus_map image.now ≡ false
        → Denotes bus_map text.items image.now) }
{
    let Some(map) = map_for(profile) else {
        return Err(AllocError);
    };
    let Ok(assembly) = assemble(alloc, plain.as_slice(), &map) else {
        return Err(AllocError);
    };
    let tables = Tables {
        cells: image.cells(),
        splits,
        assembly: &assembly,
    };
    let text = with_halves(alloc, tables)?;
    if is_right(alloc, profile, text.as_slice(), image)? {
        Ok(text)
    } else {
        Ok(plain)
    }
}

/// Whether there are tables in two halves.
fn are_there(splits: &[Split]) -> bool
    ensures { result ≡ nat_lt 0 (length splits.now) }
{
    splits.len() > 0
}

/// Writes a source of an image with labels in its tables in two halves, as `.BYTE <L_E050`, each
/// half on a line of its own, and with the labels that these need. If the source with them is no
/// source of the image, as where there would be more than 8,192 names, it is written as it was.
///
/// If the source denotes the image under each map of the profile at whose port the image has no
/// byte, so does what is written, whatever the tables are. The only error is that a request for
/// memory was refused: a source of the image has no fault. Source: mos65.
pub fn split_text(
    alloc: Global,
    profile: Profile,
    image: &Image,
    splits: &[Split],
    plain: Vec<u8>,
) -> Result<Vec<u8>, AllocError>
    ensures text { IfOk result (λ text. AreSplitText profile image.now splits.now plain.items
        text.items) }
    ensures denotes { IfOk result (λ text. ((bus_map : Map) → bus_map.profile ≡ profile
        → has_port_byte bus_map image.now ≡ false → Denotes bus_map plain.items image.now)
        → (bus_map : Map) → bus_map.profile ≡ profile → has_port_byte bus_map image.now ≡ false
        → Denotes bus_map text.items image.now) }
{
    if are_there(splits) {
        with_labels(alloc, profile, image, splits, plain)
    } else {
        Ok(plain)
    }
}
