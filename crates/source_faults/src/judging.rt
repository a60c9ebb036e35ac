//! The value faults of all lines.

ghost use Rattle.std.specs.Prelude.{◌≡◌, length, IfOk, OnOk};
ghost use Rattle.line_parts.specs.KeptLines.{placed_line_of};
ghost use Rattle.model.specs.AllFaults.{but_of_place, image_after, is_of_place, judged_found};
ghost use Rattle.model.specs.AllFaults.{judged_line, made_after, nothing_made, value_kind};
ghost use Rattle.model.specs.Names.{number_in};
ghost use Rattle.source_faults.specs.Views.{made_of, found_all, judged_views, found_view, judged_view};
ghost use Rattle.source_faults.specs.Views.{made_view};

use crate::found::Found;
use bus::{Image, MapSpec};
use emission::{LineBytes, put_line, value_fault};
use line_parts::{KeptLine, LineError};
use model::AsmFaultKind;
use std::alloc::{AllocError, Global};
use symbols::Symbols;

/// The image so far, and whether a line since the last `*=` has a fault.
#[derive(Drop)]
pub struct Made {
    image: Image,
    moved: bool,
}

/// A line judged: its address, its fault of layout and its fault of values.
#[derive(Clone, Copy)]
pub struct Judged {
    pub address: u32,
    pub layout: Option<AsmFaultKind>,
    pub value: Option<AsmFaultKind>,
}

/// Whether a kind is one of where bytes stand.
fn is_of_place(kind: AsmFaultKind) -> bool
    ensures { result ≡ is_of_place kind }
{
    let number = kind.number();
    (24 <= number) & (number <= 26)
}

/// Returns a kind, if it is not one of where bytes stand.
pub fn but_of_place(kind: Option<AsmFaultKind>) -> Option<AsmFaultKind>
    ensures { result ≡ but_of_place kind }
{
    match kind {
        None => None,
        Some(kind) => { if is_of_place(kind) { None } else { Some(kind) } }
    }
}

/// The value fault of a line that denotes bytes; without one its bytes are put, unless it could be
/// moved.
fn judge_kept(
    gathered: &mut LineBytes,
    map: &MapSpec,
    names: &Symbols,
    image: &mut Image,
    moved: bool,
    line: &KeptLine<'_>,
) -> Result<Option<AsmFaultKind>, AllocError>
    ensures kind { IfOk result (λ kind. kind
        ≡ value_kind map.now (number_in names.now) (made_of image.old moved)
        (placed_line_of line.now)) }
    ensures image { IfOk result (λ kind. image.new
        ≡ image_after (number_in names.now) (made_of image.old moved) (placed_line_of line.now)
        kind) }
{
    if moved {
        let kind = value_fault(gathered, map, image, names, line)?;
        return Ok(but_of_place(kind));
    }
    match put_line(gathered, map, image, names, line) {
        Ok(()) => Ok(None),
        Err(LineError::Kind(kind)) => Ok(Some(kind)),
        Err(LineError::Memory) => Err(AllocError),
    }
}

/// A line that was found, judged after the lines before it.
fn judge_found(
    gathered: &mut LineBytes,
    map: &MapSpec,
    names: &Symbols,
    made: &mut Made,
    found: &Found<'_>,
) -> Result<Judged, AllocError>
    ensures judged { IfOk result (λ j. judged_view j ≡ judged_line (found_view found.now)
        (value_kind
        map.now (number_in names.now) (made_view made.old) (found_view found.now).place)) }
    ensures made { OnOk result (made_view made.new
        ≡ made_after (number_in names.now) (made_view made.old) (found_view found.now) (value_kind
        map.now (number_in names.now) (made_view made.old) (found_view found.now).place)) }
{
    match found {
        Found::Refused { address, kind } => {
            made.moved = true;
            Ok(Judged {
                address: *address,
                layout: Some(*kind),
                value: None,
            })
        }
        Found::Plain { address, begins } => {
            if *begins {
                made.moved = false;
            }
            Ok(Judged {
                address: *address,
                layout: None,
                value: None,
            })
        }
        Found::Bytes(line) => {
            let value = judge_kept(gathered, map, names, &mut made.image, made.moved, line)?;
            if value.is_some() {
                made.moved = true;
            }
            Ok(Judged {
                address: line.address,
                layout: None,
                value,
            })
        }
    }
}

/// The image without a byte.
fn nothing_made(alloc: Global) -> Result<Made, AllocError>
    ensures { IfOk result (λ made. made_view made ≡ nothing_made) }
{
    match Image::new(alloc) {
        Ok(image) => Ok(Made {
            image,
            moved: false,
        }),
        Err(_) => Err(AllocError),
    }
}

/// Returns all lines that were found, judged under the numbers of all names. The only error is that
/// a request for memory was refused.
pub fn judge(
    alloc: Global,
    map: &MapSpec,
    names: &Symbols,
    found: &[Found<'_>],
) -> Result<Vec<Judged>, AllocError>
    ensures exact { IfOk result (λ judged. judged_views judged.items
        ≡ judged_found map.now (number_in names.now) nothing_made (found_all found.now)) }
    ensures few { IfOk result (λ judged. length judged.items ≡ length found.now) }
{
    let mut made = nothing_made(alloc)?;
    let mut gathered = LineBytes::new(alloc);
    let mut judged = Vec::new(alloc);
    for line in found {
        let one = judge_found(&mut gathered, map, names, &mut made, line)?;
        judged.push(one)?;
    }
    Ok(judged)
}
