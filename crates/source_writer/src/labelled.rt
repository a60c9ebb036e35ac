//! The whole source with labels.

ghost use Rattle.std.specs.Prelude.{◌≡◌, ℕ, suc, ◌+◌, ◌≤◌, ◌++◌, length, max, false, IfOk, OnOk};
ghost use Rattle.std.specs.List.{flat_map};
ghost use Rattle.source_forms.specs.Rows.{ended};
ghost use Rattle.source_forms.specs.Labels.{flagged_source, flags_of, labelled_lines};
ghost use Rattle.source_forms.specs.Labels.{labelled_source, table_of};
ghost use Rattle.model.specs.Layout.{most_names};

use crate::Mark;
use crate::flags::flags_of;
use crate::line::{push_label_line, push_opening, push_piece};
use crate::piece::piece_at;
use crate::stretch::cell_at;
use crate::table::{MOST_NAMES, is_named, left_after, table_of};
use bus::Image;
use model::Profile;
use std::alloc::{AllocError, Global};

/// Where the writer is: how many names are left, the address, and whether a line ends there.
#[derive(Clone, Copy)]
struct Progress {
    names: u32,
    address: usize,
    ends: bool,
}

/// What stands at an address: its line, after its label if it gets one, and after `*=` where no
/// line ends there; or nothing.
#[tactic(auto, using(crate::proofs::LabelledGoing::lines_gap, crate::proofs::LabelledGoing::lines_piece))]
fn push_at(
    out: &mut Vec<u8>,
    profile: Profile,
    cells: &[Option<u8>],
    marks: &[Mark],
    flags: &[bool],
    table: &[u8],
    place: Progress,
) -> Result<Progress, AllocError>
    requires size { length cells.now ≡ 65536 }
    requires near { place.address ≤ 131071 }
    ensures text { IfOk result (λ next. (n : ℕ) → out.new.items ++ flat_map ended
        (labelled_lines profile cells.now marks.now flags.now table.now n next.names next.address
        next.ends) ≡ out.old.items ++ flat_map ended (labelled_lines profile cells.now marks.now
        flags.now table.now (suc n) place.names place.address place.ends)) }
    ensures within { IfOk result (λ next. next.address ≤ max (place.address + 1) 65536) }
{
    let Some(byte) = cell_at(cells, place.address) else {
        return Ok(Progress {
            names: place.names,
            address: place.address + 1,
            ends: false,
        });
    };
    let address = place.address as u16;
    let piece = piece_at(profile, cells, marks, flags, address, byte);
    let named = is_named(flags, place.names, address, &piece);
    push_opening(out, address, place.ends)?;
    push_label_line(out, named, address)?;
    push_piece(out, profile, table, address, &piece)?;
    Ok(Progress {
        names: left_after(named, place.names),
        address: place.address + piece.len(),
        ends: true,
    })
}

/// All lines.
#[tactic(auto, using(crate::proofs::LabelledGoing::lines_end))]
fn push_lines(
    out: &mut Vec<u8>,
    profile: Profile,
    cells: &[Option<u8>],
    marks: &[Mark],
    flags: &[bool],
    table: &[u8],
) -> Result<(), AllocError>
    requires { length cells.now ≡ 65536 }
    ensures { OnOk result (out.new.items ≡ out.old.items ++ flat_map ended (labelled_lines
        profile cells.now marks.now flags.now table.now 65536 most_names 0 false)) }
{
    let mut place = Progress {
        names: MOST_NAMES,
        address: 0,
        ends: false,
    };
    let mut left = 65536u32;
    while left > 0 {
        place = push_at(out, profile, cells, marks, flags, table, place)?;
        left -= 1;
    }
    Ok(())
}

/// Writes the source of an image in a profile: `*=` before each range, then a line for each
/// instruction whose bytes are all marked as code, and `.BYTE` for what is none and for what is
/// marked as data or as text. An address, or the address before one to which RTS goes, is `.WORD`,
/// and so is a vector that is marked as data. An address without a mark is code.
///
/// The lines that are flagged get labels, `L_` and an address; operands of two bytes, branches and
/// words are written by label. A line of data ends before a label and before a vector.
///
/// The only error is that a request for memory was refused. Source: mos65.
#[tactic(auto, unfolding(source_forms::specs::Labels::flagged_source))]
pub fn write_flagged_source(
    alloc: Global,
    profile: Profile,
    image: &Image,
    marks: &[Mark],
    flags: &[bool],
) -> Result<Vec<u8>, AllocError>
    ensures { IfOk result
        (λ text. text.items ≡ flagged_source profile image.now marks.now flags.now) }
{
    let cells = image.cells();
    let table = table_of(alloc, profile, cells, marks, flags)?;
    let mut out = Vec::new(alloc);
    push_lines(&mut out, profile, cells, marks, flags, table.as_slice())?;
    Ok(out)
}

/// Writes the source of an image in a profile with labels at the lines that an operand of two
/// bytes, a branch or a vector refers to, as `write_flagged_source` writes it.
///
/// The only error is that a request for memory was refused. Source: mos65.
#[tactic(auto, unfolding(source_forms::specs::Labels::labelled_source))]
pub fn write_labelled_source(
    alloc: Global,
    profile: Profile,
    image: &Image,
    marks: &[Mark],
) -> Result<Vec<u8>, AllocError>
    ensures { IfOk result (λ text. text.items ≡ labelled_source profile image.now marks.now) }
{
    let flags = flags_of(alloc, profile, image.cells(), marks)?;
    write_flagged_source(alloc, profile, image, marks, flags.as_slice())
}
