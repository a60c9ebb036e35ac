//! Which addresses get a label.

ghost use Rattle.std.specs.Prelude.{◌≡◌, ℕ, suc, ◌+◌, ◌<◌, ◌≤◌, length, max, true, IfOk};
ghost use Rattle.source_forms.specs.Labels.{flagged_within, is_named, left_after, no_labels};
ghost use Rattle.source_forms.specs.Labels.{table_from, table_of, with_reach};
ghost use Rattle.source_writer.specs.Views.{piece_view};

use crate::Mark;
use crate::piece::{Piece, is_flagged, piece_at};
use crate::stretch::cell_at;
use model::Profile;
use std::alloc::{AllocError, Global};

/// The most names that a source defines.
pub const MOST_NAMES: u32 = 8192;

/// Whether one of so many addresses from an address on is referred to.
fn flagged_within(flags: &[bool], reach: u8, address: usize) -> bool
    requires { address ≤ 65535 }
    ensures { result ≡ flagged_within flags.now reach address }
{
    let mut at = address;
    let mut left = reach;
    while left > 0 {
        if is_flagged(flags, at) {
            return true;
        }
        at += 1;
        left -= 1;
    }
    false
}

/// Returns whether a piece gets a label: it is referred to, and there are names left.
pub fn is_named(flags: &[bool], left: u32, address: u16, piece: &Piece) -> bool
    ensures { result ≡ is_named flags.now left address (piece_view piece.now) }
{
    (0 < left) & flagged_within(flags, piece.reach(), address as usize)
}

/// Returns how many names are left after a piece.
pub fn left_after(named: bool, left: u32) -> u32
    requires { named ≡ true → 0 < left }
    ensures exact { result ≡ left_after named left }
    ensures less { result ≤ left }
{
    if named { left - 1 } else { left }
}

/// No address has a label. The only error is that a request for memory was refused.
fn no_labels(alloc: Global) -> Result<Vec<u8>, AllocError>
    ensures none { IfOk result (λ table. table.items ≡ no_labels) }
    ensures len { IfOk result (λ table. length table.items ≡ 65536) }
{
    let mut table = Vec::with_capacity(alloc, 65536)?;
    for _ in 0..65536u32 {
        table.push(0)?;
    }
    Ok(table)
}

/// Gives an address a label, if its piece gets one.
fn set_reach(table: &mut Vec<u8>, named: bool, address: u16, reach: u8)
    requires { length table.old.items ≡ 65536 }
    ensures set { table.new.items ≡ with_reach named table.old.items address reach }
    ensures len { length table.new.items ≡ 65536 }
{
    if named {
        table[address as usize] = reach;
    }
}

/// Gives the piece at an address its label, if it gets one. How many names are left, and the next
/// address.
#[tactic(auto, using(crate::proofs::LabelledGoing::table_gap, crate::proofs::LabelledGoing::table_piece))]
fn name_at(
    table: &mut Vec<u8>,
    profile: Profile,
    cells: &[Option<u8>],
    marks: &[Mark],
    flags: &[bool],
    left: u32,
    address: usize,
) -> (u32, usize)
    requires size { length cells.now ≡ 65536 }
    requires len { length table.old.items ≡ 65536 }
    requires near { address ≤ 131071 }
    ensures set { (n : ℕ) → table_from profile cells.now marks.now flags.now n result.0 result.1
        table.new.items
        ≡ table_from profile cells.now marks.now flags.now (suc n) left address table.old.items }
    ensures len { length table.new.items ≡ 65536 }
    ensures within { result.1 ≤ max (address + 1) 65536 }
{
    let Some(byte) = cell_at(cells, address) else {
        return (left, address + 1);
    };
    let piece = piece_at(profile, cells, marks, flags, address as u16, byte);
    let named = is_named(flags, left, address as u16, &piece);
    set_reach(table, named, address as u16, piece.reach());
    (left_after(named, left), address + piece.len())
}

/// Returns how far the label of each address reaches. The only error is that a request for memory
/// was refused.
#[tactic(auto, unfolding(source_forms::specs::Labels::table_of), using(crate::proofs::LabelledGoing::table_end))]
pub fn table_of(
    alloc: Global,
    profile: Profile,
    cells: &[Option<u8>],
    marks: &[Mark],
    flags: &[bool],
) -> Result<Vec<u8>, AllocError>
    requires { length cells.now ≡ 65536 }
    ensures { IfOk result (λ table. table.items
        ≡ table_of profile cells.now marks.now flags.now) }
{
    let mut table = no_labels(alloc)?;
    let mut names = MOST_NAMES;
    let mut address = 0usize;
    let mut left = 65536u32;
    while left > 0 {
        let next = name_at(&mut table, profile, cells, marks, flags, names, address);
        names = next.0;
        address = next.1;
        left -= 1;
    }
    Ok(table)
}
