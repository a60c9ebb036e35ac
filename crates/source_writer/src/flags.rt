//! The addresses that an image refers to.

ghost use Rattle.std.specs.Prelude.{◌≡◌, ℕ, suc, ◌+◌, ◌≤◌, [], length, max, IfOk};
ghost use Rattle.source_forms.specs.Labels.{flags_from, flags_of, no_flags, with_flag};

use crate::Mark;
use crate::piece::piece_at;
use crate::stretch::cell_at;
use model::Profile;
use std::alloc::{AllocError, Global};

/// Returns flags of which none is set. The only error is that a request for memory was refused.
pub fn no_flags(alloc: Global) -> Result<Vec<bool>, AllocError>
    ensures none { IfOk result (λ flags. flags.items ≡ no_flags) }
    ensures len { IfOk result (λ flags. length flags.items ≡ 65536) }
{
    let mut flags = Vec::with_capacity(alloc, 65536)?;
    for _ in 0..65536u32 {
        flags.push(false)?;
    }
    Ok(flags)
}

/// Flags an address, if there is one.
fn flag(flags: &mut Vec<bool>, address: Option<u16>)
    requires { length flags.old.items ≡ 65536 }
    ensures set { flags.new.items ≡ with_flag flags.old.items address }
    ensures len { length flags.new.items ≡ 65536 }
{
    if let Some(address) = address {
        flags[address as usize] = true;
    }
}

/// Flags what the piece at an address refers to, where there is a byte. The next address.
#[tactic(auto, using(crate::proofs::LabelledGoing::flags_gap, crate::proofs::LabelledGoing::flags_piece))]
fn flag_at(
    flags: &mut Vec<bool>,
    profile: Profile,
    cells: &[Option<u8>],
    marks: &[Mark],
    address: usize,
) -> usize
    requires size { length cells.now ≡ 65536 }
    requires len { length flags.old.items ≡ 65536 }
    requires near { address ≤ 131071 }
    ensures set { (n : ℕ) → flags_from profile cells.now marks.now n result flags.new.items
        ≡ flags_from profile cells.now marks.now (suc n) address flags.old.items }
    ensures len { length flags.new.items ≡ 65536 }
    ensures within { result ≤ max (address + 1) 65536 }
{
    let Some(byte) = cell_at(cells, address) else {
        return address + 1;
    };
    let piece = piece_at(profile, cells, marks, &[], address as u16, byte);
    flag(flags, piece.refers(address as u16));
    address + piece.len()
}

/// Returns the addresses that an image refers to. The only error is that a request for memory was
/// refused.
#[tactic(auto, unfolding(source_forms::specs::Labels::flags_of), using(crate::proofs::LabelledGoing::flags_end))]
pub fn flags_of(
    alloc: Global,
    profile: Profile,
    cells: &[Option<u8>],
    marks: &[Mark],
) -> Result<Vec<bool>, AllocError>
    requires { length cells.now ≡ 65536 }
    ensures exact { IfOk result (λ flags. flags.items ≡ flags_of profile cells.now marks.now) }
    ensures len { IfOk result (λ flags. length flags.items ≡ 65536) }
{
    let mut flags = no_flags(alloc)?;
    let mut address = 0usize;
    let mut left = 65536u32;
    while left > 0 {
        address = flag_at(&mut flags, profile, cells, marks, address);
        left -= 1;
    }
    Ok(flags)
}
