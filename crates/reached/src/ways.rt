//! Where control goes from an instruction.

ghost use Rattle.std.specs.Prelude.{◌≡◌, ◌+◌, ◌%◌, length};
ghost use Rattle.source_forms.specs.Rows.{stretch};
ghost use Rattle.reached.specs.Reached.{called_tail, comes_after, fits, goes_on, instruction_len};
ghost use Rattle.reached.specs.Reached.{jumps, no_way, odd_len, odd_ways, target_by, ways_at};
ghost use Rattle.reached.specs.Reached.{ways_from};

use crate::inline::{Inline, Tail, behind, tail_at};
use model::{Mnemonic, Mode, Profile, Row};
use optable::{branch_target, decode_in};
use source_forms::{Mark, Undocumented, undocumented_in};
use source_writer::byte_or_0;
use source_writer::stretch::{Bytes, stretch};

/// The addresses to which control can go from an instruction: that which it names, and the one
/// after it.
#[derive(Clone, Copy, Debug, PartialEq, Eq)]
pub struct Ways {
    /// The target of a branch, a jump or a call.
    pub target: Option<u16>,
    /// The next instruction, if control can come there.
    pub next: Option<u16>,
}

/// Whether control can come from an instruction to the one after it.
fn comes_after(mnemonic: Mnemonic) -> bool
    ensures { result ≡ comes_after mnemonic }
{
    match mnemonic {
        Mnemonic::Jmp | Mnemonic::Bra | Mnemonic::Brk | Mnemonic::Rti | Mnemonic::Rts => false,
        _ => true,
    }
}

/// Whether an instruction jumps or calls.
fn jumps(mnemonic: Mnemonic) -> bool
    ensures { result ≡ jumps mnemonic }
{
    match mnemonic {
        Mnemonic::Jmp | Mnemonic::Jsr => true,
        _ => false,
    }
}

/// The address that an instruction names and to which it can take control.
fn target_by(mnemonic: Mnemonic, mode: Mode, address: u16, second: u8, third: u8) -> Option<u16>
    ensures { result ≡ target_by mnemonic mode address second third }
{
    match mode {
        Mode::Abs => {
            if jumps(mnemonic) {
                Some(second as u16 + 256 * third as u16)
            } else {
                None
            }
        }
        Mode::Rel => Some(branch_target(address, second)),
        Mode::Imp | Mode::Acc | Mode::Imm | Mode::Zp | Mode::ZpX | Mode::ZpY => None,
        Mode::AbsX | Mode::AbsY | Mode::IndX | Mode::IndY | Mode::Ind | Mode::IndZ => None,
    }
}

/// Returns what follows the calls of an address, where it is called and something does.
pub fn called_tail(mnemonic: Mnemonic, routines: &[Inline], address: u16) -> Option<Tail>
    ensures { result ≡ called_tail mnemonic routines.now address }
{
    match mnemonic {
        Mnemonic::Jsr => tail_at(routines, address),
        _ => None,
    }
}

/// Returns where control goes on behind an instruction that ends before an address.
pub fn goes_on(cells: &[Option<u8>], tail: Option<Tail>, address: u16) -> Option<u16>
    requires { length cells.now ≡ 65536 }
    ensures { result ≡ goes_on cells.now tail address }
{
    match tail {
        None => Some(address),
        Some(tail) => behind(cells, tail, address),
    }
}

/// Returns the address after an instruction.
pub fn after(address: u16, len: u8) -> u16
    ensures { result ≡ (address + len) % 65536 }
{
    ((address as u32 + len as u32) % 65536) as u16
}

/// The ways from an instruction, by its second byte and its third.
fn ways_from(
    cells: &[Option<u8>],
    routines: &[Inline],
    address: u16,
    row: Row,
    second: u8,
    third: u8,
) -> Ways
    requires { length cells.now ≡ 65536 }
    ensures { result ≡ ways_from cells.now routines.now address row second third }
{
    let tail = called_tail(row.mnemonic, routines, second as u16 + 256 * third as u16);
    Ways {
        target: target_by(row.mnemonic, row.mode, address, second, third),
        next: if comes_after(row.mnemonic) {
            goes_on(cells, tail, after(address, row.len))
        } else {
            None
        },
    }
}

/// No ways.
fn no_way() -> Ways
    ensures { result ≡ no_way }
{
    Ways {
        target: None,
        next: None,
    }
}

/// Returns whether so many bytes are there, and none of them past the last address.
pub fn fits(address: u16, len: u8, count: usize) -> bool
    ensures { result ≡ fits address len count }
{
    (len as usize <= count) & (address as u32 + len as u32 <= 65536)
}

/// Returns the bytes that are code from an address on, at most three.
pub fn code_bytes(cells: &[Option<u8>], marks: &[Mark], address: u16) -> Bytes
    requires { length cells.now ≡ 65536 }
    ensures { result.items ≡ stretch cells.now marks.now Mark.Code 3 address }
{
    stretch(cells, marks, Mark::Code, address as usize, 3)
}

/// The ways from an undocumented instruction at an address.
fn odd_ways(address: u16, bytes: &[u8], odd: Option<Undocumented>) -> Ways
    ensures { result ≡ odd_ways address bytes.now odd }
{
    match odd {
        Some(odd) if fits(address, odd.len, bytes.len()) && !odd.stops => Ways {
            target: None,
            next: Some(after(address, odd.len)),
        },
        _ => no_way(),
    }
}

/// Returns the ways from an address: none where no instruction is.
#[tactic(auto, unfolding(crate::specs::Reached::ways_at))]
pub fn ways_at(
    profile: Profile,
    cells: &[Option<u8>],
    marks: &[Mark],
    routines: &[Inline],
    address: u16,
) -> Ways
    requires { length cells.now ≡ 65536 }
    ensures { result ≡ ways_at profile cells.now marks.now routines.now address }
{
    let bytes = code_bytes(cells, marks, address);
    let (first, second, third) = (
        byte_or_0(&bytes, 0),
        byte_or_0(&bytes, 1),
        byte_or_0(&bytes, 2),
    );
    match decode_in(profile, first) {
        None => odd_ways(address, &bytes, undocumented_in(profile, first)),
        Some(row) => {
            if fits(address, row.len, bytes.len()) {
                ways_from(cells, routines, address, row, second, third)
            } else {
                no_way()
            }
        }
    }
}

/// How many bytes an undocumented instruction at an address has, 1 where none is.
fn odd_len(address: u16, bytes: &[u8], odd: Option<Undocumented>) -> u8
    ensures { result ≡ odd_len address bytes.now odd }
{
    match odd {
        Some(odd) if fits(address, odd.len, bytes.len()) => odd.len,
        _ => 1,
    }
}

/// Returns how many bytes the instruction at an address has, 1 where no instruction is.
#[tactic(auto, unfolding(crate::specs::Reached::instruction_len))]
pub fn instruction_len(profile: Profile, cells: &[Option<u8>], marks: &[Mark], address: u16) -> u8
    requires { length cells.now ≡ 65536 }
    ensures { result ≡ instruction_len profile cells.now marks.now address }
{
    let bytes = code_bytes(cells, marks, address);
    let first = byte_or_0(&bytes, 0);
    match decode_in(profile, first) {
        None => odd_len(address, &bytes, undocumented_in(profile, first)),
        Some(row) => {
            if fits(address, row.len, bytes.len()) {
                row.len
            } else {
                1
            }
        }
    }
}
