//! The ranges of an image.

ghost use Rattle.std.specs.Prelude.{◌≡◌, ◌≤◌, IfOk, length, reverse};
ghost use Rattle.word_info.specs.Facts.{ranges_of};
ghost use Rattle.word_info.specs.Steps.{before_ranges, with_cell};

use std::alloc::{AllocError, Global};

/// The addresses of a maximal run of bytes.
#[derive(Clone, Copy)]
pub struct Range {
    /// The first address.
    pub first: u16,
    /// The last address.
    pub last: u16,
}

/// Puts an address before the ranges after it, of which the last is the next: it begins the next
/// range if that begins right after it, and is otherwise a range of its own.
fn put_before(ranges: &mut Vec<Range>, address: u16) -> Result<(), AllocError>
    ensures { IfOk result (λ _. reverse ranges.new.items
        ≡ before_ranges address (reverse ranges.old.items)) }
{
    match ranges.pop() {
        None => ranges.push(Range {
            first: address,
            last: address,
        })?,
        Some(next) => {
            if next.first as u32 == address as u32 + 1 {
                ranges.push(Range {
                    first: address,
                    last: next.last,
                })?;
            } else {
                ranges.push(next)?;
                ranges.push(Range {
                    first: address,
                    last: address,
                })?;
            }
        }
    }
    Ok(())
}

/// Puts the address of a cell before the ranges after it, if the cell is a byte.
fn put_cell(ranges: &mut Vec<Range>, address: u16, cell: Option<u8>) -> Result<(), AllocError>
    ensures { IfOk result (λ _. reverse ranges.new.items
        ≡ with_cell address cell (reverse ranges.old.items)) }
{
    match cell {
        None => Ok(()),
        Some(_) => put_before(ranges, address),
    }
}

/// Returns the ranges of an image's cells, in rising order.
#[tactic(auto, using(crate::proofs::RangesByAddress::turn, crate::proofs::RangesByAddress::none_yet), unfolding(crate::specs::Facts::ranges_of))]
pub fn ranges_of(alloc: Global, cells: &[Option<u8>]) -> Result<Vec<Range>, AllocError>
    requires { length cells.now ≤ 65536 }
    ensures { IfOk result (λ ranges. ranges.items ≡ ranges_of cells.now) }
{
    let mut ranges = Vec::new(alloc);
    let mut address = cells.len();
    while address > 0 {
        address -= 1;
        put_cell(&mut ranges, address as u16, cells[address])?;
    }
    ranges.reverse();
    Ok(ranges)
}
