//! The regions of an image in which all bytes are the same.

ghost use Rattle.std.specs.Prelude.{◌≡◌, ◌≤◌, IfOk, filter, length, reverse};
ghost use Rattle.dump_faults.specs.Regions.{before_runs, equal_runs, is_long, regions_of};
ghost use Rattle.dump_faults.specs.Regions.{with_cell};

use memory_map::Image;
use std::alloc::{AllocError, Global};

/// A maximal run of equal bytes.
#[derive(Clone, Copy)]
pub struct Region {
    /// The first address.
    pub first: u16,
    /// The last address.
    pub last: u16,
    /// The byte at each of them.
    pub value: u8,
}

/// Puts a byte before the runs after it, of which the last is the next.
fn put_before(runs: &mut Vec<Region>, address: u16, byte: u8) -> Result<(), AllocError>
    ensures { IfOk result (λ _. reverse runs.new.items
        ≡ before_runs address byte (reverse runs.old.items)) }
{
    let alone = Region {
        first: address,
        last: address,
        value: byte,
    };
    match runs.pop() {
        None => runs.push(alone)?,
        Some(next) => {
            if next.first as u32 == address as u32 + 1 && next.value == byte {
                runs.push(Region {
                    first: address,
                    last: next.last,
                    value: byte,
                })?;
            } else {
                runs.push(next)?;
                runs.push(alone)?;
            }
        }
    }
    Ok(())
}

/// Puts a cell before the runs after it, if it is a byte.
fn put_cell(runs: &mut Vec<Region>, address: u16, cell: Option<u8>) -> Result<(), AllocError>
    ensures { IfOk result (λ _. reverse runs.new.items
        ≡ with_cell address cell (reverse runs.old.items)) }
{
    match cell {
        None => Ok(()),
        Some(byte) => put_before(runs, address, byte),
    }
}

/// Returns the maximal runs of equal bytes, in rising order.
#[tactic(auto, using(crate::proofs::Runs::turn, crate::proofs::Runs::none_yet))]
fn equal_runs(alloc: Global, cells: &[Option<u8>]) -> Result<Vec<Region>, AllocError>
    requires { length cells.now ≤ 65536 }
    ensures { IfOk result (λ runs. runs.items ≡ equal_runs 0 cells.now) }
{
    let mut runs = Vec::new(alloc);
    let mut address = cells.len();
    while address > 0 {
        address -= 1;
        put_cell(&mut runs, address as u16, cells[address])?;
    }
    runs.reverse();
    Ok(runs)
}

/// Returns whether a run has at least the bytes of a page.
fn is_long(run: Region) -> bool
    ensures { result ≡ is_long run }
{
    run.last.saturating_sub(run.first) as u32 + 1 >= 256
}

/// Returns those of some runs that have at least the bytes of a page.
fn long_runs(alloc: Global, runs: &[Region]) -> Result<Vec<Region>, AllocError>
    ensures { IfOk result (λ long. long.items ≡ filter is_long runs.now) }
{
    let mut long = Vec::new(alloc);
    for run in runs {
        if is_long(*run) {
            long.push(*run)?;
        }
    }
    Ok(long)
}

/// Returns the regions of one value, in rising order.
///
/// Errors: `AllocError` if an allocation fails.
#[tactic(auto, unfolding(crate::specs::Regions::regions_of))]
pub fn regions_of(alloc: Global, image: &Image) -> Result<Vec<Region>, AllocError>
    ensures { IfOk result (λ regions. regions.items ≡ regions_of image.now) }
{
    let runs = equal_runs(alloc, image.cells())?;
    long_runs(alloc, &runs)
}
