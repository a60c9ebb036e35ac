//! The facts of an image.

ghost use Rattle.std.specs.Prelude.{◌≡◌, ℕ, ◌+◌, ◌<◌, ◌≤◌, List, Option, IfOk, None, is_some, length};
ghost use Rattle.image_files.specs.FreeBase.{IsFreeBase};
ghost use Rattle.std.specs.List.{count_by};
ghost use Rattle.model.specs.Tape.{TapeDenotes, count_of};
ghost use Rattle.model.specs.State.{memory_of};
ghost use Rattle.word_info.specs.Facts.{address_in, bytes_among, checksums_of, data_records};
ghost use Rattle.word_info.specs.Facts.{largest_gap, ranges_of, vector_at};
ghost use Rattle.dump_faults.specs.Faults.{stuck_lines};
ghost use Rattle.dump_faults.specs.Regions.{regions_of};

use crate::checksum::{Sums, checksums_of};
use crate::gaps::{Gap, largest_gap};
use crate::ranges::{Range, ranges_of};
use dump_faults::{Region, Stuck, regions_of, stuck_lines};
use image_files::free_base;
use memory_map::{Image, MapSpec, memory_of};
use std::alloc::{AllocError, Global};

/// What is to be known of an image.
#[derive(Drop)]
pub struct Facts {
    /// The ranges, in rising order.
    pub ranges: Vec<Range>,
    /// The check sums of each range.
    pub checksums: Vec<Sums>,
    /// The regions in which all bytes are the same.
    pub regions: Vec<Region>,
    /// The data lines that have one value in all bytes, and the address lines without effect.
    pub lines: Vec<Stuck>,
    /// How many bytes there are.
    pub bytes: u32,
    /// The largest gap between two ranges, if there are two.
    pub gap: Option<Gap>,
    /// How many bytes stand in page 0.
    pub in_page_0: u32,
    /// How many bytes stand in page 1.
    pub in_page_1: u32,
    /// How many bytes stand at the port's four addresses.
    pub at_port: u32,
    /// The lowest base at which a port would meet no byte, if there is one.
    pub free_base: Option<u16>,
    /// The address in the NMI vector at $FFFA, if both its bytes are there.
    pub nmi: Option<u16>,
    /// The address in the reset vector at $FFFC, if both its bytes are there.
    pub reset: Option<u16>,
    /// The address in the IRQ vector at $FFFE, if both its bytes are there.
    pub irq: Option<u16>,
}

/// Counts the bytes among some cells.
fn count_bytes(cells: &[Option<u8>]) -> u32
    requires { length cells.now ≤ 65536 }
    ensures { result ≡ count_by is_some cells.now }
{
    let mut count = 0u32;
    for cell in cells {
        if cell.is_some() {
            count += 1;
        }
    }
    count
}

/// Counts the bytes at so many addresses from a first one on.
#[tactic(auto, unfolding(crate::specs::Facts::bytes_among))]
fn bytes_among(cells: &[Option<u8>], first: usize, count: usize) -> u32
    requires size { length cells.now ≡ 65536 }
    requires inside { first ≤ 65536 }
    ensures { result ≡ bytes_among cells.now first count }
{
    let rest = cells.split_at(first).1;
    if count < rest.len() {
        return count_bytes(rest.split_at(count).0);
    }
    count_bytes(rest)
}

/// Returns two bytes as an address, the low byte first, if both are there.
fn address_in(low: Option<u8>, high: Option<u8>) -> Option<u16>
    ensures { result ≡ address_in low high }
{
    match (low, high) {
        (Some(low), Some(high)) => Some(low as u16 + 256 * high as u16),
        _ => None,
    }
}

/// Returns the address in a vector, if both its bytes are there.
fn vector_at(image: &Image, address: u16) -> Option<u16>
    requires { address < 65535 }
    ensures { result ≡ vector_at image.now address }
{
    address_in(image.get(address), image.get(address + 1))
}

/// Returns the facts of an image, with those of a map's port.
///
/// Errors: `AllocError` if an allocation fails.
pub fn facts_of(alloc: Global, image: &Image, map: &MapSpec) -> Result<Facts, AllocError>
    ensures ranges { IfOk result (λ f. f.ranges.items ≡ ranges_of image.now) }
    ensures checksums { IfOk result
        (λ f. f.checksums.items ≡ checksums_of (memory_of image.now) (ranges_of image.now)) }
    ensures regions { IfOk result (λ f. f.regions.items ≡ regions_of image.now) }
    ensures lines { IfOk result (λ f. f.lines.items ≡ stuck_lines image.now) }
    ensures bytes { IfOk result (λ f. f.bytes ≡ bytes_among image.now 0 65536) }
    ensures gap { IfOk result (λ f. f.gap ≡ largest_gap (ranges_of image.now)) }
    ensures page_0 { IfOk result (λ f. f.in_page_0 ≡ bytes_among image.now 0 256) }
    ensures page_1 { IfOk result (λ f. f.in_page_1 ≡ bytes_among image.now 256 256) }
    ensures port { IfOk result (λ f. f.at_port ≡ bytes_among image.now map.now.port 4) }
    ensures free { IfOk result (λ f. IsFreeBase None image.now f.free_base) }
    ensures nmi { IfOk result (λ f. f.nmi ≡ vector_at image.now 65530) }
    ensures reset { IfOk result (λ f. f.reset ≡ vector_at image.now 65532) }
    ensures irq { IfOk result (λ f. f.irq ≡ vector_at image.now 65534) }
{
    let cells = image.cells();
    let ranges = ranges_of(alloc, cells)?;
    let memory = memory_of(alloc, image)?;
    let checksums = checksums_of(alloc, &memory, &ranges)?;
    let regions = regions_of(alloc, image)?;
    let lines = stuck_lines(alloc, image)?;
    let gap = largest_gap(&ranges);
    Ok(Facts {
        ranges,
        checksums,
        regions,
        lines,
        bytes: bytes_among(cells, 0, 65536),
        gap,
        in_page_0: bytes_among(cells, 0, 256),
        in_page_1: bytes_among(cells, 256, 256),
        at_port: bytes_among(cells, map.port() as usize, 4),
        free_base: free_base(None, image),
        nmi: vector_at(image, 0xfffa),
        reset: vector_at(image, 0xfffc),
        irq: vector_at(image, 0xfffe),
    })
}

/// Returns how many data records a right tape has: one fewer than it has `;`.
#[tactic(auto, unfolding(crate::specs::Facts::data_records))]
pub fn data_records(text: &[u8]) -> usize
    ensures count { result ≡ data_records text.now }
    // Those are the tape's data records, however it is read.
    ensures records { (cells : List (Option ℕ)) → (tape : TapeDenotes text.now cells)
        → result ≡ count_of tape.pieces }
{
    let mut count = 0usize;
    for byte in text {
        if *byte == b';' {
            count += 1;
        }
    }
    count.saturating_sub(1)
}
