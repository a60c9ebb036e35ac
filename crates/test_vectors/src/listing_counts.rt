//! Lists and assembles again, in each profile: each first byte with 64 pairs of further bytes, at 8
//! addresses each.

use anyhow::Result;
use named_source::{Profile, listed_again};
use std::alloc::Global;

/// The first bytes of both pages' ends, where a branch wraps, and where an instruction no longer
/// fits.
const ADDRESSES: [u16; 8] = [
    0x0000, 0x0001, 0x00fe, 0x02fd, 0x8000, 0xfffd, 0xfffe, 0xffff,
];

/// The bytes after the first: the ends of the zero page, of a branch's way, and some between.
const FURTHER: [u8; 8] = [0x00, 0x01, 0x10, 0x7f, 0x80, 0xf0, 0xfe, 0xff];

/// How many rows of a first byte come back in a profile as the bytes that they show.
fn count_of(alloc: Global, profile: Profile, first: u8) -> Result<u32> {
    let mut count = 0u32;
    for address in ADDRESSES {
        for second in FURTHER {
            for third in FURTHER {
                let bytes = [first, second, third];
                let line = listed_again(alloc, profile, &bytes, address).map_err(
                    |fault| fault.kind,
                )?;
                let len = line.count as usize;
                if len >= 1 && len <= 3 && line.bytes[..len] == bytes[..len] {
                    count = count.wrapping_add(1);
                }
            }
        }
    }
    Ok(count)
}

/// Writes for each profile how many rows come back as the bytes that they show.
pub fn write_counts(rt: HostRuntime) -> Result<()> {
    for (profile, name) in [(Profile::N, "N"), (Profile::C, "C")] {
        let mut count = 0u32;
        for first in 0..=255u8 {
            count = count.wrapping_add(count_of(rt.alloc(), profile, first)?);
        }
        println!(rt; "{name}: {count} of 131072 rows assembled to the bytes that they show")?;
    }
    Ok(())
}
