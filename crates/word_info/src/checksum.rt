//! Check sums: CRC-32, and the sum of bytes.

ghost use Rattle.std.specs.Prelude.{◌≡◌, IfOk, length};
ghost use Rattle.word_info.specs.Crc.{crc_32, crc_bit, crc_byte, crc_two_bits};
ghost use Rattle.word_info.specs.Facts.{bytes_of, checksums_of, sum_16, sums_of};

use crate::ranges::Range;
use std::alloc::{AllocError, Global};

/// The polynomial, with its low bit first. Source: IEEE 802.3.
const POLYNOMIAL: u32 = 0xedb8_8320;

/// Returns the register after one bit.
#[tactic(auto, unfolding(crate::specs::Crc::crc_bit))]
fn crc_bit(crc: u32) -> u32
    ensures { result ≡ crc_bit crc }
{
    if crc % 2 == 1 {
        (crc / 2) ^ POLYNOMIAL
    } else {
        crc / 2
    }
}

/// Returns the register after two bits.
fn crc_two_bits(crc: u32) -> u32
    ensures { result ≡ crc_two_bits crc }
{
    crc_bit(crc_bit(crc))
}

/// Returns the register after a byte.
#[tactic(auto, unfolding(crate::specs::Crc::crc_byte))]
fn crc_byte(crc: u32, byte: u8) -> u32
    ensures { result ≡ crc_byte crc byte }
{
    let begun = crc ^ byte as u32;
    crc_two_bits(crc_two_bits(crc_two_bits(crc_two_bits(begun))))
}

/// Returns the CRC-32 of some bytes.
///
/// Source: IEEE 802.3, as `crc32` prints it.
#[tactic(auto, unfolding(crate::specs::Crc::crc_32))]
pub fn crc_32(bytes: &[u8]) -> u32
    ensures { result ≡ crc_32 bytes.now }
{
    let mut crc = 0xffff_ffffu32;
    for byte in bytes {
        crc = crc_byte(crc, *byte);
    }
    crc ^ 0xffff_ffff
}

/// Returns the sum of some bytes, modulo 65,536. Its low byte is their sum modulo 256.
fn sum_16(bytes: &[u8]) -> u16
    ensures { result ≡ sum_16 bytes.now }
{
    let mut sum = 0u32;
    for byte in bytes {
        sum = (sum + *byte as u32) % 65536;
    }
    sum as u16
}

/// The check sums of a range.
#[derive(Clone, Copy, Debug, PartialEq, Eq)]
pub struct Sums {
    pub crc_32: u32,
    /// The sum of the bytes, modulo 65,536, as EPROM programmers show it.
    pub sum_16: u16,
}

/// Returns the check sums of some bytes.
fn sums_of(bytes: &[u8]) -> Sums
    ensures { result ≡ sums_of bytes.now }
{
    Sums {
        crc_32: crc_32(bytes),
        sum_16: sum_16(bytes),
    }
}

/// Returns the bytes of memory at the addresses of a range.
fn bytes_of(memory: &[u8], range: Range) -> &[u8]
    requires { length memory.now ≡ 65536 }
    ensures { result.now ≡ bytes_of memory.now range }
{
    let rest = memory.split_at(range.first as usize).1;
    let count = (range.last as usize + 1).saturating_sub(range.first as usize);
    if count > rest.len() {
        return rest;
    }
    rest.split_at(count).0
}

/// Returns the check sums of each range of a memory.
#[tactic(auto, unfolding(crate::specs::Facts::checksums_of))]
pub fn checksums_of(alloc: Global, memory: &[u8], ranges: &[Range]) -> Result<Vec<Sums>, AllocError>
    requires { length memory.now ≡ 65536 }
    ensures { IfOk result (λ sums. sums.items ≡ checksums_of memory.now ranges.now) }
{
    let mut sums = Vec::new(alloc);
    for range in ranges {
        sums.push(sums_of(bytes_of(memory, *range)))?;
    }
    Ok(sums)
}
