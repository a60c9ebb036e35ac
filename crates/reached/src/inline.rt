//! What stands behind calls.

ghost use Rattle.std.specs.Prelude.{◌≡◌, ◌==◌, length, nat_le};
ghost use Rattle.model.specs.Image.{cell_at};
ghost use Rattle.reached.specs.Reached.{behind, behind_counted, behind_high, behind_zero, tail_at};

use source_writer::stretch::cell_at;

/// What follows each call of a routine.
#[derive(Clone, Copy, Debug, PartialEq, Eq)]
pub enum Tail {
    /// A string that ends in 0.
    String,
    /// The length of a string in a byte, and the string.
    Counted,
    /// A string whose last byte has bit 7.
    HighBit,
    /// So many bytes.
    Bytes(u16),
}

/// A routine whose calls are followed by data. It comes back behind them.
#[derive(Clone, Copy, Debug, PartialEq, Eq)]
pub struct Inline {
    /// The routine's address.
    pub address: u16,
    /// What follows its calls.
    pub tail: Tail,
}

/// Whether a string ends with a byte.
fn is_end(byte: u8) -> bool
    ensures { result ≡ (byte == 0) }
{
    byte == 0
}

/// The address behind the first 0 from an address on, if no byte before it is missing.
fn behind_zero(cells: &[Option<u8>], address: u16) -> Option<u16>
    requires { length cells.now ≡ 65536 }
    ensures { result ≡ behind_zero cells.now 65536 address }
{
    let mut at = address as usize;
    let mut left = 65536u32;
    while left > 0 {
        let Some(byte) = cell_at(cells, at) else {
            return None;
        };
        if is_end(byte) {
            return Some(((at as u32 + 1) % 65536) as u16);
        }
        at += 1;
        left -= 1;
    }
    None
}

/// Whether a byte has bit 7.
fn has_high_bit(byte: u8) -> bool
    ensures { result ≡ nat_le 128 byte }
{
    128 <= byte
}

/// The address behind the first byte with bit 7 from an address on, if no byte before it is
/// missing.
fn behind_high(cells: &[Option<u8>], address: u16) -> Option<u16>
    requires { length cells.now ≡ 65536 }
    ensures { result ≡ behind_high cells.now 65536 address }
{
    let mut at = address as usize;
    let mut left = 65536u32;
    while left > 0 {
        let Some(byte) = cell_at(cells, at) else {
            return None;
        };
        if has_high_bit(byte) {
            let behind = (at as u32 + 1) % 65536;
            return Some(behind as u16);
        }
        at += 1;
        left -= 1;
    }
    None
}

/// The address behind a string whose length stands at an address, if that byte is there.
fn behind_counted(cells: &[Option<u8>], address: u16) -> Option<u16>
    requires { length cells.now ≡ 65536 }
    ensures { result ≡ behind_counted address (cell_at cells.now address) }
{
    match cell_at(cells, address as usize) {
        Some(count) => Some(((address as u32 + 1 + count as u32) % 65536) as u16),
        None => None,
    }
}

/// Returns the address behind what stands at an address.
pub fn behind(cells: &[Option<u8>], tail: Tail, address: u16) -> Option<u16>
    requires { length cells.now ≡ 65536 }
    ensures { result ≡ behind cells.now tail address }
{
    match tail {
        Tail::String => behind_zero(cells, address),
        Tail::Counted => behind_counted(cells, address),
        Tail::HighBit => behind_high(cells, address),
        Tail::Bytes(count) => Some(((address as u32 + count as u32) % 65536) as u16),
    }
}

/// Returns what follows the calls of an address, if something does.
pub fn tail_at(routines: &[Inline], address: u16) -> Option<Tail>
    ensures { result ≡ tail_at routines.now address }
{
    for routine in routines {
        if routine.address == address {
            return Some(routine.tail);
        }
    }
    None
}
