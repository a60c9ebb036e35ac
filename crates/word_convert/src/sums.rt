//! A byte that makes the sum of an image 0.

ghost use Rattle.std.specs.Prelude.{◌≡◌, ◌+◌, ◌-◌, ◌%◌, ◌<◌, ◌≤◌, IfNone, IfSome, Some, length};
ghost use Rattle.std.specs.List.{sum_by};
ghost use Rattle.model.specs.Image.{cell_at};
ghost use Rattle.word_convert.specs.Sums.{HasNoByteAt, IsSummed, cell_value};

use memory_map::Image;

/// Returns what a cell adds to a sum.
fn cell_value(cell: Option<u8>) -> u32
    ensures value { result ≡ cell_value cell }
    ensures small { result ≤ 255 }
{
    match cell {
        None => 0,
        Some(byte) => byte as u32,
    }
}

/// Returns the sum of the bytes of an image.
#[tactic(auto, using(crate::proofs::Summed::summed_one_more))]
fn sum_of(cells: &[Option<u8>]) -> u32
    requires { length cells.now ≡ 65536 }
    ensures { result ≡ sum_by cell_value cells.now }
{
    let mut sum = 0u32;
    for cell in cells {
        sum += cell_value(*cell);
    }
    sum
}

/// Returns the byte with which a sum is 0, modulo 256, in place of one that is in it.
fn right_byte(sum: u32, byte: u8) -> u8
    requires { byte ≤ sum }
    ensures zero { (sum - byte + result) % 256 ≡ 0 }
    ensures small { result < 256 }
{
    ((256 - (sum - byte as u32) % 256) % 256) as u8
}

/// Puts the byte with which the bytes of an image sum to 0 in place of one.
fn put_right_byte(part: &mut Image, address: u16, byte: u8)
    requires { cell_at part.old address ≡ Some byte }
    ensures { IsSummed (Some address) part.old part.new }
{
    let sum = sum_of(part.cells());
    let right = right_byte(sum, byte);
    part.put(address, right);
}

/// Returns an image whose byte at an address makes the sum of all its bytes 0, modulo 256; the
/// image as it is if no address is said. Returns `None` if it has no byte there.
pub fn with_sum(part: Image, address: Option<u16>) -> Option<Image>
    ensures summed { IfSome result (IsSummed address part) }
    ensures none { IfNone result (HasNoByteAt address part) }
{
    let mut part = part;
    let Some(address) = address else {
        return Some(part);
    };
    match part.get(address) {
        None => None,
        Some(byte) => {
            put_right_byte(&mut part, address, byte);
            Some(part)
        }
    }
}
