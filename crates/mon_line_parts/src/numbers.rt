//! Numbers as sources write them.

ghost use Rattle.std.specs.Prelude.{◌≡◌};
ghost use Rattle.mon_line_parts.specs.Reading.{digit_in, number_in};

use formatting::hex_value;

/// The value of a digit of a base.
fn digit_in(base: u32, byte: u8) -> Option<u32>
    ensures { result ≡ digit_in base byte }
{
    match hex_value(byte) {
        Some(digit) if (digit as u32) < base => Some(digit as u32),
        _ => None,
    }
}

/// Returns the number of some digits in a base, at most 2^32 - 1. `None` if there is no digit, or
/// one that is none of the base.
#[tactic(auto, unfolding(crate::specs::Reading::number_in))]
pub fn number_in(base: u32, digits: &[u8]) -> Option<u32>
    ensures { result ≡ number_in base digits.now }
{
    if digits.is_empty() {
        return None;
    }
    let mut number = 0u32;
    for byte in digits {
        let value = digit_in(base, *byte)?;
        number = number.saturating_mul(base).saturating_add(value);
    }
    Some(number)
}
