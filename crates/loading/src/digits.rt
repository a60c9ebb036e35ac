//! The numbers that digits write.

ghost use Rattle.std.specs.Prelude.{◌≡◌};
ghost use Rattle.loading.specs.Place.{as_address};
ghost use Rattle.model.specs.Digits.{decimal_number, hex_number};

use formatting::{decimal_value, hex_value};

/// Returns the number up to 65,535 that decimal digits write.
pub fn decimal_address(word: &[u8]) -> Option<u16>
    ensures { result ≡ as_address (decimal_number word.now) }
{
    let mut value = 0u32;
    for byte in word {
        let digit = decimal_value(*byte)?;
        value = value * 10 + digit as u32;
        if value > 65535 {
            return None;
        }
    }
    Some(value as u16)
}

/// Returns the number up to 65,535 that hex digits write.
pub fn hex_address(word: &[u8]) -> Option<u16>
    ensures { result ≡ as_address (hex_number word.now) }
{
    let mut value = 0u32;
    for byte in word {
        let digit = hex_value(*byte)?;
        value = value * 16 + digit as u32;
        if value > 65535 {
            return None;
        }
    }
    Some(value as u16)
}
