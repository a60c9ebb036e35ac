//! The values of digits.

ghost use Rattle.std.specs.Prelude.{◌≡◌, ◌≤◌, IfSome};
ghost use Rattle.model.specs.Digits.{decimal_value, hex_value};

/// Returns the value of a hex digit in either letter case, or `None` for any other byte.
pub fn hex_value(byte: u8) -> Option<u8>
    ensures value { result ≡ hex_value byte }
    ensures within { IfSome result (λ digit. digit ≤ 15) }
{
    match byte {
        b'A'..=b'F' => Some(byte - 55),
        b'a'..=b'f' => Some(byte - 87),
        b'0'..=b'9' => Some(byte - 48),
        _ => None,
    }
}

/// Returns the value of a decimal digit, or `None` for any other byte.
pub fn decimal_value(byte: u8) -> Option<u8>
    ensures value { result ≡ decimal_value byte }
    ensures within { IfSome result (λ digit. digit ≤ 9) }
{
    match byte {
        b'0'..=b'9' => Some(byte - 48),
        _ => None,
    }
}
