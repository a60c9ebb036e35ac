//! The numbers of a command line.

ghost use Rattle.std.specs.Prelude.{◌≡◌, ◌≤◌, length};
ghost use Rattle.model.specs.Digits.{decimal_number};
ghost use Rattle.model.specs.Commands.{address_of, byte_of, decimal_of, from_1_to};

use formatting::{decimal_value, hex_value};

/// Returns the address that exactly four hex digits write; otherwise `None`. Source: mos65.
pub fn address_of(word: &[u8]) -> Option<u16>
    ensures { result ≡ address_of word.now }
{
    let [a, b, c, d] = word else {
        return None;
    };
    let a = hex_value(*a)? as u16;
    let b = hex_value(*b)? as u16;
    let c = hex_value(*c)? as u16;
    let d = hex_value(*d)? as u16;
    Some(((a * 16 + b) * 16 + c) * 16 + d)
}

/// Returns the byte that exactly two hex digits write; otherwise `None`. Source: mos65.
pub fn byte_of(word: &[u8]) -> Option<u8>
    ensures { result ≡ byte_of word.now }
{
    let [a, b] = word else {
        return None;
    };
    let a = hex_value(*a)?;
    let b = hex_value(*b)?;
    Some(a * 16 + b)
}

/// Returns the number that at most seven decimal digits write.
///
/// Returns `None` if a byte is not a digit. Source: mos65.
pub fn digits(word: &[u8]) -> Option<u32>
    requires { length word.now ≤ 7 }
    ensures { result ≡ decimal_number word.now }
{
    let mut value = 0u32;
    for byte in word {
        let digit = decimal_value(*byte)?;
        value = value * 10 + digit as u32;
    }
    Some(value)
}

/// Returns the number that one to seven decimal digits write.
#[tactic(auto, unfolding(model::specs::Commands::decimal_of))]
pub fn decimal_of(word: &[u8]) -> Option<u32>
    ensures { result ≡ decimal_of word.now }
{
    if word.is_empty() || word.len() > 7 {
        return None;
    }
    digits(word)
}

/// Returns the number that one to seven decimal digits write, if it is in 1..`highest`.
pub fn number_up_to(highest: u32, word: &[u8]) -> Option<u32>
    ensures { result ≡ from_1_to highest (decimal_of word.now) }
{
    match decimal_of(word) {
        Some(number) if 1 <= number && number <= highest => Some(number),
        _ => None,
    }
}
