//! A place by name or by number.

ghost use Rattle.std.specs.Prelude.{◌≡◌, option_map, position};
ghost use Rattle.loading.specs.Place.{base_of, decimal_of, front_of, hex_of, is_sign, marked};
ghost use Rattle.loading.specs.Place.{moved, named_address, names_of, number_of, place_by, place_of};
ghost use Rattle.loading.specs.Place.{sum_of, written_address};
ghost use Rattle.model.specs.Names.{number_in};

use crate::digits::{decimal_address, hex_address};
use assembler::Assembly;
use commands::address_of;

/// Returns the number of a name, if it is an address.
fn named_address(value: Option<i32>) -> Option<u16>
    ensures { result ≡ named_address value }
{
    match value {
        Some(value) if 0 <= value && value <= 65535 => Some(value as u16),
        _ => None,
    }
}

/// Returns the number that one hex digit or more write.
fn hex_of(digits: &[u8]) -> Option<u16>
    ensures { result ≡ hex_of digits.now }
{
    if digits.is_empty() {
        return None;
    }
    hex_address(digits)
}

/// Returns the number that one decimal digit or more write.
fn decimal_of(digits: &[u8]) -> Option<u16>
    ensures { result ≡ decimal_of digits.now }
{
    if digits.is_empty() {
        return None;
    }
    decimal_address(digits)
}

/// Returns the hex digits behind `$` or `0x`, if one of these comes first.
fn marked(word: &[u8]) -> Option<&[u8]>
    ensures { option_map (λ d. d.now) result ≡ marked word.now }
{
    match word {
        [b'$', digits @ ..] => Some(digits),
        [b'0', mark, digits @ ..] if *mark == b'x' || *mark == b'X' => Some(digits),
        _ => None,
    }
}

/// Returns the number that a word writes: `$` or `0x` and hex digits, or decimal digits.
fn number_of(word: &[u8]) -> Option<u16>
    ensures { result ≡ number_of word.now }
{
    match marked(word) {
        Some(digits) => hex_of(digits),
        None => decimal_of(word),
    }
}

/// Returns the address that `$` or `0x` and hex digits write, or four hex digits.
fn written_address(word: &[u8]) -> Option<u16>
    ensures { result ≡ written_address word.now }
{
    match marked(word) {
        Some(digits) => hex_of(digits),
        None => address_of(word),
    }
}

/// Returns the address of a name, or else the one that a word writes.
fn base_of(named: Option<u16>, word: &[u8]) -> Option<u16>
    ensures { result ≡ base_of named word.now }
{
    match named {
        Some(address) => Some(address),
        None => written_address(word),
    }
}

/// Returns an address with the number added or subtracted that is written behind it after a sign:
/// `None` if something else stands behind it.
pub fn moved(address: Option<u16>, text: &[u8]) -> Option<u16>
    ensures { result ≡ moved address text.now }
{
    let [sign, digits @ ..] = text else {
        return address;
    };
    match (address, number_of(digits)) {
        (Some(address), Some(number)) => {
            if *sign == b'+' {
                Some(address.wrapping_add(number))
            } else if *sign == b'-' {
                Some(address.wrapping_sub(number))
            } else {
                None
            }
        }
        _ => None,
    }
}

/// Returns whether a byte is `+` or `-`.
fn is_sign(byte: u8) -> bool
    ensures { result ≡ is_sign byte }
{
    byte == b'+' || byte == b'-'
}

/// Returns the index of the first sign of a word, if it has one.
fn sign_at(word: &[u8]) -> Option<usize>
    ensures { result ≡ position is_sign word.now }
{
    word.iter().position(|byte| is_sign(*byte))
}

/// Returns the name or the address of a word, which its first sign ends.
pub fn front_of(word: &[u8]) -> &[u8]
    ensures { result.now ≡ front_of word.now }
{
    match sign_at(word) {
        None => word,
        Some(at) => word.split_at(at).0,
    }
}

/// Returns the sum behind the name or the address of a word: no byte if there is none.
fn sum_of(word: &[u8]) -> &[u8]
    ensures { result.now ≡ sum_of word.now }
{
    match sign_at(word) {
        None => b"",
        Some(at) => word.split_at(at).1,
    }
}

/// Returns the address of a place, whose name may have an address: that of the name, or else of
/// four hex digits, or `$` or `0x` and hex digits; a number may be added or subtracted, as in
/// `loop+3` or `loop-$10`. Addresses wrap.
pub fn place_by(named: Option<u16>, word: &[u8]) -> Option<u16>
    ensures { result ≡ place_by named word.now }
{
    moved(base_of(named, front_of(word)), sum_of(word))
}

/// Returns the address of a name that a source defines, if there is one, and its number is an
/// address.
pub fn address_in(assembly: Option<&Assembly>, name: &[u8]) -> Option<u16>
    ensures { result ≡ named_address
        (number_in (names_of (option_map (λ a. a.now) assembly.entry)) name.now) }
{
    match assembly {
        None => None,
        Some(assembly) => named_address(assembly.value_of(name)),
    }
}

/// Returns the address of a place, or `None` if a word names none. Its name is one that the source
/// defines.
pub fn place_of(assembly: Option<&Assembly>, word: &[u8]) -> Option<u16>
    ensures { result ≡ place_of (names_of (option_map (λ a. a.now) assembly.entry)) word.now }
{
    place_by(address_in(assembly, front_of(word)), word)
}
