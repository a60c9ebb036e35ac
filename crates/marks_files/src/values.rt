//! Ranges and routines, as words of the command line and lines of a file of marks write them.

ghost use Rattle.std.specs.Prelude.{◌≡◌, ◌==◌, ◌≤◌, ◌&&◌, get_or, length, nat_le, true};
ghost use Rattle.model.specs.Commands.{address_of, from_1_to};
ghost use Rattle.marks_files.specs.Values.{addresses_of, count_of, letter_of, number_of};
ghost use Rattle.marks_files.specs.Values.{range_of, routine_from, routine_of, tail_of};

use commands::{address_of, digits};
use reached::{Inline, Tail};

/// Returns two addresses, the first at most the last, or `None` where a word writes none.
pub fn addresses(low: &[u8], high: &[u8]) -> Option<(u16, u16)>
    ensures { result ≡ addresses_of (address_of low.now) (address_of high.now) }
{
    match (address_of(low), address_of(high)) {
        (Some(first), Some(last)) => {
            if first <= last {
                Some((first, last))
            } else {
                None
            }
        }
        _ => None,
    }
}

/// Returns the addresses of `LO-HI`, or `None` for any other word.
pub fn range(word: &[u8]) -> Option<(u16, u16)>
    ensures { result ≡ range_of word.now }
{
    if word.len() != 9 || word[4] != b'-' {
        return None;
    }
    addresses(&word[..4], &word[5..])
}

/// A number from 1 to 65,535.
fn count_from_1(number: Option<u32>) -> Option<u16>
    ensures { result ≡ from_1_to 65535 number }
{
    match number {
        Some(count) => {
            if 1 <= count && count <= 65535 {
                Some(count as u16)
            } else {
                None
            }
        }
        None => None,
    }
}

/// Returns the number from 1 to 65,535 that a word writes, or `None` for any other word.
pub fn number_of(word: &[u8]) -> Option<u16>
    ensures { result ≡ number_of word.now }
{
    if word.len() > 5 {
        return None;
    }
    count_from_1(digits(word))
}

/// A count of bytes.
fn count_of(word: &[u8]) -> Option<Tail>
    ensures { result ≡ count_of word.now }
{
    match number_of(word) {
        Some(count) => Some(Tail::Bytes(count)),
        None => None,
    }
}

/// The string that a letter stands for.
fn letter_of(letter: u8) -> Option<Tail>
    ensures { result ≡ letter_of letter }
{
    if letter == b'z' {
        Some(Tail::String)
    } else if letter == b'n' {
        Some(Tail::Counted)
    } else if letter == b'h' {
        Some(Tail::HighBit)
    } else {
        None
    }
}

/// A string by its letter, or a count of bytes.
fn tail_of(word: &[u8]) -> Option<Tail>
    ensures { result ≡ tail_of word.now }
{
    if word.len() == 1 {
        match letter_of(word[0]) {
            Some(tail) => Some(tail),
            None => count_of(word),
        }
    } else {
        count_of(word)
    }
}

/// A routine by its address and its tail.
fn routine_from(address: Option<u16>, tail: Option<Tail>) -> Option<Inline>
    ensures { result ≡ routine_from address tail }
{
    match (address, tail) {
        (Some(address), Some(tail)) => Some(Inline { address, tail }),
        _ => None,
    }
}

/// Whether a word has four bytes before a `=`, and some behind it.
fn has_mark(word: &[u8]) -> bool
    ensures exact { result ≡ (nat_le 6 (length word.now) && (get_or word.now 4 0 == 61)) }
    ensures long { result ≡ true → 6 ≤ length word.now }
{
    6 <= word.len() && word[4] == b'='
}

/// Returns the routine of `ADDRESS=z`, `ADDRESS=n`, `ADDRESS=h` or `ADDRESS=N`, or `None` for any
/// other word.
pub fn routine(word: &[u8]) -> Option<Inline>
    ensures { result ≡ routine_of word.now }
{
    if has_mark(word) {
        routine_from(address_of(&word[..4]), tail_of(&word[5..]))
    } else {
        None
    }
}
