//! The records of a tape by their digits, and what is to be said of an end record.

ghost use Rattle.std.specs.Prelude.{◌≡◌, ◌+◌, ◌*◌, ◌<◌, ◌≤◌, drop, length, slice_index, sum, take};
ghost use Rattle.std.specs.List.{list_all};
ghost use Rattle.std.specs.Option.{option_map};
ghost use Rattle.model.specs.Digits.{digit_value, is_hex_byte};
ghost use Rattle.model.specs.Tape.{AreAllDigits, bytes_of_digits, claim_of, needed};
ghost use Rattle.tape_words.specs.Records.{claim_in_front, end_by, end_record};
ghost use Rattle.tape_words.specs.Records.{numbers_at, numbers_of};

use formatting::hex_value;

/// Returns the value of a hex digit; 0 for a byte that is none.
fn digit_value(byte: u8) -> u32
    ensures value { result ≡ digit_value byte }
    ensures small { result ≤ 15 }
{
    hex_value(byte).unwrap_or(0) as u32
}

/// Returns whether all of some bytes are hex digits.
pub fn are_digits(bytes: &[u8]) -> bool
    ensures { result ≡ list_all is_hex_byte bytes.now }
{
    let mut all = true;
    for byte in bytes {
        all &= byte.is_ascii_hexdigit();
    }
    all
}

/// Returns how many digits a record has that begins with these.
fn needed(digits: &[u8]) -> usize
    ensures { result ≡ needed digits.now }
{
    match digits {
        [high, low, ..] => 10 + 2 * (digit_value(*high) * 16 + digit_value(*low)) as usize,
        _ => 10,
    }
}

/// Returns a byte that the digits of a record write, by its index.
#[tactic(auto, using(crate::proofs::RecordBytes::byte_there))]
fn byte_at(digits: &[u8], index: usize) -> u32
    requires { 2 * index + 1 < length digits.now }
    ensures value { result ≡ slice_index (bytes_of_digits digits.now) index }
    ensures small { result ≤ 255 }
{
    digit_value(digits[2 * index]) * 16 + digit_value(digits[2 * index + 1])
}

/// Returns the number that two of the bytes are, the high byte first.
fn word_at(digits: &[u8], index: usize) -> u32
    requires { 2 * index + 3 < length digits.now }
    ensures { result ≡ slice_index (bytes_of_digits digits.now) index * 256
        + slice_index (bytes_of_digits digits.now) (index + 1) }
{
    byte_at(digits, index) * 256 + byte_at(digits, index + 1)
}

/// Returns the sum of the first of the bytes.
#[tactic(auto, using(crate::proofs::RecordBytes::summed_one_more))]
fn sum_of(digits: &[u8], count: usize) -> u32
    requires there { 2 * count ≤ length digits.now }
    requires few { count ≤ 258 }
    ensures { result ≡ sum (take count (bytes_of_digits digits.now)) }
{
    let mut sum = 0u32;
    for k in 0..count {
        sum += byte_at(digits, k);
    }
    sum
}

/// The numbers that the digits of a record write, without its data.
#[derive(Clone, Copy)]
pub struct RecordNumbers {
    /// How many bytes of data.
    pub length: u32,
    /// The address, or the number of records in an end record.
    pub address: u32,
    /// The sum of the bytes before the checksum, modulo 65536.
    pub sum: u32,
    pub checksum: u32,
}

/// Returns the numbers of a record that has these digits.
#[tactic(auto, unfolding(model::specs::Tape::claim_of))]
fn numbers_of(digits: &[u8]) -> RecordNumbers
    requires { AreAllDigits digits.now }
    ensures { result ≡ numbers_of (claim_of digits.now) }
{
    let length = byte_at(digits, 0);
    let before = 3 + length as usize;
    RecordNumbers {
        length,
        address: word_at(digits, 1),
        sum: sum_of(digits, before) % 65536,
        checksum: word_at(digits, before),
    }
}

/// Returns a text without its first byte.
pub fn without_first(text: &[u8]) -> &[u8]
    ensures { result.now ≡ drop 1 text.now }
{
    match text {
        [] => text,
        [_, behind @ ..] => behind,
    }
}

/// Returns what comes behind the byte at a place.
fn behind(text: &[u8], place: usize) -> &[u8]
    ensures { result.now ≡ drop (place + 1) text.now }
{
    without_first(text.split_at(place.min(text.len())).1)
}

/// Returns the numbers of a record whose digits begin a text, if they are all there.
#[tactic(auto, using(crate::proofs::RecordBytes::the_same_needed), unfolding(crate::specs::Records::claim_in_front))]
fn numbers_in_front(text: &[u8]) -> Option<RecordNumbers>
    ensures { result ≡ option_map numbers_of (claim_in_front text.now) }
{
    let count = needed(text);
    if text.len() < count {
        return None;
    }
    let digits = text.split_at(count).0;
    if are_digits(digits) {
        Some(numbers_of(digits))
    } else {
        None
    }
}

/// Returns the numbers of a record whose `;` stands at a place, if all its digits are there.
pub fn numbers_at(text: &[u8], place: usize) -> Option<RecordNumbers>
    ensures { result ≡ numbers_at text.now place }
{
    numbers_in_front(behind(text, place))
}

/// What is to be said of an end record.
#[derive(Clone, Copy)]
pub enum EndRecord {
    /// There is none.
    Missing,
    /// It counts the records, and its sum is right.
    Right,
    /// It counts the records, and has their number again in place of its sum.
    CountTwice,
    /// Its sum is wrong otherwise.
    WrongSum,
    /// Its sum is right, and it counts another number of records.
    WrongCount(u32),
}

/// Returns what is to be said of an end record, by its numbers, after so many data records.
pub fn end_of(numbers: Option<RecordNumbers>, records: usize) -> EndRecord
    ensures { result ≡ end_by records numbers }
{
    let Some(numbers) = numbers else {
        return EndRecord::Missing;
    };
    let is_counted = numbers.address as usize == records;
    if numbers.sum == numbers.checksum {
        if is_counted {
            EndRecord::Right
        } else {
            EndRecord::WrongCount(numbers.address)
        }
    } else if is_counted && numbers.checksum == numbers.address {
        EndRecord::CountTwice
    } else {
        EndRecord::WrongSum
    }
}

/// Returns what is to be said of the end record whose `;` stands at a place, after so many data
/// records.
pub fn end_record(text: &[u8], place: usize, records: usize) -> EndRecord
    ensures { result ≡ end_record text.now place records }
{
    end_of(numbers_at(text, place), records)
}
