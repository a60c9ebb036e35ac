//! Tapes whose end record has the number of data records again where the sum of its bytes belongs.

ghost use Rattle.std.specs.Prelude.{◌≡◌, ◌+◌, ◌≤◌, IfOk, drop, length, slice_index, sum, take, true};
ghost use Rattle.std.specs.List.{list_all, suffix_len};
ghost use Rattle.image_reader.specs.EndRecords.{AreEndDigits, counts_twice, has_count_twice, is_count_twice};
ghost use Rattle.image_reader.specs.EndRecords.{last_record, size_of, with_end_sum};
ghost use Rattle.model.specs.Digits.{is_hex_byte};
ghost use Rattle.model.specs.Text.{hex_address};
ghost use Rattle.model.specs.Tape.{bytes_of_digits, claim_in, claim_of, is_skipped};

use crate::form::is_skipped;
use crate::record::{decode, is_hex_digit};
use formatting::digits_of_address;
use std::alloc::{AllocError, Global};

/// Counts the bytes at the end that a tape skips.
fn skipped_at_end(text: &[u8]) -> usize
    ensures counted { result ≡ suffix_len is_skipped text.now }
    ensures inside { result ≤ length text.now }
{
    text.iter()
        .rev()
        .take_while(|byte| is_skipped(**byte))
        .count()
}

/// Returns how long a text is without what a tape skips at its end.
fn size_of(text: &[u8]) -> usize
    ensures value { result ≡ size_of text.now }
    ensures inside { result ≤ length text.now }
{
    text.len() - skipped_at_end(text)
}

/// Returns whether all of some bytes are hex digits.
fn are_hex(bytes: &[u8]) -> bool
    ensures { result ≡ list_all is_hex_byte bytes.now }
{
    let mut all = true;
    for byte in bytes {
        all &= is_hex_digit(*byte);
    }
    all
}

/// Returns the bytes that the digits of an end record write.
fn end_bytes(digits: &[u8]) -> [u8; 5]
    requires hex { list_all is_hex_byte digits.now ≡ true }
    requires size { length digits.now ≡ 10 }
    ensures { result ≡ bytes_of_digits digits.now }
{
    let mut bytes = [0u8; 5];
    decode(digits, &mut bytes);
    bytes
}

/// Returns the sum of the bytes of an end record before its checksum.
fn end_sum(bytes: [u8; 5]) -> u16
    requires { slice_index bytes 0 ≡ 0 }
    ensures { result ≡ (claim_in bytes).sum }
{
    let [_, high, low, ..] = bytes;
    high as u16 + low as u16
}

/// Returns whether the bytes of an end record have the number of records in place of their sum.
#[tactic(auto, unfolding(crate::specs::EndRecords::counts_twice))]
fn counts_twice(bytes: [u8; 5]) -> bool
    ensures { result ≡ counts_twice (claim_in bytes) }
{
    if bytes[0] != 0 {
        return false;
    }
    let count = bytes[1] as u16 * 256 + bytes[2] as u16;
    let checksum = bytes[3] as u16 * 256 + bytes[4] as u16;
    checksum == count && end_sum(bytes) != checksum
}

/// Returns whether an end record has the number of records in place of its sum.
#[tactic(auto, unfolding(model::specs::Tape::claim_of))]
fn is_count_twice(bytes: &[u8]) -> bool
    ensures { result ≡ is_count_twice bytes.now }
{
    match bytes {
        [b';', digits @ ..] => {
            digits.len() == 10 && are_hex(digits) && counts_twice(end_bytes(digits))
        }
        _ => false,
    }
}

/// Returns the digits of the sum of an end record's bytes.
#[tactic(auto, unfolding(model::specs::Tape::claim_of))]
fn sum_digits(digits: &[u8]) -> [u8; 4]
    requires { AreEndDigits digits.now }
    ensures { result ≡ hex_address (claim_of digits.now).sum }
{
    digits_of_address(end_sum(end_bytes(digits)))
}

/// Returns the digits of an end record that has the number of records in place of its sum.
#[tactic(auto, using(crate::proofs::EndRecords::end_digits))]
fn end_digits(bytes: &[u8]) -> &[u8]
    requires { is_count_twice bytes.now ≡ true }
    ensures same { result.now ≡ drop 1 bytes.now }
    ensures all { AreEndDigits result.now }
{
    match bytes {
        [] => bytes,
        [_, digits @ ..] => digits,
    }
}

/// Returns the last eleven bytes of a text before what a tape skips at its end.
#[tactic(auto, unfolding(crate::specs::EndRecords::last_record))]
fn last_record(text: &[u8]) -> &[u8]
    ensures { result.now ≡ last_record text.now }
{
    let size = size_of(text);
    &text[size.saturating_sub(11)..size]
}

/// Returns whether the end record of a text has the number of data records again in place of the
/// sum of its bytes, as srec_cat writes it behind 256 records and more.
#[tactic(auto, unfolding(crate::specs::EndRecords::has_count_twice))]
pub fn has_count_twice(text: &[u8]) -> bool
    ensures { result ≡ has_count_twice text.now }
{
    is_count_twice(last_record(text))
}

/// Returns the text of a tape with the sum of its end record's bytes in place of the number that
/// stands there.
///
/// Errors: `AllocError` if an allocation fails.
#[tactic(auto, unfolding(crate::specs::EndRecords::with_end_sum, crate::specs::EndRecords::has_count_twice))]
pub fn with_end_sum(alloc: Global, text: &[u8]) -> Result<Vec<u8>, AllocError>
    requires { has_count_twice text.now ≡ true }
    ensures { IfOk result (λ read. read.items ≡ with_end_sum text.now) }
{
    let size = size_of(text);
    let digits = sum_digits(end_digits(last_record(text)));
    let mut read = Vec::with_capacity(alloc, text.len())?;
    read.extend_from_slice(&text[..size.saturating_sub(4)])?;
    read.extend_from_slice(&digits)?;
    read.extend_from_slice(&text[size..])?;
    Ok(read)
}
