//! The bytes of one record.

ghost use Rattle.std.specs.Prelude.{◌≡◌, ◌+◌, ◌*◌, ◌%◌, ◌≤◌, IfOk, drop, length, slice_index, sum, take, true};
ghost use Rattle.std.specs.List.{list_all, prefix_len};
ghost use Rattle.image_reader.specs.Records.{record_bytes, record_digits, stop_of, wanted};
ghost use Rattle.model.specs.Digits.{digit_value, is_hex_byte};
ghost use Rattle.model.specs.Tape.{bytes_of_digits};

use crate::fault::{LineFault, RecordFaultKind};
use formatting::hex_value;
use std::marker::Model;

/// The most bytes of a record: five of Intel HEX beside 255 of data.
const MOST: usize = 260;

/// The bytes that the digits of a record write.
#[derive(Drop)]
pub struct RecordBytes {
    data: [u8; MOST],
    count: usize,
}

impl Model for RecordBytes {
    ghost use Rattle.std.specs.Prelude.{ℕ, List, take, ◌≤◌};

    ghost Value = { List ℕ };

    ghost view = { λ b. take b.count b.«data» };

    ghost invariant = { λ b. b.count ≤ 260 };
}

impl RecordBytes {
    /// Returns the bytes.
    pub fn as_slice(&self) -> &[u8]
        ensures { result.now ≡ self.now }
    {
        &self.data[..self.count]
    }
}

/// Returns whether a byte is a hex digit, of either case.
pub fn is_hex_digit(byte: u8) -> bool
    ensures { result ≡ is_hex_byte byte }
{
    byte.is_ascii_hexdigit()
}

/// Counts the hex digits in front.
fn hex_len(digits: &[u8]) -> usize
    ensures counted { result ≡ prefix_len is_hex_byte digits.now }
    ensures inside { result ≤ length digits.now }
{
    digits
        .iter()
        .take_while(|digit| is_hex_digit(**digit))
        .count()
}

/// Returns the value of a hex digit; 0 for any other byte.
fn digit_value(digit: u8) -> u8
    ensures value { result ≡ digit_value digit }
    ensures within { result ≤ 15 }
{
    match hex_value(digit) {
        Some(value) => value,
        None => 0,
    }
}

/// Returns how many digits a record has that begins with these, where `extra` of its bytes are not
/// counted by the first.
fn wanted(extra: usize, digits: &[u8]) -> usize
    requires { extra ≤ 5 }
    ensures value { result ≡ wanted extra digits.now }
    ensures within { result ≤ 520 }
{
    match digits {
        [high, low, ..] => {
            2 * (extra + (digit_value(*high) as usize * 16 + digit_value(*low) as usize))
        }
        _ => 2,
    }
}

/// Returns what is wrong where digits stop too early.
fn stop_of(count: usize, digits: &[u8]) -> RecordFaultKind
    ensures { result ≡ stop_of count digits.now }
{
    if count == digits.len() {
        RecordFaultKind::ShortRecord
    } else {
        RecordFaultKind::BadHex
    }
}

/// Decodes digits into bytes.
pub fn decode(digits: &[u8], bytes: &mut [u8])
    requires hex { list_all is_hex_byte digits.now ≡ true }
    requires room { length digits.now ≡ 2 * length bytes.old }
    ensures { bytes.new ≡ bytes_of_digits digits.now }
{
    let _ = hex::decode_to_slice(digits, bytes);
}

/// Returns the bytes of so many pairs of digits.
fn decoded(digits: &[u8], count: usize) -> RecordBytes
    requires hex { list_all is_hex_byte digits.now ≡ true }
    requires pairs { length digits.now ≡ 2 * count }
    requires room { count ≤ 260 }
    ensures { result ≡ bytes_of_digits digits.now }
{
    let mut data = [0u8; MOST];
    decode(digits, &mut data[..count]);
    RecordBytes { data, count }
}

/// Returns the bytes of a record, by its digits, which stand behind so many bytes of their line.
///
/// Errors: `ShortRecord` or `BadHex` where the digits stop too early; `LongRecord` at the first
/// byte behind them.
#[tactic(auto, unfolding(crate::specs::Records::record_digits))]
fn read_digits(front: u32, extra: usize, digits: &[u8]) -> Result<RecordBytes, LineFault>
    requires front { front ≤ 2 }
    requires extra { extra ≤ 5 }
    requires line { length digits.now ≤ 523 }
    ensures value { result ≡ record_digits front extra digits.now }
    ensures size { IfOk result (λ bytes. length bytes ≡ extra + slice_index bytes 0) }
{
    let hex = hex_len(digits);
    let all = wanted(extra, digits);
    if hex < all {
        return Err(LineFault {
            kind: stop_of(hex, digits),
            column: front + hex as u32 + 1,
        });
    }
    if all < digits.len() {
        return Err(LineFault {
            kind: RecordFaultKind::LongRecord,
            column: front + all as u32 + 1,
        });
    }
    Ok(decoded(digits, all / 2))
}

/// Returns the sum of bytes.
fn total(bytes: &[u8]) -> u32
    requires { length bytes.now ≤ 260 }
    ensures { result ≡ sum bytes.now }
{
    bytes.iter().map(|byte| *byte as u32).sum()
}

/// Returns the bytes of a record whose sum with the checksum is `wanted_total`, modulo 256.
///
/// Errors: those of the digits; `BadChecksum` at the checksum.
#[tactic(auto, unfolding(crate::specs::Records::record_bytes))]
pub fn record_bytes(
    front: u32,
    extra: usize,
    wanted_total: u32,
    digits: &[u8],
) -> Result<RecordBytes, LineFault>
    requires front { front ≤ 2 }
    requires extra { extra ≤ 5 }
    requires line { length digits.now ≤ 523 }
    ensures value { result ≡ record_bytes front extra wanted_total digits.now }
    ensures size { IfOk result (λ bytes. length bytes ≡ extra + slice_index bytes 0) }
{
    match read_digits(front, extra, digits) {
        Err(fault) => Err(fault),
        Ok(bytes) => {
            if total(bytes.as_slice()) % 256 == wanted_total {
                return Ok(bytes);
            }
            Err(LineFault {
                kind: RecordFaultKind::BadChecksum,
                column: (front + digits.len() as u32).saturating_sub(1),
            })
        }
    }
}

/// Returns so many bytes of a record from one on.
pub fn part(bytes: &[u8], start: usize, count: usize) -> &[u8]
    requires { start + count ≤ length bytes.now }
    ensures { result.now ≡ take count (drop start bytes.now) }
{
    &bytes[start..start + count]
}

/// Returns two bytes of a record as a number, the high one first.
pub fn word(bytes: &[u8], start: usize) -> u16
    requires { start + 2 ≤ length bytes.now }
    ensures { result ≡ slice_index bytes.now start * 256 + slice_index bytes.now (start + 1) }
{
    bytes[start] as u16 * 256 + bytes[start + 1] as u16
}
