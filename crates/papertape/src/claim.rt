//! The digits of one record.

ghost use Rattle.std.specs.Prelude.{◌≡◌, ◌+◌, ◌*◌, length, true, slice_index};
ghost use Rattle.std.specs.List.{list_all};
ghost use Rattle.model.specs.Digits.{is_hex_byte};
ghost use Rattle.model.specs.Tape.{AreAllDigits, needed, bytes_of_digits, claim_of, claim_in};

use crate::record::total;
use std::marker::Model;

/// What a record claims. Source: KIM-1 manual.
#[derive(Drop)]
pub struct Claim {
    /// How many bytes of data; 0 in the end record.
    pub length: u8,
    /// The address of the first of them; the number of data records in the end record.
    pub address: u16,
    /// The data, and zeroes after them.
    pub data: [u8; 255],
    /// The sum of the bytes before the checksum, modulo 65536.
    pub sum: u16,
    pub checksum: u16,
}

impl Model for Claim {
    ghost use Rattle.std.specs.Prelude.{take};
    ghost use Rattle.model.specs.Tape.{Claim};

    ghost Value = { Claim };

    ghost view = { λ c. record {
      length = c.length;
      address = c.address;
      bytes = take c.length c.«data»;
      sum = c.sum;
      checksum = c.checksum;
    } };
}

/// Returns whether a byte is a hex digit, of either case.
pub fn is_hex_digit(byte: u8) -> bool
    ensures { result ≡ is_hex_byte byte }
{
    byte.is_ascii_hexdigit()
}

/// Decodes digits into bytes.
fn decode(digits: &[u8], bytes: &mut [u8])
    requires hex { list_all is_hex_byte digits.now ≡ true }
    requires room { length digits.now ≡ 2 * length bytes.old }
    ensures { bytes.new ≡ bytes_of_digits digits.now }
{
    let _ = hex::decode_to_slice(digits, bytes);
}

/// Returns how many digits a record has that begins with these.
pub fn needed(digits: &[u8]) -> usize
    requires { list_all is_hex_byte digits.now ≡ true }
    ensures { result ≡ needed digits.now }
{
    if digits.len() < 2 {
        return 10;
    }
    let mut length = [0u8; 1];
    decode(&digits[..2], &mut length);
    10 + 2 * length[0] as usize
}

impl Claim {
    /// Returns what the digits of a record claim.
    pub fn read(digits: &[u8]) -> Claim
        requires { AreAllDigits digits.now }
        ensures { result ≡ claim_of digits.now }
    {
        let mut buffer = [0u8; 260];
        let count = digits.len() / 2;
        Claim::through(digits, &mut buffer[..count])
    }

    #[tactic(auto, unfolding(model::specs::Tape::claim_of))]
    fn through(digits: &[u8], buffer: &mut [u8]) -> Claim
        requires all { AreAllDigits digits.now }
        requires room { length digits.now ≡ 2 * length buffer.old }
        ensures { result ≡ claim_of digits.now }
    {
        decode(digits, buffer);
        Claim::from_bytes(buffer)
    }

    fn from_bytes(bytes: &[u8]) -> Claim
        requires { length bytes.now ≡ 5 + slice_index bytes.now 0 }
        ensures { result ≡ claim_in bytes.now }
    {
        let length = bytes[0];
        let end = 3 + length as usize;
        let address = bytes[1] as u16 * 256 + bytes[2] as u16;
        let checksum = bytes[end] as u16 * 256 + bytes[end + 1] as u16;
        let mut data = [0u8; 255];
        data[..length as usize].copy_from_slice(&bytes[3..end]);
        let sum = (total(&bytes[..end]) % 65536) as u16;
        Claim {
            length,
            address,
            data,
            sum,
            checksum,
        }
    }
}
