//! Numbers as capital hex digits: the one place where digits are made. Does not allocate.
//!
//! Replies, tapes, listings and the disassembler take theirs from here. The proof's idea is in
//! `proofs/Digits.antt`: sixteen entries of a table, computed.

ghost use Rattle.std.specs.Prelude.{◌≡◌, ◌∷◌, [], length};
ghost use Rattle.hex.specs.Hex.{encode_upper};
ghost use Rattle.model.specs.Text.{hex_byte, hex_address};

/// Returns the two capital hex digits of a byte.
pub fn digits_of(byte: u8) -> [u8; 2]
    ensures digits { result ≡ hex_byte byte }
    ensures encoded { result ≡ encode_upper (byte ∷ []) }
{
    let mut digits = [0u8; 2];
    let _ = hex::encode_to_slice([byte], &mut digits);
    digits.make_ascii_uppercase();
    digits
}

/// Returns the four capital hex digits of an address.
pub fn digits_of_address(word: u16) -> [u8; 4]
    ensures { result ≡ hex_address word }
{
    let [high, low] = word.to_be_bytes();
    let [a, b] = digits_of(high);
    let [c, d] = digits_of(low);
    [a, b, c, d]
}
