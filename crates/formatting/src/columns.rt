//! What rows of memory and of a listing share: an address in four columns, and bytes in eight.
//!
//! Nothing here allocates.

ghost use Rattle.std.specs.Prelude.{◌≡◌, take};
ghost use Rattle.model.specs.Listing.{address_text, with_padding, with_spaces};

use crate::hex_digits::{digits_of, digits_of_address};

/// Returns an address as four hex digits, or `----` above 65535.
pub fn address_text(address: u32) -> [u8; 4]
    ensures { result ≡ address_text address }
{
    if address < 65536 {
        digits_of_address(address as u16)
    } else {
        *b"----"
    }
}

/// Returns the first three of some bytes in hex, with a space between them, in 8 columns.
#[tactic(auto, unfolding(model::specs::Text::spaced_bytes))]
pub fn byte_columns(bytes: &[u8]) -> [u8; 8]
    ensures { result ≡ with_padding (with_spaces (take 3 bytes.now)) }
{
    match bytes {
        [] => *b"        ",
        [a] => {
            let [g, h] = digits_of(*a);
            [g, h, b' ', b' ', b' ', b' ', b' ', b' ']
        }
        [a, b] => {
            let [g, h] = digits_of(*a);
            let [i, j] = digits_of(*b);
            [g, h, b' ', i, j, b' ', b' ', b' ']
        }
        [a, b, c, ..] => {
            let [g, h] = digits_of(*a);
            let [i, j] = digits_of(*b);
            let [k, l] = digits_of(*c);
            [g, h, b' ', i, j, b' ', k, l]
        }
    }
}
