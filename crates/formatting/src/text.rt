//! Short texts, put together without allocating.

ghost use Rattle.std.specs.Prelude.{◌≡◌, ◌+◌, ◌≤◌, ◌++◌, length, decimal, false};
ghost use Rattle.model.specs.Text.{hex_byte, hex_address};
ghost use Rattle.model.specs.Effect.{status};

use crate::hex_digits::{digits_of, digits_of_address};
use arrayvec::ArrayVec;
use model::Flags;

/// A line of a reply: at most 65 bytes.
///
/// The register line has at most 58 bytes, a row of memory at most 54, a row of output at most 65.
pub type Text = ArrayVec<u8, 65>;

/// Appends bytes.
pub fn push_bytes(text: &mut Text, bytes: &[u8])
    requires { length text.old.items + length bytes.now ≤ 65 }
    ensures { text.new.items ≡ text.old.items ++ bytes.now }
{
    let _ = text.try_extend_from_slice(bytes);
}

/// Appends a byte as two capital hex digits.
pub fn push_hex_byte(text: &mut Text, byte: u8)
    requires { length text.old.items + 2 ≤ 65 }
    ensures { text.new.items ≡ text.old.items ++ hex_byte byte }
{
    push_bytes(text, &digits_of(byte));
}

/// Appends an address as four capital hex digits.
pub fn push_hex_address(text: &mut Text, word: u16)
    requires { length text.old.items + 4 ≤ 65 }
    ensures { text.new.items ≡ text.old.items ++ hex_address word }
{
    push_bytes(text, &digits_of_address(word));
}

/// Appends a number in decimal, without leading zeros.
pub fn push_decimal(text: &mut Text, n: u64)
    requires { length text.old.items + 20 ≤ 65 }
    ensures written { text.new.items ≡ text.old.items ++ decimal n }
    ensures short { length text.new.items ≤ length text.old.items + 20 }
{
    push_bytes(text, itoa::Buffer::new().format(n).as_bytes());
}

/// Appends the status register as two capital hex digits, with B clear.
///
/// Its bits are N V 1 B D I Z C from bit 7 down.
pub fn push_status(text: &mut Text, flags: Flags)
    requires { length text.old.items + 2 ≤ 65 }
    ensures { text.new.items ≡ text.old.items ++ hex_byte (status false flags) }
{
    push_hex_byte(text, flags.to_byte(false));
}
