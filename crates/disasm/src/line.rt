//! Rows of memory as text.

ghost use Rattle.std.specs.Prelude.{◌≡◌, ◌<◌, ◌≤◌, ◌-◌, length, drop, replicate, slice_index};
ghost use Rattle.model.specs.InstructionText.{byte_row, instruction_text, row_of};
ghost use Rattle.disasm.specs.Rows.{row_view};

use crate::operand::operand;
use crate::text::{Text, push_bytes, text_of};
use formatting::digits_of;
use model::{Profile, Row};
use optable::{decode_in, letters_of};

/// A row of memory: how many bytes of memory it shows, and its text.
///
/// The text is the first `text_len` bytes of `text`; the bytes after it are 0.
#[derive(Clone, Copy, Debug, PartialEq, Eq)]
pub struct TextLine {
    pub len: u8,
    pub text: [u8; 12],
    pub text_len: u8,
}

/// Returns a row of so many bytes of memory with a text.
fn row(len: u8, written: &[u8]) -> TextLine
    requires { length written.now ≤ 12 }
    ensures text { row_view result ≡ record { len = len; text = written.now } }
    ensures rest { drop result.text_len result.text ≡ replicate (12 - result.text_len) 0 }
    ensures short { result.text_len ≤ 12 }
{
    let mut text = [0u8; 12];
    let text_len = written.len();
    text[..text_len].copy_from_slice(written);
    TextLine {
        len,
        text,
        text_len: text_len as u8,
    }
}

/// Returns the text of an instruction.
fn instruction(profile: Profile, found: Row, address: u16, second: u8, third: u8) -> Text
    ensures exact { result.items ≡ instruction_text profile found address second third }
    ensures short { length result.items ≤ 12 }
{
    let mut text = text_of(&letters_of(found.mnemonic));
    push_bytes(
        &mut text,
        &operand(profile, found.mnemonic, found.mode, address, second, third),
    );
    text
}

/// Returns the row of a byte that begins no instruction.
fn byte_line(byte: u8) -> TextLine
    ensures text { row_view result ≡ byte_row byte }
    ensures rest { drop result.text_len result.text ≡ replicate (12 - result.text_len) 0 }
    ensures short { result.text_len ≤ 12 }
{
    let [high, low] = digits_of(byte);
    row(1, &[b'.', b'B', b'Y', b'T', b'E', b' ', b'$', high, low])
}

/// Returns the byte at an index, or 0 after the last.
fn byte_or_0(bytes: &[u8], place: usize) -> u8
    ensures { result ≡ slice_index bytes.now place }
{
    match bytes.get(place) {
        Some(byte) => *byte,
        None => 0,
    }
}

/// Returns the row at the front of some bytes in profile N, as `line_in` does.
pub fn line_at(bytes: &[u8], address: u16) -> TextLine
    requires { 0 < length bytes.now }
    ensures text { row_view result ≡ row_of Profile.N bytes.now address }
    ensures rest { drop result.text_len result.text ≡ replicate (12 - result.text_len) 0 }
    ensures short { result.text_len ≤ 12 }
    // It shows at least one of the bytes, and no more than are there.
    ensures some { 0 < result.len }
    ensures within { result.len ≤ length bytes.now }
{
    line_in(Profile::N, bytes, address)
}

/// Returns the row at the front of some bytes, which are at an address.
///
/// The row is an instruction of the profile. It is `.BYTE` and the first byte if that begins no
/// instruction, or if the instruction needs a byte past $FFFF or past the last one. Source: MCS6500
/// manual for the forms; mos65 for `!`, for `.BYTE` and for what profile C adds.
#[tactic(auto, unfolding(model::specs::InstructionText::row_of))]
pub fn line_in(profile: Profile, bytes: &[u8], address: u16) -> TextLine
    requires { 0 < length bytes.now }
    ensures text { row_view result ≡ row_of profile bytes.now address }
    ensures rest { drop result.text_len result.text ≡ replicate (12 - result.text_len) 0 }
    ensures short { result.text_len ≤ 12 }
    // It shows at least one of the bytes, and no more than are there.
    ensures some { 0 < result.len }
    ensures within { result.len ≤ length bytes.now }
{
    let first = bytes[0];
    match decode_in(profile, first) {
        None => byte_line(first),
        Some(found) => {
            let fits = (found.len as usize <= bytes.len())
                & (address as u32 + found.len as u32 <= 65536);
            if !fits {
                return byte_line(first);
            }
            let second = byte_or_0(bytes, 1);
            let third = byte_or_0(bytes, 2);
            row(
                found.len,
                &instruction(profile, found, address, second, third),
            )
        }
    }
}
