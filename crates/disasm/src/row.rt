//! Whole rows of memory: address, bytes and text.

ghost use Rattle.std.specs.Prelude.{◌≡◌, ◌<◌, ◌≤◌, ◌+◌, ◌++◌, length};
ghost use Rattle.model.specs.Disassembly.{row_line};
ghost use Rattle.model.specs.InstructionText.{row_of};

use crate::line::line_in;
use arrayvec::ArrayVec;
use formatting::{byte_columns, digits_of_address};
use model::Profile;

/// A row as it is listed, with its line's end: at most 29 bytes.
pub type Row = ArrayVec<u8, 29>;

/// A row of memory as it is listed, and how many bytes of memory it shows.
#[derive(Drop)]
pub struct RowText {
    pub text: Row,
    pub len: u8,
}

/// Appends bytes.
fn push_bytes(text: &mut Row, bytes: &[u8])
    requires { length text.old.items + length bytes.now ≤ 29 }
    ensures { text.new.items ≡ text.old.items ++ bytes.now }
{
    let _ = text.try_extend_from_slice(bytes);
}

/// Returns the row at the front of one to three bytes, which are at an address, as it is listed.
///
/// It has the address, two spaces, the row's bytes in 8 columns, two spaces, its text, and LF.
/// Source: mos65.
#[tactic(auto, unfolding(model::specs::Disassembly::row_line), using(crate::proofs::Columns::all_of))]
pub fn row_text_in(profile: Profile, bytes: &[u8], address: u16) -> RowText
    requires some { 0 < length bytes.now }
    requires few { length bytes.now ≤ 3 }
    ensures text { result.text.items
        ≡ row_line address bytes.now (row_of profile bytes.now address) }
    ensures len { result.len ≡ (row_of profile bytes.now address).len }
    ensures within { result.len ≤ length bytes.now }
    ensures some { 0 < result.len }
{
    let row = line_in(profile, bytes, address);
    let [a, b, c, d] = digits_of_address(address);
    let mut text = Row::new();
    push_bytes(&mut text, &[a, b, c, d, b' ', b' ']);
    push_bytes(&mut text, &byte_columns(&bytes[..row.len as usize]));
    push_bytes(&mut text, b"  ");
    push_bytes(&mut text, &row.text[..row.text_len as usize]);
    push_bytes(&mut text, b"\n");
    RowText { text, len: row.len }
}
