//! The bytes that a row is made of.

ghost use Rattle.std.specs.Prelude.{◌≡◌, ℕ, ◌+◌, ◌<◌, ◌≤◌, List, [], ◌∷◌, length, MatchOption};
ghost use Rattle.std.specs.Prelude.{IfSome, take};
ghost use Rattle.model.specs.Image.{cell_at};
ghost use Rattle.model.specs.Token.{is_string_byte};
ghost use Rattle.source_forms.specs.Rows.{byte_before, is_kind, kind_of, mark_at, stretch};

use arrayvec::ArrayVec;
use source_forms::Mark;

/// The bytes of a row: at most 32.
pub type Bytes = ArrayVec<u8, 32>;

/// Whether a string may have a byte.
fn is_string_byte(byte: u8) -> bool
    ensures { result ≡ is_string_byte byte }
{
    (32 <= byte) & (byte <= 126) & (byte != 34)
}

/// Returns what a byte is written as by its mark.
pub fn kind_of(mark: Mark, byte: u8) -> Mark
    ensures { result ≡ kind_of mark byte }
{
    match mark {
        Mark::Code => Mark::Code,
        Mark::Data => Mark::Data,
        Mark::Text => {
            if is_string_byte(byte) {
                Mark::Text
            } else {
                Mark::Data
            }
        }
        Mark::Address => Mark::Address,
        Mark::Return => Mark::Return,
    }
}

/// Returns the mark of an address: code where none is given.
pub fn mark_at(marks: &[Mark], address: usize) -> Mark
    ensures { result ≡ mark_at marks.now address }
{
    match marks.get(address) {
        Some(mark) => *mark,
        None => Mark::Code,
    }
}

/// Returns whether two kinds are one.
pub fn is_kind(kind: Mark, other: Mark) -> bool
    ensures { result ≡ is_kind kind other }
{
    match (kind, other) {
        (Mark::Code, Mark::Code) => true,
        (Mark::Data, Mark::Data) => true,
        (Mark::Text, Mark::Text) => true,
        (Mark::Address, Mark::Address) => true,
        (Mark::Return, Mark::Return) => true,
        _ => false,
    }
}

/// Returns the byte at an address, if there is one.
pub fn cell_at(cells: &[Option<u8>], address: usize) -> Option<u8>
    ensures same { result ≡ cell_at cells.now address }
    ensures within { IfSome result (λ b. address < length cells.now) }
{
    match cells.get(address) {
        Some(cell) => *cell,
        None => None,
    }
}

/// The byte at an address, if there is one of a kind.
fn byte_of(cells: &[Option<u8>], marks: &[Mark], kind: Mark, address: usize) -> Option<u8>
    ensures one { MatchOption result ((rest : List ℕ) → byte_before (cell_at cells.now address)
        (λ b. is_kind kind (kind_of (mark_at marks.now address) b)) rest ≡ [])
        (λ b. (rest : List ℕ) → byte_before (cell_at cells.now address)
        (λ b. is_kind kind (kind_of (mark_at marks.now address) b)) rest ≡ b ∷ rest) }
    ensures within { IfSome result (λ b. address < length cells.now) }
{
    let byte = cell_at(cells, address)?;
    if is_kind(kind, kind_of(mark_at(marks, address), byte)) {
        Some(byte)
    } else {
        None
    }
}

/// Returns the bytes of one kind from an address on, up to the first gap, at most so many.
#[tactic(auto, using(crate::proofs::Stretches::more, crate::proofs::Stretches::ended, crate::proofs::Stretches::none))]
pub fn stretch(
    cells: &[Option<u8>],
    marks: &[Mark],
    kind: Mark,
    address: usize,
    most: usize,
) -> Bytes
    requires few { most ≤ 32 }
    requires size { length cells.now ≤ 65536 }
    requires start { address ≤ length cells.now }
    ensures bytes { result.items ≡ stretch cells.now marks.now kind most address }
    ensures within { address + length result.items ≤ length cells.now }
{
    let mut bytes = Bytes::new();
    let mut at = address;
    let mut left = most;
    while left > 0 {
        match byte_of(cells, marks, kind, at) {
            None => return bytes,
            Some(byte) => bytes.push(byte),
        }
        at += 1;
        left -= 1;
    }
    bytes
}

/// Returns the first bytes of some.
pub fn first_bytes(bytes: &[u8], count: usize) -> Bytes
    requires within { count ≤ length bytes.now }
    requires few { count ≤ 32 }
    ensures { result.items ≡ take count bytes.now }
{
    let mut first = Bytes::new();
    let _ = first.try_extend_from_slice(&bytes[..count]);
    first
}
