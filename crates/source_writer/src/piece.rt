//! What stands in a line.

ghost use Rattle.std.specs.Prelude.{◌≡◌, ℕ, ◌+◌, ◌<◌, ◌≤◌, [], ◌∷◌, length, Some, slice_index};
ghost use Rattle.model.specs.Image.{cell_at};
ghost use Rattle.model.specs.OpcodeTable.{row_at};
ghost use Rattle.source_forms.specs.Rows.{kind_of, mark_at, stretch};
ghost use Rattle.source_forms.specs.Pieces.{address_piece, begins_line, code_piece, data_piece};
ghost use Rattle.source_forms.specs.Pieces.{is_flagged, is_vector, len_of, numbers, odd_piece};
ghost use Rattle.source_forms.specs.Pieces.{operand_refers, piece_at, piece_by, reach_of, refers};
ghost use Rattle.source_forms.specs.Undocumented.{undocumented_at};
ghost use Rattle.source_forms.specs.Pieces.{return_of, return_piece, room, word_of};
ghost use Rattle.source_writer.specs.Views.{piece_view};

use crate::Mark;
use crate::note::{Note, instruction_note, run_note};
use crate::stretch::{Bytes, first_bytes, kind_of, mark_at, stretch};
use model::{Mode, Profile, Row};
use optable::{branch_target, decode_in};
use source_forms::undocumented_in;

/// What stands in a line: an instruction with the two bytes after its opcode, the word of an
/// address, that of the address before one, the bytes of an undocumented instruction or numbers
/// with a note behind them, or letters.
#[derive(Drop)]
pub enum Piece {
    Instruction(Row, u8, u8),
    Word(u16),
    ReturnWord(u16),
    Undocumented(Bytes, Note),
    Numbers(Bytes, Note),
    Letters(Bytes),
}

/// Whether a vector stands at an address.
fn is_vector(address: usize) -> bool
    ensures { result ≡ is_vector address }
{
    (address == 0xfffa) | (address == 0xfffc) | (address == 0xfffe)
}

/// Returns whether an address is referred to.
pub fn is_flagged(flags: &[bool], address: usize) -> bool
    ensures { result ≡ is_flagged flags.now address }
{
    match flags.get(address) {
        Some(flag) => *flag,
        None => false,
    }
}

/// Whether a line of data ends before an address.
fn begins_line(flags: &[bool], address: usize) -> bool
    ensures { result ≡ begins_line flags.now address }
{
    is_flagged(flags, address) | is_vector(address)
}

/// How many bytes of data a line may have from an address on, at most so many.
fn room(flags: &[bool], address: usize, most: usize) -> usize
    requires few { most ≤ 32 }
    requires near { address ≤ 65535 }
    ensures exact { result ≡ room flags.now most address }
    ensures small { result ≤ most }
{
    let mut count = 0usize;
    let mut left = most;
    while left > 0 {
        count += 1;
        left -= 1;
        if begins_line(flags, address + count) {
            return count;
        }
    }
    count
}

/// Returns the byte at an index, or 0 after the last.
pub fn byte_or_0(bytes: &[u8], place: usize) -> u8
    ensures { result ≡ slice_index bytes.now place }
{
    match bytes.get(place) {
        Some(byte) => *byte,
        None => 0,
    }
}

/// A byte as a number.
#[tactic(auto, unfolding(source_forms::specs::Pieces::len_of))]
fn one_number(byte: u8) -> Piece
    ensures exact { piece_view result ≡ numbers (byte ∷ []) [] }
    ensures len { len_of (piece_view result) ≡ 1 }
{
    let mut bytes = Bytes::new();
    bytes.push(byte);
    Piece::Numbers(bytes, Note::new())
}

/// An undocumented instruction with its note, if its bytes are there; otherwise its first byte.
#[tactic(auto, unfolding(source_forms::specs::Pieces::len_of))]
fn odd_piece(profile: Profile, bytes: &[u8]) -> Piece
    requires { 0 < length bytes.now }
    ensures exact { piece_view result
        ≡ odd_piece bytes.now (undocumented_at profile (slice_index bytes.now 0)) }
    ensures within { len_of (piece_view result) ≤ length bytes.now }
{
    let first = bytes[0];
    let Some(odd) = undocumented_in(profile, first) else {
        return one_number(first);
    };
    if odd.len as usize <= bytes.len() {
        let note = instruction_note(odd, byte_or_0(bytes, 1), byte_or_0(bytes, 2));
        Piece::Undocumented(first_bytes(bytes, odd.len as usize), note)
    } else {
        one_number(first)
    }
}

/// An instruction, if its bytes are there; otherwise what its first byte is.
#[tactic(auto, unfolding(source_forms::specs::Pieces::len_of))]
fn code_piece(profile: Profile, bytes: &[u8], address: u16) -> Piece
    requires { 0 < length bytes.now }
    ensures exact { piece_view result
        ≡ code_piece profile address bytes.now (row_at profile (slice_index bytes.now 0)) }
    ensures within { len_of (piece_view result) ≤ length bytes.now }
{
    let first = bytes[0];
    let Some(row) = decode_in(profile, first) else {
        return odd_piece(profile, bytes);
    };
    let fits = (row.len as usize <= bytes.len()) & (address as u32 + row.len as u32 <= 65536);
    if fits {
        Piece::Instruction(row, byte_or_0(bytes, 1), byte_or_0(bytes, 2))
    } else {
        one_number(first)
    }
}

/// The word that two bytes are, the low one first.
fn word_of(bytes: &[u8]) -> u16
    ensures { result ≡ word_of bytes.now }
{
    byte_or_0(bytes, 0) as u16 + 256 * byte_or_0(bytes, 1) as u16
}

/// A vector, if both its bytes are data; otherwise numbers and a note.
#[tactic(auto, unfolding(source_forms::specs::Pieces::len_of))]
fn data_piece(address: u16, two: &[u8], bytes: Bytes, note: Note) -> Piece
    ensures exact { piece_view result ≡ data_piece address two.now bytes.items note.items }
    ensures within { (room : ℕ) → length two.now ≤ room → length bytes.items ≤ room
        → len_of (piece_view result) ≤ room }
{
    if is_vector(address as usize) & (two.len() == 2) {
        Piece::Word(word_of(two))
    } else {
        Piece::Numbers(bytes, note)
    }
}

/// An address, if both its bytes are there; otherwise a number.
#[tactic(auto, unfolding(source_forms::specs::Pieces::len_of))]
fn address_piece(bytes: Bytes) -> Piece
    ensures exact { piece_view result ≡ address_piece bytes.items }
    ensures within { len_of (piece_view result) ≤ length bytes.items }
{
    if bytes.len() == 2 {
        Piece::Word(word_of(&bytes))
    } else {
        Piece::Numbers(bytes, Note::new())
    }
}

/// The word of the address before one to which RTS goes.
#[tactic(auto, unfolding(source_forms::specs::Pieces::len_of))]
fn return_of(word: u16) -> Piece
    ensures exact { piece_view result ≡ return_of word }
    ensures len { len_of (piece_view result) ≡ 2 }
{
    if word == 0xffff {
        Piece::Word(word)
    } else {
        Piece::ReturnWord(word + 1)
    }
}

/// The address before one to which RTS goes, if both its bytes are there; otherwise a number.
#[tactic(auto, unfolding(source_forms::specs::Pieces::len_of))]
fn return_piece(bytes: Bytes) -> Piece
    ensures exact { piece_view result ≡ return_piece bytes.items }
    ensures within { len_of (piece_view result) ≤ length bytes.items }
{
    if bytes.len() == 2 {
        return_of(word_of(&bytes))
    } else {
        Piece::Numbers(bytes, Note::new())
    }
}

/// What stands at an address that is marked as code.
fn code_at(
    profile: Profile,
    cells: &[Option<u8>],
    marks: &[Mark],
    flags: &[bool],
    address: u16,
    byte: u8,
) -> Piece
    requires size { length cells.now ≡ 65536 }
    requires here { cell_at cells.now address ≡ Some byte }
    requires kind { kind_of (mark_at marks.now address) byte ≡ Mark.Code }
    ensures exact { piece_view result
        ≡ piece_by Mark.Code profile cells.now marks.now flags.now address }
    ensures within { address + len_of (piece_view result) ≤ 65536 }
{
    let bytes = stretch(cells, marks, Mark::Code, address as usize, 3);
    code_piece(profile, &bytes, address)
}

/// What stands at an address that is marked as data.
fn data_at(
    profile: Profile,
    cells: &[Option<u8>],
    marks: &[Mark],
    flags: &[bool],
    address: u16,
) -> Piece
    requires size { length cells.now ≡ 65536 }
    ensures exact { piece_view result
        ≡ piece_by Mark.Data profile cells.now marks.now flags.now address }
    ensures within { address + len_of (piece_view result) ≤ 65536 }
{
    let two = stretch(cells, marks, Mark::Data, address as usize, 2);
    let most = room(flags, address as usize, 8);
    let bytes = stretch(cells, marks, Mark::Data, address as usize, most);
    let note = run_note(cells, marks, address, &bytes);
    data_piece(address, &two, bytes, note)
}

/// What stands at an address that is marked as text.
#[tactic(auto, unfolding(source_forms::specs::Pieces::len_of))]
fn text_at(
    profile: Profile,
    cells: &[Option<u8>],
    marks: &[Mark],
    flags: &[bool],
    address: u16,
) -> Piece
    requires size { length cells.now ≡ 65536 }
    ensures exact { piece_view result
        ≡ piece_by Mark.Text profile cells.now marks.now flags.now address }
    ensures within { address + len_of (piece_view result) ≤ 65536 }
{
    let most = room(flags, address as usize, 32);
    Piece::Letters(stretch(cells, marks, Mark::Text, address as usize, most))
}

/// What stands at an address that is marked as half of an address.
fn address_at(
    profile: Profile,
    cells: &[Option<u8>],
    marks: &[Mark],
    flags: &[bool],
    address: u16,
) -> Piece
    requires size { length cells.now ≡ 65536 }
    ensures exact { piece_view result
        ≡ piece_by Mark.Address profile cells.now marks.now flags.now address }
    ensures within { address + len_of (piece_view result) ≤ 65536 }
{
    address_piece(stretch(cells, marks, Mark::Address, address as usize, 2))
}

/// What stands at an address that is marked as half of the address before one to which RTS goes.
fn return_at(
    profile: Profile,
    cells: &[Option<u8>],
    marks: &[Mark],
    flags: &[bool],
    address: u16,
) -> Piece
    requires size { length cells.now ≡ 65536 }
    ensures exact { piece_view result
        ≡ piece_by Mark.Return profile cells.now marks.now flags.now address }
    ensures within { address + len_of (piece_view result) ≤ 65536 }
{
    return_piece(stretch(cells, marks, Mark::Return, address as usize, 2))
}

/// Returns what stands at an address, where there is a byte.
#[tactic(auto, unfolding(source_forms::specs::Pieces::piece_at))]
pub fn piece_at(
    profile: Profile,
    cells: &[Option<u8>],
    marks: &[Mark],
    flags: &[bool],
    address: u16,
    byte: u8,
) -> Piece
    requires size { length cells.now ≡ 65536 }
    requires here { cell_at cells.now address ≡ Some byte }
    ensures exact { piece_view result
        ≡ piece_at profile cells.now marks.now flags.now address byte }
    ensures within { address + len_of (piece_view result) ≤ 65536 }
{
    match kind_of(mark_at(marks, address as usize), byte) {
        Mark::Code => code_at(profile, cells, marks, flags, address, byte),
        Mark::Data => data_at(profile, cells, marks, flags, address),
        Mark::Text => text_at(profile, cells, marks, flags, address),
        Mark::Address => address_at(profile, cells, marks, flags, address),
        Mark::Return => return_at(profile, cells, marks, flags, address),
    }
}

/// The address that an operand refers to.
fn operand_refers(address: u16, mode: Mode, second: u8, third: u8) -> Option<u16>
    ensures { result ≡ operand_refers address mode second third }
{
    match mode {
        Mode::Abs | Mode::AbsX | Mode::AbsY | Mode::Ind => {
            Some(second as u16 + 256 * third as u16)
        }
        Mode::Rel => Some(branch_target(address, second)),
        Mode::Imp | Mode::Acc | Mode::Imm | Mode::Zp | Mode::ZpX => None,
        Mode::ZpY | Mode::IndX | Mode::IndY | Mode::IndZ => None,
    }
}

impl Piece {
    /// Returns how many bytes it has.
    #[tactic(auto, unfolding(source_forms::specs::Pieces::len_of))]
    pub fn len(&self) -> usize
        ensures { result ≡ len_of (piece_view self.now) }
    {
        match self {
            Piece::Instruction(row, _, _) => row.len as usize,
            Piece::Word(_) => 2,
            Piece::ReturnWord(_) => 2,
            Piece::Undocumented(bytes, _) => bytes.len(),
            Piece::Numbers(bytes, _) => bytes.len(),
            Piece::Letters(bytes) => bytes.len(),
        }
    }

    /// Returns how many addresses its label stands for.
    #[tactic(auto, unfolding(source_forms::specs::Pieces::reach_of))]
    pub fn reach(&self) -> u8
        ensures { result ≡ reach_of (piece_view self.now) }
    {
        match self {
            Piece::Instruction(row, _, _) => row.len,
            Piece::Word(_) => 2,
            Piece::ReturnWord(_) => 2,
            Piece::Undocumented(bytes, _) => bytes.len() as u8,
            Piece::Numbers(_, _) => 1,
            Piece::Letters(_) => 1,
        }
    }

    /// Returns the address that it refers to, if it refers to one.
    #[tactic(auto, unfolding(source_forms::specs::Pieces::refers))]
    pub fn refers(&self, address: u16) -> Option<u16>
        ensures { result ≡ refers address (piece_view self.now) }
    {
        match self {
            Piece::Instruction(row, second, third) => {
                operand_refers(address, row.mode, *second, *third)
            }
            Piece::Word(word) => Some(*word),
            Piece::ReturnWord(word) => Some(*word),
            Piece::Undocumented(_, _) => None,
            Piece::Numbers(_, _) => None,
            Piece::Letters(_) => None,
        }
    }
}
