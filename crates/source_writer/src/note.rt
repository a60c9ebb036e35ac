//! What stands behind numbers.

ghost use Rattle.std.specs.Prelude.{◌≡◌, ◌+◌, ◌≤◌, ◌++◌, [], codes, length, slice_index};
ghost use Rattle.model.specs.InstructionText.{byte_text, word_text};
ghost use Rattle.source_forms.specs.Runs.{count_note, goes_on, is_number, run_length, run_note};
ghost use Rattle.source_forms.specs.Undocumented.{bare_operand, instruction_note, mark_of};

use crate::Mark;
use crate::stretch::{cell_at, is_kind, kind_of, mark_at};
use formatting::{Text, push_bytes, push_decimal, push_hex_address, push_hex_byte};
use model::Mode;
use source_forms::Undocumented;

/// A note: empty, or a comment.
pub type Note = Text;

/// Appends a byte as a number between two texts.
fn push_short(note: &mut Note, front: &[u8], byte: u8, suffix: &[u8])
    requires { length note.old.items + length front.now + length suffix.now ≤ 60 }
    ensures { note.new.items ≡ note.old.items ++ (front.now ++ (byte_text byte ++ suffix.now)) }
{
    push_bytes(note, front);
    push_bytes(note, b"$");
    push_hex_byte(note, byte);
    push_bytes(note, suffix);
}

/// Appends an address as a number, and a text.
fn push_long(note: &mut Note, word: u16, suffix: &[u8])
    requires { length note.old.items + length suffix.now ≤ 50 }
    ensures { note.new.items ≡ note.old.items ++ (codes " " ++ (word_text word ++ suffix.now)) }
{
    push_bytes(note, b" $");
    push_hex_address(note, word);
    push_bytes(note, suffix);
}

/// Appends an operand by its mode, its second byte and its third.
fn push_operand(note: &mut Note, mode: Mode, second: u8, third: u8)
    requires { length note.old.items ≤ 8 }
    ensures { note.new.items ≡ note.old.items ++ bare_operand mode second third }
{
    let word = second as u16 + 256 * third as u16;
    match mode {
        Mode::Imm => push_short(note, b" #", second, b""),
        Mode::Zp => push_short(note, b" ", second, b""),
        Mode::ZpX => push_short(note, b" ", second, b",X"),
        Mode::ZpY => push_short(note, b" ", second, b",Y"),
        Mode::IndX => push_short(note, b" (", second, b",X)"),
        Mode::IndY => push_short(note, b" (", second, b"),Y"),
        Mode::Abs => push_long(note, word, b""),
        Mode::AbsX => push_long(note, word, b",X"),
        Mode::AbsY => push_long(note, word, b",Y"),
        Mode::Imp | Mode::Acc | Mode::Ind | Mode::Rel | Mode::IndZ => {}
    }
}

/// What stands before a note, by the length of its line.
fn push_mark(note: &mut Note, len: u8)
    requires { note.old.items ≡ [] }
    ensures text { note.new.items ≡ mark_of len }
    ensures short { length note.new.items ≤ 3 }
{
    if len == 1 {
        push_bytes(note, b";");
    } else {
        push_bytes(note, b" ; ");
    }
}

/// Returns the note of an undocumented instruction, by its second byte and its third.
#[tactic(auto, unfolding(source_forms::specs::Undocumented::instruction_note))]
pub fn instruction_note(odd: Undocumented, second: u8, third: u8) -> Note
    ensures { result.items ≡ instruction_note odd second third }
{
    let mut note = Note::new();
    push_mark(&mut note, odd.len);
    push_bytes(&mut note, &odd.name);
    push_operand(&mut note, odd.mode, second, third);
    note
}

/// Whether an address has a byte, written as a number.
fn is_number(cells: &[Option<u8>], marks: &[Mark], byte: u8, address: usize) -> bool
    ensures { result ≡ is_number cells.now marks.now byte address }
{
    match cell_at(cells, address) {
        None => false,
        Some(here) => is_kind(Mark::Data, kind_of(mark_at(marks, address), here)) && here == byte,
    }
}

/// How many addresses in a row have a number, from an address on, at most so many.
fn run_length(cells: &[Option<u8>], marks: &[Mark], byte: u8, most: u32, address: usize) -> u32
    requires few { most ≤ 65536 }
    requires near { address ≤ 65535 }
    ensures exact { result ≡ run_length cells.now marks.now byte most address }
    ensures small { result ≤ most }
{
    let mut count = 0u32;
    let mut left = most;
    while left > 0 {
        if !is_number(cells, marks, byte, address + count as usize) {
            return count;
        }
        count += 1;
        left -= 1;
    }
    count
}

/// Whether a run was noted before an address.
fn goes_on(cells: &[Option<u8>], marks: &[Mark], byte: u8, address: u16) -> bool
    ensures { result ≡ goes_on cells.now marks.now byte address }
{
    address >= 8 && run_length(cells, marks, byte, 8, address as usize - 8) == 8
}

/// The note of a count.
fn count_note(byte: u8, count: u32) -> Note
    ensures { result.items ≡ count_note byte count }
{
    let mut note = Note::new();
    if count >= 16 {
        push_bytes(&mut note, b" ; ");
        push_decimal(&mut note, count as u64);
        push_bytes(&mut note, b" bytes $");
        push_hex_byte(&mut note, byte);
    }
    note
}

/// The first of some bytes, or 0 where there is none.
fn first(bytes: &[u8]) -> u8
    ensures { result ≡ slice_index bytes.now 0 }
{
    match bytes.first() {
        Some(byte) => *byte,
        None => 0,
    }
}

/// Returns what stands behind some numbers at an address: how long a run is that they begin.
#[tactic(auto, unfolding(source_forms::specs::Runs::run_note))]
pub fn run_note(cells: &[Option<u8>], marks: &[Mark], address: u16, bytes: &[u8]) -> Note
    ensures { result.items ≡ run_note cells.now marks.now address bytes.now }
{
    let byte = first(bytes);
    if bytes.len() == 8 && !goes_on(cells, marks, byte, address) {
        count_note(
            byte,
            run_length(cells, marks, byte, 65536, address as usize),
        )
    } else {
        Note::new()
    }
}
