//! Where more than one record puts a byte.

ghost use Rattle.std.specs.Prelude.{◌≡◌, ℕ, ◌+◌, ◌-◌, ◌<◌, ◌≤◌, List, Option, IfOk, drop, length};
ghost use Rattle.std.specs.Prelude.{slice_index};
ghost use Rattle.model.specs.Digits.{digit_value};
ghost use Rattle.model.specs.Tape.{TapeDenotes};
ghost use Rattle.word_info.specs.Overlaps.{AreNoted, AreTextOverlaps, overlaps_of, with_bytes};
ghost use Rattle.word_info.specs.Overlaps.{pair_at, with_cell_if, with_digits, with_place, written_again};

use crate::ranges::{Range, ranges_of};
use formatting::hex_value;
use image_reader::{TextForm, read_overlaps};
use memory_map::Image;
use std::alloc::{AllocError, Global};

/// Puts a cell at an address if that is asked for.
fn put_if(again: &mut Image, address: u16, is_asked: bool)
    ensures { again.new ≡ with_cell_if again.old address is_asked }
{
    if is_asked {
        again.put(address, 0);
    }
}

/// Notes that a record puts a byte at an address.
fn note_byte(once: &mut Image, again: &mut Image, address: u16)
    ensures { (n : ℕ → ℕ) → AreNoted once.old again.old n
        → AreNoted once.new again.new (with_bytes n address 1) }
{
    put_if(again, address, once.get(address).is_some());
    once.put(address, 0);
}

/// Notes that a record puts bytes from one address to before another.
fn note_bytes(once: &mut Image, again: &mut Image, first: u32, past: u32)
    requires order { first ≤ past }
    requires inside { past ≤ 65536 }
    ensures { (n : ℕ → ℕ) → AreNoted once.old again.old n
        → AreNoted once.new again.new (with_bytes n first (past - first)) }
{
    for address in first..past {
        note_byte(once, again, address as u16);
    }
}

/// Notes that a record puts so many bytes from an address on, as far as there are addresses.
fn note_record(once: &mut Image, again: &mut Image, first: u32, count: u32)
    requires first { first ≤ 65535 }
    requires count { count ≤ 255 }
    ensures { (n : ℕ → ℕ) → AreNoted once.old again.old n
        → AreNoted once.new again.new (with_bytes n first count) }
{
    let past = (first + count).min(65536);
    note_bytes(once, again, first, past);
}

/// Returns the value of a hex digit, by its index; 0 where there is none.
fn digit_at(digits: &[u8], index: usize) -> u32
    ensures value { result ≡ digit_value (slice_index digits.now index) }
    ensures small { result ≤ 15 }
{
    if index < digits.len() {
        hex_value(digits[index]).unwrap_or(0) as u32
    } else {
        0
    }
}

/// Returns the byte that two digits write, by the index of the high one.
fn pair_at(digits: &[u8], index: usize) -> u32
    requires { index < 65536 }
    ensures value { result ≡ pair_at digits.now index }
    ensures small { result ≤ 255 }
{
    digit_at(digits, index) * 16 + digit_at(digits, index + 1)
}

/// Returns what comes behind the byte at a place.
fn behind(text: &[u8], place: usize) -> &[u8]
    requires { place < length text.now }
    ensures { result.now ≡ drop (place + 1) text.now }
{
    text.split_at(place + 1).1
}

/// Notes the bytes of a record by the digits that begin with its own.
fn note_digits(once: &mut Image, again: &mut Image, digits: &[u8])
    ensures { (n : ℕ → ℕ) → AreNoted once.old again.old n
        → AreNoted once.new again.new (with_digits n digits.now) }
{
    let address = pair_at(digits, 2) * 256 + pair_at(digits, 4);
    note_record(once, again, address, pair_at(digits, 0));
}

/// Notes the bytes of the record that begins at a place of a text, if one does.
fn note_place(once: &mut Image, again: &mut Image, text: &[u8], place: usize)
    requires { place < length text.now }
    ensures { (n : ℕ → ℕ) → AreNoted once.old again.old n
        → AreNoted once.new again.new (with_place n text.now place) }
{
    if text[place] != b';' {
        return;
    }
    note_digits(once, again, behind(text, place));
}

/// Returns an image with a cell at each address at which more than one record of a tape puts a
/// byte.
fn written_again(alloc: Global, text: &[u8]) -> Result<Image, AllocError>
    ensures { IfOk result (λ again. (cells : List (Option ℕ)) → (tape : TapeDenotes text.now cells)
        → again ≡ written_again tape.pieces) }
{
    let Ok(mut once) = Image::new(alloc) else {
        return Err(AllocError);
    };
    let Ok(mut again) = Image::new(alloc) else {
        return Err(AllocError);
    };
    // For the proof: that every image has 65,536 cells.
    let _ = once.cells();
    let _ = again.cells();
    for place in 0..text.len() {
        note_place(&mut once, &mut again, text, place);
    }
    Ok(again)
}

/// Returns the ranges of the addresses at which more than one record of a tape puts a byte, in
/// rising order. The only error is that an allocation failed.
pub fn overlaps_of(alloc: Global, text: &[u8]) -> Result<Vec<Range>, AllocError>
    ensures { IfOk result (λ ranges. (cells : List (Option ℕ))
        → (tape : TapeDenotes text.now cells) → ranges.items ≡ overlaps_of tape.pieces) }
{
    let again = written_again(alloc, text)?;
    ranges_of(alloc, again.cells())
}

/// Returns the ranges of the addresses for which more than one data record of a text of Intel HEX
/// or of S-records has a byte, in rising order. The text denotes an image, so the only error is
/// that an allocation failed.
#[tactic(auto, using(crate::proofs::Noted::text_ranges))]
pub fn text_overlaps_of(
    alloc: Global,
    form: TextForm,
    text: &[u8],
) -> Result<Vec<Range>, AllocError>
    ensures { IfOk result (λ ranges. AreTextOverlaps form text.now ranges.items) }
{
    let Ok(again) = read_overlaps(alloc, form, text) else {
        return Err(AllocError);
    };
    let ranges = ranges_of(alloc, again.cells())?;
    Ok(ranges)
}
