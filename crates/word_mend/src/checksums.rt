//! The checksums of Intel HEX and of S-records that are wrong.

ghost use Rattle.std.specs.Prelude.{◌≡◌, ◌≤◌, ◌<◌, ◌++◌, ◌%◌, ◌==◌, IfOk, OnOk, length, not, sum, true};
ghost use Rattle.image_reader.specs.Records.{record_bytes};
ghost use Rattle.image_reader.specs.declared.form.TextForm.TheVariants.{Hex, SRecord};
ghost use Rattle.image_writer.specs.ImageTexts.{checksum};
ghost use Rattle.model.specs.Tape.{bytes_of_digits};
ghost use Rattle.word_mend.specs.RecordMending.{checksums_if, is_sum_fault, mark_len, sum_at};
ghost use Rattle.word_mend.specs.RecordMending.{total_of, wrong_sum, wrong_sums};
ghost use Rattle.word_mend.specs.RecordParts.{are_pairs, extra_of, is_type, is_whole};

use image_reader::TextForm;
use line_parts::next_line;
use std::alloc::{AllocError, Global};
use tape_words::are_digits;

/// The checksum that a record has, and the right one.
#[derive(Clone, Copy)]
pub struct Checksums {
    pub was: u8,
    pub right: u8,
}

/// A wrong checksum, where no other fault is in its record.
#[derive(Clone, Copy)]
pub struct WrongSum {
    /// The number of the record's line, from 1 on.
    pub line: u64,
    pub sums: Checksums,
}

/// Returns how many bytes of a record its first byte does not count.
fn extra_of(form: TextForm) -> usize
    ensures value { result ≡ extra_of form }
    ensures small { result ≤ 5 }
{
    match form {
        TextForm::Hex => 5,
        TextForm::SRecord => 1,
    }
}

/// Returns what the bytes of a record sum to, modulo 256.
fn total_of(form: TextForm) -> u32
    ensures value { result ≡ total_of form }
    ensures small { result ≤ 255 }
{
    match form {
        TextForm::Hex => 0,
        TextForm::SRecord => 255,
    }
}

/// Returns the sum of bytes.
fn sum_of(bytes: &[u8]) -> u32
    requires { length bytes.now ≤ 260 }
    ensures { result ≡ sum bytes.now }
{
    bytes.iter().map(|byte| *byte as u32).sum()
}

/// Returns the checksum with which bytes have a sum, modulo 256.
fn checksum(total: u32, bytes: &[u8]) -> u8
    requires few { length bytes.now ≤ 260 }
    requires total { total ≤ 255 }
    ensures { result ≡ checksum total bytes.now }
{
    ((total + 256 - sum_of(bytes) % 256) % 256) as u8
}

/// Returns the last of some bytes, which is their checksum, and the right one, if it is wrong.
fn wrong_of(total: u32, bytes: &[u8]) -> Option<Checksums>
    requires some { 0 < length bytes.now }
    requires few { length bytes.now ≤ 260 }
    requires total { total ≤ 255 }
    ensures { result ≡ checksums_if (not (sum bytes.now % 256 == total)) total bytes.now }
{
    if sum_of(bytes) % 256 == total {
        return None;
    }
    match bytes {
        [] => None,
        [front @ .., was] => Some(Checksums {
            was: *was,
            right: checksum(total, front),
        }),
    }
}

/// Returns whether a record has as many bytes as its first one says, and some that it does not
/// count.
fn is_whole(extra: usize, bytes: &[u8]) -> bool
    requires { extra ≤ 5 }
    ensures value { result ≡ is_whole extra bytes.now }
    ensures some { result ≡ true → 0 < length bytes.now }
    ensures few { result ≡ true → length bytes.now ≤ 260 }
{
    match bytes {
        [] => false,
        [count, ..] => bytes.len() == extra + *count as usize,
    }
}

/// Returns whether digits are pairs of hex digits.
fn are_pairs(digits: &[u8]) -> bool
    ensures { result ≡ are_pairs digits.now }
{
    digits.len() % 2 == 0 && are_digits(digits)
}

/// Returns the checksum of a record by its digits, and the right one, if it alone is wrong.
fn wrong_in(alloc: Global, form: TextForm, digits: &[u8]) -> Result<Option<Checksums>, AllocError>
    ensures { IfOk result (λ found. found ≡ checksums_if (is_sum_fault (record_bytes
        (mark_len form) (extra_of form) (total_of form) digits.now)) (total_of form)
        (bytes_of_digits digits.now)) }
{
    if !are_pairs(digits) {
        return Ok(None);
    }
    let Ok(bytes) = hex::decode(alloc, digits) else {
        return Err(AllocError);
    };
    if !is_whole(extra_of(form), &bytes) {
        return Ok(None);
    }
    Ok(wrong_of(total_of(form), &bytes))
}

/// Returns the checksum of a line of Intel HEX, and the right one, if it alone is wrong.
#[tactic(auto, using(crate::proofs::RecordSums::hex_unmarked))]
fn hex_sum(alloc: Global, line: &[u8]) -> Result<Option<Checksums>, AllocError>
    ensures { IfOk result (λ found. found ≡ wrong_sum Hex line.now) }
{
    match line {
        [] => Ok(None),
        [mark, digits @ ..] => {
            if *mark == b':' {
                wrong_in(alloc, TextForm::Hex, digits)
            } else {
                Ok(None)
            }
        }
    }
}

/// Returns whether there are S-records of a type.
fn is_type(digit: u8) -> bool
    ensures { result ≡ is_type digit }
{
    match digit {
        b'0' | b'1' | b'2' | b'3' | b'5' | b'6' | b'7' | b'8' | b'9' => true,
        _ => false,
    }
}

/// Returns the checksum of a line of S-records, and the right one, if it alone is wrong.
#[tactic(auto, using(crate::proofs::RecordSums::s_unmarked, crate::proofs::RecordSums::s_untyped))]
fn s_sum(alloc: Global, line: &[u8]) -> Result<Option<Checksums>, AllocError>
    ensures { IfOk result (λ found. found ≡ wrong_sum SRecord line.now) }
{
    match line {
        [] => Ok(None),
        [_] => Ok(None),
        [mark, digit, digits @ ..] => {
            if *mark != b'S' {
                return Ok(None);
            }
            if !is_type(*digit) {
                return Ok(None);
            }
            wrong_in(alloc, TextForm::SRecord, digits)
        }
    }
}

/// Returns the checksum of a line and the right one, if that is the fault of the line.
///
/// Errors: `AllocError` if an allocation fails.
pub fn wrong_sum(
    alloc: Global,
    form: TextForm,
    line: &[u8],
) -> Result<Option<Checksums>, AllocError>
    ensures { IfOk result (λ found. found ≡ wrong_sum form line.now) }
{
    match form {
        TextForm::Hex => hex_sum(alloc, line),
        TextForm::SRecord => s_sum(alloc, line),
    }
}

/// Appends a wrong checksum with the number of its line, if there is one.
fn push_sum(sums: &mut Vec<WrongSum>, line: u64, found: Option<Checksums>) -> Result<(), AllocError>
    ensures { OnOk result (sums.new.items ≡ sums.old.items ++ sum_at line found) }
{
    if let Some(found) = found {
        sums.push(WrongSum { line, sums: found })?;
    }
    Ok(())
}

/// Returns the wrong checksums of a text, with the numbers of their lines.
///
/// A record of which more is wrong has none. The only error is that an allocation failed.
#[tactic(auto, using(crate::proofs::RecordLines::sums_end), unfolding(crate::specs::RecordMending::wrong_sums))]
pub fn wrong_sums(alloc: Global, form: TextForm, text: &[u8]) -> Result<Vec<WrongSum>, AllocError>
    ensures { IfOk result (λ sums. sums.items ≡ wrong_sums form text.now) }
{
    let mut sums = Vec::new(alloc);
    let mut rest = text;
    let mut number = 0u64;
    while rest.len() > 0 {
        let (line, behind) = next_line(rest);
        number += 1;
        push_sum(&mut sums, number, wrong_sum(alloc, form, line)?)?;
        rest = behind;
    }
    Ok(sums)
}
