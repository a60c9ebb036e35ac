//! What a fault of a tape means where it shows.

ghost use Rattle.std.specs.Prelude.{◌≡◌, ◌-◌, ◌++◌, OnOk, codes, length, string_bytes};
ghost use Rattle.tape_words.specs.Meanings.{count_text, end_sum_text, known_count_text};
ghost use Rattle.tape_words.specs.Meanings.{known_sum_text, last_record, meaning_text, named_hex};
ghost use Rattle.tape_words.specs.Meanings.{records_before, sum_text, sums_text, there_text};
ghost use Rattle.tape_words.specs.Meanings.{truncated_text, within_text};

use crate::instruction::push_count;
use crate::records::{EndRecord, RecordNumbers, end_of, numbers_at};
use crate::wording;
use model::{TapeFault, TapeFaultKind};
use std::alloc::AllocError;

/// Returns how many records begin before a place.
fn records_before(text: &[u8], place: usize) -> usize
    ensures { result ≡ records_before text.now place }
{
    let before = text.split_at(place.min(text.len())).0;
    let mut count = 0usize;
    for byte in before {
        if *byte == b';' {
            count += 1;
        }
    }
    count
}

/// Returns where the last record begins; 0 if there is none.
fn last_record(text: &[u8]) -> usize
    ensures { result ≡ last_record text.now }
{
    let mut found = 0usize;
    for at in 0..text.len() {
        if text[at] == b';' {
            found = at;
        }
    }
    found
}

/// Appends a number of four hex digits behind words.
#[tactic(auto, unfolding(crate::specs::Meanings::named_hex))]
fn push_word(words: &mut String, front: &str, number: u32) -> Result<(), AllocError>
    ensures { OnOk result (string_bytes words.new
        ≡ string_bytes words.old ++ named_hex front.now 4 number) }
{
    write!(words, "{front}{number:04X}")
}

/// Appends a byte as two hex digits behind a `$`.
#[tactic(auto, unfolding(crate::specs::Meanings::named_hex))]
fn push_byte(words: &mut String, byte: u8) -> Result<(), AllocError>
    ensures { OnOk result (string_bytes words.new
        ≡ string_bytes words.old ++ named_hex (codes "$") 2 byte) }
{
    write!(words, "${byte:02X}")
}

/// Appends the sum of a record behind words, and its checksum.
#[tactic(auto, unfolding(crate::specs::Meanings::sums_text))]
fn push_sums(words: &mut String, front: &str, numbers: RecordNumbers) -> Result<(), AllocError>
    ensures { OnOk result (string_bytes words.new
        ≡ string_bytes words.old ++ sums_text front.now numbers) }
{
    push_word(words, front, numbers.sum)?;
    push_word(words, wording::ITS_CHECKSUM_IS, numbers.checksum)
}

/// Appends what the sum of an end record is that its checksum does not have.
fn push_end_sum(
    words: &mut String,
    end: EndRecord,
    numbers: RecordNumbers,
) -> Result<(), AllocError>
    ensures { OnOk result (string_bytes words.new
        ≡ string_bytes words.old ++ end_sum_text end numbers) }
{
    match end {
        EndRecord::CountTwice => words.push_str(wording::COUNT_TWICE),
        EndRecord::Missing => push_sums(words, wording::END_RECORD_SUMS_TO, numbers),
        EndRecord::Right => push_sums(words, wording::END_RECORD_SUMS_TO, numbers),
        EndRecord::WrongSum => push_sums(words, wording::END_RECORD_SUMS_TO, numbers),
        EndRecord::WrongCount(_) => push_sums(words, wording::END_RECORD_SUMS_TO, numbers),
    }
}

/// Appends what a record's sum is that its checksum does not have, after so many data records.
fn push_known_sum(
    words: &mut String,
    records: usize,
    numbers: RecordNumbers,
) -> Result<(), AllocError>
    ensures { OnOk result (string_bytes words.new
        ≡ string_bytes words.old ++ known_sum_text records numbers) }
{
    if numbers.length > 0 {
        push_sums(words, wording::RECORD_SUMS_TO, numbers)
    } else {
        push_end_sum(words, end_of(Some(numbers), records), numbers)
    }
}

/// Appends the same, if all digits of the record are there.
fn push_sum(
    words: &mut String,
    records: usize,
    numbers: Option<RecordNumbers>,
) -> Result<(), AllocError>
    ensures { OnOk result (string_bytes words.new
        ≡ string_bytes words.old ++ sum_text records numbers) }
{
    match numbers {
        None => words.push_str(wording::SUM_IS_WRONG),
        Some(numbers) => push_known_sum(words, records, numbers),
    }
}

/// Appends how many records there are, behind how many an end record counts.
///
/// Errors: `AllocError` if an allocation fails.
pub fn push_there(words: &mut String, records: usize) -> Result<(), AllocError>
    ensures { OnOk result (string_bytes words.new
        ≡ string_bytes words.old ++ there_text records) }
{
    let are = if records == 1 {
        wording::IS
    } else {
        wording::ARE
    };
    let there = wording::AND_THERE;
    write!(words, "{there}{are} {records}")
}

/// Appends how many records an end record counts, and how many there are.
fn push_known_counts(
    words: &mut String,
    records: usize,
    numbers: RecordNumbers,
) -> Result<(), AllocError>
    ensures { OnOk result (string_bytes words.new
        ≡ string_bytes words.old ++ known_count_text records numbers) }
{
    words.push_str(wording::END_RECORD_COUNTS)?;
    push_count(
        words,
        numbers.address as u64,
        wording::RECORD,
        wording::RECORDS,
    )?;
    push_there(words, records)?;
    Ok(())
}

/// Appends the same, if all digits of the end record are there.
fn push_counts(
    words: &mut String,
    records: usize,
    numbers: Option<RecordNumbers>,
) -> Result<(), AllocError>
    ensures { OnOk result (string_bytes words.new
        ≡ string_bytes words.old ++ count_text records numbers) }
{
    match numbers {
        None => words.push_str(wording::COUNTS_ANOTHER),
        Some(numbers) => push_known_counts(words, records, numbers),
    }
}

/// Appends what stands among the digits of a record.
fn push_within(words: &mut String, byte: u8) -> Result<(), AllocError>
    ensures { OnOk result (string_bytes words.new
        ≡ string_bytes words.old ++ within_text byte) }
{
    match byte {
        0 | b'\r' | b'\n' | 0x13 => words.push_str(wording::LINE_END_WITHIN),
        _ => {
            push_byte(words, byte)?;
            words.push_str(wording::IS_NO_HEX_DIGIT)
        }
    }
}

/// Appends how a text ends too soon: in its last record, or with no end record.
fn push_truncated(words: &mut String, last: Option<RecordNumbers>) -> Result<(), AllocError>
    ensures { OnOk result (string_bytes words.new
        ≡ string_bytes words.old ++ truncated_text last) }
{
    match last {
        Some(_) => words.push_str(wording::END_RECORD_IS_MISSING),
        None => words.push_str(wording::ENDS_WITHIN_RECORD),
    }
}

/// Appends a byte and what is said of it.
fn push_other(words: &mut String, byte: u8, behind: &str) -> Result<(), AllocError>
    ensures { OnOk result (string_bytes words.new
        ≡ string_bytes words.old ++ (named_hex (codes "$") 2 byte ++ behind.now)) }
{
    push_byte(words, byte)?;
    words.push_str(behind)
}

/// Appends what a fault of a tape means where it shows.
pub fn push_meaning(words: &mut String, text: &[u8], fault: TapeFault) -> Result<(), AllocError>
    ensures { OnOk result (string_bytes words.new
        ≡ string_bytes words.old ++ meaning_text text.now fault.offset fault.kind) }
{
    let place = fault.offset as usize;
    let byte = text.get(place).copied().unwrap_or(0);
    match fault.kind {
        TapeFaultKind::NoRecord => words.push_str(wording::NO_RECORD),
        TapeFaultKind::BadHex => push_within(words, byte),
        TapeFaultKind::BadChecksum => {
            push_sum(words, records_before(text, place), numbers_at(text, place))
        }
        TapeFaultKind::PastEnd => words.push_str(wording::PAST_END),
        TapeFaultKind::Truncated => push_truncated(words, numbers_at(text, last_record(text))),
        TapeFaultKind::BadCount => {
            push_counts(words, records_before(text, place), numbers_at(text, place))
        }
        TapeFaultKind::JunkAfterEnd => push_other(words, byte, wording::AFTER_END_RECORD),
        TapeFaultKind::JunkBetween => push_other(words, byte, wording::IS_NO_SEMICOLON),
        TapeFaultKind::OutOfMemory => words.push_str(wording::OUT_OF_MEMORY),
        TapeFaultKind::TooLong => words.push_str(wording::TOO_LONG),
    }
}
