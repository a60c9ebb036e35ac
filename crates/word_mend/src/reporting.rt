//! What was mended, in words.

ghost use Rattle.std.specs.Prelude.{◌≡◌, ◌++◌, ◌∷◌, [], IfOk, OnOk, string_bytes};
ghost use Rattle.word_mend.specs.Reported.{data_records, end_of, end_text, faults_text, is_end};
ghost use Rattle.word_mend.specs.Reported.{last_record, within_records, within_text};
ghost use Rattle.word_mend.specs.Word.{IsReport};
ghost use Rattle.word_mend.specs.declared.wording.TheConstants.{END_RECORD_COUNTED};
ghost use Rattle.tape_words.specs.declared.wording.TheConstants.{RECORD, RECORDS};
ghost use Rattle.tape_words.specs.Answers.{counted};
ghost use Rattle.tape_words.specs.Meanings.{there_text};

use crate::mending::Mended;
use crate::parts::{is_kept, kept_of, records_in};
use crate::wording;
use std::alloc::{AllocError, Global};
use tape_words::{COUNT_TWICE, EndRecord, RECORD, RECORDS, end_record, push_count, push_there};

/// Returns how many line ends, $00 and $13 stand within the records of a text.
fn within_records(text: &[u8]) -> usize
    ensures { result ≡ within_records text.now }
{
    let mut within = 0usize;
    let mut skipped = 0usize;
    for byte in text {
        if is_kept(*byte) {
            if *byte != b';' {
                within += skipped;
            }
            skipped = 0;
        } else {
            skipped += 1;
        }
    }
    within
}

/// Returns the last record of some kept bytes, from its `;` on; all of them if there is no `;`.
pub fn last_record(bytes: &[u8]) -> &[u8]
    ensures { result.now ≡ last_record bytes.now }
{
    let mut last = 0usize;
    for (place, byte) in bytes.iter().enumerate() {
        if *byte == b';' {
            last = place;
        }
    }
    bytes.split_at(last).1
}

/// Returns whether a record begins with `;00`.
pub fn is_end(bytes: &[u8]) -> bool
    ensures { result ≡ is_end bytes.now }
{
    bytes.len() >= 3 && bytes[0] == b';' && bytes[1] == b'0' && bytes[2] == b'0'
}

/// Returns how many data records some kept bytes have.
fn data_records(bytes: &[u8]) -> usize
    ensures { result ≡ data_records bytes.now }
{
    let records = records_in(bytes);
    if is_end(last_record(bytes)) {
        records.saturating_sub(1)
    } else {
        records
    }
}

/// Returns what is to be said of the end record of some kept bytes.
fn end_of(bytes: &[u8]) -> EndRecord
    ensures { result ≡ end_of bytes.now }
{
    let record = last_record(bytes);
    if is_end(record) {
        end_record(record, 0, data_records(bytes))
    } else {
        EndRecord::Missing
    }
}

/// Appends how many line ends, $00 and $13 stood within records, if any did.
fn push_within(words: &mut String, count: usize) -> Result<(), AllocError>
    ensures { OnOk result
        (string_bytes words.new ≡ string_bytes words.old ++ within_text count) }
{
    if count == 0 {
        return Ok(());
    }
    push_count(
        words,
        count as u64,
        wording::LINE_END_WITHIN,
        wording::LINE_ENDS_WITHIN,
    )
}

/// Appends how many data records an end record counted, and how many there are.
fn push_counts(words: &mut String, count: u64, records: usize) -> Result<(), AllocError>
    ensures { OnOk result (string_bytes words.new ≡ string_bytes words.old
        ++ (END_RECORD_COUNTED.now ++ (counted count RECORD.now RECORDS.now
        ++ (there_text records ++ 10 ∷ [])))) }
{
    words.push_str(wording::END_RECORD_COUNTED)?;
    push_count(words, count, RECORD, RECORDS)?;
    push_there(words, records)?;
    words.push_str("\n")
}

/// Appends what was wrong with an end record, if anything was.
fn push_end(words: &mut String, end: EndRecord, records: usize) -> Result<(), AllocError>
    ensures { OnOk result
        (string_bytes words.new ≡ string_bytes words.old ++ end_text end records) }
{
    match end {
        EndRecord::Right => Ok(()),
        EndRecord::Missing => words.push_str(wording::END_RECORD_WAS_MISSING),
        EndRecord::CountTwice => {
            words.push_str(COUNT_TWICE)?;
            words.push_str("\n")
        }
        EndRecord::WrongSum => words.push_str(wording::SUM_WAS_WRONG),
        EndRecord::WrongCount(count) => push_counts(words, count as u64, records),
    }
}

/// Returns a line for each thing that was wrong with a text.
fn faults_text(alloc: Global, text: &[u8]) -> Result<String, AllocError>
    ensures { IfOk result (λ said. string_bytes said ≡ faults_text text.now) }
{
    let mut words = String::new(alloc);
    push_within(&mut words, within_records(text))?;
    let kept = kept_of(alloc, text)?;
    push_end(&mut words, end_of(&kept), data_records(&kept))?;
    Ok(words)
}

/// Returns what was mended of a text, a line for each thing, or that nothing was wrong.
///
/// Errors: `AllocError` if an allocation fails. Source: mos65.
pub fn report(alloc: Global, text: &[u8], mended: &Mended) -> Result<String, AllocError>
    ensures { IfOk result (λ said. IsReport text.now mended.now.fault (string_bytes said)) }
{
    match mended.fault {
        None => {
            let mut words = String::new(alloc);
            words.push_str(wording::NOTHING_WAS_WRONG)?;
            Ok(words)
        }
        Some(_) => faults_text(alloc, text),
    }
}
