//! What was mended of Intel HEX or of S-records, in words, and what is still wrong.

ghost use Rattle.std.specs.Prelude.{◌≡◌, ◌++◌, IfOk, IfSome, OnOk, string_bytes};
ghost use Rattle.std.specs.List.{flat_map};
ghost use Rattle.tape_words.specs.Meanings.{named_hex};
ghost use Rattle.word_mend.specs.RecordMending.{lacked_end};
ghost use Rattle.word_mend.specs.RecordReports.{IsRecordsReport, kind_text, line_text, place_text};
ghost use Rattle.word_mend.specs.RecordReports.{record_line, records_text, sum_text};

use crate::checksums::{WrongSum, wrong_sums};
use crate::records::MendedRecords;
use crate::wording;
use arguments::shown_name;
use image_files::record_note;
use image_reader::{RecordFault, RecordFaultKind, TextForm};
use std::alloc::{AllocError, Global};

/// Appends the number of a line.
fn push_line(words: &mut String, line: u64) -> Result<(), AllocError>
    ensures { OnOk result
        (string_bytes words.new ≡ string_bytes words.old ++ line_text line) }
{
    let front = wording::LINE;
    write!(words, "{front}{line}")
}

/// Appends a byte as two hex digits behind words.
#[tactic(auto, unfolding(tape_words::specs::Meanings::named_hex))]
fn push_byte(words: &mut String, front: &str, byte: u8) -> Result<(), AllocError>
    ensures { OnOk result (string_bytes words.new
        ≡ string_bytes words.old ++ named_hex front.now 2 byte) }
{
    write!(words, "{front}{byte:02X}")
}

/// Appends the line of a wrong checksum, with words before it and before the right one.
fn push_sum(words: &mut String, sum: WrongSum, was: &str, right: &str) -> Result<(), AllocError>
    ensures { OnOk result (string_bytes words.new
        ≡ string_bytes words.old ++ sum_text was.now right.now sum) }
{
    push_line(words, sum.line)?;
    push_byte(words, was, sum.sums.was)?;
    push_byte(words, right, sum.sums.right)?;
    words.push_str("\n")
}

/// Appends a line for each wrong checksum, with words before it and before the right one.
///
/// Errors: `AllocError` if an allocation fails.
pub fn push_sums(
    words: &mut String,
    sums: &[WrongSum],
    was: &str,
    right: &str,
) -> Result<(), AllocError>
    ensures { OnOk result (string_bytes words.new
        ≡ string_bytes words.old ++ flat_map (sum_text was.now right.now) sums.now) }
{
    for sum in sums {
        push_sum(words, *sum, was, right)?;
    }
    Ok(())
}

/// Returns a line for each thing that was wrong with a text.
fn records_text(
    alloc: Global,
    form: TextForm,
    text: &[u8],
    was_endless: bool,
) -> Result<String, AllocError>
    requires { was_endless ≡ lacked_end form text.now }
    ensures { IfOk result (λ said. string_bytes said ≡ records_text form text.now) }
{
    let mut words = String::new(alloc);
    let sums = wrong_sums(alloc, form, text)?;
    push_sums(
        &mut words,
        &sums,
        wording::THE_CHECKSUM_WAS,
        wording::AND_IS_NOW,
    )?;
    if was_endless {
        words.push_str(wording::END_RECORD_WAS_MISSING)?;
    }
    Ok(words)
}

/// Returns what was mended of a text, a line for each thing, or that nothing was wrong.
///
/// Errors: `AllocError` if an allocation fails. Source: mos65.
pub fn records_report(
    alloc: Global,
    form: TextForm,
    text: &[u8],
    mended: &MendedRecords,
) -> Result<String, AllocError>
    requires { IfSome mended.now.fault (λ _. mended.now.lacked_end ≡ lacked_end form text.now) }
    ensures { IfOk result
        (λ said. IsRecordsReport form text.now mended.now.fault (string_bytes said)) }
{
    match mended.fault {
        None => {
            let mut words = String::new(alloc);
            words.push_str(wording::NOTHING_WAS_WRONG)?;
            Ok(words)
        }
        Some(_) => records_text(alloc, form, text, mended.lacked_end),
    }
}

/// Appends where a fault is.
#[tactic(auto, unfolding(crate::specs::RecordReports::place_text))]
fn push_place(
    words: &mut String,
    alloc: Global,
    file: &str,
    line: u64,
    column: u64,
) -> Result<(), AllocError>
    ensures { OnOk result (string_bytes words.new
        ≡ string_bytes words.old ++ place_text file.now line column) }
{
    let file = shown_name(alloc, file)?;
    write!(words, "{file}:{line}:{column}: ")
}

/// Appends the name and the number of a fault and what it means, and ends the line.
#[tactic(auto, unfolding(crate::specs::RecordReports::kind_text))]
fn push_kind(words: &mut String, kind: RecordFaultKind) -> Result<(), AllocError>
    ensures { OnOk result
        (string_bytes words.new ≡ string_bytes words.old ++ kind_text kind) }
{
    let (name, number) = (kind.name(), kind.number());
    let note = record_note(kind);
    writeln!(words, "{name} {number}{note}")
}

/// Returns the line that says a fault of a text of records: `FILE:LINE:COLUMN: NAME NUMBER`, and
/// what it means.
///
/// Errors: `AllocError` if an allocation fails.
pub fn record_line(alloc: Global, file: &str, fault: RecordFault) -> Result<String, AllocError>
    ensures { IfOk result (λ words. string_bytes words ≡ record_line file.now fault) }
{
    let mut words = String::new(alloc);
    push_place(
        &mut words,
        alloc,
        file,
        fault.line as u64,
        fault.column as u64,
    )?;
    push_kind(&mut words, fault.kind)?;
    Ok(words)
}
