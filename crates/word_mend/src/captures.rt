//! A tape from what the terminal of a KIM-1 showed while one was written.

ghost use Rattle.std.specs.Prelude.{◌≡◌, ◌⊎◌, ◌++◌, ℕ, List, Option, IfErr, IfOk, MatchResult, OnOk};
ghost use Rattle.std.specs.Prelude.{string_bytes};
ghost use Rattle.model.specs.Tape.{FirstFault, TapeDenotes};
ghost use Rattle.model.specs.TapeFault.{out_of_memory};
ghost use Rattle.word_mend.specs.Captures.{IsCapture, at_line, before_text, behind_text};
ghost use Rattle.word_mend.specs.Captures.{capture_text, captured_tape, left_out, some_left_out};
ghost use Rattle.word_mend.specs.Captures.{up_to_end};

use crate::parts::{kept_of, push_records};
use crate::reporting::{is_end, last_record};
use crate::wording;
use image_files::at_record;
use memory_map::Image;
use model::{TAPE_OUT_OF_MEMORY, TapeFault};
use papertape::{each_text_has_one_reading, looks_like_tape, read_tape};
use std::alloc::{AllocError, Global};
use tape_words::{BYTE, BYTES, line_of, push_count};

/// A tape that was made of a capture.
#[derive(Drop)]
pub struct CapturedTape {
    /// The text of the tape.
    pub text: Vec<u8>,
    /// The image that it denotes.
    pub image: Image,
}

// ---- the parts of a capture

/// Returns kept bytes without what follows their last record, if that is an end record.
#[tactic(auto, unfolding(crate::specs::Captures::up_to_end))]
fn up_to_end(bytes: &[u8]) -> &[u8]
    ensures { result.now ≡ up_to_end bytes.now }
{
    let last = last_record(bytes);
    if is_end(last) {
        let behind = last.len().saturating_sub(11);
        bytes.split_at(bytes.len().saturating_sub(behind)).0
    } else {
        bytes
    }
}

// ---- the tape

/// Returns the records of a capture as they stand, each in a line of its own.
#[tactic(auto, unfolding(crate::specs::Captures::captured_tape))]
fn captured_tape(alloc: Global, text: &[u8]) -> Result<Vec<u8>, AllocError>
    ensures { IfOk result (λ out. out.items ≡ captured_tape text.now) }
{
    let kept = kept_of(alloc, at_record(text).1)?;
    let mut out = Vec::new(alloc);
    push_records(&mut out, up_to_end(&kept))?;
    Ok(out)
}

/// Returns the tape of a text that is a capture of a KIM-1's terminal: its records as they stand,
/// each in a line of its own. Text before the first `;` and behind the end record is left out.
///
/// Errors: the first fault of the tape that would be made, with its offset there, if the records or
/// the end record are wrong, or if a `;` stands behind the end record; `OutOfMemory` at offset 0 if
/// an allocation fails. Source: KIM-1 manual, which ignores what comes before a `;`; mos65.
pub fn mend_capture(alloc: Global, text: &[u8]) -> Result<CapturedTape, TapeFault>
    // What is returned.
    ensures text { IfOk result (λ c. c.text.items ≡ captured_tape text.now) }
    // It denotes the image that is returned with it.
    ensures denotes { IfOk result (λ c. TapeDenotes c.text.items c.image) }
    // That is the image of the capture's records as they stand; no other `;` is in the capture.
    ensures capture { IfOk result (λ c. IsCapture text.now c.image) }
    // A tape that can be made is made, unless memory runs out.
    ensures only { (cells : List (Option ℕ)) → TapeDenotes (captured_tape text.now) cells
        → MatchResult result (λ c. c.image ≡ cells) (λ f. f ≡ out_of_memory) }
    // Each error is the first fault of the tape that would be made, or `OutOfMemory`.
    ensures refused { IfErr result (λ f. (f ≡ out_of_memory)
        ⊎ FirstFault (captured_tape text.now) f.kind f.offset) }
{
    // For the proof: a text that denotes an image has no fault, nor another image.
    each_text_has_one_reading();
    let Ok(out) = captured_tape(alloc, text) else {
        return Err(TAPE_OUT_OF_MEMORY);
    };
    match read_tape(alloc, &out) {
        Ok(image) => Ok(CapturedTape { text: out, image }),
        Err(fault) => Err(fault),
    }
}

/// Returns whether a text looks like a capture of which more is wrong: text comes first, and then a
/// right record. It says which fault is told, of which each is one.
///
/// The only error is that an allocation failed.
pub fn looks_like_capture(alloc: Global, text: &[u8]) -> Result<bool, AllocError> {
    let (before, tape) = at_record(text);
    if kept_of(alloc, before)?.is_empty() {
        return Ok(false);
    }
    looks_like_tape(alloc, tape)
}

// ---- what is said

/// Appends in which line a record stands, and ends the line.
fn push_at_line(words: &mut String, place: &str, line: u64) -> Result<(), AllocError>
    ensures { OnOk result
        (string_bytes words.new ≡ string_bytes words.old ++ at_line place.now line) }
{
    writeln!(words, "{place}{line}")
}

/// Appends how many bytes are left out where.
#[tactic(auto, unfolding(crate::specs::Captures::some_left_out))]
fn push_some(words: &mut String, count: u64, place: &str, line: u64) -> Result<(), AllocError>
    ensures { OnOk result (string_bytes words.new
        ≡ string_bytes words.old ++ some_left_out count place.now line) }
{
    words.push_str(wording::LEFT_OUT)?;
    push_count(words, count, BYTE, BYTES)?;
    push_at_line(words, place, line)?;
    Ok(())
}

/// Appends how many bytes are left out where, if any are.
#[tactic(auto, unfolding(crate::specs::Captures::left_out))]
fn push_left_out(words: &mut String, count: u64, place: &str, line: u64) -> Result<(), AllocError>
    ensures { OnOk result
        (string_bytes words.new ≡ string_bytes words.old ++ left_out count place.now line) }
{
    if count == 0 {
        return Ok(());
    }
    push_some(words, count, place, line)
}

/// Appends how much is left out before the first record, if anything is.
fn push_before(words: &mut String, alloc: Global, text: &[u8]) -> Result<(), AllocError>
    ensures { OnOk result
        (string_bytes words.new ≡ string_bytes words.old ++ before_text text.now) }
{
    let before = at_record(text).0;
    let kept = kept_of(alloc, before)?;
    let line = line_of(text, before.len() as u64);
    push_left_out(words, kept.len() as u64, wording::BEFORE_RECORD, line)?;
    Ok(())
}

/// Appends how much is left out behind the end record, if anything is.
fn push_behind(words: &mut String, alloc: Global, text: &[u8]) -> Result<(), AllocError>
    ensures { OnOk result
        (string_bytes words.new ≡ string_bytes words.old ++ behind_text text.now) }
{
    let kept = kept_of(alloc, at_record(text).1)?;
    let behind = kept.len().saturating_sub(up_to_end(&kept).len());
    let line = line_of(
        text,
        text.len().saturating_sub(last_record(text).len()) as u64,
    );
    push_left_out(words, behind as u64, wording::BEHIND_END_RECORD, line)?;
    Ok(())
}

/// Returns what is left out of a capture, a line for each place.
///
/// Errors: `AllocError` if an allocation fails. Source: mos65.
pub fn capture_report(alloc: Global, text: &[u8]) -> Result<String, AllocError>
    ensures { IfOk result (λ said. string_bytes said ≡ capture_text text.now) }
{
    let mut words = String::new(alloc);
    push_before(&mut words, alloc, text)?;
    push_behind(&mut words, alloc, text)?;
    Ok(words)
}
