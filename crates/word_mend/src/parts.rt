//! The parts of a mended tape.

ghost use Rattle.std.specs.Prelude.{◌≡◌, ◌++◌, ◌∷◌, [], IfOk};
ghost use Rattle.hex.specs.Hex.{encode_upper};
ghost use Rattle.model.specs.TapeText.{end_line};
ghost use Rattle.word_mend.specs.Mending.{before_end, is_at_end, is_end_record, is_kept, kept};
ghost use Rattle.word_mend.specs.Mending.{records_in, with_line_ends};

use formatting::digits_of;
use std::alloc::{AllocError, Global};
use tape_words::are_digits;

/// Returns whether a byte is neither a line end, $00 nor $13.
pub fn is_kept(byte: u8) -> bool
    ensures { result ≡ is_kept byte }
{
    !(byte == 0 || byte == 13 || byte == 10 || byte == 19)
}

/// Returns the bytes of a text without line ends, $00 and $13.
#[tactic(auto, unfolding(crate::specs::Mending::kept))]
pub fn kept_of(alloc: Global, text: &[u8]) -> Result<Vec<u8>, AllocError>
    ensures { IfOk result (λ k. k.items ≡ kept text.now) }
{
    let mut kept = Vec::new(alloc);
    for byte in text {
        if is_kept(*byte) {
            kept.push(*byte)?;
        }
    }
    Ok(kept)
}

/// Returns whether some bytes are an end record, whatever it says.
#[tactic(auto, unfolding(crate::specs::Mending::is_end_record))]
fn is_end_record(text: &[u8]) -> bool
    ensures { result ≡ is_end_record text.now }
{
    if text.len() != 11 {
        return false;
    }
    let digits = text.split_at(1).1;
    text[0] == b';' && text[1] == b'0' && text[2] == b'0' && are_digits(digits)
}

/// Returns what comes before the end record, if the last eleven bytes are one; otherwise all.
#[tactic(auto, unfolding(crate::specs::Mending::before_end))]
pub fn before_end(text: &[u8]) -> &[u8]
    ensures { result.now ≡ before_end text.now }
{
    let place = text.len().saturating_sub(11);
    let (front, end) = text.split_at(place);
    if is_end_record(end) { front } else { text }
}

/// Returns how many records begin in a text.
#[tactic(auto, unfolding(crate::specs::Mending::records_in))]
pub fn records_in(text: &[u8]) -> usize
    ensures { result ≡ records_in text.now }
{
    let mut count = 0usize;
    for byte in text {
        if *byte == b';' {
            count += 1;
        }
    }
    count
}

/// Returns whether a record ends before some bytes.
fn is_at_end(rest: &[u8]) -> bool
    ensures { result ≡ is_at_end rest.now }
{
    match rest {
        [] => true,
        [byte, ..] => *byte == b';',
    }
}

/// Appends records, and CR LF after each.
pub fn push_records(out: &mut Vec<u8>, records: &[u8]) -> Result<(), AllocError>
    ensures { IfOk result (λ _. out.new.items ≡ out.old.items ++ with_line_ends records.now) }
{
    for (place, byte) in records.iter().enumerate() {
        out.push(*byte)?;
        if is_at_end(records.split_at(place + 1).1) {
            out.extend_from_slice(b"\r\n")?;
        }
    }
    Ok(())
}

/// Appends the two digits of a byte.
fn push_byte(out: &mut Vec<u8>, byte: u8) -> Result<(), AllocError>
    ensures { IfOk result (λ _. out.new.items ≡ out.old.items ++ encode_upper (byte ∷ [])) }
{
    out.extend_from_slice(&digits_of(byte))
}

/// Appends the end record after so many data records.
pub fn push_end_line(out: &mut Vec<u8>, count: u16) -> Result<(), AllocError>
    ensures { IfOk result (λ _. out.new.items ≡ out.old.items ++ end_line count) }
{
    let sum = count / 256 + count % 256;
    out.push(b';')?;
    push_byte(out, 0)?;
    push_byte(out, (count / 256) as u8)?;
    push_byte(out, (count % 256) as u8)?;
    push_byte(out, (sum / 256) as u8)?;
    push_byte(out, (sum % 256) as u8)?;
    out.extend_from_slice(b"\r\n")
}
