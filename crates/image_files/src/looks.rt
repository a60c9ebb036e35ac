//! Texts that are given as sources, and begin with a record of an image.

ghost use Rattle.std.specs.Prelude.{◌≡◌, ◌≤◌, ◌↔◌, IfErr, IfOk, None, OnOk, length, true};
ghost use Rattle.std.specs.List.{list_all, prefix_len};
ghost use Rattle.image_files.specs.Looks.{EndsLooks, IsCaptured, IsSource, begun_as, begun_in};
ghost use Rattle.image_files.specs.Looks.{first_line, goes_on, is_written, lacks_end, looks_raw, records_begun};
ghost use Rattle.image_files.specs.Forms.{form_of};
ghost use Rattle.image_reader.specs.Texts.{text_image};
ghost use Rattle.papertape.specs.Hint.{is_inside};

use crate::form::{at_record, form_of, front_bytes};
use arguments::{LoadFault, Refusal};
use image_reader::{Form, ImageFault, RecordFaultKind, TextForm, read_image};
use papertape::looks_like_tape;
use std::alloc::{AllocError, Global};

/// Returns whether a byte is no control byte, but for a tab and line ends.
fn is_written(byte: u8) -> bool
    ensures { result ≡ is_written byte }
{
    32 <= byte || byte == 9 || byte == 10 || byte == 13
}

/// Returns whether none of some bytes is a control byte, but for tabs and line ends.
fn all_are_written(bytes: &[u8]) -> bool
    ensures { result ≡ list_all is_written bytes.now }
{
    let mut all = true;
    for byte in bytes {
        all &= is_written(*byte);
    }
    all
}

/// Returns whether bytes begin as no source does: a control byte stands among the first 64.
pub fn looks_raw(bytes: &[u8]) -> bool
    ensures { result ≡ looks_raw bytes.now }
{
    !all_are_written(front_bytes(bytes))
}

/// Returns whether a text has a right record at its first `;`, as what the terminal of a KIM-1
/// showed while a tape was written.
///
/// The only error is that an allocation failed.
pub fn looks_like_capture(alloc: Global, text: &[u8]) -> Result<bool, AllocError>
    ensures { IfOk result (λ is. (is ≡ true) ↔ IsCaptured text.now) }
{
    looks_like_tape(alloc, at_record(text).1)
}

/// Counts the bytes before the first line end.
fn line_len(text: &[u8]) -> usize
    ensures counted { result ≡ prefix_len is_inside text.now }
    ensures inside { result ≤ length text.now }
{
    text.iter()
        .take_while(|byte| !matches!(**byte, b'\r' | b'\n'))
        .count()
}

/// Returns the first line of a text, without its end.
#[tactic(auto, unfolding(crate::specs::Looks::first_line))]
fn first_line(text: &[u8]) -> &[u8]
    ensures { result.now ≡ first_line text.now }
{
    &text[..line_len(text)]
}

/// Returns whether a fault is that the end is missing.
fn lacks_end(kind: RecordFaultKind) -> bool
    ensures { result ≡ lacks_end kind }
{
    match kind {
        RecordFaultKind::NoEnd => true,
        _ => false,
    }
}

/// Returns whether a text of records may go on after a line.
///
/// The only error is that an allocation failed.
#[tactic(auto, using(crate::proofs::Begun::denotes_goes, crate::proofs::Begun::fault_goes))]
fn goes_on(alloc: Global, form: TextForm, line: &[u8]) -> Result<bool, AllocError>
    ensures { IfOk result (λ is. is ≡ goes_on (text_image form line.now)) }
{
    match read_image(alloc, Form::Text(form), line) {
        Ok(_) => Ok(true),
        Err(ImageFault::Record(fault)) => Ok(lacks_end(fault.kind)),
        Err(_) => Err(AllocError),
    }
}

/// Returns the form of records that a line tells, if it is a whole and right record of it.
fn begun_as(alloc: Global, form: Form, line: &[u8]) -> Result<Option<TextForm>, AllocError>
    ensures { IfOk result (λ found. found ≡ begun_as form line.now) }
{
    match form {
        Form::Text(form) => {
            if goes_on(alloc, form, line)? {
                Ok(Some(form))
            } else {
                Ok(None)
            }
        }
        _ => Ok(None),
    }
}

/// Returns the form of records that a line tells, if it is a whole and right record.
fn begun_by(alloc: Global, line: &[u8]) -> Result<Option<TextForm>, AllocError>
    ensures { IfOk result (λ found. found ≡ begun_in (form_of line.now) line.now) }
{
    match form_of(line) {
        Ok(form) => begun_as(alloc, form, line),
        Err(_) => Ok(None),
    }
}

/// Returns the form of records with which a text begins.
#[tactic(auto, unfolding(crate::specs::Looks::records_begun))]
fn records_begun(alloc: Global, text: &[u8]) -> Result<Option<TextForm>, AllocError>
    ensures { IfOk result (λ form. form ≡ records_begun text.now) }
{
    begun_by(alloc, first_line(text))
}

/// Refuses a text that is given as a source, and begins with Intel HEX or with S-records.
fn refuse_records(alloc: Global, text: &[u8]) -> Result<(), LoadFault>
    ensures source { OnOk result (records_begun text.now ≡ None) }
    ensures refused { IfErr result (EndsLooks text.now) }
{
    match records_begun(alloc, text) {
        Ok(None) => Ok(()),
        Ok(Some(TextForm::Hex)) => Err(LoadFault::LooksLikeHex),
        Ok(Some(TextForm::SRecord)) => Err(LoadFault::LooksLikeSRecords),
        Err(_) => Err(LoadFault::Refused(Refusal::OutOfMemory)),
    }
}

/// Refuses a text that is given as a source, and begins with a record of an image.
///
/// Errors: `LooksLikeTape`, `LooksLikeHex` or `LooksLikeSRecords` by the record; `OutOfMemory` if
/// an allocation fails.
#[tactic(auto, using(crate::proofs::Begun::no_tape))]
pub fn refuse_image(alloc: Global, text: &[u8]) -> Result<(), LoadFault>
    ensures source { OnOk result (IsSource text.now) }
    ensures refused { IfErr result (EndsLooks text.now) }
{
    match looks_like_tape(alloc, text) {
        Ok(false) => refuse_records(alloc, text),
        Ok(true) => Err(LoadFault::LooksLikeTape),
        Err(_) => Err(LoadFault::Refused(Refusal::OutOfMemory)),
    }
}
