//! Intel HEX and S-records with right checksums and an end record.

ghost use Rattle.std.specs.Prelude.{◌≡◌, ◌⊎◌, ◌++◌, ◌-◌, ◌∷◌, [], ℕ, List, Option, Ok, Err, IfErr, IfOk, IfSome};
ghost use Rattle.std.specs.Prelude.{MatchResult, None, OnOk, length, take, true};
ghost use Rattle.hex.specs.Hex.{encode_upper};
ghost use Rattle.image_reader.specs.Images.{IsTextFault};
ghost use Rattle.image_reader.specs.Texts.{text_image};
ghost use Rattle.image_reader.specs.declared.fault.ImageFault.TheVariants.{OutOfMemory};
ghost use Rattle.image_reader.specs.declared.fault.RecordFault.{RecordFault};
ghost use Rattle.image_writer.specs.ImageTexts.{end_text};
ghost use Rattle.word_mend.specs.RecordMending.{AreMendedLines, lacked_end};
ghost use Rattle.word_mend.specs.RecordMending.{mended_lines, right_line, right_lines};

use crate::checksums::wrong_sum;
use formatting::digits_of;
use image_reader::{Form, ImageFault, RecordFault, RecordFaultKind, TextForm, read_image};
use line_parts::next_line;
use memory_map::Image;
use std::alloc::{AllocError, Global};

/// A right text of Intel HEX or of S-records, and what was wrong with the one that it was made of.
#[derive(Drop)]
pub struct MendedRecords {
    /// The text.
    pub text: Vec<u8>,
    /// The image that it denotes.
    pub image: Image,
    /// The first fault that was mended, or `None` if nothing was wrong.
    pub fault: Option<RecordFault>,
    /// Whether the end record was missing.
    pub lacked_end: bool,
}

/// Appends a line with another checksum.
fn push_with_checksum(out: &mut Vec<u8>, line: &[u8], right: u8) -> Result<(), AllocError>
    ensures { OnOk result (out.new.items ≡ out.old.items
        ++ (take (length line.now - 2) line.now ++ encode_upper (right ∷ []))) }
{
    let front = line.split_at(line.len().saturating_sub(2)).0;
    out.extend_from_slice(front)?;
    out.extend_from_slice(&digits_of(right))
}

/// Appends a line with its right checksum, then CR LF.
fn push_right_line(
    out: &mut Vec<u8>,
    alloc: Global,
    form: TextForm,
    line: &[u8],
) -> Result<(), AllocError>
    ensures { OnOk result (out.new.items ≡ out.old.items ++ right_line form line.now) }
{
    match wrong_sum(alloc, form, line)? {
        None => out.extend_from_slice(line)?,
        Some(sums) => push_with_checksum(out, line, sums.right)?,
    }
    out.extend_from_slice(b"\r\n")
}

/// Returns the lines of a text with their right checksums, each with CR LF behind it.
#[tactic(auto, using(crate::proofs::RecordLines::lines_end), unfolding(crate::specs::RecordMending::right_lines))]
fn right_lines(alloc: Global, form: TextForm, text: &[u8]) -> Result<Vec<u8>, AllocError>
    ensures { IfOk result (λ out. out.items ≡ right_lines form text.now) }
{
    let mut out = Vec::new(alloc);
    let mut rest = text;
    while rest.len() > 0 {
        let (line, behind) = next_line(rest);
        push_right_line(&mut out, alloc, form, line)?;
        rest = behind;
    }
    Ok(out)
}

/// Appends the end record.
fn push_end(out: &mut Vec<u8>, form: TextForm) -> Result<(), AllocError>
    ensures { OnOk result (out.new.items ≡ out.old.items ++ end_text form) }
{
    match form {
        TextForm::Hex => out.extend_from_slice(b":00000001FF\r\n"),
        TextForm::SRecord => out.extend_from_slice(b"S9030000FC\r\n"),
    }
}

/// Returns a text that lacks its end record with one, and its image.
fn with_end(
    alloc: Global,
    form: TextForm,
    text: Vec<u8>,
    fault: RecordFault,
) -> Result<MendedRecords, ImageFault>
    ensures text { IfOk result (λ m. m.text.items ≡ text.items ++ end_text form) }
    ensures fault { IfOk result (λ m. m.fault ≡ Some fault) }
    ensures end { IfOk result (λ m. m.lacked_end ≡ true) }
    ensures denotes { IfOk result (λ m. text_image form m.text.items ≡ Ok m.image) }
    ensures only { (cells : List (Option ℕ))
        → text_image form (text.items ++ end_text form) ≡ Ok cells
        → MatchResult result (λ m. m.image ≡ cells) (λ f. f ≡ OutOfMemory) }
    ensures refused { IfErr result (λ f. (f ≡ OutOfMemory)
        ⊎ IsTextFault (text_image form (text.items ++ end_text form)) f) }
{
    let mut text = text;
    let Ok(()) = push_end(&mut text, form) else {
        return Err(ImageFault::OutOfMemory);
    };
    match read_image(alloc, Form::Text(form), &text) {
        Ok(image) => Ok(MendedRecords {
            text,
            image,
            fault: Some(fault),
            lacked_end: true,
        }),
        Err(fault) => Err(fault),
    }
}

/// Returns the mended text of one that has a fault, with its image.
#[tactic(auto, using(crate::proofs::RecordLines::whole_text, crate::proofs::RecordLines::other_fault, crate::proofs::RecordLines::endless_text), unfolding(crate::specs::RecordMending::mended_lines))]
fn with_right_lines(
    alloc: Global,
    form: TextForm,
    text: &[u8],
    fault: RecordFault,
) -> Result<MendedRecords, ImageFault>
    ensures text { IfOk result (λ m. m.text.items ≡ mended_lines form text.now) }
    ensures fault { IfOk result (λ m. m.fault ≡ Some fault) }
    ensures end { IfOk result (λ m. m.lacked_end ≡ lacked_end form text.now) }
    ensures denotes { IfOk result (λ m. text_image form m.text.items ≡ Ok m.image) }
    ensures only { (cells : List (Option ℕ))
        → text_image form (mended_lines form text.now) ≡ Ok cells
        → MatchResult result (λ m. m.image ≡ cells) (λ f. f ≡ OutOfMemory) }
    ensures refused { IfErr result (λ f. (f ≡ OutOfMemory)
        ⊎ IsTextFault (text_image form (mended_lines form text.now)) f) }
{
    let Ok(lines) = right_lines(alloc, form, text) else {
        return Err(ImageFault::OutOfMemory);
    };
    match read_image(alloc, Form::Text(form), &lines) {
        Ok(image) => Ok(MendedRecords {
            text: lines,
            image,
            fault: Some(fault),
            lacked_end: false,
        }),
        Err(ImageFault::Record(found)) => match found.kind {
            RecordFaultKind::NoEnd => with_end(alloc, form, lines, fault),
            _ => Err(ImageFault::Record(found)),
        },
        Err(_) => Err(ImageFault::OutOfMemory),
    }
}

/// Returns a right text as it is, with its image.
fn as_it_is(alloc: Global, text: &[u8], image: Image) -> Result<MendedRecords, ImageFault>
    ensures text { IfOk result (λ m. m.text.items ≡ text.now) }
    ensures fault { IfOk result (λ m. m.fault ≡ None) }
    ensures image { IfOk result (λ m. m.image ≡ image) }
    ensures only { IfErr result (λ f. f ≡ OutOfMemory) }
{
    let Ok(out) = Vec::from_slice(alloc, text) else {
        return Err(ImageFault::OutOfMemory);
    };
    Ok(MendedRecords {
        text: out,
        image,
        fault: None,
        lacked_end: false,
    })
}

/// Returns a right text of Intel HEX or of S-records made of one in which checksums alone are
/// wrong, or the end record is missing: the text itself if it is right; otherwise its lines, each
/// with its right checksum and CR LF, and an end record where there is none.
///
/// Errors: `Record` with the first fault of the mended text, which stands at the same line and
/// column in the text, if more is wrong; `OutOfMemory` if an allocation fails. Source: mos65.
pub fn mend_records(alloc: Global, form: TextForm, text: &[u8]) -> Result<MendedRecords, ImageFault>
    // What is returned: the text itself, or its mended text with what was wrong.
    ensures text { IfOk result (λ m. AreMendedLines form text.now m.text.items m.fault) }
    // It denotes the image that is returned with it.
    ensures denotes { IfOk result (λ m. text_image form m.text.items ≡ Ok m.image) }
    // Of a text with a fault it is told whether the end record was missing.
    ensures end { IfOk result
        (λ m. IfSome m.fault (λ _. m.lacked_end ≡ lacked_end form text.now)) }
    // A right text keeps its image.
    ensures right { (cells : List (Option ℕ)) → text_image form text.now ≡ Ok cells
        → MatchResult result (λ m. m.image ≡ cells) (λ f. f ≡ OutOfMemory) }
    // A text with a fault whose mended text has an image is mended, unless memory runs out.
    ensures only { (fault : RecordFault) (cells : List (Option ℕ))
        → text_image form text.now ≡ Err fault
        → text_image form (mended_lines form text.now) ≡ Ok cells
        → MatchResult result (λ m. m.image ≡ cells) (λ f. f ≡ OutOfMemory) }
    // Each error is the first fault of the mended text, or `OutOfMemory`.
    ensures refused { IfErr result (λ f. (f ≡ OutOfMemory)
        ⊎ IsTextFault (text_image form (mended_lines form text.now)) f) }
{
    match read_image(alloc, Form::Text(form), text) {
        Ok(image) => as_it_is(alloc, text, image),
        Err(ImageFault::Record(fault)) => with_right_lines(alloc, form, text, fault),
        Err(_) => Err(ImageFault::OutOfMemory),
    }
}
