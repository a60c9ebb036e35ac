//! What the word `mend` does.

ghost use Rattle.std.specs.Prelude.{◌≡◌, ◌≤◌, ◌⊎◌, Err, IfErr, IfOk, IfSome, None, Ok, Some, false, length, string_bytes, true};
ghost use Rattle.arguments.specs.Files.{EndsWriting};
ghost use Rattle.arguments.specs.Streams.{Tells, TellsFront};
ghost use Rattle.arguments.specs.Words.{AsksForHelp, Fits, Misfits, texts};
ghost use Rattle.image_reader.specs.Images.{IsTextFault};
ghost use Rattle.image_reader.specs.Texts.{text_image};
ghost use Rattle.image_reader.specs.declared.fault.ImageFault.TheVariants as image_fault;
ghost use Rattle.model.specs.Tape.{FirstFault, TapeDenotes};
ghost use Rattle.model.specs.TapeFault.{out_of_memory};
ghost use Rattle.word_mend.specs.Captures.{IsCapture, captured_tape, moved_capture};
ghost use Rattle.word_mend.specs.Mending.{HasRecords, IsMendedText, mended_text};
ghost use Rattle.word_mend.specs.RecordMending.{AreMendedLines, lacked_end, mended_lines};
ghost use Rattle.word_mend.specs.RecordMending.{text_form};
ghost use Rattle.word_mend.specs.Reported.{ends_before, moved, place_in};
ghost use Rattle.word_mend.specs.Word.{Asks, EndsMend, IsAbout, IsSaid, IsSaidOfMended};
ghost use Rattle.tape_words.specs.Asked.{mend_asked, mend_view};
ghost use Rattle.tape_words.specs.CommandLines.{mend};

use crate::captures::{CapturedTape, capture_report, looks_like_capture, mend_capture};
use crate::mending::{Mended, mend_text};
use crate::parts::is_kept;
use crate::record_reports::{record_line, records_report};
use crate::records::{MendedRecords, mend_records};
use crate::reporting::report;
use arguments::{FileRefusal, Refusal, refused_words, write_output};
use image_files::{at_record, form_by};
use image_reader::{Form, ImageFault, RecordFault, TextForm};
use model::{TapeFault, TapeFaultKind};
use std::alloc::{AllocError, Global};
use std::io::Write;
use std::rt::Files;
use tape_words::{Answer, MendWords, answered, fault_text, read_mend_words, read_text};

/// Returns how many bytes of a mended text come directly before a byte: CR LF before each `;` but
/// the first byte.
fn ends_before(is_first: bool, byte: u8) -> u64
    ensures { result ≡ ends_before is_first byte }
{
    if byte == b';' && !is_first { 2 } else { 0 }
}

/// Returns the place in a text of the byte that has a place in its mended text, or that comes next:
/// there line ends, $00 and $13 are left out, and CR LF comes before each `;` but the first.
fn place_in(text: &[u8], made: u64) -> u64
    ensures value { result ≡ place_in text.now made }
    ensures inside { result ≤ length text.now }
{
    let mut left = made;
    let mut is_first = true;
    for (place, byte) in text.iter().enumerate() {
        if is_kept(*byte) {
            let ends = ends_before(is_first, *byte);
            if left <= ends {
                return place as u64;
            }
            left -= ends + 1;
            is_first = false;
        }
    }
    text.len() as u64
}

/// Returns a fault of a mended text as one of the text that it was made of: where that ends, a
/// record is cut short.
fn moved(text: &[u8], made: TapeFault) -> TapeFault
    ensures value { result ≡ moved text.now made.kind made.offset }
    ensures inside { result.offset ≤ length text.now }
{
    let offset = place_in(text, made.offset);
    let kind = if offset == text.len() as u64 {
        TapeFaultKind::Truncated
    } else {
        made.kind
    };
    TapeFault { offset, kind }
}

/// Returns a fault of the tape that is made of a capture as one of the capture.
fn moved_capture(text: &[u8], made: TapeFault) -> TapeFault
    ensures { result ≡ moved_capture text.now made.kind made.offset }
{
    let parts = at_record(text);
    let fault = moved(parts.1, made);
    let offset = parts.0.len() as u64 + fault.offset;
    TapeFault {
        offset,
        kind: fault.kind,
    }
}

/// Returns the answer for a tape of which more is wrong. The only error is that an allocation
/// failed.
fn still_wrong(
    alloc: Global,
    words: &MendWords<'_>,
    text: &[u8],
    fault: TapeFault,
) -> Result<Answer, AllocError>
    requires form { text_form text.now ≡ None }
    requires first { FirstFault (mended_text text.now) fault.kind fault.offset }
    ensures { IfOk result (IsAbout (mend_view words.now)) }
{
    let text = fault_text(alloc, words.tape, text, moved(text, fault))?;
    Ok(Answer {
        text,
        is_right: false,
    })
}

/// Returns the answer for a capture of which more is wrong. The only error is that an allocation
/// failed.
fn still_no_tape(
    alloc: Global,
    words: &MendWords<'_>,
    text: &[u8],
    fault: TapeFault,
) -> Result<Answer, AllocError>
    requires form { text_form text.now ≡ None }
    requires first { FirstFault (captured_tape text.now) fault.kind fault.offset }
    ensures { IfOk result (IsAbout (mend_view words.now)) }
{
    let text = fault_text(alloc, words.tape, text, moved_capture(text, fault))?;
    Ok(Answer {
        text,
        is_right: false,
    })
}

/// Returns the answer for a text that is neither mended as a tape nor as a capture, by the fault of
/// each. The only error is that an allocation failed.
fn neither_mended(
    alloc: Global,
    words: &MendWords<'_>,
    text: &[u8],
    of_tape: TapeFault,
    of_capture: TapeFault,
) -> Result<Answer, AllocError>
    requires form { text_form text.now ≡ None }
    requires tape { FirstFault (mended_text text.now) of_tape.kind of_tape.offset }
    requires capture { FirstFault (captured_tape text.now) of_capture.kind of_capture.offset }
    ensures { IfOk result (IsAbout (mend_view words.now)) }
{
    if looks_like_capture(alloc, text)? {
        still_no_tape(alloc, words, text, of_capture)
    } else {
        still_wrong(alloc, words, text, of_tape)
    }
}

/// Returns the answer for a text that is not mended. The only error is that an allocation failed.
fn not_mended(
    alloc: Global,
    words: &MendWords<'_>,
    text: &[u8],
    of_tape: TapeFault,
    of_capture: TapeFault,
) -> Result<Answer, AllocError>
    requires form { text_form text.now ≡ None }
    requires tape { FirstFault (mended_text text.now) of_tape.kind of_tape.offset }
    requires capture { (of_capture ≡ out_of_memory)
        ⊎ FirstFault (captured_tape text.now) of_capture.kind of_capture.offset }
    ensures { IfOk result (IsAbout (mend_view words.now)) }
{
    match of_capture.kind {
        TapeFaultKind::OutOfMemory => Err(AllocError),
        _ => neither_mended(alloc, words, text, of_tape, of_capture),
    }
}

/// Returns the answer for Intel HEX or S-records of which more is wrong. The only error is that an
/// allocation failed.
fn records_still_wrong(
    alloc: Global,
    words: &MendWords<'_>,
    form: TextForm,
    text: &[u8],
    fault: RecordFault,
) -> Result<Answer, AllocError>
    requires form { text_form text.now ≡ Some form }
    requires first { text_image form (mended_lines form text.now) ≡ Err fault }
    ensures { IfOk result (IsAbout (mend_view words.now)) }
{
    let text = record_line(alloc, words.tape, fault)?;
    Ok(Answer {
        text,
        is_right: false,
    })
}

/// Returns the answer for Intel HEX or S-records that are not mended. The only error is that an
/// allocation failed.
fn records_not_mended(
    alloc: Global,
    words: &MendWords<'_>,
    form: TextForm,
    text: &[u8],
    fault: ImageFault,
) -> Result<Answer, AllocError>
    requires form { text_form text.now ≡ Some form }
    requires first { (fault ≡ image_fault.OutOfMemory)
        ⊎ IsTextFault (text_image form (mended_lines form text.now)) fault }
    ensures { IfOk result (IsAbout (mend_view words.now)) }
{
    match fault {
        ImageFault::Record(fault) => records_still_wrong(alloc, words, form, text, fault),
        _ => Err(AllocError),
    }
}

/// Writes OUT, unless it is the tape under another name.
///
/// Errors: `WriteFile` if OUT is the tape or cannot be written; `OutOfMemory` if no memory is left.
fn write_out<H: Files + AllocGlobal>(
    rt: &H,
    words: &MendWords<'_>,
    text: &[u8],
) -> Result<(), Refusal>
    ensures { IfErr result EndsWriting }
{
    write_output(rt, words.out, &[Some(words.tape)], text)
}

/// Writes OUT, and returns what is said of a text that is mended. If OUT is the tape under another
/// name, nothing is written.
fn put_out<'a, H: Files + AllocGlobal>(
    rt: &H,
    words: &MendWords<'a>,
    said: Result<String, AllocError>,
    out: &[u8],
) -> Result<Answer, FileRefusal<'a>>
    requires { IfOk said (λ said. IsSaidOfMended (string_bytes said)) }
    ensures about { IfOk result (IsAbout (mend_view words.now)) }
    ensures refused { IfErr result (λ why. EndsWriting why.refusal) }
{
    let file = words.out;
    let Ok(said) = said else {
        return Err(FileRefusal {
            file,
            refusal: Refusal::OutOfMemory,
        });
    };
    match write_out(rt, words, out) {
        Ok(()) => Ok(Answer {
            text: said,
            is_right: true,
        }),
        Err(refusal) => Err(FileRefusal { file, refusal }),
    }
}

/// Returns what is said of a tape that is mended.
fn tape_said(alloc: Global, text: &[u8], mended: &Mended) -> Result<String, AllocError>
    requires form { text_form text.now ≡ None }
    requires text { IsMendedText text.now mended.now.text.items mended.now.fault }
    requires denotes { TapeDenotes mended.now.text.items mended.now.image }
    requires records { HasRecords text.now mended.now.image }
    ensures { IfOk result (λ said. IsSaidOfMended (string_bytes said)) }
{
    report(alloc, text, mended)
}

/// Returns what is said of Intel HEX or of S-records that are mended.
fn records_said(
    alloc: Global,
    form: TextForm,
    text: &[u8],
    mended: &MendedRecords,
) -> Result<String, AllocError>
    requires form { text_form text.now ≡ Some form }
    requires text { AreMendedLines form text.now mended.now.text.items mended.now.fault }
    requires denotes { text_image form mended.now.text.items ≡ Ok mended.now.image }
    requires end { IfSome mended.now.fault (λ _. mended.now.lacked_end ≡ lacked_end form text.now) }
    ensures { IfOk result (λ said. IsSaidOfMended (string_bytes said)) }
{
    records_report(alloc, form, text, mended)
}

/// Returns what is said of a capture of which a tape is made.
fn capture_said(alloc: Global, text: &[u8], captured: &CapturedTape) -> Result<String, AllocError>
    requires form { text_form text.now ≡ None }
    requires text { captured.now.text.items ≡ captured_tape text.now }
    requires denotes { TapeDenotes captured.now.text.items captured.now.image }
    requires capture { IsCapture text.now captured.now.image }
    ensures { IfOk result (λ said. IsSaidOfMended (string_bytes said)) }
{
    capture_report(alloc, text)
}

/// Makes a tape of a text that is not mended as one, if it is a capture: what is said of it. OUT is
/// written only then.
fn mended_capture<'a, H: Files + AllocGlobal>(
    rt: &H,
    words: &MendWords<'a>,
    text: &[u8],
    fault: TapeFault,
) -> Result<Answer, FileRefusal<'a>>
    requires form { text_form text.now ≡ None }
    requires first { FirstFault (mended_text text.now) fault.kind fault.offset }
    ensures about { IfOk result (IsAbout (mend_view words.now)) }
    ensures refused { IfErr result (λ why. EndsWriting why.refusal) }
{
    match mend_capture(rt.alloc(), text) {
        Ok(captured) => {
            let said = capture_said(rt.alloc(), text, &captured);
            put_out(rt, words, said, &captured.text)
        }
        Err(found) => {
            not_mended(rt.alloc(), words, text, fault, found).map_err(|_| FileRefusal {
                file: words.tape,
                refusal: Refusal::OutOfMemory,
            })
        }
    }
}

/// Mends a text that is not mended as a tape, by the fault for which it is not: what is said of it.
fn mended_otherwise<'a, H: Files + AllocGlobal>(
    rt: &H,
    words: &MendWords<'a>,
    text: &[u8],
    fault: TapeFault,
) -> Result<Answer, FileRefusal<'a>>
    requires form { text_form text.now ≡ None }
    requires first { (fault ≡ out_of_memory)
        ⊎ FirstFault (mended_text text.now) fault.kind fault.offset }
    ensures about { IfOk result (IsAbout (mend_view words.now)) }
    ensures refused { IfErr result (λ why. EndsWriting why.refusal) }
{
    match fault.kind {
        TapeFaultKind::OutOfMemory => Err(FileRefusal {
            file: words.tape,
            refusal: Refusal::OutOfMemory,
        }),
        _ => mended_capture(rt, words, text, fault),
    }
}

/// Mends the text of a tape: what is said of it. OUT is written only if the tape is mended.
fn mended_tape<'a, H: Files + AllocGlobal>(
    rt: &H,
    words: &MendWords<'a>,
    text: &[u8],
) -> Result<Answer, FileRefusal<'a>>
    requires { text_form text.now ≡ None }
    ensures about { IfOk result (IsAbout (mend_view words.now)) }
    ensures refused { IfErr result (λ why. EndsWriting why.refusal) }
{
    match mend_text(rt.alloc(), text) {
        Ok(mended) => {
            let said = tape_said(rt.alloc(), text, &mended);
            put_out(rt, words, said, &mended.text)
        }
        Err(fault) => mended_otherwise(rt, words, text, fault),
    }
}

/// Mends a text of Intel HEX or of S-records: what is said of it. OUT is written only if the text
/// is mended.
fn mended_records<'a, H: Files + AllocGlobal>(
    rt: &H,
    words: &MendWords<'a>,
    form: TextForm,
    text: &[u8],
) -> Result<Answer, FileRefusal<'a>>
    requires { text_form text.now ≡ Some form }
    ensures about { IfOk result (IsAbout (mend_view words.now)) }
    ensures refused { IfErr result (λ why. EndsWriting why.refusal) }
{
    match mend_records(rt.alloc(), form, text) {
        Ok(mended) => {
            let said = records_said(rt.alloc(), form, text, &mended);
            put_out(rt, words, said, &mended.text)
        }
        Err(fault) => {
            records_not_mended(rt.alloc(), words, form, text, fault).map_err(|_| FileRefusal {
                file: words.tape,
                refusal: Refusal::OutOfMemory,
            })
        }
    }
}

/// Returns the form of records that the first record of a text tells, if it is no tape.
fn text_form(text: &[u8]) -> Option<TextForm>
    ensures { result ≡ text_form text.now }
{
    match form_by(None, text) {
        Ok(form) => match form {
            Form::Text(form) => Some(form),
            Form::Tape => None,
            Form::Raw(_) => None,
            Form::Prg => None,
        },
        Err(_) => None,
    }
}

/// Mends a text in the form that its first record tells: what is said of it. A text that tells none
/// is mended as a tape or as a capture.
fn mended<'a, H: Files + AllocGlobal>(
    rt: &H,
    words: &MendWords<'a>,
    text: &[u8],
) -> Result<Answer, FileRefusal<'a>>
    ensures about { IfOk result (IsAbout (mend_view words.now)) }
    ensures refused { IfErr result (λ why. EndsWriting why.refusal) }
{
    match text_form(text) {
        None => mended_tape(rt, words, text),
        Some(form) => mended_records(rt, words, form, text),
    }
}

/// Mends the text of a file: what is said of it.
fn answer_to<'a, H: Files + AllocGlobal>(
    rt: &H,
    words: &MendWords<'a>,
) -> Result<Answer, FileRefusal<'a>>
    ensures about { IfOk result (IsAbout (mend_view words.now)) }
    ensures refused { IfErr result (λ why. EndsMend why.refusal) }
{
    let text = read_text(rt, words.tape)?;
    mended(rt, words, &text)
}

/// Does what the words after `mend` ask for, and returns the exit status.
///
/// - 0: OUT was written. 1: more is wrong with the text.
/// - 2: the words are wrong. 3: memory ran out.
/// - 4: reading or writing failed, or OUT is the tape under another name.
///
/// What was mended, or what is wrong, goes to `output`. For 2 and above a line on `errors` says
/// why, with the name of the file; that it cannot be written changes no status.
pub fn tape_mend<H: Files + AllocGlobal, O: Write, E: Write>(
    rt: &H,
    words: &[&str],
    output: &mut O,
    errors: &mut E,
) -> u8
    ensures status { result ≤ 4 }
    // Where a text was mended nothing is said on the error stream.
    ensures quiet { result ≡ 0 → errors.new ≡ errors.old }
    // Words that are refused leave the output as it was, and so it is where memory ran out.
    ensures untouched { 2 ≤ result → result ≤ 3 → output.new ≡ output.old }
    // 0 means that some text was mended and what was wrong with it was written, or the help that is
    // asked for.
    ensures right { result ≡ 0 → AsksForHelp mend (texts words.entry.now)
        ⊎ Asks (texts words.entry.now) (λ asked. Tells (IsSaid asked) true
        (O.contents output.old) (O.contents output.new)) }
    // 1 means that a fault was written that some text still has, or that the file is too long.
    ensures wrong { result ≡ 1 → Asks (texts words.entry.now)
        (λ asked. Tells (IsSaid asked) false (O.contents output.old) (O.contents output.new)
        ⊎ (output.new ≡ output.old)) }
    // 2 means that the words do not fit, or that both files have one name.
    ensures refused { result ≡ 2 → Misfits mend (texts words.entry.now)
        ⊎ (Fits mend (texts words.entry.now)
        × (mend_asked (texts words.entry.now) ≡ None)) }
    // 4 means that a beginning was written of what is said of some text, or nothing; or help is
    // asked for.
    ensures begun { result ≡ 4 → AsksForHelp mend (texts words.entry.now)
        ⊎ Asks (texts words.entry.now) (λ asked. TellsFront (IsSaid asked)
        (O.contents output.old) (O.contents output.new) ⊎ (output.new ≡ output.old)) }
{
    match read_mend_words(rt.alloc(), words) {
        Ok(words) => answered(answer_to(rt, &words), output, errors),
        Err(fault) => refused_words(fault, output, errors),
    }
}
