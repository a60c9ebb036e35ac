//! What the word `info` does.

ghost use Rattle.std.specs.Prelude.{◌≡◌, ◌≤◌, ◌⊎◌, IfErr, IfOk, None, Ok, false, string_bytes, true};
ghost use Rattle.arguments.specs.Streams.{Tells, TellsFront};
ghost use Rattle.arguments.specs.Words.{AsksForHelp, Fits, Misfits, texts};
ghost use Rattle.model.specs.State.{is_map};
ghost use Rattle.image_files.specs.Bytes.{IsImage, IsNoImage, form_by};
ghost use Rattle.image_files.specs.declared.refusal.ImageRefusal.TheVariants as why_not;
ghost use Rattle.image_reader.specs.EndRecords.{as_read, has_count_twice};
ghost use Rattle.image_reader.specs.declared.form.Form.TheVariants.{Text};
ghost use Rattle.model.specs.Tape.{FirstFault, TapeDenotes};
ghost use Rattle.word_info.specs.Told.{AreOverlaps, AreRows, IsBeyondMending, IsEndText, IsFaultText};
ghost use Rattle.word_info.specs.Told.{IsHint, IsMendableCapture, IsNoCapture, IsRecordsHint};
ghost use Rattle.word_info.specs.Told.{IsSumsText, IsTapeEnd, is_tape, records_in, tells_none};
ghost use Rattle.word_info.specs.Behind.{records_behind};
ghost use Rattle.word_info.specs.Rows.{behind_row};
ghost use Rattle.word_info.specs.Debugged.{IsAnswer, IsTold};
ghost use Rattle.word_info.specs.Word.{Asks, EndsInfo, IsAbout};
ghost use Rattle.tape_words.specs.Asked.{info_asked, info_view};
ghost use Rattle.tape_words.specs.CommandLines.{info};

use crate::behind::records_behind;
use crate::debugged::{debug_answer, debug_form};
use crate::fact_list::{data_records, facts_of};
use crate::fact_text::{OfTape, behind_text, image_text, no_image_text};
use crate::overlaps::{overlaps_of, text_overlaps_of};
use crate::ranges::Range;
use crate::wording;
use arguments::{FileRefusal, Refusal, refused_words, shown_name};
use image_files::{ImageRefusal, NoImage, OtherText, form_by, image_of_bytes};
use image_reader::{Form, ImageFault, TextForm, has_count_twice, with_end_sum};
use memory_map::{Image, MapSpec};
use model::{TapeFault, TapeFaultKind};
use papertape::read_tape;
use std::alloc::{AllocError, Global};
use std::io::Write;
use std::rt::Files;
use tape_words::{
    Answer, COUNT_TWICE, InfoWords, answered, fault_text, read_info_words, read_text,
};
use word_mend::{mend_capture, mend_records, mend_text, push_sums, wrong_sums};

/// Returns what is in an image, and in the records if it is a tape.
fn image_rows(
    alloc: Global,
    words: &InfoWords<'_>,
    map: &MapSpec,
    image: &Image,
    tape: &OfTape,
) -> Result<String, AllocError>
    ensures { IfOk result (λ said. AreRows words.now.profile image.now map.now.port
        tape.now.records tape.now.overlaps.items (string_bytes said)) }
{
    let facts = facts_of(alloc, image, map)?;
    let said = image_text(alloc, words.profile, image, map, &facts, tape)?;
    Ok(said)
}

/// Returns what is to be said of `mend` of a text that it does not mend as a tape.
fn capture_hint(alloc: Global, words: &'static str, text: &[u8]) -> Result<&'static str, AllocError>
    requires { IsBeyondMending text.now }
    ensures { IfOk result (λ hint. IsHint words.now text.now hint.now) }
{
    match mend_capture(alloc, text) {
        Ok(_) => Ok(words),
        Err(fault) => match fault.kind {
            TapeFaultKind::OutOfMemory => Err(AllocError),
            _ => Ok(""),
        },
    }
}

/// Returns what is to be said of `mend`: the words if it mends a text, or nothing.
fn mend_hint(alloc: Global, words: &'static str, text: &[u8]) -> Result<&'static str, AllocError>
    ensures { IfOk result (λ hint. IsHint words.now text.now hint.now) }
{
    match mend_text(alloc, text) {
        Ok(_) => Ok(words),
        Err(fault) => match fault.kind {
            TapeFaultKind::OutOfMemory => Err(AllocError),
            _ => capture_hint(alloc, words, text),
        },
    }
}

/// Returns what is wrong with a tape, and whether `mend` mends it.
fn wrong_tape(
    alloc: Global,
    words: &InfoWords<'_>,
    text: &[u8],
    fault: TapeFault,
) -> Result<String, AllocError>
    ensures { IfOk result
        (λ said. IsFaultText words.now.tape.now text.now fault (string_bytes said)) }
{
    let mut said = fault_text(alloc, words.tape, text, fault)?;
    let hint = mend_hint(alloc, wording::MEND_MENDS_IT, text)?;
    said.push_str(hint)?;
    Ok(said)
}

/// Returns whether a form is told, and is that of a tape.
fn is_tape(form: Result<Form, OtherText>) -> bool
    ensures { result ≡ is_tape form }
{
    match form {
        Ok(form) => match form {
            Form::Tape => true,
            Form::Text(_) => false,
            Form::Raw(_) => false,
            Form::Prg => false,
        },
        Err(_) => false,
    }
}

/// Returns that the end record of a tape has the number of records in place of its sum, and whether
/// `mend` mends it.
fn count_twice_text(alloc: Global, text: &[u8]) -> Result<String, AllocError>
    ensures { IfOk result (λ said. IsTapeEnd true text.now (string_bytes said)) }
{
    let hint = mend_hint(alloc, wording::MENDED_FOR_DEBUG, text)?;
    let mut said = String::new(alloc);
    said.push_str(COUNT_TWICE)?;
    said.push_str("\n")?;
    said.push_str(hint)?;
    Ok(said)
}

/// Returns what is said last of a tape, by whether its end record is such a one.
fn twice_text(alloc: Global, is_twice: bool, bytes: &[u8]) -> Result<String, AllocError>
    ensures { IfOk result (λ said. IsTapeEnd is_twice bytes.now (string_bytes said)) }
{
    if is_twice {
        count_twice_text(alloc, bytes)
    } else {
        Ok(String::new(alloc))
    }
}

/// Returns what is said last of a tape.
fn tape_end(alloc: Global, bytes: &[u8]) -> Result<String, AllocError>
    ensures { IfOk result
        (λ said. IsTapeEnd (has_count_twice bytes.now) bytes.now (string_bytes said)) }
{
    let is_twice = has_count_twice(bytes);
    twice_text(alloc, is_twice, bytes)
}

/// Returns what is said last of Intel HEX or of S-records.
fn records_end(alloc: Global, form: TextForm, bytes: &[u8]) -> Result<String, AllocError>
    ensures { IfOk result
        (λ said. string_bytes said ≡ behind_row (records_behind form bytes.now)) }
{
    let said = behind_text(alloc, records_behind(form, bytes) as u64)?;
    Ok(said)
}

/// Returns what is said last of an image, by its form.
fn end_text(
    alloc: Global,
    told: Result<Form, OtherText>,
    bytes: &[u8],
) -> Result<String, AllocError>
    ensures { IfOk result (λ said. IsEndText told bytes.now (string_bytes said)) }
{
    match told {
        Ok(form) => match form {
            Form::Tape => tape_end(alloc, bytes),
            Form::Text(form) => records_end(alloc, form, bytes),
            Form::Raw(_) => Ok(String::new(alloc)),
            Form::Prg => Ok(String::new(alloc)),
        },
        Err(_) => Ok(String::new(alloc)),
    }
}

/// Returns what is to be said of bytes that denote an image. The only error is that an allocation
/// failed.
fn right_answer(
    alloc: Global,
    words: &InfoWords<'_>,
    map: &MapSpec,
    bytes: &[u8],
    image: &Image,
    tape: &OfTape,
) -> Result<Answer, AllocError>
    requires port { map.now.port ≡ words.now.port }
    requires denotes { IsImage words.now.form bytes.now image.now }
    requires records { tape.now.records ≡ records_in (form_by words.now.form bytes.now) bytes.now }
    requires overlaps { AreOverlaps (form_by words.now.form bytes.now) bytes.now
        tape.now.overlaps.items }
    ensures { IfOk result (IsAbout (info_view words.now)) }
{
    let mut text = image_rows(alloc, words, map, image, tape)?;
    let end = end_text(alloc, form_by(words.form, bytes), bytes)?;
    text.push_str(end.as_str())?;
    Ok(Answer {
        text,
        is_right: true,
    })
}

/// Returns what is to be said of a tape with a fault. The only error is that an allocation failed.
fn wrong_answer(
    alloc: Global,
    words: &InfoWords<'_>,
    text: &[u8],
    fault: TapeFault,
) -> Result<Answer, AllocError>
    requires { FirstFault (as_read text.now) fault.kind fault.offset }
    ensures { IfOk result (IsAbout (info_view words.now)) }
{
    let text = wrong_tape(alloc, words, text, fault)?;
    Ok(Answer {
        text,
        is_right: false,
    })
}

/// Returns what is to be said of the text of a right tape, by the text that is read. The only error
/// is that an allocation failed.
#[tactic(auto, using(crate::proofs::Forms::tape_image, crate::proofs::Forms::tape_records, crate::proofs::Forms::tape_overlaps))]
fn tape_rows(
    alloc: Global,
    words: &InfoWords<'_>,
    map: &MapSpec,
    text: &[u8],
    read: &[u8],
    image: &Image,
) -> Result<Answer, AllocError>
    requires port { map.now.port ≡ words.now.port }
    requires form { is_tape (form_by words.now.form text.now) ≡ true }
    requires read { read.now ≡ as_read text.now }
    requires denotes { TapeDenotes read.now image.now }
    ensures { IfOk result (IsAbout (info_view words.now)) }
{
    let overlaps = overlaps_of(alloc, read)?;
    let tape = OfTape {
        records: Some(data_records(read)),
        overlaps,
    };
    right_answer(alloc, words, map, text, image, &tape)
}

/// Returns what is to be said of the text of a tape, by the text that is read. The only error is
/// that an allocation failed.
fn read_answer(
    alloc: Global,
    words: &InfoWords<'_>,
    map: &MapSpec,
    text: &[u8],
    read: &[u8],
) -> Result<Answer, AllocError>
    requires port { map.now.port ≡ words.now.port }
    requires form { is_tape (form_by words.now.form text.now) ≡ true }
    requires read { read.now ≡ as_read text.now }
    ensures { IfOk result (IsAbout (info_view words.now)) }
{
    match read_tape(alloc, read) {
        Ok(image) => tape_rows(alloc, words, map, text, read, &image),
        Err(fault) => match fault.kind {
            TapeFaultKind::OutOfMemory => Err(AllocError),
            _ => wrong_answer(alloc, words, text, fault),
        },
    }
}

/// Returns what is to be said of the text of a tape. The only error is that an allocation failed.
fn tape_answer(
    alloc: Global,
    words: &InfoWords<'_>,
    map: &MapSpec,
    text: &[u8],
) -> Result<Answer, AllocError>
    requires port { map.now.port ≡ words.now.port }
    requires form { is_tape (form_by words.now.form text.now) ≡ true }
    ensures { IfOk result (IsAbout (info_view words.now)) }
{
    if has_count_twice(text) {
        let read = with_end_sum(alloc, text)?;
        read_answer(alloc, words, map, text, &read)
    } else {
        read_answer(alloc, words, map, text, text)
    }
}

/// Returns what is to be said of `mend`, where records have a fault.
fn records_hint(alloc: Global, form: TextForm, bytes: &[u8]) -> Result<&'static str, AllocError>
    ensures { IfOk result (λ hint. IsRecordsHint form bytes.now hint.now) }
{
    match mend_records(alloc, form, bytes) {
        Ok(_) => Ok(wording::MEND_MENDS_IT),
        Err(ImageFault::Record(_)) => Ok(""),
        Err(_) => Err(AllocError),
    }
}

/// Returns a line for each wrong checksum of records that have a fault, and whether `mend` mends
/// them.
fn records_sums(alloc: Global, form: TextForm, bytes: &[u8]) -> Result<String, AllocError>
    ensures { IfOk result (λ said. IsSumsText (Ok (Text form)) bytes.now (string_bytes said)) }
{
    let mut said = String::new(alloc);
    let sums = wrong_sums(alloc, form, bytes)?;
    push_sums(
        &mut said,
        &sums,
        wording::THE_CHECKSUM_IS,
        wording::AND_SHOULD_BE,
    )?;
    let hint = records_hint(alloc, form, bytes)?;
    said.push_str(hint)?;
    Ok(said)
}

/// Returns what is said of the checksums of bytes that are no image, if they are records.
fn sums_text(
    alloc: Global,
    told: Result<Form, OtherText>,
    bytes: &[u8],
) -> Result<String, AllocError>
    ensures { IfOk result (λ said. IsSumsText told bytes.now (string_bytes said)) }
{
    match told {
        Ok(form) => match form {
            Form::Text(form) => records_sums(alloc, form, bytes),
            Form::Tape => Ok(String::new(alloc)),
            Form::Raw(_) => Ok(String::new(alloc)),
            Form::Prg => Ok(String::new(alloc)),
        },
        Err(_) => Ok(String::new(alloc)),
    }
}

/// Returns what is to be said of bytes that are no image, and no capture if they tell no form. The
/// only error is that an allocation failed.
fn other_answer(
    alloc: Global,
    words: &InfoWords<'_>,
    bytes: &[u8],
    why: NoImage,
) -> Result<Answer, AllocError>
    requires other { IsNoImage words.now.form bytes.now (why_not.NoImage why) }
    requires plain { IsNoCapture words.now.form why bytes.now }
    ensures { IfOk result (IsAbout (info_view words.now)) }
{
    let mut text = no_image_text(alloc, words.tape, why)?;
    let sums = sums_text(alloc, form_by(words.form, bytes), bytes)?;
    text.push_str(sums.as_str())?;
    Ok(Answer {
        text,
        is_right: false,
    })
}

/// Returns what is to be said of a capture. The only error is that an allocation failed.
fn capture_answer(
    alloc: Global,
    words: &InfoWords<'_>,
    bytes: &[u8],
    why: NoImage,
) -> Result<Answer, AllocError>
    requires other { IsNoImage words.now.form bytes.now (why_not.NoImage why) }
    requires none { tells_none words.now.form why ≡ true }
    requires capture { IsMendableCapture bytes.now }
    ensures { IfOk result (IsAbout (info_view words.now)) }
{
    let mut text = shown_name(alloc, words.tape)?;
    text.push_str(wording::CAPTURE)?;
    Ok(Answer {
        text,
        is_right: false,
    })
}

/// Returns what is to be said of bytes that tell no form. The only error is that an allocation
/// failed.
fn looks_answer(
    alloc: Global,
    words: &InfoWords<'_>,
    bytes: &[u8],
    why: NoImage,
) -> Result<Answer, AllocError>
    requires other { IsNoImage words.now.form bytes.now (why_not.NoImage why) }
    requires none { tells_none words.now.form why ≡ true }
    ensures { IfOk result (IsAbout (info_view words.now)) }
{
    match mend_capture(alloc, bytes) {
        Ok(_) => capture_answer(alloc, words, bytes, why),
        Err(fault) => match fault.kind {
            TapeFaultKind::OutOfMemory => Err(AllocError),
            _ => other_answer(alloc, words, bytes, why),
        },
    }
}

/// Returns whether no form is said of bytes, and they tell none, by why they are no image.
fn tells_none(form: Option<Form>, why: NoImage) -> bool
    ensures { result ≡ tells_none form why }
{
    match form {
        Some(_) => false,
        None => match why {
            NoImage::Looks(_) => true,
            NoImage::Record(_) => false,
            NoImage::PastEnd => false,
            NoImage::NoAddress => false,
            NoImage::TooLong => false,
        },
    }
}

/// Returns what is to be said of bytes that are no image. The only error is that an allocation
/// failed.
fn no_image_answer(
    alloc: Global,
    words: &InfoWords<'_>,
    bytes: &[u8],
    why: NoImage,
) -> Result<Answer, AllocError>
    requires { IsNoImage words.now.form bytes.now (why_not.NoImage why) }
    ensures { IfOk result (IsAbout (info_view words.now)) }
{
    if tells_none(words.form, why) {
        looks_answer(alloc, words, bytes, why)
    } else {
        other_answer(alloc, words, bytes, why)
    }
}

/// Returns where the records of an image in another form than a tape overlap, if it has records.
/// The only error is that an allocation failed.
fn other_overlaps(
    alloc: Global,
    form: Result<Form, OtherText>,
    bytes: &[u8],
) -> Result<Vec<Range>, AllocError>
    requires { is_tape form ≡ false }
    ensures { IfOk result (λ ranges. AreOverlaps form bytes.now ranges.items) }
{
    match form {
        Ok(form) => match form {
            Form::Text(form) => text_overlaps_of(alloc, form, bytes),
            Form::Tape => Ok(Vec::new(alloc)),
            Form::Raw(_) => Ok(Vec::new(alloc)),
            Form::Prg => Ok(Vec::new(alloc)),
        },
        Err(_) => Ok(Vec::new(alloc)),
    }
}

/// Returns what is to be said of an image in another form than a tape. The only error is that an
/// allocation failed.
#[tactic(auto, using(crate::proofs::Forms::no_records))]
fn other_rows(
    alloc: Global,
    words: &InfoWords<'_>,
    map: &MapSpec,
    bytes: &[u8],
    image: &Image,
) -> Result<Answer, AllocError>
    requires port { map.now.port ≡ words.now.port }
    requires form { is_tape (form_by words.now.form bytes.now) ≡ false }
    requires denotes { IsImage words.now.form bytes.now image.now }
    ensures { IfOk result (IsAbout (info_view words.now)) }
{
    let tape = OfTape {
        records: None,
        overlaps: other_overlaps(alloc, form_by(words.form, bytes), bytes)?,
    };
    right_answer(alloc, words, map, bytes, image, &tape)
}

/// Returns what is to be said of bytes that are no tape. The only error is that an allocation
/// failed.
#[tactic(auto, using(crate::proofs::Forms::other_image))]
fn image_answer(
    alloc: Global,
    words: &InfoWords<'_>,
    map: &MapSpec,
    bytes: &[u8],
) -> Result<Answer, AllocError>
    requires port { map.now.port ≡ words.now.port }
    requires form { is_tape (form_by words.now.form bytes.now) ≡ false }
    ensures { IfOk result (IsAbout (info_view words.now)) }
{
    match image_of_bytes(alloc, words.form, bytes) {
        Ok(image) => other_rows(alloc, words, map, bytes, &image),
        Err(ImageRefusal::NoImage(why)) => no_image_answer(alloc, words, bytes, why),
        Err(ImageRefusal::Refused(_)) => Err(AllocError),
    }
}

/// Returns what is to be said of some bytes. The only error is that an allocation failed.
fn answer_of(
    alloc: Global,
    words: &InfoWords<'_>,
    map: &MapSpec,
    bytes: &[u8],
) -> Result<Answer, AllocError>
    requires { map.now.port ≡ words.now.port }
    ensures { IfOk result (IsAbout (info_view words.now)) }
{
    if is_tape(form_by(words.form, bytes)) {
        tape_answer(alloc, words, map, bytes)
    } else {
        image_answer(alloc, words, map, bytes)
    }
}

/// Returns what is to be said of bytes that are no debug information. The only error is that an
/// allocation failed.
fn other_told(
    alloc: Global,
    words: &InfoWords<'_>,
    map: &MapSpec,
    bytes: &[u8],
) -> Result<Answer, AllocError>
    requires { map.now.port ≡ words.now.port }
    ensures { IfOk result (IsAnswer (info_view words.now)) }
{
    let answer = answer_of(alloc, words, map, bytes)?;
    Ok(answer)
}

/// Returns what is to be said of an image or of debug information. The only error is that an
/// allocation failed.
fn answer_by<H: Files + AllocGlobal>(
    rt: &H,
    words: &InfoWords<'_>,
    map: &MapSpec,
    bytes: &[u8],
) -> Result<Answer, AllocError>
    requires { map.now.port ≡ words.now.port }
    ensures { IfOk result (IsAnswer (info_view words.now)) }
{
    match debug_form(words.form, bytes) {
        Some(form) => debug_answer(rt, words, form, bytes),
        None => other_told(rt.alloc(), words, map, bytes),
    }
}

/// Returns what is to be said of the file that the words name.
fn answer_to<'a, H: Files + AllocGlobal>(
    rt: &H,
    words: &InfoWords<'a>,
) -> Result<Answer, FileRefusal<'a>>
    ensures about { IfOk result (IsAnswer (info_view words.now)) }
    ensures refused { IfErr result (λ why. EndsInfo (info_view words.now) why.refusal) }
{
    let file = words.tape;
    let map = match MapSpec::at(None, words.port) {
        Ok(map) => map,
        Err(fault) => {
            return Err(FileRefusal {
                file,
                refusal: Refusal::Map(fault),
            });
        }
    };
    let text = read_text(rt, file)?;
    answer_by(rt, words, &map, &text).map_err(|_| FileRefusal {
        file,
        refusal: Refusal::OutOfMemory,
    })
}

/// Does what the words after `info` ask for, and returns the exit status: 0 if the file is an image
/// or debug information, 1 if it is neither, 2 if the words or the map are wrong, 3 if memory ran
/// out, 4 if reading or writing failed. What is in the file, or what is wrong with it, goes to
/// `output`. For 2 and above a line on `errors` says why, with the name of the file; that it cannot
/// be written changes no status.
pub fn tape_info<H: Files + AllocGlobal, O: Write, E: Write>(
    rt: &H,
    words: &[&str],
    output: &mut O,
    errors: &mut E,
) -> u8
    ensures status { result ≤ 4 }
    // Where the image is right nothing is said on the error stream.
    ensures quiet { result ≡ 0 → errors.new ≡ errors.old }
    // Words or a map that are refused leave the output as it was.
    ensures untouched { 2 ≤ result → result ≤ 3 → output.new ≡ output.old }
    // 0 means that the rows of some image or of some debug information were written, or the help
    // that is asked for.
    ensures right { result ≡ 0 → AsksForHelp info (texts words.entry.now)
        ⊎ Asks (texts words.entry.now) (λ asked. Tells (IsTold asked) true
        (O.contents output.old) (O.contents output.new)) }
    // 1 means that it was written why some bytes are no image, or the first fault of some debug
    // information; or that the file is too long.
    ensures wrong { result ≡ 1 → Asks (texts words.entry.now)
        (λ asked. Tells (IsTold asked) false (O.contents output.old) (O.contents output.new)
        ⊎ (output.new ≡ output.old)) }
    // 2 means that the words do not fit, that a value is wrong, or that the port makes no map.
    ensures refused { result ≡ 2 → Misfits info (texts words.entry.now)
        ⊎ ((Fits info (texts words.entry.now)
        × (info_asked (texts words.entry.now) ≡ None))
        ⊎ Asks (texts words.entry.now) (λ asked. is_map None asked.port ≡ false)) }
    // 4 means that a beginning was written of what is said of some bytes, or nothing; or help is
    // asked for.
    ensures begun { result ≡ 4 → AsksForHelp info (texts words.entry.now)
        ⊎ Asks (texts words.entry.now) (λ asked. TellsFront (IsTold asked)
        (O.contents output.old) (O.contents output.new) ⊎ (output.new ≡ output.old)) }
{
    match read_info_words(rt.alloc(), words) {
        Ok(words) => answered(answer_to(rt, &words), output, errors),
        Err(fault) => refused_words(fault, output, errors),
    }
}
