//! What the word `cmp` does.

ghost use Rattle.std.specs.Prelude.{◌≡◌, ◌<◌, ◌≤◌, ◌⊎◌, IfErr, IfOk, None, false, length, string_bytes, true};
ghost use Rattle.arguments.specs.Streams.{Tells, TellsFront};
ghost use Rattle.arguments.specs.Words.{AsksForHelp, Fits, Misfits, texts};
ghost use Rattle.word_cmp.specs.DifferenceRows.{side_of};
ghost use Rattle.word_cmp.specs.Sides.{side_view};
ghost use Rattle.image_files.specs.Files.{EndsImage, HasNoImage, IsOfFile};
ghost use Rattle.word_cmp.specs.CompareWord.{Asks, HasNoSide, IsAlignedText, IsAnswerOf, IsSaid};
ghost use Rattle.word_cmp.specs.CompareWord.{IsTextOf};
ghost use Rattle.word_cmp.specs.CompareWord.{cmp_status};
ghost use Rattle.word_cmp.specs.Differences.{differences as differences_of};
ghost use Rattle.word_cmp.specs.CompareWord.{TellsAsked, TellsAskedFront};
ghost use Rattle.tape_words.specs.Asked.{cmp_asked, cmp_view};
ghost use Rattle.tape_words.specs.CommandLines.{cmp};

use crate::aligned_rows::aligned_rows;
use crate::alignment::alignment_of;
use crate::comparing::differences;
use crate::dump_text::push_dump_text;
use crate::parts::parts_of;
use crate::row_text::rows;
use crate::sides::Side;
use arguments::{FileRefusal, Refusal, refused_words};
use image_files::{ImageFileRefusal, ImageRefusal, image_of_file};
use image_reader::Form;
use model::Profile;
use std::alloc::{AllocError, Global};
use std::io::Write;
use std::rt::Files;
use tape_words::{Answer, CmpWords, answered, read_cmp_words};

/// Returns a file's side of the comparison.
///
/// Errors: those of `image_of_file`, with the name of the file.
fn side_of<'a, H: Files + AllocGlobal>(
    rt: &H,
    profile: Profile,
    file: &'a str,
    form: Option<Form>,
) -> Result<Side<'a>, ImageFileRefusal<'a>>
    ensures image { IfOk result (λ side. IsOfFile form side.image) }
    ensures side { IfOk result
        (λ side. side_view side ≡ side_of file.now side.image profile) }
    ensures refused { IfErr result (λ why. EndsImage form why.why) }
{
    match image_of_file(rt, file, form) {
        Ok(image) => {
            Side::new(rt.alloc(), file, image, profile).map_err(|_| ImageFileRefusal {
                file,
                why: ImageRefusal::Refused(Refusal::OutOfMemory),
            })
        }
        Err(why) => Err(ImageFileRefusal { file, why }),
    }
}

/// Returns the rows of an alignment of two sides.
fn aligned(alloc: Global, one: &Side<'_>, other: &Side<'_>) -> Result<String, AllocError>
    ensures { IfOk result (λ text. IsAlignedText (side_view one.now) (side_view other.now)
        (string_bytes text)) }
{
    let parts = parts_of(alloc, one)?;
    let others = parts_of(alloc, other)?;
    let rows = alignment_of(alloc, &parts, &others)?;
    aligned_rows(alloc, one, other, &rows)
}

/// Returns the rows of all addresses at which two sides differ, and how many bytes that are.
fn all_rows(
    alloc: Global,
    one: &Side<'_>,
    other: &Side<'_>,
    differences: &[u16],
) -> Result<String, AllocError>
    requires some { 0 < length differences.now }
    requires all { differences.now ≡ differences_of one.now.image other.now.image }
    ensures { IfOk result (λ text. IsTextOf false (side_view one.now) (side_view other.now)
        (string_bytes text)) }
{
    let mut text = rows(alloc, one, other, differences)?;
    push_dump_text(alloc, &mut text, one, other)?;
    Ok(text)
}

/// Returns the rows between two sides that differ.
fn rows_between(
    alloc: Global,
    align: bool,
    one: &Side<'_>,
    other: &Side<'_>,
    differences: &[u16],
) -> Result<String, AllocError>
    requires some { 0 < length differences.now }
    requires all { differences.now ≡ differences_of one.now.image other.now.image }
    ensures { IfOk result (λ text. IsTextOf align (side_view one.now) (side_view other.now)
        (string_bytes text)) }
{
    if align {
        aligned(alloc, one, other)
    } else {
        all_rows(alloc, one, other, differences)
    }
}

/// Returns what is said of two sides. The only error is that an allocation failed.
fn answer_of(
    alloc: Global,
    align: bool,
    one: &Side<'_>,
    other: &Side<'_>,
) -> Result<Answer, AllocError>
    ensures { IfOk result (IsAnswerOf align (side_view one.now) (side_view other.now)) }
{
    let found = differences(alloc, one.image(), other.image())?;
    if found.is_empty() {
        return Ok(Answer {
            text: String::new(alloc),
            is_right: true,
        });
    }
    let text = rows_between(alloc, align, one, other, &found)?;
    Ok(Answer {
        text,
        is_right: false,
    })
}

/// Returns what is said of the two images of the words.
fn compared<'a>(
    alloc: Global,
    words: &CmpWords<'a>,
    one: &Side<'_>,
    other: &Side<'_>,
) -> Result<Answer, FileRefusal<'a>>
    ensures rows { IfOk result
        (IsAnswerOf words.now.align (side_view one.now) (side_view other.now)) }
    ensures only { IfErr result (λ why. why.refusal ≡ Refusal.OutOfMemory) }
{
    answer_of(alloc, words.align, one, other).map_err(|_| FileRefusal {
        file: words.tape,
        refusal: Refusal::OutOfMemory,
    })
}

/// Returns the exit status of `cmp` for that of a file that is not read: 2 for one that is no
/// image.
fn cmp_status(status: u8) -> u8
    ensures { result ≡ cmp_status status }
{
    if status == 1 { 2 } else { status }
}

/// Says which file is not compared, and why, and returns the exit status: 2 for one that is no
/// image.
fn not_compared<E: Write>(form: Option<Form>, why: ImageFileRefusal<'_>, errors: &mut E) -> u8
    requires { EndsImage form why.why }
    ensures least { 2 ≤ result }
    ensures most { result ≤ 4 }
    ensures fault { result ≡ 2 → HasNoImage form }
{
    cmp_status(why.tell(errors))
}

/// Says why the first file is not compared, and returns the exit status.
fn one_refused<E: Write>(words: &CmpWords<'_>, why: ImageFileRefusal<'_>, errors: &mut E) -> u8
    requires { EndsImage words.now.form why.why }
    ensures least { 2 ≤ result }
    ensures most { result ≤ 4 }
    ensures fault { result ≡ 2 → HasNoSide (cmp_view words.now) }
{
    not_compared(words.form, why, errors)
}

/// Says why the other file is not compared, and returns the exit status.
fn other_refused<E: Write>(words: &CmpWords<'_>, why: ImageFileRefusal<'_>, errors: &mut E) -> u8
    requires { EndsImage words.now.other_form why.why }
    ensures least { 2 ≤ result }
    ensures most { result ≤ 4 }
    ensures fault { result ≡ 2 → HasNoSide (cmp_view words.now) }
{
    not_compared(words.other_form, why, errors)
}

/// Compares the files of the words, and returns the exit status.
fn compare_files<H: Files + AllocGlobal, O: Write, E: Write>(
    rt: &H,
    words: &CmpWords<'_>,
    output: &mut O,
    errors: &mut E,
) -> u8
    ensures status { result ≤ 4 }
    ensures quiet { result ≡ 0 → errors.new ≡ errors.old }
    ensures untouched { 2 ≤ result → result ≤ 3 → output.new ≡ output.old }
    ensures right { result ≡ 0 → Tells (IsSaid (cmp_view words.now)) true
        (O.contents output.old) (O.contents output.new) }
    ensures wrong { result ≡ 1 → Tells (IsSaid (cmp_view words.now)) false
        (O.contents output.old) (O.contents output.new) }
    ensures fault { result ≡ 2 → HasNoSide (cmp_view words.now) }
    ensures begun { result ≡ 4
        → TellsFront (IsSaid (cmp_view words.now)) (O.contents output.old) (O.contents output.new)
        ⊎ (output.new ≡ output.old) }
{
    let one = match side_of(rt, words.profile, words.tape, words.form) {
        Ok(side) => side,
        Err(why) => return one_refused(words, why, errors),
    };
    let other = match side_of(rt, words.profile, words.other, words.other_form) {
        Ok(side) => side,
        Err(why) => return other_refused(words, why, errors),
    };
    answered(compared(rt.alloc(), words, &one, &other), output, errors)
}

/// Does what the words after `cmp` ask for, and returns the exit status: 0 if both images have the
/// same bytes, 1 if they differ, 2 if the words are wrong or a file is no image, 3 if memory ran
/// out, 4 if reading or writing failed. The rows of the differences go to `output`. For 2 and above
/// a line on `errors` says why; that it cannot be written changes no status.
pub fn tape_cmp<H: Files + AllocGlobal, O: Write, E: Write>(
    rt: &H,
    words: &[&str],
    output: &mut O,
    errors: &mut E,
) -> u8
    ensures status { result ≤ 4 }
    // Where nothing differs nothing is said on the error stream.
    ensures quiet { result ≡ 0 → errors.new ≡ errors.old }
    // Words or files that are refused leave the output as it was.
    ensures untouched { 2 ≤ result → result ≤ 3 → output.new ≡ output.old }
    // 0 means that two images were found equal, with nothing to write, or that the help that is
    // asked for was written.
    ensures right { result ≡ 0 → AsksForHelp cmp (texts words.entry.now)
        ⊎ TellsAsked (texts words.entry.now) true
        (O.contents output.old) (O.contents output.new) }
    // 1 means that two images differ, and the rows of their differences were written.
    ensures wrong { result ≡ 1 → TellsAsked (texts words.entry.now) false
        (O.contents output.old) (O.contents output.new) }
    // 2 means that the words do not fit, that a value is wrong, or that a file is no image.
    ensures refused { result ≡ 2 → Misfits cmp (texts words.entry.now)
        ⊎ ((Fits cmp (texts words.entry.now)
        × (cmp_asked (texts words.entry.now) ≡ None))
        ⊎ Asks (texts words.entry.now) HasNoSide) }
    // 4 means that a beginning of the rows was written, or nothing; or help is asked for.
    ensures begun { result ≡ 4 → AsksForHelp cmp (texts words.entry.now)
        ⊎ (TellsAskedFront (texts words.entry.now)
        (O.contents output.old) (O.contents output.new)
        ⊎ Asks (texts words.entry.now) (λ _. output.new ≡ output.old)) }
{
    match read_cmp_words(rt.alloc(), words) {
        Ok(words) => compare_files(rt, &words, output, errors),
        Err(fault) => refused_words(fault, output, errors),
    }
}
