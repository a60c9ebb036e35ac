//! What the word `convert` does.

ghost use Rattle.std.specs.Prelude.{◌≡◌, ◌≤◌, ◌⊎◌, IfErr, None};
ghost use Rattle.arguments.specs.Files.{EndsWriting};
ghost use Rattle.arguments.specs.Words.{Fits, Misfits, texts};
ghost use Rattle.word_convert.specs.Asked.{convert_asked};
ghost use Rattle.word_convert.specs.CommandLine.{convert};
ghost use Rattle.word_convert.specs.Statuses.{EndsConvert, status_of};

use crate::converting::{converted, converted_with};
use crate::fault::ConvertFault;
use crate::wording::{CLASH, NO_BYTE, NO_SUM_BYTE};
use crate::words::{ConvertWords, OtherFile, read_convert_words};
use arguments::{Refusal, refused_words, tell_no_image, write_output};
use formatting::{Text, push_bytes, push_hex_address};
use image_files::{ImageRefusal, image_bytes, image_of_file};
use memory_map::Image;
use std::io::Write;
use std::rt::Files;

/// Returns the name of the other file to read, if there is one.
fn other_name<'a>(words: &ConvertWords<'a>) -> Option<&'a str> {
    match words.other {
        None => None,
        Some(other) => Some(other.file),
    }
}

/// Writes OUT, unless it is a file that is read under another name.
///
/// Errors: `WriteFile` if OUT is such a file, or cannot be written; `OutOfMemory` if an allocation
/// fails.
fn write_out<H: Files + AllocGlobal>(
    rt: &H,
    words: &ConvertWords<'_>,
    bytes: &[u8],
) -> Result<(), Refusal>
    ensures { IfErr result EndsWriting }
{
    write_output(
        rt,
        words.out,
        &[Some(words.input), other_name(words)],
        bytes,
    )
}

/// Writes OUT. The error has the file that it is of.
#[tactic(auto, using(crate::proofs::Whole::writing_ends))]
fn written_out<'a, H: Files + AllocGlobal>(
    rt: &H,
    words: &ConvertWords<'a>,
    out: &[u8],
) -> Result<(), (&'a str, ConvertFault)>
    ensures { IfErr result (λ fault. EndsConvert fault.1) }
{
    match write_out(rt, words, out) {
        Ok(()) => Ok(()),
        Err(refusal) => {
            let why = ImageRefusal::Refused(refusal);
            Err((words.out, ConvertFault::Refused(why)))
        }
    }
}

/// Converts the bytes of one file. The error has the file that it is of.
#[tactic(auto, using(crate::proofs::Whole::refused_ends))]
fn one_done<'a, H: Files + AllocGlobal>(
    rt: &H,
    words: &ConvertWords<'a>,
    bytes: &[u8],
) -> Result<(), (&'a str, ConvertFault)>
    ensures { IfErr result (λ fault. EndsConvert fault.1) }
{
    match converted(rt.alloc(), words, bytes) {
        Err(fault) => Err((words.input, fault)),
        Ok(out) => written_out(rt, words, &out),
    }
}

/// Converts the bytes of one file and the image of another. The error has the file that it is of:
/// for two bytes of one address that is IN.
#[tactic(auto, using(crate::proofs::Whole::refused_with_ends))]
fn joined<'a, H: Files + AllocGlobal>(
    rt: &H,
    words: &ConvertWords<'a>,
    bytes: &[u8],
    other: &Image,
) -> Result<(), (&'a str, ConvertFault)>
    ensures { IfErr result (λ fault. EndsConvert fault.1) }
{
    match converted_with(rt.alloc(), words, bytes, other) {
        Err(fault) => Err((words.input, fault)),
        Ok(out) => written_out(rt, words, &out),
    }
}

/// Converts the bytes of one file and another file. The error has the file that it is of.
#[tactic(auto, using(crate::proofs::Whole::image_ends))]
fn both_done<'a, H: Files + AllocGlobal>(
    rt: &H,
    words: &ConvertWords<'a>,
    bytes: &[u8],
    other: OtherFile<'a>,
) -> Result<(), (&'a str, ConvertFault)>
    ensures { IfErr result (λ fault. EndsConvert fault.1) }
{
    match image_of_file(rt, other.file, other.form) {
        Err(why) => Err((other.file, ConvertFault::Refused(why))),
        Ok(image) => joined(rt, words, bytes, &image),
    }
}

/// Converts a file, or two. The error has the file that it is of.
#[tactic(auto, using(crate::proofs::Whole::bytes_end))]
fn convert_files<'a, H: Files + AllocGlobal>(
    rt: &H,
    words: &ConvertWords<'a>,
) -> Result<(), (&'a str, ConvertFault)>
    ensures { IfErr result (λ fault. EndsConvert fault.1) }
{
    let bytes = match image_bytes(rt, words.input) {
        Ok(bytes) => bytes,
        Err(why) => return Err((words.input, ConvertFault::Refused(why))),
    };
    match words.other {
        None => one_done(rt, words, &bytes),
        Some(other) => both_done(rt, words, &bytes, other),
    }
}

/// Returns where two files have two bytes.
fn clash_place(address: u16) -> Text {
    let mut text = Text::new();
    push_bytes(&mut text, b"at ");
    push_hex_address(&mut text, address);
    push_bytes(&mut text, b" ");
    text
}

/// Writes why a file is not converted, and returns the exit status, even if that cannot be written.
fn tell<E: Write>(file: &str, fault: ConvertFault, errors: &mut E) -> u8
    ensures { result ≡ status_of fault }
{
    match fault {
        ConvertFault::Refused(why) => why.tell(file, errors),
        ConvertFault::NoByte => {
            tell_no_image(file, b"", NO_BYTE, None, errors);
            1
        }
        ConvertFault::NoSumByte => {
            tell_no_image(file, b"", NO_SUM_BYTE, None, errors);
            1
        }
        ConvertFault::Clash(address) => {
            tell_no_image(file, clash_place(address).as_slice(), CLASH, None, errors);
            1
        }
    }
}

/// Writes why a file is not converted, and returns the exit status, which is never that of wrong
/// words.
fn ended<E: Write>(file: &str, fault: ConvertFault, errors: &mut E) -> u8
    requires { EndsConvert fault }
    ensures least { 1 ≤ result }
    ensures most { result ≤ 4 }
    ensures two { result ≡ 2 → ⊥ }
{
    tell(file, fault, errors)
}

/// Converts the file of the words, or says why not, and returns the exit status.
fn serve_words<H: Files + AllocGlobal, E: Write>(
    rt: &H,
    words: &ConvertWords<'_>,
    errors: &mut E,
) -> u8
    ensures status { result ≤ 4 }
    ensures two { result ≡ 2 → ⊥ }
    ensures quiet { result ≡ 0 → errors.new ≡ errors.old }
{
    match convert_files(rt, words) {
        Ok(()) => 0,
        Err((file, fault)) => ended(file, fault, errors),
    }
}

/// Does what the words after `convert` ask for, and returns the exit status.
///
/// - 0: OUT was written, or the help that is asked for.
/// - 1: IN is no image, or has no byte to write, or none where one has to make the sum 0.
/// - 2: the words are wrong. 3: memory ran out.
/// - 4: reading or writing failed, or OUT is IN under another name.
///
/// For 1 and above a line on `errors` says why, with the name of the file; that it cannot be
/// written changes no status.
pub fn convert<H: Files + AllocGlobal, O: Write, E: Write>(
    rt: &H,
    words: &[&str],
    output: &mut O,
    errors: &mut E,
) -> u8
    ensures status { result ≤ 4 }
    // Where a file was written nothing is said.
    ensures quiet { result ≡ 0 → errors.new ≡ errors.old }
    // Only help that is asked for is written to the output.
    ensures silent { Fits convert (texts words.entry.now) → output.new ≡ output.old }
    ensures untouched { 1 ≤ result → result ≤ 3 → output.new ≡ output.old }
    // 2 means that the words do not fit, or that they ask for nothing.
    ensures refused { result ≡ 2 → Misfits convert (texts words.entry.now)
        ⊎ (Fits convert (texts words.entry.now)
        × (convert_asked (texts words.entry.now) ≡ None)) }
{
    match read_convert_words(rt.alloc(), words) {
        Ok(words) => serve_words(rt, &words, errors),
        Err(fault) => refused_words(fault, output, errors),
    }
}
