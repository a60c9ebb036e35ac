//! What the word `check` does.

ghost use Rattle.std.specs.Prelude.{◌≡◌, ◌≤◌, ◌⊎◌, IfErr, IfOk, None, OnErr, if◌then◌else◌};
ghost use Rattle.arguments.specs.Words.{AsksForHelp, Fits, Misfits, texts};
ghost use Rattle.clean_source.specs.Cleaned.{cleaned};
ghost use Rattle.word_check.specs.CommandLine.{check, check_asked, check_view, map_asked};
ghost use Rattle.word_check.specs.Files.{AreBegun, AreTried, Asks, HasNoMap, IsBegun, IsCutOff};
ghost use Rattle.word_check.specs.Files.{IsDone, IsTried};
ghost use Rattle.word_check.specs.Found.{EndsFile, IsFound, has_slips};

use crate::text::{CheckedText, checked_text};
use crate::words::{CheckWords, read_words};
use arguments::{
    LoadFault, NotWritten, Refusal, map_of, read_given_source, refuse, refused_words, shown_name,
    write_text,
};
use bus::MapSpec;
use clean_source::clean_source;
use image_files::{looks_like_capture, looks_raw, refuse_image};
use std::alloc::Global;
use std::io::Write;
use std::rt::Files;

/// Refuses a text that is given as a source, and begins with a record of an image.
#[tactic(auto, using(crate::proofs::OneMore::looks_end))]
fn refused_image(alloc: Global, source: &[u8]) -> Result<(), LoadFault>
    ensures { IfErr result EndsFile }
{
    match refuse_image(alloc, source) {
        Ok(()) => Ok(()),
        Err(fault) => Err(fault),
    }
}

/// Returns a source as it is read. The only error is that memory ran out.
fn cleaned_source(alloc: Global, bytes: &[u8]) -> Result<Vec<u8>, LoadFault>
    ensures clean { IfOk result (λ source. cleaned source.items ≡ source.items) }
    ensures refused { IfErr result EndsFile }
{
    clean_source(alloc, bytes).map_err(|_| LoadFault::Refused(Refusal::OutOfMemory))
}

/// Returns what is to be written of a source. The only error is that memory ran out.
fn found_of(
    alloc: Global,
    words: &CheckWords<'_>,
    map: &MapSpec,
    file: &str,
    source: &[u8],
) -> Result<CheckedText, LoadFault>
    requires map { map.now ≡ map_asked (check_view words.now) }
    requires clean { cleaned source.now ≡ source.now }
    ensures found { IfOk result (IsFound (check_view words.now) file.now) }
    ensures refused { IfErr result EndsFile }
{
    let Ok(name) = shown_name(alloc, file) else {
        return Err(LoadFault::Refused(Refusal::OutOfMemory));
    };
    checked_text(alloc, name.as_bytes(), source, map).map_err(|_| LoadFault::Refused(
        Refusal::OutOfMemory,
    ))
}

/// Returns what is to be written of a file's source, or why nothing is.
fn found_in(
    alloc: Global,
    words: &CheckWords<'_>,
    map: &MapSpec,
    file: &str,
    source: &[u8],
) -> Result<CheckedText, LoadFault>
    requires map { map.now ≡ map_asked (check_view words.now) }
    requires clean { cleaned source.now ≡ source.now }
    ensures found { IfOk result (IsFound (check_view words.now) file.now) }
    ensures refused { IfErr result EndsFile }
{
    match refused_image(alloc, source) {
        Ok(()) => found_of(alloc, words, map, file, source),
        Err(fault) => Err(fault),
    }
}

/// What is said behind what a file looks like that is no source.
const TAKES_SOURCES: &str =
    ": check takes sources; info, dis --source and convert take images, of raw bytes as FILE@HHHH\n";

/// Returns what is to be written of a source, unless it has a fault and its file looks like a
/// capture of a terminal, or begins as no source does.
fn unless_image(
    alloc: Global,
    words: &CheckWords<'_>,
    file: &str,
    bytes: &[u8],
    found: CheckedText,
) -> Result<CheckedText, LoadFault>
    requires { IsFound (check_view words.now) file.now found }
    ensures found { IfOk result (IsFound (check_view words.now) file.now) }
    ensures refused { IfErr result EndsFile }
{
    if !found.is_faulty {
        return Ok(found);
    }
    match looks_like_capture(alloc, bytes) {
        Ok(true) => Err(LoadFault::LooksLikeCapture),
        Ok(false) => {
            if looks_raw(bytes) {
                return Err(LoadFault::LooksLikeRaw);
            }
            Ok(found)
        }
        Err(_) => Err(LoadFault::Refused(Refusal::OutOfMemory)),
    }
}

/// Returns what is to be written of a file, or why nothing is.
fn checked<H: Files + AllocGlobal>(
    rt: &H,
    words: &CheckWords<'_>,
    map: &MapSpec,
    file: &str,
) -> Result<CheckedText, LoadFault>
    requires { map.now ≡ map_asked (check_view words.now) }
    ensures found { IfOk result (IsFound (check_view words.now) file.now) }
    ensures refused { IfErr result EndsFile }
{
    let bytes = read_given_source(rt, file)?;
    let source = cleaned_source(rt.alloc(), &bytes)?;
    let found = found_in(rt.alloc(), words, map, file, &source)?;
    unless_image(rt.alloc(), words, file, &bytes, found)
}

/// Returns the status of what was found of a file: 1 if the text counts, and 0 if not.
fn status_of(words: &CheckWords<'_>, found: &CheckedText) -> u8
    ensures { result ≡ (if has_slips (check_view words.now).strict found.now then 1 else 0) }
{
    if found.is_faulty || (words.strict && found.is_warned) {
        1
    } else {
        0
    }
}

/// Writes what was found of a file, and returns its status.
///
/// Errors: `NotWritten` if the output fails: a beginning of the text was then written.
fn tell<O: Write>(
    words: &CheckWords<'_>,
    file: &str,
    found: &CheckedText,
    output: &mut O,
) -> Result<u8, NotWritten>
    requires { IsFound (check_view words.now) file.now found.now }
    ensures tried { IfOk result (IsTried (check_view words.now) file.now
        (O.contents output.old) (O.contents output.new) (output.new ≡ output.old)) }
    ensures small { IfOk result (λ status. status ≤ 1) }
    ensures begun { OnErr result (IsBegun (check_view words.now) file.now
        (O.contents output.old) (O.contents output.new)) }
{
    match write_text(output, &found.text) {
        Ok(()) => Ok(status_of(words, found)),
        Err(fault) => Err(fault),
    }
}

/// Checks a file, writes what was found of it, and returns its status. If its source is not
/// checked, a line on `errors` says why.
///
/// Errors: `NotWritten` if the output fails: a beginning of the text was then written.
fn check_file<H: Files + AllocGlobal, O: Write, E: Write>(
    rt: &H,
    words: &CheckWords<'_>,
    map: &MapSpec,
    file: &str,
    output: &mut O,
    errors: &mut E,
) -> Result<u8, NotWritten>
    requires { map.now ≡ map_asked (check_view words.now) }
    ensures tried { IfOk result (IsTried (check_view words.now) file.now
        (O.contents output.old) (O.contents output.new) (output.new ≡ output.old)) }
    ensures within { IfOk result (λ status. status ≤ 4) }
    ensures begun { OnErr result (IsBegun (check_view words.now) file.now
        (O.contents output.old) (O.contents output.new)) }
    ensures quiet { IfOk result (λ status. status ≤ 1 → errors.new ≡ errors.old) }
{
    match checked(rt, words, map, file) {
        Ok(found) => tell(words, file, &found, output),
        Err(fault) => Ok(fault.tell_advised(file, TAKES_SOURCES, errors)),
    }
}

/// Checks files, one after another, writes what was found of each, and returns the highest status.
///
/// Errors: `NotWritten` if the output fails: no further file is then read.
fn check_files<H: Files + AllocGlobal, O: Write, E: Write>(
    rt: &H,
    words: &CheckWords<'_>,
    map: &MapSpec,
    files: &[&str],
    output: &mut O,
    errors: &mut E,
) -> Result<u8, NotWritten>
    requires { map.now ≡ map_asked (check_view words.now) }
    ensures tried { IfOk result (AreTried (check_view words.now) (texts files.now)
        (O.contents output.old) (O.contents output.new) (output.new ≡ output.old)) }
    ensures within { IfOk result (λ status. status ≤ 4) }
    ensures begun { OnErr result (AreBegun (check_view words.now) (texts files.now)
        (O.contents output.old) (O.contents output.new)) }
    ensures quiet { IfOk result (λ status. status ≤ 1 → errors.new ≡ errors.old) }
{
    let mut worst = 0u8;
    for index in 0..files.len() {
        match check_file(rt, words, map, files[index], output, errors) {
            Ok(status) => worst = worst.max(status),
            Err(fault) => return Err(fault),
        }
    }
    Ok(worst)
}

/// Checks the files of the words, and returns the exit status.
fn serve_words<H: Files + AllocGlobal, O: Write, E: Write>(
    rt: &H,
    words: &CheckWords<'_>,
    output: &mut O,
    errors: &mut E,
) -> u8
    ensures status { result ≤ 4 }
    ensures done { result ≤ 3 → ((result ≡ 2) × HasNoMap (check_view words.now)
        × (output.new ≡ output.old)) ⊎ IsDone (check_view words.now)
        (O.contents output.old) (O.contents output.new) (output.new ≡ output.old) result }
    ensures begun { result ≡ 4 → IsDone (check_view words.now)
        (O.contents output.old) (O.contents output.new) (output.new ≡ output.old) 4
        ⊎ IsCutOff (check_view words.now) (O.contents output.old) (O.contents output.new) }
    ensures quiet { result ≤ 1 → errors.new ≡ errors.old }
{
    let map = match map_of(words.profile, None, words.port) {
        Ok(map) => map,
        Err(fault) => return refuse(Refusal::from(fault), errors),
    };
    match check_files(rt, words, &map, &words.sources, output, errors) {
        Ok(status) => status,
        Err(_) => refuse(Refusal::Write, errors),
    }
}

/// Does what the words of `check` ask for, its own name left out, and returns the exit status.
///
/// Each file has a status of its own: 0 if its source has no fault, 1 if it has one, 2 if it looks
/// like an image, 3 if memory ran out, 4 if it cannot be read. With `--strict` it is also 1 if the
/// source has a warning. The exit status is the highest of them; it is 2 if the words or the map
/// are wrong, and 4 if the output fails, and then no further file is read.
///
/// The blocks of the faults go to `output`, or those of the warnings if the source has no fault,
/// file by file in the order of the words: those of a file are written before the next file is
/// read. If a source is not checked, a line on `errors` says why, and the next file follows. The
/// status is the same if that line cannot be written.
pub fn check<H: Files + AllocGlobal, O: Write, E: Write>(
    rt: &H,
    words: &[&str],
    output: &mut O,
    errors: &mut E,
) -> u8
    ensures status { result ≤ 4 }
    // 0 means that of each file some source was checked, on the map of the words, and what was
    // written of it does not count for the status; or the help that is asked for was written.
    ensures right { result ≡ 0 → AsksForHelp check (texts words.entry.now)
        ⊎ Asks (texts words.entry.now) (λ asked. IsDone asked
        (O.contents output.old) (O.contents output.new) (output.new ≡ output.old) 0) }
    // 1 means that of each file some source was checked, and that what was written of one of them
    // counts.
    ensures told { result ≡ 1 → Asks (texts words.entry.now) (λ asked. IsDone asked
        (O.contents output.old) (O.contents output.new) (output.new ≡ output.old) 1) }
    // 2 means that the words do not fit, that a value is wrong, or that the port makes no map, and
    // then the output is unchanged; or that one of the files at least begins with a record of an
    // image, and the others were tried. No clause can say which text a file has.
    ensures refused { result ≡ 2 → Misfits check (texts words.entry.now)
        ⊎ ((Fits check (texts words.entry.now)
        × (check_asked (texts words.entry.now) ≡ None))
        ⊎ Asks (texts words.entry.now) (λ asked. HasNoMap asked ⊎ IsDone asked
        (O.contents output.old) (O.contents output.new) (output.new ≡ output.old) 2)) }
    // 4 means that one of the files at least cannot be read, and the others were tried; or that the
    // output failed at one of the files; or help is asked for.
    ensures begun { result ≡ 4 → AsksForHelp check (texts words.entry.now)
        ⊎ Asks (texts words.entry.now) (λ asked. IsDone asked
        (O.contents output.old) (O.contents output.new) (output.new ≡ output.old) 4
        ⊎ IsCutOff asked (O.contents output.old) (O.contents output.new)) }
    // If each source was checked, nothing is written on the error stream.
    ensures quiet { result ≤ 1 → errors.new ≡ errors.old }
    // With 2 and 3 the output is unchanged, unless the files were tried: it then has what is
    // written of those that were checked, and is unchanged if none was.
    ensures untouched { 2 ≤ result → result ≤ 3 → (output.new ≡ output.old)
        ⊎ Asks (texts words.entry.now) (λ asked. IsDone asked
        (O.contents output.old) (O.contents output.new) (output.new ≡ output.old) result) }
{
    match read_words(rt.alloc(), words) {
        Ok(words) => serve_words(rt, &words, output, errors),
        Err(fault) => refused_words(fault, output, errors),
    }
}
