//! Why a suite cannot be tested, in words.

ghost use Rattle.std.specs.Prelude.{◌≡◌, ◌≤◌, ◌++◌, IfOk, OnOk, chars, flat_map, length, string_bytes};
ghost use Rattle.t65_suites.specs.FaultTexts.{IsRowsTitle, IsShown, IsTitle, line_title};
ghost use Rattle.t65_suites.specs.FaultTexts.{shown_character, shown_text};

use crate::fault::{FileFault, TestFault, Unprepared};
use crate::names::text_of;
use crate::suites::Suite;
use crate::wording::{AT_PORT, NO_DEBUG, NO_IMAGE, NO_ROW, NO_SOURCE, TOO_LARGE};
use arguments::{
    LoadFault, Refusal, put_fault_line, refuse_file, refuse_image_file, shown_name, tell_noted,
};
use loading::NamedFault;
use std::alloc::{AllocError, Global};
use std::io::Write;
use t65_values::{TextFault, characters_of, push_visible};

/// Appends a character as it is shown.
fn push_shown(text: &mut String, character: char) -> Result<(), AllocError>
    ensures { OnOk result
        (string_bytes text.new ≡ string_bytes text.old ++ shown_character character) }
{
    if character == '\n' {
        text.push('\n')
    } else {
        push_visible(text, character)
    }
}

/// Appends the characters of a text as they are shown.
fn push_all_shown(text: &mut String, characters: &str) -> Result<(), AllocError>
    ensures { OnOk result (string_bytes text.new
        ≡ string_bytes text.old ++ flat_map shown_character (chars characters.now)) }
{
    for character in characters.chars() {
        push_shown(text, character)?;
    }
    Ok(())
}

/// Appends bytes as they are shown.
fn push_shown_text(text: &mut String, bytes: &[u8]) -> Result<(), AllocError>
    ensures { OnOk result (string_bytes text.new ≡ string_bytes text.old ++ shown_text bytes.now) }
{
    let characters = characters_of(text, bytes)?;
    push_all_shown(text, &characters)
}

/// Returns bytes as they are shown.
fn shown_text(alloc: Global, bytes: &[u8]) -> Result<String, AllocError>
    ensures { IfOk result (λ text. IsShown (string_bytes text)) }
{
    let mut text = String::new(alloc);
    push_shown_text(&mut text, bytes)?;
    Ok(text)
}

/// Returns the words of a refusal, without the file that it is of.
fn refusal_words(alloc: Global, refusal: Refusal) -> Result<Vec<u8>, AllocError> {
    let mut line = Vec::new(alloc);
    let front = match refusal {
        Refusal::Read(_) => {
            let _ = refuse_file(refusal, "", &mut line);
            "mos65: : ".len()
        }
        _ => {
            put_fault_line(refusal, &mut line);
            "mos65: ".len()
        }
    };
    Vec::from_slice(alloc, line[front.min(line.len())..].trim_ascii())
}

/// Returns the line of a row, and what is wrong there.
fn line_title(alloc: Global, fault: TextFault) -> Result<String, AllocError>
    ensures { IfOk result (λ title. string_bytes title ≡ line_title fault) }
{
    let mut title = String::new(alloc);
    write!(title, "line {}: {}", fault.line, fault.kind)?;
    Ok(title)
}

/// Returns why a file of rows cannot be tested, in a few words.
fn rows_title(alloc: Global, fault: TestFault) -> Result<String, AllocError>
    ensures { IfOk result (λ title. IsRowsTitle fault (string_bytes title)) }
{
    match fault {
        TestFault::Rows(fault) => line_title(alloc, fault),
        TestFault::TooLarge => text_of(alloc, TOO_LARGE),
        TestFault::NoRow => text_of(alloc, NO_ROW),
        TestFault::Refused(refusal) => shown_text(alloc, &refusal_words(alloc, refusal)?),
    }
}

/// Returns the index of the first `:`, or how many bytes there are.
fn colon_in(text: &[u8]) -> usize
    ensures { result ≤ length text.now }
{
    match text.iter().position(|byte| *byte == b':') {
        Some(at) => at,
        None => text.len(),
    }
}

/// Returns what stands before the first `:`, and behind it.
fn parted(text: &[u8]) -> (&[u8], &[u8]) {
    let at = colon_in(text);
    (&text[..at], &text[at.saturating_add(1).min(text.len())..])
}

/// Returns the first line of a text.
fn first_line(text: &[u8]) -> &[u8] {
    match text.iter().position(|byte| *byte == b'\n') {
        Some(at) => &text[..at],
        None => text,
    }
}

/// Returns the number of the line of the first block about a file of this name, and what is wrong
/// there.
fn block_words(alloc: Global, name: &str, told: &[u8]) -> Result<Vec<u8>, AllocError> {
    let front = first_line(told);
    let (_, place) = parted(&front[name.len().min(front.len())..]);
    let (number, behind) = parted(place);
    let (_, what) = parted(behind);
    let mut words = Vec::from_slice(alloc, b"line ")?;
    words.extend_from_slice(number)?;
    words.extend_from_slice(b":")?;
    words.extend_from_slice(what)?;
    Ok(words)
}

/// Returns why a file is not loaded, in a few words.
fn file_words(alloc: Global, path: &str, fault: &LoadFault) -> Result<Vec<u8>, AllocError> {
    let words = match fault {
        LoadFault::Faults { text, .. } => {
            let name = shown_name(alloc, path)?;
            return block_words(alloc, &name, text);
        }
        LoadFault::Refused(refusal) => return refusal_words(alloc, *refusal),
        LoadFault::NoImage { .. } => NO_IMAGE,
        LoadFault::AtPort { .. } => AT_PORT,
        LoadFault::LooksLikeTape
        | LoadFault::LooksLikeHex
        | LoadFault::LooksLikeSRecords
        | LoadFault::LooksLikeRaw
        | LoadFault::LooksLikeCapture => NO_SOURCE,
    };
    Vec::from_slice(alloc, words.as_bytes())
}

/// Returns a file that is to blame, unless the suite has its name, and why.
fn blamed(
    alloc: Global,
    suite: Suite<'_>,
    file: &str,
    words: Vec<u8>,
) -> Result<Vec<u8>, AllocError> {
    if file == suite.name() {
        return Ok(words);
    }
    let mut blamed = Vec::from_slice(alloc, file.as_bytes())?;
    blamed.extend_from_slice(b": ")?;
    blamed.extend_from_slice(&words)?;
    Ok(blamed)
}

/// Returns why there is nothing to run the rows of a suite on, in a few words.
fn program_words(
    alloc: Global,
    suite: Suite<'_>,
    path: &str,
    fault: &NamedFault,
) -> Result<Vec<u8>, AllocError> {
    match fault {
        NamedFault::OfFile(fault) => blamed(alloc, suite, path, file_words(alloc, path, fault)?),
        NamedFault::OfNames(refusal) => {
            let file = suite.reading.symbols.unwrap_or("");
            blamed(alloc, suite, file, refusal_words(alloc, *refusal)?)
        }
        NamedFault::HasSource => Vec::from_slice(alloc, NO_IMAGE.as_bytes()),
    }
}

/// Returns why the debug information of a suite is not loaded, in a few words.
fn debug_words(alloc: Global, suite: Suite<'_>, fault: &LoadFault) -> Result<Vec<u8>, AllocError> {
    let words = match fault {
        LoadFault::Refused(refusal) => refusal_words(alloc, *refusal)?,
        _ => Vec::from_slice(alloc, NO_DEBUG.as_bytes())?,
    };
    blamed(alloc, suite, suite.reading.debug.unwrap_or(""), words)
}

/// Returns why a suite cannot be tested, in a few words: those of `check` for a fault of a source,
/// and the file that is to blame where it is not the one that names the suite.
///
/// Errors: `AllocError` if an allocation fails.
pub fn title_of(alloc: Global, suite: Suite<'_>, fault: &FileFault) -> Result<String, AllocError>
    ensures { IfOk result (λ title. IsTitle fault.now (string_bytes title)) }
{
    match fault {
        FileFault::InRows(fault) => rows_title(alloc, *fault),
        FileFault::InProgram(path, fault) => {
            let words = program_words(alloc, suite, path, fault)?;
            shown_text(alloc, &words)
        }
        FileFault::InDebug(fault) => {
            let words = debug_words(alloc, suite, fault)?;
            shown_text(alloc, &words)
        }
    }
}

/// Writes which line of a file of rows is none, and why.
fn tell_line<E: Write>(path: &str, fault: TextFault, text: &mut E) {
    let _ = writeln!(
        text,
        "mos65: {path}:{}:{}: {}{}",
        fault.line,
        fault.column,
        fault.kind,
        fault.kind.example()
    );
}

/// Writes why a file of rows cannot be tested; of a row, what is told already.
fn tell_rows<E: Write>(path: &str, fault: TestFault, told: Option<&[u8]>, text: &mut E) {
    match fault {
        TestFault::Rows(fault) => match told {
            Some(told) => {
                let _ = text.write_all(told);
            }
            None => tell_line(path, fault, text),
        },
        TestFault::TooLarge => {
            let _ = writeln!(text, "mos65: {path}: {}", TOO_LARGE);
        }
        TestFault::NoRow => {
            let _ = writeln!(text, "mos65: {path}: {}", NO_ROW);
        }
        // The map is one that the file asks for.
        TestFault::Refused(Refusal::Map(fault)) => {
            let _ = writeln!(text, "mos65: {path}: MAP {fault}");
        }
        TestFault::Refused(refusal) => {
            let _ = refuse_file(refusal, path, text);
        }
    }
}

/// Writes what a file looks like that is named as a source, and what to do.
fn tell_like<E: Write>(path: &str, like: &str, advice: &str, text: &mut E) {
    let _ = writeln!(
        text,
        "mos65: {path} looks like {like}, and is no source: use {advice}"
    );
}

/// Writes that an image has bytes at the port, and which base is free.
fn tell_port<E: Write>(path: &str, first: u32, last: u32, free: Option<u16>, text: &mut E) {
    let _ = write!(
        text,
        "mos65: {path}: IMAGE PortAddress 5 at {first:04X}-{last:04X}; "
    );
    let _ = match free {
        Some(base) => writeln!(text, "port={base:04X} in the head is free, or port=none"),
        None => writeln!(text, "port=none in the head leaves the port out"),
    };
}

/// Writes why a file is not loaded: all faults of a source, what a file looks like, why it is no
/// image, that it has bytes at the port, or why it is not read.
fn tell_file<E: Write>(path: &str, fault: &LoadFault, text: &mut E) {
    match fault {
        LoadFault::Faults { text: told, .. } => {
            let _ = text.write_all(told);
        }
        LoadFault::Refused(refusal) => {
            let _ = refuse_image_file(*refusal, path, text);
        }
        LoadFault::LooksLikeTape => tell_like(path, "a tape", "--image", text),
        LoadFault::LooksLikeHex => tell_like(path, "Intel HEX", "--image", text),
        LoadFault::LooksLikeSRecords => tell_like(path, "S-records", "--image", text),
        LoadFault::LooksLikeRaw => {
            tell_like(
                path,
                "a raw image",
                "--bin HHHH, the address of its first byte",
                text,
            )
        }
        LoadFault::LooksLikeCapture => {
            tell_like(
                path,
                "a capture of a KIM-1's terminal",
                "mend to make a tape of it",
                text,
            )
        }
        LoadFault::NoImage {
            place,
            what,
            number,
            note,
        } => tell_noted(path, place.as_slice(), *what, *number, *note, text),
        LoadFault::AtPort { first, last, free } => tell_port(path, *first, *last, *free, text),
    }
}

/// Writes why there is nothing to run rows on, where a file of names may be named.
fn tell_program<E: Write>(path: &str, symbols: Option<&str>, fault: &NamedFault, text: &mut E) {
    match fault {
        NamedFault::OfFile(fault) => tell_file(path, fault, text),
        NamedFault::OfNames(refusal) => {
            let _ = refuse_file(*refusal, symbols.unwrap_or(""), text);
        }
        NamedFault::HasSource => {
            let _ = NamedFault::HasSource.tell(path, symbols, text);
        }
    }
}

/// Returns what is told already, if something is.
fn slice_of(told: &Option<Vec<u8>>) -> Option<&[u8]> {
    match told {
        None => None,
        Some(told) => Some(told.as_slice()),
    }
}

/// Returns why a suite cannot be tested, with all faults of a source: what another word writes on
/// the error stream.
///
/// Errors: `AllocError` if an allocation fails.
pub fn remarks_of(alloc: Global, suite: Suite<'_>, why: &Unprepared) -> Result<String, AllocError>
    ensures { IfOk result (λ remarks. IsShown (string_bytes remarks)) }
{
    let mut told = Vec::new(alloc);
    match &why.fault {
        FileFault::InRows(fault) => {
            let rows = shown_name(alloc, suite.rows)?;
            tell_rows(&rows, *fault, slice_of(&why.told), &mut told);
        }
        FileFault::InProgram(path, fault) => {
            let path = shown_name(alloc, path)?;
            tell_program(&path, suite.reading.symbols, fault, &mut told);
        }
        FileFault::InDebug(fault) => {
            let path = shown_name(alloc, suite.reading.debug.unwrap_or(""))?;
            tell_file(&path, fault, &mut told);
        }
    }
    shown_text(alloc, &told)
}
