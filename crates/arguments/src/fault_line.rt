//! Fault lines: why the program ends, put together without allocating.
ghost use Rattle.std.specs.Prelude.{◌≡◌, ◌+◌, ◌≤◌, ◌++◌, ◌∷◌, [], codes, decimal, length};
ghost use Rattle.model.specs.Writers.{AppendsFront};
ghost use Rattle.arguments.specs.FaultLines.{fault_line, file_line, name_part, named_line};
ghost use Rattle.arguments.specs.FaultLines.{image_line, joined, line_of, place_part, reason_part};
ghost use Rattle.arguments.specs.FaultLines.{source_line, tape_line, tape_note};
ghost use Rattle.model.specs.FaultTexts.{tape_fault_text};
ghost use Rattle.arguments.specs.Words.{texts};

use crate::output::put;
use crate::refusal::{ReadFault, Refusal};
use crate::shown::put_shown;
use crate::wording::{
    INFO_SAYS_MORE, IS_FOLDER, MEND_LEAVES_OUT, NO_DIGIT, NO_NAME, NO_SUCH_FILE, PERMISSION_DENIED,
};
use crate::write_fault::write_reason;
use formatting::{Text, push_bytes, push_decimal};
use model::{AsmFault, TapeFault, TapeFaultKind};
use std::io::Write;

/// Returns what is rejected, and where the fault is in it.
#[tactic(auto, unfolding(crate::specs::FaultLines::place_part))]
fn place_text(refusal: Refusal) -> Text
    ensures { result.items ≡ place_part refusal }
{
    let mut text = Text::new();
    match refusal {
        Refusal::Words => push_bytes(&mut text, b"WORDS"),
        Refusal::Map(_) => push_bytes(&mut text, b"MAP "),
        Refusal::Source(fault) => {
            push_bytes(&mut text, b"SOURCE line ");
            push_decimal(&mut text, fault.line as u64);
            push_bytes(&mut text, b" ");
        }
        Refusal::Tape(fault) => {
            push_bytes(&mut text, b"TAPE byte ");
            push_decimal(&mut text, fault.offset);
            push_bytes(&mut text, b" ");
        }
        Refusal::Session(_) => push_bytes(&mut text, b"TAPE "),
        Refusal::OutOfMemory => push_bytes(&mut text, b"OutOfMemory"),
        Refusal::Read(_) => push_bytes(&mut text, b"READ"),
        Refusal::Write | Refusal::WriteFile(_) => push_bytes(&mut text, b"WRITE"),
    }
    text
}

/// Appends a fault's name and number.
fn push_name(text: &mut Text, name: &str, number: u8)
    requires { length text.old.items + length name.now ≤ 43 }
    ensures written { text.new.items ≡ text.old.items ++ name.now ++ 32 ∷ decimal number }
    ensures short { length text.new.items ≤ 64 }
{
    push_bytes(text, name.as_bytes());
    push_bytes(text, b" ");
    push_decimal(text, number as u64);
}

/// Returns the rest of a fault line: the fault's name and number, if it has them, and the end of
/// the line.
#[tactic(auto, unfolding(crate::specs::FaultLines::name_part))]
fn name_text(refusal: Refusal) -> Text
    ensures { result.items ≡ name_part refusal ++ 10 ∷ [] }
{
    let mut text = Text::new();
    match refusal {
        Refusal::Map(fault) => push_name(&mut text, fault.name(), fault.number()),
        Refusal::Source(fault) => push_name(&mut text, fault.kind.name(), fault.kind.number()),
        Refusal::Tape(fault) => push_name(&mut text, fault.kind.name(), fault.kind.number()),
        Refusal::Session(fault) => push_name(&mut text, fault.name(), fault.number()),
        Refusal::Words
        | Refusal::OutOfMemory
        | Refusal::Read(_)
        | Refusal::Write
        | Refusal::WriteFile(_) => {}
    }
    push_bytes(&mut text, b"\n");
    text
}

/// Writes the parts of a line one after another, or a beginning of the line if a write fails.
pub fn put_all<E: Write>(parts: &[&[u8]], errors: &mut E)
    ensures { AppendsFront (E.contents errors.old) (E.contents errors.new)
        (joined (texts parts.entry.now)) }
{
    for part in parts {
        match put(errors, part) {
            Ok(()) => {}
            Err(_) => return,
        }
    }
}

/// Writes a line of two parts, or a beginning of it if a write fails.
pub fn put_two<E: Write>(first: &[u8], second: &[u8], errors: &mut E)
    ensures { AppendsFront (E.contents errors.old) (E.contents errors.new)
        (first.now ++ second.now) }
{
    put_all(&[first, second], errors);
}

/// Writes a line of three parts, or a beginning of it if a write fails.
pub fn put_three<E: Write>(first: &[u8], second: &[u8], third: &[u8], errors: &mut E)
    ensures { AppendsFront (E.contents errors.old) (E.contents errors.new)
        (first.now ++ (second.now ++ third.now)) }
{
    put_all(&[first, second, third], errors);
}

/// Writes the fault line of a refusal, or a beginning of it if a write fails.
pub fn put_fault_line<E: Write>(refusal: Refusal, errors: &mut E)
    ensures { AppendsFront (E.contents errors.old) (E.contents errors.new) (fault_line refusal) }
{
    put_three(
        b"mos65: ",
        place_text(refusal).as_slice(),
        name_text(refusal).as_slice(),
        errors,
    );
}

/// Writes a line that begins with the name of a file, and has these parts behind it, or a beginning
/// of the line if a write fails. The name is shown with a `?` for each control character.
pub fn put_named<E: Write>(file: &str, parts: &[&[u8]], errors: &mut E)
    ensures { AppendsFront (E.contents errors.old) (E.contents errors.new)
        (line_of file.now (joined (texts parts.entry.now))) }
{
    match put(errors, b"mos65: ") {
        Ok(()) => {}
        Err(_) => return,
    }
    match put_shown(errors, file) {
        Ok(()) => put_all(parts, errors),
        Err(_) => {}
    }
}

/// Returns why a file cannot be read or is not written, where that is known.
#[tactic(auto, unfolding(crate::specs::FaultLines::reason_part))]
fn reason_text(refusal: Refusal) -> &'static str
    ensures { result.now ≡ reason_part refusal }
{
    match refusal {
        Refusal::Read(ReadFault::NoSuchFile) => NO_SUCH_FILE,
        Refusal::Read(ReadFault::PermissionDenied) => PERMISSION_DENIED,
        Refusal::Read(ReadFault::Folder) => IS_FOLDER,
        Refusal::Read(ReadFault::NoName) => NO_NAME,
        Refusal::WriteFile(fault) => write_reason(fault),
        _ => "",
    }
}

/// Writes the fault line of a refusal with the name of a file, or a beginning of it if a write
/// fails.
fn put_named_line<E: Write>(refusal: Refusal, file: &str, errors: &mut E)
    ensures { AppendsFront (E.contents errors.old) (E.contents errors.new)
        (named_line file.now refusal) }
{
    put_named(
        file,
        &[
            b": ",
            place_text(refusal).as_slice(),
            reason_text(refusal).as_bytes(),
            name_text(refusal).as_slice(),
        ],
        errors,
    );
}

/// Returns the number of a line.
fn number_text(line: u32) -> Text
    ensures { result.items ≡ decimal line }
{
    let mut text = Text::new();
    push_decimal(&mut text, line as u64);
    text
}

/// Writes the name of a file, the number of its line and the fault there, or a beginning of that
/// line if a write fails.
fn put_source_line<E: Write>(fault: AsmFault, file: &str, errors: &mut E)
    ensures { AppendsFront (E.contents errors.old) (E.contents errors.new)
        (source_line file.now fault) }
{
    put_named(
        file,
        &[
            b":",
            number_text(fault.line).as_slice(),
            b": ",
            name_text(Refusal::Source(fault)).as_slice(),
        ],
        errors,
    );
}

/// Writes the fault line of a refusal, or a beginning of it if a write fails.
///
/// The line has the name of the file, unless the refusal is of none.
#[tactic(auto, unfolding(crate::specs::FaultLines::file_line))]
pub fn put_file_line<E: Write>(refusal: Refusal, file: &str, errors: &mut E)
    ensures { AppendsFront (E.contents errors.old) (E.contents errors.new)
        (file_line file.now refusal) }
{
    match refusal {
        Refusal::Words | Refusal::Map(_) | Refusal::OutOfMemory => put_fault_line(refusal, errors),
        Refusal::Source(fault) => put_source_line(fault, file, errors),
        Refusal::Tape(_)
        | Refusal::Session(_)
        | Refusal::Read(_)
        | Refusal::Write
        | Refusal::WriteFile(_) => put_named_line(refusal, file, errors),
    }
}

/// Returns what a fault of a tape means for whoever has its file.
fn tape_note(kind: TapeFaultKind) -> &'static str
    ensures { result.now ≡ tape_note kind }
{
    match kind {
        TapeFaultKind::BadHex => NO_DIGIT,
        TapeFaultKind::JunkAfterEnd => MEND_LEAVES_OUT,
        TapeFaultKind::JunkBetween => MEND_LEAVES_OUT,
        _ => INFO_SAYS_MORE,
    }
}

/// Returns the name and the number of a fault of a tape.
fn tape_name(kind: TapeFaultKind) -> Text
    ensures { result.items ≡ tape_fault_text kind }
{
    let mut text = Text::new();
    push_name(&mut text, kind.name(), kind.number());
    text
}

/// Writes which fault a tape has and what it means, or a beginning of that line if a write fails.
fn put_tape_line<E: Write>(fault: TapeFault, file: &str, errors: &mut E)
    ensures { AppendsFront (E.contents errors.old) (E.contents errors.new)
        (tape_line file.now fault) }
{
    put_named(
        file,
        &[
            b": ",
            place_text(Refusal::Tape(fault)).as_slice(),
            tape_name(fault.kind).as_slice(),
            tape_note(fault.kind).as_bytes(),
            b"\n",
        ],
        errors,
    );
}

/// Writes why a file has no image as `put_file_line` does, and of a fault of a tape what it means.
#[tactic(auto, unfolding(crate::specs::FaultLines::image_line))]
pub fn put_image_line<E: Write>(refusal: Refusal, file: &str, errors: &mut E)
    ensures { AppendsFront (E.contents errors.old) (E.contents errors.new)
        (image_line file.now refusal) }
{
    match refusal {
        Refusal::Tape(fault) => put_tape_line(fault, file, errors),
        Refusal::Words
        | Refusal::Map(_)
        | Refusal::Source(_)
        | Refusal::Session(_)
        | Refusal::OutOfMemory
        | Refusal::Read(_)
        | Refusal::Write
        | Refusal::WriteFile(_) => put_file_line(refusal, file, errors),
    }
}
