//! What is told of a debug file that has a fault.

ghost use Rattle.std.specs.Prelude.{◌≡◌};
ghost use Rattle.debug_files.specs.Told.{IsToldAs, name_of, note_of, number_of, place_of};

use arguments::{LoadFault, Refusal};
use debug_records::{DebugError, DebugFault, DebugFaultKind};
use formatting::{Text, push_bytes, push_decimal};

/// Returns where a fault is.
#[tactic(auto, unfolding(crate::specs::Told::place_of))]
fn place_of(fault: DebugFault) -> Text
    ensures { result.items ≡ place_of fault }
{
    let mut text = Text::new();
    push_bytes(&mut text, b"DEBUG line ");
    push_decimal(&mut text, fault.line as u64);
    push_bytes(&mut text, b" column ");
    push_decimal(&mut text, fault.column as u64);
    push_bytes(&mut text, b" ");
    text
}

/// Returns the name of a fault.
fn name_of(kind: DebugFaultKind) -> &'static str
    ensures { result.now ≡ name_of kind }
{
    match kind {
        DebugFaultKind::NoTab => "NoTab",
        DebugFaultKind::NoField => "NoField",
        DebugFaultKind::OpenText => "OpenText",
        DebugFaultKind::NameTwice => "NameTwice",
        DebugFaultKind::NoNumber => "NoNumber",
        DebugFaultKind::NoText => "NoText",
        DebugFaultKind::NoKind => "NoKind",
        DebugFaultKind::Missing => "Missing",
        DebugFaultKind::NoVersion => "NoVersion",
        DebugFaultKind::OtherVersion => "OtherVersion",
        DebugFaultKind::IdTwice => "IdTwice",
        DebugFaultKind::TooMany => "TooMany",
        DebugFaultKind::NoRecord => "NoRecord",
        DebugFaultKind::TooLarge => "TooLarge",
        DebugFaultKind::NoForm => "NoForm",
        DebugFaultKind::NoNumbers => "NoNumbers",
        DebugFaultKind::NoLineNumber => "NoLineNumber",
        DebugFaultKind::NoColumns => "NoColumns",
        DebugFaultKind::NoHead => "NoHead",
        DebugFaultKind::NoBytes => "NoBytes",
        DebugFaultKind::LongSpans => "LongSpans",
    }
}

/// Returns the number of a fault.
fn number_of(kind: DebugFaultKind) -> u8
    ensures { result ≡ number_of kind }
{
    match kind {
        DebugFaultKind::NoTab => 1,
        DebugFaultKind::NoField => 2,
        DebugFaultKind::OpenText => 3,
        DebugFaultKind::NameTwice => 4,
        DebugFaultKind::NoNumber => 5,
        DebugFaultKind::NoText => 6,
        DebugFaultKind::NoKind => 7,
        DebugFaultKind::Missing => 8,
        DebugFaultKind::NoVersion => 9,
        DebugFaultKind::OtherVersion => 10,
        DebugFaultKind::IdTwice => 11,
        DebugFaultKind::TooMany => 12,
        DebugFaultKind::NoRecord => 13,
        DebugFaultKind::TooLarge => 14,
        DebugFaultKind::NoForm => 15,
        DebugFaultKind::NoNumbers => 16,
        DebugFaultKind::NoLineNumber => 17,
        DebugFaultKind::NoColumns => 18,
        DebugFaultKind::NoHead => 19,
        DebugFaultKind::NoBytes => 20,
        DebugFaultKind::LongSpans => 21,
    }
}

/// What is said of a file that begins as no form does.
const NO_FORM: &str = ": this is no debug file of ld65, no listing of 64tass and no report of ACME";

/// What is said of a listing without numbers of lines.
const NO_NUMBERS: &str = ": make the listing with --line-numbers";

/// What is said of a row without the number of a line.
const NO_LINE_NUMBER: &str =
    ": 64tass gives no numbers to the first file of its command line; let another include it";

/// What is said of a listing with other columns.
const NO_COLUMNS: &str = ": make the listing without --tab-size";

/// What is said of a debug file whose lines have too many bytes.
const LONG_SPANS: &str = ": the spans of its lines have more than 16,777,216 bytes together";

/// Returns what a fault means: a file of another kind, a listing that was made in another way, or a
/// debug file whose lines have too many bytes.
fn note_of(kind: DebugFaultKind) -> &'static str
    ensures { result.now ≡ note_of kind }
{
    match kind {
        DebugFaultKind::NoForm => NO_FORM,
        DebugFaultKind::NoNumbers => NO_NUMBERS,
        DebugFaultKind::NoLineNumber => NO_LINE_NUMBER,
        DebugFaultKind::NoColumns | DebugFaultKind::NoHead => NO_COLUMNS,
        DebugFaultKind::LongSpans => LONG_SPANS,
        _ => "",
    }
}

/// Returns why a debug file is not loaded.
pub fn load_fault(error: DebugError) -> LoadFault
    ensures { IsToldAs error result }
{
    match error {
        DebugError::OutOfMemory => LoadFault::Refused(Refusal::OutOfMemory),
        DebugError::Fault(fault) => LoadFault::NoImage {
            place: place_of(fault),
            what: name_of(fault.kind),
            number: Some(number_of(fault.kind)),
            note: note_of(fault.kind),
        },
    }
}
