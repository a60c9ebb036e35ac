//! Why a file is not loaded.

ghost use Rattle.std.specs.Prelude.{◌≡◌, ◌++◌, [], OnOk, Some, option_map};
ghost use Rattle.arguments.specs.FaultLines.{advised_text, like_line, load_text, look_of};
ghost use Rattle.arguments.specs.FaultLines.{no_image_line};
ghost use Rattle.arguments.specs.FaultLines.{number_part, port_line, port_part};
ghost use Rattle.arguments.specs.Statuses.{status_of_load};
ghost use Rattle.arguments.specs.declared.load_fault.LoadFault.TheVariants.{Refused};
ghost use Rattle.model.specs.Writers.{AppendsFront};

use crate::fault_line::{put_all, put_named};
use crate::refusal::Refusal;
use crate::refused::refuse_image_file;
use crate::wording::{
    AT_PORT, IS_FREE, LIKE_CAPTURE, LIKE_HEX, LIKE_RAW, LIKE_S_RECORDS, LIKE_TAPE, NONE_IS_FREE,
    TRY_PORT, USE_ADDRESS, USE_MEND, USE_TAPE,
};
use formatting::{Text, address_text, push_bytes, push_decimal, push_hex_address};
use model::AsmFault;
use std::alloc::AllocError;
use std::io::Write;

/// Why a file is not loaded.
#[derive(Drop)]
pub enum LoadFault {
    /// The file is given as a source, and begins with a record of a tape. As a source it would be
    /// comments.
    LooksLikeTape,
    /// The file is given as a source, and begins with a record of Intel HEX.
    LooksLikeHex,
    /// The file is given as a source, and begins with an S-record.
    LooksLikeSRecords,
    /// The file is given as a source, has a fault, and begins with bytes that no source has.
    LooksLikeRaw,
    /// The file is given as a source, has a fault, and looks like what the terminal of a KIM-1
    /// showed while a tape was written.
    LooksLikeCapture,
    /// The file is given as an image, and is none in its form: where that shows, if it is in a
    /// line, what is wrong, the number of that if it has one, and what it means, if that is said.
    NoImage {
        place: Text,
        what: &'static str,
        number: Option<u8>,
        note: &'static str,
    },
    /// The source has this fault. The text tells of all its faults, as `check` does.
    Faults {
        fault: AsmFault,
        text: Vec<u8>,
    },
    /// The image of a file has bytes at the port's addresses, the first to the last. A port with
    /// the base `free` would meet none; it is `None` where no base would.
    AtPort {
        first: u32,
        last: u32,
        free: Option<u16>,
    },
    /// What the word itself is refused for.
    Refused(Refusal),
}

impl From<Refusal> for LoadFault {
    ghost from_gives = { λ refusal fault. fault ≡ Refused refusal };

    fn from(refusal: Refusal) -> LoadFault {
        LoadFault::Refused(refusal)
    }
}

/// Writes what a file looks like that is given as a source, and what to do.
fn tell_like<E: Write>(file: &str, like: &str, advice: &str, errors: &mut E)
    ensures { AppendsFront (E.contents errors.old) (E.contents errors.new)
        (like_line like.now file.now advice.now) }
{
    put_named(file, &[like.as_bytes(), advice.as_bytes()], errors);
}

/// Returns the number of what is wrong, if it has one.
#[tactic(auto, unfolding(crate::specs::FaultLines::number_part))]
fn number_text(number: Option<u8>) -> Text
    ensures { result.items ≡ number_part number }
{
    let mut text = Text::new();
    if let Some(number) = number {
        push_bytes(&mut text, b" ");
        push_decimal(&mut text, number as u64);
    }
    text
}

/// Writes why a file is no image: where that shows, what is wrong, its number if it has one, and
/// what it means, if that is said.
pub fn tell_noted<'a, E: Write>(
    file: &str,
    place: &'a [u8],
    what: &'a str,
    number: Option<u8>,
    note: &'a str,
    errors: &mut E,
)
    ensures { AppendsFront (E.contents errors.old) (E.contents errors.new)
        (no_image_line file.now place.now what.now number note.now) }
{
    let number = number_text(number);
    put_named(
        file,
        &[
            b": ",
            place,
            what.as_bytes(),
            number.as_slice(),
            note.as_bytes(),
            b"\n",
        ],
        errors,
    );
}

/// Writes why a file is no image: where that shows, what is wrong, and its number if it has one.
pub fn tell_no_image<E: Write>(
    file: &str,
    place: &[u8],
    what: &str,
    number: Option<u8>,
    errors: &mut E,
)
    ensures { AppendsFront (E.contents errors.old) (E.contents errors.new)
        (no_image_line file.now place.now what.now number []) }
{
    tell_noted(file, place, what, number, "", errors);
}

/// Returns the addresses of a port, and which base is free.
#[tactic(auto, unfolding(crate::specs::FaultLines::port_part))]
fn port_text(first: u32, last: u32, free: Option<u16>) -> Text
    ensures { result.items ≡ port_part first last free }
{
    let mut text = Text::new();
    push_bytes(&mut text, &address_text(first));
    push_bytes(&mut text, b"-");
    push_bytes(&mut text, &address_text(last));
    match free {
        Some(base) => {
            push_bytes(&mut text, TRY_PORT.as_bytes());
            push_hex_address(&mut text, base);
            push_bytes(&mut text, IS_FREE.as_bytes());
        }
        None => push_bytes(&mut text, NONE_IS_FREE.as_bytes()),
    }
    text
}

/// Writes that an image has bytes at the port, and which base is free.
fn tell_port<E: Write>(file: &str, first: u32, last: u32, free: Option<u16>, errors: &mut E)
    ensures { AppendsFront (E.contents errors.old) (E.contents errors.new)
        (port_line file.now first last free) }
{
    put_named(
        file,
        &[AT_PORT.as_bytes(), port_text(first, last, free).as_slice()],
        errors,
    );
}

/// Writes a text, or a beginning of it if a write fails.
fn tell_text<E: Write>(text: &[u8], errors: &mut E)
    ensures { AppendsFront (E.contents errors.old) (E.contents errors.new) text.now }
{
    put_all(&[text], errors);
}

/// The most bytes of a line that says why a file is not loaded, but for the file's name.
const LONGEST_LINE: usize = 256;

/// Appends a text that tells of faults.
///
/// Errors: `AllocError` if an allocation fails.
fn push_told(told: &mut Vec<u8>, text: &[u8]) -> Result<(), AllocError>
    ensures { OnOk result (told.new.items ≡ told.old.items ++ text.now) }
{
    told.extend_from_slice(text)?;
    Ok(())
}

/// Appends a line that says why a file is not loaded.
///
/// Errors: `AllocError` if an allocation fails.
fn push_line(fault: LoadFault, file: &str, told: &mut Vec<u8>) -> Result<(), AllocError>
    ensures { OnOk result (AppendsFront (Some told.old.items) (Some told.new.items)
        (load_text fault file.now)) }
{
    told.reserve(file.len().saturating_add(LONGEST_LINE))?;
    let _ = fault.tell(file, told);
    Ok(())
}

impl LoadFault {
    /// Appends why the file was not loaded: all faults of a source, or a line.
    ///
    /// Errors: `AllocError` if an allocation fails.
    pub fn push(self, file: &str, told: &mut Vec<u8>) -> Result<(), AllocError>
        ensures { OnOk result (AppendsFront (Some told.old.items) (Some told.new.items)
            (load_text self file.now)) }
    {
        match self {
            LoadFault::Faults { text, .. } => push_told(told, &text),
            fault => push_line(fault, file, told),
        }
    }

    /// Writes why the file was not loaded, and returns the exit status, even if that cannot be
    /// written. It is 1 for a source with faults, for a file that is no image and for bytes at the
    /// port, 2 for an image that is given as a source.
    #[tactic(auto, unfolding(crate::specs::FaultLines::load_text))]
    pub fn tell<E: Write>(self, file: &str, errors: &mut E) -> u8
        ensures status { result ≡ status_of_load self }
        ensures told { AppendsFront (E.contents errors.old) (E.contents errors.new)
            (load_text self file.now) }
    {
        match self {
            LoadFault::LooksLikeTape => {
                tell_like(file, LIKE_TAPE, USE_TAPE, errors);
                2
            }
            LoadFault::LooksLikeHex => {
                tell_like(file, LIKE_HEX, USE_TAPE, errors);
                2
            }
            LoadFault::LooksLikeSRecords => {
                tell_like(file, LIKE_S_RECORDS, USE_TAPE, errors);
                2
            }
            LoadFault::LooksLikeRaw => {
                tell_like(file, LIKE_RAW, USE_ADDRESS, errors);
                2
            }
            LoadFault::LooksLikeCapture => {
                tell_like(file, LIKE_CAPTURE, USE_MEND, errors);
                2
            }
            LoadFault::NoImage {
                place,
                what,
                number,
                note,
            } => {
                tell_noted(file, &place, what, number, note, errors);
                1
            }
            LoadFault::Faults { text, .. } => {
                tell_text(&text, errors);
                1
            }
            LoadFault::AtPort { first, last, free } => {
                tell_port(file, first, last, free, errors);
                1
            }
            LoadFault::Refused(refusal) => refuse_image_file(refusal, file, errors),
        }
    }

    /// Returns what the file looks like that is refused as a source, if some words take such a file
    /// as an image.
    fn look(&self) -> Option<&'static str>
        ensures { option_map (λ look. look.now) result ≡ look_of self.now }
    {
        match self {
            LoadFault::LooksLikeTape => Some(LIKE_TAPE),
            LoadFault::LooksLikeHex => Some(LIKE_HEX),
            LoadFault::LooksLikeSRecords => Some(LIKE_S_RECORDS),
            LoadFault::LooksLikeRaw => Some(LIKE_RAW),
            LoadFault::LooksLikeCapture
            | LoadFault::NoImage { .. }
            | LoadFault::Faults { .. }
            | LoadFault::AtPort { .. }
            | LoadFault::Refused(_) => None,
        }
    }

    /// Returns the exit status of a word that does not load the file.
    fn status(&self) -> u8
        ensures { result ≡ status_of_load self.now }
    {
        match self {
            LoadFault::LooksLikeTape
            | LoadFault::LooksLikeHex
            | LoadFault::LooksLikeSRecords
            | LoadFault::LooksLikeRaw
            | LoadFault::LooksLikeCapture => 2,
            LoadFault::NoImage { .. } | LoadFault::Faults { .. } | LoadFault::AtPort { .. } => 1,
            LoadFault::Refused(refusal) => refusal.status(),
        }
    }

    /// Writes why the file was not loaded by a word that takes no image, with this advice where the
    /// file looks like one, and returns the exit status as `tell` does.
    pub fn tell_advised<E: Write>(self, file: &str, advice: &str, errors: &mut E) -> u8
        ensures status { result ≡ status_of_load self }
        ensures told { AppendsFront (E.contents errors.old) (E.contents errors.new)
            (advised_text self file.now advice.now) }
    {
        let status = self.status();
        match self.look() {
            None => self.tell(file, errors),
            Some(look) => {
                tell_like(file, look, advice, errors);
                status
            }
        }
    }
}
