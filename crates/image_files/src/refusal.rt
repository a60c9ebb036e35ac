//! Why a file is no image.

ghost use Rattle.std.specs.Prelude.{◌≡◌};
ghost use Rattle.image_files.specs.Bytes.{of_fault};
ghost use Rattle.image_files.specs.Told.{IsUnloaded, no_image_text, note_of, number_of, place_of};
ghost use Rattle.image_files.specs.Told.{record_note, refusal_text, status_of_image, what_of};
ghost use Rattle.image_files.specs.declared.refusal.ImageRefusal.TheVariants.{Refused};
ghost use Rattle.model.specs.Writers.{AppendsFront};

use crate::form::OtherText;
use crate::wording;
use arguments::{FileRefusal, LoadFault, Refusal, refuse_image_file, tell_noted};
use formatting::{Text, push_bytes, push_decimal};
use image_reader::{ImageFault, RecordFault, RecordFaultKind};
use std::io::Write;

/// What is wrong with the bytes of a file.
#[derive(Clone, Copy, Debug, PartialEq, Eq)]
pub enum NoImage {
    /// A text of Intel HEX or of S-records has this fault.
    Record(RecordFault),
    /// Raw bytes, or those of a PRG file, go on past address 65535.
    PastEnd,
    /// A PRG file has fewer than the two bytes of its address.
    NoAddress,
    /// No form is said, and they begin with no record; or one without records is said, and they
    /// begin with one.
    Looks(OtherText),
    /// There are more than 16,777,216.
    TooLong,
}

/// Why a file is no image.
#[derive(Clone, Copy, Debug, PartialEq, Eq)]
pub enum ImageRefusal {
    /// Its bytes are none.
    NoImage(NoImage),
    /// A tape has a fault, the file cannot be read, or memory ran out.
    Refused(Refusal),
}

/// Returns what a fault of a text of records means, to be written behind its number.
pub fn record_note(kind: RecordFaultKind) -> &'static str
    ensures { result.now ≡ record_note kind }
{
    match kind {
        RecordFaultKind::NoMark => wording::NO_RECORD_BEGINS,
        RecordFaultKind::BadHex => wording::NO_HEX_DIGIT,
        RecordFaultKind::ShortRecord => wording::LINE_ENDS,
        RecordFaultKind::LongRecord => wording::LINE_GOES_ON,
        RecordFaultKind::BadChecksum => wording::OTHER_SUM,
        RecordFaultKind::UnknownType => wording::NO_TYPE,
        RecordFaultKind::BadLength => wording::OTHER_LENGTH,
        RecordFaultKind::PastEnd => wording::PAST_LAST,
        RecordFaultKind::BadCount => wording::OTHER_COUNT,
        RecordFaultKind::NoEnd => wording::END_MISSES,
    }
}

/// Returns a fault of an image as why a file is none.
pub fn of_fault(fault: ImageFault) -> ImageRefusal
    ensures { result ≡ of_fault fault }
{
    match fault {
        ImageFault::Record(fault) => ImageRefusal::NoImage(NoImage::Record(fault)),
        ImageFault::Tape(fault) => ImageRefusal::Refused(Refusal::Tape(fault)),
        ImageFault::PastEnd => ImageRefusal::NoImage(NoImage::PastEnd),
        ImageFault::NoAddress => ImageRefusal::NoImage(NoImage::NoAddress),
        ImageFault::OutOfMemory => ImageRefusal::Refused(Refusal::OutOfMemory),
    }
}

impl NoImage {
    /// Returns where the fault of a text of records is; nothing for any other fault.
    #[tactic(auto, unfolding(crate::specs::Told::place_of))]
    pub fn place(self) -> Text
        ensures { result.items ≡ place_of self }
    {
        let mut text = Text::new();
        match self {
            NoImage::Record(fault) => {
                push_bytes(&mut text, b"IMAGE line ");
                push_decimal(&mut text, fault.line as u64);
                push_bytes(&mut text, b" column ");
                push_decimal(&mut text, fault.column as u64);
                push_bytes(&mut text, b" ");
            }
            _ => {}
        }
        text
    }

    /// Returns what is wrong: the name of a fault of a text of records, or a sentence.
    pub fn what(self) -> &'static str
        ensures { result.now ≡ what_of self }
    {
        match self {
            NoImage::Record(fault) => fault.kind.name(),
            NoImage::PastEnd => wording::PAST_END,
            NoImage::NoAddress => wording::NO_ADDRESS,
            NoImage::Looks(OtherText::Nothing) => wording::LOOKS_EMPTY,
            NoImage::Looks(OtherText::Bytes) => wording::LOOKS_RAW,
            NoImage::Looks(OtherText::Plain) => wording::LOOKS_PLAIN,
            NoImage::Looks(OtherText::Capture) => wording::LOOKS_CAPTURED,
            NoImage::Looks(OtherText::Tape) => wording::IS_TAPE,
            NoImage::Looks(OtherText::Hex) => wording::IS_HEX,
            NoImage::Looks(OtherText::SRecords) => wording::IS_S_RECORDS,
            NoImage::TooLong => wording::TOO_LONG,
        }
    }

    /// Returns the number of a fault of a text of records.
    pub fn number(self) -> Option<u8>
        ensures { result ≡ number_of self }
    {
        match self {
            NoImage::Record(fault) => Some(fault.kind.number()),
            _ => None,
        }
    }

    /// Returns what a fault of a text of records means; nothing for any other fault.
    pub fn note(self) -> &'static str
        ensures { result.now ≡ note_of self }
    {
        match self {
            NoImage::Record(fault) => record_note(fault.kind),
            _ => "",
        }
    }

    /// Writes why the file is no image, or a beginning of the line if a write fails.
    fn tell<E: Write>(self, file: &str, errors: &mut E)
        ensures { AppendsFront (E.contents errors.old) (E.contents errors.new)
            (no_image_text file.now self) }
    {
        tell_noted(
            file,
            self.place().as_slice(),
            self.what(),
            self.number(),
            self.note(),
            errors,
        );
    }
}

impl ImageRefusal {
    /// Writes why the file is no image, and returns the exit status, even if the line cannot be
    /// written: 1 for what is no image, otherwise that of the refusal.
    #[tactic(auto, unfolding(crate::specs::Told::refusal_text))]
    pub fn tell<E: Write>(self, file: &str, errors: &mut E) -> u8
        ensures status { result ≡ status_of_image self }
        ensures told { AppendsFront (E.contents errors.old) (E.contents errors.new)
            (refusal_text self file.now) }
    {
        match self {
            ImageRefusal::NoImage(why) => {
                why.tell(file, errors);
                1
            }
            ImageRefusal::Refused(refusal) => refuse_image_file(refusal, file, errors),
        }
    }

    /// Returns why a file is not loaded.
    pub fn unloaded(self) -> LoadFault
        ensures { IsUnloaded self result }
    {
        match self {
            ImageRefusal::NoImage(why) => LoadFault::NoImage {
                place: why.place(),
                what: why.what(),
                number: why.number(),
                note: why.note(),
            },
            ImageRefusal::Refused(refusal) => LoadFault::Refused(refusal),
        }
    }
}

impl From<Refusal> for ImageRefusal {
    ghost from_gives = { λ refusal why. why ≡ Refused refusal };

    fn from(refusal: Refusal) -> ImageRefusal {
        ImageRefusal::Refused(refusal)
    }
}

/// Why a word ends without an answer, with the name of a file.
#[derive(Clone, Copy, Debug)]
pub struct ImageFileRefusal<'a> {
    /// The file that is no image, that cannot be read or written, or that has a fault.
    pub file: &'a str,
    /// Why there is no answer. A map and memory are of no file.
    pub why: ImageRefusal,
}

impl<'a> From<FileRefusal<'a>> for ImageFileRefusal<'a> {
    ghost from_gives = { λ refused why. (why.file.now ≡ refused.file.now)
        × (why.why ≡ Refused refused.refusal) };

    fn from(refused: FileRefusal<'a>) -> ImageFileRefusal<'a> {
        ImageFileRefusal {
            file: refused.file,
            why: ImageRefusal::Refused(refused.refusal),
        }
    }
}

impl ImageFileRefusal<'_> {
    /// Writes why there is no answer, with the name of the file, and returns the exit status, even
    /// if the line cannot be written.
    pub fn tell<E: Write>(self, errors: &mut E) -> u8
        ensures status { result ≡ status_of_image self.entry.why }
        ensures told { AppendsFront (E.contents errors.old) (E.contents errors.new)
            (refusal_text self.entry.why self.entry.file.now) }
    {
        self.why.tell(self.file, errors)
    }
}
