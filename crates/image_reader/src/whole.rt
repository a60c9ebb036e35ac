//! Reading bytes in any form.

ghost use Rattle.std.specs.Prelude.{◌≡◌, ◌⊎◌, ℕ, List, Option, Ok, Err, IfErr, IfOk, true};
ghost use Rattle.image_reader.specs.EndRecords.{as_read, has_count_twice};
ghost use Rattle.image_reader.specs.Feeding.{end_of_feeding, fed, overlaps_of_feeding};
ghost use Rattle.image_reader.specs.Images.{AnswersRaw, AnswersText, Denotes, HasFault};
ghost use Rattle.image_reader.specs.Images.{IsTapeFault, of_tape, prg_image, raw_image};
ghost use Rattle.image_reader.specs.Texts.{text_image, text_overlaps};
ghost use Rattle.image_reader.specs.declared.fault.ImageFault.{ImageFault};
ghost use Rattle.image_reader.specs.declared.fault.ImageFault.TheVariants.{OutOfMemory};
ghost use Rattle.model.specs.Tape.{TapeDenotes};

use crate::end_record::{has_count_twice, with_end_sum};
use crate::fault::{ImageFault, RecordFault};
use crate::form::{Form, TextForm};
use crate::reader::RecordReader;
use memory_map::Image;
use model::{TapeFault, TapeFaultKind};
use papertape::read_tape;
use std::alloc::Global;

/// Returns the fault of a tape as one of an image.
fn of_tape(fault: TapeFault) -> ImageFault
    ensures { result ≡ of_tape fault }
{
    match fault.kind {
        TapeFaultKind::OutOfMemory => ImageFault::OutOfMemory,
        _ => ImageFault::Tape(fault),
    }
}

/// Reads the text of a tape as it stands.
fn tape_text_image(alloc: Global, text: &[u8]) -> Result<Image, ImageFault>
    ensures found { IfOk result (TapeDenotes text.now) }
    ensures only { (cells : List (Option ℕ)) → TapeDenotes text.now cells
        → (result ≡ Ok cells) ⊎ (result ≡ Err OutOfMemory) }
    ensures fault { IfErr result (λ f. (f ≡ OutOfMemory) ⊎ IsTapeFault text.now f) }
    ensures refused { (fault : ImageFault) → IsTapeFault text.now fault
        → (result ≡ Err fault) ⊎ (result ≡ Err OutOfMemory) }
{
    match read_tape(alloc, text) {
        Ok(image) => Ok(image),
        Err(fault) => Err(of_tape(fault)),
    }
}

/// Reads the text of a tape whose end record has the number of records in place of the sum.
fn corrected_image(alloc: Global, text: &[u8]) -> Result<Image, ImageFault>
    requires { has_count_twice text.now ≡ true }
    ensures found { IfOk result (TapeDenotes (as_read text.now)) }
    ensures only { (cells : List (Option ℕ)) → TapeDenotes (as_read text.now) cells
        → (result ≡ Ok cells) ⊎ (result ≡ Err OutOfMemory) }
    ensures fault { IfErr result (λ f. (f ≡ OutOfMemory) ⊎ IsTapeFault (as_read text.now) f) }
    ensures refused { (fault : ImageFault) → IsTapeFault (as_read text.now) fault
        → (result ≡ Err fault) ⊎ (result ≡ Err OutOfMemory) }
{
    match with_end_sum(alloc, text) {
        Ok(read) => tape_text_image(alloc, &read),
        Err(_) => Err(ImageFault::OutOfMemory),
    }
}

/// Reads a tape.
#[tactic(auto, unfolding(crate::specs::EndRecords::as_read))]
fn tape_image(alloc: Global, text: &[u8]) -> Result<Image, ImageFault>
    ensures found { IfOk result (TapeDenotes (as_read text.now)) }
    ensures only { (cells : List (Option ℕ)) → TapeDenotes (as_read text.now) cells
        → (result ≡ Ok cells) ⊎ (result ≡ Err OutOfMemory) }
    ensures fault { IfErr result (λ f. (f ≡ OutOfMemory) ⊎ IsTapeFault (as_read text.now) f) }
    ensures refused { (fault : ImageFault) → IsTapeFault (as_read text.now) fault
        → (result ≡ Err fault) ⊎ (result ≡ Err OutOfMemory) }
{
    if has_count_twice(text) {
        corrected_image(alloc, text)
    } else {
        tape_text_image(alloc, text)
    }
}

/// Returns the image of a text that a reader is fed.
fn fed_whole(reader: RecordReader, text: &[u8]) -> Result<Image, RecordFault>
    ensures { end_of_feeding (fed reader text.now) ≡ result }
{
    let mut reader = reader;
    reader.take_each(text);
    reader.finish()
}

/// Returns what a text of records gives as what an image gives.
fn of_text(gives: Result<Image, RecordFault>) -> Result<Image, ImageFault>
    ensures { AnswersText gives result }
{
    match gives {
        Ok(image) => Ok(image),
        Err(fault) => Err(ImageFault::Record(fault)),
    }
}

/// Reads a text of records.
fn record_image(alloc: Global, form: TextForm, text: &[u8]) -> Result<Image, ImageFault>
    ensures { AnswersText (text_image form text.now) result }
{
    match RecordReader::new(alloc, form) {
        Err(_) => Err(ImageFault::OutOfMemory),
        Ok(reader) => of_text(fed_whole(reader, text)),
    }
}

/// Returns where the data records overlap of a text that a reader is fed.
fn fed_overlaps(reader: RecordReader, text: &[u8]) -> Result<Image, RecordFault>
    ensures { overlaps_of_feeding (fed reader text.now) ≡ result }
{
    let mut reader = reader;
    reader.take_each(text);
    reader.overlaps()
}

/// Returns an image with a cell at each address for which more than one data record of a text of
/// Intel HEX or of S-records has a byte.
///
/// Errors:
///
/// - `Record`: the first fault of a line, with its line and column. A text with no end record has
///   none.
/// - `OutOfMemory` if an allocation fails.
pub fn read_overlaps(alloc: Global, form: TextForm, text: &[u8]) -> Result<Image, ImageFault>
    ensures { AnswersText (text_overlaps form text.now) result }
{
    match RecordReader::new(alloc, form) {
        Err(_) => Err(ImageFault::OutOfMemory),
        Ok(reader) => of_text(fed_overlaps(reader, text)),
    }
}

/// Puts bytes into an image from an address on.
#[tactic(auto, unfolding(crate::specs::Images::raw_image))]
fn raw_image(alloc: Global, address: u16, bytes: &[u8]) -> Result<Image, ImageFault>
    ensures { AnswersRaw (raw_image address bytes.now) result }
{
    if bytes.len() > 65536 - address as usize {
        return Err(ImageFault::PastEnd);
    }
    match Image::new(alloc) {
        Err(_) => Err(ImageFault::OutOfMemory),
        Ok(mut image) => {
            image.store(address, bytes);
            Ok(image)
        }
    }
}

/// Puts bytes into an image from the address on that stands before them.
fn prg_image(alloc: Global, bytes: &[u8]) -> Result<Image, ImageFault>
    ensures { AnswersRaw (prg_image bytes.now) result }
{
    match bytes {
        [low, high, bytes @ ..] => { raw_image(alloc, *high as u16 * 256 + *low as u16, bytes) }
        _ => Err(ImageFault::NoAddress),
    }
}

/// Reads an image: returns that which some bytes denote in a form.
///
/// If two records have a byte for the same address, the later one counts. What follows an end
/// record of Intel HEX or of S-records is not looked at. The end record of a tape may have the
/// number of records again in place of its sum.
///
/// Errors:
///
/// - `Record`: the first fault of a text of Intel HEX or of S-records, with its line and column.
/// - `Tape`: the first fault of a tape.
/// - `PastEnd`: raw bytes, or those of a PRG file, go on past address 65535.
/// - `NoAddress`: a PRG file has fewer than two bytes.
/// - `OutOfMemory` if an allocation fails.
pub fn read_image(alloc: Global, form: Form, bytes: &[u8]) -> Result<Image, ImageFault>
    // What is read is what the bytes denote.
    ensures found { IfOk result (Denotes form bytes.now) }
    // What denotes an image is read, unless memory runs out.
    ensures only { (cells : List (Option ℕ)) → Denotes form bytes.now cells
        → (result ≡ Ok cells) ⊎ (result ≡ Err OutOfMemory) }
    // Each error is the first fault of the bytes, or `OutOfMemory`.
    ensures fault { IfErr result (λ f. (f ≡ OutOfMemory) ⊎ HasFault form bytes.now f) }
    // Bytes with a fault are refused with it, unless memory runs out.
    ensures refused { (fault : ImageFault) → HasFault form bytes.now fault
        → (result ≡ Err fault) ⊎ (result ≡ Err OutOfMemory) }
{
    match form {
        Form::Tape => tape_image(alloc, bytes),
        Form::Text(form) => record_image(alloc, form, bytes),
        Form::Raw(address) => raw_image(alloc, address, bytes),
        Form::Prg => prg_image(alloc, bytes),
    }
}
