//! Laws of tapes.

ghost use Rattle.std.specs.Prelude.{◌≡◌, ◌≤◌, ◌++◌, ◌⊎◌, ◌↔◌, ℕ, List, Option, Ok, Err, IfOk};
ghost use Rattle.std.specs.Prelude.{IfErr, length, map};
ghost use Rattle.std.specs.List.{concat};
ghost use Rattle.model.specs.Image.{IsImage};
ghost use Rattle.model.specs.Tape.{TapeDenotes, EachTextIsRead, TapeImageOrFault};
ghost use Rattle.model.specs.Tape.{OneDigitIsRefused, OneTapeFault, OneTapeImage};
ghost use Rattle.model.specs.TapeFault.{out_of_memory};
ghost use Rattle.model.specs.TapePieces.{IsReadInPieces, IsRefusedInPieces, Tells, longest};
ghost use Rattle.model.specs.TapeText.{tape_text};
ghost use Rattle.model.specs.declared.tape.TapeFault.{TapeFault};
ghost use Rattle.papertape.specs.Feeding.{Fed, end_of_feeding, fed, nothing_fed};
ghost use Rattle.papertape.specs.Reading.{AnswersReading};

use crate::reader::{TapeReader, read_tape};
use crate::writer::write_tape;
use memory_map::Image;
use model::TapeFault;
use std::alloc::Global;

/// States that the written text of an image denotes that image.
///
/// A law for proofs: the call does nothing.
pub fn written_is_read()
    ensures { (cells : List (Option ℕ)) → IsImage cells → TapeDenotes (tape_text cells) cells }
{}

/// States that each text denotes exactly one image or has exactly one first fault.
///
/// A law for proofs: the call does nothing.
pub fn each_text_has_one_reading()
    ensures each { EachTextIsRead }
    ensures image { OneTapeImage }
    ensures fault { OneTapeFault }
    ensures either { TapeImageOrFault }
{}

/// States that a tape with one digit of an address, a byte or a checksum changed is rejected.
///
/// It is rejected at that record. A law for proofs: the call does nothing.
pub fn one_digit_is_refused()
    ensures { OneDigitIsRefused }
{}

/// States that a tape in pieces is read like the whole text, however it is cut.
///
/// A law for proofs: the call does nothing.
pub fn pieces_are_the_whole()
    // Only what was fed counts, and not where it was cut.
    ensures cut { (a b : List ℕ) (reader : Fed) → fed reader (a ++ b) ≡ fed (fed reader a) b }
    // A reader that has failed returns its fault for each text still to come.
    ensures failed { (fault : TapeFault) (piece : List ℕ)
        → (fed (Err fault) piece ≡ Err fault) × (end_of_feeding (Err fault) ≡ Err fault) }
    // A text that is not too long is rejected while it is fed exactly if what was fed shows its
    // fault.
    ensures told { (text : List ℕ) (fault : TapeFault) → length text ≤ longest
        → (fed nothing_fed text ≡ Err fault) ↔ Tells text fault }
    // At the end there is an image exactly if the text denotes it and is not too long.
    ensures image { (text : List ℕ) (cells : List (Option ℕ))
        → (end_of_feeding (fed nothing_fed text) ≡ Ok cells) ↔ IsReadInPieces text cells }
    // There is a fault exactly if it is the text's first one, or that of a text that is too long.
    ensures fault { (text : List ℕ) (fault : TapeFault)
        → (end_of_feeding (fed nothing_fed text) ≡ Err fault) ↔ IsRefusedInPieces text fault }
{}

/// States that no text in pieces has two images, or two faults, or an image and a fault.
///
/// A law for proofs: the call does nothing.
pub fn pieces_have_one_reading()
    ensures image { (text : List ℕ) (a b : List (Option ℕ)) → IsReadInPieces text a
        → IsReadInPieces text b → a ≡ b }
    ensures fault { (text : List ℕ) (f g : TapeFault) → IsRefusedInPieces text f
        → IsRefusedInPieces text g → f ≡ g }
    ensures either { (text : List ℕ) (cells : List (Option ℕ)) (fault : TapeFault)
        → IsReadInPieces text cells → IsRefusedInPieces text fault → ⊥ }
{}

/// Reads the tape that these pieces are, as `TapeReader` does.
///
/// Errors: those of `read_tape` for the pieces one after the other; `TooLong` at offset
/// 4,294,967,295 if they have more bytes than that and the bytes before show no fault.
pub fn read_pieces(alloc: Global, pieces: &[&[u8]]) -> Result<Image, TapeFault>
    // What is read is what the pieces denote together.
    ensures found { IfOk result
        (λ image. IsReadInPieces (concat (map (λ piece. piece.now) pieces.entry.now)) image) }
    // What denotes an image is read, unless memory runs out.
    ensures only { (cells : List (Option ℕ))
        → IsReadInPieces (concat (map (λ piece. piece.now) pieces.entry.now)) cells
        → (result ≡ Ok cells) ⊎ (result ≡ Err out_of_memory) }
    // Each error is the fault of the text, or `OutOfMemory`.
    ensures fault { IfErr result (λ f. (f ≡ out_of_memory)
        ⊎ IsRefusedInPieces (concat (map (λ piece. piece.now) pieces.entry.now)) f) }
    // A text with a fault is rejected with it, unless memory runs out.
    ensures refused { (fault : TapeFault)
        → IsRefusedInPieces (concat (map (λ piece. piece.now) pieces.entry.now)) fault
        → (result ≡ Err fault) ⊎ (result ≡ Err out_of_memory) }
{
    read_each(alloc, pieces)
}

fn read_each(alloc: Global, pieces: &[&[u8]]) -> Result<Image, TapeFault>
    ensures { AnswersReading result
        (end_of_feeding (fed nothing_fed (concat (map (λ piece. piece.now) pieces.entry.now)))) }
{
    let mut reader = TapeReader::new(alloc)?;
    for piece in pieces {
        reader.feed(piece)?;
    }
    reader.finish()
}

/// Writes the tape of an image and reads it back: returns the same image.
///
/// Errors: `OutOfMemory` at offset 0 if an allocation fails.
pub fn through_tape(alloc: Global, image: &Image) -> Result<Image, TapeFault>
    // The image comes back.
    ensures same { IfOk result (λ back. back ≡ image.now) }
    // There is no other error.
    ensures refused { IfErr result (λ f. f ≡ out_of_memory) }
{
    let text = write_tape(alloc, image)?;
    read_tape(alloc, &text)
}
