//! A tape whose data records are right, with a right end record.

ghost use Rattle.std.specs.Prelude.{◌≡◌, ◌⊎◌, ℕ, List, Option, IfErr, IfOk, MatchResult, None};
ghost use Rattle.model.specs.Tape.{FirstFault, TapeDenotes};
ghost use Rattle.model.specs.TapeFault.{out_of_memory};
ghost use Rattle.model.specs.declared.tape.TapeFaultKind.{TapeFaultKind};
ghost use Rattle.word_mend.specs.Mending.{HasRecords, IsMendedText, mended_of, mended_text};

use crate::parts::{before_end, kept_of, push_end_line, push_records, records_in};
use memory_map::Image;
use model::{TAPE_OUT_OF_MEMORY, TapeFault, TapeFaultKind};
use papertape::{each_text_has_one_reading, read_tape};
use std::alloc::{AllocError, Global};

/// A right tape, and what was wrong with the text that it was made of.
#[derive(Drop)]
pub struct Mended {
    /// The text of the tape.
    pub text: Vec<u8>,
    /// The image that it denotes.
    pub image: Image,
    /// The first fault that was mended, or `None` if nothing was wrong.
    pub fault: Option<TapeFault>,
}

/// Returns the records of some kept bytes, each in a line of its own, and their end record.
#[tactic(auto, unfolding(crate::specs::Mending::mended_of))]
fn mended_of(alloc: Global, kept: &[u8]) -> Result<Vec<u8>, AllocError>
    ensures { IfOk result (λ text. text.items ≡ mended_of kept.now) }
{
    let mut text = Vec::new(alloc);
    if kept.is_empty() {
        return Ok(text);
    }
    let records = before_end(kept);
    push_records(&mut text, records)?;
    push_end_line(&mut text, (records_in(records) % 65536) as u16)?;
    Ok(text)
}

/// Returns the mended text of a tape.
#[tactic(auto, unfolding(crate::specs::Mending::mended_text))]
fn mended_text(alloc: Global, text: &[u8]) -> Result<Vec<u8>, AllocError>
    ensures { IfOk result (λ out. out.items ≡ mended_text text.now) }
{
    let kept = kept_of(alloc, text)?;
    mended_of(alloc, &kept)
}

/// Returns the mended text of a tape that has a fault, with its image.
fn with_end(alloc: Global, text: &[u8], fault: TapeFault) -> Result<Mended, TapeFault>
    ensures text { IfOk result (λ m. m.text.items ≡ mended_text text.now) }
    ensures fault { IfOk result (λ m. m.fault ≡ Some fault) }
    ensures denotes { IfOk result (λ m. TapeDenotes m.text.items m.image) }
    ensures only { (cells : List (Option ℕ)) → TapeDenotes (mended_text text.now) cells
        → MatchResult result (λ m. m.image ≡ cells) (λ f. f ≡ out_of_memory) }
    ensures refused { IfErr result (λ f. (f ≡ out_of_memory)
        ⊎ FirstFault (mended_text text.now) f.kind f.offset) }
{
    // For the proof: a text that denotes an image has no fault, nor another image.
    each_text_has_one_reading();
    let Ok(out) = mended_text(alloc, text) else {
        return Err(TAPE_OUT_OF_MEMORY);
    };
    match read_tape(alloc, &out) {
        Ok(image) => Ok(Mended {
            text: out,
            image,
            fault: Some(fault),
        }),
        Err(fault) => Err(fault),
    }
}

/// Returns a tape as it is, with its image.
fn as_it_is(alloc: Global, text: &[u8], image: Image) -> Result<Mended, TapeFault>
    ensures text { IfOk result (λ m. m.text.items ≡ text.now) }
    ensures fault { IfOk result (λ m. m.fault ≡ None) }
    ensures image { IfOk result (λ m. m.image ≡ image) }
    ensures only { IfErr result (λ f. f ≡ out_of_memory) }
{
    let out = Vec::from_slice(alloc, text)?;
    Ok(Mended {
        text: out,
        image,
        fault: None,
    })
}

/// Returns a right tape made of a text whose data records are right: the text itself if it is one;
/// otherwise its data records as they stand, each in a line of its own, and a right end record.
///
/// Errors: the first fault of the mended text, with its offset there, if more is wrong than line
/// ends, $00 and $13 within records and the end record; `OutOfMemory` at offset 0 if an allocation
/// fails. Source: mos65.
pub fn mend_text(alloc: Global, text: &[u8]) -> Result<Mended, TapeFault>
    // What is returned: the text itself, or its mended text with what was wrong.
    ensures text { IfOk result (λ m. IsMendedText text.now m.text.items m.fault) }
    // It denotes the image that is returned with it.
    ensures denotes { IfOk result (λ m. TapeDenotes m.text.items m.image) }
    // That is the image of the data records as they stand.
    ensures records { IfOk result (λ m. HasRecords text.now m.image) }
    // A right tape keeps its image.
    ensures right { (cells : List (Option ℕ)) → TapeDenotes text.now cells
        → MatchResult result (λ m. m.image ≡ cells) (λ f. f ≡ out_of_memory) }
    // A text with a fault whose mended text is a tape is mended, unless memory runs out.
    ensures only { (kind : TapeFaultKind) (offset : ℕ) (cells : List (Option ℕ))
        → FirstFault text.now kind offset → TapeDenotes (mended_text text.now) cells
        → MatchResult result (λ m. m.image ≡ cells) (λ f. f ≡ out_of_memory) }
    // Each error is the first fault of the mended text, or `OutOfMemory`.
    ensures refused { IfErr result (λ f. (f ≡ out_of_memory)
        ⊎ FirstFault (mended_text text.now) f.kind f.offset) }
{
    // For the proof: a text that denotes an image has no fault, nor another image.
    each_text_has_one_reading();
    match read_tape(alloc, text) {
        Ok(image) => as_it_is(alloc, text, image),
        Err(fault) => match fault.kind {
            TapeFaultKind::OutOfMemory => Err(TAPE_OUT_OF_MEMORY),
            _ => with_end(alloc, text, fault),
        },
    }
}
