//! `dis`: a tape's bytes as text.
ghost use Rattle.std.specs.Prelude.{◌≡◌, ◌⊎◌, ℕ, List, Option, Err, IfErr, IfOk, IfSome};
ghost use Rattle.std.specs.Prelude.{MatchResult, OnErr};
ghost use Rattle.model.specs.Disassembly.{rows_in};
ghost use Rattle.model.specs.State.{memory_of};
ghost use Rattle.model.specs.TapeFault.{out_of_memory};
ghost use Rattle.model.specs.TapePieces.{IsReadInPieces, IsRefusedInPieces};
ghost use Rattle.model.specs.Writers.{Writes};
ghost use Rattle.model.specs.declared.tape.TapeFault.{TapeFault};
ghost use Rattle.papertape.specs.Streaming.{EndsReading, IsImageOf};
ghost use Rattle.papertape.specs.declared.stream.TapeReadFault.TheVariants.{Read as ReadFailed};
ghost use Rattle.papertape.specs.declared.stream.TapeReadFault.TheVariants.{Tape};
ghost use Rattle.program.specs.Refusals.{EndsDis};
ghost use Rattle.program.specs.Streams.{IsListed};
ghost use Rattle.program.specs.Texts.{ReadsText};

use crate::asked::DisWords;
use arguments::Refusal;
use disasm::disassembly;
use model::{Profile, TAPE_OUT_OF_MEMORY};
use papertape::{TapeReadFault, read_tape_from};
use standard_streams::Retrying;
use std::alloc::Global;
use std::fs::File;
use std::io::{Read, Write};
use std::rt::Files;

/// Reads a tape from a reader, and returns the text that `mos65 dis` writes.
///
/// It has the rows of the tape's image in a profile that begin between two addresses, both
/// included. Bytes that are not on the tape are 0. The tape is read in pieces, so that a long one
/// takes no more memory than a short one.
///
/// # Errors
///
/// Those of `read_tape_from`: `Tape` with the tape's own fault, or with `OutOfMemory` at offset 0;
/// `Read` if a read failed.
pub fn dis_text<T: Read>(
    alloc: Global,
    profile: Profile,
    tape: &mut T,
    first: u16,
    last: u16,
) -> Result<Vec<u8>, TapeReadFault>
    // The text is that of an image that the tape denotes.
    ensures denoted { IfOk result
        (λ text. (image : List (Option ℕ)) × IsImageOf (T.remaining tape.old) image
        × (text.items ≡ rows_in profile (memory_of image) last first 65536)) }
    // A tape that denotes an image has its text, unless a read of it fails or memory runs out.
    ensures only { IfSome (T.remaining tape.old)
        (λ told. (image : List (Option ℕ)) → IsReadInPieces told image → MatchResult result
        (λ text. text.items ≡ rows_in profile (memory_of image) last first 65536)
        (λ f. (f ≡ ReadFailed) ⊎ (f ≡ Tape out_of_memory))) }
    // A tape with a fault is rejected with it, unless a read of it fails or memory runs out; no
    // other is.
    ensures faulty { IfSome (T.remaining tape.old)
        (λ told. (fault : TapeFault) → IsRefusedInPieces told fault → (result ≡ Err (Tape fault))
        ⊎ ((result ≡ Err ReadFailed) ⊎ (result ≡ Err (Tape out_of_memory)))) }
    ensures refused { IfErr result (EndsReading (T.remaining tape.old)) }
    // What was consumed of the tape: all for a text, otherwise no more than the piece that shows
    // its fault.
    ensures reads { ReadsText (T.remaining tape.old) (T.remaining tape.new) result }
{
    let image = read_tape_from(alloc, tape)?;
    match disassembly(alloc, profile, &image, first, last) {
        Ok(text) => Ok(text),
        Err(_) => Err(TapeReadFault::Tape(TAPE_OUT_OF_MEMORY)),
    }
}

/// Writes a text and flushes it.
fn write_text<O: Write>(output: &mut O, text: &[u8]) -> Result<(), Refusal>
    ensures writes { Writes (O.contents output.old) (O.contents output.new) text.now result }
    ensures only { OnErr result (result ≡ Err Refusal.Write) }
{
    match arguments::write_text(output, text) {
        Ok(()) => Ok(()),
        Err(_) => Err(Refusal::Write),
    }
}

/// Lists what a tape has between two addresses.
///
/// The text is whole, and the tape's file closed, before any of it is written.
pub fn dis<H: Files + AllocGlobal, O: Write>(
    rt: &H,
    words: &DisWords<'_>,
    output: &mut O,
) -> Result<(), Refusal>
    ensures refused { IfErr result EndsDis }
    // The rows of some image were written, or none.
    ensures listed { IsListed words.now.profile words.now.first words.now.last
        (O.contents output.old) (O.contents output.new) result (output.new ≡ output.old) }
{
    let text = {
        let file = File::open(rt, words.tape).map_err(|error| Refusal::unreadable(&error))?;
        let mut tape = Retrying::new(file);
        dis_text(
            rt.alloc(),
            words.profile,
            &mut tape,
            words.first,
            words.last,
        )?
    };
    let rows = text.as_slice();
    write_text(output, rows)
}
