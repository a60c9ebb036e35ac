//! Reading a tape from a reader, a piece at a time.

ghost use Rattle.std.specs.Prelude.{◌≡◌, ◌⊎◌, ℕ, List, Option, Ok, Err, IfErr, IfOk, IfSome};
ghost use Rattle.model.specs.TapeFault.{out_of_memory};
ghost use Rattle.model.specs.TapePieces.{IsReadInPieces, IsRefusedInPieces};
ghost use Rattle.model.specs.declared.tape.TapeFault.{TapeFault};
ghost use Rattle.papertape.specs.Streaming.{EndsReading, IsImageOf, Reads};
ghost use Rattle.papertape.specs.declared.stream.TapeReadFault.TheVariants.{Read as ReadFailed};
ghost use Rattle.papertape.specs.declared.stream.TapeReadFault.TheVariants.{Tape};

use crate::reader::TapeReader;
use memory_map::Image;
use model::TapeFault;
use std::alloc::Global;
use std::io::Read;
use thiserror::Error;

/// Why no image was read from a reader.
#[derive(Clone, Copy, Debug, PartialEq, Eq, Error)]
pub enum TapeReadFault {
    /// The tape is rejected with this fault, or memory ran out (`OutOfMemory` at 0).
    #[error("{0}")]
    Tape(TapeFault),
    /// A read failed.
    #[error("Read")]
    Read,
}

impl From<TapeFault> for TapeReadFault {
    ghost from_gives = { λ fault f. f ≡ Tape fault };

    fn from(fault: TapeFault) -> TapeReadFault {
        TapeReadFault::Tape(fault)
    }
}

/// Reads a tape from a reader, in pieces of at most 4,096 bytes.
///
/// The memory that it takes does not depend on the tape's length.
///
/// # Errors
///
/// - `Tape`: the tape is rejected with the fault that `TapeReader` returns for it (`TooLong` at
///   offset 4,294,967,295 if it goes on after that many bytes without a fault). Nothing is read
///   after the piece that shows the fault. `OutOfMemory` at offset 0 if an allocation fails:
///   nothing was read.
/// - `Read`: a read failed, and the bytes read before it show no fault.
pub fn read_tape_from<T: Read>(alloc: Global, tape: &mut T) -> Result<Image, TapeReadFault>
    // What was consumed: all for an image, otherwise as much as shows the fault.
    ensures reads { Reads (T.remaining tape.old) (T.remaining tape.new) result }
    // What is read is what the reader's bytes denote.
    ensures found { IfOk result (IsImageOf (T.remaining tape.old)) }
    // What denotes an image is read, unless a read fails or memory runs out.
    ensures only { IfSome (T.remaining tape.old)
        (λ text. (cells : List (Option ℕ)) → IsReadInPieces text cells
        → (result ≡ Ok cells) ⊎ ((result ≡ Err ReadFailed) ⊎ (result ≡ Err (Tape out_of_memory)))) }
    // Each error is the tape's fault, or `OutOfMemory`.
    ensures fault { IfErr result (EndsReading (T.remaining tape.old)) }
    // A tape with a fault is rejected with it, unless a read fails or memory runs out.
    ensures refused { IfSome (T.remaining tape.old)
        (λ text. (fault : TapeFault) → IsRefusedInPieces text fault → (result ≡ Err (Tape fault))
        ⊎ ((result ≡ Err ReadFailed) ⊎ (result ≡ Err (Tape out_of_memory)))) }
{
    read_each_piece(alloc, tape)
}

fn read_each_piece<T: Read>(alloc: Global, tape: &mut T) -> Result<Image, TapeReadFault>
    ensures { Reads (T.remaining tape.old) (T.remaining tape.new) result }
{
    let mut reader = TapeReader::new(alloc)?;
    let mut piece = [0u8; 4096];
    for _ in 0..u64::MAX {
        match tape.read(&mut piece) {
            Ok(0) => return Ok(reader.finish()?),
            Ok(n) => reader.feed(&piece[..n])?,
            Err(_) => return Err(TapeReadFault::Read),
        }
    }
    Err(TapeReadFault::Read)
}
