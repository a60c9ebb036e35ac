//! The files of tapes that are read whole.

ghost use Rattle.std.specs.Prelude.{◌≡◌, IfErr};
ghost use Rattle.tape_words.specs.Files.{EndsReadingText};

use arguments::{FileRefusal, Refusal, read_given};
use model::{TapeFault, TapeFaultKind};
use std::rt::Files;

/// The most bytes of a tape that is read whole. Source: mos65.
const LONGEST: u64 = 16_777_216;

/// Returns the bytes of a tape's file.
///
/// Errors: `Tape` with `TooLong` if it has more than 16,777,216 bytes; `Read` if the file cannot be
/// read; `OutOfMemory` if an allocation fails.
pub fn read_text<'a, H: Files + AllocGlobal>(
    rt: &H,
    path: &'a str,
) -> Result<Vec<u8>, FileRefusal<'a>>
    // No clause can say what a file has, or whether it can be read.
    ensures file { IfErr result (λ why. why.file.now ≡ path.entry.now) }
    ensures refused { IfErr result (λ why. EndsReadingText why.refusal) }
{
    match read_given(rt, path, LONGEST + 1) {
        Ok(text) if text.len() as u64 <= LONGEST => Ok(text),
        Ok(_) => Err(FileRefusal {
            file: path,
            refusal: Refusal::Tape(TapeFault {
                offset: LONGEST,
                kind: TapeFaultKind::TooLong,
            }),
        }),
        Err(refusal) => Err(FileRefusal {
            file: path,
            refusal,
        }),
    }
}
