//! The engine's call on a tape that it reads itself.

ghost use Rattle.std.specs.Prelude.{◌≡◌, ◌≤◌, ◌⊎◌, true, false, ℕ, List, Option, Err, IfSome};
ghost use Rattle.model.specs.Event.{start};
ghost use Rattle.model.specs.Session.{new_session};
ghost use Rattle.model.specs.State.{has_port_byte};
ghost use Rattle.model.specs.TapePieces.{IsReadInPieces, IsRefusedInPieces};
ghost use Rattle.model.specs.declared.session_fault.SessionFault.TheVariants.{PortAddress};
ghost use Rattle.model.specs.declared.tape.TapeFault.{TapeFault};
ghost use Rattle.engine.specs.Outcome.{Serves};
ghost use Rattle.engine.specs.Refusals.{IfSession, IfSource, IfTape};
ghost use Rattle.engine.specs.TapeReads.{ReachesFrom, ReadsTape};
ghost use Rattle.papertape.specs.Streaming.{IsImageOf, IsRefusalOf};

use crate::fault::EngineFault;
use crate::image::debug_image;
use bus::MapSpec;
use papertape::read_tape_from;
use std::alloc::Global;
use std::io::{Read, Write};

/// Reads a tape from a reader, until its end or its first fault, and debugs it as `debug_tape`
/// does.
///
/// The tape is read in pieces of at most 4,096 bytes. The memory that this takes does not depend on
/// the tape's length.
///
/// # Errors
///
/// - `Tape`: the tape has a fault, or goes on after 4,294,967,295 bytes that have none (`TooLong`).
///   No command line was read, and nothing was written.
/// - `Session`: the tape has a byte at a port address (`PortAddress`). No command line was read,
///   and nothing was written.
/// - `Read`: a read failed. If it was one of the tape, no command line was read and nothing was
///   written; if it was one of command lines, the complete lines read so far have been answered.
/// - `Write`: a write or a flush failed, or a write took no byte. A beginning of the replies was
///   written.
/// - `OutOfMemory`: an allocation failed. Before the session began, no command line was read and
///   nothing was written; after that, a beginning of the replies was written.
pub fn debug_tape_from<T: Read, R: Read, W: Write>(
    alloc: Global,
    map: MapSpec,
    history: u32,
    tape: &mut T,
    reader: &mut R,
    writer: &mut W,
) -> Result<(), EngineFault>
    requires { history ≤ 65536 }

    // If a session began, it started with the image of the tape, and is served. Otherwise neither
    // reader nor writer was used.
    ensures serves { ReachesFrom result
        ((image : List (Option ℕ)) × IsImageOf (T.remaining tape.old) image
        × Serves (new_session history (start map image)) (R.remaining reader.old)
        (R.remaining reader.new)
        (W.contents writer.old) (W.contents writer.new) result)
        ((reader.new ≡ reader.old) × (writer.new ≡ writer.old)) }

    // What was consumed of the tape: all if a session began; otherwise no more than the piece that
    // shows its fault, if it is rejected.
    ensures reads { ReadsTape (T.remaining tape.old) (T.remaining tape.new) result }

    // A tape with a fault is rejected with it, and one with an image is not, unless a read of it
    // fails or memory runs out.
    ensures faulty { IfSome (T.remaining tape.old) (λ text. (fault : TapeFault)
        → IsRefusedInPieces text fault → (result ≡ Err (EngineFault.Tape fault))
        ⊎ ((result ≡ Err EngineFault.Read) ⊎ (result ≡ Err EngineFault.OutOfMemory))) }
    ensures right { IfSome (T.remaining tape.old)
        (λ text. (image : List (Option ℕ)) → IsReadInPieces text image → IfTape result (λ _. ⊥)) }

    // A rejected tape is answered with its fault.
    ensures refused { IfTape result (IsRefusalOf (T.remaining tape.old)) }

    // A tape with a byte at a port address is rejected, and one without is not, unless a read of it
    // fails or memory runs out.
    ensures port { IfSome (T.remaining tape.old)
        (λ text. (image : List (Option ℕ)) → IsReadInPieces text image
        → has_port_byte map image ≡ true → (result ≡ Err (EngineFault.Session PortAddress))
        ⊎ ((result ≡ Err EngineFault.Read) ⊎ (result ≡ Err EngineFault.OutOfMemory))) }
    ensures spared { IfSome (T.remaining tape.old) (λ text. (image : List (Option ℕ))
        → IsReadInPieces text image → has_port_byte map image ≡ false → IfSession result (λ _. ⊥)) }
    ensures session { IfSession result (λ fault. (fault ≡ PortAddress) × ((image : List (Option ℕ))
        × IsImageOf (T.remaining tape.old) image × (has_port_byte map image ≡ true))) }

    ensures source { IfSource result (λ _. ⊥) }
{
    let image = read_tape_from(alloc, tape)?;
    debug_image(alloc, map, history, image, reader, writer)
}
