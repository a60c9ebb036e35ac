//! The engine's call on a tape.

ghost use Rattle.std.specs.Prelude.{◌≡◌, ◌≤◌, ◌⊎◌, true, false, ℕ, List, Option, Err};
ghost use Rattle.model.specs.Event.{start};
ghost use Rattle.model.specs.Session.{new_session};
ghost use Rattle.model.specs.State.{has_port_byte};
ghost use Rattle.model.specs.Tape.{TapeDenotes, FirstFault};
ghost use Rattle.model.specs.declared.session_fault.SessionFault.TheVariants.{PortAddress};
ghost use Rattle.model.specs.declared.tape.TapeFaultKind.{TapeFaultKind};
ghost use Rattle.engine.specs.Outcome.{Reaches, Serves};
ghost use Rattle.engine.specs.Refusals.{IfSession, IfSource, IfTape};

use crate::fault::EngineFault;
use crate::image::debug_image;
use bus::MapSpec;
use papertape::read_tape;
use std::alloc::Global;
use std::io::{Read, Write};

/// Reads a tape, and debugs its image.
///
/// Command lines come from the reader, up to `quit` or its end. Replies go to the writer; each is
/// written and flushed before the reader is asked again. The machine starts with the tape's image
/// under this map. The session holds up to `history` earlier states, at most 65,536.
///
/// # Errors
///
/// - `Tape`: the text is not a tape; this is its first fault. Nothing was read or written.
/// - `Session`: the tape has a byte at a port address (`PortAddress`). Nothing was read or written.
/// - `Read`: a read failed. The complete lines read so far have been answered.
/// - `Write`: a write or a flush failed, or a write took no byte. A beginning of the replies was
///   written.
/// - `OutOfMemory`: an allocation failed. Before the session began, nothing was read or written;
///   after that, a beginning of the replies was written.
///
/// Source: mos65.
pub fn debug_tape<R: Read, W: Write>(
    alloc: Global,
    map: MapSpec,
    history: u32,
    tape: &[u8],
    reader: &mut R,
    writer: &mut W,
) -> Result<(), EngineFault>
    requires { history ≤ 65536 }

    // The session that starts with the image that the tape denotes is served.
    ensures serves { (image : List (Option ℕ)) → TapeDenotes tape.now image
        → Serves (new_session history (start map image)) (R.remaining reader.old)
        (R.remaining reader.new)
        (W.contents writer.old) (W.contents writer.new) result }

    // If a session began, the tape denotes an image; otherwise neither reader nor writer was used.
    ensures reaches { Reaches result ((image : List (Option ℕ)) × TapeDenotes tape.now image)
        ((reader.new ≡ reader.old) × (writer.new ≡ writer.old)) }

    // A tape with a fault is rejected with it, and one with an image is not, unless memory runs
    // out.
    ensures faulty { (kind : TapeFaultKind) (offset : ℕ) → FirstFault tape.now kind offset
        → (result ≡ Err (EngineFault.Tape (record { offset = offset; kind = kind })))
        ⊎ (result ≡ Err EngineFault.OutOfMemory) }
    ensures right { (image : List (Option ℕ)) → TapeDenotes tape.now image
        → IfTape result (λ _. ⊥) }

    // A rejected tape is answered with its first fault.
    ensures refused { IfTape result (λ fault. FirstFault tape.now fault.kind fault.offset) }

    // A tape with a byte at a port address is rejected, and one without is not, unless memory runs
    // out.
    ensures port { (image : List (Option ℕ)) → TapeDenotes tape.now image
        → has_port_byte map image ≡ true → (result ≡ Err (EngineFault.Session PortAddress))
        ⊎ (result ≡ Err EngineFault.OutOfMemory) }
    ensures spared { (image : List (Option ℕ)) → TapeDenotes tape.now image
        → has_port_byte map image ≡ false → IfSession result (λ _. ⊥) }
    ensures session { IfSession result (λ fault. (fault ≡ PortAddress) × ((image : List (Option ℕ))
        × TapeDenotes tape.now image × (has_port_byte map image ≡ true))) }

    ensures source { IfSource result (λ _. ⊥) }
{
    let image = read_tape(alloc, tape)?;
    debug_image(alloc, map, history, image, reader, writer)
}
