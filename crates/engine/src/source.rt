//! The engine's call on a source.

ghost use Rattle.std.specs.Prelude.{◌≡◌, ◌≤◌, ◌⊎◌, ℕ, List, Option, Err};
ghost use Rattle.model.specs.Event.{start};
ghost use Rattle.model.specs.Session.{new_session};
ghost use Rattle.model.specs.Source.{Denotes, HasFault};
ghost use Rattle.model.specs.declared.source_fault.AsmFault.{AsmFault};
ghost use Rattle.engine.specs.Outcome.{Reaches, Serves};
ghost use Rattle.engine.specs.Refusals.{IfSession, IfSource, IfTape};

use crate::fault::EngineFault;
use crate::tape::debug_tape;
use assembler::assemble;
use bus::MapSpec;
use papertape::write_tape;
use std::alloc::Global;
use std::io::{Read, Write};

/// Assembles a source, writes its image on a tape, and debugs that tape.
///
/// Command lines come from the reader, up to `quit` or its end. Replies go to the writer; each is
/// written and flushed before the reader is asked again. The machine starts with the source's image
/// under this map. The session holds up to `history` earlier states, at most 65,536.
///
/// # Errors
///
/// - `Source`: the source is rejected with this fault. Nothing was read or written.
/// - `Read`: a read failed. The complete lines read so far have been answered.
/// - `Write`: a write or a flush failed, or a write took no byte. A beginning of the replies was
///   written.
/// - `OutOfMemory`: an allocation failed. Before the session began, nothing was read or written;
///   after that, a beginning of the replies was written.
///
/// `Tape` and `Session` are never returned: an image's tape is a tape, and a source's image has no
/// byte at a port address. Source: mos65.
pub fn debug_source<R: Read, W: Write>(
    alloc: Global,
    map: MapSpec,
    history: u32,
    source: &[u8],
    reader: &mut R,
    writer: &mut W,
) -> Result<(), EngineFault>
    requires { history ≤ 65536 }

    // The session that starts with the image that the source denotes is served.
    ensures serves { (image : List (Option ℕ)) → Denotes map source.now image
        → Serves (new_session history (start map image)) (R.remaining reader.old)
        (R.remaining reader.new)
        (W.contents writer.old) (W.contents writer.new) result }

    // If a session began, the source denotes an image; otherwise neither reader nor writer was
    // used.
    ensures reaches { Reaches result ((image : List (Option ℕ)) × Denotes map source.now image)
        ((reader.new ≡ reader.old) × (writer.new ≡ writer.old)) }

    // A source with a fault is rejected with it, and one with an image is not, unless memory runs
    // out.
    ensures faulty { (fault : AsmFault) → HasFault map source.now fault
        → (result ≡ Err (EngineFault.Source fault)) ⊎ (result ≡ Err EngineFault.OutOfMemory) }
    ensures right { (image : List (Option ℕ)) → Denotes map source.now image
        → IfSource result (λ _. ⊥) }

    // A rejected source is answered with its fault.
    ensures refused { IfSource result (HasFault map source.now) }

    // Each image's tape is read, and no source that is served has a byte at a port address.
    ensures tape { IfTape result (λ _. ⊥) }
    ensures session { IfSession result (λ _. ⊥) }
{
    let assembly = assemble(alloc, source, &map)?;
    let tape = write_tape(alloc, assembly.image())?;
    // A session takes its own memory: the assembly's is free before a line is read.
    drop(assembly);
    debug_tape(alloc, map, history, tape.as_slice(), reader, writer)
}
