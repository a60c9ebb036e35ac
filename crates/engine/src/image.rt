//! The session on an image.

ghost use Rattle.std.specs.Prelude.{◌≡◌, ◌≤◌, ◌⊎◌, ⊤, true, Err};
ghost use Rattle.model.specs.Event.{start};
ghost use Rattle.model.specs.Session.{new_session};
ghost use Rattle.model.specs.State.{has_port_byte};
ghost use Rattle.model.specs.declared.session_fault.SessionFault.TheVariants.{PortAddress};
ghost use Rattle.engine.specs.Outcome.{Reaches, Serves};
ghost use Rattle.engine.specs.Refusals.{IfSession, IfSource, IfTape};

use crate::fault::EngineFault;
use crate::lines::serve;
use bus::{Image, MapSpec};
use debugger::Session;
use std::alloc::Global;
use std::io::{Read, Write};

/// Debugs an image: serves command lines on a session that starts with it. The image is dropped
/// before a line is read.
///
/// # Errors
///
/// - `Session`: the image has a byte at a port address. Nothing was read or written.
/// - `Read` and `Write` as `serve` says.
/// - `OutOfMemory`: an allocation failed. Before the session began, nothing was read or written;
///   after that, a beginning of the replies was written.
pub fn debug_image<R: Read, W: Write>(
    alloc: Global,
    map: MapSpec,
    history: u32,
    image: Image,
    reader: &mut R,
    writer: &mut W,
) -> Result<(), EngineFault>
    requires { history ≤ 65536 }

    // The session that starts with the image is served.
    ensures serves { Serves (new_session history (start map image)) (R.remaining reader.old)
        (R.remaining reader.new) (W.contents writer.old) (W.contents writer.new) result }

    // If no session began, neither reader nor writer was used.
    ensures reaches { Reaches result ⊤ ((reader.new ≡ reader.old) × (writer.new ≡ writer.old)) }

    // An image with a byte at a port address is rejected, and no other is, unless memory runs out.
    ensures port { has_port_byte map image ≡ true
        → (result ≡ Err (EngineFault.Session PortAddress))
        ⊎ (result ≡ Err EngineFault.OutOfMemory) }
    ensures session { IfSession result
        (λ fault. (fault ≡ PortAddress) × (has_port_byte map image ≡ true)) }

    ensures source { IfSource result (λ _. ⊥) }
    ensures tape { IfTape result (λ _. ⊥) }
{
    let mut session = Session::new(alloc, map, &image, history)?;
    drop(image);
    serve(alloc, &mut session, reader, writer)
}
