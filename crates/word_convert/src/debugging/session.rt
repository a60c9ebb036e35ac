//! A session on an image.

ghost use Rattle.std.specs.Prelude.{◌≡◌, ◌≤◌, IfErr, false};
ghost use Rattle.model.specs.Event.{start};
ghost use Rattle.model.specs.Session.{new_session};
ghost use Rattle.model.specs.State.{has_port_byte};
ghost use Rattle.engine.specs.Outcome.{EndsServing, Reaches, Serves};
ghost use Rattle.word_convert.specs.Serving.{of_serving};

use arguments::{ReadFault, Refusal};
use engine::{EngineFault, debug_tape};
use memory_map::{Image, MapSpec};
use papertape::write_tape;
use std::alloc::Global;
use std::io::{Read, Write};

/// Serves command lines on a session that starts with an image, which has no byte at the port.
///
/// Errors: `Read` if a read failed; `Write` if a write or a flush failed; `OutOfMemory` if an
/// allocation failed.
#[tactic(auto, using(crate::proofs::Served::on_tape))]
pub fn serve<R: Read, O: Write>(
    alloc: Global,
    map: MapSpec,
    history: u32,
    image: Image,
    input: &mut R,
    output: &mut O,
) -> Result<(), EngineFault>
    requires history { history ≤ 65536 }
    requires spared { has_port_byte map image ≡ false }
    // The session that starts with the image is served. Where none began neither stream was used.
    ensures serves { Reaches result (Serves (new_session history (start map image))
        (R.remaining input.old) (R.remaining input.new)
        (O.contents output.old) (O.contents output.new) result)
        ((input.new ≡ input.old) × (output.new ≡ output.old)) }
    ensures ends { IfErr result EndsServing }
{
    match write_tape(alloc, &image) {
        Ok(tape) => debug_tape(alloc, map, history, &tape, input, output),
        Err(_) => Err(EngineFault::OutOfMemory),
    }
}

/// Returns the refusal of a fault that ends serving.
pub fn of_serving(fault: EngineFault) -> Refusal
    requires { EndsServing fault }
    ensures { result ≡ of_serving fault }
{
    match fault {
        EngineFault::Read => Refusal::Read(ReadFault::Other),
        EngineFault::Write => Refusal::Write,
        _ => Refusal::OutOfMemory,
    }
}
