//! The second pass: the bytes of all lines.

ghost use Rattle.std.specs.Prelude.{◌≡◌, IfErr, IfOk, false};
ghost use Rattle.emission.specs.Made.{image_of_lines};
ghost use Rattle.line_parts.specs.KeptLines.{numbered_lines};
ghost use Rattle.line_parts.specs.LineFaults.{AnswersSource, out_of_memory};
ghost use Rattle.model.specs.Names.{number_in};
ghost use Rattle.model.specs.Image.{empty_image};
ghost use Rattle.model.specs.State.{has_port_byte};

use crate::emit::{LineBytes, put_line};
use line_parts::{KeptLine, OUT_OF_MEMORY, fault_on_line};
use memory_map::{Image, MapSpec};
use model::AsmFault;
use std::alloc::Global;
use symbols::Symbols;

/// Returns the image that has no byte yet.
fn no_bytes(alloc: Global) -> Result<Image, AsmFault>
    ensures empty { IfOk result (λ image. image ≡ empty_image) }
    ensures memory { IfErr result (λ fault. fault ≡ out_of_memory) }
{
    Image::new(alloc).map_err(|_| OUT_OF_MEMORY)
}

/// Returns the image of the lines that are kept, under the numbers of all names.
///
/// Errors: the first value fault with its line; `OutOfMemory` with line 0 if an allocation fails.
pub fn make_image(
    alloc: Global,
    map: &MapSpec,
    names: &Symbols,
    kept: &[KeptLine<'_>],
) -> Result<Image, AsmFault>
    ensures exact { AnswersSource (λ image. image) result
        (image_of_lines map.now (number_in names.now) empty_image (numbered_lines kept.now)) }
    // No line without a fault puts a byte at a port address.
    ensures spared { IfOk result (λ image. has_port_byte map.now image ≡ false) }
{
    let mut image = no_bytes(alloc)?;
    let mut gathered = LineBytes::new(alloc);
    for line in kept {
        match put_line(&mut gathered, map, &mut image, names, line) {
            Ok(()) => {}
            Err(error) => return Err(fault_on_line(line.number, error)),
        }
    }
    Ok(image)
}
