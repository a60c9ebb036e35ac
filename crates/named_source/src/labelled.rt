//! The source of an image with labels, and what it assembles to.

ghost use Rattle.std.specs.Prelude.{◌≡◌, IfErr, IfOk, false};
ghost use Rattle.assembler.specs.Assembly.{out_of_memory};
ghost use Rattle.model.specs.Source.{Denotes};
ghost use Rattle.model.specs.State.{Map, has_port_byte};
ghost use Rattle.source_forms.specs.Labels.{flagged_source, labelled_source};

use assembler::{AsmFault, AsmFaultKind, Assembly, assemble};
use bus::{Image, MapSpec};
use law_source_forms::{flagged_source_denotes, labelled_source_denotes};
use model::Profile;
use source_writer::{Mark, write_flagged_source, write_labelled_source};
use std::alloc::{AllocError, Global};

/// Writes the source of an image in a profile: `*=` before each range, then a line for each
/// instruction whose bytes are all marked as code, and `.BYTE` for what is none and for what is
/// marked as data or as text. An address, or the address before one to which RTS goes, is `.WORD`,
/// and so is a vector that is marked as data. An address without a mark is code.
///
/// A line that an operand of two bytes, a branch or a word refers to gets a label, `L_` and its
/// address, and these are written by label. A line of data ends before a label and before a vector.
///
/// The text is a source, and under each map of the profile at whose port the image has no byte it
/// denotes exactly the image. The only error is that a request for memory was refused. Source:
/// mos65.
pub fn labelled_text(
    alloc: Global,
    profile: Profile,
    image: &Image,
    marks: &[Mark],
) -> Result<Vec<u8>, AllocError>
    ensures text { IfOk result (λ text. text.items ≡ labelled_source profile image.now marks.now) }
    ensures denotes { IfOk result (λ text. (bus_map : Map) → bus_map.profile ≡ profile
        → has_port_byte bus_map image.now ≡ false → Denotes bus_map text.items image.now) }
{
    // For the proof: the law, and what `cells` says of each image.
    labelled_source_denotes();
    let _ = image.cells();
    write_labelled_source(alloc, profile, image, marks)
}

/// Writes the source of an image in a profile as `labelled_text` does, with labels at the lines of
/// the flagged addresses and at no other.
///
/// The text is a source, and under each map of the profile at whose port the image has no byte it
/// denotes exactly the image, whatever is flagged. The only error is that a request for memory was
/// refused. Source: mos65.
pub fn flagged_text(
    alloc: Global,
    profile: Profile,
    image: &Image,
    marks: &[Mark],
    flags: &[bool],
) -> Result<Vec<u8>, AllocError>
    ensures text { IfOk result
        (λ text. text.items ≡ flagged_source profile image.now marks.now flags.now) }
    ensures denotes { IfOk result (λ text. (bus_map : Map) → bus_map.profile ≡ profile
        → has_port_byte bus_map image.now ≡ false → Denotes bus_map text.items image.now) }
{
    // For the proof: the law, and what `cells` says of each image.
    flagged_source_denotes();
    let _ = image.cells();
    write_flagged_source(alloc, profile, image, marks, flags)
}

/// Writes the source of an image with labels in a map's profile, and assembles it: the answer's
/// image is the image itself, whatever is marked. The image has no byte at the map's port. The only
/// fault is `OutOfMemory`, where a request for memory was refused.
pub fn labelled_again(
    alloc: Global,
    map: &MapSpec,
    image: &Image,
    marks: &[Mark],
) -> Result<Assembly, AsmFault>
    requires { has_port_byte map.now image.now ≡ false }
    ensures same { IfOk result (λ a. a.image ≡ image.now) }
    ensures source { IfOk result
        (λ a. a.source ≡ labelled_source map.now.profile image.now marks.now) }
    ensures only { IfErr result (λ f. f ≡ out_of_memory) }
{
    match labelled_text(alloc, map.profile(), image, marks) {
        Ok(text) => assemble(alloc, text.as_slice(), map),
        Err(_) => Err(AsmFault {
            line: 0,
            kind: AsmFaultKind::OutOfMemory,
        }),
    }
}
