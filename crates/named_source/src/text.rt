//! The source with names, or that without.

ghost use Rattle.std.specs.Prelude.{◌≡◌, IfOk, false};
ghost use Rattle.model.specs.Source.{Denotes};
ghost use Rattle.model.specs.State.{Map, has_port_byte};
ghost use Rattle.named_source.specs.NamedText.{IsNamedText};

use crate::checked::is_right;
use crate::labelled::flagged_text;
use crate::names::{flag_named, table_of};
use crate::renaming::{Naming, renamed};
use assembler::Assembly;
use bus::Image;
use model::Profile;
use source_forms::Mark;
use source_writer::flags_of;
use std::alloc::{AllocError, Global};

/// Writes the source of an image in a profile as `labelled_text` does, with the names
/// that a source defines. Where the image has a byte at a name's address, the line there gets a
/// label, and the name stands in place of it; an address within a line of code is `NAME+1` or
/// `NAME+2`, and a name for it is left out. Where the image has nothing, the name is defined before
/// all lines, and operands are written with it, those of one byte too.
///
/// A number that is no address has no name, the first name of an address stands for it, and a name
/// of the form `L_HHHH` is left out. If the source with names is no source of the image, as where
/// it is longer than a source may be, or has more than 8,192 names, it is written without them.
///
/// Whatever the names are, the text is a source, and under each map of the profile at whose port
/// the image has no byte it denotes exactly the image. The only error is that a request for memory
/// was refused. Source: mos65.
pub fn named_text(
    alloc: Global,
    profile: Profile,
    image: &Image,
    marks: &[Mark],
    names: &Assembly,
) -> Result<Vec<u8>, AllocError>
    ensures text { IfOk result
        (λ text. IsNamedText profile image.now marks.now names.now.names text.items) }
    ensures denotes { IfOk result (λ text. (bus_map : Map) → bus_map.profile ≡ profile
        → has_port_byte bus_map image.now ≡ false → Denotes bus_map text.items image.now) }
{
    let table = table_of(alloc, names)?;
    let mut flags = flags_of(alloc, profile, image.cells(), marks)?;
    flag_named(&mut flags, table.as_slice());
    let plain = flagged_text(alloc, profile, image, marks, flags.as_slice())?;
    let naming = Naming {
        names,
        table: table.as_slice(),
        image,
    };
    let named = renamed(alloc, naming, plain.as_slice())?;
    if is_right(alloc, profile, named.as_slice(), image)? {
        Ok(named)
    } else {
        Ok(plain)
    }
}
