//! The uses of one name.

ghost use Rattle.std.specs.Prelude.{◌≡◌, IfOk};
ghost use Rattle.name_uses.specs.Picked.{is_picked, picked};
ghost use Rattle.name_uses.specs.Views.{use_view, use_views};

use crate::name_use::NameUse;
use std::alloc::{AllocError, Global};

/// Which uses of a name are meant.
#[derive(Clone, Copy)]
pub enum Part {
    /// All.
    All,
    /// Those where a line defines it.
    Definitions,
    /// All others.
    Others,
}

/// Returns whether a use is of a name, and among those that are meant.
fn is_picked(part: Part, name: &[u8], one: &NameUse<'_>) -> bool
    ensures { result ≡ is_picked part name.now (use_view one.now) }
{
    one.text == name
        && match part {
            Part::All => true,
            Part::Definitions => one.defines,
            Part::Others => !one.defines,
        }
}

/// Returns those of some uses that are of a name and are meant, in their order. The only error is
/// that a request for memory was refused.
pub fn picked<'a>(
    alloc: Global,
    uses: &[NameUse<'a>],
    name: &[u8],
    part: Part,
) -> Result<Vec<NameUse<'a>>, AllocError>
    ensures { IfOk result
        (λ found. use_views found.items ≡ picked part name.now (use_views uses.now)) }
{
    let mut found = Vec::new(alloc);
    for one in uses {
        if is_picked(part, name, one) {
            found.push(*one)?;
        }
    }
    Ok(found)
}
