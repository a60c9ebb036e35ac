//! A name changed to another one.

ghost use Rattle.std.specs.Prelude.{◌≡◌, ◌≤◌, ℕ, IfErr, IfOk, List, None, Option, [], length, true};
ghost use Rattle.model.specs.Source.{Denotes};
ghost use Rattle.name_uses.specs.Faulty.{faulty_line};
ghost use Rattle.name_uses.specs.Uses.{is_name};
ghost use Rattle.name_uses.specs.Views.{use_views};
ghost use Rattle.name_uses.specs.Renaming.{IsRefused, renamed, uses_named};

use crate::checked::keeps_image;
use crate::fault::RenameFault;
use crate::faulty::faulty_line;
use crate::lines::name_uses;
use crate::name_use::NameUse;
use crate::picks::{Part, picked};
use crate::text::replaced;
use crate::words::is_name;
use bus::MapSpec;
use std::alloc::Global;

/// A name changed to another one.
#[derive(Drop)]
pub struct Renaming<'a> {
    /// Where the old name stands in the source.
    pub uses: Vec<NameUse<'a>>,
    /// The source with the new name there.
    pub text: Vec<u8>,
}

/// Returns where a name stands in a source, and the source with another name there: the same text
/// but for the bytes of these uses. If the source denotes an image on the map, the text denotes the
/// same image.
///
/// # Errors
///
/// - `NoName`: the new name is no name in the map's profile.
/// - `Taken`: the new name stands in the source already.
/// - `Faulty`: the old or the new name stands in a line whose text has a fault.
/// - `Changed`: the source denotes an image and the text would not denote it, as where a line would
///   have more than 255 bytes.
/// - `OutOfMemory`: an allocation failed.
///
/// Source: mos65.
pub fn rename<'a>(
    alloc: Global,
    map: &MapSpec,
    source: &'a [u8],
    old: &[u8],
    new: &[u8],
) -> Result<Renaming<'a>, RenameFault>
    requires { length source.now ≤ 1048576 }
    ensures uses { IfOk result
        (λ r. use_views r.uses.items ≡ uses_named map.now.profile source.now old.now) }
    ensures text { IfOk result
        (λ r. r.text.items ≡ renamed map.now.profile source.now old.now new.now) }
    // The new name is a name, and stands nowhere in the source.
    ensures named { IfOk result (λ r. is_name map.now.profile new.now ≡ true) }
    ensures free { IfOk result (λ r. uses_named map.now.profile source.now new.now ≡ []) }
    // Neither name stands in a line whose text has a fault.
    ensures sound { IfOk result
        (λ r. faulty_line map.now.profile source.now old.now new.now ≡ None) }
    // What the source denotes, the text denotes too.
    ensures image { IfOk result (λ r. (image : List (Option ℕ))
        → Denotes map.now source.now image → Denotes map.now r.text.items image) }
    ensures refused { IfErr result (IsRefused map.now source.now old.now new.now) }
{
    let profile = map.profile();
    if !is_name(alloc, profile, new)? {
        return Err(RenameFault::NoName);
    }
    let all = name_uses(alloc, profile, source)?;
    if !picked(alloc, &all, new, Part::All)?.as_slice().is_empty() {
        return Err(RenameFault::Taken);
    }
    if let Some(line) = faulty_line(alloc, profile, source, old, new)? {
        return Err(RenameFault::Faulty(line));
    }
    let uses = picked(alloc, &all, old, Part::All)?;
    let text = replaced(alloc, source, &uses, new)?;
    match keeps_image(alloc, map, source, &text) {
        Ok(true) => Ok(Renaming { uses, text }),
        Ok(false) => Err(RenameFault::Changed),
        Err(_) => Err(RenameFault::OutOfMemory),
    }
}
