//! All faults of a source.

ghost use Rattle.std.specs.Prelude.{◌≡◌, ◌≤◌, ℕ, [], ◌∷◌, List, Option, Some, length, slice_get};
ghost use Rattle.std.specs.Prelude.{IfOk};
ghost use Rattle.model.specs.AllFaults.{faults_of, judged_lines};
ghost use Rattle.model.specs.Source.{Denotes, HasFault, read_lines};
ghost use Rattle.model.specs.declared.source_fault.AsmFault.{AsmFault};
ghost use Rattle.source_faults.specs.Views.{mending_of, judged_views};
ghost use Rattle.law_sources.specs.Judging.{too_large};

use crate::judging::{Judged, judge};
use crate::laying::lay_out;
use crate::mending::Mending;
use crate::told::told;
use bus::MapSpec;
use law_sources::judging_is_right;
use model::{AsmFault, AsmFaultKind};
use std::alloc::{AllocError, Global};
use symbols::Symbols;

/// The most bytes that a source has (mos65).
const SOURCE_SIZE: usize = 1_048_576;

/// All lines of a source judged, those with a fault mended in one way.
#[tactic(auto, unfolding(model::specs::AllFaults::judged_lines))]
fn judged(
    alloc: Global,
    map: &MapSpec,
    mending: Mending,
    source: &[u8],
) -> Result<Vec<Judged>, AllocError>
    requires size { length source.now ≤ 1048576 }
    ensures exact { IfOk result (λ judged. judged_views judged.items
        ≡ judged_lines map.now (mending_of mending) (read_lines map.now.profile source.now)) }
    ensures few { IfOk result (λ judged. length judged.items ≤ 1048576) }
{
    let mut symbols = Symbols::new(alloc);
    let found = lay_out(alloc, map.profile(), mending, &mut symbols, source)?;
    judge(alloc, map, &symbols, &found)
}

/// The one fault of a source with too many bytes.
fn too_large(alloc: Global) -> Result<Vec<AsmFault>, AllocError>
    ensures { IfOk result (λ faults. faults.items ≡ too_large ∷ []) }
{
    let mut faults = Vec::new(alloc);
    faults.push(AsmFault {
        line: 0,
        kind: AsmFaultKind::TooLarge,
    })?;
    Ok(faults)
}

/// Returns all faults of a source in its map's profile that do not hang on how the others are
/// mended. Those of the layout come first, then those of values, each by line; no line is named
/// twice. A source that assembles has none.
///
/// The first is the fault that `assembler::assemble` answers. For each next one the lines with a
/// fault are mended. Nobody knows how, so that all lines are judged twice: with mended lines that
/// have no byte, and whose first word is a name that is 0; and with mended lines of 3 bytes, whose
/// first word is a name without a number. A line is named with the fault that it has in both.
/// `PastEnd`, `Overlap` and `PortAddress` are told only where the line has one address in both, and
/// no line since the last `*=` has a fault.
///
/// The only error is that a request for memory was refused. Source: mos65.
pub fn source_faults(
    alloc: Global,
    source: &[u8],
    map: &MapSpec,
) -> Result<Vec<AsmFault>, AllocError>
    ensures exact { IfOk result (λ faults. faults.items ≡ faults_of map.now source.now) }
    // The first is the source's fault.
    ensures first { IfOk result (λ faults. (fault : AsmFault) → HasFault map.now source.now fault
        → slice_get faults.items 0 ≡ Some fault) }
    // A source that denotes an image has none.
    ensures none { IfOk result (λ faults. (image : List (Option ℕ))
        → Denotes map.now source.now image → faults.items ≡ []) }
{
    // For the proof: what two passes compute is what the source denotes, or its fault.
    judging_is_right();
    all_faults(alloc, source, map)
}

/// All faults of a source.
#[tactic(auto, unfolding(model::specs::AllFaults::faults_of))]
fn all_faults(alloc: Global, source: &[u8], map: &MapSpec) -> Result<Vec<AsmFault>, AllocError>
    ensures { IfOk result (λ faults. faults.items ≡ faults_of map.now source.now) }
{
    if source.len() > SOURCE_SIZE {
        return too_large(alloc);
    }
    let first = judged(alloc, map, Mending::Smallest, source)?;
    let second = judged(alloc, map, Mending::Largest, source)?;
    told(alloc, &first, &second)
}
