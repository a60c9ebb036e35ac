//! The warnings of a source.

ghost use Rattle.std.specs.Prelude.{◌≡◌, ◌≤◌, IfOk, OnOk, [], length};
ghost use Rattle.model.specs.AllFaults.{fixed_by, found_lines, smallest};
ghost use Rattle.model.specs.Names.{number_in};
ghost use Rattle.model.specs.Source.{first_context, read_lines};
ghost use Rattle.model.specs.TextLines.{lines_of};
ghost use Rattle.source_faults.specs.Views.{found_all};
ghost use Rattle.warnings.specs.Reaches.{reaches};
ghost use Rattle.warnings.specs.Uses.{used_by};
ghost use Rattle.warnings.specs.Views.{placed_views};
ghost use Rattle.warnings.specs.Warnings.{has_no_vector, is_empty, warnings_found};
ghost use Rattle.warnings.specs.Warnings.{warnings_in, warnings_of};

use crate::all_lines::{begins_silenced, has_bytes, push_cut_off, push_if, push_lines};
use crate::flow::is_vectorless;
use crate::kinds::{Warning, WarningKind};
use crate::placed_line::PlacedLine;
use crate::placement::placed_lines;
use crate::used_names::used_by;
use crate::written_numbers::{Reach, reaches};
use bus::MapSpec;
use model::Profile;
use source_faults::{Found, Mending, lay_out};
use std::alloc::{AllocError, Global};
use symbols::Symbols;

/// The most bytes that a source has (mos65).
const SOURCE_SIZE: usize = 1_048_576;

/// Whether there are names, and neither an instruction nor a byte.
fn is_empty(names: &Symbols, lines: &[PlacedLine<'_>]) -> bool
    ensures { result ≡ is_empty names.now (placed_views lines.now) }
{
    names.count() > 0 && !begins_silenced(lines) && !has_bytes(lines)
}

/// Whether there is an instruction, and no byte of the reset vector.
fn has_no_vector(lines: &[PlacedLine<'_>]) -> bool
    ensures { result ≡ has_no_vector (placed_views lines.now) }
{
    !begins_silenced(lines) && is_vectorless(lines)
}

/// Appends the warnings of lines that define these names, and of the text after `.END`. The lines
/// use these names and write this.
fn push_all(
    alloc: Global,
    warnings: &mut Vec<Warning>,
    profile: Profile,
    names: &Symbols,
    used: &Symbols,
    reached: &[Reach],
    lines: &[PlacedLine<'_>],
    behind: &[u8],
) -> Result<(), AllocError>
    requires few { length lines.now ≤ 1048576 }
    requires short { length behind.now ≤ 1048576 }
    requires none { warnings.old.items ≡ [] }
    requires used { used.now ≡ used_by (placed_views lines.now) [] }
    requires reached { reached.now ≡ reaches (number_in names.now) (placed_views lines.now) }
    ensures { OnOk result (warnings.new.items
        ≡ warnings_in profile names.now (placed_views lines.now) (lines_of behind.now)) }
{
    push_if(warnings, is_empty(names, lines), 1, WarningKind::NoBytes)?;
    push_if(warnings, has_no_vector(lines), 1, WarningKind::NoVector)?;
    push_lines(alloc, warnings, profile, names, used, reached, lines)?;
    push_cut_off(alloc, warnings, profile, lines.len() as u32 + 1, behind)
}

/// The warnings of lines that define these names and use these, and of the text after `.END`.
fn warnings_using(
    alloc: Global,
    profile: Profile,
    names: &Symbols,
    used: &Symbols,
    lines: &[PlacedLine<'_>],
    behind: &[u8],
) -> Result<Vec<Warning>, AllocError>
    requires few { length lines.now ≤ 1048576 }
    requires short { length behind.now ≤ 1048576 }
    requires used { used.now ≡ used_by (placed_views lines.now) [] }
    ensures { IfOk result (λ warnings. warnings.items
        ≡ warnings_in profile names.now (placed_views lines.now) (lines_of behind.now)) }
{
    let reached = reaches(alloc, names, lines)?;
    let mut warnings = Vec::new(alloc);
    push_all(
        alloc,
        &mut warnings,
        profile,
        names,
        used,
        &reached,
        lines,
        behind,
    )?;
    Ok(warnings)
}

/// The warnings of lines that define these names, and of the text after `.END`.
fn warnings_in(
    alloc: Global,
    profile: Profile,
    names: &Symbols,
    lines: &[PlacedLine<'_>],
    behind: &[u8],
) -> Result<Vec<Warning>, AllocError>
    requires few { length lines.now ≤ 1048576 }
    requires short { length behind.now ≤ 1048576 }
    ensures { IfOk result (λ warnings. warnings.items
        ≡ warnings_in profile names.now (placed_views lines.now) (lines_of behind.now)) }
{
    let used = used_by(alloc, lines)?;
    warnings_using(alloc, profile, names, &used, lines, behind)
}

/// The warnings of a source of which the layout found this, and these names.
fn warnings_found(
    alloc: Global,
    profile: Profile,
    names: &Symbols,
    source: &[u8],
    found: &[Found<'_>],
) -> Result<Vec<Warning>, AllocError>
    requires few { length found.now ≤ 1048576 }
    requires short { length source.now ≤ 1048576 }
    ensures { IfOk result (λ warnings. warnings.items ≡ warnings_found profile
        (lines_of source.now) (found_all found.now) names.now) }
{
    let placed = placed_lines(alloc, profile, source, found)?;
    warnings_in(alloc, profile, names, &placed.lines, placed.behind)
}

/// The warnings of a source, whose names are put into an empty list.
fn laid_warnings(
    alloc: Global,
    profile: Profile,
    names: &mut Symbols,
    source: &[u8],
) -> Result<Vec<Warning>, AllocError>
    requires short { length source.now ≤ 1048576 }
    requires empty { names.old ≡ [] }
    ensures { IfOk result (λ warnings. warnings.items ≡ warnings_found profile
        (lines_of source.now)
        (found_lines smallest (first_context profile) (read_lines profile source.now))
        (fixed_by smallest (first_context profile) (read_lines profile source.now)).names) }
{
    let found = lay_out(alloc, profile, Mending::Smallest, names, source)?;
    warnings_found(alloc, profile, names, source, &found)
}

/// Returns the warnings of a source in its map's profile, each with its line, in the order of the
/// lines. They are right where the source has no fault.
///
/// A line that ends in `; nowarn` has none. A source of more than 1,048,576 bytes has none.
///
/// The only error is that a request for memory was refused. Source: mos65.
#[tactic(auto, unfolding(crate::specs::Warnings::warnings_of))]
pub fn source_warnings(
    alloc: Global,
    source: &[u8],
    map: &MapSpec,
) -> Result<Vec<Warning>, AllocError>
    ensures { IfOk result (λ warnings. warnings.items ≡ warnings_of map.now source.now) }
{
    if source.len() > SOURCE_SIZE {
        return Ok(Vec::new(alloc));
    }
    let mut names = Symbols::new(alloc);
    laid_warnings(alloc, map.profile(), &mut names, source)
}
