//! The text of all faults of a source, or of its warnings.

ghost use Rattle.std.specs.Prelude.{◌≡◌, ◌==◌, ◌&&◌, ℕ, List, Option, IfOk, length, not, true, false};
ghost use Rattle.word_check.specs.Checked.{IsCheckedText};
ghost use Rattle.fault_notes.specs.Given.{told_faults_of};
ghost use Rattle.model.specs.Source.{Denotes};
ghost use Rattle.warnings.specs.Warnings.{warnings_of};

use bus::MapSpec;
use fault_notes::{faults_text, told_source_faults};
use std::alloc::{AllocError, Global};
use warning_notes::warnings_text;
use warnings::source_warnings;

/// What `check` writes of a source, and whether it is of faults or of warnings.
#[derive(Drop)]
pub struct CheckedText {
    pub text: Vec<u8>,
    pub is_faulty: bool,
    pub is_warned: bool,
}

/// Returns what `check` writes of a source on a map under the name of its file: a block for each of
/// the first 50 faults, in the order of their lines; without a fault a block for each of the first
/// 50 warnings; or nothing.
///
/// Errors: `AllocError` if an allocation fails.
pub fn checked_text(
    alloc: Global,
    file: &[u8],
    source: &[u8],
    map: &MapSpec,
) -> Result<CheckedText, AllocError>
    // A block for each of the first 50 faults, with its line's number, its name, its number and the
    // source's own line with a mark; or for each of the first 50 warnings, with its kind in place
    // of the name and the number, and with its words.
    ensures told { IfOk result (λ c. IsCheckedText file.now source.now map.now.profile
        (told_faults_of map.now source.now) (warnings_of map.now source.now) c.text.items) }
    // Whether a fault is told.
    ensures faulty { IfOk result
        (λ c. c.is_faulty ≡ not (length (told_faults_of map.now source.now) == 0)) }
    // Whether a warning is told.
    ensures warned { IfOk result (λ c. c.is_warned
        ≡ ((length (told_faults_of map.now source.now) == 0)
        && not (length (warnings_of map.now source.now) == 0))) }
    // A source that denotes an image has no fault.
    ensures right { IfOk result
        (λ c. (image : List (Option ℕ)) → Denotes map.now source.now image → c.is_faulty ≡ false) }
{
    let faults = told_source_faults(alloc, source, map)?;
    if faults.is_empty() {
        let warnings = source_warnings(alloc, source, map)?;
        let text = warnings_text(alloc, file, source, &warnings)?;
        return Ok(CheckedText {
            text,
            is_faulty: false,
            is_warned: !warnings.is_empty(),
        });
    }
    let text = faults_text(alloc, file, source, map, &faults)?;
    Ok(CheckedText {
        text,
        is_faulty: true,
        is_warned: false,
    })
}
