//! All faults or warnings of a source.

ghost use Rattle.std.specs.Prelude.{IfOk};
ghost use Rattle.fault_notes.specs.Given.{told_faults_of};
ghost use Rattle.lsp_answers.specs.Diagnostics.{AreDiagnostics};

use crate::fault_marks::marked_faults;
use crate::kinds::Diagnostic;
use crate::warning_marks::marked_warnings;
use bus::MapSpec;
use fault_notes::told_source_faults;
use std::alloc::{AllocError, Global};
use warnings::source_warnings;

/// Returns what `check` tells of a source on a map: a diagnostic of each fault, those of the layout
/// first; or, where it has no fault, of each warning.
///
/// The only error is that a request for memory was refused. Source: mos65.
pub fn diagnostics(
    alloc: Global,
    source: &[u8],
    map: &MapSpec,
) -> Result<Vec<Diagnostic>, AllocError>
    // They are exactly the source's faults, or its warnings, in their order: each with its line,
    // its kind and a note that means what `check` marks.
    ensures { IfOk result (λ found.
        AreDiagnostics map.now source.now (told_faults_of map.now source.now) found.items) }
{
    let Ok(faults) = told_source_faults(alloc, source, map) else {
        return Err(AllocError);
    };
    if !faults.is_empty() {
        return marked_faults(alloc, source, map, &faults);
    }
    match source_warnings(alloc, source, map) {
        Ok(warnings) => marked_warnings(alloc, source, &warnings),
        Err(error) => Err(error),
    }
}
