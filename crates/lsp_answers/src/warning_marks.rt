//! The warnings of a source.

ghost use Rattle.std.specs.Prelude.{IfOk};
ghost use Rattle.warning_notes.specs.Blocks.{warning_blocks};
ghost use Rattle.model.specs.TextLines.{lines_of};
ghost use Rattle.lsp_answers.specs.Diagnostics.{AreMarked, warning_kind};
ghost use Rattle.source_notes.specs.Lines.{names_of};

use crate::kinds::{Diagnostic, DiagnosticKind, with_note};
use source_notes::{every_line, line_of, line_or_none, names_of};
use std::alloc::{AllocError, Global};
use warning_notes::note_of;
use warnings::Warning;

/// Returns the diagnostics of warnings of a source, in their order. The only error is that a
/// request for memory was refused.
pub fn marked_warnings(
    alloc: Global,
    source: &[u8],
    warnings: &[Warning],
) -> Result<Vec<Diagnostic>, AllocError>
    ensures { IfOk result (λ found. AreMarked (warning_blocks (names_of (lines_of source.now)))
        warning_kind (lines_of source.now) warnings.now found.items) }
{
    let Ok(lines) = every_line(alloc, source) else {
        return Err(AllocError);
    };
    let Ok(names) = names_of(alloc, &lines) else {
        return Err(AllocError);
    };
    let mut found = Ok(Vec::new(alloc));
    for warning in warnings {
        let line = line_or_none(line_of(&lines, warning.line));
        let note = note_of(alloc, &names, warning.kind, warning.line, line);
        let kind = DiagnosticKind::Warning(warning.kind);
        found = with_note(found, warning.line, kind, note);
    }
    found
}
