//! The faults of a source.

ghost use Rattle.std.specs.Prelude.{◌≡◌, ◌≤◌, [], IfOk, length};
ghost use Rattle.fault_notes.specs.Blocks.{fault_blocks, known_in, means_first, means_in};
ghost use Rattle.fault_notes.specs.Blocks.{shown_lines};
ghost use Rattle.fault_notes.specs.Marks.{IsMeant, known_of};
ghost use Rattle.model.specs.TextLines.{lines_of};
ghost use Rattle.lsp_answers.specs.Diagnostics.{AreMarked, fault_kind};
ghost use Rattle.source_notes.specs.Lines.{texts_of};

use crate::kinds::{Diagnostic, DiagnosticKind, with_note};
use crate::source_text::SOURCE_SIZE;
use bus::MapSpec;
use fault_notes::{Context, note_of};
use model::AsmFault;
use source_faults::{Mending, lay_out};
use source_notes::{Note, every_line, line_of, line_or_none, names_of, phrase};
use std::alloc::{AllocError, Global};
use symbols::Symbols;

/// Returns the diagnostics of faults of a source that is too long to be read.
fn long_faults(alloc: Global, faults: &[AsmFault]) -> Result<Vec<Diagnostic>, AllocError>
    ensures { IfOk result
        (λ found. AreMarked (fault_blocks means_first) fault_kind [] faults.now found.items) }
{
    let mut found = Ok(Vec::new(alloc));
    for fault in faults {
        let note = match phrase(alloc, "a source has at most 1048576 bytes") {
            Ok(words) => Ok(Note::new(0, 1, words)),
            Err(error) => Err(error),
        };
        found = with_note(found, fault.line, DiagnosticKind::Fault(fault.kind), note);
    }
    found
}

/// Returns the diagnostics of faults of a source whose lines are these, by what is known of it.
fn line_faults(
    alloc: Global,
    lines: &[&[u8]],
    context: &Context<'_, '_>,
    faults: &[AsmFault],
) -> Result<Vec<Diagnostic>, AllocError>
    ensures { IfOk result (λ found. AreMarked (fault_blocks (IsMeant (known_of context.now)))
        fault_kind (texts_of lines.now) faults.now found.items) }
{
    let mut found = Ok(Vec::new(alloc));
    for fault in faults {
        let line = line_or_none(line_of(lines, fault.line));
        let note = note_of(alloc, context, *fault, line);
        found = with_note(found, fault.line, DiagnosticKind::Fault(fault.kind), note);
    }
    found
}

/// Returns the diagnostics of faults of a source with these lines that is not too long.
fn source_faults_marked<'a>(
    alloc: Global,
    source: &'a [u8],
    map: &MapSpec,
    lines: &[&'a [u8]],
    faults: &[AsmFault],
) -> Result<Vec<Diagnostic>, AllocError>
    requires size { length source.now ≤ 1048576 }
    requires lines { texts_of lines.now ≡ lines_of source.now }
    ensures { IfOk result (λ found.
        AreMarked (fault_blocks (IsMeant (known_in map.now.profile source.now)))
        fault_kind (lines_of source.now) faults.now found.items) }
{
    let mut symbols = Symbols::new(alloc);
    let Ok(found) = lay_out(
        alloc,
        map.profile(),
        Mending::Smallest,
        &mut symbols,
        source,
    ) else {
        return Err(AllocError);
    };
    // The names are those of the lines that were read.
    let Ok(names) = names_of(alloc, &lines[..found.len().min(lines.len())]) else {
        return Err(AllocError);
    };
    let context = Context {
        profile: map.profile(),
        port: map.port(),
        names: &names,
        symbols: &symbols,
        found: &found,
    };
    line_faults(alloc, lines, &context, faults)
}

/// Returns the diagnostics of faults of a source, in their order. The only error is that a request
/// for memory was refused.
pub fn marked_faults(
    alloc: Global,
    source: &[u8],
    map: &MapSpec,
    faults: &[AsmFault],
) -> Result<Vec<Diagnostic>, AllocError>
    ensures { IfOk result (λ found.
        AreMarked (fault_blocks (means_in map.now.profile source.now))
        fault_kind (shown_lines source.now) faults.now found.items) }
{
    if source.len() > SOURCE_SIZE {
        return long_faults(alloc, faults);
    }
    match every_line(alloc, source) {
        Ok(lines) => source_faults_marked(alloc, source, map, &lines, faults),
        Err(error) => Err(error),
    }
}
