//! The marks of a source.

ghost use Rattle.std.specs.Prelude.{◌≡◌, IfOk};
ghost use Rattle.lsp_answers.specs.Marks.{AreMarks, mark_of};
ghost use Rattle.lsp_answers.specs.Texts.{text_view};
ghost use Rattle.serde_json.specs.View.{view};

use crate::finding::diagnostics;
use crate::kinds::{Diagnostic, DiagnosticKind};
use crate::source_text::Text;
use bus::MapSpec;
use json_messages::ValueList;
use lsp_messages::{mark, marks};
use serde_json::Value;
use std::alloc::{AllocError, Global};
use warning_notes::kind_name;

/// Returns the value of a fault or a warning. One of no line stands at the first line.
fn mark_of(alloc: Global, text: &Text<'_>, one: &Diagnostic) -> Result<Value, AllocError>
    ensures { IfOk result (λ v. view v ≡ mark_of (text_view text.now) one.now) }
{
    let (severity, name) = match one.kind {
        DiagnosticKind::Fault(kind) => (1, kind.name()),
        DiagnosticKind::Warning(kind) => (2, kind_name(kind)),
    };
    let number = one.line.max(1);
    let range = text.range(alloc, number, one.note.start, one.note.width);
    let words = String::from_utf8_lossy(alloc, &one.note.words);
    mark(alloc, severity, name, words, range)
}

/// Returns the marks of a document: of each fault of its source on a map, or of each warning where
/// it has no fault, as `check` finds them. The only error is that a request for memory was refused.
pub fn published(
    alloc: Global,
    map: &MapSpec,
    uri: &str,
    text: &Text<'_>,
) -> Result<Value, AllocError>
    ensures { IfOk result (λ v. AreMarks map.now uri.now (text_view text.now) (view v)) }
{
    let Ok(found) = diagnostics(alloc, text.source, map) else {
        return Err(AllocError);
    };
    let mut values = ValueList::new(alloc);
    for one in &found {
        values = values.with(mark_of(alloc, text, one));
    }
    marks(alloc, uri, values.build())
}
