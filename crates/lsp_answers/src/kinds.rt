//! A fault or a warning.

ghost use Rattle.std.specs.Prelude.{◌≡◌, IfOk};
ghost use Rattle.lsp_answers.specs.Diagnostics.{IsPut};
ghost use Rattle.lsp_answers.specs.Kinds.{is_far_branch, is_unused_name, lacks_mark};

use model::AsmFaultKind;
use source_notes::Note;
use std::alloc::AllocError;
use warnings::WarningKind;

/// What kind of fault or warning it is.
#[derive(Clone, Copy)]
pub enum DiagnosticKind {
    /// A fault of the source.
    Fault(AsmFaultKind),
    /// What may be meant otherwise, in a source without a fault.
    Warning(WarningKind),
}

impl DiagnosticKind {
    /// Returns whether a number lacks the `#` with which it would be no address.
    pub fn lacks_mark(self) -> bool
        ensures { result ≡ lacks_mark self }
    {
        match self {
            DiagnosticKind::Warning(WarningKind::PlainNumber) => true,
            _ => false,
        }
    }

    /// Returns whether no expression uses a name.
    pub fn is_unused_name(self) -> bool
        ensures { result ≡ is_unused_name self }
    {
        match self {
            DiagnosticKind::Warning(WarningKind::UnusedName) => true,
            _ => false,
        }
    }

    /// Returns whether a branch does not reach its target.
    pub fn is_far_branch(self) -> bool
        ensures { result ≡ is_far_branch self }
    {
        match self {
            DiagnosticKind::Fault(AsmFaultKind::BranchRange) => true,
            _ => false,
        }
    }
}

/// A fault or a warning of a source.
#[derive(Drop)]
pub struct Diagnostic {
    /// The number of its line, counted from 1; 0 if it is of no line.
    pub line: u32,
    pub kind: DiagnosticKind,
    /// The bytes of the line that are meant, and what is said.
    pub note: Note,
}

/// Puts a diagnostic behind others. The only error is that memory ran out, before or here.
pub fn with_note(
    found: Result<Vec<Diagnostic>, AllocError>,
    line: u32,
    kind: DiagnosticKind,
    note: Result<Note, AllocError>,
) -> Result<Vec<Diagnostic>, AllocError>
    ensures { IfOk result (λ all. IsPut found line kind note all.items) }
{
    let Ok(mut all) = found else {
        return Err(AllocError);
    };
    let Ok(note) = note else {
        return Err(AllocError);
    };
    all.push(Diagnostic { line, kind, note })?;
    Ok(all)
}
