//! What can be folded.

ghost use Rattle.std.specs.Prelude.{◌≡◌, ◌++◌, IfOk, None, OnOk};
ghost use Rattle.lsp_hints.specs.Folds.{comment_folds, fold_data, folded, folds_to};
ghost use Rattle.lsp_hints.specs.Folds.{label_folds};
ghost use Rattle.serde_json.specs.View.{view};
ghost use Rattle.source_notes.specs.Lines.{texts_of};

use crate::labels::is_label_line;
use crate::operation::begins_with;
use json_messages::{Object, ValueList};
use line_parts::Token;
use model::Profile;
use serde_json::Value;
use source_notes::{after, blank_run};
use std::alloc::{AllocError, Global};

/// What is folded.
#[derive(Clone, Copy)]
pub enum FoldKind {
    /// The lines from a label on.
    Label,
    /// Comments.
    Comment,
}

/// Lines that are folded into the first of them: the numbers of the first and the last one, counted
/// from 0.
#[derive(Clone, Copy)]
pub struct Fold {
    pub kind: FoldKind,
    pub first: usize,
    pub last: usize,
}

/// Appends the fold of the lines from the first one, if there is one, to the line before an end, if
/// these are two lines or more.
fn push_fold(
    folds: &mut Vec<Fold>,
    kind: FoldKind,
    from: Option<usize>,
    end: usize,
) -> Result<(), AllocError>
    ensures { OnOk result (folds.new.items ≡ folds.old.items ++ folds_to kind from end) }
{
    match from {
        Some(first) if end.saturating_sub(first) > 1 => {
            let last = end - 1;
            folds.extend_from_slice(&[Fold { kind, first, last }])
        }
        _ => Ok(()),
    }
}

/// Appends the folds of labels: from each label's line to the line before the next one.
fn push_labels<'a>(
    folds: &mut Vec<Fold>,
    room: &mut Vec<Token<'a>>,
    profile: Profile,
    lines: &[&'a [u8]],
) -> Result<(), AllocError>
    ensures { OnOk result (folds.new.items
        ≡ folds.old.items ++ label_folds profile 0 None (texts_of lines.now)) }
{
    let mut from = None;
    for (index, line) in lines.iter().enumerate() {
        let is_label = is_label_line(room, profile, line)?;
        if is_label {
            push_fold(folds, FoldKind::Label, from, index)?;
            from = Some(index);
        }
    }
    push_fold(folds, FoldKind::Label, from, lines.len())
}

/// Appends the folds of comments: of each run of lines with a comment alone.
fn push_comments(folds: &mut Vec<Fold>, lines: &[&[u8]]) -> Result<(), AllocError>
    ensures { OnOk result (folds.new.items
        ≡ folds.old.items ++ comment_folds 0 None (texts_of lines.now)) }
{
    let mut from = None;
    for (index, line) in lines.iter().enumerate() {
        if begins_with(b';', after(line, blank_run(line))) {
            from = Some(from.unwrap_or(index));
        } else {
            push_fold(folds, FoldKind::Comment, from, index)?;
            from = None;
        }
    }
    push_fold(folds, FoldKind::Comment, from, lines.len())
}

/// Returns the value of a fold.
fn fold_data(alloc: Global, one: &Fold) -> Result<Value, AllocError>
    ensures { IfOk result (λ v. view v ≡ fold_data one.now) }
{
    match one.kind {
        FoldKind::Label => Object::new(alloc)
            .count("endLine", one.last as u64)
            .count("startLine", one.first as u64)
            .build(),
        FoldKind::Comment => Object::new(alloc)
            .count("endLine", one.last as u64)
            .word("kind", "comment")
            .count("startLine", one.first as u64)
            .build(),
    }
}

/// Returns what can be folded of the lines of a source: those from each label to the next, and the
/// runs of comments. The only error is that a request for memory was refused.
pub fn folded(alloc: Global, profile: Profile, lines: &[&[u8]]) -> Result<Value, AllocError>
    ensures { IfOk result (λ v. view v ≡ folded profile (texts_of lines.now)) }
{
    let mut folds = Vec::new(alloc);
    push_labels(&mut folds, &mut Vec::new(alloc), profile, lines)?;
    push_comments(&mut folds, lines)?;
    let mut values = ValueList::new(alloc);
    for fold in &folds {
        values = values.with(fold_data(alloc, fold));
    }
    values.build()
}
