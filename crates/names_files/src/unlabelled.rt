//! What a line gives by the form of its file.

ghost use Rattle.std.specs.Prelude.{◌≡◌, IfOk, option_map};
ghost use Rattle.names_files.specs.Meanings.{is_no_row, label_in, unlabelled};
ghost use Rattle.names_files.specs.Views.{label_view, meaning_view};

use crate::form::Form;
use crate::kept::plain_meaning;
use crate::label::{Label, debug_label, label_of, row_label};
use crate::meaning::Meaning;
use lexer::first_field;
use model::Profile;
use std::alloc::{AllocError, Global};
use symbols::Symbols;

/// Returns whether a line of a table has no name: it is its head or its end, or has nothing.
fn is_no_row(line: &[u8]) -> bool
    ensures { result ≡ is_no_row line.now }
{
    line.starts_with(b"---") || first_field(line).is_empty()
}

/// Returns the label that a line gives, if it has the form of one.
#[tactic(auto, unfolding(crate::specs::Meanings::label_in))]
pub fn label_in(form: Form, line: &[u8]) -> Option<Label<'_>>
    ensures { option_map label_view result ≡ label_in form line.now }
{
    match form {
        Form::Plain => label_of(line),
        Form::Debug => debug_label(line),
        Form::Table => {
            if is_no_row(line) {
                None
            } else {
                row_label(line)
            }
        }
    }
}

/// Returns what becomes of a line that is no label.
#[tactic(auto, unfolding(crate::specs::Meanings::unlabelled))]
pub fn unlabelled<'a>(
    alloc: Global,
    form: Form,
    profile: Profile,
    names: &Symbols,
    line: &'a [u8],
) -> Result<Meaning<'a>, AllocError>
    ensures { IfOk result (λ meaning. meaning_view meaning
        ≡ unlabelled form profile names.now line.now) }
{
    match form {
        Form::Plain => plain_meaning(alloc, profile, names, line),
        Form::Debug => Ok(Meaning::Other),
        Form::Table => {
            if is_no_row(line) {
                Ok(Meaning::Other)
            } else {
                Ok(Meaning::LeftOut(first_field(line)))
            }
        }
    }
}
