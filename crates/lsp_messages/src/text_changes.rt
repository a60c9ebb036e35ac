//! Changes of the text of a document.

ghost use Rattle.std.specs.Prelude.{◌≡◌, IfOk};
ghost use Rattle.std.specs.Option.{option_map};
ghost use Rattle.lsp_messages.specs.TextChanges.{change_of, change_view, changed_by, changed_text};
ghost use Rattle.lsp_messages.specs.TextChanges.{part_by, place_at, text_view, with_part};
ghost use Rattle.serde_json.specs.View.{items_view, view};

use crate::text_places::{Place, place_in};
use json_messages::{number_at, text_at};
use serde_json::Value;
use std::alloc::{AllocError, Global};

/// A change of the text of a document.
#[derive(Clone, Copy)]
enum TextChange<'a> {
    /// This is the whole text then.
    Whole(&'a str),
    /// A text stands between two places then.
    Part {
        from: Place,
        to: Place,
        text: &'a str,
    },
    /// A change that lacks what it needs.
    Wrong,
}

/// Returns the place whose line and column stand at two paths.
fn place_at(change: &Value, line: &str, character: &str) -> Option<Place>
    ensures { result ≡ place_at line.now character.now (view change.now) }
{
    match (number_at(change, line), number_at(change, character)) {
        (Some(line), Some(character)) => Some(Place { line, character }),
        _ => None,
    }
}

/// Returns the change that puts a text between two places.
fn part_by(from: Option<Place>, to: Option<Place>, text: &str) -> TextChange<'_>
    ensures { change_view result ≡ part_by from to text.now }
{
    match (from, to) {
        (Some(from), Some(to)) => TextChange::Part { from, to, text },
        _ => TextChange::Wrong,
    }
}

/// Reads a change.
fn change_of(change: &Value) -> TextChange<'_>
    ensures { change_view result ≡ change_of (view change.now) }
{
    let Some(text) = text_at(change, "/text") else {
        return TextChange::Wrong;
    };
    match change.pointer("/range") {
        Some(_) => part_by(
            place_at(change, "/range/start/line", "/range/start/character"),
            place_at(change, "/range/end/line", "/range/end/character"),
            text,
        ),
        None => TextChange::Whole(text),
    }
}

/// Returns a text with another one between two places, unless the second one stands before the
/// first. The only error is that a request for memory was refused.
fn with_part(
    alloc: Global,
    text: &[u8],
    from: Place,
    to: Place,
    part: &[u8],
) -> Result<Option<Vec<u8>>, AllocError>
    ensures { IfOk result (λ made. text_view made ≡ with_part from to part.now text.now) }
{
    let start = place_in(text, from);
    let end = place_in(text, to);
    if end < start {
        return Ok(None);
    }
    let mut made = Vec::from_slice(alloc, &text[..start])?;
    made.extend_from_slice(part)?;
    made.extend_from_slice(&text[end..])?;
    Ok(Some(made))
}

/// Returns a text after a change; nothing if it cannot be made, or is of a part of a text that is
/// not known. The only error is that a request for memory was refused.
fn changed_by(
    alloc: Global,
    text: Option<Vec<u8>>,
    change: TextChange<'_>,
) -> Result<Option<Vec<u8>>, AllocError>
    ensures { IfOk result (λ made. text_view made
        ≡ changed_by (text_view text) (change_view change.entry)) }
{
    match change {
        TextChange::Whole(whole) => {
            let made = Vec::from_slice(alloc, whole.as_bytes())?;
            Ok(Some(made))
        }
        TextChange::Part {
            from,
            to,
            text: part,
        } => match text {
            Some(text) => with_part(alloc, &text, from, to, part.as_bytes()),
            None => Ok(None),
        },
        TextChange::Wrong => Ok(None),
    }
}

/// Returns a copy of a text, if it is known. The only error is that a request for memory was
/// refused.
fn copied(alloc: Global, text: Option<&[u8]>) -> Result<Option<Vec<u8>>, AllocError>
    ensures { IfOk result (λ made. text_view made ≡ option_map (λ t. t.now) text.entry) }
{
    match text {
        Some(text) => {
            let made = Vec::from_slice(alloc, text)?;
            Ok(Some(made))
        }
        None => Ok(None),
    }
}

/// Returns the text of a document after changes, each of which is of the text that the one before
/// left; nothing if the text is not known then, as after a change that cannot be made. A change of
/// the whole text makes it known.
///
/// The only error is that a request for memory was refused. Source: Language Server Protocol 3.17,
/// "DidChangeTextDocument Notification".
pub fn changed_text(
    alloc: Global,
    text: Option<&[u8]>,
    changes: &[Value],
) -> Result<Option<Vec<u8>>, AllocError>
    ensures { IfOk result (λ made. text_view made
        ≡ changed_text (option_map (λ t. t.now) text.entry) (items_view changes.now)) }
{
    let mut made = copied(alloc, text)?;
    for change in changes {
        made = changed_by(alloc, made, change_of(change))?;
    }
    Ok(made)
}
