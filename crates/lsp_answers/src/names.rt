//! Where a name stands.

ghost use Rattle.std.specs.Prelude.{◌≡◌, IfOk};
ghost use Rattle.lsp_answers.specs.Names.{definition_at, highlight_of, highlights_at};
ghost use Rattle.lsp_answers.specs.Names.{locations_by, references_at};
ghost use Rattle.lsp_answers.specs.Texts.{name_at, text_view};
ghost use Rattle.name_uses.specs.Views.{use_view};
ghost use Rattle.serde_json.specs.View.{view};

use crate::source_text::Text;
use json_messages::ValueList;
use lsp_messages::{highlight, location};
use name_uses::{NameUse, Part, picked};
use serde_json::Value;
use std::alloc::{AllocError, Global};

/// Returns where those uses of the name at a place stand that are meant; `null` where no name is.
fn found_at(
    alloc: Global,
    uri: &str,
    text: &Text<'_>,
    line: u64,
    character: u64,
    part: Part,
) -> Result<Value, AllocError>
    ensures { IfOk result (λ v. view v ≡ locations_by uri.now (text_view text.now) part
        (name_at (text_view text.now) line character)) }
{
    let Some(name) = text.name_at(line, character) else {
        return Ok(Value::Null);
    };
    let Ok(uses) = picked(alloc, &text.uses, name.text, part) else {
        return Err(AllocError);
    };
    let mut found = ValueList::new(alloc);
    for one in &uses {
        found = found.with(location(alloc, uri, text.range_of(alloc, one)));
    }
    found.build()
}

/// Returns where the name at a place is defined; `null` where no name is. The only error is that a
/// request for memory was refused.
pub fn definition(
    alloc: Global,
    uri: &str,
    text: &Text<'_>,
    line: u64,
    character: u64,
) -> Result<Value, AllocError>
    ensures { IfOk result
        (λ v. view v ≡ definition_at uri.now (text_view text.now) line character) }
{
    found_at(alloc, uri, text, line, character, Part::Definitions)
}

/// Returns where the name at a place stands, with or without its definitions; `null` where no name
/// is. The only error is that a request for memory was refused.
pub fn references(
    alloc: Global,
    uri: &str,
    text: &Text<'_>,
    line: u64,
    character: u64,
    declares: bool,
) -> Result<Value, AllocError>
    ensures { IfOk result
        (λ v. view v ≡ references_at uri.now (text_view text.now) line character declares) }
{
    let part = if declares { Part::All } else { Part::Others };
    found_at(alloc, uri, text, line, character, part)
}

/// Returns a use of a name as it is shown: of the kind 3, a write, where a line defines the name,
/// and of the kind 2, a read, elsewhere.
fn highlight_of(alloc: Global, text: &Text<'_>, one: &NameUse<'_>) -> Result<Value, AllocError>
    ensures { IfOk result (λ v. view v ≡ highlight_of (text_view text.now) (use_view one.now)) }
{
    let range = text.range_of(alloc, one);
    if one.defines {
        highlight(alloc, 3, range)
    } else {
        highlight(alloc, 2, range)
    }
}

/// Returns where the name at a place stands, and whether it is defined or used there; `null` where
/// no name is. The only error is that a request for memory was refused.
pub fn highlights(
    alloc: Global,
    text: &Text<'_>,
    line: u64,
    character: u64,
) -> Result<Value, AllocError>
    ensures { IfOk result (λ v. view v ≡ highlights_at (text_view text.now) line character) }
{
    let Some(name) = text.name_at(line, character) else {
        return Ok(Value::Null);
    };
    let Ok(uses) = picked(alloc, &text.uses, name.text, Part::All) else {
        return Err(AllocError);
    };
    let mut found = ValueList::new(alloc);
    for one in &uses {
        found = found.with(highlight_of(alloc, text, one));
    }
    found.build()
}
