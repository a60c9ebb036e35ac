//! The values of places.

ghost use Rattle.std.specs.Prelude.{◌≡◌, IfOk};
ghost use Rattle.lsp_messages.specs.Values.{location_data, position_data, range_data};
ghost use Rattle.serde_json.specs.Data.{Data};
ghost use Rattle.serde_json.specs.View.{view};

use json_messages::Object;
use serde_json::Value;
use std::alloc::{AllocError, Global};

/// Returns the value of a place.
pub fn position(alloc: Global, line: u64, character: u64) -> Result<Value, AllocError>
    ensures { IfOk result (λ v. view v ≡ position_data line character) }
{
    Object::new(alloc)
        .count("character", character)
        .count("line", line)
        .build()
}

/// Returns the value of a range within a line: from one column up to another.
pub fn range(alloc: Global, line: u64, from: u64, to: u64) -> Result<Value, AllocError>
    ensures { IfOk result (λ v. view v ≡ range_data line from to) }
{
    let start = position(alloc, line, from);
    Object::new(alloc)
        .member("end", position(alloc, line, to))
        .member("start", start)
        .build()
}

/// Returns the value of a range of a document, if there is memory for both.
pub fn location(
    alloc: Global,
    uri: &str,
    range: Result<Value, AllocError>,
) -> Result<Value, AllocError>
    ensures { (r : Data) → IfOk range (λ v. view v ≡ r)
        → IfOk result (λ v. view v ≡ location_data uri.now r) }
{
    Object::new(alloc)
        .member("range", range)
        .word("uri", uri)
        .build()
}
