//! The colours as the protocol counts them.

ghost use Rattle.std.specs.Prelude.{◌≡◌, ◌++◌, IfOk, List};
ghost use Rattle.json_messages.specs.ValueLists.{HasValues};
ghost use Rattle.lsp_hints.specs.Painted.{paint_counts, painted};
ghost use Rattle.serde_json.specs.Data.{Data};
ghost use Rattle.serde_json.specs.View.{view};
ghost use Rattle.source_notes.specs.Lines.{texts_of};

use crate::paint::{Paint, push_lines};
use json_messages::{Object, ValueList};
use model::Profile;
use serde_json::Value;
use std::alloc::{AllocError, Global};

/// Puts the five numbers of a part of a text that comes after a start in a line behind others. In
/// its own line it is as far behind as it starts there.
fn with_paint(counts: ValueList, line: usize, start: usize, paint: &Paint) -> ValueList
    ensures { (ds : List Data) → HasValues ds counts
        → HasValues (ds ++ paint_counts line start paint.now) result }
{
    let further = if paint.line == line {
        paint.start.saturating_sub(start)
    } else {
        paint.start
    };
    let numbers = paint.colour.numbers();
    counts
        .with(Ok(Value::from(paint.line.saturating_sub(line))))
        .with(Ok(Value::from(further)))
        .with(Ok(Value::from(paint.width)))
        .with(Ok(Value::from(numbers.0)))
        .with(Ok(Value::from(numbers.1)))
}

/// Returns the colours of the lines of a source, or of those between two, counted from 0: of each
/// token but symbols, and of each comment, in their order. A line that is not made of tokens has
/// none. The only error is that a request for memory was refused.
pub fn painted(
    alloc: Global,
    profile: Profile,
    between: Option<(u64, u64)>,
    lines: &[&[u8]],
) -> Result<Value, AllocError>
    ensures { IfOk result (λ v. view v ≡ painted profile between (texts_of lines.now)) }
{
    let mut paints = Vec::new(alloc);
    push_lines(alloc, &mut paints, profile, between, lines)?;
    let mut counts = ValueList::new(alloc);
    let mut line = 0;
    let mut start = 0;
    for paint in &paints {
        counts = with_paint(counts, line, start, paint);
        line = paint.line;
        start = paint.start;
    }
    Object::new(alloc).member("data", counts.build()).build()
}
