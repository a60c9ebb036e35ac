//! What stands behind the lines of a source.

ghost use Rattle.std.specs.Prelude.{◌≡◌, ◌++◌, IfOk, List};
ghost use Rattle.json_messages.specs.ValueLists.{HasValues};
ghost use Rattle.lsp_hints.specs.Hints.{hints_at, hints_of, is_between, is_refused, width_of};
ghost use Rattle.serde_json.specs.Data.{Data};
ghost use Rattle.serde_json.specs.View.{view};
ghost use Rattle.source_faults.specs.Views.{found_view};
ghost use Rattle.source_notes.specs.Lines.{texts_of};

use crate::cycles::{place_of, place_words};
use json_messages::{Object, ValueList};
use lsp_messages::position;
use model::Profile;
use serde_json::Value;
use source_faults::{Found, Mending, lay_out};
use std::alloc::{AllocError, Global};
use symbols::Symbols;

/// The most bytes that a source has (mos65).
const SOURCE_SIZE: usize = 1_048_576;

/// Returns how many bytes a line has, by its index; 0 where there is none.
fn width_of(lines: &[&[u8]], index: usize) -> usize
    ensures { result ≡ width_of (texts_of lines.now) index }
{
    match lines.get(index) {
        Some(line) => line.len(),
        None => 0,
    }
}

/// Returns whether a line, counted from 0, is between two lines.
pub fn is_between(between: (u64, u64), number: u64) -> bool
    ensures { result ≡ is_between between number }
{
    between.0 <= number && number <= between.1
}

/// Puts what is shown of a line between two lines behind others, if it has bytes.
fn with_hint(
    alloc: Global,
    hints: ValueList,
    profile: Profile,
    lines: &[&[u8]],
    between: (u64, u64),
    index: usize,
    found: &Found<'_>,
) -> ValueList
    ensures { (ds : List Data) → HasValues ds hints → HasValues
        (ds ++ hints_at profile (texts_of lines.now) between index (found_view found.now)) result }
{
    if is_between(between, index as u64) {
        match place_of(profile, found) {
            Some((address, row)) => {
                let label = String::from_utf8_lossy(alloc, &place_words(address, row));
                let width = width_of(lines, index);
                let hint = Object::new(alloc)
                    .text("label", label)
                    .flag("paddingLeft", true)
                    .member("position", position(alloc, index as u64, width as u64))
                    .build();
                hints.with(hint)
            }
            None => hints,
        }
    } else {
        hints
    }
}

/// Returns whether a line has a fault of the layout.
fn is_refused(found: &Found<'_>) -> bool
    ensures { result ≡ is_refused (found_view found.now) }
{
    match found {
        Found::Refused { .. } => true,
        Found::Plain { .. } | Found::Bytes(_) => false,
    }
}

/// Returns what stands behind the lines of a source from one line to another, counted from 0: of
/// each line with bytes its address, and of an instruction its cycles too. A line that has a fault
/// of the layout has nothing, nor has a line behind it. The only error is that a request for memory
/// was refused.
pub fn hints_in(
    alloc: Global,
    profile: Profile,
    source: &[u8],
    lines: &[&[u8]],
    between: (u64, u64),
) -> Result<Value, AllocError>
    ensures { IfOk result
        (λ v. view v ≡ hints_of profile source.now (texts_of lines.now) between) }
{
    if source.len() > SOURCE_SIZE {
        return ValueList::new(alloc).build();
    }
    let mut symbols = Symbols::new(alloc);
    let Ok(found) = lay_out(alloc, profile, Mending::Smallest, &mut symbols, source) else {
        return Err(AllocError);
    };
    let mut hints = ValueList::new(alloc);
    for (index, one) in found.iter().enumerate() {
        if is_refused(one) {
            return hints.build();
        }
        hints = with_hint(alloc, hints, profile, lines, between, index, one);
    }
    hints.build()
}
