//! The segments of a debug file.

ghost use Rattle.std.specs.Prelude.{◌≡◌, ◌++◌, OnOk, map, option_map, string_bytes};
ghost use Rattle.debug_facts.specs.Rows.{has_address, hidden_row, known_segment_row, name_if, names_text};
ghost use Rattle.debug_facts.specs.Rows.{output_text, place_text, segment_row, segment_rows};
ghost use Rattle.debug_facts.specs.Rows.{some_segment_row, stretch_text};
ghost use Rattle.debug_records.specs.Views.{output_view, segment_view};

use crate::files::push_shown;
use crate::wording;
use debug_records::{Output, Segment};
use std::alloc::{AllocError, Global};

/// Appends two addresses, or more where a number has more digits.
#[tactic(auto, unfolding(crate::specs::Rows::stretch_text))]
fn push_stretch(words: &mut String, first: u64, last: u64) -> Result<(), AllocError>
    ensures { OnOk result (string_bytes words.new
        ≡ string_bytes words.old ++ stretch_text first last) }
{
    write!(words, "{first:04X}-{last:04X}")
}

/// Appends a file of the linker, and a place in it.
#[tactic(auto, unfolding(crate::specs::Rows::output_text))]
fn push_output(alloc: Global, words: &mut String, output: Output<'_>) -> Result<(), AllocError>
    ensures { OnOk result (string_bytes words.new
        ≡ string_bytes words.old ++ output_text (output_view output.entry)) }
{
    let offset = output.offset;
    words.push_str("  ")?;
    push_shown(alloc, words, output.name)?;
    write!(words, "+{offset:04X}")
}

/// Appends where the bytes of a segment are, if they are in a file of the linker.
fn push_place(
    alloc: Global,
    words: &mut String,
    output: Option<Output<'_>>,
) -> Result<(), AllocError>
    ensures { OnOk result (string_bytes words.new
        ≡ string_bytes words.old ++ place_text (option_map output_view output.entry)) }
{
    match output {
        None => Ok(()),
        Some(output) => push_output(alloc, words, output),
    }
}

/// Appends the row of a segment that has bytes.
#[tactic(auto, unfolding(crate::specs::Rows::known_segment_row))]
fn push_known_segment(
    alloc: Global,
    words: &mut String,
    segment: Segment<'_>,
) -> Result<(), AllocError>
    ensures { OnOk result (string_bytes words.new
        ≡ string_bytes words.old ++ known_segment_row (segment_view segment.entry)) }
{
    let first = segment.start as u64;
    let last = (first + segment.size as u64).saturating_sub(1);
    words.push_str(wording::SEGMENT_ROW)?;
    push_shown(alloc, words, segment.name)?;
    words.push_str("  ")?;
    push_stretch(words, first, last)?;
    push_place(alloc, words, segment.output)?;
    words.push_str("\n")
}

/// Appends the row of a segment, if it has bytes.
fn push_some_segment(
    alloc: Global,
    words: &mut String,
    segment: Segment<'_>,
) -> Result<(), AllocError>
    ensures { OnOk result (string_bytes words.new
        ≡ string_bytes words.old ++ some_segment_row (segment_view segment.entry)) }
{
    if 0 < segment.size {
        push_known_segment(alloc, words, segment)
    } else {
        Ok(())
    }
}

/// Appends the row of a segment, if there is one of the number that has bytes.
fn push_segment(
    alloc: Global,
    words: &mut String,
    segment: Option<Segment<'_>>,
) -> Result<(), AllocError>
    ensures { OnOk result (string_bytes words.new
        ≡ string_bytes words.old ++ segment_row (option_map segment_view segment.entry)) }
{
    match segment {
        None => Ok(()),
        Some(segment) => push_some_segment(alloc, words, segment),
    }
}

/// Appends a row for each segment that has bytes.
pub fn push_segments(
    alloc: Global,
    words: &mut String,
    segments: &[Option<Segment<'_>>],
) -> Result<(), AllocError>
    ensures { OnOk result (string_bytes words.new ≡ string_bytes words.old
        ++ segment_rows (map (option_map segment_view) segments.now)) }
{
    for segment in segments {
        push_segment(alloc, words, *segment)?;
    }
    Ok(())
}

/// Returns whether a segment has an address from one to another.
fn has_address(first: u16, last: u16, segment: Segment<'_>) -> bool
    ensures { result ≡ has_address first last (segment_view segment.entry) }
{
    let start = segment.start as u64;
    0 < segment.size && start <= last as u64 && (first as u64) < start + segment.size as u64
}

/// Appends the name of a segment, if it has an address from one to another.
fn push_name(
    alloc: Global,
    words: &mut String,
    first: u16,
    last: u16,
    segment: Option<Segment<'_>>,
) -> Result<(), AllocError>
    ensures { OnOk result (string_bytes words.new ≡ string_bytes words.old
        ++ name_if first last (option_map segment_view segment.entry)) }
{
    match segment {
        None => Ok(()),
        Some(segment) => {
            if has_address(first, last, segment) {
                words.push_str(" ")?;
                push_shown(alloc, words, segment.name)
            } else {
                Ok(())
            }
        }
    }
}

/// Appends the names of the segments that have an address from one to another.
fn push_names(
    alloc: Global,
    words: &mut String,
    first: u16,
    last: u16,
    segments: &[Option<Segment<'_>>],
) -> Result<(), AllocError>
    ensures { OnOk result (string_bytes words.new ≡ string_bytes words.old
        ++ names_text first last (map (option_map segment_view) segments.now)) }
{
    for segment in segments {
        push_name(alloc, words, first, last, *segment)?;
    }
    Ok(())
}

/// Appends the row of addresses, from one to another, of which no line is shown: with the segments
/// that stand there.
///
/// Errors: `AllocError` if an allocation fails.
#[tactic(auto, unfolding(crate::specs::Rows::hidden_row))]
pub fn push_hidden(
    alloc: Global,
    words: &mut String,
    first: u16,
    last: u16,
    segments: &[Option<Segment<'_>>],
) -> Result<(), AllocError>
    ensures { OnOk result (string_bytes words.new ≡ string_bytes words.old
        ++ hidden_row first last (map (option_map segment_view) segments.now)) }
{
    words.push_str(wording::HIDDEN_ROW)?;
    push_stretch(words, first as u64, last as u64)?;
    words.push_str(wording::NONE_SHOWN)?;
    push_names(alloc, words, first, last, segments)?;
    words.push_str("\n")
}
