//! The files that have the bytes of a program.

ghost use Rattle.std.specs.Prelude.{◌≡◌, IfOk, OnOk, map, option_map};
ghost use Rattle.std.specs.Option.{option_copied};
ghost use Rattle.debug_images.specs.Parts.{address_of, end_by, end_with, first_unplaced, has_file};
ghost use Rattle.debug_images.specs.Parts.{part_view, parts_of, with_end, with_file, with_file_if};
ghost use Rattle.debug_images.specs.Parts.{with_record};
ghost use Rattle.debug_records.specs.Views.{output_view, segment_view};

use crate::bases::{Base, base_of, tells};
use debug_records::{Output, Segment};
use std::alloc::{AllocError, Global};

/// A file, and where it stands.
#[derive(Clone, Copy)]
pub struct Part<'a> {
    pub file: &'a [u8],
    pub base: Base,
}

/// Returns whether a file is among some.
fn has_file(file: &[u8], parts: &[Part<'_>]) -> bool
    ensures { result ≡ has_file file.now (map part_view parts.now) }
{
    for part in parts {
        if part.file == file {
            return true;
        }
    }
    false
}

/// Appends a file, if it is not there yet.
fn push_file<'a>(
    segments: &[Option<Segment<'_>>],
    parts: &mut Vec<Part<'a>>,
    file: &'a [u8],
) -> Result<(), AllocError>
    ensures { OnOk result (map part_view parts.new.items
        ≡ with_file (map (option_map segment_view) segments.now) (map part_view parts.old.items)
        file.now) }
{
    if has_file(file, parts) {
        return Ok(());
    }
    let base = base_of(file, segments);
    parts.push(Part { file, base })?;
    Ok(())
}

/// Appends the file that has a segment's bytes, if it has some.
fn push_output<'a>(
    segments: &[Option<Segment<'_>>],
    parts: &mut Vec<Part<'a>>,
    size: u32,
    output: Option<Output<'a>>,
) -> Result<(), AllocError>
    ensures { OnOk result (map part_view parts.new.items
        ≡ with_file_if (map (option_map segment_view) segments.now) (map part_view parts.old.items)
        size (option_map output_view output.entry)) }
{
    match output {
        None => Ok(()),
        Some(output) => {
            if 0 < size {
                push_file(segments, parts, output.name)
            } else {
                Ok(())
            }
        }
    }
}

/// Appends the file that has the bytes of a segment.
fn push_segment<'a>(
    segments: &[Option<Segment<'_>>],
    parts: &mut Vec<Part<'a>>,
    segment: Option<Segment<'a>>,
) -> Result<(), AllocError>
    ensures { OnOk result (map part_view parts.new.items
        ≡ with_record (map (option_map segment_view) segments.now) (map part_view parts.old.items)
        (option_map segment_view segment.entry)) }
{
    match segment {
        None => Ok(()),
        Some(segment) => push_output(segments, parts, segment.size, segment.output),
    }
}

/// Returns the files that have the bytes of segments, and where each stands. The only error is that
/// an allocation failed.
pub fn parts_of<'a>(
    alloc: Global,
    segments: &[Option<Segment<'a>>],
) -> Result<Vec<Part<'a>>, AllocError>
    ensures { IfOk result (λ parts. map part_view parts.items
        ≡ parts_of (map (option_map segment_view) segments.now)) }
{
    let mut parts = Vec::new(alloc);
    for segment in segments {
        push_segment(segments, &mut parts, *segment)?;
    }
    Ok(parts)
}

/// Returns how many bytes a file has at least, by what was found and by bytes of a segment.
fn end_with(so_far: u64, size: u32, output: Option<Output<'_>>) -> u64
    ensures { result ≡ end_with so_far size (option_map output_view output.entry) }
{
    match output {
        None => so_far,
        Some(output) => {
            let end = output.offset as u64 + size as u64;
            if so_far < end { end } else { so_far }
        }
    }
}

/// Returns how many bytes a file has at least, by what was found and by a segment.
fn with_end(file: &[u8], so_far: u64, segment: Option<Segment<'_>>) -> u64
    ensures { result ≡ with_end file.now so_far (option_map segment_view segment.entry) }
{
    match segment {
        None => so_far,
        Some(segment) => {
            if tells(true, file, segment) {
                end_with(so_far, segment.size, segment.output)
            } else {
                so_far
            }
        }
    }
}

/// Returns how many bytes a file has at least, by its segments.
pub fn end_of(file: &[u8], segments: &[Option<Segment<'_>>]) -> u64
    ensures { result ≡ end_by file.now 0 (map (option_map segment_view) segments.now) }
{
    let mut so_far = 0u64;
    for segment in segments {
        so_far = with_end(file, so_far, *segment);
    }
    so_far
}

/// Returns the address where a file stands, if that is known.
pub fn address_of(base: Base) -> Option<u16>
    ensures { result ≡ address_of base }
{
    match base {
        Base::At(base) => {
            if base <= 65535 {
                Some(base as u16)
            } else {
                None
            }
        }
        Base::Unknown | Base::Several => None,
    }
}

/// Returns the first file of which it is not known where it stands.
pub fn first_unplaced<'a>(parts: &[Part<'a>]) -> Option<&'a [u8]>
    ensures { option_copied result ≡ first_unplaced (map part_view parts.now) }
{
    for part in parts {
        if address_of(part.base).is_none() {
            return Some(part.file);
        }
    }
    None
}
