//! Where a file of the linker stands.

ghost use Rattle.std.specs.Prelude.{◌≡◌, map, option_map};
ghost use Rattle.debug_images.specs.Parts.{base_by, base_of, is_in, tells, with_base, with_other};
ghost use Rattle.debug_images.specs.Parts.{with_output, with_segment};
ghost use Rattle.debug_images.specs.declared.bases.Base.TheVariants.{Unknown};
ghost use Rattle.debug_records.specs.Views.{output_view, segment_view};

use debug_records::{Output, Segment};

/// Where the first byte of a file would be.
#[derive(Clone, Copy)]
pub enum Base {
    /// No segment tells it.
    Unknown,
    /// Segments agree.
    At(u32),
    /// They do not.
    Several,
}

/// Returns where a file stands by what was found, and by another segment.
fn with_other(so_far: Base, base: u32) -> Base
    ensures { result ≡ with_other so_far base }
{
    match so_far {
        Base::Unknown => Base::At(base),
        Base::At(other) => { if other == base { so_far } else { Base::Several } }
        Base::Several => Base::Several,
    }
}

/// Returns where a file stands that has a segment's bytes behind some others.
fn with_base(so_far: Base, start: u32, offset: u32) -> Base
    ensures { result ≡ with_base so_far start offset }
{
    if start < offset {
        Base::Several
    } else {
        with_other(so_far, start - offset)
    }
}

/// Returns whether bytes are in a file.
fn is_in(file: &[u8], output: Option<Output<'_>>) -> bool
    ensures { result ≡ is_in file.now (option_map output_view output.entry) }
{
    match output {
        None => false,
        Some(output) => output.name == file,
    }
}

/// Returns whether a segment tells where its file stands: a read-only one, or any.
pub fn tells(any: bool, file: &[u8], segment: Segment<'_>) -> bool
    ensures { result ≡ tells any file.now (segment_view segment.entry) }
{
    0 < segment.size && (any || segment.is_read_only) && is_in(file, segment.output)
}

/// Returns where a file stands by what was found, and by bytes of a segment.
fn with_output(so_far: Base, start: u32, output: Option<Output<'_>>) -> Base
    ensures { result ≡ with_output so_far start (option_map output_view output.entry) }
{
    match output {
        None => so_far,
        Some(output) => with_base(so_far, start, output.offset),
    }
}

/// Returns where a file stands by what was found, and by a segment, if that tells it.
fn with_segment(any: bool, file: &[u8], so_far: Base, segment: Option<Segment<'_>>) -> Base
    ensures { result
        ≡ with_segment any file.now so_far (option_map segment_view segment.entry) }
{
    match segment {
        None => so_far,
        Some(segment) => {
            if tells(any, file, segment) {
                with_output(so_far, segment.start, segment.output)
            } else {
                so_far
            }
        }
    }
}

/// Returns where a file stands by its read-only segments, or by any.
fn base_by(any: bool, file: &[u8], segments: &[Option<Segment<'_>>]) -> Base
    ensures { result
        ≡ base_by any file.now Unknown (map (option_map segment_view) segments.now) }
{
    let mut so_far = Base::Unknown;
    for segment in segments {
        so_far = with_segment(any, file, so_far, *segment);
    }
    so_far
}

/// Returns where a file stands: its read-only segments tell it, if it has some, and otherwise all.
pub fn base_of(file: &[u8], segments: &[Option<Segment<'_>>]) -> Base
    ensures { result ≡ base_of file.now (map (option_map segment_view) segments.now) }
{
    match base_by(false, file, segments) {
        Base::Unknown => base_by(true, file, segments),
        base => base,
    }
}
