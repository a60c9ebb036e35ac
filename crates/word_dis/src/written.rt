//! The source that the words ask for.

ghost use Rattle.std.specs.Prelude.{◌≡◌, IfErr, IfOk, false, option_map};
ghost use Rattle.marks_files.specs.Views.{marks_view};
ghost use Rattle.remarked_source.specs.Views.{beside_view};
ghost use Rattle.word_dis.specs.Views.{source_view};
ghost use Rattle.word_dis.specs.Word.{AreNames, EndsNames, names_map};
ghost use Rattle.word_dis.specs.Marks.{has_labels};
ghost use Rattle.word_dis.specs.Written.{AreMarked, AreMarkedBy, AreReached, IsText, IsWritten};
ghost use Rattle.word_dis.specs.Written.{beside_of, starts_of};
ghost use Rattle.reached.specs.Reached.{AreFollowed};
ghost use Rattle.model.specs.Source.{Denotes};
ghost use Rattle.model.specs.State.{Map, has_port_byte};

use crate::advice::is_at_port;
use crate::asked::SourceWords;
use crate::fill::kept;
use crate::marks::{between, marks_of, said_marks};
use crate::starts::{is_followed, starts_of};
use arguments::{Refusal, map_of};
use assembler::{Assembly, assemble};
use bus::{Image, Port};
use memory_map::DEFAULT_PORT;
use model::Profile;
use named_source::{Mark, flagged_text, labelled_text, named_text};
use reached::followed_marks;
use remarked_source::{Beside, joined_text, remarked_text, split_text};
use std::alloc::{AllocError, Global};

/// Returns what a source with names for addresses defines.
///
/// Errors: `Source` with the source's fault, or `OutOfMemory`.
#[tactic(auto, unfolding(model::specs::State::is_map))]
pub fn defined(alloc: Global, profile: Profile, source: &[u8]) -> Result<Assembly, Refusal>
    ensures denoted { IfOk result (λ a. Denotes (names_map profile) source.now a.image) }
    ensures named { IfOk result (λ a. AreNames profile source.now a.names) }
    ensures kept { IfOk result (λ a. a.source ≡ source.now) }
    ensures refused { IfErr result (EndsNames profile source.now) }
{
    let map = map_of(profile, None, Port::based(DEFAULT_PORT))?;
    let names = assemble(alloc, source, &map)?;
    Ok(names)
}

/// Whether there are labels.
fn has_labels(words: &SourceWords<'_>) -> bool
    ensures { result ≡ has_labels (source_view words.now) }
{
    words.labels
        || words.symbols.is_some()
        || words.said.definitions.len() > 0
        || words.said.splits.len() > 0
        || words.said.addresses.len() > 0
        || words.said.returns.len() > 0
}

/// The marks of the ranges.
fn plain_marks(alloc: Global, words: &SourceWords<'_>) -> Result<Vec<Mark>, AllocError>
    ensures { IfOk result (λ marks. AreMarked (source_view words.now) marks.items) }
{
    marks_of(alloc, has_labels(words), &words.said)
}

/// The marks after control was followed.
fn followed(
    alloc: Global,
    words: &SourceWords<'_>,
    part: &Image,
    plain: &[Mark],
) -> Result<Vec<Mark>, AllocError>
    ensures { IfOk result (λ marks. AreFollowed words.now.profile part.now plain.now
        (marks_view words.now.said).routines
        (starts_of part.now (source_view words.now)) marks.items) }
{
    let starts = starts_of(alloc, part, words)?;
    let routines = words.said.routines.as_slice();
    followed_marks(
        alloc,
        words.profile,
        part,
        plain,
        routines,
        starts.as_slice(),
    )
}

/// The marks of the ranges, after control was followed if that is asked for.
#[tactic(auto, using(crate::proofs::Parts::unfollowed, crate::proofs::Parts::followed))]
fn reached_marks(
    alloc: Global,
    words: &SourceWords<'_>,
    part: &Image,
) -> Result<Vec<Mark>, AllocError>
    ensures { IfOk result (λ marks. AreReached (source_view words.now) part.now marks.items) }
{
    let plain = plain_marks(alloc, words)?;
    if is_followed(words) {
        followed(alloc, words, part, plain.as_slice())
    } else {
        Ok(plain)
    }
}

/// The marks that the words ask for.
fn marked(alloc: Global, words: &SourceWords<'_>, part: &Image) -> Result<Vec<Mark>, AllocError>
    ensures { IfOk result (λ marks. AreMarkedBy (source_view words.now) part.now marks.items) }
{
    let reached = reached_marks(alloc, words, part)?;
    said_marks(
        alloc,
        words.said.instructions.as_slice(),
        reached.as_slice(),
    )
}

/// The source of an image with the marks and the names that are given.
fn source_of(
    alloc: Global,
    words: &SourceWords<'_>,
    image: &Image,
    marks: &[Mark],
    names: Option<&Assembly>,
) -> Result<Vec<u8>, AllocError>
    ensures says { IfOk result (λ text. IsText (source_view words.now) image.now marks.now
        (option_map (λ a. a.now.names) names.entry) text.items) }
    ensures denotes { IfOk result (λ text. (bus_map : Map) → bus_map.profile ≡ words.now.profile
        → has_port_byte bus_map image.now ≡ false → Denotes bus_map text.items image.now) }
{
    match names {
        Some(names) => named_text(alloc, words.profile, image, marks, names),
        None => {
            if has_labels(words) {
                labelled_text(alloc, words.profile, image, marks)
            } else {
                flagged_text(alloc, words.profile, image, marks, &[])
            }
        }
    }
}

/// What stands beside the lines.
fn beside_of<'a>(words: &'a SourceWords<'_>) -> Beside<'a>
    ensures { beside_view result ≡ beside_of (source_view words.now) }
{
    Beside {
        addresses: words.addresses,
        remarks: words.said.remarks.as_slice(),
        texts: words.said.texts.as_slice(),
    }
}

/// What is written, and what `asm` has to be told of it.
#[derive(Drop)]
pub struct SourceText {
    /// The source.
    pub text: Vec<u8>,
    /// Whether the image has bytes at the port.
    pub at_port: bool,
    /// How many bytes of the image are left out as fill.
    pub left_out: usize,
}

/// Returns the source of what an image has between the addresses of the words, as the words ask for
/// it: whatever they mark, name and comment, it denotes exactly this, without the runs of the fill
/// byte of the words. These are left out first, so control is followed to where they begin. With it
/// comes whether this has bytes at the port, and how many bytes are left out. The only error is
/// that a request for memory was refused.
pub fn written(
    alloc: Global,
    words: &SourceWords<'_>,
    image: &Image,
    names: Option<&Assembly>,
) -> Result<SourceText, AllocError>
    ensures { IfOk result (λ w. IsWritten (source_view words.now) image.now
        (option_map (λ a. a.now.names) names.entry) w.text.items w.at_port w.left_out) }
{
    let whole = between(alloc, image, words.first, words.last)?;
    let kept_part = kept(alloc, whole, words.fill)?;
    let part = &kept_part.part;
    let marks = marked(alloc, words, part)?;
    let plain = source_of(alloc, words, part, marks.as_slice(), names)?;
    let splits = words.said.splits.as_slice();
    let halves = split_text(alloc, words.profile, part, splits, plain)?;
    let strings = joined_text(alloc, words.profile, part, marks.as_slice(), halves)?;
    let text = remarked_text(alloc, words.profile, part, beside_of(words), strings)?;
    Ok(SourceText {
        text,
        at_port: is_at_port(part),
        left_out: kept_part.left_out,
    })
}
