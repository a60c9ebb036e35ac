//! The lines of a source, put together with what the layout found of them.

ghost use Rattle.std.specs.Prelude.{◌≡◌, ◌≤◌, ◌++◌, ◌∷◌, IfOk, OnOk, [], drop, length};
ghost use Rattle.line_parts.specs.Contents.{map_option};
ghost use Rattle.line_parts.specs.LineViews.{line_view};
ghost use Rattle.model.specs.Layout.{size_of};
ghost use Rattle.model.specs.TextLines.{lines_of};
ghost use Rattle.source_faults.specs.Views.{found_all, found_view};
ghost use Rattle.warnings.specs.Placed.{if_bytes, meaning_of, placed_line, placed_lines};
ghost use Rattle.warnings.specs.Views.{placed_views};

use crate::brackets::is_bracketed;
use crate::placed_line::{Extent, PlacedLine};
use asm_line::read_line_with;
use line_parts::{Line, LineError, Token, next_line};
use model::Profile;
use source_faults::Found;
use std::alloc::{AllocError, Global};

/// The lines of a source up to `.END`, and the text after them.
#[derive(Drop)]
pub struct PlacedLines<'a> {
    pub lines: Vec<PlacedLine<'a>>,
    pub behind: &'a [u8],
}

/// The address of a line's bytes, or 0 without bytes, and their count.
#[tactic(auto, unfolding(model::specs::Layout::size_of))]
fn extent_of(found: &Found<'_>) -> Extent
    ensures count { result.count ≡ size_of (found_view found.now).place.content }
    ensures address { result.address
        ≡ if_bytes (size_of (found_view found.now).place.content)
        (found_view found.now).place.address }
{
    match found {
        Found::Bytes(line) => {
            if line.count == 0 {
                Extent {
                    address: 0,
                    count: 0,
                }
            } else {
                Extent {
                    address: line.address,
                    count: line.count,
                }
            }
        }
        Found::Refused { .. } | Found::Plain { .. } => Extent {
            address: 0,
            count: 0,
        },
    }
}

/// Returns what a text says in a profile, or `None` if it cannot be read. Its tokens are put into
/// `room` in place of its contents.
///
/// The only error is that a request for memory was refused.
pub fn meaning_of<'a>(
    alloc: Global,
    profile: Profile,
    room: &mut Vec<Token<'a>>,
    text: &'a [u8],
) -> Result<Option<Line<'a>>, AllocError>
    ensures { IfOk result (λ line. map_option line_view line ≡ meaning_of profile text.now) }
{
    match read_line_with(alloc, profile, room, text) {
        Ok(line) => Ok(Some(line)),
        Err(LineError::Kind(_)) => Ok(None),
        Err(LineError::Memory) => Err(AllocError),
    }
}

/// Appends a line of which the layout found this.
fn place_line<'a>(
    alloc: Global,
    profile: Profile,
    lines: &mut Vec<PlacedLine<'a>>,
    room: &mut Vec<Token<'a>>,
    text: &'a [u8],
    found: &Found<'_>,
) -> Result<(), AllocError>
    ensures { OnOk result (placed_views lines.new.items ≡ placed_views lines.old.items
        ++ placed_line profile text.now (found_view found.now) ∷ []) }
{
    let line = meaning_of(alloc, profile, room, text)?;
    let extent = extent_of(found);
    match is_bracketed(profile, room, text, &line) {
        Ok(bracketed) => {
            lines.push(PlacedLine {
                text,
                line,
                address: extent.address,
                count: extent.count,
                bracketed,
            })?;
            Ok(())
        }
        Err(error) => {
            drop(line);
            Err(error)
        }
    }
}

/// Appends the lines of a source of which the layout found these to an empty list, one after
/// another. Returns the text after them.
fn place_lines<'a>(
    alloc: Global,
    profile: Profile,
    lines: &mut Vec<PlacedLine<'a>>,
    room: &mut Vec<Token<'a>>,
    source: &'a [u8],
    found: &[Found<'_>],
) -> Result<&'a [u8], AllocError>
    requires { lines.old.items ≡ [] }
    ensures lines { OnOk result (placed_views lines.new.items
        ≡ placed_lines profile (lines_of source.now) (found_all found.now)) }
    ensures behind { IfOk result (λ behind. lines_of behind.now
        ≡ drop (length found.now) (lines_of source.now)) }
    ensures few { OnOk result (length lines.new.items ≤ length found.now) }
    ensures short { IfOk result (λ behind. length behind.now ≤ length source.now) }
{
    let mut rest = source;
    for one in found {
        if rest.is_empty() {
            return Ok(rest);
        }
        let (text, behind) = next_line(rest);
        place_line(alloc, profile, lines, room, text, one)?;
        rest = behind;
    }
    Ok(rest)
}

/// Returns the lines of a source of which the layout found these, one after another, and the text
/// after them.
///
/// The only error is that a request for memory was refused.
pub fn placed_lines<'a>(
    alloc: Global,
    profile: Profile,
    source: &'a [u8],
    found: &[Found<'_>],
) -> Result<PlacedLines<'a>, AllocError>
    ensures lines { IfOk result (λ p. placed_views p.lines.items
        ≡ placed_lines profile (lines_of source.now) (found_all found.now)) }
    ensures behind { IfOk result (λ p. lines_of p.behind.now
        ≡ drop (length found.now) (lines_of source.now)) }
    ensures few { IfOk result (λ p. length p.lines.items ≤ length found.now) }
    ensures short { IfOk result (λ p. length p.behind.now ≤ length source.now) }
{
    let mut lines = Vec::new(alloc);
    let mut room = Vec::new(alloc);
    let behind = place_lines(alloc, profile, &mut lines, &mut room, source, found)?;
    Ok(PlacedLines { lines, behind })
}
